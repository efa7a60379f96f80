//! What the definitions of this crate imply. Each function is one law; none does anything but name the laws below that its
//! proof takes.
ghost use Rattle.std.specs.Prelude.{◌≡◌, ◌++◌, ℕ, List, [], length, Ok, Result, Some, slice_get};
ghost use Rattle.std.specs.List.{AllByRecursion};
ghost use Rattle.hgs_bytes.specs.Bytes.{IsPrefixOf};
ghost use Rattle.hgs_files.specs.declared.op.Op.{Op};
ghost use Rattle.hgs_headline.specs.WritersLog.{WritersLog, course_of};
ghost use Rattle.hgs_legal.specs.LegalLog.{IsLegal};
ghost use Rattle.hgs_legal.specs.Numbers.{n_of, repo_at};
ghost use Rattle.hgs_load.specs.Asks.{Asks, MayAnswer, answer};
ghost use Rattle.hgs_load.specs.Refresh.{refresh_asks};
ghost use Rattle.hgs_load.specs.View.{View};
ghost use Rattle.hgs_load.specs.declared.answer.ReadAnswer.{ReadAnswer};
ghost use Rattle.hgs_played.specs.Below.{Laws};
ghost use Rattle.hgs_played.specs.Loads.{IsLoaded, ReadersSee};
ghost use Rattle.hgs_played.specs.Shown.{ShowsCommands};
ghost use Rattle.hgs_played.specs.Since.{Beginning, Begins, GoesOn, IsPlayed, KeepsLog, tree_at};
ghost use Rattle.hgs_schedule.specs.Schedule.{CanCome};
ghost use Rattle.hgs_schedule.specs.declared.event.Event.{Event};
ghost use Rattle.hgs_views.specs.Course.{OpensAlong};
ghost use Rattle.hgs_views.specs.Seen.{IsLoadedBetween, NoneFell, Numbers};
ghost use Rattle.hgs_world.specs.Follows.{Keeps};
ghost use Rattle.hgs_world.specs.Plays.{Plays};
ghost use Rattle.hgs_world.specs.Questions.{Sight, load_answer, load_line, next_question};
ghost use Rattle.hgs_world.specs.Texts.{loaded_line};
ghost use Rattle.hgs_world.specs.World.{Happens, IsFirst, Scene, tree_of};

use hgs_headline::laws::{
    legal_logs_are_writers_logs, loads_beside_writers, numbers_of_loads, views_beside_writers,
};
use hgs_legal::laws::{logs_show, numbers_rise};
use hgs_legal::list_laws::writers_keep_lists;
use hgs_machine::laws::{machines_go_on, machines_may_stop_anywhere, progress_stays};
use hgs_recover::laws::{nothing_but_leftovers_is_removed, recovering_leads_back};
use hgs_stands::laws::stands_for_one;
use hgs_world::laws::{events_keep_their_commands, writers_go_on};
use hgs_writer::piece_laws::refusals_are_for_files;
use hgs_writer::turn_laws::{
    calls_beside_a_journal_publish_nothing, calls_publish_their_own_turns, states_at_rest_stand,
};

/// From one event to the next a play is in one log, which goes on with what the event did; a recovery begins a new one, with readers
/// that have loaded nothing. Such a log is legal from the tree where it began, and has published what the play has published.
pub fn events_keep_their_log()
    ensures first { (readers : ℕ) (s : Scene) → IsFirst readers s → (b : Beginning) × KeepsLog s b [] }
    ensures keeps { (readers : ℕ) (event : Event) (old new : Scene) (text : List ℕ) (b : Beginning) (log : List Op) → CanCome readers event → Keeps old → KeepsLog old b log → Happens event old new text → (c : Beginning) × (more : List Op) × GoesOn event new b log c more × KeepsLog new c more }
    ensures played { (s : Scene) (b : Beginning) (log : List Op) → KeepsLog s b log → (h : WritersLog) × (h.log ≡ log) × IsPlayed s b h }
    ensures legal { (s : Scene) (b : Beginning) (h : WritersLog) → Begins s.start b → IsPlayed s b h → IsLegal h.start h.log }
{
    laws_below();
    stands_for_one();
}

/// From one event to the next, what each reader has loaded, and the reads of the load that it is making, have their places in the log
/// that the play is in.
pub fn events_keep_what_readers_see()
    ensures first { (readers : ℕ) (s : Scene) (b : Beginning) (log : List Op) → IsFirst readers s → ReadersSee s b log }
    ensures keeps { (event : Event) (old new : Scene) (text : List ℕ) (b c : Beginning) (log more : List Op) → KeepsLog old b log → ReadersSee old b log → Happens event old new text → GoesOn event new b log c more → ReadersSee new c more }
{}

/// Where a play keeps its log, its files show the repositories to which the commands that it has published lead, replayed from the
/// empty one: the changesets and phases behind all of them, also of those that are not acknowledged, and the working parents and the
/// bookmarks behind no more.
pub fn logs_show_their_commands()
    ensures { (s : Scene) (b : Beginning) (log : List Op) → KeepsLog s b log → ShowsCommands (tree_of s) s.book.published }
{
    events_keep_their_log();
    logs_show();
    numbers_rise();
}

/// So it is at each moment of a play: its log since it began, or since it was last recovered, is one that writers make from a tree that is
/// clean for what the commands before lead to; what it has published are those commands and behind them the commands of that log's
/// transactions, in their order; its readers have their loads in that log; and its files show what the commands lead to.
pub fn plays_show_their_commands()
    ensures { (readers : ℕ) (events : List Event) (first last : Scene) (text : List ℕ) → AllByRecursion (CanCome readers) events → IsFirst readers first → Plays events first last text →
        (b : Beginning) × (h : WritersLog) × Begins last.start b × IsPlayed last b h × ReadersSee last b h.log × ShowsCommands (tree_of last) last.book.published }
{
    events_keep_their_commands();
    events_keep_their_log();
    events_keep_what_readers_see();
    logs_show_their_commands();
}

/// What a reader of such a log has loaded is a view of moments of that log, whichever run of writers it is, where each tree of it
/// is within the limits of a load; and from one load to the next no number falls.
pub fn loads_are_views()
    ensures views { (h : WritersLog) (first last : List Op) (view : View) → OpensAlong (course_of h) [] h.log → IsPrefixOf last h.log → IsLoaded h.start first last view → (v : Numbers) × IsLoadedBetween (course_of h) first last v view }
    ensures rise { (h : WritersLog) (began ended first last : List Op) (old : View) (y : Result View ReadAnswer) → OpensAlong (course_of h) [] h.log → IsLoaded h.start began ended old → IsPrefixOf ended first → IsPrefixOf last h.log → MayAnswer h.start first (refresh_asks old) last y →
        (v : Numbers) × (w : Numbers) × (view : View) × (y ≡ Ok view) × IsLoadedBetween (course_of h) began ended v old × IsLoadedBetween (course_of h) first last w view × NoneFell v w }
{
    loads_beside_writers();
}

/// So within those limits a reader of a play has loaded such a view. A load that is made at once is never refused, finds no damage, and
/// writes how many changesets the repository has behind all that was published; and one that is made read by read ends in such a view.
pub fn no_load_of_a_play_is_refused()
    ensures views { (s : Scene) (b : Beginning) (h : WritersLog) (number : ℕ) (r : Sight) (view : View) → IsPlayed s b h → OpensAlong (course_of h) [] h.log → ReadersSee s b h.log → slice_get s.readers number ≡ Some r → r.last ≡ Some view →
        (first : List Op) × (last : List Op) × (v : Numbers) × IsPrefixOf last h.log × IsLoadedBetween (course_of h) first last v view }
    ensures loads { (s : Scene) (b : Beginning) (h : WritersLog) (number : ℕ) (r : Sight) → IsPlayed s b h → OpensAlong (course_of h) [] h.log → ReadersSee s b h.log → slice_get s.readers number ≡ Some r →
        (v : Numbers) × (view : View) × (load_answer (tree_of s) r.last ≡ Ok view) × IsLoadedBetween (course_of h) h.log h.log v view × (load_line (tree_of s) r ≡ loaded_line (length (repo_at h.last (n_of h.last)).changesets)) }
    ensures reads { (s : Scene) (b : Beginning) (h : WritersLog) (number : ℕ) (r : Sight) (question : Asks (Result View ReadAnswer)) (y : Result View ReadAnswer) → IsPlayed s b h → OpensAlong (course_of h) [] h.log → ReadersSee s b h.log → slice_get s.readers number ≡ Some r → r.load ≡ Some question → next_question (tree_of s) question ≡ answer y →
        (first : List Op) × (v : Numbers) × (view : View) × (y ≡ Ok view) × IsLoadedBetween (course_of h) first h.log v view }
{
    loads_beside_writers();
    numbers_of_loads();
    views_beside_writers();
    legal_logs_are_writers_logs();
}

// What the laws of the crates below say.
fn laws_below()
    ensures { Laws }
{
    machines_go_on();
    machines_may_stop_anywhere();
    progress_stays();
    writers_go_on();
    numbers_rise();
    states_at_rest_stand();
    calls_publish_their_own_turns();
    calls_beside_a_journal_publish_nothing();
    refusals_are_for_files();
    writers_keep_lists();
    recovering_leads_back();
    nothing_but_leftovers_is_removed();
    events_keep_their_commands();
}
