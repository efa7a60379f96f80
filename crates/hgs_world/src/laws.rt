//! What the definitions of this crate imply. Each function is one law; none does anything but name the laws below that its
//! proof takes.
ghost use Rattle.std.specs.Prelude.{◌≡◌, ◌++◌, ℕ, List};
ghost use Rattle.std.specs.List.{AllByRecursion};
ghost use Rattle.hgs_files.specs.declared.op.Op.{Op};
ghost use Rattle.hgs_files.specs.Tree.{Tree, after_all};
ghost use Rattle.hgs_legal.specs.ListsPaths.{ListsPaths};
ghost use Rattle.hgs_legal.specs.Pieces.{Pieces};
ghost use Rattle.hgs_machine.specs.SoFar.{stopped_as};
ghost use Rattle.hgs_model.specs.declared.command.Command.{Command};
ghost use Rattle.hgs_model.specs.Repo.{Repo};
ghost use Rattle.hgs_model.specs.Step.{step};
ghost use Rattle.hgs_model.specs.Valid.{IsValid};
ghost use Rattle.hgs_stands.specs.Stands.{Stands};
ghost use Rattle.hgs_writer.specs.Alone.{IsAnswered};
ghost use Rattle.hgs_writer.specs.Outcomes.{outcome_of_ended};
ghost use Rattle.hgs_schedule.specs.Schedule.{CanCome};
ghost use Rattle.hgs_schedule.specs.declared.event.Event.{Event};
ghost use Rattle.hgs_world.specs.Below.{Laws};
ghost use Rattle.hgs_world.specs.Book.{IsCounted, acknowledged_of};
ghost use Rattle.hgs_world.specs.Follows.{Follows, Keeps};
ghost use Rattle.hgs_world.specs.Moments.{HasCome};
ghost use Rattle.hgs_world.specs.Plays.{Plays};
ghost use Rattle.hgs_world.specs.Working.{Acts, HasBytes, RunsTo};
ghost use Rattle.hgs_world.specs.World.{Happens, IsFirst, Scene};
ghost use Rattle.hgs_world.specs.declared.working.Deed.{Deed};
ghost use Rattle.hgs_world.specs.declared.working.Goal.{Goal};
ghost use Rattle.hgs_world.specs.declared.working.Working.{Working};

use hgs_legal::laws::pieces_end;
use hgs_legal::list_laws::{
    fronts_list_paths, new_repositories_list_paths, pieces_keep_lists, recoveries_keep_lists,
};
use hgs_machine::laws::{machines_go_on, machines_may_stop_anywhere, progress_stays};
use hgs_recover::laws::{nothing_but_leftovers_is_removed, recovering_leads_back};
use hgs_stands::laws::requires_alone;
use hgs_writer::laws::calls_leave_what_they_answer;
use hgs_writer::piece_laws::{
    locks_do_not_matter, refusals_are_for_files, refusals_are_pieces,
    turned_away_writers_keep_open_trees,
};

/// What a writer has done, and what an event makes it do more, is what it has done then: parts of operations, failures, and
/// operations up to a goal, whatever events come.
pub fn writers_go_on()
    ensures acts { (command : Command) (t : Tree) (w : Working) (done : List Op) (deed : Deed) (more : List Op) (after : Working) → HasCome command t w done → HasBytes deed → Acts deed (after_all done t) w more after → HasCome command t after (done ++ more) }
    ensures runs { (command : Command) (t : Tree) (w : Working) (done : List Op) (goal : Goal) (more : List Op) (after : Working) → HasCome command t w done → RunsTo goal (after_all done t) w more after → HasCome command t after (done ++ more) }
{
    machines_go_on();
}

/// At each moment of a writer that began at a tree which stands for a repository and lists only names of paths, also with a part of an
/// operation done: what it has done is made of pieces of a legal log, and the tree is what a call leaves that ends as the writer does which does
/// nothing more. So it stands for the repository before or is open for it, and for the next one where the writer is done.
pub fn writers_may_stop_anywhere()
    ensures pieces { (t : Tree) (r : Repo) (command : Command) (w : Working) (done : List Op) → Stands t r → IsValid command → ListsPaths t r → HasCome command t w done → Pieces t r done }
    ensures leaves { (t : Tree) (r : Repo) (command : Command) (w : Working) (done : List Op) → Stands t r → IsValid command → ListsPaths t r → HasCome command t w done → IsAnswered r (step r command) (outcome_of_ended (stopped_as w.machine) w.rev w.node) (after_all done t) }
{
    machines_may_stop_anywhere();
    calls_leave_what_they_answer();
}

/// Replayed from an empty repository, the commands that were published lead, at each moment of a play, to what the files stand for:
/// those that are acknowledged to the repository that the files stand for or can be taken back to, and all of them to the last
/// one; where one is not acknowledged the files can be taken back.
pub fn plays_follow_their_commands()
    ensures { (readers : ℕ) (events : List Event) (first last : Scene) (text : List ℕ) → AllByRecursion (CanCome readers) events → IsFirst readers first → Plays events first last text → Follows last }
{
    laws_below();
}

/// The same from one event to the next, whatever holds between.
pub fn events_keep_their_commands()
    ensures first { (readers : ℕ) (s : Scene) → IsFirst readers s → Keeps s }
    ensures keeps { (readers : ℕ) (event : Event) (old new : Scene) (text : List ℕ) → CanCome readers event → Keeps old → Happens event old new text → Keeps new }
    ensures follows { (s : Scene) → Keeps s → Follows s }
{
    laws_below();
}

/// No event takes off a command that is acknowledged: those that were come first, and others behind them. Never more are
/// acknowledged than were published.
pub fn acknowledged_commands_stay()
    ensures first { (readers : ℕ) (s : Scene) → IsFirst readers s → IsCounted s.book }
    ensures counted { (event : Event) (old new : Scene) (text : List ℕ) → IsCounted old.book → Happens event old new text → IsCounted new.book }
    ensures stay { (event : Event) (old new : Scene) (text : List ℕ) → IsCounted old.book → Happens event old new text → (more : List Command) × (acknowledged_of new.book ≡ acknowledged_of old.book ++ more) }
{}

// What the laws of the crates below say.
fn laws_below()
    ensures { Laws }
{
    machines_go_on();
    machines_may_stop_anywhere();
    progress_stays();
    calls_leave_what_they_answer();
    refusals_are_pieces();
    refusals_are_for_files();
    locks_do_not_matter();
    pieces_keep_lists();
    fronts_list_paths();
    recoveries_keep_lists();
    new_repositories_list_paths();
    turned_away_writers_keep_open_trees();
    pieces_end();
    recovering_leads_back();
    nothing_but_leftovers_is_removed();
    requires_alone();
}
