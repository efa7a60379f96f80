//! What the definitions of this crate imply. Each function is one law; none does anything but name the laws below that its
//! proof takes.
ghost use Rattle.std.specs.Prelude.{◌≡◌, ◌<◌, ◌≤◌, ◌++◌, ℕ, List, [], length, map, Result, Ok, Some, slice_get};
ghost use Rattle.hgs_bytes.specs.Bytes.{IsPrefixOf};
ghost use Rattle.hgs_files.specs.declared.op.Op.{Op};
ghost use Rattle.hgs_files.specs.Reads.{Covers};
ghost use Rattle.hgs_files.specs.Tree.{Tree, after_all, bytes_at};
ghost use Rattle.hgs_index.specs.Inline.{is_inline};
ghost use Rattle.hgs_model.specs.History.{changeset_nodes};
ghost use Rattle.hgs_model.specs.IsRepo.{IsRepo};
ghost use Rattle.hgs_model.specs.Names.{named as model_named};
ghost use Rattle.hgs_model.specs.Repo.{Changeset, Repo};
ghost use Rattle.hgs_revlog.specs.Log.{nodes_of};
ghost use Rattle.hgs_stands.specs.Places.{changelog_index};
ghost use Rattle.hgs_stands.specs.Stands.{IsClean};
ghost use Rattle.hgs_legal.specs.LegalLog.{IsLegal, IsRun, Run, start_of};
ghost use Rattle.hgs_legal.specs.Numbers.{b_of, n_of, repo_at, w_of};
ghost use Rattle.hgs_load.specs.declared.answer.ReadAnswer.{ReadAnswer};
ghost use Rattle.hgs_load.specs.Asks.{Answers, MayAnswer};
ghost use Rattle.hgs_load.specs.Beyond.{AnswersBeyond, RefreshesBeyond};
ghost use Rattle.hgs_load.specs.Load.{Refreshes};
ghost use Rattle.hgs_reader.specs.Names.{named};
ghost use Rattle.hgs_load.specs.Open.{open_asks};
ghost use Rattle.hgs_load.specs.Refresh.{refresh_asks};
ghost use Rattle.hgs_load.specs.View.{View};
ghost use Rattle.hgs_views.specs.Answered.{IsAnswered};
ghost use Rattle.hgs_views.specs.Course.{IsCourse, OpensAlong, ReadsAlong};
ghost use Rattle.hgs_views.specs.Says.{SaysOf, TellsOf};
ghost use Rattle.hgs_views.specs.Seen.{Given, IsLoadedBetween, NoneFell, Numbers, Refreshed, seen};
ghost use Rattle.hgs_headline.specs.AddsCommitted.{AddsCommitted};
ghost use Rattle.hgs_headline.specs.Again.{GivenAgain};
ghost use Rattle.hgs_headline.specs.WritersLog.{WritersLog, course_of, state_after};

use hgs_legal::laws::{logs_show, numbers_rise, published_files_stay, repositories_go_on};
use hgs_stands::laws::{filelogs_stand_apart, files_are_not_loose};
use hgs_views::laws::{
    calls_of_open, calls_of_refresh, calls_that_add_a_text, changelogs_keep_their_form,
    contents_of_views, loads_answer_views, refreshes_answer_views, sessions_do_not_fall_back,
    views_show_repositories, views_tell_their_repository,
};

/// Each legal log from a clean tree is one that writers make. Behind each front of such a log stands the state to which the
/// front leads, and from which the rest goes on: behind none of it the start, and behind all of it the last one.
pub fn legal_logs_are_writers_logs()
    ensures legal { (t : Tree) (r : Repo) (log : List Op) → IsClean t r → IsLegal t log → (h : WritersLog) × (h.start ≡ t) × (h.first ≡ r) × (h.log ≡ log) }
    ensures fronts { (h : WritersLog) (front rest : List Op) → h.log ≡ front ++ rest → IsRun h.start h.first front (state_after h front) × Run (state_after h front) rest h.last }
    ensures begins { (h : WritersLog) → state_after h [] ≡ start_of h.start h.first }
    ensures ends { (h : WritersLog) → state_after h h.log ≡ h.last }
{}

/// Such a log is a course: behind each of its fronts the tree shows the repositories of the three numbers there, none of
/// which falls, and what held the changesets of a repository right behind its publication stands at the front of the files
/// from then on.
pub fn writers_logs_are_courses()
    ensures course { (h : WritersLog) (first last : List Op) → IsPrefixOf last h.log → IsCourse (course_of h) first last }
    ensures first { (h : WritersLog) → (course_of h).repo 0 ≡ h.first }
{
    logs_show();
    numbers_rise();
    published_files_stay();
    repositories_go_on();
    files_are_not_loose();
    filelogs_stand_apart();
}

/// Once a changeset is published its changelog keeps its form, inline or separate.
pub fn changelogs_keep_form()
    ensures { (h : WritersLog) (front log : List Op) → IsPrefixOf front log → IsPrefixOf log h.log → 0 < length (repo_at h.last (n_of (state_after h front))).changesets → is_inline (bytes_at (after_all log h.start) changelog_index) ≡ is_inline (bytes_at (after_all front h.start) changelog_index) }
{
    writers_logs_are_courses();
    changelogs_keep_their_form();
}

/// An opening, its reads at moments of such a log that follow one another, answers a view of these moments and no damage; so
/// does a refresh, and none of its numbers is less than it was.
pub fn loads_beside_writers()
    ensures opened { (h : WritersLog) (first last : List Op) (y : Result View ReadAnswer) → IsPrefixOf last h.log → OpensAlong (course_of h) first last → MayAnswer h.start first open_asks last y → (v : Numbers) × (view : View) × (y ≡ Ok view) × IsLoadedBetween (course_of h) first last v view }
    ensures refreshed { (h : WritersLog) (began ended first last : List Op) (v : Numbers) (old : View) (y : Result View ReadAnswer) → IsPrefixOf last h.log → OpensAlong (course_of h) first last → IsLoadedBetween (course_of h) began ended v old → IsPrefixOf ended first → MayAnswer h.start first (refresh_asks old) last y →
        (w : Numbers) × (view : View) × (y ≡ Ok view) × IsLoadedBetween (course_of h) first last w view × NoneFell v w }
{
    writers_logs_are_courses();
    loads_answer_views();
    refreshes_answer_views();
}

/// The numbers of such a view are those of the log where its reads stand: bookmarks no newer than working parents, these no
/// newer than changesets, and phases no older; none is above the last moment's, and none below what stood when it began.
pub fn numbers_of_loads()
    ensures moments { (h : WritersLog) (first last : List Op) (v : Numbers) (view : View) → IsLoadedBetween (course_of h) first last v view → (bookmarks : List Op) × (dirstate : List Op) × (changelog : List Op) × (roots : List Op) × IsPrefixOf first bookmarks × IsPrefixOf bookmarks dirstate × IsPrefixOf dirstate changelog × IsPrefixOf changelog roots × IsPrefixOf roots last ×
        (v.marked ≡ b_of (state_after h bookmarks)) × (v.worked ≡ w_of (state_after h dirstate)) × (v.read ≡ n_of (state_after h changelog)) × (v.rooted ≡ n_of (state_after h roots)) }
    ensures order { (h : WritersLog) (first last : List Op) (v : Numbers) (view : View) → IsLoadedBetween (course_of h) first last v view → (v.marked ≤ v.worked) × (v.worked ≤ v.read) × (v.read ≤ v.rooted) × (v.rooted ≤ n_of (state_after h last)) }
    ensures began { (h : WritersLog) (first last : List Op) (v : Numbers) (view : View) → IsLoadedBetween (course_of h) first last v view → (b_of (state_after h first) ≤ v.marked) × (w_of (state_after h first) ≤ v.worked) × (n_of (state_after h first) ≤ v.read) }
{}

/// At any later moment of the log such a view's questions answer of each of its changesets what was committed, and nothing
/// else: the texts of one repository, each file with its node. Its names, its changesets, its heads, its bookmarks, its working parents
/// and its phases are that repository's, and what is said of them are its texts.
pub fn views_beside_writers()
    ensures committed { (h : WritersLog) (began ended first last : List Op) (v : Numbers) (view : View) (rev : ℕ) (c : Changeset) → IsPrefixOf last h.log → OpensAlong (course_of h) first last → ReadsAlong (course_of h) first last → IsLoadedBetween (course_of h) began ended v view → IsPrefixOf ended first → IsPrefixOf first last →
        slice_get (repo_at h.last v.read).changesets rev ≡ Some c → IsAnswered (course_of h) first last view (repo_at h.last v.read).changesets rev c }
    ensures shown { (h : WritersLog) (first last : List Op) (v : Numbers) (view : View) → IsPrefixOf last h.log → IsLoadedBetween (course_of h) first last v view → IsRepo (seen (course_of h) v) × ((name : List ℕ) → named view name ≡ model_named (seen (course_of h) v) name) × (length view.changelog.entries ≡ length (repo_at h.last v.read).changesets) × (nodes_of view.changelog.entries ≡ changeset_nodes (repo_at h.last v.read).changesets) }
    ensures says { (h : WritersLog) (first last : List Op) (v : Numbers) (view : View) → IsPrefixOf last h.log → IsLoadedBetween (course_of h) first last v view → SaysOf view (seen (course_of h) v) }
    ensures tells { (h : WritersLog) (began ended first last : List Op) (v : Numbers) (view : View) (rev : ℕ) (c : Changeset) → IsPrefixOf last h.log → OpensAlong (course_of h) first last → ReadsAlong (course_of h) first last → IsLoadedBetween (course_of h) began ended v view → IsPrefixOf ended first → IsPrefixOf first last →
        slice_get (repo_at h.last v.read).changesets rev ≡ Some c → TellsOf (course_of h) first last view (seen (course_of h) v) rev c }
{
    writers_logs_are_courses();
    contents_of_views();
    views_show_repositories();
    views_tell_their_repository();
}

/// So it is of calls that were told the lists: `open` and `refresh` give such a view, or they met a fault of the files or
/// found no memory, and never damage; a session keeps its view then. And each later call for a line, for the files of a
/// changeset or for the bytes of one adds the text of the repository that the view shows.
pub fn calls_beside_writers()
    ensures opened { (h : WritersLog) (first last : List Op) (r : Result View ReadAnswer) → IsPrefixOf last h.log → OpensAlong (course_of h) first last → Answers (λ session. session) (Some first) h.start (Some last) open_asks r → Given (λ view. (v : Numbers) × IsLoadedBetween (course_of h) first last v view) r }
    ensures refreshed { (h : WritersLog) (began ended first last : List Op) (v : Numbers) (old : View) (r : Result View ReadAnswer) → IsPrefixOf last h.log → OpensAlong (course_of h) first last → IsLoadedBetween (course_of h) began ended v old → IsPrefixOf ended first → Answers (λ session. session) (Some first) h.start (Some last) (refresh_asks old) r →
        Given (λ view. (w : Numbers) × IsLoadedBetween (course_of h) first last w view × NoneFell v w) r }
    ensures session { (h : WritersLog) (began ended first last : List Op) (v : Numbers) (old new : View) (r : Result Unit ReadAnswer) → IsPrefixOf last h.log → OpensAlong (course_of h) first last → IsLoadedBetween (course_of h) began ended v old → IsPrefixOf ended first →
        Refreshes (Some first) h.start (Some last) (refresh_asks old) old new r → Refreshed (λ view. (w : Numbers) × IsLoadedBetween (course_of h) first last w view × NoneFell v w) old new r }
    ensures committed { (h : WritersLog) (began ended first last : List Op) (v : Numbers) (view : View) (rev : ℕ) (c : Changeset) → IsPrefixOf last h.log → OpensAlong (course_of h) first last → ReadsAlong (course_of h) first last → IsLoadedBetween (course_of h) began ended v view → IsPrefixOf ended first → IsPrefixOf first last →
        slice_get (repo_at h.last v.read).changesets rev ≡ Some c → AddsCommitted h.start first last view (seen (course_of h) v) rev c }
{
    writers_logs_are_courses();
    calls_of_open();
    calls_of_refresh();
    sessions_do_not_fall_back();
    views_beside_writers();
    calls_that_add_a_text();
}

/// And so it is of ends that were told of others' work: the first look of a load that they answer goes on from each log that
/// they were told, so that none of its numbers is below those of what was seen or told before.
pub fn ends_beside_writers()
    ensures opened { (h : WritersLog) (told : List (List Op)) (first last : List Op) (r : Result View ReadAnswer) → IsPrefixOf last h.log → OpensAlong (course_of h) first last → AnswersBeyond (λ session. session) told (Some first) h.start (Some last) open_asks r →
        Given (λ view. (from : List Op) × IsPrefixOf first from × Covers told from × ((v : Numbers) × IsLoadedBetween (course_of h) from last v view)) r }
    ensures session { (h : WritersLog) (told : List (List Op)) (began ended first last : List Op) (v : Numbers) (old new : View) (r : Result Unit ReadAnswer) → IsPrefixOf last h.log → OpensAlong (course_of h) first last → IsLoadedBetween (course_of h) began ended v old → IsPrefixOf ended first →
        RefreshesBeyond told (Some first) h.start (Some last) (refresh_asks old) new r → GivenAgain (λ view. (from : List Op) × IsPrefixOf first from × Covers told from × ((w : Numbers) × IsLoadedBetween (course_of h) from last w view × NoneFell v w)) new r }
    ensures numbers { (h : WritersLog) (front from last : List Op) (v : Numbers) (view : View) → IsPrefixOf last h.log → IsPrefixOf front from → IsLoadedBetween (course_of h) from last v view →
        (b_of (state_after h front) ≤ v.marked) × (w_of (state_after h front) ≤ v.worked) × (n_of (state_after h front) ≤ v.read) × (n_of (state_after h front) ≤ v.rooted) }
{
    writers_logs_are_courses();
    loads_beside_writers();
    numbers_of_loads();
}
