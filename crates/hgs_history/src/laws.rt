//! What the definitions of this crate imply. Each function is one law; none does anything but name the laws below that its
//! proof takes.
ghost use Rattle.std.specs.Prelude.{◌≡◌, ◌≤◌, ◌<◌, ◌+◌, ◌++◌, ◌∷◌, ◌==◌, ℕ, List, [], Option, Some, filter, length, true};
ghost use Rattle.std.specs.List.{AllByRecursion, FoldsTo};
ghost use Rattle.hgs_history.specs.Beside.{AreNoOlder};
ghost use Rattle.hgs_bytes.specs.Bytes.{IsPrefixOf};
ghost use Rattle.hgs_files.specs.Reads.{greatest};
ghost use Rattle.hgs_files.specs.Tree.{Tree, after_all};
ghost use Rattle.hgs_files.specs.declared.op.Op.{Op};
ghost use Rattle.hgs_headline.specs.WritersLog.{WritersLog, course_of, state_after};
ghost use Rattle.hgs_legal.specs.ListsPaths.{ListsOnlyPaths, ListsPaths};
ghost use Rattle.hgs_legal.specs.LegalLog.{IsLegal, Turn};
ghost use Rattle.hgs_model.specs.Repo.{Repo};
ghost use Rattle.hgs_script.specs.Script.{IsShare};
ghost use Rattle.hgs_script.specs.declared.job.Job.{Job};
ghost use Rattle.hgs_script.specs.declared.result.PublishedJob.{PublishedJob};
ghost use Rattle.hgs_session.specs.Calls.{Beginning, Call, IsCall, Makes, Stage, published_of, unsure_of};
ghost use Rattle.hgs_stands.specs.Stands.{Stands};
ghost use Rattle.hgs_session.specs.Jobs.{DoesJob, IsFresh, Progress};
ghost use Rattle.hgs_session.specs.Session.{AreCounted, EndState, IsSession, MayRun};
ghost use Rattle.hgs_script.specs.declared.result.SessionResult.{SessionResult};
ghost use Rattle.hgs_script.specs.declared.result.Answered.{Answered};
ghost use Rattle.hgs_views.specs.Course.{OpensAlong, ReadsAlong};
ghost use Rattle.hgs_views.specs.Seen.{Numbers};
ghost use Rattle.hgs_history.specs.History.{ArePublished, IsBehind, IsMadeAt, is_last_done, stage_behind};
ghost use Rattle.hgs_history.specs.Kept.{KeepsHistory};
ghost use Rattle.hgs_history.specs.Once.{AreCallsFrom, IsCleanAt, IsListed, IsUnharmed, calls_by, how_many, one_if_failed, one_if_faulted};
ghost use Rattle.hgs_history.specs.Workers.{GoesBeside, Knows};

use crate::question_laws::questions_beside_writers;
use hgs_legal::laws::numbers_rise;
use hgs_legal::list_laws::writers_keep_lists;
use hgs_stands::laws::{files_of_standing_trees, stands_for_one};
use hgs_writer::laws::{calls_clean_up, calls_come_to_steps, calls_leave_what_they_answer};
use hgs_writer::turn_laws::{
    calls_beside_a_journal_publish_nothing, calls_publish_their_own_turns,
    states_at_rest_have_one_number, states_at_rest_stand,
};

/// From a tree that stands for a repository, and whose list of filelogs has only names of paths, the log of a session's calls is one that
/// writers make. It publishes the transactions
/// of the jobs that these calls list, in that order, each by the job's own command and with its name in the locks and the
/// changeset that is listed; and behind them at most that of the job of which it is not known. So it is of each front of the
/// calls, and of the log that they led to, which is a front of the whole; where the last of them is done, its bookmarks and
/// working parents are as new as its changesets there, and all of it is acknowledged. A call that is refused as its command is,
/// is refused as the repository refuses that behind the calls before it; within the limits each call comes to what that
/// repository makes of its command, or is barred by a journal that stands; and each call answers what one does that is alone with
/// the files there.
pub fn sessions_publish_what_they_list()
    ensures { (x : Beginning) (r : Repo) (calls : List Call) (last : Stage) (makes : Makes x calls last) → Stands x.start r → x.first.log ≡ Some [] → AllByRecursion IsShare x.jobs → ListsPaths x.start r →
        (h : WritersLog) × (h.start ≡ x.start) × (h.first ≡ r) × (last.log ≡ Some h.log) × ArePublished x.jobs (published_of calls) (unsure_of calls) h.last.published ×
        ((front back : List Call) → calls ≡ front ++ back → (log : List Op) × ((stage_behind x x.first calls last makes front).log ≡ Some log) × IsPrefixOf log h.log × IsBehind x.jobs front (state_after h log)) ×
        ((front back : List Call) (c : Call) → calls ≡ front ++ c ∷ back → (log : List Op) × ((stage_behind x x.first calls last makes front).log ≡ Some log) × IsPrefixOf log h.log × IsMadeAt x.jobs c (state_after h log)) }
{
    numbers_rise();
    writers_keep_lists();
    states_at_rest_stand();
    states_at_rest_have_one_number();
    calls_publish_their_own_turns();
    calls_beside_a_journal_publish_nothing();
    calls_leave_what_they_answer();
    calls_come_to_steps();
    calls_clean_up();
}

/// So that log is legal. Where the list of filelogs has only names of paths, a writing end that takes each list of which it is known that it is
/// legal takes whatever a session may leave.
pub fn sessions_make_legal_logs()
    ensures legal { (x : Beginning) (calls : List Call) (last : Stage) (log : List Op) (makes : Makes x calls last) → x.first.log ≡ Some [] → AllByRecursion IsShare x.jobs → ListsOnlyPaths x.start → last.log ≡ Some log → IsLegal x.start log }
    ensures taken { (jobs : List (List Job)) (old : List Op) (start : Tree) → AllByRecursion IsShare jobs → ListsOnlyPaths (after_all old start) → MayRun jobs (Some old) start (λ t log. ∥ IsLegal t log ∥₁) }
{
    sessions_publish_what_they_list();
}

/// A worker that has done nothing knows its end's start, where the list of the writing end is told from there.
pub fn fresh_workers_know_nothing()
    ensures { (h : WritersLog) (x : Beginning) (p : Progress) (v : Numbers) → h.start ≡ x.start → x.first.log ≡ Some [] → IsFresh x p → Knows h p v }
{}

/// So the result of a session lists what the log publishes.
pub fn results_list_what_is_published()
    ensures { (x : Beginning) (r : Repo) (calls : List Call) (last : Stage) (states : List EndState) (result : SessionResult) (makes : Makes x calls last) → IsSession x calls last states result → Stands x.start r → x.first.log ≡ Some [] → AllByRecursion IsShare x.jobs → ListsPaths x.start r →
        (h : WritersLog) × (h.start ≡ x.start) × (h.first ≡ r) × (last.log ≡ Some h.log) × ArePublished x.jobs result.published result.unsure h.last.published }
{
    sessions_publish_what_they_list();
}

/// The log that a worker learns at a job of its own is that to which the session's calls have led then.
pub fn calls_lead_to_their_logs()
    ensures { (x : Beginning) (old : Stage) (calls : List Call) (last : Stage) (makes : FoldsTo (IsCall x) old calls last) (front back : List Call) (c : Call) → calls ≡ front ++ c ∷ back → c.log ≡ (stage_behind x old calls last makes (front ++ c ∷ [])).log }
{}

/// Each writing job of the script is one of the session's calls, and there is no other call: those of a worker are its writing jobs,
/// in their order. A call that published its transaction is listed, and what is listed of a worker is what its own calls published.
pub fn sessions_do_each_job_once()
    ensures once { (x : Beginning) (calls : List Call) (last : Stage) (states : List EndState) (result : SessionResult) → IsSession x calls last states result → AreCallsFrom x.jobs 0 calls result.replies }
    ensures listed { (x : Beginning) (calls : List Call) (last : Stage) → Makes x calls last → x.first.log ≡ Some [] → AllByRecursion IsListed calls }
    ensures own { (worker : ℕ) (calls : List Call) → filter (λ (e : PublishedJob). e.worker == worker) (published_of calls) ≡ published_of (calls_by worker calls) }
{}

/// The answers that tell of a fault, or of a transaction that is left unfinished, are together no more than the faults and wants of
/// memory that the files have counted meanwhile, unless a count stands at its greatest value; and those of faults no more than the
/// faults.
pub fn failures_are_counted()
    ensures failed { (x : Beginning) (calls : List Call) (last : Stage) (states : List EndState) (result : SessionResult) (faults denied : ℕ) → Makes x calls last → IsSession x calls last states result → AreCounted last states faults denied → faults < greatest → denied < greatest → x.first.faults + x.first.denied + how_many one_if_failed result.replies ≤ faults + denied }
    ensures faulted { (x : Beginning) (calls : List Call) (last : Stage) (states : List EndState) (result : SessionResult) (faults denied : ℕ) → Makes x calls last → IsSession x calls last states result → AreCounted last states faults denied → faults < greatest → x.first.faults + how_many one_if_faulted result.replies ≤ faults }
{}

/// Where the files stood for a repository with no lock, their list of filelogs had only names of paths, and the writing end counted neither
/// a fault nor want of memory: no job finds a lock held or a transaction abandoned, none is left unfinished, no file is left behind, and
/// the list has again only names of paths.
pub fn sessions_without_failures_are_clean()
    ensures { (x : Beginning) (calls : List Call) (last : Stage) (makes : Makes x calls last) → (at : IsCleanAt x.start x.first) → AllByRecursion IsShare x.jobs → ListsPaths (after_all at.log x.start) at.repository → last.faults ≡ x.first.faults → last.denied ≡ x.first.denied → x.first.faults < greatest → x.first.denied < greatest → AllByRecursion IsUnharmed calls × (now : IsCleanAt x.start last) × ListsPaths (after_all now.log x.start) now.repository }
{
    calls_leave_what_they_answer();
    calls_clean_up();
}

/// At least as many transactions are published as are listed.
pub fn as_many_are_published_as_listed()
    ensures { (jobs : List (List Job)) (entries : List PublishedJob) (unsure : Option (ℕ × ℕ)) (turns : List Turn) → ArePublished jobs entries unsure turns → length entries ≤ length turns }
{}

/// Within the limits, where what a worker's end has seen at last is a front of such a log: each question of the worker is
/// answered of a view that is loaded for it, none of whose numbers is below that of the view before it or below that of each
/// log which the worker learnt, or it meets a fault or finds no memory and keeps its view. No question tells of a damage, of a
/// missing repository or of a requirement.
pub fn workers_never_fall_back()
    ensures { (h : WritersLog) (x : Beginning) (worker : ℕ) (calls : List Call) (p : Progress) (v : Numbers) (answers : List Answered) (now : Progress) (last : List Op) → OpensAlong (course_of h) [] h.log → ReadsAlong (course_of h) [] h.log → Knows h p v → now.seen ≡ Some last → IsPrefixOf last h.log → FoldsTo (DoesJob x worker calls) p answers now →
        (w : Numbers) × FoldsTo (GoesBeside h x.jobs worker) (p, v) answers (now, w) }
{
    questions_beside_writers();
}

/// All of this together of a session that has a result, over files that stood for a repository and whose list of filelogs had only names
/// of paths. It has these still.
pub fn sessions_keep_their_history()
    ensures { (x : Beginning) (r : Repo) (calls : List Call) (last : Stage) (states : List EndState) (result : SessionResult) (makes : Makes x calls last) → IsSession x calls last states result → Stands x.start r → x.first.log ≡ Some [] → AllByRecursion IsShare x.jobs → ListsPaths x.start r → KeepsHistory x r calls last makes result }
{
    sessions_publish_what_they_list();
    writers_keep_lists();
    stands_for_one();
    files_of_standing_trees();
    sessions_make_legal_logs();
    results_list_what_is_published();
    sessions_do_each_job_once();
    fresh_workers_know_nothing();
    workers_never_fall_back();
}

/// A view that is no older than the log behind some calls has at least as many changesets and phases as these calls list; and where
/// the last of them is done, bookmarks and working parents too. So its numbers are above the place of each of their entries.
pub fn later_views_have_what_is_listed()
    ensures read { (h : WritersLog) (jobs : List (List Job)) (calls : List Call) (log : List Op) (v : Numbers) → IsBehind jobs calls (state_after h log) → AreNoOlder h v log → (length (published_of calls) ≤ v.read) × (length (published_of calls) ≤ v.rooted) }
    ensures marked { (h : WritersLog) (jobs : List (List Job)) (calls : List Call) (log : List Op) (v : Numbers) → IsBehind jobs calls (state_after h log) → AreNoOlder h v log → is_last_done calls ≡ true → (length (published_of calls) ≤ v.marked) × (length (published_of calls) ≤ v.worked) }
{
    as_many_are_published_as_listed();
}
