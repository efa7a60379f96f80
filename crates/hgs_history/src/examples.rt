//! The laws tried on a session. Each function is one example; none does anything but to name the laws that it rests on.
ghost use Rattle.std.specs.Prelude.{◌≡◌, [], List, Some, codes};
ghost use Rattle.std.specs.List.{AllByRecursion};
ghost use Rattle.hgs_files.specs.Tree.{Tree};
ghost use Rattle.hgs_files.specs.declared.op.Op.{Op};
ghost use Rattle.hgs_history.specs.Kept.{KeepsHistory};
ghost use Rattle.hgs_history.specs.Said.{answer_of};
ghost use Rattle.hgs_history.specs.Samples.{files_of_second, held_calls, held_result, held_session, held_states, held_store, log_of_two_drafts, nothing_done, two_commits, two_jobs};
ghost use Rattle.hgs_load.specs.declared.answer.ReadAnswer.TheVariants.{UnknownPath};
ghost use Rattle.hgs_questions.specs.Said.{refused, said, unknown};
ghost use Rattle.hgs_script.specs.declared.job.Question.TheVariants.{Cat, Files, Log};
ghost use Rattle.hgs_stands.specs.Samples.{two_drafts};
ghost use Rattle.hgs_legal.specs.ListsPaths.{ListsOnlyPaths, ListsPaths};
ghost use Rattle.hgs_model.specs.Repo.{empty_repo};
ghost use Rattle.hgs_legal.specs.LegalLog.{IsLegal};
ghost use Rattle.hgs_ops.specs.Samples.{bare};
ghost use Rattle.hgs_script.specs.Script.{IsShare};
ghost use Rattle.hgs_session.specs.Calls.{AreInOrder, Makes};
ghost use Rattle.hgs_session.specs.Session.{IsSession, MayRun};
ghost use Rattle.hgs_stands.specs.Stands.{Stands};

use crate::laws::{sessions_keep_their_history, sessions_make_legal_logs};
use hgs_legal::list_laws::new_repositories_list_paths;
use hgs_ops::examples::first_commit;

/// Two workers, of which each finds a lock held, in the other order: all that the laws ask of a session is met, so what they say of
/// it holds.
pub fn two_workers_find_a_lock()
    ensures stands { Stands held_store empty_repo }
    ensures shares { AllByRecursion IsShare two_jobs }
    ensures order { AreInOrder held_calls }
    ensures session { IsSession held_session held_calls nothing_done held_states held_result }
    ensures lists { ListsPaths held_store empty_repo }
    ensures keeps { (makes : Makes held_session held_calls nothing_done) × KeepsHistory held_session empty_repo held_calls nothing_done makes held_result }
{
    sessions_keep_their_history();
}

/// Two workers that commit over a store with nothing in it: its list of filelogs has no name, so ends that take legal logs alone take
/// whatever their session may do.
pub fn two_workers_may_commit()
    ensures shares { AllByRecursion IsShare two_commits }
    ensures lists { ListsOnlyPaths bare }
    ensures taken { MayRun two_commits (Some []) bare (λ t log. ∥ IsLegal t log ∥₁) }
{
    first_commit();
    new_repositories_list_paths();
    sessions_make_legal_logs();
}

/// What questions are answered with, of the two changesets that Mercurial 6.3.2 wrote: the second is the newest, and the first has no
/// file `b`.
pub fn answers_of_two_drafts()
    ensures log { answer_of two_drafts Log ≡ said log_of_two_drafts }
    ensures files { answer_of two_drafts (Files (codes "1")) ≡ said files_of_second }
    ensures unknown_name { answer_of two_drafts (Files (codes "2")) ≡ unknown }
    ensures unknown_path { answer_of two_drafts (Cat (codes "main") (codes "b")) ≡ refused UnknownPath }
{}
