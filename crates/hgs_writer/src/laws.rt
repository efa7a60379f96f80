//! What the parts of a step are, and what a call leaves. Each function is one law; none does anything but to call laws that it
//! rests on.
ghost use Rattle.std.specs.Prelude.{false, ◌≡◌, ◌*◌, ◌++◌, length, List, None, Option, Result, Ok, true, ℕ};
ghost use Rattle.hgs_answers.specs.declared.answer.Answer.{Answer};
ghost use Rattle.hgs_answers.specs.declared.outcome.Outcome.TheVariants.{Done, LockHeld};
ghost use Rattle.hgs_commit.specs.OfCommit.{ArePartsOfCommit};
ghost use Rattle.hgs_files.specs.declared.op.Op.{Op};
ghost use Rattle.hgs_files.specs.Stop.{IsStopped};
ghost use Rattle.hgs_files.specs.Tree.{Tree, after_all, bytes_at};
ghost use Rattle.hgs_index.specs.declared.node.Node.{Node};
ghost use Rattle.hgs_journal.specs.Names.{journal_path};
ghost use Rattle.hgs_legal.specs.ListsPaths.{ListsOnlyPaths, ListsPaths};
ghost use Rattle.hgs_legal.specs.Pieces.{Pieces};
ghost use Rattle.hgs_loading.specs.Store.{Loaded as LoadedOf, loaded_in};
ghost use Rattle.hgs_machine.specs.Locks.{AreLocked};
ghost use Rattle.hgs_machine.specs.Sound.{AreSound};
ghost use Rattle.hgs_model.specs.Repo.{Repo};
ghost use Rattle.hgs_model.specs.Step.{Next, step};
ghost use Rattle.hgs_model.specs.Valid.{IsValid};
ghost use Rattle.hgs_model.specs.declared.command.Command.{Command};
ghost use Rattle.hgs_model.specs.declared.command.Command.TheVariants.{Import};
ghost use Rattle.hgs_model.specs.declared.command.NewChange.{NewChange};
ghost use Rattle.hgs_model.specs.declared.command.Refusal.{Refusal};
ghost use Rattle.hgs_ops.specs.Unhindered.{IsReady};
ghost use Rattle.hgs_writer.specs.Made.{HasNoLocks, HasNoStrays};
ghost use Rattle.hgs_load.specs.View.{changelog_index};
ghost use Rattle.hgs_revlog.specs.Log.{Log};
ghost use Rattle.hgs_revlog.specs.Loaded.{AreEntries};
ghost use Rattle.hgs_stands.specs.Stands.{IsClean, Stands};
ghost use Rattle.hgs_steps.specs.Planned.{IsLoadedOf};
ghost use Rattle.hgs_steps.specs.declared.loaded.Loaded.{Loaded};
ghost use Rattle.hgs_steps.specs.declared.step.Step.{Step};
ghost use Rattle.hgs_steps.specs.Steps.{Accepted, planned};
ghost use Rattle.hgs_transaction.specs.Assembled.{IsPlanOf};
ghost use Rattle.hgs_transaction.specs.OfTransaction.{ArePartsOf};
ghost use Rattle.hgs_transaction.specs.declared.parts.Parts.{Parts};
ghost use Rattle.hgs_writer.specs.Alone.{IsAnswered, IsBarred, IsFinished, IsHeld, IsOutcomeOf, IsStopOf, ReadsWithin};
ghost use Rattle.hgs_writer.specs.Below.{Below};
ghost use Rattle.hgs_writer.specs.Limits.{LoadsWithin};
ghost use Rattle.hgs_writer.specs.Planning.{IsLoadedFrom};
ghost use Rattle.hgs_writer.specs.Written.{IsCarriedOut, IsWritten};
ghost use Rattle.hgs_writer.specs.declared.plan.Planned.{Planned};

use crate::commit_laws::commits_agree;
use crate::import_laws::imports_agree;
use crate::piece_laws::{
    locks_do_not_matter, refusals_are_for_files, refusals_are_pieces, swept_calls_leave_no_locks,
    swept_calls_leave_no_strays, transactions_are_pieces,
};
use hgs_index::laws::held_index_length;
use hgs_legal::laws::{fronts_are_pieces, pieces_end};
use hgs_legal::list_laws::pieces_keep_lists;
use hgs_loading::laws::indexes_are_read_whole;
use hgs_ops::laws::{strays_are_apart, strays_hinder_nothing};
use hgs_path::laws::filelogs_have_their_own_names;
use hgs_revlog::laws::{entries_of_revisions, whole_index};
use hgs_shown::laws::older_parts_stay;
use hgs_stands::laws::{files_of_standing_trees, open_trees_lead_back, stands_for_one};
use hgs_steps::laws::{bookmark_commands_agree, phase_commands_agree};

/// The plan of a phase or bookmark command can be carried out from any tree: it replaces one file.
pub fn steps_are_sound()
    ensures { (t : Tree) (l : Loaded) (accepted : Result Accepted Refusal) (step : Step) → planned l accepted ≡ Ok step → AreSound t step.parts }
{}

/// That of a commit from one whose changelog is as long as its entries: no operation before the publishing one names that
/// file.
pub fn commits_are_sound()
    ensures { (t : Tree) (log : Log) (p : Parts) → ArePartsOfCommit log p → length (bytes_at t changelog_index) ≡ 64 * length log.entries → AreSound t p }
{}

/// That of an import can from any tree: the new index is made before it is renamed, and it is published by that rename, of which no
/// size is asked.
pub fn imports_are_sound()
    ensures { (t u : Tree) (r next : Repo) (changes : List NewChange) (p : Parts) → ArePartsOf t r (Import changes) next p → AreSound u p }
{}

/// A separate changelog that was loaded of a tree is as long as its entries.
pub fn changelogs_are_counted()
    ensures { (t : Tree) (l : LoadedOf) → AreEntries l.changelog.entries → l.changelog.inline ≡ false → loaded_in t ≡ Ok l → length (bytes_at t changelog_index) ≡ 64 * length l.changelog.entries }
{}

/// What was read of a tree is what its files say, whole.
pub fn stores_are_loaded()
    ensures { (t : Tree) (read : LoadedOf) (l : Loaded) → loaded_in t ≡ Ok read → IsLoadedFrom read l → IsLoadedOf t l }
{
    indexes_are_read_whole();
}

/// A call that was alone, whatever it answers, where the list of filelogs has only names of paths: the tree stands for what the
/// answer says, its list has again only names of paths, and what was done is a piece of a legal log. Wherever it is stopped the tree
/// stands for the repository before or is open for it, or, where what was done leads on, it stands for the next one.
pub fn calls_leave_what_they_answer()
    ensures answered { (t : Tree) (r : Repo) (command : Command) (who : List ℕ) (answer : Answer) (done : List Op) → Stands t r → IsValid command → ListsPaths t r → IsWritten who command t answer done → IsAnswered r (step r command) answer.outcome (after_all done t) }
    ensures lists { (t : Tree) (r : Repo) (command : Command) (who : List ℕ) (answer : Answer) (done : List Op) → Stands t r → IsValid command → ListsPaths t r → IsWritten who command t answer done → ListsOnlyPaths (after_all done t) }
    ensures pieces { (t : Tree) (r : Repo) (command : Command) (who : List ℕ) (answer : Answer) (done : List Op) → Stands t r → IsValid command → ListsPaths t r → IsWritten who command t answer done → Pieces t r done }
    ensures stops { (t : Tree) (r : Repo) (command : Command) (who : List ℕ) (answer : Answer) (done d : List Op) → Stands t r → IsValid command → ListsPaths t r → IsWritten who command t answer done → IsStopped done d → IsStopOf t r (step r command) d }
{
    pieces_end();
    fronts_are_pieces();
    pieces_keep_lists();
    stands_for_one();
    files_of_standing_trees();
    open_trees_lead_back();
    strays_are_apart();
    laws_below();
}

/// So does any command whose transaction is carried out, where the parts that were planned under the locks are those of the
/// step that the repository makes of it, and nothing there is in its way.
pub fn transactions_leave_what_they_answer()
    ensures answered { (t : Tree) (r : Repo) (command : Command) (next : Next) (who : List ℕ) (p : Parts) (planned : Planned) (answer : Answer) (locking carrying : List Op) → Stands t r → IsValid command → step r command ≡ Ok next → IsReady (after_all locking t) r command next.0 → ArePartsOf (after_all locking t) r command next.0 p → IsPlanOf p planned.plan → planned.rev ≡ next.1.rev → planned.node.0 ≡ next.1.node → AreLocked who t locking → IsCarriedOut (after_all locking t) planned answer carrying → IsAnswered r (step r command) answer.outcome (after_all (locking ++ carrying) t) }
    ensures pieces { (t : Tree) (r : Repo) (command : Command) (next : Next) (who : List ℕ) (p : Parts) (planned : Planned) (answer : Answer) (locking carrying : List Op) → Stands t r → IsValid command → step r command ≡ Ok next → IsReady (after_all locking t) r command next.0 → ArePartsOf (after_all locking t) r command next.0 p → IsPlanOf p planned.plan → planned.rev ≡ next.1.rev → planned.node.0 ≡ next.1.node → AreLocked who t locking → IsCarriedOut (after_all locking t) planned answer carrying → Pieces t r (locking ++ carrying) }
    ensures stops { (t : Tree) (r : Repo) (command : Command) (next : Next) (who : List ℕ) (p : Parts) (planned : Planned) (answer : Answer) (locking carrying d : List Op) → Stands t r → IsValid command → step r command ≡ Ok next → IsReady (after_all locking t) r command next.0 → ArePartsOf (after_all locking t) r command next.0 p → IsPlanOf p planned.plan → planned.rev ≡ next.1.rev → planned.node.0 ≡ next.1.node → AreLocked who t locking → IsCarriedOut (after_all locking t) planned answer carrying → IsStopped (locking ++ carrying) d → IsStopOf t r (step r command) d }
{
    pieces_end();
    fronts_are_pieces();
    laws_below();
}

/// Within the limits what was read of a tree that stands for a repository is not refused.
pub fn standing_trees_are_read()
    ensures { (t : Tree) (r : Repo) → Stands t r → LoadsWithin t r → (read : LoadedOf) × (loaded_in t ≡ Ok read) }
{
    held_index_length();
    indexes_are_read_whole();
    whole_index();
    entries_of_revisions();
    older_parts_stay();
}

/// So within the limits a command comes to what the repository makes of it, and to no damage; but for a lock that is held, a
/// fault of the files, and want of memory, and for what keeps a commit from being written.
pub fn calls_come_to_steps()
    ensures { (t : Tree) (r : Repo) (command : Command) (who : List ℕ) (answer : Answer) (done : List Op) → Stands t r → LoadsWithin t r → ReadsWithin t r command → IsWritten who command t answer done → IsOutcomeOf t r command (step r command) answer.outcome }
{
    standing_trees_are_read();
    laws_below();
}

/// Where neither lock stood, no call answers that one is held; and whatever the command and the answer, neither stands
/// behind a call that says that all was swept, nor, unless a transaction is unfinished, anything that one may leave behind.
pub fn calls_clean_up()
    ensures swept { (t : Tree) (command : Command) (who : List ℕ) (answer : Answer) (done : List Op) → HasNoLocks t → IsWritten who command t answer done → answer.swept ≡ true → HasNoLocks (after_all done t) }
    ensures held { (t : Tree) (command : Command) (who : List ℕ) (answer : Answer) (done : List Op) (holder : Option (List ℕ)) → HasNoLocks t → IsWritten who command t answer done → answer.outcome ≡ LockHeld holder → ⊥ }
    ensures strays { (t : Tree) (command : Command) (who : List ℕ) (answer : Answer) (done : List Op) → HasNoStrays t → IsWritten who command t answer done → answer.swept ≡ true → IsFinished answer.outcome → HasNoStrays (after_all done t) }
{
    swept_calls_leave_no_locks();
    swept_calls_leave_no_strays();
    refusals_are_for_files();
}

/// Where a lock stands, it is held: nothing else is answered, but for a fault of the files and want of memory. Where a journal
/// stands beside no lock, its transaction is abandoned, with the same exceptions; so no plan is carried out over either.
pub fn locks_and_journals_bar()
    ensures held { (t : Tree) (command : Command) (who : List ℕ) (answer : Answer) (done : List Op) → (HasNoLocks t → ⊥) → IsWritten who command t answer done → IsHeld answer.outcome }
    ensures barred { (t : Tree) (command : Command) (who : List ℕ) (answer : Answer) (done : List Op) → (t journal_path ≡ None → ⊥) → IsWritten who command t answer done → IsBarred answer.outcome }
{
    refusals_are_for_files();
}

/// A command that is done over a clean tree whose list of filelogs has only names of paths: the repository accepts it, its changeset is
/// answered, and the tree stands for the next repository, with such a list again, and clean where all was swept.
pub fn done_calls_lead_on()
    ensures { (t : Tree) (r : Repo) (command : Command) (who : List ℕ) (answer : Answer) (done : List Op) (rev : ℕ) (node : Node) → IsClean t r → IsValid command → ListsPaths t r → IsWritten who command t answer done → answer.outcome ≡ Done rev node → (next : Next) × (step r command ≡ Ok next) × (rev ≡ next.1.rev) × (node.0 ≡ next.1.node) × Stands (after_all done t) next.0 × ListsPaths (after_all done t) next.0 × (answer.swept ≡ true → IsClean (after_all done t) next.0) }
{
    calls_leave_what_they_answer();
    calls_clean_up();
}

/// What the laws of the crates below say.
pub(crate) fn laws_below()
    ensures { Below }
{
    transactions_are_pieces();
    refusals_are_pieces();
    refusals_are_for_files();
    pieces_end();
    locks_do_not_matter();
    phase_commands_agree();
    bookmark_commands_agree();
    commits_agree();
    imports_agree();
    strays_hinder_nothing();
    filelogs_have_their_own_names();
}
