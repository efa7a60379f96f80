//! What the definitions of this crate imply. Each function is one law; none does anything but to call laws that it rests on.
ghost use Rattle.std.specs.Prelude.{◌≡◌, ◌⊎◌, ◌∷◌, [], Bool, List, None, ℕ};
ghost use Rattle.std.specs.List.{AllByRecursion};
ghost use Rattle.hgs_answers.specs.declared.answer.Answer.{Answer};
ghost use Rattle.hgs_answers.specs.declared.outcome.Outcome.TheVariants.{Done};
ghost use Rattle.hgs_files.specs.declared.op.Op.{Op};
ghost use Rattle.hgs_files.specs.Stop.{IsStopped};
ghost use Rattle.hgs_files.specs.Tree.{Tree, after_all, bytes_at};
ghost use Rattle.hgs_index.specs.declared.node.Node.{Node};
ghost use Rattle.hgs_journal.specs.Names.{journal_path};
ghost use Rattle.hgs_lasting.specs.Below.{Below};
ghost use Rattle.hgs_lasting.specs.Lives.{Keeps, LeadTo, Lives, Process};
ghost use Rattle.hgs_model.specs.Repo.{Repo, empty_repo};
ghost use Rattle.hgs_model.specs.Valid.{IsValid};
ghost use Rattle.hgs_model.specs.declared.command.Command.{Command};
ghost use Rattle.hgs_recover.specs.Recovering.{RecoversBy};
ghost use Rattle.hgs_recover.specs.declared.answer.RecoverAnswer.{RecoverAnswer};
ghost use Rattle.hgs_recover.specs.declared.answer.RecoverAnswer.TheVariants.{NothingToDo, Restored};
ghost use Rattle.hgs_stands.specs.Places.{store_files};
ghost use Rattle.hgs_stands.specs.Requires.{IsInProfile};
ghost use Rattle.hgs_stands.specs.Stands.{Stands};
ghost use Rattle.hgs_writer.specs.Written.{IsWritten};

use hgs_legal::laws::pieces_end;
use hgs_legal::list_laws::{
    fronts_list_paths, new_repositories_list_paths, pieces_keep_lists, recoveries_keep_lists,
};
use hgs_recover::laws::{nothing_but_leftovers_is_removed, recovering_leads_back};
use hgs_stands::laws::requires_alone;
use hgs_writer::laws::{calls_leave_what_they_answer, locks_and_journals_bar};
use hgs_writer::piece_laws::{
    locks_do_not_matter, refusals_are_for_files, turned_away_writers_keep_open_trees,
};

/// Whatever processes come to the files of a repository, one after another: calls that end with any answer or are stopped anywhere,
/// and recoveries that end or are stopped. The acknowledged commands lead to one repository, and behind each process the files stand
/// for it or can be taken back to it. So a recovery that ends well leaves files that stand for what they lead to, no command more and
/// none less.
pub fn acknowledged_commands_last()
    ensures keeps { (t u : Tree) (r s : Repo) (acknowledged : List Command) → Keeps t r → Lives t r acknowledged u s → Keeps u s }
    ensures leads { (t u : Tree) (r s : Repo) (acknowledged : List Command) → Lives t r acknowledged u s → LeadTo r acknowledged s }
    ensures recovers { (t u : Tree) (r s : Repo) (acknowledged : List Command) (answer : RecoverAnswer) (swept : Bool) (log : List Op) → Keeps t r → Lives t r acknowledged u s → RecoversBy u answer swept log → (answer ≡ Restored) ⊎ (answer ≡ NothingToDo) → Stands (after_all log u) s }
{
    laws_below();
}

/// A new repository is where this may begin: files of which none has bytes that a repository stands on beside `requires`, which is of the
/// profile, and no journal.
pub fn new_repositories_keep()
    ensures { (t : Tree) → IsInProfile t → AllByRecursion (λ path. bytes_at t path ≡ []) store_files → t journal_path ≡ None → Keeps t empty_repo }
{
    requires_alone();
    new_repositories_list_paths();
}

/// There is no other process: a call over such files, however it ends and wherever it is stopped, is one of these. Where it says that it
/// is done, its command is acknowledged.
pub fn processes_go_on()
    ensures ends { (t : Tree) (r : Repo) (command : Command) (who : List ℕ) (answer : Answer) (log : List Op) → Keeps t r → IsValid command → IsWritten who command t answer log → (acknowledged : List Command) × (next : Repo) × Process t r acknowledged (after_all log t) next × ((rev : ℕ) (node : Node) → answer.outcome ≡ Done rev node → acknowledged ≡ command ∷ []) }
    ensures stops { (t : Tree) (r : Repo) (command : Command) (who : List ℕ) (answer : Answer) (log done : List Op) → Keeps t r → IsValid command → IsWritten who command t answer log → IsStopped log done → (acknowledged : List Command) × (next : Repo) × Process t r acknowledged (after_all done t) next }
{
    laws_below();
}

/// What the laws of the crates below say.
pub(crate) fn laws_below()
    ensures { Below }
{
    calls_leave_what_they_answer();
    locks_and_journals_bar();
    refusals_are_for_files();
    turned_away_writers_keep_open_trees();
    locks_do_not_matter();
    pieces_end();
    pieces_keep_lists();
    fronts_list_paths();
    recoveries_keep_lists();
    recovering_leads_back();
    nothing_but_leftovers_is_removed();
}
