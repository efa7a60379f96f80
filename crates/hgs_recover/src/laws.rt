//! What the definitions of this crate imply. Each function is one law; none does anything but to call laws that it rests on.
ghost use Rattle.std.specs.Prelude.{◌≡◌, ◌⊎◌, ℕ, Bool, List, None, false, true};
ghost use Rattle.hgs_bytes.specs.Bytes.{same};
ghost use Rattle.hgs_files.specs.declared.op.Op.{Op};
ghost use Rattle.hgs_files.specs.Stop.{StopLeaves};
ghost use Rattle.hgs_files.specs.Tree.{Tree, after_all, bytes_at};
ghost use Rattle.hgs_journal.specs.Covers.{Covers, Restores, is_loose};
ghost use Rattle.hgs_journal.specs.Names.{journal_path};
ghost use Rattle.hgs_model.specs.Repo.{Repo};
ghost use Rattle.hgs_ops.specs.Operations.{strays};
ghost use Rattle.hgs_stands.specs.Open.{IsOpen};
ghost use Rattle.hgs_stands.specs.Stands.{IsClean, Stands};
ghost use Rattle.hgs_recover.specs.declared.answer.RecoverAnswer.{RecoverAnswer};
ghost use Rattle.hgs_recover.specs.declared.answer.RecoverAnswer.TheVariants.{NothingToDo, Restored};
ghost use Rattle.hgs_recover.specs.Found.{answer_in};
ghost use Rattle.hgs_recover.specs.Recovering.{Attempts, RecoversBy};

use hgs_files::laws::{pieces_join, pieces_of_pieces};
use hgs_journal::laws::{texts_read, undo_leads_back, undo_may_stop};
use hgs_stands::laws::{open_trees_lead_back, other_files_do_not_matter};

/// From a tree that is open for a repository, recovering leads to one that stands for it, with the files of the tree before the
/// transaction, locks, strays and empty files aside, and has no locks where all was swept. Wherever it is stopped, the tree is still open for it or stands for it, and each file, the journal,
/// locks and strays aside, has the bytes that it had when recovering began, or those of the tree before the transaction; and where it does not end well the tree is open as before.
pub fn recovering_leads_back()
    ensures found { (t : Tree) (r : Repo) → IsOpen strays t r → answer_in t ≡ Restored }
    ensures leads { (t : Tree) (r : Repo) (swept : Bool) (log : List Op) → IsOpen strays t r → RecoversBy t Restored swept log → Stands (after_all log t) r }
    ensures restores { (t q : Tree) (swept : Bool) (log : List Op) → Covers strays t q → RecoversBy t Restored swept log → Restores strays (after_all log t) q }
    ensures swept { (t : Tree) (r : Repo) (log : List Op) → IsOpen strays t r → RecoversBy t Restored true log → IsClean (after_all log t) r }
    ensures stops { (t u : Tree) (r : Repo) (answer : RecoverAnswer) (swept : Bool) (log : List Op) → IsOpen strays t r → RecoversBy t answer swept log → StopLeaves t log u → IsOpen strays u r ⊎ Stands u r }
    ensures files { (t q u : Tree) (answer : RecoverAnswer) (swept : Bool) (log : List Op) (path : List ℕ) → Covers strays t q → RecoversBy t answer swept log → StopLeaves t log u → is_loose strays path ≡ false → same path journal_path ≡ false → (bytes_at u path ≡ bytes_at t path) ⊎ (bytes_at u path ≡ bytes_at q path) }
    ensures left { (t : Tree) (r : Repo) (answer : RecoverAnswer) (swept : Bool) (log : List Op) → IsOpen strays t r → RecoversBy t answer swept log → (answer ≡ Restored) ⊎ IsOpen strays (after_all log t) r }
{
    pieces_join();
    pieces_of_pieces();
    texts_read();
    undo_leads_back();
    undo_may_stop();
    other_files_do_not_matter();
    open_trees_lead_back();
}

/// So recovering may be stopped and begun again any number of times, from a tree that is open for a repository or stands
/// for it.
pub fn recovering_may_be_begun_again()
    ensures { (t u : Tree) (r : Repo) → IsOpen strays t r ⊎ Stands t r → Attempts t u → IsOpen strays u r ⊎ Stands u r }
{
    pieces_join();
    pieces_of_pieces();
    texts_read();
    undo_leads_back();
    undo_may_stop();
    other_files_do_not_matter();
    open_trees_lead_back();
}

/// A tree that stands for a repository stands for it wherever recovering is stopped, and there is nothing to do: where no
/// journal stands, no file but locks and strays is changed.
pub fn nothing_but_leftovers_is_removed()
    ensures found { (t : Tree) (r : Repo) → Stands t r → answer_in t ≡ NothingToDo }
    ensures others { (t u : Tree) (answer : RecoverAnswer) (swept : Bool) (log : List Op) (path : List ℕ) → t journal_path ≡ None → RecoversBy t answer swept log → StopLeaves t log u → is_loose strays path ≡ false → u path ≡ t path }
    ensures stops { (t u : Tree) (r : Repo) (answer : RecoverAnswer) (swept : Bool) (log : List Op) → Stands t r → RecoversBy t answer swept log → StopLeaves t log u → Stands u r }
    ensures swept { (t : Tree) (r : Repo) (log : List Op) → Stands t r → RecoversBy t NothingToDo true log → IsClean (after_all log t) r }
{
    pieces_join();
    pieces_of_pieces();
    texts_read();
    undo_leads_back();
    undo_may_stop();
    other_files_do_not_matter();
    open_trees_lead_back();
}
