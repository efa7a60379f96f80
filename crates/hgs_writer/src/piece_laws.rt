//! What a writer leaves is a piece of a legal log. Each function is one law; none does anything but to call laws that it rests
//! on.
ghost use Rattle.std.specs.Prelude.{◌≡◌, ◌⊎◌, ◌++◌, [], Bool, List, None, Ok, Option, false, true, ℕ};
ghost use Rattle.hgs_files.specs.declared.op.Op.{Op};
ghost use Rattle.hgs_files.specs.Stop.{IsStopped};
ghost use Rattle.hgs_files.specs.Tree.{Tree, after_all};
ghost use Rattle.hgs_legal.specs.Pieces.{Piece};
ghost use Rattle.hgs_machine.specs.Course.{CarriedOut, lock_removals};
ghost use Rattle.hgs_machine.specs.Locks.{AreLocked, AreRemoved, IsTurnedAway};
ghost use Rattle.hgs_machine.specs.declared.ended.Short.{Short};
ghost use Rattle.hgs_machine.specs.declared.locks.LockRefusal.{LockRefusal};
ghost use Rattle.hgs_model.specs.Repo.{Repo};
ghost use Rattle.hgs_model.specs.Step.{Answer, step};
ghost use Rattle.hgs_model.specs.Valid.{IsValid};
ghost use Rattle.hgs_model.specs.declared.command.Command.{Command};
ghost use Rattle.hgs_bytes.specs.Bytes.{same};
ghost use Rattle.hgs_ops.specs.Operations.{lock_path, strays, wlock_path};
ghost use Rattle.hgs_ops.specs.Unhindered.{IsReady};
ghost use Rattle.hgs_stands.specs.Open.{IsOpen};
ghost use Rattle.hgs_stands.specs.Stands.{Stands};
ghost use Rattle.hgs_writer.specs.Made.{HasNoLocks, HasNoStrays, IsOver, IsPieceOf};
ghost use Rattle.hgs_journal.specs.Names.{journal_path};
ghost use Rattle.hgs_machine.specs.declared.locks.LockRefusal.TheVariants.{Abandoned, Held};
ghost use Rattle.hgs_transaction.specs.Assembled.{IsPlanOf};
ghost use Rattle.hgs_transaction.specs.OfTransaction.{ArePartsOf};
ghost use Rattle.hgs_transaction.specs.declared.assemble.Plan.{Plan};
ghost use Rattle.hgs_transaction.specs.declared.parts.Parts.{Parts};

use hgs_journal::laws::{transactions_stay_covered, undo_leads_back};
use hgs_ops::laws::strays_are_apart;
use hgs_stands::laws::other_files_do_not_matter;
use hgs_transaction::laws::plans_are_transactions;

/// The locks, and the plan of a transaction's parts that is carried out under them, are a piece of a legal log, whatever
/// the command, where its parts are those of the step that the repository makes of it and nothing is in its way.
pub fn transactions_are_pieces()
    ensures { (t : Tree) (r next : Repo) (command : Command) (who : List ℕ) (answer : Answer) (p : Parts) (plan : Plan) (outcome : Short) (swept : Bool) (locking carrying : List Op) → IsValid command → step r command ≡ Ok (next, answer) → IsReady t r command next → ArePartsOf t r command next p → IsPlanOf p plan → AreLocked who t locking → CarriedOut (after_all locking t) plan outcome swept carrying → IsPieceOf t r next outcome (locking ++ carrying) }
{
    plans_are_transactions();
}

/// So are the locks of a writer that did not get them, or that releases them again; where it made none, it leaves nothing.
pub fn refusals_are_pieces()
    ensures turned_away { (t : Tree) (r : Repo) (who : List ℕ) (why : LockRefusal) (swept : Bool) (log : List Op) → IsTurnedAway who t why swept log → (log ≡ []) ⊎ Piece t r log r }
    ensures released { (t : Tree) (r : Repo) (who : List ℕ) (swept : Bool) (locking releasing : List Op) → AreLocked who t locking → AreRemoved lock_removals swept releasing → Piece t r (locking ++ releasing) r }
{}

/// Where all was swept, neither lock stands behind a transaction that was carried out, taken back or broken off, nor behind
/// locks that were released; and none that did not stand before behind a writer that did not get them.
pub fn swept_calls_leave_no_locks()
    ensures carried { (v : Tree) (plan : Plan) (outcome : Short) (log : List Op) → CarriedOut v plan outcome true log → HasNoLocks (after_all log v) }
    ensures released { (v : Tree) (log : List Op) → AreRemoved lock_removals true log → HasNoLocks (after_all log v) }
    ensures turned_away { (t : Tree) (who : List ℕ) (why : LockRefusal) (swept : Bool) (log : List Op) → HasNoLocks t → IsTurnedAway who t why swept log → swept ≡ true → HasNoLocks (after_all log t) }
{}

/// Nor does anything stand there that a transaction may leave behind, where nothing such stood before, and where it is not left
/// unfinished.
pub fn swept_calls_leave_no_strays()
    ensures carried { (v : Tree) (plan : Plan) (outcome : Short) (log : List Op) → IsOver outcome → CarriedOut v plan outcome true log → HasNoStrays (after_all log v) }
    ensures released { (who : List ℕ) (t : Tree) (locking log : List Op) → AreLocked who t locking → HasNoStrays t → AreRemoved lock_removals true log → HasNoStrays (after_all log (after_all locking t)) }
    ensures turned_away { (t : Tree) (who : List ℕ) (why : LockRefusal) (swept : Bool) (log : List Op) → HasNoStrays t → IsTurnedAway who t why swept log → swept ≡ true → HasNoStrays (after_all log t) }
{}

/// A lock is held only where one stands, and a repository is abandoned only where its journal stands and no lock did. The
/// locks are taken only where neither stood, and no journal.
pub fn refusals_are_for_files()
    ensures held { (t : Tree) (who : List ℕ) (holder : Option (List ℕ)) (swept : Bool) (log : List Op) → HasNoLocks t → IsTurnedAway who t (Held holder) swept log → ⊥ }
    ensures abandoned { (t : Tree) (who : List ℕ) (swept : Bool) (log : List Op) → t journal_path ≡ None → IsTurnedAway who t Abandoned swept log → ⊥ }
    ensures abandoned_free { (t : Tree) (who : List ℕ) (swept : Bool) (log : List Op) → IsTurnedAway who t Abandoned swept log → HasNoLocks t }
    ensures free { (who : List ℕ) (t : Tree) (locking : List Op) → AreLocked who t locking → HasNoLocks t }
    ensures no_journal { (who : List ℕ) (t : Tree) (locking : List Op) → AreLocked who t locking → t journal_path ≡ None }
{}

/// A tree that is open for a repository stays so behind a writer that did not get the locks, whether or not all was swept, and wherever
/// it is stopped.
pub fn turned_away_writers_keep_open_trees()
    ensures { (t : Tree) (r : Repo) (who : List ℕ) (why : LockRefusal) (swept : Bool) (log d : List Op) → IsOpen strays t r → IsTurnedAway who t why swept log → IsStopped log d → IsOpen strays (after_all d t) r }
{
    transactions_stay_covered();
    undo_leads_back();
}

/// Where the locks were taken, the tree under them has the other files that it had, and stands for what it stood for before; it has them
/// too where they were not, wherever that is stopped;
/// the parts of a transaction of it are those of the tree without the locks, and what hinders none there hinders none here.
pub fn locks_do_not_matter()
    ensures others { (t : Tree) (who : List ℕ) (locking : List Op) (path : List ℕ) → AreLocked who t locking → same path wlock_path ≡ false → same path lock_path ≡ false → after_all locking t path ≡ t path }
    ensures turned_away { (t : Tree) (who : List ℕ) (why : LockRefusal) (swept : Bool) (log d : List Op) (path : List ℕ) → IsTurnedAway who t why swept log → IsStopped log d → same path wlock_path ≡ false → same path lock_path ≡ false → after_all d t path ≡ t path }
    ensures stands { (t : Tree) (r : Repo) (who : List ℕ) (locking : List Op) → AreLocked who t locking → Stands t r → Stands (after_all locking t) r }
    ensures parts { (t : Tree) (r next : Repo) (command : Command) (who : List ℕ) (p : Parts) (locking : List Op) → AreLocked who t locking → ArePartsOf (after_all locking t) r command next p → ArePartsOf t r command next p }
    ensures ready { (t : Tree) (r next : Repo) (command : Command) (who : List ℕ) (locking : List Op) → AreLocked who t locking → IsReady (after_all locking t) r command next → IsReady t r command next }
{
    strays_are_apart();
    other_files_do_not_matter();
}
