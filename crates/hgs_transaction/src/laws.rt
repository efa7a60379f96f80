//! What a plan means for a tree and a repository. Each function is one law; none does anything.
ghost use Rattle.std.specs.Prelude.{◌≡◌, ◌∷◌, ◌++◌, List, drop, true, ℕ, Ok};
ghost use Rattle.std.specs.List.{list_all};
ghost use Rattle.hgs_files.specs.declared.op.Op.{Op};
ghost use Rattle.hgs_files.specs.Tree.{Tree, after_all};
ghost use Rattle.hgs_journal.specs.Names.{journal_path};
ghost use Rattle.hgs_model.specs.declared.command.Command.{Command};
ghost use Rattle.hgs_model.specs.Repo.{Repo};
ghost use Rattle.hgs_model.specs.Step.{Answer, step};
ghost use Rattle.hgs_model.specs.Valid.{IsValid};
ghost use Rattle.hgs_ops.specs.Operations.{lock_path, operations, removals, transaction_of, wlock_path};
ghost use Rattle.hgs_ops.specs.Unhindered.{IsReady};
ghost use Rattle.hgs_stands.specs.Stands.{IsClean, Stands};
ghost use Rattle.hgs_transaction.specs.Assembled.{IsPlanOf};
ghost use Rattle.hgs_transaction.specs.OfTransaction.{ArePartsOf};
ghost use Rattle.hgs_transaction.specs.Parts.{is_in_store};
ghost use Rattle.hgs_transaction.specs.declared.assemble.Plan.{Plan};
ghost use Rattle.hgs_transaction.specs.declared.parts.Parts.{Parts};

use hgs_ops::laws::transactions_lead;

/// The plan of the parts of a transaction has its operations, but for the making of the two locks, and its list of undoing.
/// At the place `publish` is its publishing operation, and at `commit` the removal of its journal.
pub fn plans_are_transactions()
    ensures ops { (t : Tree) (r next : Repo) (command : Command) (who : List ℕ) (p : Parts) (plan : Plan) → ArePartsOf t r command next p → IsPlanOf p plan → Op.Create wlock_path who ∷ Op.Create lock_path who ∷ plan.ops.items ≡ operations (transaction_of t r command who next) }
    ensures undo { (t : Tree) (r next : Repo) (command : Command) (who : List ℕ) (p : Parts) (plan : Plan) → ArePartsOf t r command next p → IsPlanOf p plan → plan.undo.items ≡ (transaction_of t r command who next).undo }
    ensures publish { (t : Tree) (r next : Repo) (command : Command) (who : List ℕ) (p : Parts) (plan : Plan) → ArePartsOf t r command next p → IsPlanOf p plan → drop plan.publish plan.ops.items ≡ (transaction_of t r command who next).publish ∷ (transaction_of t r command who next).renames ++ Op.Remove journal_path ∷ removals }
    ensures commit { (p : Parts) (plan : Plan) → IsPlanOf p plan → drop plan.commit plan.ops.items ≡ Op.Remove journal_path ∷ removals }
{}

/// So from a tree that stands for a repository, making the locks and then the operations of the plan leads to a tree that
/// stands for the next repository, without locks.
pub fn plans_lead()
    ensures { (t : Tree) (r next : Repo) (command : Command) (who : List ℕ) (answer : Answer) (p : Parts) (plan : Plan) → Stands t r → IsValid command → step r command ≡ Ok (next, answer) → IsReady t r command next → ArePartsOf t r command next p → IsPlanOf p plan → IsClean (after_all (Op.Create wlock_path who ∷ Op.Create lock_path who ∷ plan.ops.items) t) next }
{
    transactions_lead();
}

/// The files that the parts of a transaction append to are in the store.
pub fn parts_are_in_the_store()
    ensures before { (t : Tree) (r next : Repo) (command : Command) (p : Parts) → ArePartsOf t r command next p → list_all is_in_store p.before ≡ true }
    ensures publishing { (t : Tree) (r next : Repo) (command : Command) (p : Parts) → ArePartsOf t r command next p → is_in_store p.publishing ≡ true }
{}
