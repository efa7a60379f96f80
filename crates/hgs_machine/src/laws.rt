//! Which plans can be carried out. Each function is one law; none does anything.
ghost use Rattle.std.specs.Prelude.{◌≡◌, ◌++◌, [], ℕ, List, Option, false, true};
ghost use Rattle.hgs_machine.specs.Course.{CarriedOut};
ghost use Rattle.hgs_files.specs.Tree.{Tree, after_all};
ghost use Rattle.hgs_files.specs.declared.op.Op.{Op};
ghost use Rattle.hgs_machine.specs.Asked.{Doing, asked};
ghost use Rattle.hgs_machine.specs.Fed.{fed, is_acknowledged, is_published, new_machine};
ghost use Rattle.hgs_machine.specs.Planned.{HasSource, IsPlanned};
ghost use Rattle.hgs_machine.specs.SoFar.{Fits, IsInPart, SoFar, Steps, stopped_as};
ghost use Rattle.hgs_machine.specs.declared.machine.Machine.{Machine};
ghost use Rattle.hgs_machine.specs.declared.machine.Reply.TheVariants as replies;
ghost use Rattle.hgs_machine.specs.Sound.{AreSound};
ghost use Rattle.hgs_transaction.specs.Assembled.{IsPlanOf};
ghost use Rattle.hgs_transaction.specs.declared.assemble.Plan.{Plan};
ghost use Rattle.hgs_transaction.specs.declared.parts.Parts.{Parts};

/// The plan of parts in which no file is replaced twice, and whose publishing append finds its file as it says, can be
/// carried out: the files that it renames are made by itself.
pub fn plans_can_be_carried_out()
    ensures { (t : Tree) (p : Parts) (plan : Plan) → AreSound t p → IsPlanOf p plan → IsPlanned t plan }
{}

/// The file that is renamed stands when a machine asks for that.
pub fn sources_stand()
    ensures { (t : Tree) (m : Machine) (log : List Op) (op : Op) → SoFar t m log → asked m ≡ Doing op → HasSource op (after_all log t) }
{}

/// Wherever a machine stands, also with a front of its operation done, what was done so far is the log of a plan that was
/// carried out, was given up or broke off there.
pub fn machines_may_stop_anywhere()
    ensures { (t : Tree) (m : Machine) (log more : List Op) → SoFar t m log → IsInPart (asked m) more → CarriedOut t m.plan (stopped_as m) false (log ++ more) }
{}

/// A machine begins with nothing done, and what it becomes by a reply stands where what the reply says was done.
pub fn machines_go_on()
    ensures begins { (t : Tree) (plan : Plan) → IsPlanned t plan → SoFar t (new_machine plan) [] }
    ensures done { (m : Machine) → Steps m replies.Done (fed m replies.Done) }
    ensures failed { (m : Machine) → Steps m replies.Failed (fed m replies.Failed) }
    ensures sized { (m : Machine) (size : Option ℕ) → Steps m (replies.Size size) (fed m (replies.Size size)) }
{}

/// What is published stays so, whatever replies come, and what is acknowledged stays so and is published; the size of a file
/// acknowledges nothing.
pub fn progress_stays()
    ensures published_done { (m : Machine) → is_published m ≡ true → is_published (fed m replies.Done) ≡ true }
    ensures published_failed { (m : Machine) → is_published m ≡ true → is_published (fed m replies.Failed) ≡ true }
    ensures published_sized { (m : Machine) (size : Option ℕ) → Fits (asked m) (replies.Size size) → is_published m ≡ true → is_published (fed m (replies.Size size)) ≡ true }
    ensures acknowledged_done { (m : Machine) → is_acknowledged m ≡ true → is_acknowledged (fed m replies.Done) ≡ true }
    ensures acknowledged_failed { (m : Machine) → is_acknowledged m ≡ true → is_acknowledged (fed m replies.Failed) ≡ true }
    ensures acknowledged_sized { (m : Machine) (size : Option ℕ) → Fits (asked m) (replies.Size size) → is_acknowledged (fed m (replies.Size size)) ≡ is_acknowledged m }
    ensures acknowledged_published { (m : Machine) → is_acknowledged m ≡ true → is_published m ≡ true }
{}
