//! Carries a transaction out over files.
ghost use Rattle.std.specs.Prelude.{◌≡◌, ◌<◌, ◌+◌, ℕ, true, false, IfSome, None};
ghost use Rattle.std.specs.Option.{ForSome};
ghost use Rattle.hgs_files.specs.declared.op.Op.{Op};
ghost use Rattle.hgs_files.specs.Files.{GoesOn, MayDo};
ghost use Rattle.hgs_files.specs.Reads.{Counts};
ghost use Rattle.hgs_files.specs.Tree.{after_all};
ghost use Rattle.hgs_machine.specs.Asked.{Ending, asked};
ghost use Rattle.hgs_machine.specs.Carry.{CountsReply, IsCausedSince, IsReplied, IsStep, IsUnderWay, MayAsk, MayCarry, reply_of, size_reply_of, tree_now};
ghost use Rattle.hgs_machine.specs.Course.{CarriedOut};
ghost use Rattle.hgs_machine.specs.Planned.{HasSource, IsPlanned};
ghost use Rattle.hgs_machine.specs.Ran.{ComesOn, IsRunOut};
ghost use Rattle.hgs_machine.specs.Refusals.{WereRefused, how_many_stand, paths_removed_after, refusals_of_ended, refusals_of_short, refusals_so_far};
ghost use Rattle.hgs_machine.specs.SoFar.{Fits, Leaves, questions_left};

use crate::ended::Ended;
use crate::machine::{Machine, Next, Reply};
use hgs_files::files::{FileFault, Files};
use hgs_files::op::Op;
use hgs_transaction::assemble::Plan;

fn reply_of(outcome: Result<(), FileFault>) -> Reply
    ensures { result ≡ reply_of outcome }
{
    match outcome {
        Ok(()) => Reply::Done,
        Err(FileFault::Failed) => Reply::Failed,
        Err(FileFault::Memory) => Reply::Memory,
    }
}

fn size_reply_of(outcome: Result<Option<u64>, FileFault>) -> Reply
    ensures { result ≡ size_reply_of outcome }
{
    match outcome {
        Ok(size) => Reply::Size(size),
        Err(FileFault::Failed) => Reply::SizeFailed,
        Err(FileFault::Memory) => Reply::SizeMemory,
    }
}

/// Does an operation.
pub fn do_op<F: Files>(files: &mut F, op: &Op) -> Result<(), FileFault>
    requires allowed { MayDo (F.log files.old) (F.allows (F.start files.old)) op.now }
    requires source { ForSome (F.log files.old) (λ log. HasSource op.now (after_all log (F.start files.old))) }
    ensures done { GoesOn (F.log files.old) (F.log files.new) (Leaves op.now (reply_of result)) }
    ensures same_start { F.start files.new ≡ F.start files.old }
    ensures counts { Counts (F.faults files.old) (F.faults files.new) (F.denied files.old) (F.denied files.new) result }
{
    match op {
        Op::Append { path, bytes } => files.append(path, bytes.as_slice()),
        Op::Cut { path, len } => files.cut(path, *len),
        Op::Rename { from, to } => files.rename(from, to),
        Op::Remove { path } => files.remove(path),
        Op::Create { path, bytes } => files.put(path, bytes.as_slice()),
        Op::Sync { path } => files.sync(path),
        Op::Settle => files.settle(),
    }
}

/// Makes the call that a machine asks for; none where it asks for nothing more.
fn call<F: Files>(files: &mut F, machine: &Machine) -> Option<Reply>
    requires allowed { MayAsk (F.log files.old) (F.allows (F.start files.old)) (asked machine.now) }
    requires under_way { ForSome (F.log files.old) (λ log. IsUnderWay (after_all log (F.start files.old)) machine.now) }
    ensures fits { IfSome result (Fits (asked machine.now)) }
    ensures ended { result ≡ None → asked machine.now ≡ Ending }
    ensures log { GoesOn (F.log files.old) (F.log files.new) (IsReplied (tree_now (F.log files.old) (F.start files.old)) (asked machine.now) result) }
    ensures same_start { F.start files.new ≡ F.start files.old }
    ensures counts { CountsReply (F.faults files.old) (F.faults files.new) (F.denied files.old) (F.denied files.new) result }
{
    match machine.next() {
        Next::Do(op) => Some(reply_of(do_op(files, op))),
        Next::Size(path) => Some(size_reply_of(files.size(path))),
        Next::End(_) => None,
    }
}

/// Makes the call that a machine asks for, and tells it what became of it. False where it asks for nothing more.
fn step<F: Files>(files: &mut F, machine: &mut Machine) -> bool
    requires allowed { MayAsk (F.log files.old) (F.allows (F.start files.old)) (asked machine.old) }
    requires under_way { ForSome (F.log files.old) (λ log. IsUnderWay (after_all log (F.start files.old)) machine.old) }
    ensures log { GoesOn (F.log files.old) (F.log files.new) (IsStep (tree_now (F.log files.old) (F.start files.old)) machine.old machine.new) }
    ensures ended { result ≡ false → asked machine.new ≡ Ending }
    ensures fewer { result ≡ true → questions_left machine.new < questions_left machine.old }
    ensures plan { machine.new.plan ≡ machine.old.plan }
    ensures same_start { F.start files.new ≡ F.start files.old }
    ensures causes { (faults denied : ℕ) → IsCausedSince faults (F.faults files.old) denied (F.denied files.old) machine.old.outcome machine.old.swept → IsCausedSince faults (F.faults files.new) denied (F.denied files.new) machine.new.outcome machine.new.swept }
    ensures ran { GoesOn (F.log files.old) (F.log files.new) (ComesOn (tree_now (F.log files.old) (F.start files.old)) machine.old machine.new (F.faults files.old) (F.faults files.new) (F.denied files.old) (F.denied files.new)) }
    ensures calls { (faults denied : ℕ) → WereRefused (refusals_so_far machine.old) faults (F.faults files.old) denied (F.denied files.old) → WereRefused (refusals_so_far machine.new) faults (F.faults files.new) denied (F.denied files.new) }
{
    match call(files, machine) {
        Some(reply) => {
            machine.feed(reply);
            true
        }
        None => false,
    }
}

/// Carries a plan out by its machine, each of whose calls is made once. Where an operation fails, or finds no memory, before the
/// transaction is published, it is taken back; each file behind it is removed whether or not the others could be.
///
/// No file but the plan's is touched, and no memory is taken beside that of the files. The files need take no more than carrying the
/// plan out may leave, wherever it breaks off.
pub fn carry_out<F: Files>(files: &mut F, plan: Plan) -> Ended
    requires allowed { MayCarry (F.log files.old) (F.allows (F.start files.old)) (F.start files.old) plan }
    requires planned { ForSome (F.log files.old) (λ log. IsPlanned (after_all log (F.start files.old)) plan) }
    ensures log { GoesOn (F.log files.old) (F.log files.new) (CarriedOut (tree_now (F.log files.old) (F.start files.old)) plan result.outcome result.swept) }
    ensures same_start { F.start files.new ≡ F.start files.old }
    ensures causes { IsCausedSince (F.faults files.old) (F.faults files.new) (F.denied files.old) (F.denied files.new) result.outcome result.swept }
    ensures ran { GoesOn (F.log files.old) (F.log files.new) (IsRunOut (tree_now (F.log files.old) (F.start files.old)) plan result (F.faults files.old) (F.faults files.new) (F.denied files.old) (F.denied files.new)) }
    ensures calls { WereRefused (refusals_of_ended result.outcome result.swept) (F.faults files.old) (F.faults files.new) (F.denied files.old) (F.denied files.new) }
    ensures left { GoesOn (F.log files.old) (F.log files.new) (λ done. WereRefused (refusals_of_short result.outcome + how_many_stand (paths_removed_after result.outcome) (after_all done (tree_now (F.log files.old) (F.start files.old)))) (F.faults files.old) (F.faults files.new) (F.denied files.old) (F.denied files.new)) }
{
    let mut machine = Machine::new(plan);
    while step(files, &mut machine) {}
    machine.ended()
}
