//! The beginning of a command that writes: up to its plan.
ghost use Rattle.std.specs.Prelude.{◌≡◌, ◌≤◌, ◌+◌, length, is_some};
ghost use Rattle.std.specs.Option.{ForSome};
ghost use Rattle.hgs_answers.specs.declared.outcome.Outcome.TheVariants.{Fault, Unfinished};
ghost use Rattle.hgs_answers.specs.declared.outcome.Published.{Published};
ghost use Rattle.hgs_files.specs.Files.{GoesOn};
ghost use Rattle.hgs_files.specs.Reads.{Rose};
ghost use Rattle.hgs_files.specs.Tree.{after_all};
ghost use Rattle.hgs_machine.specs.Carry.{tree_now};
ghost use Rattle.hgs_machine.specs.Planned.{IsPlanned};
ghost use Rattle.hgs_machine.specs.Refusals.{WereRefused, how_many_made, lock_paths};
ghost use Rattle.hgs_model.specs.Valid.{IsValid};
ghost use Rattle.hgs_writer.specs.Begun.{Begins, IfReady, IfRefused};
ghost use Rattle.hgs_writer.specs.Refusals.{refusals_of, refusals_of_outcome};
ghost use Rattle.hgs_writer.specs.Written.{MayWrite};

use crate::answers::{of_commit, of_locks};
use crate::plan::{Planned, plan};
use hgs_answers::answer::Answer;
use hgs_files::files::Files;
use hgs_machine::locks::take_locks;
use hgs_model::command::Command;
use std::alloc::Global;

/// How a command that writes has begun.
#[derive(Drop)]
pub enum Begun {
    /// It is planned, and both locks are held.
    Ready(Planned),
    /// It is refused, and the locks that it made are removed where the answer says that all is swept.
    Refused(Answer),
}

/// Takes the locks, with these bytes in them, reads what the command needs, and plans its transaction. Where it is refused,
/// the locks that were made are removed again.
pub fn begin<F: Files>(alloc: Global, files: &mut F, command: &Command, who: &[u8]) -> Begun
    requires valid { IsValid command.now }
    requires least { 1 ≤ length who.now }
    requires most { length who.now ≤ 255 }
    requires allows { MayWrite who.now command.now (F.log files.old) (F.allows (F.start files.old)) (F.start files.old) }
    ensures log { GoesOn (F.log files.old) (F.log files.new) (Begins who.now command.now (tree_now (F.log files.old) (F.start files.old)) result) }
    ensures planned { IfReady result (λ planned. ForSome (F.log files.new) (λ log. IsPlanned (after_all log (F.start files.new)) planned.plan)) }
    ensures fault { IfRefused result (λ answer. answer.outcome ≡ Fault → Rose (F.faults files.old) (F.faults files.new)) }
    ensures finished { IfRefused result (λ answer. (published : Published) → answer.outcome ≡ Unfinished published → ⊥) }
    ensures calls { IfRefused result (λ answer. WereRefused (refusals_of (is_some (F.log files.old)) answer) (F.faults files.old) (F.faults files.new) (F.denied files.old) (F.denied files.new)) }
    ensures left { IfRefused result (λ answer. GoesOn (F.log files.old) (F.log files.new) (λ done. WereRefused (refusals_of_outcome (is_some (F.log files.old)) answer.outcome + how_many_made lock_paths (tree_now (F.log files.old) (F.start files.old)) (after_all done (tree_now (F.log files.old) (F.start files.old)))) (F.faults files.old) (F.faults files.new) (F.denied files.old) (F.denied files.new))) }
    ensures later { F.faults files.old ≤ F.faults files.new }
    ensures refused { F.denied files.old ≤ F.denied files.new }
    ensures same_start { F.start files.new ≡ F.start files.old }
{
    let locks = match take_locks(alloc, files, who) {
        Ok(locks) => locks,
        Err(refusal) => return Begun::Refused(of_locks(refusal)),
    };
    match plan(alloc, files, command) {
        Ok(planned) => Begun::Ready(planned),
        Err(fault) => {
            let swept = locks.release(files);
            let outcome = of_commit(fault);
            Begun::Refused(Answer { outcome, swept })
        }
    }
}
