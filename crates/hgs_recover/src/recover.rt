//! Recovering: the open transaction is undone, and what is left over is removed.
ghost use Rattle.std.specs.Prelude.{◌≡◌, ◌⊎◌, List, IfSome, false};
ghost use Rattle.hgs_files.specs.declared.op.Op.{Op};
ghost use Rattle.hgs_files.specs.Files.{GoesOn};
ghost use Rattle.hgs_files.specs.Reads.{Rose};
ghost use Rattle.hgs_files.specs.Tree.{after_all};
ghost use Rattle.hgs_machine.specs.Carry.{tree_now};
ghost use Rattle.hgs_machine.specs.Locks.{NeverFall};
ghost use Rattle.hgs_recover.specs.Clearing.{IsLeft};
ghost use Rattle.hgs_recover.specs.declared.answer.RecoverAnswer.TheVariants.{Fault, Unfinished};
ghost use Rattle.hgs_recover.specs.Found.{answer_in};
ghost use Rattle.hgs_recover.specs.Recovering.{Answers, RecoversBy, WhereSwept};

use crate::answer::{RecoverAnswer, Recovered, of_read};
use crate::find::find;
use crate::leftovers::Leftovers;
use crate::undo::undo;
use hgs_files::files::Files;
use hgs_files::op::Op;
use std::alloc::Global;

/// Undoes the transaction whose journal stands, and then removes what is left over of transactions, and both locks; where
/// no journal stands it only removes these. Nobody else may be at work on the files. What is needed is read before anything
/// is done, so damage changes nothing; a recovery that was stopped or broke off may be begun again.
pub fn recover<F: Files>(alloc: Global, files: &mut F) -> Recovered
    requires allows { (log : List Op) → F.allows (F.start files.old) log }
    ensures log { GoesOn (F.log files.old) (F.log files.new) (RecoversBy (tree_now (F.log files.old) (F.start files.old)) result.outcome result.swept) }
    ensures answer { IfSome (F.log files.old) (λ log. Answers (answer_in (after_all log (F.start files.old))) result.outcome) }
    ensures fault { result.outcome ≡ Fault → Rose (F.faults files.old) (F.faults files.new) }
    ensures unfinished { result.outcome ≡ Unfinished → Rose (F.faults files.old) (F.faults files.new) ⊎ Rose (F.denied files.old) (F.denied files.new) }
    ensures swept { result.swept ≡ false → Rose (F.faults files.old) (F.faults files.new) ⊎ Rose (F.denied files.old) (F.denied files.new) }
    ensures left { WhereSwept result.outcome (GoesOn (F.log files.old) (F.log files.new) (IsLeft (tree_now (F.log files.old) (F.start files.old)) (F.faults files.old) (F.faults files.new) (F.denied files.old) (F.denied files.new))) }
    ensures counts { NeverFall (F.faults files.old) (F.faults files.new) (F.denied files.old) (F.denied files.new) }
    ensures same_start { F.start files.new ≡ F.start files.old }
{
    let Ok(leftovers) = Leftovers::new(alloc) else {
        return Recovered {
            outcome: RecoverAnswer::Memory,
            swept: true,
        };
    };
    let ops = match find(alloc, files) {
        Ok(Some(ops)) => ops,
        Ok(None) => {
            let swept = leftovers.sweep(files);
            return Recovered {
                outcome: RecoverAnswer::NothingToDo,
                swept,
            };
        }
        Err(refusal) => {
            return Recovered {
                outcome: of_read(refusal),
                swept: true,
            };
        }
    };
    if !undo(files, &ops) {
        return Recovered {
            outcome: RecoverAnswer::Unfinished,
            swept: true,
        };
    }
    let swept = leftovers.sweep(files);
    Recovered {
        outcome: RecoverAnswer::Restored,
        swept,
    }
}
