//! The operations that undo a transaction, done one after another.
ghost use Rattle.std.specs.Prelude.{◌≡◌, List};
ghost use Rattle.hgs_files.specs.declared.op.Op.{Op};
ghost use Rattle.hgs_files.specs.Files.{GoesOn};
ghost use Rattle.hgs_machine.specs.Locks.{CausesLeft, NeverFall};
ghost use Rattle.hgs_recover.specs.Undoing.{IsUndoList, Undoes};

use hgs_files::files::Files;
use hgs_files::laws::pieces_join;
use hgs_files::op::Op;
use hgs_machine::carry::do_op;

/// Does the operations that undo a transaction, up to the first that is refused, and answers whether all are done. Takes no
/// memory beside that of the files.
pub fn undo<F: Files>(files: &mut F, ops: &[Op]) -> bool
    requires allowed { (log : List Op) → F.allows (F.start files.old) log }
    requires undo { IsUndoList ops.now }
    ensures log { GoesOn (F.log files.old) (F.log files.new) (Undoes ops.now result) }
    ensures same_start { F.start files.new ≡ F.start files.old }
    ensures counts { NeverFall (F.faults files.old) (F.faults files.new) (F.denied files.old) (F.denied files.new) }
    ensures causes { CausesLeft (F.faults files.old) (F.faults files.new) (F.denied files.old) (F.denied files.new) result }
{
    pieces_join();
    for op in ops.iter() {
        if do_op(files, op).is_err() {
            return false;
        }
    }
    true
}
