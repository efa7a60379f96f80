//! A new repository.
ghost use Rattle.std.specs.Prelude.{◌≡◌, ℕ, List, Option, IfOk, IsErrOf};
ghost use Rattle.hgs_files.specs.Files.{GoesOn};
ghost use Rattle.hgs_files.specs.Reads.{Rose};
ghost use Rattle.hgs_files.specs.declared.files.FileFault.TheVariants.{Failed};
ghost use Rattle.hgs_files.specs.declared.op.Op.{Op};
ghost use Rattle.hgs_load.specs.Open.{requires_path};
ghost use Rattle.hgs_machine.specs.Locks.{NeverFall};
ghost use Rattle.hgs_top.specs.Orders.{ComesTo, HasCause, LeavesInit, LeftHasCause, new_requires_path};
ghost use Rattle.hgs_top.specs.Words.{do_init};

use crate::ended::Ended;
use hgs_files::files::{FileFault, Files};
use hgs_files::path::{StorePath, path_of};
use std::alloc::{AllocError, Global};

/// The words of a new repository, one on each line.
const REQUIRES: &[u8; 33] = b"dotencode\nfncache\nrevlogv1\nstore\n";

// The name that `requires` has while it is written, and its own.
fn names(alloc: Global) -> Result<(StorePath, StorePath), AllocError>
    ensures { IfOk result (λ both. (both.0 ≡ new_requires_path) × (both.1 ≡ requires_path)) }
{
    Ok((
        path_of(alloc, b"journal.new.requires")?,
        path_of(alloc, b"requires")?,
    ))
}

// Writes `requires`, and gives it its name once all of it stands.
fn make<F: Files>(files: &mut F, new: &StorePath, named: &StorePath) -> Result<(), FileFault>
    requires allows { (log : List Op) → F.allows (F.start files.old) log }
    requires new { new.now ≡ new_requires_path }
    requires named { named.now ≡ requires_path }
    ensures done { GoesOn (F.log files.old) (F.log files.new) (LeavesInit result) }
    ensures counts { NeverFall (F.faults files.old) (F.faults files.new) (F.denied files.old) (F.denied files.new) }
    ensures same_start { F.start files.new ≡ F.start files.old }
    ensures failed { IsErrOf result Failed → Rose (F.faults files.old) (F.faults files.new) }
{
    match files.put(new, REQUIRES) {
        Ok(()) => files.rename(new, named),
        Err(fault) => Err(fault),
    }
}

/// Makes an empty repository, where none stands. A stop leaves `requires` absent or whole.
pub fn init<F: Files>(alloc: Global, files: &mut F) -> Ended
    requires { (log : List Op) → F.allows (F.start files.old) log }
    ensures comes { (left : Option (List ℕ)) → ComesTo do_init left (F.log files.old) (F.log files.new) (F.start files.old) result }
    ensures counts { NeverFall (F.faults files.old) (F.faults files.new) (F.denied files.old) (F.denied files.new) }
    ensures left { LeftHasCause (λ n. ⊥) (F.log files.old) (F.log files.new) (F.start files.old) result }
    ensures cause { (denied_old denied_new input_old input_new : ℕ) → HasCause (F.faults files.old) (F.faults files.new) denied_old denied_new input_old input_new result }
    ensures same_start { F.start files.new ≡ F.start files.old }
{
    let (new, named) = match names(alloc) {
        Ok(names) => names,
        Err(_) => return Ended::NotMade(FileFault::Memory),
    };
    match files.size(&named) {
        Ok(None) => {}
        Ok(Some(_)) => return Ended::Exists,
        Err(fault) => return Ended::NotMade(fault),
    }
    match make(files, &new, &named) {
        Ok(()) => Ended::Made,
        Err(fault) => Ended::NotMade(fault),
    }
}
