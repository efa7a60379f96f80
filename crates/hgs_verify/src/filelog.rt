//! The filelog of a path.
ghost use Rattle.std.specs.Prelude.{◌≡◌, IfErr, IfOk, true};
ghost use Rattle.hgs_files.specs.Reads.{Grows};
ghost use Rattle.hgs_load.specs.Answer.{HasFaultCause, is_of_outside};
ghost use Rattle.hgs_verify.specs.Looked.{OfTree};
ghost use Rattle.hgs_verify.specs.Refusal.{is_refusal};
ghost use Rattle.hgs_verify.specs.Task.{IsReadOf};

use crate::revlog::read_either;
use crate::task::Task;
use hgs_bytes::bytes::Bytes;
use hgs_files::files::Reads;
use hgs_load::answer::ReadAnswer;
use hgs_path::name::{Ext, store_name};
use hgs_revlog::fault::RevFault;
use std::alloc::Global;

/// Reads the filelog of a path, in either form.
pub fn read_task<R: Reads>(alloc: Global, files: &mut R, path: Bytes) -> Result<Task, ReadAnswer>
    ensures path { IfOk result (λ task. task.path ≡ path) }
    ensures read { IfOk result (λ task. OfTree R.alone (R.seen files.new) (R.start files.new) (IsReadOf task)) }
    ensures seen { Grows (R.seen files.old) (R.seen files.new) }
    ensures same_start { R.start files.new ≡ R.start files.old }
    ensures still { R.alone ≡ true → R.seen files.new ≡ R.seen files.old }
    ensures cause { HasFaultCause (R.faults files.old) (R.faults files.new) (R.denied files.old) (R.denied files.new) result }
    ensures refused { IfErr result (λ e. is_refusal e ≡ true) }
    ensures outside { IfErr result (λ e. is_of_outside e ≡ true) }
{
    let index = store_name(alloc, path.as_slice(), Ext::I)?;
    let chunks = store_name(alloc, path.as_slice(), Ext::D)?;
    let parts = read_either(alloc, files, &index, &chunks, u64::MAX)?;
    Ok(Task {
        path,
        index,
        chunks,
        parts,
        found: Err(RevFault::Memory),
    })
}
