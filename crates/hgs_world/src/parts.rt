//! An operation that is done in parts.
ghost use Rattle.std.specs.Prelude.{◌≡◌, [], OnOk, Some};
ghost use Rattle.hgs_files.specs.declared.op.Op.{Op};
ghost use Rattle.hgs_files.specs.Files.{GoesOn};
ghost use Rattle.hgs_files.specs.Log.{IsDone, append_of_rest};
ghost use Rattle.hgs_machine.specs.Planned.{HasSource};
ghost use Rattle.hgs_mem.specs.Pieces.{create_of_front};
ghost use Rattle.hgs_mem.specs.Steady.{steady_log, steady_start, steady_tree};
ghost use Rattle.hgs_world.specs.Parts.{DoesPart, DoesRest, op_length};

use crate::seen::NoMemory;
use hgs_bytes::parts::{front, past};
use hgs_files::files::Files;
use hgs_files::op::Op;
use hgs_files::path::StorePath;
use hgs_machine::carry::do_op;
use hgs_mem::steady::SteadyFiles;

/// How many bytes an operation brings.
pub fn op_length(op: &Op) -> u64
    ensures { result ≡ op_length op.now }
{
    match op {
        Op::Append { bytes, .. } | Op::Create { bytes, .. } => bytes.len() as u64,
        _ => 0,
    }
}

// Appends bytes where there are any.
fn append_some(files: &mut SteadyFiles, path: &StorePath, bytes: &[u8]) -> Result<(), NoMemory>
    ensures done { OnOk result (GoesOn (Some (steady_log files.old)) (Some (steady_log files.new)) (λ done. IsDone (append_of_rest path.now bytes.now) done [])) }
    ensures same_start { steady_start files.new ≡ steady_start files.old }
{
    if bytes.is_empty() {
        return Ok(());
    }
    match files.append(path, bytes) {
        Ok(()) => Ok(()),
        Err(_) => Err(NoMemory),
    }
}

// Makes a file of bytes where there are any.
fn create_some(files: &mut SteadyFiles, path: &StorePath, bytes: &[u8]) -> Result<(), NoMemory>
    ensures done { OnOk result (GoesOn (Some (steady_log files.old)) (Some (steady_log files.new)) (λ done. IsDone (create_of_front path.now bytes.now) done [])) }
    ensures same_start { steady_start files.new ≡ steady_start files.old }
{
    if bytes.is_empty() {
        return Ok(());
    }
    match files.put(path, bytes) {
        Ok(()) => Ok(()),
        Err(_) => Err(NoMemory),
    }
}

// Does a whole operation.
fn do_whole(files: &mut SteadyFiles, op: &Op) -> Result<(), NoMemory>
    requires { HasSource op.now (steady_tree files.old) }
    ensures done { OnOk result (GoesOn (Some (steady_log files.old)) (Some (steady_log files.new)) (DoesRest op.now 0)) }
    ensures same_start { steady_start files.new ≡ steady_start files.old }
{
    match do_op(files, op) {
        Ok(()) => Ok(()),
        Err(_) => Err(NoMemory),
    }
}

/// Does what is left of an operation, of which so many bytes are done.
pub fn do_rest(files: &mut SteadyFiles, op: &Op, part: u64) -> Result<(), NoMemory>
    requires { HasSource op.now (steady_tree files.old) }
    ensures done { OnOk result (GoesOn (Some (steady_log files.old)) (Some (steady_log files.new)) (DoesRest op.now part)) }
    ensures same_start { steady_start files.new ≡ steady_start files.old }
{
    if part == 0 {
        return do_whole(files, op);
    }
    match op {
        Op::Append { path, bytes } | Op::Create { path, bytes } => {
            append_some(files, path, past(bytes.as_slice(), part as usize))
        }
        _ => do_whole(files, op),
    }
}

/// Does so many more bytes of an operation, of which so many are done; nothing of one without bytes.
pub fn do_part(files: &mut SteadyFiles, op: &Op, part: u64, count: u64) -> Result<(), NoMemory>
    ensures done { OnOk result (GoesOn (Some (steady_log files.old)) (Some (steady_log files.new)) (DoesPart op.now part count)) }
    ensures same_start { steady_start files.new ≡ steady_start files.old }
{
    match op {
        Op::Append { path, bytes } => {
            let rest = past(bytes.as_slice(), part as usize);
            append_some(files, path, front(rest, count as usize))
        }
        Op::Create { path, bytes } => {
            let rest = past(bytes.as_slice(), part as usize);
            let more = front(rest, count as usize);
            if part == 0 {
                create_some(files, path, more)
            } else {
                append_some(files, path, more)
            }
        }
        _ => Ok(()),
    }
}
