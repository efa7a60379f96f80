//! Files that are read whole, however long they are.
ghost use Rattle.std.specs.Prelude.{◌≡◌, ◌<◌, ◌^◌, IfOk, IfSome, true, IfErr, length, unwrap_or, [], Ok};
ghost use Rattle.hgs_verify.specs.Looked.{OfTree};
ghost use Rattle.hgs_load.specs.Whole.{within};
ghost use Rattle.hgs_bytes.specs.Answer.{Gives};
ghost use Rattle.hgs_verify.specs.Refusal.{is_refusal};
ghost use Rattle.hgs_files.specs.Reads.{Grows, IsSizeOf};
ghost use Rattle.hgs_files.specs.Tree.{after_all};
ghost use Rattle.hgs_load.specs.Answer.{HasFaultCause, is_of_outside};

use hgs_bytes::bytes::Bytes;
use hgs_files::files::Reads;
use hgs_files::path::StorePath;
use hgs_index::kinds::Which;
use hgs_load::answer::{ReadAnswer, of_files};
use hgs_load::ask::{bytes_of, read_part};
use std::alloc::Global;

/// More bytes than any memory has.
const MOST: u64 = 0x4000_0000_0000_0000;

/// The bytes of a file, none where it isn't there. One read: the bytes are those of one moment.
pub fn read_file<R: Reads>(
    alloc: Global,
    files: &mut R,
    path: &StorePath,
) -> Result<Option<Bytes>, ReadAnswer>
    ensures bytes { IfOk result (λ bytes. IfSome (R.seen files.new) (λ log. bytes ≡ after_all log (R.start files.new) path.now)) }
    ensures seen { Grows (R.seen files.old) (R.seen files.new) }
    ensures same_start { R.start files.new ≡ R.start files.old }
    ensures still { R.alone ≡ true → R.seen files.new ≡ R.seen files.old }
    ensures cause { HasFaultCause (R.faults files.old) (R.faults files.new) (R.denied files.old) (R.denied files.new) result }
    ensures outside { IfErr result (λ e. is_of_outside e ≡ true) }
    ensures refused { IfErr result (λ e. is_refusal e ≡ true) }
    ensures few { IfOk result (λ bytes. length (unwrap_or bytes []) < 2 ^ 62) }
{
    let part = read_part(alloc, files, path, 0, MOST)?;
    if bytes_of(&part).len() as u64 >= MOST {
        return Err(ReadAnswer::Memory);
    }
    Ok(part)
}

/// The bytes of a file, none where it isn't there. One with more than `most` bytes is refused.
pub fn read_text<R: Reads>(
    alloc: Global,
    files: &mut R,
    path: &StorePath,
    most: u64,
) -> Result<Option<Bytes>, ReadAnswer>
    requires { most < 2 ^ 32 }
    ensures bytes { IfOk result (λ bytes. IfSome (R.seen files.new) (λ log. bytes ≡ after_all log (R.start files.new) path.now)) }
    ensures same_start { R.start files.new ≡ R.start files.old }
    ensures still { R.alone ≡ true → R.seen files.new ≡ R.seen files.old }
    ensures cause { HasFaultCause (R.faults files.old) (R.faults files.new) (R.denied files.old) (R.denied files.new) result }
    ensures refused { IfErr result (λ e. is_refusal e ≡ true) }
    ensures given { OfTree R.alone (R.seen files.new) (R.start files.new) (λ t. Gives is_of_outside (λ bytes. bytes) result (within most Ok (t path.now))) }
{
    let part = read_part(alloc, files, path, 0, most + 1)?;
    if bytes_of(&part).len() as u64 > most {
        return Err(ReadAnswer::Limit(Which::Part));
    }
    Ok(part)
}

/// The length of a file in bytes, none where it isn't there. Takes no memory.
pub fn size_of<R: Reads>(files: &mut R, path: &StorePath) -> Result<Option<u64>, ReadAnswer>
    ensures size { IfOk result (λ size. IfSome (R.seen files.new) (λ log. IsSizeOf (after_all log (R.start files.new) path.now) size)) }
    ensures same_start { R.start files.new ≡ R.start files.old }
    ensures still { R.alone ≡ true → R.seen files.new ≡ R.seen files.old }
    ensures cause { HasFaultCause (R.faults files.old) (R.faults files.new) (R.denied files.old) (R.denied files.new) result }
    ensures refused { IfErr result (λ e. is_refusal e ≡ true) }
    ensures outside { IfErr result (λ e. is_of_outside e ≡ true) }
{
    match files.size(path) {
        Ok(size) => Ok(size),
        Err(fault) => Err(of_files(fault)),
    }
}
