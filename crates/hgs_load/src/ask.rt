//! One read of a file that others may change meanwhile.
ghost use Rattle.std.specs.Prelude.{◌≡◌, ◌≤◌, [], true, length, unwrap_or, IfOk, IfSome};
ghost use Rattle.hgs_files.specs.Reads.{Grows};
ghost use Rattle.hgs_load.specs.Answer.{HasFaultCause};
ghost use Rattle.hgs_load.specs.Asks.{IsPart};
ghost use Rattle.hgs_load.specs.Beyond.{IsShown, LooksThere};
ghost use Rattle.hgs_load.specs.Given.{CountsPart};

use crate::answer::{ReadAnswer, of_files};
use hgs_bytes::bytes::Bytes;
use hgs_files::files::Reads;
use hgs_files::path::StorePath;
use std::alloc::Global;

/// At most `most` bytes of a file from byte `from` on; none where the file isn't there. One step: the bytes are those of one moment.
pub fn read_part<R: Reads>(
    alloc: Global,
    files: &mut R,
    path: &StorePath,
    from: u64,
    most: u64,
) -> Result<Option<Bytes>, ReadAnswer>
    ensures answer { IsPart (R.seen files.new) (R.start files.new) path.now from most result }
    ensures given { CountsPart (R.given files.old) (R.given files.new) result }
    ensures short { IfOk result (λ part. IfSome part (λ bytes. length bytes ≤ most)) }
    ensures seen { Grows (R.seen files.old) (R.seen files.new) }
    ensures same_start { R.start files.new ≡ R.start files.old }
    ensures still { R.alone ≡ true → R.seen files.new ≡ R.seen files.old }
    ensures same_ties { R.ties files.new ≡ R.ties files.old }
    ensures shown { IsShown R.shows (R.start files.old) (R.seen files.old) → IsShown R.shows (R.start files.new) (R.seen files.new) }
    ensures beyond { LooksThere (R.ties files.old).told (R.seen files.new) result }
    ensures cause { HasFaultCause (R.faults files.old) (R.faults files.new) (R.denied files.old) (R.denied files.new) result }
{
    let mut part = Vec::new(alloc);
    match files.read(path, from, most, &mut part) {
        Ok(Some(_)) => Ok(Some(Bytes::from_vec(part))),
        Ok(None) => Ok(None),
        Err(fault) => Err(of_files(fault)),
    }
}

/// The bytes that a read gave, none where the file isn't there.
pub fn bytes_of(part: &Option<Bytes>) -> &[u8]
    ensures { result.now ≡ unwrap_or part.now [] }
{
    match part {
        Some(bytes) => bytes.as_slice(),
        None => &[],
    }
}
