//! Files that are read whole, in one read, and the length of a file.
ghost use Rattle.std.specs.Prelude.{◌≡◌, ◌<◌, ◌^◌, true};
ghost use Rattle.std.specs.Option.{option_map};
ghost use Rattle.hgs_files.specs.Reads.{Grows};
ghost use Rattle.hgs_load.specs.Answer.{HasFaultCause};
ghost use Rattle.hgs_loading.specs.Found.{Finds, required_in, size_in, whole_in};

use hgs_bytes::bytes::Bytes;
use hgs_files::files::Reads;
use hgs_files::path::{StorePath, path_of};
use hgs_index::kinds::Which;
use hgs_load::answer::{ReadAnswer, of_files};
use hgs_load::ask::{bytes_of, read_part};
use hgs_load::requirements::test_requirements;
use std::alloc::Global;

/// The number of bytes above which `requires` is refused.
const MOST_REQUIRES: u64 = 65_536;

// What a read gave, as a slice.
fn slice_of(part: &Option<Bytes>) -> Option<&[u8]>
    ensures { option_map (λ p. p.now) result ≡ part.now }
{
    match part {
        Some(bytes) => Some(bytes.as_slice()),
        None => None,
    }
}

/// The bytes of a file, none where it isn't there. A file with more than `most` bytes is refused.
pub fn read_whole<R: Reads>(
    alloc: Global,
    files: &mut R,
    path: &StorePath,
    most: u64,
) -> Result<Option<Bytes>, ReadAnswer>
    requires { most < 2 ^ 32 }
    ensures found { Finds (λ bytes. bytes) R.alone (R.seen files.new) (R.start files.new) (whole_in most path.now) result }
    ensures seen { Grows (R.seen files.old) (R.seen files.new) }
    ensures same_start { R.start files.new ≡ R.start files.old }
    ensures still { R.alone ≡ true → R.seen files.new ≡ R.seen files.old }
    ensures cause { HasFaultCause (R.faults files.old) (R.faults files.new) (R.denied files.old) (R.denied files.new) result }
{
    let part = read_part(alloc, files, path, 0, most + 1)?;
    if bytes_of(&part).len() as u64 > most {
        return Err(ReadAnswer::Limit(Which::Part));
    }
    Ok(part)
}

/// Tests what the repository requires. It is refused as none where `requires` isn't there.
pub fn test_requires<R: Reads>(alloc: Global, files: &mut R) -> Result<(), ReadAnswer>
    ensures found { Finds (λ x. x) R.alone (R.seen files.new) (R.start files.new) required_in result }
    ensures seen { Grows (R.seen files.old) (R.seen files.new) }
    ensures same_start { R.start files.new ≡ R.start files.old }
    ensures still { R.alone ≡ true → R.seen files.new ≡ R.seen files.old }
    ensures cause { HasFaultCause (R.faults files.old) (R.faults files.new) (R.denied files.old) (R.denied files.new) result }
{
    let path = path_of(alloc, b"requires")?;
    let bytes = read_whole(alloc, files, &path, MOST_REQUIRES)?;
    test_requirements(alloc, slice_of(&bytes))
}

/// The length of a file in bytes, none where it isn't there. Takes no memory.
pub fn size_of<R: Reads>(files: &mut R, path: &StorePath) -> Result<Option<u64>, ReadAnswer>
    ensures found { Finds (λ size. size) R.alone (R.seen files.new) (R.start files.new) (size_in path.now) result }
    ensures seen { Grows (R.seen files.old) (R.seen files.new) }
    ensures same_start { R.start files.new ≡ R.start files.old }
    ensures still { R.alone ≡ true → R.seen files.new ≡ R.seen files.old }
    ensures cause { HasFaultCause (R.faults files.old) (R.faults files.new) (R.denied files.old) (R.denied files.new) result }
{
    match files.size(path) {
        Ok(size) => Ok(size),
        Err(fault) => Err(of_files(fault)),
    }
}
