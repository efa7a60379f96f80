//! Ends that read without a pause while one end writes.
ghost use Rattle.std.specs.Prelude.{List};
ghost use Rattle.std.specs.Thread.{IsSync};
ghost use Rattle.hgs_files.specs.declared.op.Op.{Op};
ghost use Rattle.hgs_files.specs.Tree.{Tree};

use crate::ends::Free;
use crate::files::store_path;
use crate::given::given;
use hgs_files::files::{Files, Reads};
use hgs_files::path::StorePath;
use hgs_files::yard::Yard;
use hgs_hub::hub::Hub;
use hgs_mem::mem::MemFiles;
use std::alloc::Global;
use std::test::Fail;
use std::thread::{Threads, join};

const TIMES: u64 = 10_000;

/// More looks than a test makes.
const LIMIT: u64 = 1_000_000_000;

/// Appends so many bytes one after another, each of which tells its place. Whether all was done.
fn appends<F: Files>(w: &mut F, path: &StorePath) -> bool
    requires { (start : Tree) (log : List Op) → F.allows start log }
{
    let mut fine = true;
    for place in 0..TIMES {
        let byte = (place % 251) as u8;
        fine = w.append(path, &[byte]).is_ok() && fine;
    }
    fine
}

/// Whether these are the first bytes that are appended.
fn is_front(bytes: &[u8]) -> bool {
    let mut fine = true;
    for (place, byte) in bytes.iter().enumerate() {
        fine = fine && *byte as usize == place % 251;
    }
    fine
}

/// Looks at the file until all is there, and counts the looks that found less than the one before, or anything else than was
/// written, or nothing.
fn looks<R: Reads>(r: &mut R, alloc: Global, path: &StorePath) -> u64 {
    let (mut last, mut wrong) = (0u64, 0u64);
    let mut found = Vec::new(alloc);
    for _ in 0..LIMIT {
        if last == TIMES {
            return wrong;
        }
        found.clear();
        let fine = match r.read(path, 0, TIMES, &mut found) {
            Ok(Some(len)) => {
                let before = last;
                last = len;
                before <= len && is_front(&found)
            }
            _ => false,
        };
        if !fine {
            wrong = wrong.saturating_add(1);
        }
    }
    wrong.saturating_add(1)
}

/// Writes in one thread and looks in two others: whether all was written, and how many looks were wrong.
fn race<W: Files + Send, F: Reads + Send, R: Threads + Sync>(
    rt: &R,
    alloc: Global,
    path: &StorePath,
    w: &mut W,
    one: &mut F,
    two: &mut F,
) -> (bool, (u64, u64))
    requires { (start : Tree) (log : List Op) → W.allows start log }
{
    join(
        rt,
        || -> bool
            requires { (start : Tree) (log : List Op) → W.allows start log }
        { appends(w, path) },
        || -> (u64, u64)
            requires { IsSync R.row }
        { join(rt, || looks(one, alloc, path), || looks(two, alloc, path)) },
    )
}

#[test]
fn looks_beside_a_writer_never_go_back(rt: HostRuntime) -> Result<(), Fail> {
    let alloc = rt.alloc();
    let path = store_path(alloc, b"a")?;
    let mut files = MemFiles::new(alloc)?;
    given(files.put(&path, b""))?;
    let hub: Hub<Free, HostRuntime> = Hub::new(rt, files);
    let Ok((mut w, mut rs)) = hub.start(2) else {
        panic!(rt; "no memory");
    };
    let (Some(mut one), Some(mut two)) = (rs.pop(), rs.pop()) else {
        panic!(rt; "no reader");
    };
    let (fine, wrong) = race(&rt, alloc, &path, &mut w, &mut one, &mut two);
    assert!(rt; fine && wrong == (0, 0));
    let size = w.size(&path);
    assert_eq!(rt; size, Ok(Some(TIMES)));
    Ok(())
}
