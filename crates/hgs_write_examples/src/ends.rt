//! What one writing end did is what a reading end sees, and what it was told of it sees at least.
ghost use Rattle.std.specs.Prelude.{◌≡◌, List};
ghost use Rattle.hgs_files.specs.declared.op.Op.{Op};
ghost use Rattle.hgs_files.specs.Tree.{Tree};
ghost use Rattle.hgs_hub.specs.Reader.{ties_by};
ghost use Rattle.hgs_hub.specs.Writer.{ties_at};

use crate::files::store_path;
use crate::given::given;
use hgs_files::ends::{Follows, Leads};
use hgs_files::files::{Created, FileFault, Files, Reads};
use hgs_files::path::StorePath;
use hgs_files::protocol::Protocol;
use hgs_files::yard::Yard;
use hgs_hub::hub::Hub;
use hgs_hub::reader::HubReader;
use hgs_hub::writer::HubWriter;
use hgs_mem::mem::MemFiles;
use std::alloc::Global;
use std::sync::Wait;
use std::test::Fail;

/// All lists are legal.
pub(crate) struct Free;

impl Protocol for Free {
    ghost legal = { λ start log. Unit {0} };

    ghost legal_empty = { λ start. tt };

    ghost legal_front = { λ start log more h. tt };

    ghost legal_piece = { λ start log left op piece p h. tt };
}

/// A writing end and a reading end of one start.
#[derive(Drop)]
pub(crate) struct Pair<T: Wait + Drop + Send> {
    pub(crate) w: HubWriter<Free, T>,
    pub(crate) r: HubReader<Free>,
    ghost home: { (ties_by r).home ≡ (ties_at w).home },
}

/// Both ends of a yard over these files.
pub(crate) fn two_ends<T: Wait + Drop + Send>(rt: T, files: MemFiles) -> Result<Pair<T>, Fail> {
    let hub: Hub<Free, T> = Hub::new(rt, files);
    let Ok((w, rs)) = hub.start(1) else {
        return Err(Fail::new("no memory"));
    };
    let mut rs = rs;
    match rs.pop() {
        Some(r) => Ok(Pair { w, r }),
        None => Err(Fail::new("no memory")),
    }
}

/// The files at rest again.
fn at_rest<T: Wait + Drop + Send>(alloc: Global, pair: Pair<T>) -> Result<MemFiles, Fail> {
    let Pair { w, r } = pair;
    let mut rs = Vec::new(alloc);
    if rs.push(r).is_err() {
        return Err(Fail::new("no memory"));
    }
    match Hub::finish(w, rs) {
        Ok(hub) => Ok(hub.alone().0),
        Err(_) => Err(Fail::new("no memory")),
    }
}

/// All of a file, as a reading end sees it.
fn seen<R: Reads>(files: &mut R, alloc: Global, path: &StorePath) -> Result<Vec<u8>, FileFault>
    ensures { R.ties files.new ≡ R.ties files.old }
{
    let mut into = Vec::new(alloc);
    files.read(path, 0, 100, &mut into)?;
    Ok(into)
}

/// Gives a file another name, where it stands.
fn renamed<F: Files>(files: &mut F, from: &StorePath, to: &StorePath) -> Result<(), FileFault>
    requires { (start : Tree) (log : List Op) → F.allows start log }
    ensures { F.ties files.new ≡ F.ties files.old }
{
    match files.size(from)? {
        Some(_) => files.rename(from, to),
        None => Ok(()),
    }
}

#[test]
fn what_was_told_is_seen(rt: HostRuntime) -> Result<(), Fail> {
    let alloc = rt.alloc();
    let a = store_path(alloc, b"a")?;
    let files = MemFiles::new(alloc)?;
    let mut ends = two_ends(&rt, files)?;
    let size = ends.r.size(&a);
    assert_eq!(rt; size, Ok(None));
    given(ends.w.append(&a, b"ab"))?;
    let first = ends.w.front();
    given(ends.w.append(&a, b"cd"))?;
    let second = ends.w.front();
    ends.r.learn(second);
    ends.r.learn(first);
    let text = given(seen(&mut ends.r, alloc, &a))?;
    assert_eq!(rt; text.as_slice(), b"abcd".as_slice());
    let size = ends.w.size(&a);
    assert_eq!(rt; size, Ok(Some(4)));
    let mut files = at_rest(alloc, ends)?;
    let size = files.size(&a);
    assert_eq!(rt; size, Ok(Some(4)));
    Ok(())
}

#[test]
fn a_refused_call_changes_nothing(rt: HostRuntime) -> Result<(), Fail> {
    let alloc = rt.alloc();
    let a = store_path(alloc, b"a")?;
    let b = store_path(alloc, b"b")?;
    let mut files = MemFiles::new(alloc)?;
    given(files.put(&a, b"ab"))?;
    given(files.fail(1, 0))?;
    given(files.fail(2, 0))?;
    given(files.fail(3, 1))?;
    given(files.fail(4, 0))?;
    let mut ends = two_ends(&rt, files)?;
    let appended = ends.w.append(&a, b"cd");
    let name = renamed(&mut ends.w, &a, &b);
    let before = given(seen(&mut ends.r, alloc, &a))?;
    assert!(rt;
        appended == Err(FileFault::Failed)
            && name == Err(FileFault::Failed)
            && before.as_slice() == b"ab".as_slice()
    );
    let appended = ends.w.append(&a, b"cd");
    let after = given(seen(&mut ends.r, alloc, &a))?;
    assert!(rt; appended == Err(FileFault::Failed) && after.as_slice() == b"abc".as_slice());
    let created = ends.w.create_new(&b, b"x");
    let stands = ends.w.create_new(&a, b"x");
    let size = ends.r.size(&b);
    assert!(rt;
        created == Err(FileFault::Failed) && stands == Ok(Created::There) && size == Ok(None)
    );
    Ok(())
}

#[test]
fn each_call_does_what_it_says(rt: HostRuntime) -> Result<(), Fail> {
    let alloc = rt.alloc();
    let a = store_path(alloc, b"a")?;
    let b = store_path(alloc, b"b")?;
    let files = MemFiles::new(alloc)?;
    let mut ends = two_ends(&rt, files)?;
    let created = ends.w.create_new(&a, b"abcd");
    assert_eq!(rt; created, Ok(Created::Made));
    given(ends.w.cut(&a, 3))?;
    given(renamed(&mut ends.w, &a, &b))?;
    given(ends.w.put(&a, b"x"))?;
    given(ends.w.sync(&a))?;
    given(ends.w.settle())?;
    let first = given(seen(&mut ends.r, alloc, &a))?;
    let second = given(seen(&mut ends.r, alloc, &b))?;
    assert!(rt; first.as_slice() == b"x".as_slice() && second.as_slice() == b"abc".as_slice());
    given(ends.w.remove(&a))?;
    let size = ends.r.size(&a);
    assert_eq!(rt; size, Ok(None));
    Ok(())
}

#[test]
fn a_yard_keeps_its_files(rt: HostRuntime) -> Result<(), Fail> {
    let a = store_path(rt.alloc(), b"a")?;
    let mut files = MemFiles::new(rt.alloc())?;
    given(files.put(&a, b"ab"))?;
    let hub: Hub<Free, &HostRuntime> = Hub::new(&rt, files);
    let (files, rest) = hub.alone();
    let hub: Hub<Free, &HostRuntime> = Hub::again(files, rest);
    let (mut files, _) = hub.alone();
    let size = files.size(&a);
    assert_eq!(rt; size, Ok(Some(2)));
    Ok(())
}
