//! One log, and what two losses of power leave after it.
use crate::left::after_power_loss;
use hgs_files::files::Reads;
use hgs_files::op::Op;
use hgs_files::path::StorePath;
use hgs_mem::mem::MemFiles;
use hgs_mem::ops;
use std::alloc::{AllocError, Global};
use std::test::Fail;

/// What a call gives. The test fails where it gives nothing.
fn given<T, E: Drop>(answer: Result<T, E>) -> Result<T, Fail> {
    match answer {
        Ok(value) => Ok(value),
        Err(_) => Err(Fail::new("a call failed")),
    }
}

#[derive(Drop)]
struct Paths {
    a: StorePath,
    b: StorePath,
    c: StorePath,
}

fn three_paths(alloc: Global) -> Result<Paths, Fail> {
    let a = given(StorePath::new(alloc, b"a"))?;
    let b = given(StorePath::new(alloc, b"b"))?;
    let c = given(StorePath::new(alloc, b"c"))?;
    Ok(Paths { a, b, c })
}

/// `a` is made, synced and cut, and goes on; `b` is made, synced and gets the name `c`.
fn log(alloc: Global, paths: &Paths) -> Result<Vec<Op>, AllocError> {
    let mut log = Vec::new(alloc);
    log.push(ops::create(alloc, &paths.a, b"abcd")?)?;
    log.push(ops::sync(alloc, &paths.a)?)?;
    log.push(ops::cut(alloc, &paths.a, 2)?)?;
    log.push(ops::append(alloc, &paths.a, b"xyz")?)?;
    log.push(ops::create(alloc, &paths.b, b"new")?)?;
    log.push(ops::sync(alloc, &paths.b)?)?;
    log.push(ops::rename(alloc, &paths.b, &paths.c)?)?;
    Ok(log)
}

/// The bytes of a file that stands, behind its name.
fn show(files: &mut MemFiles, path: &StorePath, into: &mut Vec<u8>) -> Result<(), Fail> {
    if given(files.size(path))?.is_none() {
        return Ok(());
    }
    given(into.extend_from_slice(path.bytes()))?;
    given(into.push(b'='))?;
    given(files.read(path, 0, 9, into))?;
    given(into.push(b' '))
}

/// What a loss of power leaves that keeps so many names, and of each file so many bytes more.
fn left(alloc: Global, names: u64, keep: u64) -> Result<Vec<u8>, Fail> {
    let paths = three_paths(alloc)?;
    let log = given(log(alloc, &paths))?;
    let files = given(MemFiles::new(alloc))?;
    let mut files = given(after_power_loss(files, &log, names, keep, b'?'))?;
    let mut text = Vec::new(alloc);
    show(&mut files, &paths.a, &mut text)?;
    show(&mut files, &paths.b, &mut text)?;
    show(&mut files, &paths.c, &mut text)?;
    Ok(text)
}

#[test]
fn names_and_bytes_are_left_as_told(rt: HostRuntime) -> Result<(), Fail> {
    let two_names = left(rt.alloc(), 2, 9)?;
    assert!(rt; two_names.as_slice() == b"a=ab??? b=new ".as_slice());
    let all_names = left(rt.alloc(), 9, 1)?;
    assert!(rt; all_names.as_slice() == b"a=ab? c=new ".as_slice());
    Ok(())
}
