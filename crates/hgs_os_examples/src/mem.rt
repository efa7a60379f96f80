// What each call does, and where it is made to fail or to stop after none, one and all of its bytes.
ghost use Rattle.std.specs.Prelude.{◌≡◌, Ok, IfOk};
ghost use Rattle.hgs_files.specs.declared.op.Op.{Op};
ghost use Rattle.hgs_files.specs.Files.{MayDo};

use hgs_files::files::{Created, FileFault, Files, Reads};
use hgs_files::path::StorePath;
use hgs_files::streams::{IoFault, Sink, Source};
use hgs_mem::mem::MemFiles;
use hgs_mem::streams::{MemSink, MemSource};
use std::alloc::Global;
use std::test::Fail;

#[derive(Clone, Copy, Debug)]
enum Call {
    Append,
    AppendNew,
    Put,
    CreateNew,
    Cut,
    Rename,
    Remove,
    Sync,
    Settle,
    Read,
    Size,
}

#[derive(Drop)]
struct Paths {
    a: StorePath,
    b: StorePath,
    c: StorePath,
}

/// What a call gives. The test fails where it gives nothing: to take its fault along, by a `?` alone, takes long to prove.
fn given<T, E: Drop>(answer: Result<T, E>) -> Result<T, Fail>
    ensures { IfOk result (λ value. answer ≡ Ok value) }
{
    match answer {
        Ok(value) => Ok(value),
        Err(_) => Err(Fail::new("a call failed")),
    }
}

fn three_paths(alloc: Global) -> Result<Paths, Fail> {
    let a = given(StorePath::new(alloc, b"a"))?;
    let b = given(StorePath::new(alloc, b"b"))?;
    let c = given(StorePath::new(alloc, b"c"))?;
    Ok(Paths { a, b, c })
}

/// Files at rest, with `ab` at `a` and `xyz` at `b`.
fn two_files(alloc: Global, paths: &Paths) -> Result<MemFiles, Fail> {
    let mut files = given(MemFiles::new(alloc))?;
    given(files.put(&paths.a, b"ab"))?;
    given(files.put(&paths.b, b"xyz"))?;
    Ok(files.restart())
}

/// Looks at `a`, call 0, and then does a call, call 1.
fn look_and_do(
    files: &mut MemFiles,
    call: Call,
    paths: &Paths,
    alloc: Global,
) -> Result<(), FileFault> {
    if files.size(&paths.a)?.is_none() {
        return Ok(());
    }
    match call {
        Call::Append => files.append(&paths.a, b"cde"),
        Call::AppendNew => files.append(&paths.c, b"cde"),
        Call::Put => files.put(&paths.a, b"cde"),
        Call::CreateNew => match files.create_new(&paths.c, b"cde") {
            Ok(_) => Ok(()),
            Err(fault) => Err(fault),
        },
        Call::Cut => files.cut(&paths.b, 1),
        Call::Rename => files.rename(&paths.a, &paths.c),
        Call::Remove => files.remove(&paths.a),
        Call::Sync => files.sync(&paths.a),
        Call::Settle => files.settle(),
        Call::Read => {
            let mut into = Vec::new(alloc);
            match files.read(&paths.a, 0, 3, &mut into) {
                Ok(_) => Ok(()),
                Err(fault) => Err(fault),
            }
        }
        Call::Size => match files.size(&paths.b) {
            Ok(_) => Ok(()),
            Err(fault) => Err(fault),
        },
    }
}

/// Adds the name and the bytes of a file, if it stands.
fn add_shown<R: Reads>(files: &mut R, path: &StorePath, text: &mut Vec<u8>) -> Result<(), Fail> {
    if files.size(path)?.is_some() {
        given(text.extend_from_slice(path.bytes()))?;
        given(text.push(b'='))?;
        given(files.read(path, 0, 9, text))?;
        given(text.push(b' '))?;
    }
    Ok(())
}

/// The files as a text.
fn shown(files: &mut MemFiles, paths: &Paths, alloc: Global) -> Result<Vec<u8>, Fail> {
    let mut text = Vec::new(alloc);
    add_shown(files, &paths.a, &mut text)?;
    add_shown(files, &paths.b, &mut text)?;
    add_shown(files, &paths.c, &mut text)?;
    Ok(text)
}

/// A call, and the files after none, one and all of its bytes were done, and after all of it.
type Row = (Call, [&'static str; 4]);

const SAME: &str = "a=ab b=xyz ";

const ROWS: [Row; 11] = [
    (
        Call::Append,
        [SAME, "a=abc b=xyz ", "a=abcde b=xyz ", "a=abcde b=xyz "],
    ),
    (
        Call::AppendNew,
        [
            SAME,
            "a=ab b=xyz c=c ",
            "a=ab b=xyz c=cde ",
            "a=ab b=xyz c=cde ",
        ],
    ),
    (
        Call::Put,
        [SAME, "a=c b=xyz ", "a=cde b=xyz ", "a=cde b=xyz "],
    ),
    (Call::CreateNew, [SAME, SAME, SAME, "a=ab b=xyz c=cde "]),
    (Call::Cut, [SAME, SAME, SAME, "a=ab b=x "]),
    (Call::Rename, [SAME, SAME, SAME, "b=xyz c=ab "]),
    (Call::Remove, [SAME, SAME, SAME, "b=xyz "]),
    (Call::Sync, [SAME, SAME, SAME, SAME]),
    (Call::Settle, [SAME, SAME, SAME, SAME]),
    (Call::Read, [SAME, SAME, SAME, SAME]),
    (Call::Size, [SAME, SAME, SAME, SAME]),
];

/// How a call ends: whole, or after so many of its bytes with a fault, or with a stop.
#[derive(Clone, Copy, Debug)]
enum End {
    Whole,
    Fails(u64),
    Stops(u64),
}

/// Whether a call was done that ends so, and the files behind it.
fn outcome(alloc: Global, paths: &Paths, call: Call, end: End) -> Result<(bool, Vec<u8>), Fail> {
    let mut files = two_files(alloc, paths)?;
    match end {
        End::Whole => {}
        End::Fails(bytes) => files.fail(1, bytes)?,
        End::Stops(bytes) => files.stop(1, bytes),
    }
    let done = look_and_do(&mut files, call, paths, alloc).is_ok();
    let mut files = match end {
        End::Stops(_) => files.restart(),
        _ => files,
    };
    let text = shown(&mut files, paths, alloc)?;
    Ok((done, text))
}

const ENDS: [End; 7] = [
    End::Whole,
    End::Fails(0),
    End::Fails(1),
    End::Fails(3),
    End::Stops(0),
    End::Stops(1),
    End::Stops(3),
];

/// The files behind a call that ends so.
fn wanted(row: [&'static str; 4], end: End) -> &'static str {
    let [none, one, all, whole] = row;
    match end {
        End::Whole => whole,
        End::Fails(0) | End::Stops(0) => none,
        End::Fails(1) | End::Stops(1) => one,
        End::Fails(_) | End::Stops(_) => all,
    }
}

/// Whether a call that ends so was done just where it ends whole, with these files behind it.
fn is_so(alloc: Global, paths: &Paths, call: Call, end: End, files: &str) -> Result<bool, Fail> {
    let (done, text) = outcome(alloc, paths, call, end)?;
    Ok(done == matches!(end, End::Whole) && text.as_slice() == files.as_bytes())
}

#[test]
fn each_call_ends_as_it_is_told(rt: HostRuntime) -> Result<(), Fail> {
    let paths = three_paths(rt.alloc())?;
    for (call, row) in ROWS {
        for end in ENDS {
            let is_so = is_so(rt.alloc(), &paths, call, end, wanted(row, end))?;
            assert!(rt; is_so, "{call:?} {end:?}");
        }
    }
    Ok(())
}

/// Whether a removal, a new text and a look each fail.
fn each_fails(files: &mut MemFiles, paths: &Paths) -> bool {
    files.remove(&paths.b) == Err(FileFault::Failed)
        && files.put(&paths.a, b"later") == Err(FileFault::Failed)
        && files.size(&paths.a) == Err(FileFault::Failed)
}

/// Whether calls behind a stop fail, are not counted after a restart, and leave the files as they were.
fn is_nothing_done(alloc: Global) -> Result<bool, Fail> {
    let paths = three_paths(alloc)?;
    let mut files = two_files(alloc, &paths)?;
    files.stop(0, 0);
    let fails = each_fails(&mut files, &paths);
    let mut files = files.restart();
    let calls = files.calls();
    let text = shown(&mut files, &paths, alloc)?;
    Ok(fails && calls == 0 && text.as_slice() == SAME.as_bytes())
}

#[test]
fn nothing_is_done_behind_a_stop(rt: HostRuntime) -> Result<(), Fail> {
    let is_so = is_nothing_done(rt.alloc())?;
    assert!(rt; is_so);
    Ok(())
}

/// Makes a file, and tells whether it stood already.
fn make_new<F: Files>(files: &mut F, path: &StorePath) -> Result<Created, FileFault>
    requires { (op : Op) → MayDo (F.log files.old) (F.allows (F.start files.old)) op }
{
    files.create_new(path, b"first")
}

/// Appends in pieces, and makes a file twice: it fails where that does not say so.
fn append_and_make(files: &mut MemFiles, paths: &Paths) -> Result<(), FileFault> {
    files.append(&paths.b, b"abcde")?;
    files.append(&paths.b, b"")?;
    let first = make_new(files, &paths.a)?;
    let second = make_new(files, &paths.a)?;
    if first == Created::Made && second == Created::There {
        Ok(())
    } else {
        Err(FileFault::Failed)
    }
}

/// The files behind pieces that were joined and a file that was made.
fn joined_and_made(alloc: Global) -> Result<Vec<u8>, Fail> {
    let paths = three_paths(alloc)?;
    let mut files = given(MemFiles::new(alloc))?;
    files.pieces(2);
    given(append_and_make(&mut files, &paths))?;
    shown(&mut files, &paths, alloc)
}

#[test]
fn pieces_join_and_files_are_made_once(rt: HostRuntime) -> Result<(), Fail> {
    let text = joined_and_made(rt.alloc())?;
    assert!(rt; text.as_slice() == b"a=first b=abcde ".as_slice());
    Ok(())
}

fn take<S: Source>(source: &mut S, into: &mut Vec<u8>) -> Result<u64, IoFault> {
    source.read(2, into)
}

fn give<S: Sink>(sink: &mut S, bytes: &[u8]) -> Result<u64, IoFault> {
    sink.write(bytes)
}

/// What four reads of a source answer of which the second is to fail, and two writes of what they gave, the first of which is.
fn streamed(
    source: &mut MemSource,
    sink: &mut MemSink,
    alloc: Global,
) -> [Result<u64, IoFault>; 6] {
    source.fail(1);
    sink.fail(0);
    let mut into = Vec::new(alloc);
    let first = take(source, &mut into);
    let second = take(source, &mut into);
    let third = take(source, &mut into);
    let fourth = take(source, &mut into);
    let refused = give(sink, into.as_slice());
    let written = give(sink, into.as_slice());
    [first, second, third, fourth, refused, written]
}

const STREAMED: [Result<u64, IoFault>; 6] = [
    Ok(2),
    Err(IoFault::Failed),
    Ok(1),
    Ok(0),
    Err(IoFault::Failed),
    Ok(3),
];

#[test]
fn streams_fail_at_the_named_call(rt: HostRuntime) -> Result<(), Fail> {
    let mut source = given(MemSource::new(rt.alloc(), b"abc"))?;
    let mut sink = MemSink::new(rt.alloc());
    let answers = streamed(&mut source, &mut sink, rt.alloc());
    assert!(rt; answers == STREAMED && sink.bytes() == b"abc".as_slice());
    Ok(())
}
