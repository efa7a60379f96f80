//! Calls one after another against a real folder, in tables: what each says.
use crate::given::given;
use hgs_files::files::{Created, FileFault, Files, Reads};
use hgs_files::path::StorePath;
use hgs_files::streams::{Sink, Source};
use hgs_os::files::OsFiles;
use hgs_os::streams::{OsSink, OsSource};
use std::env;
use std::fs::{self, File, Permissions};
use std::os::unix::fs::{MetadataExt, PermissionsExt, symlink};
use std::test::Fail;

// A folder that stands for one test, under the system's folder for such.
fn new_folder(rt: &HostRuntime) -> Result<String, Fail> {
    let above = given(env::temp_dir(rt))?;
    for number in 0..100_000u32 {
        let name = format!(in rt.alloc(); "{}/hg_store-test-{number}", above.as_str())?;
        if fs::create_dir(rt, name.as_str()).is_ok() {
            return Ok(name);
        }
    }
    Ok(String::new(rt.alloc()))
}

fn path(rt: &HostRuntime, name: &str) -> Result<StorePath, Fail> {
    match StorePath::new(rt.alloc(), name.as_bytes()) {
        Ok(path) => Ok(path),
        Err(_) => Err(Fail::new(name)),
    }
}

/// A call on a file: with the bytes that are written, the length that is kept, the other name, or the place from which it is read.
#[derive(Clone, Copy)]
enum Call {
    Append(&'static [u8]),
    Put(&'static [u8]),
    CreateNew(&'static [u8]),
    Cut(u64),
    Rename(&'static str),
    Remove,
    Sync,
    Settle,
    Size,
    Read(u64),
}

/// The file of a call, the call, and what it says: `done`, `fault`, `made`, `there`, `absent`, a size, or the bytes that are read.
type Row = (&'static str, Call, &'static str);

fn done(answer: Result<(), FileFault>) -> &'static str {
    match answer {
        Ok(()) => "done",
        Err(_) => "fault",
    }
}

fn made(answer: Result<Created, FileFault>) -> &'static str {
    match answer {
        Ok(Created::Made) => "made",
        Ok(Created::There) => "there",
        Err(_) => "fault",
    }
}

fn size(rt: &HostRuntime, answer: Result<Option<u64>, FileFault>) -> Result<String, Fail> {
    Ok(match answer {
        Ok(Some(size)) => format!(in rt.alloc(); "{size}")?,
        Ok(None) => String::from_str(rt.alloc(), "absent")?,
        Err(_) => String::from_str(rt.alloc(), "fault")?,
    })
}

fn text(
    rt: &HostRuntime,
    files: &mut OsFiles,
    file: &StorePath,
    from: u64,
) -> Result<String, Fail> {
    let mut bytes = Vec::new(rt.alloc());
    Ok(match files.read(file, from, 100, &mut bytes) {
        Ok(Some(_)) => String::from_utf8(bytes).unwrap_or(String::new(rt.alloc())),
        Ok(None) => String::from_str(rt.alloc(), "absent")?,
        Err(_) => String::from_str(rt.alloc(), "fault")?,
    })
}

fn renamed(
    rt: &HostRuntime,
    files: &mut OsFiles,
    file: &StorePath,
    to: &str,
) -> Result<&'static str, Fail> {
    let to = path(rt, to)?;
    Ok(done(files.rename(file, &to)))
}

fn said(rt: &HostRuntime, files: &mut OsFiles, name: &str, call: Call) -> Result<String, Fail> {
    let file = path(rt, name)?;
    let word = match call {
        Call::Append(bytes) => done(files.append(&file, bytes)),
        Call::Put(bytes) => done(files.put(&file, bytes)),
        Call::CreateNew(bytes) => made(files.create_new(&file, bytes)),
        Call::Cut(len) => done(files.cut(&file, len)),
        Call::Rename(to) => renamed(rt, files, &file, to)?,
        Call::Remove => done(files.remove(&file)),
        Call::Sync => done(files.sync(&file)),
        Call::Settle => done(files.settle()),
        Call::Size => return size(rt, files.size(&file)),
        Call::Read(from) => return text(rt, files, &file, from),
    };
    Ok(String::from_str(rt.alloc(), word)?)
}

/// The first row that says something else, done one after another.
fn first_other(rt: &HostRuntime, files: &mut OsFiles, rows: &[Row]) -> Result<Option<Row>, Fail> {
    for (name, call, want) in rows {
        let found = said(rt, files, name, *call)?;
        if found.as_str() != *want {
            return Ok(Some((*name, *call, *want)));
        }
    }
    Ok(None)
}

const WRITTEN: [Row; 17] = [
    ("store/data/a.i", Call::Append(b"one"), "done"),
    ("store/data/a.i", Call::Append(b" two"), "done"),
    ("store/data/a.i", Call::Read(2), "e two"),
    ("store/data/a.i", Call::Size, "7"),
    ("store/data/a.i", Call::Cut(3), "done"),
    ("store/data/a.i", Call::Sync, "done"),
    ("b", Call::Put(b"new"), "done"),
    ("b", Call::Rename("store/data/a.i"), "done"),
    ("b", Call::Settle, "done"),
    ("store/data/a.i", Call::Read(0), "new"),
    ("b", Call::Read(0), "absent"),
    ("b", Call::CreateNew(b"lock"), "made"),
    ("b", Call::CreateNew(b"again"), "there"),
    ("b", Call::Read(0), "lock"),
    ("b", Call::Remove, "done"),
    ("b", Call::Remove, "done"),
    ("b", Call::Size, "absent"),
];

#[test]
fn files_are_written_and_read(rt: HostRuntime) -> Result<(), Fail> {
    let folder = new_folder(&rt)?;
    let mut files = given(OsFiles::new(rt, folder.as_str()))?;
    let other = first_other(&rt, &mut files, &WRITTEN)?;
    assert!(rt; other.is_none());
    given(fs::remove_dir_all(&rt, folder.as_str()))?;
    Ok(())
}

// The object's own folder, and two above it, are made for the first file.
const SETTLED: [Row; 5] = [
    ("store/a", Call::Remove, "done"),
    ("store/a", Call::Settle, "done"),
    ("store/a", Call::CreateNew(b"text"), "made"),
    ("store/a", Call::Settle, "done"),
    ("store/a", Call::Read(0), "text"),
];

#[test]
fn folders_that_were_made_settle(rt: HostRuntime) -> Result<(), Fail> {
    let above = new_folder(&rt)?;
    let folder = format!(in rt.alloc(); "{above}/one/two/own")?;
    let mut files = given(OsFiles::new(rt, folder.as_str()))?;
    let other = first_other(&rt, &mut files, &SETTLED)?;
    assert!(rt; other.is_none());
    given(fs::remove_dir_all(&rt, above.as_str()))?;
    Ok(())
}

// What another object made and did not make to last, and then what a new one settles: all of that, and then what it changed itself.
const LEFT: [Row; 2] = [
    ("store/data/sub/a.i", Call::Append(b"text"), "done"),
    ("b", Call::CreateNew(b"text"), "made"),
];

const TAKEN_UP: [Row; 6] = [
    ("b", Call::Settle, "done"),
    ("c", Call::CreateNew(b"text"), "made"),
    ("store/d", Call::CreateNew(b"text"), "made"),
    ("c", Call::Remove, "done"),
    ("store/d", Call::Append(b"text"), "done"),
    ("b", Call::Settle, "done"),
];

#[test]
fn a_new_object_settles_what_another_left(rt: HostRuntime) -> Result<(), Fail> {
    let above = new_folder(&rt)?;
    let folder = format!(in rt.alloc(); "{above}/.hg")?;
    let mut files = given(OsFiles::new(rt, folder.as_str()))?;
    let other = first_other(&rt, &mut files, &LEFT)?;
    assert!(rt; other.is_none());
    let mut files = given(OsFiles::new(rt, folder.as_str()))?;
    let other = first_other(&rt, &mut files, &TAKEN_UP)?;
    assert!(rt; other.is_none());
    given(fs::remove_dir_all(&rt, above.as_str()))?;
    Ok(())
}

// Each folder gets a note, and the first two another one. `tests/calls.py` refuses memory at each place of these in turn: what was
// changed all the same is settled.
const CHANGES: [(&str, Call); 7] = [
    ("one/a", Call::Append(b"text")),
    ("two/a", Call::Append(b"text")),
    ("one/b", Call::Append(b"text")),
    ("three/a", Call::Append(b"text")),
    ("two/b", Call::CreateNew(b"text")),
    ("two/b", Call::Rename("one/b")),
    ("three/a", Call::Remove),
];

#[test]
fn names_settle_though_memory_was_refused(rt: HostRuntime) -> Result<(), Fail> {
    let folder = new_folder(&rt)?;
    let mut files = given(OsFiles::new(rt, folder.as_str()))?;
    let ready = files.settle().is_ok();
    for (name, call) in CHANGES {
        said(&rt, &mut files, name, call)?;
    }
    let settled = files.settle().is_ok();
    let again = files.settle().is_ok();
    assert!(rt; ready && (settled || again));
    given(fs::remove_dir_all(&rt, folder.as_str()))?;
    Ok(())
}

const FOLDER_AS_FILE: [Row; 8] = [
    ("a/b", Call::Put(b"text"), "done"),
    ("a", Call::Size, "fault"),
    ("a", Call::Append(b"text"), "fault"),
    ("a", Call::Read(0), "fault"),
    ("a", Call::Sync, "fault"),
    ("c", Call::Sync, "fault"),
    ("a/b/c", Call::Read(0), "absent"),
    ("a/b", Call::Read(0), "text"),
];

#[test]
fn folders_in_place_of_files_are_faults(rt: HostRuntime) -> Result<(), Fail> {
    let folder = new_folder(&rt)?;
    let mut files = given(OsFiles::new(rt, folder.as_str()))?;
    let other = first_other(&rt, &mut files, &FOLDER_AS_FILE)?;
    assert!(rt; other.is_none());
    given(fs::remove_dir_all(&rt, folder.as_str()))?;
    Ok(())
}

// As Mercurial's locks are.
const LINKED: [Row; 9] = [
    ("wlock", Call::Size, "6"),
    ("wlock", Call::Sync, "fault"),
    ("wlock", Call::Read(1), "ox:77"),
    ("wlock", Call::CreateNew(b"mine"), "there"),
    ("wlock", Call::Append(b"text"), "fault"),
    ("wlock", Call::Put(b"text"), "fault"),
    ("wlock", Call::Read(0), "box:77"),
    ("wlock", Call::Remove, "done"),
    ("wlock", Call::Size, "absent"),
];

#[test]
fn links_that_lead_nowhere_stand(rt: HostRuntime) -> Result<(), Fail> {
    let folder = new_folder(&rt)?;
    let mut files = given(OsFiles::new(rt, folder.as_str()))?;
    let name = format!(in rt.alloc(); "{folder}/wlock")?;
    given(symlink(&rt, "box:77", name.as_str()))?;
    let other = first_other(&rt, &mut files, &LINKED)?;
    assert!(rt; other.is_none());
    given(fs::remove_dir_all(&rt, folder.as_str()))?;
    Ok(())
}

const NO_FILE: [Row; 7] = [
    ("a", Call::Size, "fault"),
    ("a", Call::Read(0), "fault"),
    ("a", Call::Append(b"text"), "fault"),
    ("a", Call::Put(b"text"), "fault"),
    ("a", Call::Cut(0), "fault"),
    ("a", Call::Sync, "fault"),
    ("a", Call::CreateNew(b"text"), "there"),
];

// A device, or the pipe that `tests/calls.py` makes and whose other end nobody opens. Neither is opened, nor taken for the folder.
#[test]
fn what_is_no_file_is_not_opened(rt: HostRuntime) -> Result<(), Fail> {
    let above = given(env::temp_dir(&rt))?;
    let pipe = format!(in rt.alloc(); "{}/hg_store-test-pipe", above.as_str())?;
    let is_there = given(fs::exists(&rt, pipe.as_str()))?;
    let other = if is_there { pipe.as_str() } else { "/dev/zero" };
    let folder = new_folder(&rt)?;
    let name = format!(in rt.alloc(); "{folder}/a")?;
    given(symlink(&rt, other, name.as_str()))?;
    let mut files = given(OsFiles::new(rt, folder.as_str()))?;
    let found = first_other(&rt, &mut files, &NO_FILE)?;
    assert!(rt; found.is_none());
    let mut files = given(OsFiles::new(rt, name.as_str()))?;
    let settled = files.settle().is_ok();
    assert!(rt; settled);
    given(fs::remove_dir_all(&rt, folder.as_str()))?;
    Ok(())
}

const MADE: [Row; 4] = [
    ("a", Call::Append(b"text"), "done"),
    ("b", Call::Put(b"text"), "done"),
    ("c", Call::CreateNew(b"text"), "made"),
    ("d/e/f", Call::Append(b"text"), "done"),
];

#[test]
fn new_files_have_the_mode_of_their_folder(rt: HostRuntime) -> Result<(), Fail> {
    let folder = new_folder(&rt)?;
    given(fs::set_permissions(&rt, folder.as_str(), Permissions::from_mode(0o2770)))?;
    let mut files = given(OsFiles::new(rt, folder.as_str()))?;
    let other = first_other(&rt, &mut files, &MADE)?;
    assert!(rt; other.is_none());
    for (name, _, _) in MADE {
        let name = format!(in rt.alloc(); "{folder}/{name}")?;
        let found = given(fs::metadata(&rt, name.as_str()))?;
        assert_eq!(rt; found.mode() & 0o777, 0o660);
    }
    for name in ["d", "d/e"] {
        let name = format!(in rt.alloc(); "{folder}/{name}")?;
        let found = given(fs::metadata(&rt, name.as_str()))?;
        assert_eq!(rt; found.mode() & 0o7777, 0o2770);
    }
    given(fs::remove_dir_all(&rt, folder.as_str()))?;
    Ok(())
}

const CHANGED: [Row; 6] = [
    ("a", Call::Append(b" more"), "done"),
    ("b", Call::Cut(1), "done"),
    ("c", Call::Put(b""), "done"),
    ("a", Call::Read(0), "text more"),
    ("b", Call::Read(0), "t"),
    ("c", Call::Read(0), ""),
];

#[test]
fn second_names_keep_their_bytes(rt: HostRuntime) -> Result<(), Fail> {
    let folder = new_folder(&rt)?;
    let mut files = given(OsFiles::new(rt, folder.as_str()))?;
    let other = first_other(&rt, &mut files, &MADE)?;
    assert!(rt; other.is_none());
    for (name, _, _) in MADE {
        let one = format!(in rt.alloc(); "{folder}/{name}")?;
        let two = format!(in rt.alloc(); "{folder}/{name}-2")?;
        given(fs::hard_link(&rt, one.as_str(), two.as_str()))?;
    }
    let other = first_other(&rt, &mut files, &CHANGED)?;
    assert!(rt; other.is_none());
    for (name, _, _) in MADE {
        let two = format!(in rt.alloc(); "{folder}/{name}-2")?;
        let left = format!(in rt.alloc(); "{folder}/{name}.hg_store-copy")?;
        let text = given(fs::read_to_string(&rt, two.as_str()))?;
        let is_left = given(fs::exists(&rt, left.as_str()))?;
        assert!(rt; text.as_str() == "text" && !is_left);
    }
    given(fs::remove_dir_all(&rt, folder.as_str()))?;
    Ok(())
}

const BESIDE: [Row; 2] = [
    ("a", Call::Put(b"text"), "done"),
    ("b", Call::Put(b"kept"), "done"),
];

const COPIED: [Row; 5] = [
    ("a", Call::Append(b" more"), "done"),
    ("a", Call::Sync, "done"),
    ("a", Call::Settle, "done"),
    ("a", Call::Read(0), "text more"),
    ("b", Call::Read(0), "kept"),
];

// A link stands where the copy of a file with two names is to stand: it is not followed.
#[test]
fn copies_are_made_over_nothing(rt: HostRuntime) -> Result<(), Fail> {
    let folder = new_folder(&rt)?;
    let mut files = given(OsFiles::new(rt, folder.as_str()))?;
    let other = first_other(&rt, &mut files, &BESIDE)?;
    assert!(rt; other.is_none());
    let one = format!(in rt.alloc(); "{folder}/a")?;
    let two = format!(in rt.alloc(); "{folder}/a-2")?;
    let copy = format!(in rt.alloc(); "{folder}/a.hg_store-copy")?;
    given(fs::hard_link(&rt, one.as_str(), two.as_str()))?;
    given(symlink(&rt, "b", copy.as_str()))?;
    let other = first_other(&rt, &mut files, &COPIED)?;
    assert!(rt; other.is_none());
    let text = given(fs::read_to_string(&rt, two.as_str()))?;
    let is_left = given(fs::exists(&rt, copy.as_str()))?;
    assert!(rt; text.as_str() == "text" && !is_left);
    given(fs::remove_dir_all(&rt, folder.as_str()))?;
    Ok(())
}

#[test]
fn streams_read_and_write(rt: HostRuntime) -> Result<(), Fail> {
    let folder = new_folder(&rt)?;
    let name = format!(in rt.alloc(); "{folder}/stream")?;
    let file = given(File::create(&rt, name.as_str()))?;
    let mut sink = OsSink::new(file);
    let written = sink.write(b"five.");
    assert_eq!(rt; written, Ok(5));
    let file = given(File::open(&rt, name.as_str()))?;
    let mut source = OsSource::new(file);
    let mut bytes = Vec::new(rt.alloc());
    for (most, wanted) in [(3, 3), (100, 2), (100, 0)] {
        let count = source.read(most, &mut bytes);
        assert_eq!(rt; count, Ok(wanted));
    }
    assert_eq!(rt; bytes.as_slice(), b"five.".as_slice());
    given(fs::remove_dir_all(&rt, folder.as_str()))?;
    Ok(())
}
