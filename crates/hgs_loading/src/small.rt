//! The small files of a repository, each read whole in one read: their bytes as they stand, and what these say.
ghost use Rattle.std.specs.Prelude.{◌≡◌, false, true};
ghost use Rattle.hgs_bytes.specs.Answer.{Gives};
ghost use Rattle.hgs_files.specs.Reads.{Grows};
ghost use Rattle.hgs_marks.specs.Held.{view_dirstate};
ghost use Rattle.hgs_path.specs.Fncache.{listing};
ghost use Rattle.hgs_load.specs.Answer.{is_of_outside, is_fault, IsRefusal, HasFaultCause, NeverFaults};
ghost use Rattle.hgs_load.specs.Marks.{bookmarks_path, dirstate_path, roots_path, roots_answer};
ghost use Rattle.hgs_loading.specs.Found.{Finds};
ghost use Rattle.hgs_loading.specs.Small.{fncache_path, marks_said, dirstate_said, fncache_refusal, fncache_said, bookmarks_in, dirstate_in, roots_in, fncache_in, small_in, view_bookmarks, view_of_dirstate, view_roots, view_fncache, view_small};

use crate::whole::read_whole;
use hgs_bytes::bytes::Bytes;
use hgs_files::files::Reads;
use hgs_files::path::{StorePath, path_of};
use hgs_load::answer::ReadAnswer;
use hgs_load::ask::bytes_of;
use hgs_load::marks::{of_marks, phase_roots_of};
use hgs_load::refusal::damage;
use hgs_marks::bookmarks::Bookmarks;
use hgs_marks::dirstate::Dirstate;
use hgs_path::fncache::{Fncache, FncacheFault};
use hgs_phases::roots::Roots;
use hgs_plan::damage::Part;
use std::alloc::Global;

/// The numbers of bytes above which a file is refused.
const MOST_BOOKMARKS: u64 = 16_777_216;

const MOST_DIRSTATE: u64 = 33_554_432;

const MOST_ROOTS: u64 = 67_108_864;

const MOST_FNCACHE: u64 = 268_435_456;

/// The bytes of `bookmarks`, none where it isn't there, and the bookmarks.
#[derive(Drop)]
pub struct BookmarksFile {
    pub bytes: Option<Bytes>,
    pub bookmarks: Bookmarks,
}

/// The bytes of `dirstate`, none where it isn't there, and the working parents and tracked paths.
#[derive(Drop)]
pub struct DirstateFile {
    pub bytes: Option<Bytes>,
    pub dirstate: Dirstate,
}

/// The bytes of `store/phaseroots`, none where it isn't there, and the phase roots.
#[derive(Drop)]
pub struct RootsFile {
    pub bytes: Option<Bytes>,
    pub roots: Roots,
}

/// The bytes of `store/fncache`, none where it isn't there, and the files that it lists.
#[derive(Drop)]
pub struct FncacheFile {
    pub bytes: Option<Bytes>,
    pub fncache: Fncache,
}

/// The small files of a repository.
#[derive(Drop)]
pub struct SmallFiles {
    pub bookmarks: BookmarksFile,
    pub dirstate: DirstateFile,
    pub roots: RootsFile,
    pub fncache: FncacheFile,
}

// The bookmarks in the file with this path.
fn bookmarks_of(
    alloc: Global,
    path: &StorePath,
    bytes: &Option<Bytes>,
) -> Result<Bookmarks, ReadAnswer>
    requires { path.now ≡ bookmarks_path }
    ensures said { Gives is_of_outside (λ marks. marks) result (marks_said bytes.now) }
    ensures inner { NeverFaults result }
{
    match Bookmarks::read(alloc, bytes_of(bytes)) {
        Ok(bookmarks) => Ok(bookmarks),
        Err(fault) => Err(of_marks(alloc, path, Part::Bookmarks, fault)),
    }
}

// The working parents and the tracked paths in the file with this path.
fn dirstate_of(
    alloc: Global,
    path: &StorePath,
    bytes: &Option<Bytes>,
) -> Result<Dirstate, ReadAnswer>
    requires { path.now ≡ dirstate_path }
    ensures said { Gives is_of_outside view_dirstate result (dirstate_said bytes.now) }
    ensures inner { NeverFaults result }
{
    match Dirstate::read(alloc, bytes_of(bytes)) {
        Ok(dirstate) => Ok(dirstate),
        Err(fault) => Err(of_marks(alloc, path, Part::Dirstate, fault)),
    }
}

// The phase roots in the file with this path.
fn roots_of(alloc: Global, path: &StorePath, bytes: &Option<Bytes>) -> Result<Roots, ReadAnswer>
    requires { path.now ≡ roots_path }
    ensures said { Gives is_of_outside (λ roots. roots) result (roots_answer bytes.now) }
    ensures inner { NeverFaults result }
{
    phase_roots_of(alloc, path, Some(bytes_of(bytes)))
}

// What a fault of the list is.
fn of_fncache(alloc: Global, path: &StorePath, fault: FncacheFault) -> ReadAnswer
    requires { path.now ≡ fncache_path }
    ensures refusal { IsRefusal result (fncache_refusal fault) }
    ensures inner { is_fault result ≡ false }
{
    match fault {
        FncacheFault::Line(line) => damage(alloc, path, Part::Fncache, 1, line),
        FncacheFault::Memory => ReadAnswer::Memory,
    }
}

// The files that the list with this path names.
fn fncache_of(alloc: Global, path: &StorePath, bytes: &Option<Bytes>) -> Result<Fncache, ReadAnswer>
    requires { path.now ≡ fncache_path }
    ensures said { Gives is_of_outside listing result (fncache_said bytes.now) }
    ensures inner { NeverFaults result }
{
    match Fncache::read(alloc, bytes_of(bytes)) {
        Ok(fncache) => Ok(fncache),
        Err(fault) => Err(of_fncache(alloc, path, fault)),
    }
}

fn read_bookmarks<R: Reads>(alloc: Global, files: &mut R) -> Result<BookmarksFile, ReadAnswer>
    ensures found { Finds view_bookmarks R.alone (R.seen files.new) (R.start files.new) bookmarks_in result }
    ensures seen { Grows (R.seen files.old) (R.seen files.new) }
    ensures same_start { R.start files.new ≡ R.start files.old }
    ensures still { R.alone ≡ true → R.seen files.new ≡ R.seen files.old }
    ensures cause { HasFaultCause (R.faults files.old) (R.faults files.new) (R.denied files.old) (R.denied files.new) result }
{
    let path = path_of(alloc, b"bookmarks")?;
    let bytes = read_whole(alloc, files, &path, MOST_BOOKMARKS)?;
    match bookmarks_of(alloc, &path, &bytes) {
        Ok(bookmarks) => Ok(BookmarksFile { bytes, bookmarks }),
        Err(refusal) => Err(refusal),
    }
}

fn read_dirstate<R: Reads>(alloc: Global, files: &mut R) -> Result<DirstateFile, ReadAnswer>
    ensures found { Finds view_of_dirstate R.alone (R.seen files.new) (R.start files.new) dirstate_in result }
    ensures seen { Grows (R.seen files.old) (R.seen files.new) }
    ensures same_start { R.start files.new ≡ R.start files.old }
    ensures still { R.alone ≡ true → R.seen files.new ≡ R.seen files.old }
    ensures cause { HasFaultCause (R.faults files.old) (R.faults files.new) (R.denied files.old) (R.denied files.new) result }
{
    let path = path_of(alloc, b"dirstate")?;
    let bytes = read_whole(alloc, files, &path, MOST_DIRSTATE)?;
    match dirstate_of(alloc, &path, &bytes) {
        Ok(dirstate) => Ok(DirstateFile { bytes, dirstate }),
        Err(refusal) => Err(refusal),
    }
}

fn read_roots<R: Reads>(alloc: Global, files: &mut R) -> Result<RootsFile, ReadAnswer>
    ensures found { Finds view_roots R.alone (R.seen files.new) (R.start files.new) roots_in result }
    ensures seen { Grows (R.seen files.old) (R.seen files.new) }
    ensures same_start { R.start files.new ≡ R.start files.old }
    ensures still { R.alone ≡ true → R.seen files.new ≡ R.seen files.old }
    ensures cause { HasFaultCause (R.faults files.old) (R.faults files.new) (R.denied files.old) (R.denied files.new) result }
{
    let path = path_of(alloc, b"store/phaseroots")?;
    let bytes = read_whole(alloc, files, &path, MOST_ROOTS)?;
    match roots_of(alloc, &path, &bytes) {
        Ok(roots) => Ok(RootsFile { bytes, roots }),
        Err(refusal) => Err(refusal),
    }
}

fn read_fncache<R: Reads>(alloc: Global, files: &mut R) -> Result<FncacheFile, ReadAnswer>
    ensures found { Finds view_fncache R.alone (R.seen files.new) (R.start files.new) fncache_in result }
    ensures seen { Grows (R.seen files.old) (R.seen files.new) }
    ensures same_start { R.start files.new ≡ R.start files.old }
    ensures still { R.alone ≡ true → R.seen files.new ≡ R.seen files.old }
    ensures cause { HasFaultCause (R.faults files.old) (R.faults files.new) (R.denied files.old) (R.denied files.new) result }
{
    let path = path_of(alloc, b"store/fncache")?;
    let bytes = read_whole(alloc, files, &path, MOST_FNCACHE)?;
    match fncache_of(alloc, &path, &bytes) {
        Ok(fncache) => Ok(FncacheFile { bytes, fncache }),
        Err(refusal) => Err(refusal),
    }
}

/// Reads the small files, in the order of their fields, each whole in one read. How many bookmarks there may be is not
/// tested.
pub fn read_small<R: Reads>(alloc: Global, files: &mut R) -> Result<SmallFiles, ReadAnswer>
    ensures found { Finds view_small R.alone (R.seen files.new) (R.start files.new) small_in result }
    ensures seen { Grows (R.seen files.old) (R.seen files.new) }
    ensures same_start { R.start files.new ≡ R.start files.old }
    ensures still { R.alone ≡ true → R.seen files.new ≡ R.seen files.old }
    ensures cause { HasFaultCause (R.faults files.old) (R.faults files.new) (R.denied files.old) (R.denied files.new) result }
{
    let bookmarks = read_bookmarks(alloc, files)?;
    let dirstate = read_dirstate(alloc, files)?;
    let roots = read_roots(alloc, files)?;
    let fncache = read_fncache(alloc, files)?;
    Ok(SmallFiles {
        bookmarks,
        dirstate,
        roots,
        fncache,
    })
}
