//! The files of an operating system, with the counts of what failed.
ghost use Rattle.std.specs.Prelude.{◌≡◌, Ok, None, [], true, false, refl, IfOk, OnErr, IsErr};
ghost use Rattle.hgs_files.specs.Reads.{Counts, counted};
ghost use Rattle.hgs_files.specs.Ties.{untied};

use crate::folder::Folder;
use crate::watch::Watch;
use hgs_files::ends::{Follows, Leads, Told};
use hgs_files::files::{Created, FileFault, Files, Reads};
use hgs_files::path::StorePath;
use hgs_mem::tally::Tally;
use std::alloc::AllocError;
use std::io;

/// The files in one folder. They tell no content.
#[derive(Drop)]
pub struct OsFiles {
    folder: Folder,
    tally: Tally,
    watch: Option<Watch>,
}

impl OsFiles {
    /// The files in the folder of this name, which need not stand.
    pub fn new(rt: HostRuntime, folder: &str) -> Result<OsFiles, AllocError> {
        Ok(OsFiles {
            folder: Folder::new(rt, folder)?,
            tally: Tally::new(),
            watch: None,
        })
    }

    /// The same files, at which somebody looks on.
    pub fn watched(self, watch: Watch) -> OsFiles {
        OsFiles {
            watch: Some(watch),
            ..self
        }
    }

    /// A reading end over the same folder, with a handle of its own.
    pub fn reader(&self) -> Result<OsReader, AllocError>
        ensures { IfOk result (λ r. (r.files.tally.faults ≡ 0) × (r.files.tally.denied ≡ 0)) }
    {
        Ok(OsReader {
            files: OsFiles {
                folder: self.folder.again()?,
                tally: Tally::new(),
                watch: None,
            },
        })
    }

    /// Adds to the two counts, which stay at their greatest values.
    pub fn add_counts(&mut self, faults: u64, denied: u64)
        ensures faults { self.new.tally.faults ≡ counted self.old.tally.faults faults }
        ensures denied { self.new.tally.denied ≡ counted self.old.tally.denied denied }
    {
        self.tally.faults = self.tally.faults.saturating_add(faults);
        self.tally.denied = self.tally.denied.saturating_add(denied);
    }
}

// Counts what the system refused.
fn count<T>(tally: &mut Tally, answer: io::Result<T>) -> Result<T, FileFault>
    ensures counts { Counts tally.old.faults tally.new.faults tally.old.denied tally.new.denied result }
    ensures given { tally.new.given ≡ tally.old.given }
    ensures value { IfOk result (λ x. answer ≡ Ok x) }
    ensures err { OnErr result (IsErr answer) }
{
    match answer {
        Ok(value) => Ok(value),
        Err(error) if error.kind() == io::ErrorKind::OutOfMemory => Err(tally.denied()),
        Err(_) => Err(tally.failed()),
    }
}

impl Reads for OsFiles {
    ghost faults = { λ files. files.tally.faults };

    ghost denied = { λ files. files.tally.denied };

    ghost given = { λ files. files.tally.given };

    ghost seen = { λ _. None };

    ghost start = { λ _ _. None };

    ghost alone = { true };

    ghost shows = { λ start log. Unit {0} };

    ghost ties = { λ _. untied };

    fn read(
        &mut self,
        path: &StorePath,
        from: u64,
        most: u64,
        into: &mut Vec<u8>,
    ) -> Result<Option<u64>, FileFault> {
        if let Some(watch) = &mut self.watch {
            watch.reads(path.bytes(), from);
        }
        let answer = self.folder.read(path, from, most, into);
        if let Ok(Some(part)) = answer {
            self.tally.give(part);
        }
        count(&mut self.tally, answer)
    }

    fn size(&mut self, path: &StorePath) -> Result<Option<u64>, FileFault> {
        count(&mut self.tally, self.folder.size(path))
    }
}

impl Files for OsFiles {
    ghost log = { λ _. None };

    ghost allows = { λ start log. Unit {0} };

    ghost latest = { λ _. refl };

    ghost only_writer = { refl };

    fn append(&mut self, path: &StorePath, bytes: &[u8]) -> Result<(), FileFault> {
        if let Some(watch) = &mut self.watch {
            watch.appends(path.bytes());
        }
        count(&mut self.tally, self.folder.append(path, bytes))
    }

    fn put(&mut self, path: &StorePath, bytes: &[u8]) -> Result<(), FileFault> {
        count(&mut self.tally, self.folder.put(path, bytes))
    }

    fn create_new(&mut self, path: &StorePath, bytes: &[u8]) -> Result<Created, FileFault> {
        count(&mut self.tally, self.folder.create_new(path, bytes))
    }

    fn cut(&mut self, path: &StorePath, len: u64) -> Result<(), FileFault> {
        count(&mut self.tally, self.folder.cut(path, len))
    }

    fn rename(&mut self, from: &StorePath, to: &StorePath) -> Result<(), FileFault> {
        count(&mut self.tally, self.folder.rename(from, to))
    }

    fn remove(&mut self, path: &StorePath) -> Result<(), FileFault> {
        count(&mut self.tally, self.folder.remove(path))
    }

    fn sync(&mut self, path: &StorePath) -> Result<(), FileFault> {
        count(&mut self.tally, self.folder.sync(path))
    }

    fn settle(&mut self) -> Result<(), FileFault> {
        count(&mut self.tally, self.folder.settle())
    }
}

/// What a writing end over a disk hands over: nothing, since it tells nothing.
#[derive(Drop)]
pub struct OsFront;

impl Told for OsFront {
    ghost home = { λ _. [] };

    ghost log = { λ _. None };
}

impl Leads for OsFiles {
    type Front = OsFront;

    fn front(&mut self) -> OsFront {
        OsFront
    }
}

/// The files in one folder, as one who reads them while others may write.
#[derive(Drop)]
pub struct OsReader {
    files: OsFiles,
}

impl OsReader {
    /// How often it has failed.
    pub fn faults_so_far(&self) -> u64
        ensures { result ≡ self.now.files.tally.faults }
    {
        self.files.tally.faults
    }

    /// How often it found no memory.
    pub fn denied_so_far(&self) -> u64
        ensures { result ≡ self.now.files.tally.denied }
    {
        self.files.tally.denied
    }
}

impl Reads for OsReader {
    ghost faults = { λ r. r.files.tally.faults };

    ghost denied = { λ r. r.files.tally.denied };

    ghost given = { λ r. r.files.tally.given };

    ghost seen = { λ _. None };

    ghost start = { λ _ _. None };

    ghost alone = { false };

    ghost shows = { λ start log. Unit {0} };

    ghost ties = { λ _. untied };

    fn read(
        &mut self,
        path: &StorePath,
        from: u64,
        most: u64,
        into: &mut Vec<u8>,
    ) -> Result<Option<u64>, FileFault> {
        self.files.read(path, from, most, into)
    }

    fn size(&mut self, path: &StorePath) -> Result<Option<u64>, FileFault> {
        self.files.size(path)
    }
}

impl Follows for OsReader {
    type Front = OsFront;

    fn learn(&mut self, _front: OsFront) {}
}
