//! Files in memory that never fail.
ghost use Rattle.std.specs.Prelude.{◌≡◌, ℕ, List, [], None, Some, true, refl};
ghost use Rattle.hgs_files.specs.declared.op.Op.{Op};
ghost use Rattle.hgs_files.specs.Files.{CreatesNew, GoesOn, LeavesPieces, LeavesWhole};
ghost use Rattle.hgs_files.specs.Ties.{untied};
ghost use Rattle.hgs_files.specs.Reads.{AddsBytes, Counts, HasSize, LooksAt, ReadsFrom};
ghost use Rattle.hgs_mem.specs.Steady.{steady_log, steady_start, steady_tree};

use crate::contents::Map;
use crate::logged::LoggedFiles;
use crate::tally::Tally;
use hgs_files::files::{Created, FileFault, Files, Reads};
use hgs_files::path::StorePath;
use std::alloc::{AllocError, Global};

/// Files in memory none of whose calls fails; one may find no memory. They tell all that was done on them.
#[derive(Drop)]
pub struct SteadyFiles {
    kept: LoggedFiles,
    tally: Tally,
}

impl SteadyFiles {
    /// No files. Takes no memory.
    pub fn new(alloc: Global) -> SteadyFiles
        ensures log { steady_log result ≡ [] }
        ensures start { (path : List ℕ) → steady_start result path ≡ None }
    {
        SteadyFiles {
            kept: LoggedFiles::from_map(alloc, Map::new(alloc)),
            tally: Tally::new(),
        }
    }

    /// The files as they stand, as those that something begins with: nothing done yet. Takes no memory.
    pub fn restart(self) -> SteadyFiles
        ensures log { steady_log result ≡ [] }
        ensures start { steady_start result ≡ steady_tree self }
    {
        SteadyFiles {
            kept: self.kept.restart(),
            tally: self.tally,
        }
    }
}

impl Reads for SteadyFiles {
    ghost faults = { λ m. 0 };

    ghost denied = { λ m. m.tally.denied };

    ghost given = { λ m. m.tally.given };

    ghost seen = { λ m. Some (steady_log m) };

    ghost start = { λ m. steady_start m };

    ghost alone = { true };

    ghost shows = { λ start log. Unit {0} };

    ghost ties = { λ m. untied };

    fn read(
        &mut self,
        path: &StorePath,
        from: u64,
        most: u64,
        into: &mut Vec<u8>,
    ) -> Result<Option<u64>, FileFault>
        ensures answer { ReadsFrom (Some (steady_log self.new)) (steady_start self.new) path.now from most into.old.items into.new.items result }
        ensures bytes { AddsBytes self.old.tally.given self.new.tally.given most into.old.items into.new.items result }
        ensures seen { LooksAt (Some (steady_log self.old)) (Some (steady_log self.new)) result }
        ensures same_start { steady_start self.new ≡ steady_start self.old }
        ensures still { steady_log self.new ≡ steady_log self.old }
        ensures counts { Counts 0 0 self.old.tally.denied self.new.tally.denied result }
    {
        match self.kept.read_at(path, from, most, into) {
            Ok(Some(count)) => {
                self.tally.give(count);
                Ok(Some(count))
            }
            Ok(None) => Ok(None),
            Err(_) => Err(self.tally.denied()),
        }
    }

    fn size(&mut self, path: &StorePath) -> Result<Option<u64>, FileFault>
        ensures answer { HasSize (Some (steady_log self.new)) (steady_start self.new) path.now result }
        ensures given { self.new.tally.given ≡ self.old.tally.given }
        ensures seen { LooksAt (Some (steady_log self.old)) (Some (steady_log self.new)) result }
        ensures same_start { steady_start self.new ≡ steady_start self.old }
        ensures still { steady_log self.new ≡ steady_log self.old }
        ensures counts { Counts 0 0 self.old.tally.denied self.new.tally.denied result }
    {
        Ok(self.kept.size_of(path))
    }
}

impl Files for SteadyFiles {
    ghost log = { λ m. Some (steady_log m) };

    ghost allows = { λ start log. Unit {0} };

    ghost latest = { λ m. refl };

    ghost only_writer = { refl };

    fn append(&mut self, path: &StorePath, bytes: &[u8]) -> Result<(), FileFault>
        ensures done { GoesOn (Some (steady_log self.old)) (Some (steady_log self.new)) (LeavesPieces (Op.Append path.now bytes.now) result) }
        ensures same_start { steady_start self.new ≡ steady_start self.old }
        ensures given { self.new.tally.given ≡ self.old.tally.given }
        ensures counts { Counts 0 0 self.old.tally.denied self.new.tally.denied result }
    {
        match self.kept.append(path, bytes) {
            Ok(()) => Ok(()),
            Err(_) => Err(self.tally.denied()),
        }
    }

    fn put(&mut self, path: &StorePath, bytes: &[u8]) -> Result<(), FileFault>
        ensures done { GoesOn (Some (steady_log self.old)) (Some (steady_log self.new)) (LeavesPieces (Op.Create path.now bytes.now) result) }
        ensures same_start { steady_start self.new ≡ steady_start self.old }
        ensures given { self.new.tally.given ≡ self.old.tally.given }
        ensures counts { Counts 0 0 self.old.tally.denied self.new.tally.denied result }
    {
        match self.kept.create(path, bytes) {
            Ok(()) => Ok(()),
            Err(_) => Err(self.tally.denied()),
        }
    }

    fn create_new(&mut self, path: &StorePath, bytes: &[u8]) -> Result<Created, FileFault>
        ensures done { CreatesNew (Some (steady_log self.old)) (Some (steady_log self.new)) (steady_start self.old) path.now bytes.now result }
        ensures same_start { steady_start self.new ≡ steady_start self.old }
        ensures given { self.new.tally.given ≡ self.old.tally.given }
        ensures counts { Counts 0 0 self.old.tally.denied self.new.tally.denied result }
    {
        if self.kept.size_of(path).is_some() {
            return Ok(Created::There);
        }
        match self.kept.create(path, bytes) {
            Ok(()) => Ok(Created::Made),
            Err(_) => Err(self.tally.denied()),
        }
    }

    fn cut(&mut self, path: &StorePath, len: u64) -> Result<(), FileFault>
        ensures done { GoesOn (Some (steady_log self.old)) (Some (steady_log self.new)) (LeavesWhole (Op.Cut path.now len) result) }
        ensures same_start { steady_start self.new ≡ steady_start self.old }
        ensures given { self.new.tally.given ≡ self.old.tally.given }
        ensures counts { Counts 0 0 self.old.tally.denied self.new.tally.denied result }
    {
        match self.kept.cut(path, len) {
            Ok(()) => Ok(()),
            Err(_) => Err(self.tally.denied()),
        }
    }

    fn rename(&mut self, from: &StorePath, to: &StorePath) -> Result<(), FileFault>
        ensures done { GoesOn (Some (steady_log self.old)) (Some (steady_log self.new)) (LeavesWhole (Op.Rename from.now to.now) result) }
        ensures same_start { steady_start self.new ≡ steady_start self.old }
        ensures given { self.new.tally.given ≡ self.old.tally.given }
        ensures counts { Counts 0 0 self.old.tally.denied self.new.tally.denied result }
    {
        match self.kept.rename(from, to) {
            Ok(()) => Ok(()),
            Err(_) => Err(self.tally.denied()),
        }
    }

    fn remove(&mut self, path: &StorePath) -> Result<(), FileFault>
        ensures done { GoesOn (Some (steady_log self.old)) (Some (steady_log self.new)) (LeavesWhole (Op.Remove path.now) result) }
        ensures same_start { steady_start self.new ≡ steady_start self.old }
        ensures given { self.new.tally.given ≡ self.old.tally.given }
        ensures counts { Counts 0 0 self.old.tally.denied self.new.tally.denied result }
    {
        match self.kept.remove(path) {
            Ok(()) => Ok(()),
            Err(_) => Err(self.tally.denied()),
        }
    }

    fn sync(&mut self, path: &StorePath) -> Result<(), FileFault>
        ensures done { GoesOn (Some (steady_log self.old)) (Some (steady_log self.new)) (LeavesWhole (Op.Sync path.now) result) }
        ensures same_start { steady_start self.new ≡ steady_start self.old }
        ensures given { self.new.tally.given ≡ self.old.tally.given }
        ensures counts { Counts 0 0 self.old.tally.denied self.new.tally.denied result }
    {
        match self.kept.sync(path) {
            Ok(()) => Ok(()),
            Err(_) => Err(self.tally.denied()),
        }
    }

    fn settle(&mut self) -> Result<(), FileFault>
        ensures done { GoesOn (Some (steady_log self.old)) (Some (steady_log self.new)) (LeavesWhole Op.Settle result) }
        ensures same_start { steady_start self.new ≡ steady_start self.old }
        ensures given { self.new.tally.given ≡ self.old.tally.given }
        ensures counts { Counts 0 0 self.old.tally.denied self.new.tally.denied result }
    {
        match self.kept.settle() {
            Ok(()) => Ok(()),
            Err(_) => Err(self.tally.denied()),
        }
    }
}
