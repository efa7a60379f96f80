//! A disk whose power may fail, after operations on files that were at rest.
ghost use Rattle.std.specs.Prelude.{◌≡◌, ℕ, if◌then◌else◌, unwrap_or, ◌+◌, ◌<◌, length, true, is_some, None, Some, List, IfOk, IfSome, OnOk};
ghost use Rattle.std.proofs.Props.{props};
ghost use Rattle.std.specs.BTreeMap.{IsOrdered};
ghost use Rattle.std.specs.Cmp.Lexicographic.{slice_cmp};
ghost use Rattle.std.specs.Option.{option_map};
ghost use Rattle.std.specs.Ordering.{nat_cmp};
ghost use Rattle.hgs_files.specs.declared.op.Op.{Op};
ghost use Rattle.hgs_files.specs.Tree.{bytes_at, same_path};
ghost use Rattle.hgs_mem.specs.Mem.{tree_of};
ghost use Rattle.hgs_mem.specs.MemFiles.{tree_now};
ghost use Rattle.hgs_power.specs.Disk.{Disk, at_rest, change_file, changed, firm, made, made_as, stood, remove_file, rename_file, run, step, write_file};
ghost use Rattle.hgs_power_loss.specs.Kept.{Fits, file_after, is_mark, mark_of, stood_file};

use crate::file::DiskFile;
use crate::names::{Mark, NameChange, set_name};
use hgs_bytes::bytes::Bytes;
use hgs_files::op::Op;
use hgs_files::path::StorePath;
use hgs_mem::contents::{Map, read_at, size_of};
use hgs_mem::mem::MemFiles;
use std::alloc::{AllocError, Global};
use std::collections::BTreeMap;

/// Which names and bytes are safe on a disk, after operations on files that were at rest.
#[derive(Drop)]
pub struct Disk {
    pub(crate) alloc: Global,
    /// The files at rest.
    pub(crate) base: MemFiles,
    /// What stands at each path whose name was changed.
    pub(crate) table: BTreeMap<StorePath, Option<Mark>>,
    /// All changes of names.
    pub(crate) changes: Vec<NameChange>,
    /// How many of the first changes are settled.
    pub(crate) settled: usize,
    /// Those files that stood at the start and were changed, by their paths then.
    pub(crate) kept: BTreeMap<StorePath, DiskFile>,
    /// The files that were made.
    pub(crate) made: Vec<DiskFile>,
    ghost fits: { Fits (tree_now base) table changes.items settled kept (length made.items) } by { Prim.hlevel props },
}

/// The bytes of a file, none where it is absent.
fn load(alloc: Global, files: &Map, path: &StorePath) -> Result<Bytes, AllocError>
    ensures { IfOk result (λ bytes. bytes ≡ bytes_at (tree_of files.now) path.now) }
{
    let mut bytes = Vec::new(alloc);
    if let Some(size) = size_of(files, path) {
        read_at(files, path, 0, size, &mut bytes)?;
    }
    Ok(Bytes::from_vec(bytes))
}

/// Takes out what is kept of a file that stood at the start, or what it was then.
fn take_kept(
    alloc: Global,
    files: &Map,
    kept: &mut BTreeMap<StorePath, DiskFile>,
    path: &StorePath,
) -> Result<DiskFile, AllocError>
    ensures file { IfOk result (λ f. f ≡ unwrap_or (stood_file kept.old path.now) (firm (bytes_at (tree_of files.now) path.now))) }
    ensures others { (other : List ℕ) → stood_file kept.new other ≡ (if same_path path.now other then None else stood_file kept.old other) }
{
    match kept.remove(path) {
        Some(file) => Ok(file),
        None => Ok(DiskFile::firm(load(alloc, files, path)?)),
    }
}

/// Does an operation on a file that stood at the start.
fn change_kept(
    alloc: Global,
    files: &Map,
    kept: &mut BTreeMap<StorePath, DiskFile>,
    path: &StorePath,
    op: &Op,
) -> Result<(), AllocError>
    ensures at { OnOk result ((other : List ℕ) → stood_file kept.new other ≡ (if same_path path.now other then Some (file_after op.now (unwrap_or (stood_file kept.old path.now) (firm (bytes_at (tree_of files.now) path.now)))) else stood_file kept.old other)) }
    ensures ordered { OnOk result (IsOrdered (slice_cmp nat_cmp) kept.new) }
{
    let mut file = take_kept(alloc, files, kept, path)?;
    file.apply(alloc, op)?;
    kept.insert(path.copy(alloc)?, file)?;
    Ok(())
}

impl Disk {
    ghost use Rattle.hgs_power_loss.specs.InMemory.{disk_in};

    /// Files at rest, as they stand. Takes no memory.
    pub fn at_rest(files: MemFiles) -> Disk
        ensures { disk_in result ≡ at_rest (tree_now files) }
    {
        let alloc = files.alloc();
        Disk {
            alloc,
            base: files,
            table: BTreeMap::new(alloc),
            changes: Vec::new(alloc),
            settled: 0,
            kept: BTreeMap::new(alloc),
            made: Vec::new(alloc),
        }
    }

    /// The mark of the file at a path.
    fn mark_at(&self, path: &StorePath) -> Result<Option<Mark>, AllocError>
        ensures mark { IfOk result (λ mark. option_map mark_of mark ≡ (disk_in self.now).now path.now) }
        ensures known { IfOk result (λ mark. IfSome mark (λ m. is_mark (tree_now self.now.base) (length self.now.made.items) m ≡ true)) }
    {
        match self.table.get(path) {
            Some(Some(mark)) => Ok(Some(mark.copy(self.alloc)?)),
            Some(None) => Ok(None),
            None => match size_of(self.base.files(), path) {
                Some(_) => Ok(Some(Mark::Stood(path.copy(self.alloc)?))),
                None => Ok(None),
            },
        }
    }

    /// Does an operation on a file that stood at the start.
    fn change_stood(self, path: &StorePath, op: &Op) -> Result<Disk, AllocError>
        requires { is_some (tree_now self.base path.now) ≡ true }
        ensures { IfOk result (λ d. disk_in d ≡ changed (file_after op.now) (stood path.now) (disk_in self)) }
    {
        let mut kept = self.kept;
        change_kept(self.alloc, self.base.files(), &mut kept, path, op)?;
        Ok(Disk {
            alloc: self.alloc,
            base: self.base,
            table: self.table,
            changes: self.changes,
            settled: self.settled,
            kept,
            made: self.made,
        })
    }

    /// Does an operation on a file that was made.
    fn change_made(self, number: usize, op: &Op) -> Result<Disk, AllocError>
        requires { number < length self.made.items }
        ensures { IfOk result (λ d. disk_in d ≡ changed (file_after op.now) (made_as number) (disk_in self)) }
    {
        let alloc = self.alloc;
        let mut disk = self;
        disk.made[number].apply(alloc, op)?;
        Ok(disk)
    }

    /// Does an operation on the file with this mark.
    fn change(self, mark: &Mark, op: &Op) -> Result<Disk, AllocError>
        requires { is_mark (tree_now self.base) (length self.made.items) mark.now ≡ true }
        ensures { IfOk result (λ d. disk_in d ≡ changed (file_after op.now) (mark_of mark.now) (disk_in self)) }
    {
        match mark {
            Mark::Stood(path) => self.change_stood(path, op),
            Mark::Made(number) => self.change_made(*number, op),
        }
    }

    /// Makes a file of no bytes.
    fn make(self, path: &StorePath) -> Result<Disk, AllocError>
        ensures disk { IfOk result (λ d. disk_in d ≡ made path.now (disk_in self)) }
        ensures count { IfOk result (λ d. length d.made.items ≡ length self.made.items + 1) }
    {
        let alloc = self.alloc;
        let mut disk = self;
        let number = disk.made.len();
        let stands = NameChange::Stands {
            path: path.copy(alloc)?,
            number,
        };
        disk.changes.push(stands)?;
        disk.made.push(DiskFile::firm(Bytes::new(alloc)))?;
        let name = path.copy(alloc)?;
        set_name(&mut disk.table, name, Some(Mark::Made(number)))?;
        Ok(disk)
    }

    /// Does an operation on the file at a path, which is made where none stands.
    fn write_file(self, path: &StorePath, op: &Op) -> Result<Disk, AllocError>
        ensures { IfOk result (λ d. disk_in d ≡ write_file (file_after op.now) path.now ((disk_in self).now path.now) (disk_in self)) }
    {
        match self.mark_at(path)? {
            Some(mark) => self.change(&mark, op),
            None => {
                let number = self.made.len();
                let disk = self.make(path)?;
                disk.change_made(number, op)
            }
        }
    }

    /// Does an operation on the file at a path, where one stands.
    fn change_file(self, path: &StorePath, op: &Op) -> Result<Disk, AllocError>
        ensures { IfOk result (λ d. disk_in d ≡ change_file (file_after op.now) ((disk_in self).now path.now) (disk_in self)) }
    {
        match self.mark_at(path)? {
            Some(mark) => self.change(&mark, op),
            None => Ok(self),
        }
    }

    /// Gives the file at a path another name, where one stands.
    fn rename_file(self, from: &StorePath, to: &StorePath) -> Result<Disk, AllocError>
        ensures { IfOk result (λ d. disk_in d ≡ rename_file from.now to.now ((disk_in self).now from.now) (disk_in self)) }
    {
        let Some(mark) = self.mark_at(from)? else {
            return Ok(self);
        };
        let alloc = self.alloc;
        let mut disk = self;
        let moves = NameChange::Moves {
            from: from.copy(alloc)?,
            to: to.copy(alloc)?,
        };
        disk.changes.push(moves)?;
        set_name(&mut disk.table, from.copy(alloc)?, None)?;
        set_name(&mut disk.table, to.copy(alloc)?, Some(mark))?;
        Ok(disk)
    }

    /// Takes the name of the file at a path away, where one stands.
    fn remove_file(self, path: &StorePath) -> Result<Disk, AllocError>
        ensures { IfOk result (λ d. disk_in d ≡ remove_file path.now ((disk_in self).now path.now) (disk_in self)) }
    {
        if self.mark_at(path)?.is_none() {
            return Ok(self);
        }
        let alloc = self.alloc;
        let mut disk = self;
        let goes = NameChange::Goes {
            path: path.copy(alloc)?,
        };
        disk.changes.push(goes)?;
        set_name(&mut disk.table, path.copy(alloc)?, None)?;
        Ok(disk)
    }

    /// Makes the names last.
    fn settle(self) -> Disk
        ensures { disk_in result ≡ step Op.Settle (disk_in self) }
    {
        let mut disk = self;
        disk.settled = disk.changes.len();
        disk
    }

    /// The disk after an operation.
    pub fn step(self, op: &Op) -> Result<Disk, AllocError>
        ensures { IfOk result (λ d. disk_in d ≡ step op.now (disk_in self)) }
    {
        match op {
            Op::Append { path, bytes: _ } => self.write_file(path, op),
            Op::Create { path, bytes: _ } => self.write_file(path, op),
            Op::Cut { path, len: _ } => self.change_file(path, op),
            Op::Sync { path } => self.change_file(path, op),
            Op::Rename { from, to } => self.rename_file(from, to),
            Op::Remove { path } => self.remove_file(path),
            Op::Settle => Ok(self.settle()),
        }
    }

    /// The disk after a log.
    pub fn run(self, log: &[Op]) -> Result<Disk, AllocError>
        ensures { IfOk result (λ d. disk_in d ≡ run log.now (disk_in self)) }
    {
        let mut disk = self;
        for op in log {
            disk = disk.step(op)?;
        }
        Ok(disk)
    }
}
