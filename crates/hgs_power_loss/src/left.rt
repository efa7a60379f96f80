//! What a loss of power leaves of a disk.
ghost use Rattle.std.specs.Prelude.{◌≡◌, [], ◌∷◌, ℕ, length, true, None, IfOk, OnOk};
ghost use Rattle.std.specs.List.{list_all};
ghost use Rattle.hgs_files.specs.declared.op.Op.{Op};
ghost use Rattle.hgs_files.specs.Reads.{greatest};
ghost use Rattle.hgs_files.specs.Tree.{after_all, apply};
ghost use Rattle.hgs_mem.specs.Mem.{tree_of};
ghost use Rattle.hgs_mem.specs.MemFiles.{log_of, piece_of, plan_of, start_of, tally_of, tree_now};
ghost use Rattle.hgs_mem.specs.Plan.{failure_at};
ghost use Rattle.hgs_power.specs.Disk.{PowerLeaves, at_rest, run};
ghost use Rattle.hgs_power.specs.Power.{powered};
ghost use Rattle.hgs_power_loss.specs.Kept.{is_change};
ghost use Rattle.hgs_power_loss.specs.Left.{tree_after, tree_after_all, with_left};

use crate::disk::Disk;
use crate::file::DiskFile;
use crate::names::NameChange;
use hgs_files::op::Op;
use hgs_files::path::StorePath;
use hgs_mem::contents::{Map, copy_of, do_one};
use hgs_mem::mem::MemFiles;
use std::alloc::{AllocError, Global};
use std::collections::BTreeMap;
use std::snapshot::Snapshot;

/// Files that are made what a loss of power leaves of them, with the operations that do it.
#[derive(Drop)]
struct Left {
    alloc: Global,
    files: Map,
    first: Snapshot<Map>,
    ops: Vec<Op>,
    ghost done: { tree_of files ≡ after_all ops.items (tree_of first.value) },
}

impl Left {
    /// These files as they stand.
    fn new(alloc: Global, files: &Map) -> Result<Left, AllocError>
        ensures first { IfOk result (λ left. tree_of left.first.value ≡ tree_of files.now) }
        ensures tree { IfOk result (λ left. tree_of left.files ≡ tree_of files.now) }
    {
        let files = copy_of(files)?;
        Ok(Left {
            alloc,
            first: Snapshot::of(&files),
            files,
            ops: Vec::new(alloc),
        })
    }

    /// Does an operation.
    fn apply(&mut self, op: Op) -> Result<(), AllocError>
        ensures tree { OnOk result (tree_of self.new.files ≡ apply op (tree_of self.old.files)) }
        ensures first { tree_of self.new.first.value ≡ tree_of self.old.first.value }
    {
        do_one(self.alloc, &mut self.files, &mut self.ops, op)
    }

    /// Puts a file with what is left of it.
    fn put(
        &mut self,
        path: &StorePath,
        file: &DiskFile,
        keep: u64,
        fill: u8,
    ) -> Result<(), AllocError>
        ensures tree { OnOk result (tree_of self.new.files ≡ with_left keep fill ((path.now, file.now) ∷ []) (tree_of self.old.files)) }
        ensures first { tree_of self.new.first.value ≡ tree_of self.old.first.value }
    {
        let path = path.copy(self.alloc)?;
        let bytes = file.filled(self.alloc, keep, fill)?;
        self.apply(Op::Create { path, bytes })
    }

    /// Puts files with what is left of them.
    fn put_all(
        &mut self,
        files: &BTreeMap<StorePath, DiskFile>,
        keep: u64,
        fill: u8,
    ) -> Result<(), AllocError>
        ensures tree { OnOk result (tree_of self.new.files ≡ with_left keep fill files.now.entries (tree_of self.old.files)) }
        ensures first { tree_of self.new.first.value ≡ tree_of self.old.first.value }
    {
        for (path, file) in files {
            self.put(path, file, keep, fill)?;
        }
        Ok(())
    }

    /// Makes a change of names.
    fn change(
        &mut self,
        change: &NameChange,
        made: &[DiskFile],
        keep: u64,
        fill: u8,
    ) -> Result<(), AllocError>
        requires { is_change (length made.now) change.now ≡ true }
        ensures tree { OnOk result (tree_of self.new.files ≡ tree_after keep fill made.now change.now (tree_of self.old.files)) }
        ensures first { tree_of self.new.first.value ≡ tree_of self.old.first.value }
    {
        match change {
            NameChange::Stands { path, number } => self.put(path, &made[*number], keep, fill),
            NameChange::Moves { from, to } => {
                let from = from.copy(self.alloc)?;
                let to = to.copy(self.alloc)?;
                self.apply(Op::Rename { from, to })
            }
            NameChange::Goes { path } => {
                let path = path.copy(self.alloc)?;
                self.apply(Op::Remove { path })
            }
        }
    }

    /// Makes changes of names.
    fn change_all(
        &mut self,
        changes: &[NameChange],
        made: &[DiskFile],
        keep: u64,
        fill: u8,
    ) -> Result<(), AllocError>
        requires { list_all (is_change (length made.now)) changes.now ≡ true }
        ensures tree { OnOk result (tree_of self.new.files ≡ tree_after_all keep fill made.now changes.now (tree_of self.old.files)) }
        ensures first { tree_of self.new.first.value ≡ tree_of self.old.first.value }
    {
        for change in changes {
            self.change(change, made, keep, fill)?;
        }
        Ok(())
    }

    /// Makes files of which nothing but this was done, at rest.
    fn rest(self, base: MemFiles) -> Result<MemFiles, AllocError>
        requires { tree_of self.first.value ≡ tree_now base }
        ensures tree { IfOk result (λ m. start_of m ≡ tree_of self.files) }
        ensures log { IfOk result (λ m. log_of m ≡ []) }
        ensures piece { IfOk result (λ m. piece_of m ≡ greatest) }
        ensures tally { IfOk result (λ m. tally_of m ≡ record { faults = 0; denied = 0; given = 0 }) }
        ensures calls { IfOk result (λ m. (plan_of m).calls ≡ 0) }
        ensures stop { IfOk result (λ m. (plan_of m).stop ≡ None) }
        ensures failures { IfOk result (λ m. (call : ℕ) → failure_at (plan_of m) call ≡ None) }
    {
        let mut base = base;
        match base.go_on(self.files, self.ops) {
            Ok(()) => Ok(base.restart()),
            Err(_) => Err(AllocError),
        }
    }
}

impl Disk {
    ghost use Rattle.hgs_power_loss.specs.InMemory.{disk_in};

    /// What a loss of power leaves of the files: the first so many pending changes of names, at most all, and each file up
    /// to its safe length, then the byte `fill`, up to at most `keep` more and to its greatest length. They are at rest,
    /// with nothing done yet, nothing counted and nothing to fail.
    pub fn power(self, names: u64, keep: u64, fill: u8) -> Result<MemFiles, AllocError>
        ensures tree { IfOk result (λ m. start_of m ≡ powered names keep fill (disk_in self)) }
        ensures log { IfOk result (λ m. log_of m ≡ []) }
        ensures piece { IfOk result (λ m. piece_of m ≡ greatest) }
        ensures tally { IfOk result (λ m. tally_of m ≡ record { faults = 0; denied = 0; given = 0 }) }
        ensures calls { IfOk result (λ m. (plan_of m).calls ≡ 0) }
        ensures stop { IfOk result (λ m. (plan_of m).stop ≡ None) }
        ensures failures { IfOk result (λ m. (call : ℕ) → failure_at (plan_of m) call ≡ None) }
    {
        let mut left = Left::new(self.alloc, self.base.files())?;
        left.put_all(&self.kept, keep, fill)?;
        let (settled, pending) = self.changes.as_slice().split_at(self.settled);
        let kept = &pending[..pending.len().min(names as usize)];
        left.change_all(settled, &self.made, keep, fill)?;
        left.change_all(kept, &self.made, keep, fill)?;
        left.rest(self.base)
    }
}

/// What a loss of power after a log leaves of files, which were at rest before it: as `Disk::power` says.
pub fn after_power_loss(
    files: MemFiles,
    log: &[Op],
    names: u64,
    keep: u64,
    fill: u8,
) -> Result<MemFiles, AllocError>
    ensures tree { IfOk result (λ m. start_of m ≡ powered names keep fill (run log.now (at_rest (tree_now files)))) }
    ensures may { IfOk result (λ m. PowerLeaves (tree_now files) log.now (start_of m)) }
    ensures log { IfOk result (λ m. log_of m ≡ []) }
    ensures piece { IfOk result (λ m. piece_of m ≡ greatest) }
    ensures tally { IfOk result (λ m. tally_of m ≡ record { faults = 0; denied = 0; given = 0 }) }
    ensures calls { IfOk result (λ m. (plan_of m).calls ≡ 0) }
    ensures stop { IfOk result (λ m. (plan_of m).stop ≡ None) }
    ensures failures { IfOk result (λ m. (call : ℕ) → failure_at (plan_of m) call ≡ None) }
{
    Disk::at_rest(files).run(log)?.power(names, keep, fill)
}
