//! Files in memory.
ghost use Rattle.std.specs.Prelude.{◌≡◌, ◌==◌, ◌<◌, ℕ, List, [], ◌∷◌, ◌++◌, take, IfOk, IfErr, OnOk, OnErr, Some, None, true, refl, if◌then◌else◌};
ghost use Rattle.hgs_files.specs.declared.op.Op.{Op};
ghost use Rattle.hgs_files.specs.Tree.{after_all};
ghost use Rattle.hgs_files.specs.Log.{append_of_rest};
ghost use Rattle.hgs_files.specs.Ties.{untied};
ghost use Rattle.hgs_files.specs.Reads.{Counts, ReadsFrom, HasSize, LooksAt, AddsBytes, Rises, counted, greatest};
ghost use Rattle.hgs_files.specs.Files.{GoesOn, LeavesPieces, LeavesWhole, CreatesNew};
ghost use Rattle.hgs_mem.specs.Mem.{tree_of};
ghost use Rattle.hgs_mem.specs.Pieces.{AreSmall, create_of_front};
ghost use Rattle.hgs_mem.specs.Plan.{failure_at, next_fate, after_call, earlier};
ghost use Rattle.hgs_mem.specs.MemFiles.{log_of, start_of, tree_now, piece_of, plan_of, tally_of, map_of, KeepsFiles, KeepsAllBut, FailsBy, FailsAfter};

use crate::contents::Map;
use crate::logged::LoggedFiles;
use crate::plan::Plan;
use crate::tally::Tally;
use hgs_files::files::{Created, FileFault, Files, Reads};
use hgs_files::op::Op;
use hgs_files::path::StorePath;
use std::alloc::{AllocError, Global};

/// Files in memory, which tell all that was done on them, and can be told to fail or to stop at a call.
///
/// Each reading or writing call has a number, from 0. An append or a `put` that is to fail after some bytes does just
/// these, and then answers `Failed`; every other call does nothing then.
#[derive(Drop)]
pub struct MemFiles {
    kept: LoggedFiles,
    plan: Plan,
    tally: Tally,
}

impl MemFiles {
    /// No files.
    pub fn new(alloc: Global) -> Result<MemFiles, AllocError>
        ensures log { IfOk result (λ m. log_of m ≡ []) }
        ensures start { IfOk result (λ m. (path : List ℕ) → start_of m path ≡ None) }
        ensures piece { IfOk result (λ m. piece_of m ≡ greatest) }
        ensures tally { IfOk result (λ m. tally_of m ≡ record { faults = 0; denied = 0; given = 0 }) }
        ensures calls { IfOk result (λ m. (plan_of m).calls ≡ 0) }
        ensures stop { IfOk result (λ m. (plan_of m).stop ≡ None) }
        ensures failures { IfOk result (λ m. (call : ℕ) → failure_at (plan_of m) call ≡ None) }
    {
        Ok(MemFiles {
            kept: LoggedFiles::from_map(alloc, Map::new(alloc)),
            plan: Plan::new(alloc),
            tally: Tally::new(),
        })
    }

    /// Makes each append go in pieces of at most `n` bytes, each an entry of the log.
    pub fn pieces(&mut self, n: u64)
        requires { 0 < n }
        ensures piece { piece_of self.new ≡ n }
        ensures log { log_of self.new ≡ log_of self.old }
        ensures start { start_of self.new ≡ start_of self.old }
        ensures tally { tally_of self.new ≡ tally_of self.old }
        ensures plan { plan_of self.new ≡ plan_of self.old }
    {
        self.kept.set_piece(n as usize);
    }

    /// Makes the call with this number fail after so many bytes, in place of what was named for it. Several may be named.
    pub fn fail(&mut self, call: u64, bytes: u64) -> Result<(), AllocError>
        ensures ok { OnOk result ((k : ℕ) → failure_at (plan_of self.new) k ≡ (if call == k then Some bytes else failure_at (plan_of self.old) k)) }
        ensures err { OnErr result ((k : ℕ) → failure_at (plan_of self.new) k ≡ failure_at (plan_of self.old) k) }
        ensures calls { (plan_of self.new).calls ≡ (plan_of self.old).calls }
        ensures stop { (plan_of self.new).stop ≡ (plan_of self.old).stop }
        ensures files { KeepsFiles self.old self.new }
    {
        self.plan.fail(call, bytes)
    }

    /// Makes everything stop at the call with this number, after so many bytes: it and each later call answer `Failed`. Of
    /// two stops the earlier counts.
    pub fn stop(&mut self, call: u64, bytes: u64)
        ensures plan { plan_of self.new ≡ record (plan_of self.old) { stop = Some (earlier (plan_of self.old).stop (record { call = call; bytes = bytes })) } }
        ensures files { KeepsFiles self.old self.new }
    {
        self.plan.stop(call, bytes);
    }

    /// The number of the next call, at most the greatest `u64`.
    pub fn calls(&self) -> u64
        ensures { result ≡ (plan_of self.now).calls }
    {
        self.plan.calls
    }

    /// The fate of the next call, which is counted.
    pub fn next_fate(&mut self) -> Option<u64>
        ensures fate { result ≡ next_fate (plan_of self.old) }
        ensures plan { plan_of self.new ≡ after_call (plan_of self.old) }
        ensures files { KeepsAllBut self.old self.new }
        ensures tally { tally_of self.new ≡ tally_of self.old }
    {
        self.plan.next()
    }

    /// Counts a call that failed.
    pub fn failed(&mut self) -> FileFault
        ensures fault { result ≡ FileFault.Failed }
        ensures counts { Rises (tally_of self.old).faults (tally_of self.new).faults 1 }
        ensures denied { (tally_of self.new).denied ≡ (tally_of self.old).denied }
        ensures given { (tally_of self.new).given ≡ (tally_of self.old).given }
        ensures plan { plan_of self.new ≡ plan_of self.old }
        ensures files { KeepsAllBut self.old self.new }
    {
        self.tally.failed()
    }

    /// Counts a call that found no memory.
    pub fn denied(&mut self) -> FileFault
        ensures fault { result ≡ FileFault.Memory }
        ensures faults { (tally_of self.new).faults ≡ (tally_of self.old).faults }
        ensures counts { Rises (tally_of self.old).denied (tally_of self.new).denied 1 }
        ensures given { (tally_of self.new).given ≡ (tally_of self.old).given }
        ensures plan { plan_of self.new ≡ plan_of self.old }
        ensures files { KeepsAllBut self.old self.new }
    {
        self.tally.denied()
    }

    /// Counts bytes that a read gave.
    pub fn give(&mut self, bytes: u64)
        ensures faults { (tally_of self.new).faults ≡ (tally_of self.old).faults }
        ensures denied { (tally_of self.new).denied ≡ (tally_of self.old).denied }
        ensures given { Rises (tally_of self.old).given (tally_of self.new).given bytes }
        ensures plan { plan_of self.new ≡ plan_of self.old }
        ensures files { KeepsAllBut self.old self.new }
    {
        self.tally.give(bytes);
    }

    /// Adds to the two counts, which stay at their greatest values.
    pub fn add_counts(&mut self, faults: u64, denied: u64)
        ensures tally { tally_of self.new ≡ record { faults = counted (tally_of self.old).faults faults; denied = counted (tally_of self.old).denied denied; given = (tally_of self.old).given } }
        ensures plan { plan_of self.new ≡ plan_of self.old }
        ensures files { KeepsAllBut self.old self.new }
    {
        self.tally.faults = self.tally.faults.saturating_add(faults);
        self.tally.denied = self.tally.denied.saturating_add(denied);
    }

    pub fn alloc(&self) -> Global {
        self.kept.alloc
    }

    /// The files as they stand.
    pub fn files(&self) -> &Map
        ensures map { result.now ≡ map_of self.now }
        ensures tree { tree_of result.now ≡ tree_now self.now }
    {
        &self.kept.files
    }

    /// Goes on to what these files are after these operations, or does nothing and gives them back.
    pub fn go_on(&mut self, files: Map, ops: Vec<Op>) -> Result<(), Vec<Op>>
        requires { tree_of files ≡ after_all ops.items (tree_now self.old) }
        ensures ok { OnOk result (log_of self.new ≡ log_of self.old ++ ops.items) }
        ensures err { IfErr result (λ given. (given.items ≡ ops.items) × (log_of self.new ≡ log_of self.old)) }
        ensures start { start_of self.new ≡ start_of self.old }
        ensures piece { piece_of self.new ≡ piece_of self.old }
        ensures tally { tally_of self.new ≡ tally_of self.old }
        ensures plan { plan_of self.new ≡ plan_of self.old }
    {
        self.kept.go_on(files, ops)
    }

    /// The files as they stand, as those that a session begins with: nothing done yet, nothing counted, nothing to fail,
    /// and appends whole again. Takes no memory.
    pub fn restart(self) -> MemFiles
        ensures tree { start_of result ≡ tree_now self }
        ensures log { log_of result ≡ [] }
        ensures piece { piece_of result ≡ greatest }
        ensures tally { tally_of result ≡ record { faults = 0; denied = 0; given = 0 } }
        ensures calls { (plan_of result).calls ≡ 0 }
        ensures stop { (plan_of result).stop ≡ None }
        ensures failures { (call : ℕ) → failure_at (plan_of result) call ≡ None }
    {
        let kept = self.kept.restart();
        let plan = Plan::new(kept.alloc);
        MemFiles {
            kept,
            plan,
            tally: Tally::new(),
        }
    }
}

impl Reads for MemFiles {
    ghost faults = { λ m. (tally_of m).faults };

    ghost denied = { λ m. (tally_of m).denied };

    ghost given = { λ m. (tally_of m).given };

    ghost seen = { λ m. Some (log_of m) };

    ghost start = { λ m. start_of m };

    ghost alone = { true };

    ghost shows = { λ start log. Unit {0} };

    ghost ties = { λ m. untied };

    fn read(
        &mut self,
        path: &StorePath,
        from: u64,
        most: u64,
        into: &mut Vec<u8>,
    ) -> Result<Option<u64>, FileFault>
        ensures answer { ReadsFrom (Some (log_of self.new)) (start_of self.new) path.now from most into.old.items into.new.items result }
        ensures bytes { AddsBytes (tally_of self.old).given (tally_of self.new).given most into.old.items into.new.items result }
        ensures seen { LooksAt (Some (log_of self.old)) (Some (log_of self.new)) result }
        ensures same_start { start_of self.new ≡ start_of self.old }
        ensures still { log_of self.new ≡ log_of self.old }
        ensures counts { Counts (tally_of self.old).faults (tally_of self.new).faults (tally_of self.old).denied (tally_of self.new).denied result }
        ensures fate { FailsBy (next_fate (plan_of self.old)) result }
        ensures plan { plan_of self.new ≡ after_call (plan_of self.old) }
        ensures piece { piece_of self.new ≡ piece_of self.old }
    {
        match self.plan.next() {
            Some(_) => Err(self.tally.failed()),
            None => match self.kept.read_at(path, from, most, into) {
                Ok(Some(count)) => {
                    self.tally.give(count);
                    Ok(Some(count))
                }
                Ok(None) => Ok(None),
                Err(_) => Err(self.tally.denied()),
            },
        }
    }

    fn size(&mut self, path: &StorePath) -> Result<Option<u64>, FileFault>
        ensures answer { HasSize (Some (log_of self.new)) (start_of self.new) path.now result }
        ensures given { (tally_of self.new).given ≡ (tally_of self.old).given }
        ensures seen { LooksAt (Some (log_of self.old)) (Some (log_of self.new)) result }
        ensures same_start { start_of self.new ≡ start_of self.old }
        ensures still { log_of self.new ≡ log_of self.old }
        ensures counts { Counts (tally_of self.old).faults (tally_of self.new).faults (tally_of self.old).denied (tally_of self.new).denied result }
        ensures fate { FailsBy (next_fate (plan_of self.old)) result }
        ensures plan { plan_of self.new ≡ after_call (plan_of self.old) }
        ensures piece { piece_of self.new ≡ piece_of self.old }
    {
        match self.plan.next() {
            Some(_) => Err(self.tally.failed()),
            None => Ok(self.kept.size_of(path)),
        }
    }
}

impl Files for MemFiles {
    ghost log = { λ m. Some (log_of m) };

    ghost allows = { λ start log. Unit {0} };

    ghost latest = { λ m. refl };

    ghost only_writer = { refl };

    fn append(&mut self, path: &StorePath, bytes: &[u8]) -> Result<(), FileFault>
        ensures done { GoesOn (Some (log_of self.old)) (Some (log_of self.new)) (LeavesPieces (Op.Append path.now bytes.now) result) }
        ensures same_start { start_of self.new ≡ start_of self.old }
        ensures given { (tally_of self.new).given ≡ (tally_of self.old).given }
        ensures counts { Counts (tally_of self.old).faults (tally_of self.new).faults (tally_of self.old).denied (tally_of self.new).denied result }
        ensures fate { GoesOn (Some (log_of self.old)) (Some (log_of self.new)) (FailsAfter (next_fate (plan_of self.old)) (λ n. append_of_rest path.now (take n bytes.now)) result) }
        ensures small { GoesOn (Some (log_of self.old)) (Some (log_of self.new)) (AreSmall (piece_of self.old)) }
        ensures plan { plan_of self.new ≡ after_call (plan_of self.old) }
        ensures piece { piece_of self.new ≡ piece_of self.old }
    {
        match self.plan.next() {
            None => match self.kept.append(path, bytes) {
                Ok(()) => Ok(()),
                Err(_) => Err(self.tally.denied()),
            },
            Some(count) => match self.kept.append_front(path, bytes, count) {
                Ok(()) => Err(self.tally.failed()),
                Err(_) => Err(self.tally.denied()),
            },
        }
    }

    fn put(&mut self, path: &StorePath, bytes: &[u8]) -> Result<(), FileFault>
        ensures done { GoesOn (Some (log_of self.old)) (Some (log_of self.new)) (LeavesPieces (Op.Create path.now bytes.now) result) }
        ensures same_start { start_of self.new ≡ start_of self.old }
        ensures given { (tally_of self.new).given ≡ (tally_of self.old).given }
        ensures counts { Counts (tally_of self.old).faults (tally_of self.new).faults (tally_of self.old).denied (tally_of self.new).denied result }
        ensures fate { GoesOn (Some (log_of self.old)) (Some (log_of self.new)) (FailsAfter (next_fate (plan_of self.old)) (λ n. create_of_front path.now (take n bytes.now)) result) }
        ensures whole { OnOk result (log_of self.new ≡ log_of self.old ++ Op.Create path.now bytes.now ∷ []) }
        ensures plan { plan_of self.new ≡ after_call (plan_of self.old) }
        ensures piece { piece_of self.new ≡ piece_of self.old }
    {
        match self.plan.next() {
            None => match self.kept.create(path, bytes) {
                Ok(()) => Ok(()),
                Err(_) => Err(self.tally.denied()),
            },
            Some(count) => match self.kept.create_front(path, bytes, count) {
                Ok(()) => Err(self.tally.failed()),
                Err(_) => Err(self.tally.denied()),
            },
        }
    }

    fn create_new(&mut self, path: &StorePath, bytes: &[u8]) -> Result<Created, FileFault>
        ensures done { CreatesNew (Some (log_of self.old)) (Some (log_of self.new)) (start_of self.old) path.now bytes.now result }
        ensures same_start { start_of self.new ≡ start_of self.old }
        ensures given { (tally_of self.new).given ≡ (tally_of self.old).given }
        ensures counts { Counts (tally_of self.old).faults (tally_of self.new).faults (tally_of self.old).denied (tally_of self.new).denied result }
        ensures fate { FailsBy (next_fate (plan_of self.old)) result }
        ensures plan { plan_of self.new ≡ after_call (plan_of self.old) }
        ensures piece { piece_of self.new ≡ piece_of self.old }
    {
        match self.plan.next() {
            Some(_) => Err(self.tally.failed()),
            None => {
                if self.kept.size_of(path).is_some() {
                    return Ok(Created::There);
                }
                match self.kept.create(path, bytes) {
                    Ok(()) => Ok(Created::Made),
                    Err(_) => Err(self.tally.denied()),
                }
            }
        }
    }

    fn cut(&mut self, path: &StorePath, len: u64) -> Result<(), FileFault>
        ensures done { GoesOn (Some (log_of self.old)) (Some (log_of self.new)) (LeavesWhole (Op.Cut path.now len) result) }
        ensures same_start { start_of self.new ≡ start_of self.old }
        ensures given { (tally_of self.new).given ≡ (tally_of self.old).given }
        ensures counts { Counts (tally_of self.old).faults (tally_of self.new).faults (tally_of self.old).denied (tally_of self.new).denied result }
        ensures fate { FailsBy (next_fate (plan_of self.old)) result }
        ensures plan { plan_of self.new ≡ after_call (plan_of self.old) }
        ensures piece { piece_of self.new ≡ piece_of self.old }
    {
        match self.plan.next() {
            Some(_) => Err(self.tally.failed()),
            None => match self.kept.cut(path, len) {
                Ok(()) => Ok(()),
                Err(_) => Err(self.tally.denied()),
            },
        }
    }

    fn rename(&mut self, from: &StorePath, to: &StorePath) -> Result<(), FileFault>
        ensures done { GoesOn (Some (log_of self.old)) (Some (log_of self.new)) (LeavesWhole (Op.Rename from.now to.now) result) }
        ensures same_start { start_of self.new ≡ start_of self.old }
        ensures given { (tally_of self.new).given ≡ (tally_of self.old).given }
        ensures counts { Counts (tally_of self.old).faults (tally_of self.new).faults (tally_of self.old).denied (tally_of self.new).denied result }
        ensures fate { FailsBy (next_fate (plan_of self.old)) result }
        ensures plan { plan_of self.new ≡ after_call (plan_of self.old) }
        ensures piece { piece_of self.new ≡ piece_of self.old }
    {
        match self.plan.next() {
            Some(_) => Err(self.tally.failed()),
            None => match self.kept.rename(from, to) {
                Ok(()) => Ok(()),
                Err(_) => Err(self.tally.denied()),
            },
        }
    }

    fn remove(&mut self, path: &StorePath) -> Result<(), FileFault>
        ensures done { GoesOn (Some (log_of self.old)) (Some (log_of self.new)) (LeavesWhole (Op.Remove path.now) result) }
        ensures same_start { start_of self.new ≡ start_of self.old }
        ensures given { (tally_of self.new).given ≡ (tally_of self.old).given }
        ensures counts { Counts (tally_of self.old).faults (tally_of self.new).faults (tally_of self.old).denied (tally_of self.new).denied result }
        ensures fate { FailsBy (next_fate (plan_of self.old)) result }
        ensures plan { plan_of self.new ≡ after_call (plan_of self.old) }
        ensures piece { piece_of self.new ≡ piece_of self.old }
    {
        match self.plan.next() {
            Some(_) => Err(self.tally.failed()),
            None => match self.kept.remove(path) {
                Ok(()) => Ok(()),
                Err(_) => Err(self.tally.denied()),
            },
        }
    }

    fn sync(&mut self, path: &StorePath) -> Result<(), FileFault>
        ensures done { GoesOn (Some (log_of self.old)) (Some (log_of self.new)) (LeavesWhole (Op.Sync path.now) result) }
        ensures same_start { start_of self.new ≡ start_of self.old }
        ensures given { (tally_of self.new).given ≡ (tally_of self.old).given }
        ensures counts { Counts (tally_of self.old).faults (tally_of self.new).faults (tally_of self.old).denied (tally_of self.new).denied result }
        ensures fate { FailsBy (next_fate (plan_of self.old)) result }
        ensures plan { plan_of self.new ≡ after_call (plan_of self.old) }
        ensures piece { piece_of self.new ≡ piece_of self.old }
    {
        match self.plan.next() {
            Some(_) => Err(self.tally.failed()),
            None => match self.kept.sync(path) {
                Ok(()) => Ok(()),
                Err(_) => Err(self.tally.denied()),
            },
        }
    }

    fn settle(&mut self) -> Result<(), FileFault>
        ensures done { GoesOn (Some (log_of self.old)) (Some (log_of self.new)) (LeavesWhole Op.Settle result) }
        ensures same_start { start_of self.new ≡ start_of self.old }
        ensures given { (tally_of self.new).given ≡ (tally_of self.old).given }
        ensures counts { Counts (tally_of self.old).faults (tally_of self.new).faults (tally_of self.old).denied (tally_of self.new).denied result }
        ensures fate { FailsBy (next_fate (plan_of self.old)) result }
        ensures plan { plan_of self.new ≡ after_call (plan_of self.old) }
        ensures piece { piece_of self.new ≡ piece_of self.old }
    {
        match self.plan.next() {
            Some(_) => Err(self.tally.failed()),
            None => match self.kept.settle() {
                Ok(()) => Ok(()),
                Err(_) => Err(self.tally.denied()),
            },
        }
    }
}
