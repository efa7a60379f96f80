//! What transactions leave behind: strays and the two locks.
ghost use Rattle.std.specs.Prelude.{◌≡◌, ◌∷◌, [], List, IfOk};
ghost use Rattle.hgs_files.specs.declared.op.Op.{Op};
ghost use Rattle.hgs_files.specs.Files.{GoesOn};
ghost use Rattle.hgs_machine.specs.Carry.{tree_now};
ghost use Rattle.hgs_machine.specs.Locks.{CausesLeft, NeverFall};
ghost use Rattle.hgs_ops.specs.Operations.{lock_path, strays, wlock_path};
ghost use Rattle.hgs_recover.specs.Clearing.{Clears, ClearsEach, IsLeft, leftover_paths};

use hgs_files::files::Files;
use hgs_files::path::StorePath;
use hgs_journal::names::path_of;
use std::alloc::{AllocError, Global};

/// The names of what transactions leave behind.
#[derive(Debug, Drop)]
pub struct Leftovers {
    paths: Vec<StorePath>,
    lock: StorePath,
    wlock: StorePath,
    ghost paths_are: { paths.items ≡ strays },
    ghost lock_is: { lock ≡ lock_path },
    ghost wlock_is: { wlock ≡ wlock_path },
}

// The names of the strays.
fn stray_paths(alloc: Global) -> Result<Vec<StorePath>, AllocError>
    ensures { IfOk result (λ paths. paths.items ≡ strays) }
{
    let mut paths = Vec::new(alloc);
    paths.push(path_of(alloc, true, b"store/journal.backupfiles")?)?;
    paths.push(path_of(alloc, true, b"store/journal.backup.phaseroots")?)?;
    paths.push(path_of(alloc, true, b"store/journal.new.phaseroots")?)?;
    paths.push(path_of(alloc, true, b"journal.backup.dirstate")?)?;
    paths.push(path_of(alloc, true, b"journal.new.dirstate")?)?;
    paths.push(path_of(alloc, true, b"journal.backup.bookmarks")?)?;
    paths.push(path_of(alloc, true, b"journal.new.bookmarks")?)?;
    paths.push(path_of(alloc, true, b"journal.new.requires")?)?;
    paths.push(path_of(alloc, true, b"store/00changelog.i.a")?)?;
    paths.push(path_of(alloc, true, b"store/journal.new.journal")?)?;
    Ok(paths)
}

// Removes a file, and answers whether it is gone.
fn remove<F: Files>(files: &mut F, path: &StorePath) -> bool
    requires { (log : List Op) → F.allows (F.start files.old) log }
    ensures log { GoesOn (F.log files.old) (F.log files.new) (ClearsEach (path.now ∷ []) (tree_now (F.log files.old) (F.start files.old)) result (F.faults files.old) (F.faults files.new) (F.denied files.old) (F.denied files.new)) }
    ensures same_start { F.start files.new ≡ F.start files.old }
    ensures counts { NeverFall (F.faults files.old) (F.faults files.new) (F.denied files.old) (F.denied files.new) }
    ensures causes { CausesLeft (F.faults files.old) (F.faults files.new) (F.denied files.old) (F.denied files.new) result }
{
    files.remove(path).is_ok()
}

// Removes a file where it stands, and answers whether it is gone.
fn clear<F: Files>(files: &mut F, path: &StorePath) -> bool
    requires { (log : List Op) → F.allows (F.start files.old) log }
    ensures log { GoesOn (F.log files.old) (F.log files.new) (ClearsEach (path.now ∷ []) (tree_now (F.log files.old) (F.start files.old)) result (F.faults files.old) (F.faults files.new) (F.denied files.old) (F.denied files.new)) }
    ensures same_start { F.start files.new ≡ F.start files.old }
    ensures counts { NeverFall (F.faults files.old) (F.faults files.new) (F.denied files.old) (F.denied files.new) }
    ensures causes { CausesLeft (F.faults files.old) (F.faults files.new) (F.denied files.old) (F.denied files.new) result }
{
    match files.size(path) {
        Ok(Some(_)) => remove(files, path),
        Ok(None) => true,
        Err(_) => false,
    }
}

// Removes those of the files that stand, and answers whether all are gone.
fn clear_all<F: Files>(files: &mut F, paths: &[StorePath]) -> bool
    requires { (log : List Op) → F.allows (F.start files.old) log }
    ensures log { GoesOn (F.log files.old) (F.log files.new) (ClearsEach paths.now (tree_now (F.log files.old) (F.start files.old)) result (F.faults files.old) (F.faults files.new) (F.denied files.old) (F.denied files.new)) }
    ensures same_start { F.start files.new ≡ F.start files.old }
    ensures counts { NeverFall (F.faults files.old) (F.faults files.new) (F.denied files.old) (F.denied files.new) }
    ensures causes { CausesLeft (F.faults files.old) (F.faults files.new) (F.denied files.old) (F.denied files.new) result }
{
    let mut swept = true;
    for path in paths.iter() {
        swept &= clear(files, path);
    }
    swept
}

impl Leftovers {
    pub fn new(alloc: Global) -> Result<Leftovers, AllocError> {
        let paths = stray_paths(alloc)?;
        Ok(Leftovers {
            paths,
            lock: path_of(alloc, true, b"store/lock")?,
            wlock: path_of(alloc, true, b"wlock")?,
        })
    }

    // Removes both locks, and answers whether they are gone.
    fn release<F: Files>(&self, files: &mut F) -> bool
        requires { (log : List Op) → F.allows (F.start files.old) log }
        ensures log { GoesOn (F.log files.old) (F.log files.new) (ClearsEach (lock_path ∷ wlock_path ∷ []) (tree_now (F.log files.old) (F.start files.old)) result (F.faults files.old) (F.faults files.new) (F.denied files.old) (F.denied files.new)) }
        ensures same_start { F.start files.new ≡ F.start files.old }
        ensures counts { NeverFall (F.faults files.old) (F.faults files.new) (F.denied files.old) (F.denied files.new) }
        ensures causes { CausesLeft (F.faults files.old) (F.faults files.new) (F.denied files.old) (F.denied files.new) result }
    {
        let lock = remove(files, &self.lock);
        let wlock = remove(files, &self.wlock);
        lock & wlock
    }

    /// Removes the strays that stand and both locks, each whether or not the others could be removed, and answers whether
    /// all are gone. Takes no memory beside that of the files.
    pub fn sweep<F: Files>(&self, files: &mut F) -> bool
        requires { (log : List Op) → F.allows (F.start files.old) log }
        ensures log { GoesOn (F.log files.old) (F.log files.new) (Clears leftover_paths (tree_now (F.log files.old) (F.start files.old)) result) }
        ensures left { GoesOn (F.log files.old) (F.log files.new) (IsLeft (tree_now (F.log files.old) (F.start files.old)) (F.faults files.old) (F.faults files.new) (F.denied files.old) (F.denied files.new)) }
        ensures same_start { F.start files.new ≡ F.start files.old }
        ensures counts { NeverFall (F.faults files.old) (F.faults files.new) (F.denied files.old) (F.denied files.new) }
        ensures causes { CausesLeft (F.faults files.old) (F.faults files.new) (F.denied files.old) (F.denied files.new) result }
    {
        let strays = clear_all(files, &self.paths);
        let locks = self.release(files);
        strays & locks
    }
}
