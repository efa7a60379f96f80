//! The two locks of a writer.
ghost use Rattle.std.specs.Prelude.{◌≡◌, ◌∷◌, [], None, IfSome, IfErr, IsSome, is_some};
ghost use Rattle.hgs_files.specs.declared.op.Op.{Op};
ghost use Rattle.hgs_files.specs.Files.{GoesOn, MayCreate, MayDo};
ghost use Rattle.hgs_files.specs.Tree.{after_all};
ghost use Rattle.hgs_journal.specs.Names.{journal_path};
ghost use Rattle.hgs_ops.specs.Operations.{lock_path, wlock_path};
ghost use Rattle.hgs_machine.specs.Carry.{tree_now};
ghost use Rattle.hgs_machine.specs.Course.{lock_removals};
ghost use Rattle.hgs_machine.specs.Locks.{AreRemoved, CausesLeft, CausesNotLocked, CausesRefusal, IsFrontOf, Looks, Makes, MayLock, MayRelease, NeverFall, TakesLocks};
ghost use Rattle.hgs_machine.specs.Refusals.{WereRefused, how_many_made, how_many_stand, lock_paths, refusals_of_call, refusals_of_locks, refusals_of_made};

use hgs_bytes::bytes::Bytes;
use hgs_files::files::{Created, FileFault, Files};
use hgs_files::path::StorePath;
use hgs_journal::names::path_of;
use std::alloc::{AllocError, Global};

/// Why the locks were not taken.
#[derive(Debug, Drop)]
pub enum LockRefusal {
    /// Another holds one of them, with these bytes, at most 4,096 of them; none where they could not be read.
    Held(Option<Bytes>),
    /// A journal stands.
    Abandoned,
    /// A call on the files failed.
    Fault,
    /// There was no memory.
    Memory,
}

/// The locks were not taken; whether those that this call made are removed again.
#[derive(Debug, Drop)]
pub struct NotLocked {
    pub why: LockRefusal,
    pub swept: bool,
}

/// The names of the two locks, and of the journal that bars a repository.
#[derive(Debug, Drop)]
pub struct Locks {
    wlock: StorePath,
    lock: StorePath,
    journal: StorePath,
    ghost wlock_is: { wlock ≡ wlock_path },
    ghost lock_is: { lock ≡ lock_path },
    ghost journal_is: { journal ≡ journal_path },
}

/// The bytes of a lock that is held, where they can be read.
fn holder<F: Files>(alloc: Global, files: &mut F, path: &StorePath) -> Option<Bytes>
    ensures log { F.log files.new ≡ F.log files.old }
    ensures bytes { IfSome (F.log files.old) (λ log. IfSome result (λ bytes. IsFrontOf bytes (after_all log (F.start files.old) path.now))) }
    ensures same_start { F.start files.new ≡ F.start files.old }
    ensures counts { NeverFall (F.faults files.old) (F.faults files.new) (F.denied files.old) (F.denied files.new) }
    ensures unread { IfSome (F.log files.old) (λ log. IsSome (after_all log (F.start files.old) path.now) → result ≡ None → WereRefused 1 (F.faults files.old) (F.faults files.new) (F.denied files.old) (F.denied files.new)) }
{
    let mut bytes = Vec::new(alloc);
    match files.read(path, 0, 4096, &mut bytes) {
        Ok(Some(_)) => Some(Bytes::from_vec(bytes)),
        _ => None,
    }
}

/// Makes a lock.
fn make<F: Files>(
    alloc: Global,
    files: &mut F,
    path: &StorePath,
    who: &[u8],
) -> Result<(), LockRefusal>
    requires { MayCreate (F.log files.old) (F.allows (F.start files.old)) (F.start files.old) path.now who.now }
    ensures log { GoesOn (F.log files.old) (F.log files.new) (Makes path.now who.now (tree_now (F.log files.old) (F.start files.old)) result) }
    ensures same_start { F.start files.new ≡ F.start files.old }
    ensures counts { NeverFall (F.faults files.old) (F.faults files.new) (F.denied files.old) (F.denied files.new) }
    ensures causes { CausesRefusal (F.faults files.old) (F.faults files.new) result }
    ensures calls { IfErr result (λ why. WereRefused (refusals_of_call (is_some (F.log files.old)) why) (F.faults files.old) (F.faults files.new) (F.denied files.old) (F.denied files.new)) }
{
    match files.create_new(path, who) {
        Ok(Created::Made) => Ok(()),
        Ok(Created::There) => Err(LockRefusal::Held(holder(alloc, files, path))),
        Err(FileFault::Failed) => Err(LockRefusal::Fault),
        Err(FileFault::Memory) => Err(LockRefusal::Memory),
    }
}

/// Removes a file, and answers whether it is removed.
fn remove<F: Files>(files: &mut F, path: &StorePath) -> bool
    requires { MayDo (F.log files.old) (F.allows (F.start files.old)) (Op.Remove path.now) }
    ensures log { GoesOn (F.log files.old) (F.log files.new) (AreRemoved (Op.Remove path.now ∷ []) result) }
    ensures same_start { F.start files.new ≡ F.start files.old }
    ensures counts { NeverFall (F.faults files.old) (F.faults files.new) (F.denied files.old) (F.denied files.new) }
    ensures causes { CausesLeft (F.faults files.old) (F.faults files.new) (F.denied files.old) (F.denied files.new) result }
{
    files.remove(path).is_ok()
}

impl Locks {
    fn new(alloc: Global) -> Result<Locks, AllocError> {
        Ok(Locks {
            wlock: path_of(alloc, true, b"wlock")?,
            lock: path_of(alloc, true, b"store/lock")?,
            journal: path_of(alloc, true, b"store/journal")?,
        })
    }

    /// Refuses where a journal stands.
    fn look<F: Files>(&self, files: &mut F) -> Result<(), LockRefusal>
        ensures log { GoesOn (F.log files.old) (F.log files.new) (Looks (tree_now (F.log files.old) (F.start files.old)) result) }
        ensures same_start { F.start files.new ≡ F.start files.old }
        ensures counts { NeverFall (F.faults files.old) (F.faults files.new) (F.denied files.old) (F.denied files.new) }
        ensures causes { CausesRefusal (F.faults files.old) (F.faults files.new) result }
        ensures calls { IfErr result (λ why. WereRefused (refusals_of_call (is_some (F.log files.old)) why) (F.faults files.old) (F.faults files.new) (F.denied files.old) (F.denied files.new)) }
    {
        match files.size(&self.journal) {
            Ok(None) => Ok(()),
            Ok(Some(_)) => Err(LockRefusal::Abandoned),
            Err(FileFault::Failed) => Err(LockRefusal::Fault),
            Err(FileFault::Memory) => Err(LockRefusal::Memory),
        }
    }

    /// Removes both locks, the second whether or not the first could be, and answers whether they are removed. Takes no memory
    /// beside that of the files.
    pub fn release<F: Files>(&self, files: &mut F) -> bool
        requires { MayRelease (F.log files.old) (F.allows (F.start files.old)) }
        ensures log { GoesOn (F.log files.old) (F.log files.new) (AreRemoved lock_removals result) }
        ensures same_start { F.start files.new ≡ F.start files.old }
        ensures counts { NeverFall (F.faults files.old) (F.faults files.new) (F.denied files.old) (F.denied files.new) }
        ensures causes { CausesLeft (F.faults files.old) (F.faults files.new) (F.denied files.old) (F.denied files.new) result }
        ensures left { GoesOn (F.log files.old) (F.log files.new) (λ done. WereRefused (how_many_stand lock_paths (after_all done (tree_now (F.log files.old) (F.start files.old)))) (F.faults files.old) (F.faults files.new) (F.denied files.old) (F.denied files.new)) }
    {
        let lock = remove(files, &self.lock);
        let wlock = remove(files, &self.wlock);
        lock && wlock
    }

    /// Takes both locks where no journal stands.
    fn take<F: Files>(&self, alloc: Global, files: &mut F, who: &[u8]) -> Result<(), NotLocked>
        requires { MayLock who.now (F.log files.old) (F.allows (F.start files.old)) (F.start files.old) }
        ensures log { GoesOn (F.log files.old) (F.log files.new) (TakesLocks who.now (tree_now (F.log files.old) (F.start files.old)) result) }
        ensures same_start { F.start files.new ≡ F.start files.old }
        ensures counts { NeverFall (F.faults files.old) (F.faults files.new) (F.denied files.old) (F.denied files.new) }
        ensures causes { CausesNotLocked (F.faults files.old) (F.faults files.new) (F.denied files.old) (F.denied files.new) result }
        ensures calls { IfErr result (λ refusal. WereRefused (refusals_of_locks (is_some (F.log files.old)) refusal.why refusal.swept) (F.faults files.old) (F.faults files.new) (F.denied files.old) (F.denied files.new)) }
        ensures left { GoesOn (F.log files.old) (F.log files.new) (λ done. IfErr result (λ refusal. WereRefused (refusals_of_made (is_some (F.log files.old)) refusal.why (how_many_made lock_paths (tree_now (F.log files.old) (F.start files.old)) (after_all done (tree_now (F.log files.old) (F.start files.old))))) (F.faults files.old) (F.faults files.new) (F.denied files.old) (F.denied files.new))) }
    {
        if let Err(why) = make(alloc, files, &self.wlock, who) {
            return Err(NotLocked { why, swept: true });
        }
        if let Err(why) = make(alloc, files, &self.lock, who) {
            let swept = remove(files, &self.wlock);
            return Err(NotLocked { why, swept });
        }
        if let Err(why) = self.look(files) {
            let swept = self.release(files);
            return Err(NotLocked { why, swept });
        }
        Ok(())
    }
}

/// Takes both locks: makes `wlock` and then the store's, each with these bytes, and then looks for a journal. Where one of
/// these is refused, the locks that this call made are removed again, and no other. The files need take no more than what this may leave.
pub fn take_locks<F: Files>(alloc: Global, files: &mut F, who: &[u8]) -> Result<Locks, NotLocked>
    requires allowed { MayLock who.now (F.log files.old) (F.allows (F.start files.old)) (F.start files.old) }
    ensures log { GoesOn (F.log files.old) (F.log files.new) (TakesLocks who.now (tree_now (F.log files.old) (F.start files.old)) result) }
    ensures same_start { F.start files.new ≡ F.start files.old }
    ensures counts { NeverFall (F.faults files.old) (F.faults files.new) (F.denied files.old) (F.denied files.new) }
    ensures causes { CausesNotLocked (F.faults files.old) (F.faults files.new) (F.denied files.old) (F.denied files.new) result }
    ensures calls { IfErr result (λ refusal. WereRefused (refusals_of_locks (is_some (F.log files.old)) refusal.why refusal.swept) (F.faults files.old) (F.faults files.new) (F.denied files.old) (F.denied files.new)) }
    ensures left { GoesOn (F.log files.old) (F.log files.new) (λ done. IfErr result (λ refusal. WereRefused (refusals_of_made (is_some (F.log files.old)) refusal.why (how_many_made lock_paths (tree_now (F.log files.old) (F.start files.old)) (after_all done (tree_now (F.log files.old) (F.start files.old))))) (F.faults files.old) (F.faults files.new) (F.denied files.old) (F.denied files.new))) }
{
    let Ok(locks) = Locks::new(alloc) else {
        return Err(NotLocked {
            why: LockRefusal::Memory,
            swept: true,
        });
    };
    match locks.take(alloc, files, who) {
        Ok(()) => Ok(locks),
        Err(refusal) => Err(refusal),
    }
}
