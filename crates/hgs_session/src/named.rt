//! Ends of one start, which a type names: so what no call changes is known of an end wherever it comes back from.
ghost use Rattle.std.specs.Prelude.{◌≡◌};
ghost use Rattle.hgs_files.specs.Ties.{told_of};

use crate::naming::Naming;
use hgs_files::ends::{Follows, Leads, Told};
use hgs_files::files::{Created, FileFault, Files, Reads};
use hgs_files::path::StorePath;
use std::marker::PhantomData;

/// A reading end of this start.
#[derive(Drop)]
pub struct Follower<N: Naming, R: Follows> {
    end: R,
    of: PhantomData<N>,
    ghost home: { (R.Reads.ties end).home ≡ N.home },
}

impl<N: Naming, R: Follows> Follower<N, R> {
    /// The end, which is of this start.
    pub fn new(end: R) -> Follower<N, R>
        requires { (R.Reads.ties end).home ≡ N.home }
        ensures { result.end ≡ end }
    {
        Follower {
            end,
            of: PhantomData,
        }
    }

    /// The end itself.
    pub fn into_end(self) -> R
        ensures end { result ≡ self.end }
        ensures home { (R.Reads.ties result).home ≡ N.home }
    {
        self.end
    }

    /// Learns what the writing end of this start told.
    pub fn learn(&mut self, front: R::Front)
        requires { R.Front.home front ≡ N.home }
        ensures told { R.Reads.ties self.new.end ≡ told_of (R.Front.log front) (R.Reads.ties self.old.end) }
        ensures same_seen { R.Reads.seen self.new.end ≡ R.Reads.seen self.old.end }
        ensures same_start { R.Reads.start self.new.end ≡ R.Reads.start self.old.end }
        ensures same_faults { R.Reads.faults self.new.end ≡ R.Reads.faults self.old.end }
        ensures same_denied { R.Reads.denied self.new.end ≡ R.Reads.denied self.old.end }
        ensures same_given { R.Reads.given self.new.end ≡ R.Reads.given self.old.end }
    {
        self.end.learn(front);
    }
}

impl<N: Naming, R: Follows> Reads for Follower<N, R> {
    ghost faults = { λ f. R.Reads.faults f.end };

    ghost denied = { λ f. R.Reads.denied f.end };

    ghost given = { λ f. R.Reads.given f.end };

    ghost seen = { λ f. R.Reads.seen f.end };

    ghost start = { λ f. R.Reads.start f.end };

    ghost alone = { R.Reads.alone };

    ghost shows = { R.Reads.shows };

    ghost ties = { λ f. R.Reads.ties f.end };

    fn read(
        &mut self,
        path: &StorePath,
        from: u64,
        most: u64,
        into: &mut Vec<u8>,
    ) -> Result<Option<u64>, FileFault> {
        self.end.read(path, from, most, into)
    }

    fn size(&mut self, path: &StorePath) -> Result<Option<u64>, FileFault> {
        self.end.size(path)
    }
}

/// The writing end of this start.
#[derive(Drop)]
pub struct Leader<N: Naming, W: Leads> {
    end: W,
    of: PhantomData<N>,
    ghost home: { (W.ties end).home ≡ N.home },
    ghost earlier: { (W.ties end).earlier ≡ N.earlier },
    ghost earlier_start: { (W.ties end).earlier_start ≡ N.earlier_start },
}

impl<N: Naming, W: Leads> Leader<N, W> {
    /// The end, which is of this start.
    pub fn new(end: W) -> Leader<N, W>
        requires home { (W.ties end).home ≡ N.home }
        requires earlier { (W.ties end).earlier ≡ N.earlier }
        requires earlier_start { (W.ties end).earlier_start ≡ N.earlier_start }
        ensures { result.end ≡ end }
    {
        Leader {
            end,
            of: PhantomData,
        }
    }

    /// The end itself.
    pub fn into_end(self) -> W
        ensures end { result ≡ self.end }
        ensures home { (W.ties result).home ≡ N.home }
        ensures earlier { (W.ties result).earlier ≡ N.earlier }
        ensures earlier_start { (W.ties result).earlier_start ≡ N.earlier_start }
    {
        self.end
    }

    /// What it has done so far, for a reading end to learn. Takes no memory.
    pub fn front(&mut self) -> W::Front
        ensures home { W.Front.home result ≡ N.home }
        ensures told { W.Front.log result ≡ W.log self.old.end }
        ensures same_log { W.log self.new.end ≡ W.log self.old.end }
        ensures same_start { W.start self.new.end ≡ W.start self.old.end }
        ensures same_faults { W.faults self.new.end ≡ W.faults self.old.end }
        ensures same_denied { W.denied self.new.end ≡ W.denied self.old.end }
        ensures same_given { W.given self.new.end ≡ W.given self.old.end }
    {
        self.end.front()
    }
}

impl<N: Naming, W: Leads> Reads for Leader<N, W> {
    ghost faults = { λ w. W.faults w.end };

    ghost denied = { λ w. W.denied w.end };

    ghost given = { λ w. W.given w.end };

    ghost seen = { λ w. W.seen w.end };

    ghost start = { λ w. W.start w.end };

    ghost alone = { W.alone };

    ghost shows = { W.shows };

    ghost ties = { λ w. W.ties w.end };

    fn read(
        &mut self,
        path: &StorePath,
        from: u64,
        most: u64,
        into: &mut Vec<u8>,
    ) -> Result<Option<u64>, FileFault> {
        self.end.read(path, from, most, into)
    }

    fn size(&mut self, path: &StorePath) -> Result<Option<u64>, FileFault> {
        self.end.size(path)
    }
}

impl<N: Naming, W: Leads> Files for Leader<N, W> {
    ghost log = { λ w. W.log w.end };

    ghost allows = { W.allows };

    ghost latest = { λ w. W.latest w.end };

    ghost only_writer = { W.only_writer };

    fn append(&mut self, path: &StorePath, bytes: &[u8]) -> Result<(), FileFault> {
        self.end.append(path, bytes)
    }

    fn put(&mut self, path: &StorePath, bytes: &[u8]) -> Result<(), FileFault> {
        self.end.put(path, bytes)
    }

    fn create_new(&mut self, path: &StorePath, bytes: &[u8]) -> Result<Created, FileFault> {
        self.end.create_new(path, bytes)
    }

    fn cut(&mut self, path: &StorePath, len: u64) -> Result<(), FileFault> {
        self.end.cut(path, len)
    }

    fn rename(&mut self, from: &StorePath, to: &StorePath) -> Result<(), FileFault> {
        self.end.rename(from, to)
    }

    fn remove(&mut self, path: &StorePath) -> Result<(), FileFault> {
        self.end.remove(path)
    }

    fn sync(&mut self, path: &StorePath) -> Result<(), FileFault> {
        self.end.sync(path)
    }

    fn settle(&mut self) -> Result<(), FileFault> {
        self.end.settle()
    }
}
