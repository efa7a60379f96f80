//! What files count.
ghost use Rattle.std.specs.Prelude.{◌≡◌};
ghost use Rattle.hgs_files.specs.Reads.{Rises};

use hgs_files::files::FileFault;

/// How often files failed, how often they found no memory, and how many bytes they gave.
#[derive(Clone, Copy, Debug)]
pub struct Tally {
    pub faults: u64,
    pub denied: u64,
    pub given: u64,
}

impl Tally {
    pub fn new() -> Tally
        ensures { result ≡ record { faults = 0; denied = 0; given = 0 } }
    {
        Tally {
            faults: 0,
            denied: 0,
            given: 0,
        }
    }

    /// Counts a call that failed.
    pub fn failed(&mut self) -> FileFault
        ensures fault { result ≡ FileFault.Failed }
        ensures faults { Rises self.old.faults self.new.faults 1 }
        ensures denied { self.new.denied ≡ self.old.denied }
        ensures given { self.new.given ≡ self.old.given }
    {
        self.faults = self.faults.saturating_add(1);
        FileFault::Failed
    }

    /// Counts a call that found no memory.
    pub fn denied(&mut self) -> FileFault
        ensures fault { result ≡ FileFault.Memory }
        ensures faults { self.new.faults ≡ self.old.faults }
        ensures denied { Rises self.old.denied self.new.denied 1 }
        ensures given { self.new.given ≡ self.old.given }
    {
        self.denied = self.denied.saturating_add(1);
        FileFault::Memory
    }

    /// Counts bytes that a read gave.
    pub fn give(&mut self, bytes: u64)
        ensures faults { self.new.faults ≡ self.old.faults }
        ensures denied { self.new.denied ≡ self.old.denied }
        ensures given { Rises self.old.given self.new.given bytes }
    {
        self.given = self.given.saturating_add(bytes);
    }
}
