//! Ends that share files: one that writes, and those that read meanwhile.
use crate::files::{Files, Reads};

/// What a writing end hands over about its log.
pub trait Told: Send + Drop {
    ghost use Rattle.std.specs.Prelude.{ℕ, List, Option};
    ghost use Rattle.hgs_files.specs.declared.op.Op.{Op};

    /// Which start its end came from.
    ghost home: { Self → List ℕ };

    /// The log, where it tells.
    ghost log: { Self → Option (List Op) };
}

/// A writing end.
pub trait Leads: Files {
    ghost use Rattle.std.specs.Prelude.{◌≡◌};

    type Front: Told;

    /// What it has done so far, for a reading end to learn. Takes no memory.
    fn front(&mut self) -> Self::Front
        ensures home { Self.Front.home result ≡ (Self.ties self.old).home }
        ensures told { Self.Front.log result ≡ Self.log self.old }
        ensures same_log { Self.log self.new ≡ Self.log self.old }
        ensures same_start { Self.start self.new ≡ Self.start self.old }
        ensures same_ties { Self.ties self.new ≡ Self.ties self.old }
        ensures same_faults { Self.faults self.new ≡ Self.faults self.old }
        ensures same_denied { Self.denied self.new ≡ Self.denied self.old }
        ensures same_given { Self.given self.new ≡ Self.given self.old };
}

/// A reading end.
pub trait Follows: Reads {
    ghost use Rattle.std.specs.Prelude.{◌≡◌};
    ghost use Rattle.hgs_files.specs.Ties.{told_of};

    type Front: Told;

    /// Learns what was done, which each later look goes on from. Takes no memory.
    fn learn(&mut self, front: Self::Front)
        requires { Self.Front.home front ≡ (Self.ties self.old).home }
        ensures told { Self.ties self.new ≡ told_of (Self.Front.log front) (Self.ties self.old) }
        ensures same_seen { Self.seen self.new ≡ Self.seen self.old }
        ensures same_start { Self.start self.new ≡ Self.start self.old }
        ensures same_faults { Self.faults self.new ≡ Self.faults self.old }
        ensures same_denied { Self.denied self.new ≡ Self.denied self.old }
        ensures same_given { Self.given self.new ≡ Self.given self.old };
}
