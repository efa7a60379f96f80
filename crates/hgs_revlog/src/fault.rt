//! How the end of an index is taken, and why a revlog is refused (Mercurial's help page `internals.revlogs`).
ghost use Rattle.std.specs.Prelude.{◌≡◌};
ghost use Rattle.hgs_revlog.specs.Fault.{fault_number, fault_place};

use hgs_index::entry::EntryFault;
use hgs_index::kinds::Which;
use hgs_index::node::Node;
use std::alloc::{AllocError, AllocFailed};
use thiserror::Error;

/// How the end of an index is taken.
#[derive(Clone, Copy, Debug, PartialEq, Eq)]
pub enum Tail {
    /// A rest that is no whole entry is passed over, as a writer may stand in the middle of one.
    Ignore,
    /// A rest that is no whole entry is a fault.
    Refuse,
    /// Nothing past the first entry with this node is looked at.
    Until(Node),
}

/// The first fault of a revlog. The numbers are revisions.
#[derive(Clone, Copy, Debug, PartialEq, Eq, Error)]
pub enum RevFault {
    /// The 64 bytes are no entry.
    #[error("revision {0}: {1}")]
    Entry(u32, EntryFault),
    /// The chunk is compressed, which is not read.
    #[error("the chunk of revision {0} is compressed")]
    Compressed(u32),
    /// The chunk is a difference to another revision.
    #[error("the chunk of revision {0} is a difference")]
    Delta(u32),
    /// The entry has flags, which are not read.
    #[error("revision {0} has flags")]
    Flagged(u32),
    /// The chunk ends before its stored length.
    #[error("the chunk of revision {0} is cut short")]
    Short(u32),
    /// The text has another length than the entry says.
    #[error("the text of revision {0} has another length than its entry says")]
    Length(u32),
    /// The text and the parents give another node.
    #[error("the text of revision {0} has another node")]
    Hash(u32),
    /// A parent does not come before the revision.
    #[error("a parent of revision {0} does not come before it")]
    Parent(u32),
    /// The new node stands with another text or other parents.
    #[error("revision {0} has the node with another text or other parents")]
    Collision(u32),
    /// A quantity is above its limit.
    #[error("limit {number} is passed", number = .0.number())]
    Limit(Which),
    /// There is no memory.
    #[error("out of memory")]
    Memory,
    /// The offset is not the sum of the stored lengths before it.
    #[error("the chunk of revision {0} does not begin where the one before ends")]
    Offset(u32),
    /// An earlier entry has the same node, or it is the null node.
    #[error("the node of revision {0} is taken")]
    Twice(u32),
    /// Bytes stand behind the last whole entry, or behind the last chunk, or are wanting of it; the number is the count of the whole entries.
    #[error("the index ends inside an entry, after {0} whole ones")]
    Tail(u32),
    /// No whole entry has the node.
    #[error("no entry has the node")]
    Missing,
}

impl RevFault {
    /// The number that refusals print, from 1 on.
    pub fn number(&self) -> u32
        ensures { result ≡ fault_number self.now }
    {
        match self {
            RevFault::Entry(_, _) => 1,
            RevFault::Compressed(_) => 2,
            RevFault::Delta(_) => 3,
            RevFault::Flagged(_) => 4,
            RevFault::Short(_) => 5,
            RevFault::Length(_) => 6,
            RevFault::Hash(_) => 7,
            RevFault::Parent(_) => 8,
            RevFault::Collision(_) => 9,
            RevFault::Limit(_) => 10,
            RevFault::Memory => 11,
            RevFault::Offset(_) => 12,
            RevFault::Twice(_) => 13,
            RevFault::Tail(_) => 14,
            RevFault::Missing => 15,
        }
    }

    /// The revision of the fault, or 0 where it names none.
    pub fn place(&self) -> u64
        ensures { result ≡ fault_place self.now }
    {
        match self {
            RevFault::Entry(rev, _) => *rev as u64,
            RevFault::Compressed(rev) => *rev as u64,
            RevFault::Delta(rev) => *rev as u64,
            RevFault::Flagged(rev) => *rev as u64,
            RevFault::Short(rev) => *rev as u64,
            RevFault::Length(rev) => *rev as u64,
            RevFault::Hash(rev) => *rev as u64,
            RevFault::Parent(rev) => *rev as u64,
            RevFault::Collision(rev) => *rev as u64,
            RevFault::Limit(_) => 0,
            RevFault::Memory => 0,
            RevFault::Offset(rev) => *rev as u64,
            RevFault::Twice(rev) => *rev as u64,
            RevFault::Tail(rev) => *rev as u64,
            RevFault::Missing => 0,
        }
    }
}

impl From<AllocError> for RevFault {
    ghost use Rattle.std.specs.Prelude.{◌≡◌};
    ghost use Rattle.hgs_revlog.specs.declared.fault.RevFault.TheVariants.{Memory};

    ghost from_gives = { λ _ e. e ≡ Memory };

    fn from(_: AllocError) -> RevFault {
        RevFault::Memory
    }
}

impl<T: Drop> From<AllocFailed<T>> for RevFault {
    ghost use Rattle.std.specs.Prelude.{◌≡◌};
    ghost use Rattle.hgs_revlog.specs.declared.fault.RevFault.TheVariants.{Memory};

    ghost from_gives = { λ _ e. e ≡ Memory };

    fn from(_: AllocFailed<T>) -> RevFault {
        RevFault::Memory
    }
}
