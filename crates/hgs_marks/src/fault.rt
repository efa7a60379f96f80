//! Why a text of bookmarks or of the working parents is refused.
use std::alloc::{AllocError, AllocFailed};
use thiserror::Error;

/// Why a text gives no bookmarks or no working parents. Lines are counted from 1, bytes from 0.
#[derive(Clone, Copy, Debug, PartialEq, Eq, Error)]
pub enum MarkFault {
    /// The first line that does not begin with a node and a space.
    #[error("line {0} is no line of a bookmark")]
    Line(u64),
    /// The first line whose name no bookmark can have; 0 for a name that is set.
    #[error("no bookmark can have the name of line {0}")]
    Name(u64),
    /// The bytes end inside the parents or an entry.
    #[error("the bytes end too soon")]
    Short,
    /// The place of the first state byte that is none.
    #[error("the byte at {0} is no state of a file")]
    State(u64),
    #[error("out of memory")]
    Memory,
}

impl From<AllocError> for MarkFault {
    ghost use Rattle.std.specs.Prelude.{◌≡◌};
    ghost use Rattle.hgs_marks.specs.declared.fault.MarkFault.TheVariants.{Memory};

    ghost from_gives = { λ _ e. e ≡ Memory };

    fn from(_: AllocError) -> MarkFault {
        MarkFault::Memory
    }
}

impl<T: Drop> From<AllocFailed<T>> for MarkFault {
    ghost use Rattle.std.specs.Prelude.{◌≡◌};
    ghost use Rattle.hgs_marks.specs.declared.fault.MarkFault.TheVariants.{Memory};

    ghost from_gives = { λ _ e. e ≡ Memory };

    fn from(_: AllocFailed<T>) -> MarkFault {
        MarkFault::Memory
    }
}
