//! Why the members of a set are not found.
use std::alloc::{AllocError, AllocFailed};
use thiserror::Error;

/// Why the members of a set are not found.
#[derive(Clone, Copy, Debug, PartialEq, Eq, Error)]
pub enum SetAnswer {
    /// A name of the set names no changeset.
    #[error("unknown revision")]
    UnknownRevision,
    #[error("out of memory")]
    Memory,
}

impl From<AllocError> for SetAnswer {
    ghost use Rattle.std.specs.Prelude.{◌≡◌};
    ghost use Rattle.hgs_members.specs.declared.answer.SetAnswer.TheVariants.{Memory};

    ghost from_gives = { λ _ e. e ≡ Memory };

    fn from(_: AllocError) -> SetAnswer {
        SetAnswer::Memory
    }
}

impl<T: Drop> From<AllocFailed<T>> for SetAnswer {
    ghost use Rattle.std.specs.Prelude.{◌≡◌};
    ghost use Rattle.hgs_members.specs.declared.answer.SetAnswer.TheVariants.{Memory};

    ghost from_gives = { λ _ e. e ≡ Memory };

    fn from(_: AllocFailed<T>) -> SetAnswer {
        SetAnswer::Memory
    }
}
