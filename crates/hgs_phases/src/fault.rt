//! Why a text of phase roots is refused.
use std::alloc::{AllocError, AllocFailed};
use thiserror::Error;

/// Why a text gives no phase roots.
#[derive(Clone, Copy, Debug, PartialEq, Eq, Error)]
pub enum RootsFault {
    /// The first line out of form, from 1.
    #[error("line {0} is no phase root")]
    Line(u64),
    #[error("out of memory")]
    Memory,
}

impl From<AllocError> for RootsFault {
    ghost use Rattle.std.specs.Prelude.{◌≡◌};
    ghost use Rattle.hgs_phases.specs.declared.fault.RootsFault.TheVariants.{Memory};

    ghost from_gives = { λ _ e. e ≡ Memory };

    fn from(_: AllocError) -> RootsFault {
        RootsFault::Memory
    }
}

impl<T: Drop> From<AllocFailed<T>> for RootsFault {
    ghost use Rattle.std.specs.Prelude.{◌≡◌};
    ghost use Rattle.hgs_phases.specs.declared.fault.RootsFault.TheVariants.{Memory};

    ghost from_gives = { λ _ e. e ≡ Memory };

    fn from(_: AllocFailed<T>) -> RootsFault {
        RootsFault::Memory
    }
}
