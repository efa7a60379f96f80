//! Why an input is refused.
use hgs_index::kinds::Which;
use std::alloc::{AllocError, AllocFailed};
use thiserror::Error;

/// Why an input is no record.
#[derive(Clone, Copy, Debug, PartialEq, Eq, Error)]
pub enum InputFault {
    /// The first byte, from 0, of the first line or counted text that breaks the grammar; the input's length where it is
    /// cut.
    #[error("the input is out of form at byte {0}")]
    BadInput(u64),
    /// A limit is passed before the grammar is broken.
    #[error("limit {number} is passed", number = .0.number())]
    Limit(Which),
    #[error("out of memory")]
    Memory,
}

impl From<AllocError> for InputFault {
    ghost use Rattle.std.specs.Prelude.{◌≡◌};
    ghost use Rattle.hgs_input.specs.declared.fault.InputFault.TheVariants.{Memory};

    ghost from_gives = { λ _ e. e ≡ Memory };

    fn from(_: AllocError) -> InputFault {
        InputFault::Memory
    }
}

impl<T: Drop> From<AllocFailed<T>> for InputFault {
    ghost use Rattle.std.specs.Prelude.{◌≡◌};
    ghost use Rattle.hgs_input.specs.declared.fault.InputFault.TheVariants.{Memory};

    ghost from_gives = { λ _ e. e ≡ Memory };

    fn from(_: AllocFailed<T>) -> InputFault {
        InputFault::Memory
    }
}
