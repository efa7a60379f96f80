//! Why no step is planned.
use hgs_bytes::bytes::Bytes;
use hgs_files::path::StorePath;
use hgs_index::kinds::Which;
use hgs_model::command::Refusal;
use std::alloc::{AllocError, AllocFailed};

/// Why a command leads to no step. All but `Memory` speak of the repository and the command.
#[derive(Debug, Drop)]
pub enum PlanFault {
    /// The command is refused for what the repository is.
    Refused(Refusal),
    /// A limit is passed by what was read, or would be by what the command leaves.
    Limit(Which),
    /// Another path has the store name of this one.
    NameClash(Bytes),
    /// A file stands where one of a new path would be made.
    InTheWay(StorePath),
    /// A revision has the node of a new one, and another text or other parents.
    Collision { path: StorePath, rev: u32 },
    Memory,
}

impl From<AllocError> for PlanFault {
    ghost use Rattle.std.specs.Prelude.{◌≡◌};
    ghost use Rattle.hgs_steps.specs.declared.fault.PlanFault.TheVariants.{Memory};

    ghost from_gives = { λ _ e. e ≡ Memory };

    fn from(_: AllocError) -> PlanFault {
        PlanFault::Memory
    }
}

impl<T: Drop> From<AllocFailed<T>> for PlanFault {
    ghost use Rattle.std.specs.Prelude.{◌≡◌};
    ghost use Rattle.hgs_steps.specs.declared.fault.PlanFault.TheVariants.{Memory};

    ghost from_gives = { λ _ e. e ≡ Memory };

    fn from(_: AllocFailed<T>) -> PlanFault {
        PlanFault::Memory
    }
}
