//! Why no commit is planned.
use hgs_load::answer::ReadAnswer;
use hgs_steps::fault::PlanFault;
use std::alloc::{AllocError, AllocFailed};

/// Why no commit is planned.
#[derive(Debug, Drop)]
pub enum CommitFault {
    /// What it needs of the files could not be read.
    Unread(ReadAnswer),
    Refused(PlanFault),
}

impl From<ReadAnswer> for CommitFault {
    ghost use Rattle.std.specs.Prelude.{◌≡◌};
    ghost use Rattle.hgs_commit.specs.declared.fault.CommitFault.TheVariants.{Unread};

    ghost from_gives = { λ r e. e ≡ Unread r };

    fn from(refusal: ReadAnswer) -> CommitFault {
        CommitFault::Unread(refusal)
    }
}

impl From<PlanFault> for CommitFault {
    ghost use Rattle.std.specs.Prelude.{◌≡◌};
    ghost use Rattle.hgs_commit.specs.declared.fault.CommitFault.TheVariants.{Refused};

    ghost from_gives = { λ r e. e ≡ Refused r };

    fn from(refusal: PlanFault) -> CommitFault {
        CommitFault::Refused(refusal)
    }
}

impl From<AllocError> for CommitFault {
    ghost use Rattle.std.specs.Prelude.{◌≡◌};
    ghost use Rattle.hgs_commit.specs.declared.fault.CommitFault.TheVariants.{Refused};
    ghost use Rattle.hgs_steps.specs.declared.fault.PlanFault.TheVariants.{Memory};

    ghost from_gives = { λ _ e. e ≡ Refused Memory };

    fn from(_: AllocError) -> CommitFault {
        CommitFault::Refused(PlanFault::Memory)
    }
}

impl<T: Drop> From<AllocFailed<T>> for CommitFault {
    ghost use Rattle.std.specs.Prelude.{◌≡◌};
    ghost use Rattle.hgs_commit.specs.declared.fault.CommitFault.TheVariants.{Refused};
    ghost use Rattle.hgs_steps.specs.declared.fault.PlanFault.TheVariants.{Memory};

    ghost from_gives = { λ _ e. e ≡ Refused Memory };

    fn from(_: AllocFailed<T>) -> CommitFault {
        CommitFault::Refused(PlanFault::Memory)
    }
}
