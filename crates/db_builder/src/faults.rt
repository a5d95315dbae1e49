//! Why a database is not written.

ghost use Rattle.std.specs.Prelude.{◌≡◌};
ghost use Rattle.db_builder.specs.Faults.{build_fault};

use page_access::Failed;
use std::alloc::AllocError;
use thiserror::Error;

/// Why nothing was prepared.
#[derive(Clone, Copy, Debug, PartialEq, Eq, Error)]
pub enum PrepareFault {
    /// The load is over the limit.
    #[error("the load of {load} is over the limit")]
    TooLarge { load: u128 },
    /// Memory ran out.
    #[error("memory ran out")]
    Memory,
}

/// Why a file was not built.
#[derive(Clone, Copy, Debug, PartialEq, Eq, Error)]
pub enum BuildFault {
    /// The load is over the limit.
    #[error("the load of {load} is over the limit")]
    TooLarge { load: u128 },
    /// A call of the sink failed.
    #[error("the sink failed")]
    Sink,
    /// Memory ran out.
    #[error("memory ran out")]
    Memory,
}

impl From<AllocError> for PrepareFault {
    ghost use Rattle.db_builder.specs.declared.faults.PrepareFault.TheVariants.{Memory};

    ghost from_gives = { λ _ e. e ≡ Memory };

    fn from(_: AllocError) -> PrepareFault {
        PrepareFault::Memory
    }
}

impl From<PrepareFault> for BuildFault {
    ghost from_gives = { λ fault e. e ≡ build_fault fault };

    fn from(fault: PrepareFault) -> BuildFault {
        match fault {
            PrepareFault::TooLarge { load } => BuildFault::TooLarge { load },
            PrepareFault::Memory => BuildFault::Memory,
        }
    }
}

impl From<Failed> for BuildFault {
    ghost use Rattle.db_builder.specs.declared.faults.BuildFault.TheVariants.{Sink};

    ghost from_gives = { λ _ e. e ≡ Sink };

    fn from(_: Failed) -> BuildFault {
        BuildFault::Sink
    }
}
