//! Why a trial is not done.
ghost use Rattle.std.specs.Prelude.{◌≡◌};

use std::alloc::AllocError;
use thiserror::Error;

/// Why a trial is not done.
#[derive(Clone, Copy, Debug, PartialEq, Eq, Error)]
pub enum TrialFault {
    /// A call of the sink failed.
    #[error("the sink failed")]
    Sink,
    /// Memory ran out.
    #[error("memory ran out")]
    Memory,
}

impl From<AllocError> for TrialFault {
    ghost use Rattle.salvage_trial.specs.declared.faults.TrialFault.TheVariants.{Memory};

    ghost from_gives = { λ _ e. e ≡ Memory };

    fn from(_: AllocError) -> Self {
        TrialFault::Memory
    }
}
