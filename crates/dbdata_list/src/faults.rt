//! Why a listing ends early.
ghost use Rattle.std.specs.Prelude.{◌≡◌};
ghost use Rattle.dbdata_list.specs.declared.faults.ListFault.TheVariants.{Sink, Memory};
ghost use Rattle.dbdata_list.specs.Faults.{of_read};

use page_access::{Failed, ReadFault};
use std::alloc::AllocError;
use thiserror::Error;

/// Why a listing ended early.
#[derive(Clone, Copy, Debug, PartialEq, Eq, Error)]
pub enum ListFault {
    /// A call of the source failed.
    #[error("the source could not be read")]
    Source,
    /// A call of the sink failed.
    #[error("the listing could not be written")]
    Sink,
    /// There was no memory.
    #[error("out of memory")]
    Memory,
}

impl From<ReadFault> for ListFault {
    ghost from_gives = { λ fault e. e ≡ of_read fault };

    fn from(fault: ReadFault) -> Self {
        match fault {
            ReadFault::Source => ListFault::Source,
            ReadFault::Memory => ListFault::Memory,
        }
    }
}

impl From<Failed> for ListFault {
    ghost from_gives = { λ _ e. e ≡ Sink };

    fn from(_: Failed) -> Self {
        ListFault::Sink
    }
}

impl From<AllocError> for ListFault {
    ghost from_gives = { λ _ e. e ≡ Memory };

    fn from(_: AllocError) -> Self {
        ListFault::Memory
    }
}
