//! Why a salvage is not done.
ghost use Rattle.std.specs.Prelude.{◌≡◌};
ghost use Rattle.salvage_core.specs.Faults.{of_input, of_prepare, of_read};

use db_builder::PrepareFault;
use input_pages::InputFault;
use page_access::ReadFault;
use std::alloc::AllocError;
use thiserror::Error;

/// Why a salvage is not done (docs/TEXTS.md, "Statuses").
#[derive(Clone, Copy, Debug, PartialEq, Eq, Error)]
pub enum Fault {
    /// A call of the source failed.
    #[error("the input could not be read")]
    InputFault,
    /// The input has more bytes than the limit.
    #[error("the input is too large: {len} bytes")]
    TooLarge {
        /// Bytes of the input.
        len: u64,
    },
    /// Neither an option nor the header nor a page tells the page size.
    #[error("no page size found")]
    NoPageSize,
    /// The input is shorter than a page.
    #[error("no whole page: {len} bytes, page size {size}")]
    NoWholePage {
        /// Bytes of the input.
        len: u64,
        /// Bytes of a page.
        size: u32,
    },
    /// The header says that texts are in UTF-16.
    #[error("texts are in UTF-16, by encoding {encoding}")]
    Utf16 {
        /// The encoding that the header says, 2 or 3.
        encoding: u32,
    },
    /// The load of the database is over the limit.
    #[error("the output is too large: load {load}")]
    OutputTooLarge {
        /// The load.
        load: u128,
    },
    /// A call of the sink of the database failed.
    #[error("the output could not be written")]
    OutputFault,
    /// A call of the sink of the script failed.
    #[error("the script could not be written")]
    ScriptFault,
    /// A call of the sink of the report failed.
    #[error("the report could not be written")]
    ReportFault,
    /// Memory ran out.
    #[error("out of memory")]
    Memory,
}

impl From<AllocError> for Fault {
    ghost use Rattle.salvage_core.specs.declared.faults.Fault.TheVariants.{Memory};

    ghost from_gives = { λ _ e. e ≡ Memory };

    fn from(_: AllocError) -> Self {
        Fault::Memory
    }
}

impl From<ReadFault> for Fault {
    ghost from_gives = { λ fault e. e ≡ of_read fault };

    fn from(fault: ReadFault) -> Self {
        match fault {
            ReadFault::Source => Fault::InputFault,
            ReadFault::Memory => Fault::Memory,
        }
    }
}

impl From<InputFault> for Fault {
    ghost from_gives = { λ fault e. e ≡ of_input fault };

    fn from(fault: InputFault) -> Self {
        match fault {
            InputFault::Source => Fault::InputFault,
            InputFault::TooLarge { len } => Fault::TooLarge { len },
            InputFault::NoPageSize => Fault::NoPageSize,
            InputFault::NoWholePage { len, size } => Fault::NoWholePage { len, size },
            InputFault::Memory => Fault::Memory,
        }
    }
}

impl From<PrepareFault> for Fault {
    ghost from_gives = { λ fault e. e ≡ of_prepare fault };

    fn from(fault: PrepareFault) -> Self {
        match fault {
            PrepareFault::TooLarge { load } => Fault::OutputTooLarge { load },
            PrepareFault::Memory => Fault::Memory,
        }
    }
}
