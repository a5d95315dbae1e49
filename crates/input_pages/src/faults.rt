//! Why an input gives no pages.
ghost use Rattle.std.specs.Prelude.{◌≡◌};
ghost use Rattle.input_pages.specs.declared.faults.InputFault.TheVariants.{Source};
ghost use Rattle.input_pages.specs.Input.{of_geo, of_read};

use page_access::{Failed, ReadFault};
use page_size::GeoFault;
use thiserror::Error;

/// Why an input gives no pages (docs/TEXTS.md, "Statuses").
#[derive(Clone, Copy, Debug, PartialEq, Eq, Error)]
pub enum InputFault {
    /// A call of the source failed.
    #[error("the input could not be read")]
    Source,
    /// The input has more bytes than the limit.
    #[error("input too large: {len} bytes")]
    TooLarge {
        /// Bytes of the input.
        len: u64,
    },
    /// Neither an option nor the header nor a page tells the page size.
    #[error("no page size found")]
    NoPageSize,
    /// The input is shorter than a page.
    #[error("no whole page: {len} bytes, page size {size}")]
    NoWholePage {
        /// Bytes of the input.
        len: u64,
        /// Bytes of a page.
        size: u32,
    },
    /// There was no memory.
    #[error("out of memory")]
    Memory,
}

impl From<Failed> for InputFault {
    ghost from_gives = { λ _ e. e ≡ Source };

    fn from(_: Failed) -> Self {
        InputFault::Source
    }
}

impl From<ReadFault> for InputFault {
    ghost from_gives = { λ fault e. e ≡ of_read fault };

    fn from(fault: ReadFault) -> Self {
        match fault {
            ReadFault::Source => InputFault::Source,
            ReadFault::Memory => InputFault::Memory,
        }
    }
}

impl From<GeoFault> for InputFault {
    ghost from_gives = { λ fault e. e ≡ of_geo fault };

    fn from(fault: GeoFault) -> Self {
        match fault {
            GeoFault::NoPageSize => InputFault::NoPageSize,
            GeoFault::NoWholePage { len, size } => InputFault::NoWholePage { len, size },
            GeoFault::Source => InputFault::Source,
            GeoFault::Memory => InputFault::Memory,
        }
    }
}
