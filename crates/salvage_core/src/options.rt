//! How a salvage is done.
use record_core::Bytes;

/// How a salvage is done.
#[derive(Debug, Drop)]
pub struct Options {
    /// Bytes of a page, a power of two from 512 to 65536; none where the file tells it.
    pub page_size: Option<u32>,
    /// Reserved bytes at the end of each page, which leave at least 480; none where the file tells it.
    pub reserved: Option<u8>,
    /// Free pages are salvaged like any other page.
    pub freelist_corrupt: bool,
    /// The name of the table of lost cells, which gets a number behind it where the schema has the name: not
    /// empty, and not beginning with `sqlite_` in any case of its letters.
    pub lost: Bytes,
    /// The most bytes of an input, at most 2^28.
    pub input_limit: u64,
    /// The most load of a database that is written, at most 2^35 (docs/FORMAT.md, "Layout of a written
    /// file").
    pub load_limit: u64,
}
