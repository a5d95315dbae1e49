//! Why a payload holds no record.

use thiserror::Error;

/// Why `read_record` gave no values: the first of these, in this order, that holds.
#[derive(Clone, Copy, Debug, PartialEq, Eq, Error)]
pub enum RecordFault {
    /// The header's size is no varint, too small or too large, or a serial type does not end in
    /// the header.
    #[error("the header of the record is no header")]
    HeaderBad,
    /// The header has over 1,996 serial types.
    #[error("the record has over 1996 fields")]
    TooManyFields,
    /// A serial type is 10 or 11.
    #[error("the record has a reserved serial type")]
    Reserved,
    /// The values are longer than the bytes after the header.
    #[error("the record ends before its last value does")]
    BodyShort,
    /// Memory ran out.
    #[error("memory ran out")]
    Memory,
}
