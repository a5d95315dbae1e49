//! The columns of a table and its keys.

use key_order::Coll;
use record_core::Bytes;

/// A column of a table.
#[derive(Debug, Drop)]
pub struct Column {
    pub name: Bytes,
    /// The collation; none where the text names one that is not known.
    pub coll: Option<Coll>,
    /// Whether the column has REAL affinity (datatype3.html, 3.1).
    pub real: bool,
}

/// A constraint that has an automatic index of its own.
#[derive(Debug, Drop)]
pub struct Key {
    /// The numbers of the columns, counted from 0, in the order of the key.
    pub columns: Vec<u32>,
    /// The number that stands in the name of the index, counted from 1.
    pub number: u32,
}
