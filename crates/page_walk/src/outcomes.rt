//! What becomes of a cell.
use crate::CellCause;
use record_core::Value;

/// A cell of a file: its page, counted from 1, and its number there, counted from 0.
#[derive(Clone, Copy, Debug, PartialEq, Eq)]
pub struct Place {
    pub page: u32,
    pub cell: u32,
}

/// A cell that is read.
#[derive(Debug, Drop)]
pub struct TakenCell {
    pub place: Place,
    /// The rowid on a table leaf; none on an index page.
    pub rowid: Option<i64>,
    /// The overflow pages of its payload, in order.
    pub chain: Vec<u32>,
    /// The values of its record.
    pub fields: Vec<Value>,
}

/// What becomes of a cell.
#[derive(Debug, Drop)]
pub enum CellOutcome {
    /// It is read.
    Taken(TakenCell),
    /// It is not.
    Unread {
        /// Its number on its page, counted from 0.
        cell: u32,
        /// Its rowid where it is an accepted cell of a table leaf; else none.
        rowid: Option<i64>,
        cause: CellCause,
        /// The overflow pages that its payload took before that was known; none but for the causes
        /// `Chain` and `BadRecord`.
        chain: Vec<u32>,
    },
}
