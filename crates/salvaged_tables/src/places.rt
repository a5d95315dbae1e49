//! Where rows come from, and what no table has.
use page_walk::{CellCause, Place, TakenCell};
use record_core::Bytes;

/// Where a row comes from: its cell, and the pages of its overflow chain, in order.
#[derive(Debug, Drop)]
pub struct Placed {
    pub place: Place,
    pub chain: Vec<u32>,
}

/// A readable cell that no table has, and the root page of its tree.
#[derive(Debug, Drop)]
pub struct LostCell {
    pub root: u32,
    pub cell: TakenCell,
}

/// A cell with a payload that is not read: its overflow chain breaks, or the payload has no record.
#[derive(Debug, Drop)]
pub struct FailedEntry {
    pub place: Place,
    /// The root page of its tree.
    pub root: u32,
    /// Its rowid where it is a cell of a table leaf.
    pub rowid: Option<i64>,
    /// The overflow pages that its payload took.
    pub chain: Vec<u32>,
    pub cause: CellCause,
}

/// A text of the script.
#[derive(Debug, Drop)]
pub struct ScriptText {
    /// The name of a table that is not built; none where the text makes an index, a view or a trigger.
    pub table: Option<Bytes>,
    pub text: Bytes,
}
