//! Tables as they are written.

use crate::shapes::TableShape;
use record_core::{Bytes, Value};

/// A row: its rowid, where the table has them, and the values of its record.
#[derive(Debug, Drop)]
pub struct OutRow {
    pub rowid: Option<i64>,
    pub fields: Vec<Value>,
}

/// A table with its text and its rows.
#[derive(Debug, Drop)]
pub struct OutTable {
    pub name: Bytes,
    pub text: Bytes,
    pub shape: TableShape,
    pub rows: Vec<OutRow>,
}
