//! Readings of table rows.
use cell_reader::Kind;
use report_text::UnreadCause;
use table_shape::TableShape;

/// What the text of a table row says.
#[derive(Debug, Drop)]
pub enum Reading {
    /// The table has this shape, and is built unless a cell of it cannot be ordered.
    Shape(TableShape),
    /// The table is not built.
    Unread {
        /// The first cause that holds.
        cause: UnreadCause,
        /// The kind of the pages of its tree; none where it has no tree.
        kind: Option<Kind>,
    },
}

/// The reading of a table row.
#[derive(Debug, Drop)]
pub struct TableReading {
    /// The number of the row among the rows of the schema, counted from 0.
    pub row: u32,
    /// The number that the row gives as its root page.
    pub root: i64,
    pub reading: Reading,
}
