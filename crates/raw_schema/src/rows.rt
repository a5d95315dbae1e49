//! Rows of the schema table.
use page_walk::Place;
use record_core::Bytes;

/// What a row of the schema describes (fileformat2.html, 2.6).
#[derive(Clone, Copy, Debug, PartialEq, Eq)]
pub enum SchemaKind {
    Table,
    Index,
    View,
    Trigger,
}

/// A row of the schema (fileformat2.html, 2.6).
#[derive(Debug, Drop)]
pub struct SchemaRow {
    /// What it describes.
    pub kind: SchemaKind,
    /// Its name.
    pub name: Bytes,
    /// The name of the table that it belongs to.
    pub tbl: Bytes,
    /// The number of its root page as it stands; 0 where there is none.
    pub root: i64,
    /// The text of its CREATE statement; an automatic index has none.
    pub sql: Option<Bytes>,
    /// The cell that holds the row.
    pub place: Place,
}
