//! What becomes of the cells of a table.

use page_walk::{Place, TakenCell};

/// Why a cell is no row of its table.
#[derive(Clone, Copy, Debug, PartialEq, Eq)]
pub enum Fate {
    /// A row before it, which is kept, has the same fields by a key.
    Clash {
        /// Where that row stands.
        earlier: Place,
        /// The number of the key, the least by which it clashes; 0 for the rowid, or the primary key
        /// WITHOUT ROWID.
        key: u32,
    },
    /// It has too many fields, or a key column has none, or a field of the primary key is NULL.
    Misfit,
}

/// A cell that is no row of its table.
#[derive(Debug, Drop)]
pub struct LeftCell {
    pub cell: TakenCell,
    pub fate: Fate,
}

/// The cells of a table, sorted out.
#[derive(Debug, Drop)]
pub enum Chosen {
    Rows {
        /// Those that are rows, in the order of rowid or primary key.
        rows: Vec<TakenCell>,
        /// The others, in cell order.
        left: Vec<LeftCell>,
    },
    /// A cell that fits has a key field that cannot be ordered.
    Unordered {
        /// All cells, as they were given.
        cells: Vec<TakenCell>,
        /// The first such cell.
        place: Place,
    },
}
