//! The rows of a table, its clashes and its misfits.

ghost use Rattle.std.specs.Prelude.{◌≡◌, ◌<◌, List, IfOk, IsErr, map, Option, vec_len};
ghost use Rattle.table_shape.specs.Keys.{keys_of};
ghost use Rattle.table_shape.specs.Seen.{shape_seen};
ghost use Rattle.page_walk.specs.Cells.{row_of};
ghost use Rattle.table_fill.specs.Chosen.{IsFilled, clash_seen, clashes_in, left_seen, misfits_in};

use crate::chooses::choose_rows;
use crate::fates::{Chosen, Fate, LeftCell};
use page_walk::{Place, TakenCell};
use std::alloc::{AllocError, Global};
use table_shape::TableShape;

/// A cell that fits, but clashes with a row before it.
#[derive(Debug, Drop)]
pub struct Clash {
    pub cell: TakenCell,
    /// Where that row stands.
    pub earlier: Place,
    /// The least key by which they clash; 0 for the rowid, or the primary key WITHOUT ROWID.
    pub key: u32,
}

/// The cells of a table in three lists.
#[derive(Debug, Drop)]
pub enum Filled {
    Built {
        /// The rows, in the order of rowid or primary key.
        rows: Vec<TakenCell>,
        /// In cell order.
        clashes: Vec<Clash>,
        /// The cells that do not fit, in cell order.
        misfits: Vec<TakenCell>,
    },
    /// A cell that fits has a key field that cannot be ordered.
    Unordered {
        /// All cells, as they were given.
        cells: Vec<TakenCell>,
        /// The first such cell.
        place: Place,
    },
}

/// The rows of a table, its clashes and its misfits, as [`choose_rows`] sorts them out.
pub fn fill(alloc: Global, shape: &TableShape, cells: Vec<TakenCell>) -> Result<Filled, AllocError>
    ensures exact { IfOk result (IsFilled (keys_of (shape_seen shape.now)) (map row_of cells.items)) }
    // Without cells no memory is taken.
    ensures memory { IsErr result → 0 < vec_len cells }
{
    match choose_rows(alloc, shape, cells)? {
        Chosen::Rows { rows, left } => {
            let (clashes, misfits) = split(alloc, left)?;
            Ok(Filled::Built {
                rows,
                clashes,
                misfits,
            })
        }
        Chosen::Unordered { cells, place } => Ok(Filled::Unordered { cells, place }),
    }
}

// The clashes and the misfits.
fn split(alloc: Global, left: Vec<LeftCell>) -> Result<(Vec<Clash>, Vec<TakenCell>), AllocError>
    ensures clashes { IfOk result (λ r. map clash_seen r.0.items ≡ clashes_in (map left_seen left.items)) }
    ensures misfits { IfOk result (λ r. map row_of r.1.items ≡ misfits_in (map left_seen left.items)) }
    ensures memory { IsErr result → 0 < vec_len left }
{
    let mut clashes = Vec::new(alloc);
    let mut misfits = Vec::new(alloc);
    'split: for LeftCell { cell, fate } in left {
        match fate {
            Fate::Clash { earlier, key } => clashes.push(Clash { cell, earlier, key })?,
            Fate::Misfit => misfits.push(cell)?,
        }
    }
    Ok((clashes, misfits))
}
