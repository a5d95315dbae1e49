//! What becomes of a table.
ghost use Rattle.std.specs.Prelude.{◌≡◌, map, IfOk};
ghost use Rattle.page_walk.specs.Cells.{row_of};
ghost use Rattle.table_parts.specs.Parts.{IsPart};

use page_walk::TakenCell;
use report_text::UnreadCause;
use schema_texts::Reading;
use std::alloc::{AllocError, Global};
use table_fill::{Chosen, LeftCell, choose_rows};
use table_shape::TableShape;

/// A table of the schema and its cells.
#[derive(Debug, Drop)]
pub enum TablePart {
    /// It is built.
    Built {
        shape: TableShape,
        /// Its rows, in the order of rowid or primary key.
        rows: Vec<TakenCell>,
        /// The other cells, in cell order, each with its fate.
        left: Vec<LeftCell>,
    },
    /// It is not built.
    Unread {
        cause: UnreadCause,
        /// All its cells, in cell order.
        cells: Vec<TakenCell>,
    },
}

/// What becomes of a table with this text and these cells, given in cell order.
pub fn part_of(
    alloc: Global,
    reading: Reading,
    cells: Vec<TakenCell>,
) -> Result<TablePart, AllocError>
    ensures { IfOk result (IsPart reading (map row_of cells.items)) }
{
    match reading {
        Reading::Shape(shape) => match choose_rows(alloc, &shape, cells)? {
            Chosen::Rows { rows, left } => Ok(TablePart::Built { shape, rows, left }),
            Chosen::Unordered { cells, place } => Ok(TablePart::Unread {
                cause: UnreadCause::Unordered(place),
                cells,
            }),
        },
        Reading::Unread { cause, .. } => Ok(TablePart::Unread { cause, cells }),
    }
}
