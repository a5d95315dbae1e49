//! The cells of a table.
ghost use Rattle.std.specs.Prelude.{◌≡◌, ◌≤◌, ◌++◌, length, map, IfOk, OnOk};
ghost use Rattle.std.specs.List.{AllByRecursion, flat_map};
ghost use Rattle.page_walk.specs.Cells.{row_of};
ghost use Rattle.page_walk.specs.InTurn.{turn_of};
ghost use Rattle.page_walk.specs.Rows.{rows_of};
ghost use Rattle.raw_schema.specs.Schema.{cells_in, noted};

use page_walk::{PageNotes, PageTurn, TakenCell, sort_outcomes};
use std::alloc::{AllocError, Global};

/// The readable cells of a table's tree, in page order of the walk and then cell order, and what is noted of the
/// pages with other cells, by number.
#[derive(Debug, Drop)]
pub struct TableCells {
    pub cells: Vec<TakenCell>,
    pub notes: Vec<(u32, PageNotes)>,
}

/// The cells of these pages.
pub fn cells_of(alloc: Global, turns: Vec<PageTurn>) -> Result<TableCells, AllocError>
    requires { AllByRecursion (λ t. length t.outcomes.items ≤ 32768) turns.items }
    ensures cells { IfOk result (λ v. map row_of v.cells.items ≡ cells_in (map turn_of turns.items)) }
    ensures notes { IfOk result (λ v. v.notes.items ≡ flat_map noted (map turn_of turns.items)) }
{
    let mut cells = Vec::new(alloc);
    let mut notes = Vec::new(alloc);
    for turn in turns {
        add_turn(turn, &mut cells, &mut notes)?;
    }
    Ok(TableCells { cells, notes })
}

// Appends the readable cells of a page, and what is noted of the others.
fn add_turn(
    turn: PageTurn,
    cells: &mut Vec<TakenCell>,
    notes: &mut Vec<(u32, PageNotes)>,
) -> Result<(), AllocError>
    requires { length turn.outcomes.items ≤ 32768 }
    ensures cells { OnOk result
        (map row_of cells.new.items ≡ map row_of cells.old.items ++ rows_of (turn_of turn).1) }
    ensures notes { OnOk result (notes.new.items ≡ notes.old.items ++ noted (turn_of turn)) }
{
    let PageTurn { page, outcomes } = turn;
    let unread = sort_outcomes(outcomes, cells)?;
    if unread.unread > 0 {
        notes.push((page, unread))?;
    }
    Ok(())
}
