//! The cells that are not read.
ghost use Rattle.std.specs.Prelude.{◌≡◌, ◌++◌, map, OnOk};
ghost use Rattle.std.specs.List.{flat_map};
ghost use Rattle.page_walk.specs.Cells.{outcome_of};
ghost use Rattle.page_walk.specs.InTurn.{turn_of};
ghost use Rattle.salvaged_tables.specs.Fates.{failed_on, failed_one, has_failed};
ghost use Rattle.salvaged_tables.specs.Salvaged.{failed_seen};

use crate::places::FailedEntry;
use page_walk::{CellCause, CellOutcome, PageTurn, Place};
use std::alloc::{AllocError, Global};

/// Appends the cells of a tree with this root page that are not read for their chain or their record, page by page in
/// cell order.
pub fn add_failed(
    alloc: Global,
    root: u32,
    turns: &[PageTurn],
    to: &mut Vec<FailedEntry>,
) -> Result<(), AllocError>
    ensures { OnOk result (map failed_seen to.new.items
        ≡ map failed_seen to.old.items ++ flat_map (failed_on root) (map turn_of turns.now)) }
{
    for turn in turns {
        add_failed_on(alloc, root, turn, to)?;
    }
    Ok(())
}

// The same of a page.
fn add_failed_on(
    alloc: Global,
    root: u32,
    turn: &PageTurn,
    to: &mut Vec<FailedEntry>,
) -> Result<(), AllocError>
    ensures { OnOk result (map failed_seen to.new.items
        ≡ map failed_seen to.old.items ++ failed_on root (turn_of turn.now)) }
{
    for outcome in turn.outcomes.as_slice() {
        add_failed_cell(alloc, root, turn.page, outcome, to)?;
    }
    Ok(())
}

// The same of a cell.
fn add_failed_cell(
    alloc: Global,
    root: u32,
    page: u32,
    outcome: &CellOutcome,
    to: &mut Vec<FailedEntry>,
) -> Result<(), AllocError>
    ensures { OnOk result (map failed_seen to.new.items
        ≡ map failed_seen to.old.items ++ failed_one root page (outcome_of outcome.now)) }
{
    if let CellOutcome::Unread {
        cell,
        rowid,
        cause,
        chain,
    } = outcome
    {
        if has_failed(*cause) {
            to.push(FailedEntry {
                place: Place { page, cell: *cell },
                root,
                rowid: *rowid,
                chain: Vec::from_slice(alloc, chain)?,
                cause: *cause,
            })?;
        }
    }
    Ok(())
}

fn has_failed(cause: CellCause) -> bool
    ensures { result ≡ has_failed cause }
{
    matches!(cause, CellCause::Chain | CellCause::BadRecord)
}
