//! A tree of the pages 3, 4 and 5, made by hand: page 3 has no cells, page 4 has a row, and the overflow chain of the
//! only cell of page 5 breaks.
ghost use Rattle.std.specs.Prelude.{◌≡◌, IfOk, length, map};
ghost use Rattle.std.specs.List.{AllByRecursion};
ghost use Rattle.page_walk.specs.InTurn.{turn_of};
ghost use Rattle.salvaged_tables.specs.Steps.{AreFew};
ghost use Rattle.tree_uses.specs.Trees.{turns_of};

use crate::orphan_cells;
use orphan_trees::OrphanTree;
use page_walk::{CellCause, CellOutcome, PageTurn, Place, TakenCell};
use record_core::Value;
use report_text::ReportLine;
use std::alloc::{AllocError, Global};
use std::test::Fail;
use tree_uses::TreeTurns;

// The cell 0 of page 4: a rowid and one whole number.
fn row(alloc: Global) -> Result<CellOutcome, AllocError> {
    let mut fields = Vec::new(alloc);
    fields.push(Value::Whole(5))?;
    Ok(CellOutcome::Taken(TakenCell {
        place: Place { page: 4, cell: 0 },
        rowid: Some(9),
        chain: Vec::new(alloc),
        fields,
    }))
}

fn turns(alloc: Global) -> Result<TreeTurns, AllocError>
    ensures { IfOk result (λ t. AreFew (turns_of t)) }
{
    let mut read = Vec::new(alloc);
    read.push(row(alloc)?)?;
    let mut broken = Vec::new(alloc);
    broken.push(CellOutcome::Unread {
        cell: 0,
        rowid: Some(2),
        cause: CellCause::Chain,
        chain: Vec::new(alloc),
    })?;
    let mut turns = Vec::new(alloc);
    turns.push(PageTurn {
        page: 3,
        outcomes: Vec::new(alloc),
    })?;
    turns.push(PageTurn {
        page: 4,
        outcomes: read,
    })?;
    turns.push(PageTurn {
        page: 5,
        outcomes: broken,
    })?;
    Ok(TreeTurns { turns })
}

#[test]
fn the_cells_of_an_orphan_tree_are_lost_or_told(rt: HostRuntime) -> Result<(), Fail> {
    let alloc = rt.alloc();
    let pages = [3, 4, 5].to_vec(alloc)?;
    let mut trees = Vec::new(alloc);
    trees.push(OrphanTree { root: 3, pages })?;
    let mut cells = Vec::new(alloc);
    cells.push(turns(alloc)?)?;
    let found = orphan_cells(alloc, &trees, cells)?;
    assert_eq!(rt; found.lost.len(), 1);
    assert_eq!(rt; found.lost[0].root, 3);
    assert_eq!(rt; found.lost[0].cell.place, Place { page: 4, cell: 0 });
    assert_eq!(rt; found.failed.len(), 1);
    assert_eq!(rt; found.failed[0].root, 3);
    assert_eq!(rt; found.failed[0].place, Place { page: 5, cell: 0 });
    assert_eq!(rt; found.lines.len(), 2);
    assert!(rt; matches!(found.lines[0], ReportLine::Orphans { trees: 1, pages: 3 }));
    assert!(rt;
        matches!(
            found.lines[1],
            ReportLine::Cells {
                page: 5,
                count: 1,
                first: 0,
                cause: CellCause::Chain,
            }
        )
    );
    Ok(())
}

#[test]
fn without_orphan_trees_there_is_their_line_alone(rt: HostRuntime) -> Result<(), Fail> {
    let alloc = rt.alloc();
    let found = orphan_cells(alloc, &[], Vec::new(alloc))?;
    assert_eq!(rt; found.lost.len(), 0);
    assert_eq!(rt; found.lines.len(), 1);
    assert!(rt; matches!(found.lines[0], ReportLine::Orphans { trees: 0, pages: 0 }));
    Ok(())
}
