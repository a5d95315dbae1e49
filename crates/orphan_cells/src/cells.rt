//! The cells of orphan trees.
ghost use Rattle.std.specs.Prelude.{◌≡◌, ℕ, length, map, IfOk, OnOk};
ghost use Rattle.std.specs.List.{AllByRecursion};
ghost use Rattle.page_walk.specs.InTurn.{IsSmallTurn, turn_of};
ghost use Rattle.tree_uses.specs.Trees.{turns_of};
ghost use Rattle.orphan_trees.specs.Orphans.{IsOrphanOf, orphan_of};
ghost use Rattle.salvaged_tables.specs.Steps.{AreFew};
ghost use Rattle.orphan_cells.specs.Bounds.{AreOrphansOn, HaveFewFields};
ghost use Rattle.orphan_cells.specs.Orphaned.{AreOrphanCells, page_count};
ghost use Rattle.orphan_cells.specs.Steps.{GainsTree};

use orphan_trees::OrphanTree;
use page_walk::PageTurn;
use report_text::ReportLine;
use salvaged_tables::{FailedEntry, LostCell, add_failed, add_lost};
use std::alloc::{AllocError, Global};
use table_parts::{TableCells, cells_of, unread_lines};
use tree_uses::TreeTurns;

/// What the cells of orphan trees give.
#[derive(Debug, Drop)]
pub struct OrphanCells {
    /// The readable cells, tree after tree, page after page in cell order: no table has them.
    pub lost: Vec<LostCell>,
    /// The cells that are not read for their chain or their record, in the same order.
    pub failed: Vec<FailedEntry>,
    /// The lines of the report: how many trees and pages there are, and the pages with unread cells.
    pub lines: Vec<ReportLine>,
}

/// What the cells of these orphan trees give, tree after tree. `turns` are the cells on the pages of each tree;
/// they are moved.
pub fn orphan_cells(
    alloc: Global,
    trees: &[OrphanTree],
    turns: Vec<TreeTurns>,
) -> Result<OrphanCells, AllocError>
    requires turns { length turns.items ≡ length trees.now }
    requires few { AllByRecursion AreFew (map turns_of turns.items) }
    ensures cells { IfOk result
        (AreOrphanCells (map orphan_of trees.now) (map turns_of turns.items)) }
    ensures bounds { (usable pages : ℕ) → AllByRecursion (IsOrphanOf pages) (map orphan_of trees.now)
        → AllByRecursion (AllByRecursion (IsSmallTurn usable pages)) (map turns_of turns.items)
        → IfOk result (AreOrphansOn pages) }
    ensures fields { (usable pages : ℕ)
        → AllByRecursion (AllByRecursion (IsSmallTurn usable pages)) (map turns_of turns.items)
        → IfOk result (λ v. HaveFewFields v.lost.items) }
{
    let mut found = OrphanCells {
        lost: Vec::new(alloc),
        failed: Vec::new(alloc),
        lines: Vec::new(alloc),
    };
    let pages = count_pages(trees);
    found.lines.push(ReportLine::Orphans {
        trees: trees.len() as u64,
        pages,
    })?;
    let mut left = turns.into_iter();
    for tree in trees {
        let Some(cells) = left.next() else {
            return Ok(found);
        };
        add_tree(alloc, tree.root, cells.turns, &mut found)?;
    }
    Ok(found)
}

// The number of pages of the trees.
fn count_pages(trees: &[OrphanTree]) -> u64
    ensures { result ≡ page_count (map orphan_of trees.now) }
{
    let mut pages: u64 = 0;
    for tree in trees {
        pages = pages.saturating_add(tree.pages.len() as u64);
    }
    pages
}

// Adds what the cells of a tree give.
fn add_tree(
    alloc: Global,
    root: u32,
    turns: Vec<PageTurn>,
    found: &mut OrphanCells,
) -> Result<(), AllocError>
    requires { AreFew (map turn_of turns.items) }
    ensures { OnOk result (GainsTree root (map turn_of turns.items) found.old found.new) }
{
    add_failed(alloc, root, &turns, &mut found.failed)?;
    let TableCells { cells, notes } = cells_of(alloc, turns)?;
    let mut lines = unread_lines(alloc, &notes)?;
    found.lines.append(&mut lines)?;
    add_lost(root, cells, &mut found.lost)
}
