//! The cells of the pages of trees, at their turns.
ghost use Rattle.std.specs.Prelude.{◌≡◌, ◌≤◌, ◌+◌, length, map, take, drop, IfOk, IfSome, OnOk, is_ok, if◌then◌else◌};
ghost use Rattle.std.specs.List.{AllByRecursion, flat_map};
ghost use Rattle.std.specs.Vec.Iter.{into_iter_items};
ghost use Rattle.page_access.specs.Cache.{HasAll, IsCacheOf};
ghost use Rattle.page_access.specs.Files.{file_of};
ghost use Rattle.page_access.specs.Outside.{HasCauseOf, KeepsSource};
ghost use Rattle.page_access.specs.declared.outside.ReadFault.TheVariants as faults;
ghost use Rattle.page_lists.specs.Table.{Moves, all_moved, unused};
ghost use Rattle.page_walk.specs.InTurn.{IsSmallTurn, turn_of};
ghost use Rattle.page_walk.specs.Turns.{ReadsEach};
ghost use Rattle.tree_uses.specs.Trees.{HaveTurns, IsTreeOf, chains_in, pages_in, split_turns, tree_of, turns_in, turns_of};

use crate::walks::TreeUse;
use page_access::{Geometry, PageCache, ReadFault, Source};
use page_lists::PageTable;
use page_walk::{PageTurn, read_turns};
use std::alloc::{AllocError, Global};
use std::vec::IntoIter;

/// What becomes of the cells on the pages of a tree, page by page.
#[derive(Debug, Drop)]
pub struct TreeTurns {
    pub turns: Vec<PageTurn>,
}

/// What becomes of the cells on the pages of the trees, which take their turns tree by tree, page by page and
/// in cell order. The overflow pages that they take move to the list of overflow pages. After an error some
/// pages have moved.
pub fn read_trees<S: Source>(
    alloc: Global,
    src: &mut S,
    geo: &Geometry,
    cache: &mut PageCache,
    table: &mut PageTable,
    trees: &[TreeUse],
) -> Result<Vec<TreeTurns>, ReadFault>
    requires trees { AllByRecursion (IsTreeOf geo.now.pages) (map tree_of trees.now) }
    requires same_pages { table.old.pages ≡ geo.now.pages }
    requires lists { 7 ≤ length table.old.lists }
    requires cached { IsCacheOf (S.bytes src.old) geo.now cache.old }
    ensures value { IfOk result (λ v. IfSome (S.bytes src.old) (λ all.
        map turns_of v.items ≡ turns_in (file_of all geo.now) (map tree_of trees.now) (unused table.old))) }
    ensures moved { IfOk result (λ v. table.new
        ≡ all_moved (flat_map chains_in (map turns_of v.items)) 4 table.old) }
    ensures small { IfOk result (λ v. AllByRecursion
        (AllByRecursion (IsSmallTurn geo.now.usable geo.now.pages)) (map turns_of v.items)) }
    ensures len { IfOk result (λ v. length v.items ≡ length trees.now) }
    ensures each { IfOk result
        (λ v. HaveTurns (map tree_of trees.now) (map turns_of v.items)) }
    ensures cause { HasCauseOf faults.Source (S.faults src.old) (S.faults src.new) result }
    ensures kept { KeepsSource S.bytes S.attached S.faults S.reads src.old src.new }
    ensures moves { Moves 4 table.old table.new }
    ensures reads { ReadsEach (S.bytes src.old) geo.now table.old table.new
        (S.reads src.old) (S.reads src.new)
        (length (pages_in (map tree_of trees.now)) + (if is_ok result then 0 else 1)) }
    ensures cached { IsCacheOf (S.bytes src.old) geo.now cache.new }
    ensures full { HasAll cache.old → HasAll cache.new × ReadsEach (S.bytes src.old) geo.now
        table.old table.new (S.reads src.old) (S.reads src.new) (if is_ok result then 0 else 1) }
{
    let pages = pages_of(alloc, trees)?;
    let turns = read_turns(alloc, src, geo, cache, table, &pages)?;
    Ok(split_turns(alloc, trees, turns)?)
}

// The pages of the trees, tree after tree.
fn pages_of(alloc: Global, trees: &[TreeUse]) -> Result<Vec<u32>, AllocError>
    ensures { IfOk result (λ v. v.items ≡ pages_in (map tree_of trees.now)) }
{
    let mut pages = Vec::new(alloc);
    for tree in trees {
        pages.extend_from_slice(&tree.pages)?;
    }
    Ok(pages)
}

// The turns over the pages of the trees, tree by tree.
fn split_turns(
    alloc: Global,
    trees: &[TreeUse],
    turns: Vec<PageTurn>,
) -> Result<Vec<TreeTurns>, AllocError>
    ensures { IfOk result (λ v. map turns_of v.items
        ≡ split_turns (map tree_of trees.now) (map turn_of turns.items)) }
{
    let mut split = Vec::with_capacity(alloc, trees.len())?;
    let mut left = turns.into_iter();
    for tree in trees {
        split.push(next_turns(alloc, &mut left, tree.pages.len())?)?;
    }
    Ok(split)
}

// So many of the turns that are left.
fn next_turns(
    alloc: Global,
    left: &mut IntoIter<PageTurn>,
    count: usize,
) -> Result<TreeTurns, AllocError>
    ensures next { IfOk result
        (λ t. turns_of t ≡ take count (map turn_of (into_iter_items left.old))) }
    ensures left { OnOk result (map turn_of (into_iter_items left.new)
        ≡ drop count (map turn_of (into_iter_items left.old))) }
{
    let mut turns = Vec::with_capacity(alloc, count)?;
    while turns.len() < count {
        let Some(turn) = left.next() else {
            return Ok(TreeTurns { turns });
        };
        turns.push(turn)?;
    }
    Ok(TreeTurns { turns })
}
