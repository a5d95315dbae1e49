//! The cells of the pages of orphan trees, at their turns.
ghost use Rattle.std.specs.Prelude.{◌≡◌, ◌≤◌, ◌+◌, length, map, IfOk, IfSome, is_ok, if◌then◌else◌};
ghost use Rattle.std.specs.List.{AllByRecursion, flat_map};
ghost use Rattle.page_access.specs.Cache.{HasAll, IsCacheOf};
ghost use Rattle.page_access.specs.Files.{file_of};
ghost use Rattle.page_access.specs.Outside.{HasCauseOf, KeepsSource};
ghost use Rattle.page_access.specs.declared.outside.ReadFault.TheVariants as faults;
ghost use Rattle.page_lists.specs.Table.{Moves, all_moved, unused};
ghost use Rattle.page_walk.specs.InTurn.{IsSmallTurn};
ghost use Rattle.page_walk.specs.Turns.{ReadsEach};
ghost use Rattle.tree_uses.specs.Trees.{chains_in, turns_of};
ghost use Rattle.orphan_trees.specs.Orphans.{IsOrphanOf, orphan_of, pages_in};
ghost use Rattle.orphan_uses.specs.Order.{HaveOrphanTurns, orphan_turns, turns_at};

use orphan_trees::OrphanTree;
use page_access::{Geometry, PageCache, ReadFault, Source};
use page_lists::PageTable;
use page_walk::read_turns;
use std::alloc::Global;
use tree_uses::TreeTurns;

/// What becomes of the cells on the pages of the orphan trees, which take their turns tree by tree, page by page
/// and in cell order. The overflow pages that they take move to the list of overflow pages. After an error some
/// pages have moved.
pub(crate) fn read_orphans<S: Source>(
    alloc: Global,
    src: &mut S,
    geo: &Geometry,
    cache: &mut PageCache,
    table: &mut PageTable,
    trees: &[OrphanTree],
) -> Result<Vec<TreeTurns>, ReadFault>
    requires trees { AllByRecursion (IsOrphanOf geo.now.pages) (map orphan_of trees.now) }
    requires same_pages { table.old.pages ≡ geo.now.pages }
    requires lists { 7 ≤ length table.old.lists }
    requires cached { IsCacheOf (S.bytes src.old) geo.now cache.old }
    ensures value { IfOk result (λ v. IfSome (S.bytes src.old) (λ all. map turns_of v.items
        ≡ orphan_turns (file_of all geo.now) (map orphan_of trees.now) (unused table.old))) }
    ensures moved { IfOk result (λ v. table.new
        ≡ all_moved (flat_map chains_in (map turns_of v.items)) 4 table.old) }
    ensures small { IfOk result (λ v. AllByRecursion
        (AllByRecursion (IsSmallTurn geo.now.usable geo.now.pages)) (map turns_of v.items)) }
    ensures len { IfOk result (λ v. length v.items ≡ length trees.now) }
    ensures each { IfOk result
        (λ v. HaveOrphanTurns (map orphan_of trees.now) (map turns_of v.items)) }
    ensures cause { HasCauseOf faults.Source (S.faults src.old) (S.faults src.new) result }
    ensures kept { KeepsSource S.bytes S.attached S.faults S.reads src.old src.new }
    ensures moves { Moves 4 table.old table.new }
    ensures reads { ReadsEach (S.bytes src.old) geo.now table.old table.new
        (S.reads src.old) (S.reads src.new)
        (length (pages_in (map orphan_of trees.now)) + (if is_ok result then 0 else 1)) }
    ensures cached { IsCacheOf (S.bytes src.old) geo.now cache.new }
    ensures full { HasAll cache.old → HasAll cache.new × ReadsEach (S.bytes src.old) geo.now
        table.old table.new (S.reads src.old) (S.reads src.new) (if is_ok result then 0 else 1) }
{
    let mut turns = Vec::with_capacity(alloc, trees.len())?;
    for tree in trees {
        let cells = read_orphan(alloc, src, geo, cache, table, tree)?;
        turns.push(cells)?;
    }
    Ok(turns)
}

// The same of one tree.
fn read_orphan<S: Source>(
    alloc: Global,
    src: &mut S,
    geo: &Geometry,
    cache: &mut PageCache,
    table: &mut PageTable,
    tree: &OrphanTree,
) -> Result<TreeTurns, ReadFault>
    requires tree { IsOrphanOf geo.now.pages (orphan_of tree.now) }
    requires same_pages { table.old.pages ≡ geo.now.pages }
    requires lists { 7 ≤ length table.old.lists }
    requires cached { IsCacheOf (S.bytes src.old) geo.now cache.old }
    ensures value { IfOk result (λ t. IfSome (S.bytes src.old) (λ all.
        turns_of t ≡ turns_at (file_of all geo.now) (orphan_of tree.now) (unused table.old))) }
    ensures moved { IfOk result (λ t. table.new ≡ all_moved (chains_in (turns_of t)) 4 table.old) }
    ensures small { IfOk result
        (λ t. AllByRecursion (IsSmallTurn geo.now.usable geo.now.pages) (turns_of t)) }
    ensures len { IfOk result (λ t. length (turns_of t) ≡ length (orphan_of tree.now).pages) }
    ensures cause { HasCauseOf faults.Source (S.faults src.old) (S.faults src.new) result }
    ensures kept { KeepsSource S.bytes S.attached S.faults S.reads src.old src.new }
    ensures moves { Moves 4 table.old table.new }
    ensures reads { ReadsEach (S.bytes src.old) geo.now table.old table.new
        (S.reads src.old) (S.reads src.new)
        (length (orphan_of tree.now).pages + (if is_ok result then 0 else 1)) }
    ensures cached { IsCacheOf (S.bytes src.old) geo.now cache.new }
    ensures full { HasAll cache.old → HasAll cache.new × ReadsEach (S.bytes src.old) geo.now
        table.old table.new (S.reads src.old) (S.reads src.new) (if is_ok result then 0 else 1) }
{
    let turns = read_turns(alloc, src, geo, cache, table, &tree.pages)?;
    Ok(TreeTurns { turns })
}
