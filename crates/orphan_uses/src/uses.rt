//! The uses of the pages that are left, in order.
ghost use Rattle.std.specs.Prelude.{◌≡◌, ◌≤◌, ◌+◌, ◌*◌, length, map, IfOk, IfSome, is_ok, if◌then◌else◌};
ghost use Rattle.std.specs.List.{AllByRecursion};
ghost use Rattle.page_access.specs.Cache.{HasAll, IsCacheOf};
ghost use Rattle.page_access.specs.Files.{file_of};
ghost use Rattle.page_access.specs.Outside.{HasCauseOf, KeepsSource};
ghost use Rattle.page_access.specs.declared.outside.ReadFault.TheVariants as faults;
ghost use Rattle.page_lists.specs.Lists.{IsPartOf};
ghost use Rattle.page_lists.specs.Table.{unused};
ghost use Rattle.page_walk.specs.InTurn.{IsSmallTurn};
ghost use Rattle.page_walk.specs.Turns.{ReadsEach};
ghost use Rattle.page_walk.specs.Walk.{kinds_of};
ghost use Rattle.tree_uses.specs.Trees.{turns_of};
ghost use Rattle.orphan_trees.specs.Orphans.{IsOrphanOf, orphan_of, pages_in};
ghost use Rattle.use_order.specs.Order.{UsesMove};
ghost use Rattle.orphan_uses.specs.Order.{AreOrphans, HaveOrphanTurns, after_orphans};

use crate::free::take_free;
use crate::turns::read_orphans;
use orphan_trees::{OrphanTree, orphans};
use page_access::{Geometry, PageCache, ReadFault, Source};
use page_lists::PageTable;
use page_walk::PageKinds;
use std::alloc::Global;
use tree_uses::TreeTurns;

/// The orphan trees of a file, and what becomes of the cells of each.
#[derive(Debug, Drop)]
pub struct OrphanUses {
    /// The trees, in the order of their roots.
    pub trees: Vec<OrphanTree>,
    /// What becomes of the cells of each tree.
    pub turns: Vec<TreeTurns>,
}

/// Gives the pages that have no use yet their uses, in order: the freelist from `first_trunk` on, where it is
/// looked at; the orphan trees; and the overflow chains of their cells. Each page gets one use at most; it moves
/// to the list of its use. After an error some pages have moved.
pub fn find_orphans<S: Source>(
    alloc: Global,
    src: &mut S,
    geo: &Geometry,
    cache: &mut PageCache,
    survey: &PageKinds,
    table: &mut PageTable,
    first_trunk: Option<u32>,
) -> Result<OrphanUses, ReadFault>
    requires same_pages { table.old.pages ≡ geo.now.pages }
    requires lists { 7 ≤ length table.old.lists }
    requires surveyed { length survey.now ≡ geo.now.pages }
    requires kinds { IfSome (S.bytes src.old)
        (λ all. survey.now ≡ kinds_of (file_of all geo.now)) }
    requires cached { IsCacheOf (S.bytes src.old) geo.now cache.old }
    ensures order { IfOk result (λ u. IfSome (S.bytes src.old) (λ all.
        AreOrphans (file_of all geo.now) (unused table.old) first_trunk
        (map orphan_of u.trees.items) (map turns_of u.turns.items))) }
    ensures table { IfOk result (λ u. IfSome (S.bytes src.old) (λ all.
        table.new ≡ after_orphans (file_of all geo.now) table.old first_trunk
        (map orphan_of u.trees.items) (map turns_of u.turns.items))) }
    // told or not: unused pages of the file, each once
    ensures part { IfOk result
        (λ u. IsPartOf (pages_in (map orphan_of u.trees.items)) (unused table.old)) }
    ensures bound { IfOk result
        (λ u. AllByRecursion (IsOrphanOf geo.now.pages) (map orphan_of u.trees.items)) }
    ensures turns { IfOk result (λ u. AllByRecursion
        (AllByRecursion (IsSmallTurn geo.now.usable geo.now.pages)) (map turns_of u.turns.items)) }
    ensures len { IfOk result (λ u. length u.turns.items ≡ length u.trees.items) }
    ensures each { IfOk result
        (λ u. HaveOrphanTurns (map orphan_of u.trees.items) (map turns_of u.turns.items)) }
    ensures moves { UsesMove table.old table.new }
    ensures cause { HasCauseOf faults.Source (S.faults src.old) (S.faults src.new) result }
    ensures kept { KeepsSource S.bytes S.attached S.faults S.reads src.old src.new }
    // there are three reads at most for each page that was unused
    ensures reads { ReadsEach (S.bytes src.old) geo.now table.old table.new
        (S.reads src.old) (S.reads src.new)
        (2 * length (unused table.old) + (if is_ok result then 0 else 1)) }
    ensures cached { IsCacheOf (S.bytes src.old) geo.now cache.new }
    // where the cache has all pages, each page that gets a use is read once at most
    ensures full { HasAll cache.old → HasAll cache.new × ReadsEach (S.bytes src.old) geo.now
        table.old table.new (S.reads src.old) (S.reads src.new) (if is_ok result then 0 else 1) }
{
    // tells that the table is a partition
    let _pages = table.pages();
    take_free(alloc, src, geo, table, first_trunk)?;
    let trees = orphans(alloc, src, geo, cache, survey, table)?;
    let turns = read_orphans(alloc, src, geo, cache, table, &trees)?;
    Ok(OrphanUses { trees, turns })
}
