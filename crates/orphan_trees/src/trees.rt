//! Orphan trees.
ghost use Rattle.std.specs.Prelude.{◌≡◌, ◌≤◌, length, map, IfOk, IfSome, is_ok, if◌then◌else◌};
ghost use Rattle.std.specs.List.{AllByRecursion};
ghost use Rattle.page_access.specs.Cache.{HasAll, IsCacheOf};
ghost use Rattle.page_access.specs.Files.{file_of};
ghost use Rattle.page_access.specs.Outside.{HasCauseOf, KeepsSource};
ghost use Rattle.page_access.specs.declared.outside.ReadFault.TheVariants as faults;
ghost use Rattle.page_lists.specs.Lists.{IsPartOf};
ghost use Rattle.page_lists.specs.Table.{Moves, MovesFront, all_moved, unused};
ghost use Rattle.page_walk.specs.Walk.{kinds_of};
ghost use Rattle.orphan_trees.specs.Orphans.{IsOrphanOf, ReadsOrphans, orphan_of, orphan_trees, pages_in};

use crate::marks::mark_children;
use crate::passes::walk_unmarked;
use page_access::{Geometry, PageCache, ReadFault, Source};
use page_lists::PageTable;
use page_walk::PageKinds;
use std::alloc::Global;

/// A tree of orphan pages: its root, and its pages, level by level, which begin with the root. Pages count
/// from 1.
#[derive(Debug, Drop)]
pub struct OrphanTree {
    pub root: u32,
    pub pages: Vec<u32>,
}

/// The trees of the orphan pages, which are the unused pages that have a shape. The roots are first, rising,
/// the orphan pages that are a child of no orphan page; and then, as long as orphan pages are left, the least
/// one left. The pages move to the list of orphan pages. After an error the first of them, however many, have
/// moved.
pub fn orphans<S: Source>(
    alloc: Global,
    src: &mut S,
    geo: &Geometry,
    cache: &mut PageCache,
    survey: &PageKinds,
    table: &mut PageTable,
) -> Result<Vec<OrphanTree>, ReadFault>
    requires same_pages { table.old.pages ≡ geo.now.pages }
    requires lists { 7 ≤ length table.old.lists }
    requires surveyed { length survey.now ≡ geo.now.pages }
    requires kinds { IfSome (S.bytes src.old)
        (λ all. survey.now ≡ kinds_of (file_of all geo.now)) }
    requires cached { IsCacheOf (S.bytes src.old) geo.now cache.old }
    ensures value { IfOk result (λ v. IfSome (S.bytes src.old) (λ all.
        map orphan_of v.items ≡ orphan_trees (file_of all geo.now) (unused table.old))) }
    ensures moved { IfOk result
        (λ v. table.new ≡ all_moved (pages_in (map orphan_of v.items)) 6 table.old) }
    // told or not: unused pages of the file, each once
    ensures part { IfOk result
        (λ v. IsPartOf (pages_in (map orphan_of v.items)) (unused table.old)) }
    ensures bound { IfOk result
        (λ v. AllByRecursion (IsOrphanOf geo.now.pages) (map orphan_of v.items)) }
    // at every exit
    ensures front { IfSome (S.bytes src.old) (λ all. MovesFront
        (pages_in (orphan_trees (file_of all geo.now) (unused table.old))) 6 table.old table.new) }
    ensures cause { HasCauseOf faults.Source (S.faults src.old) (S.faults src.new) result }
    ensures kept { KeepsSource S.bytes S.attached S.faults S.reads src.old src.new }
    ensures moves { Moves 6 table.old table.new }
    ensures reads { ReadsOrphans (S.bytes src.old) geo.now (unused table.old)
        (S.reads src.old) (S.reads src.new) (if is_ok result then 0 else 1) }
    ensures cached { IsCacheOf (S.bytes src.old) geo.now cache.new }
    // where the cache has all pages, none is read
    ensures full { HasAll cache.old → HasAll cache.new × (src.new ≡ src.old) }
{
    // tells that the table is a partition
    let _pages = table.pages();
    let mut marks = mark_children(alloc, src, geo, cache, survey, table)?;
    let mut trees = walk_unmarked(alloc, src, geo, cache, survey, table, &marks)?;
    marks.fill(false);
    let mut later = walk_unmarked(alloc, src, geo, cache, survey, table, &marks)?;
    trees.append(&mut later)?;
    Ok(trees)
}
