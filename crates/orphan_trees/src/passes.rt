//! Walks from the pages of a file, rising.
ghost use Rattle.std.specs.Prelude.{◌≡◌, ◌≤◌, ◌∷◌, [], ◌++◌, length, map, IfOk, IfSome, OnOk, is_ok, if◌then◌else◌};
ghost use Rattle.std.specs.List.{AllByRecursion};
ghost use Rattle.page_access.specs.Cache.{HasAll, IsCacheOf};
ghost use Rattle.page_access.specs.Files.{file_of};
ghost use Rattle.page_access.specs.Outside.{HasCauseOf, KeepsSource};
ghost use Rattle.page_access.specs.declared.outside.ReadFault.TheVariants as faults;
ghost use Rattle.page_lists.specs.Lists.{IsPartOf};
ghost use Rattle.page_lists.specs.Table.{Moves, MovesFront, all_moved, unused};
ghost use Rattle.page_walk.specs.Turns.{ReadsEach};
ghost use Rattle.page_walk.specs.Walk.{kinds_of};
ghost use Rattle.orphan_trees.specs.Orphans.{IsOrphanOf, orphan_of, pages_in, tree_at, trees_at};
ghost use Rattle.orphan_trees.specs.Passes.{found_in, has_mark, roots_of};

use crate::ORPHAN_LIST;
use crate::trees::OrphanTree;
use page_access::{Geometry, PageCache, ReadFault, Source};
use page_lists::PageTable;
use page_walk::{PageKinds, walk_tree};
use std::alloc::{AllocError, Global};

/// The trees whose roots are, rising, the pages without a mark, each of the kind of its root; but not those
/// that have no pages.
pub fn walk_unmarked<S: Source>(
    alloc: Global,
    src: &mut S,
    geo: &Geometry,
    cache: &mut PageCache,
    survey: &PageKinds,
    table: &mut PageTable,
    marks: &[bool],
) -> Result<Vec<OrphanTree>, ReadFault>
    requires same_pages { table.old.pages ≡ geo.now.pages }
    requires lists { 7 ≤ length table.old.lists }
    requires surveyed { length survey.now ≡ geo.now.pages }
    requires marks { length marks.now ≡ geo.now.pages }
    requires kinds { IfSome (S.bytes src.old)
        (λ all. survey.now ≡ kinds_of (file_of all geo.now)) }
    requires cached { IsCacheOf (S.bytes src.old) geo.now cache.old }
    ensures value { IfOk result (λ v. IfSome (S.bytes src.old) (λ all. map orphan_of v.items
        ≡ found_in (trees_at (file_of all geo.now) (roots_of marks.now geo.now.pages) (unused table.old)))) }
    ensures moved { IfOk result
        (λ v. table.new ≡ all_moved (pages_in (map orphan_of v.items)) 6 table.old) }
    ensures part { IfOk result
        (λ v. IsPartOf (pages_in (map orphan_of v.items)) (unused table.old)) }
    ensures bound { IfOk result
        (λ v. AllByRecursion (IsOrphanOf geo.now.pages) (map orphan_of v.items)) }
    ensures front { IfSome (S.bytes src.old) (λ all. MovesFront (pages_in (trees_at (file_of all geo.now)
        (roots_of marks.now geo.now.pages) (unused table.old))) 6 table.old table.new) }
    ensures cause { HasCauseOf faults.Source (S.faults src.old) (S.faults src.new) result }
    ensures kept { KeepsSource S.bytes S.attached S.faults S.reads src.old src.new }
    ensures moves { Moves 6 table.old table.new }
    ensures reads { ReadsEach (S.bytes src.old) geo.now table.old table.new
        (S.reads src.old) (S.reads src.new) (if is_ok result then 0 else 1) }
    ensures cached { IsCacheOf (S.bytes src.old) geo.now cache.new }
    ensures full { HasAll cache.old → HasAll cache.new × (src.new ≡ src.old) }
{
    let mut trees = Vec::new(alloc);
    for before in 0..geo.pages {
        if has_mark(marks, before + 1) {
            continue;
        }
        let tree = walk_orphan(alloc, src, geo, cache, survey, table, before + 1)?;
        push_found(tree, &mut trees)?;
    }
    Ok(trees)
}

fn has_mark(marks: &[bool], page: u32) -> bool
    requires low { 1 ≤ page }
    requires high { page ≤ length marks.now }
    ensures { result ≡ has_mark marks.now page }
{
    marks[page as usize - 1]
}

// The tree with this root, of the kind of its page.
fn walk_orphan<S: Source>(
    alloc: Global,
    src: &mut S,
    geo: &Geometry,
    cache: &mut PageCache,
    survey: &PageKinds,
    table: &mut PageTable,
    root: u32,
) -> Result<OrphanTree, ReadFault>
    requires low { 1 ≤ root }
    requires high { root ≤ geo.now.pages }
    requires same_pages { table.old.pages ≡ geo.now.pages }
    requires lists { 7 ≤ length table.old.lists }
    requires surveyed { length survey.now ≡ geo.now.pages }
    requires kinds { IfSome (S.bytes src.old)
        (λ all. survey.now ≡ kinds_of (file_of all geo.now)) }
    requires cached { IsCacheOf (S.bytes src.old) geo.now cache.old }
    ensures value { IfOk result (λ t. IfSome (S.bytes src.old) (λ all.
        orphan_of t ≡ tree_at (file_of all geo.now) root (unused table.old))) }
    ensures moved { IfOk result (λ t. table.new ≡ all_moved (orphan_of t).pages 6 table.old) }
    ensures part { IfOk result (λ t. IsPartOf (orphan_of t).pages (unused table.old)) }
    ensures bound { IfOk result (λ t. IsOrphanOf geo.now.pages (orphan_of t)) }
    ensures front { IfSome (S.bytes src.old) (λ all. MovesFront
        (tree_at (file_of all geo.now) root (unused table.old)).pages 6 table.old table.new) }
    ensures cause { HasCauseOf faults.Source (S.faults src.old) (S.faults src.new) result }
    ensures kept { KeepsSource S.bytes S.attached S.faults S.reads src.old src.new }
    ensures moves { Moves 6 table.old table.new }
    ensures reads { ReadsEach (S.bytes src.old) geo.now table.old table.new
        (S.reads src.old) (S.reads src.new) (if is_ok result then 0 else 1) }
    ensures cached { IsCacheOf (S.bytes src.old) geo.now cache.new }
    ensures full { HasAll cache.old → HasAll cache.new × (src.new ≡ src.old) }
{
    let Some(kind) = survey.kind(root) else {
        return Ok(OrphanTree {
            root,
            pages: Vec::new(alloc),
        });
    };
    let pages = walk_tree(
        alloc,
        src,
        geo,
        cache,
        survey,
        table,
        i64::from(root),
        kind,
        ORPHAN_LIST,
    )?;
    Ok(OrphanTree { root, pages })
}

// Appends the tree, where it has pages.
fn push_found(tree: OrphanTree, to: &mut Vec<OrphanTree>) -> Result<(), AllocError>
    ensures { OnOk result (map orphan_of to.new.items
        ≡ map orphan_of to.old.items ++ found_in (orphan_of tree ∷ [])) }
{
    if tree.pages.len() > 0 {
        to.push(tree)?;
    }
    Ok(())
}
