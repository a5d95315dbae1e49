//! Walks of trees, one after another.
ghost use Rattle.std.specs.Prelude.{◌≡◌, ◌≤◌, ◌<◌, length, map, IfOk, IfSome, is_ok, if◌then◌else◌};
ghost use Rattle.std.specs.List.{AllByRecursion};
ghost use Rattle.page_access.specs.Cache.{HasAll, IsCacheOf};
ghost use Rattle.page_access.specs.Files.{file_of};
ghost use Rattle.page_access.specs.Outside.{HasCauseOf, KeepsSource};
ghost use Rattle.page_access.specs.declared.outside.ReadFault.TheVariants as faults;
ghost use Rattle.page_lists.specs.Lists.{IsPartOf};
ghost use Rattle.page_lists.specs.Table.{Moves, all_moved, unused};
ghost use Rattle.page_walk.specs.Turns.{ReadsEach};
ghost use Rattle.page_walk.specs.Walk.{kinds_of};
ghost use Rattle.tree_uses.specs.Trees.{IsTreeOf, pages_in, tree_for, tree_of, tree_row, walks, wanted_row};

use cell_reader::Kind;
use page_access::{Geometry, PageCache, ReadFault, Source};
use page_lists::PageTable;
use page_walk::{PageKinds, walk_tree};
use std::alloc::Global;

/// A tree that is wanted for a row of the schema, counted from 0: the number that the row gives as its
/// root, and the kind of its pages, or none where the row has no tree.
#[derive(Clone, Copy, Debug)]
pub struct WantedTree {
    pub row: u32,
    pub root: i64,
    pub kind: Option<Kind>,
}

/// The pages of the tree of a row of the schema, counted from 0, level by level, and the list of a page
/// table to which they have moved.
#[derive(Debug, Drop)]
pub struct TreeUse {
    pub row: u32,
    pub list: u32,
    pub pages: Vec<u32>,
}

fn walk_one<S: Source>(
    alloc: Global,
    src: &mut S,
    geo: &Geometry,
    cache: &mut PageCache,
    survey: &PageKinds,
    table: &mut PageTable,
    wanted: &WantedTree,
    list: u32,
) -> Result<TreeUse, ReadFault>
    requires same_pages { table.old.pages ≡ geo.now.pages }
    requires list_least { 1 ≤ list }
    requires list_most { list < length table.old.lists }
    requires surveyed { length survey.now ≡ geo.now.pages }
    requires kinds { IfSome (S.bytes src.old)
        (λ all. survey.now ≡ kinds_of (file_of all geo.now)) }
    requires cached { IsCacheOf (S.bytes src.old) geo.now cache.old }
    ensures value { IfOk result (λ t. IfSome (S.bytes src.old) (λ all.
        tree_of t ≡ tree_for (file_of all geo.now) list wanted.now (unused table.old))) }
    ensures moved { IfOk result (λ t. table.new ≡ all_moved (tree_of t).pages list table.old) }
    ensures part { IfOk result (λ t. IsPartOf (tree_of t).pages (unused table.old)) }
    ensures bound { IfOk result (λ t. IsTreeOf geo.now.pages (tree_of t)) }
    ensures row { IfOk result (λ t. t.row ≡ wanted.now.row) }
    ensures cause { HasCauseOf faults.Source (S.faults src.old) (S.faults src.new) result }
    ensures kept { KeepsSource S.bytes S.attached S.faults S.reads src.old src.new }
    ensures moves { Moves list table.old table.new }
    ensures reads { ReadsEach (S.bytes src.old) geo.now table.old table.new
        (S.reads src.old) (S.reads src.new) (if is_ok result then 0 else 1) }
    ensures cached { IsCacheOf (S.bytes src.old) geo.now cache.new }
    ensures full { HasAll cache.old → HasAll cache.new × ReadsEach (S.bytes src.old) geo.now
        table.old table.new (S.reads src.old) (S.reads src.new) 0 }
{
    let pages = match wanted.kind {
        Some(kind) => walk_tree(
            alloc,
            src,
            geo,
            cache,
            survey,
            table,
            wanted.root,
            kind,
            list,
        )?,
        None => Vec::new(alloc),
    };
    Ok(TreeUse {
        row: wanted.row,
        list,
        pages,
    })
}

/// The pages of the wanted trees, tree after tree: they move to `list`, and each is the page of one tree
/// alone. A tree whose root has a use or another kind, or is no page, has none. After an error some
/// pages have moved.
pub fn walk_trees<S: Source>(
    alloc: Global,
    src: &mut S,
    geo: &Geometry,
    cache: &mut PageCache,
    survey: &PageKinds,
    table: &mut PageTable,
    wanted: &[WantedTree],
    list: u32,
) -> Result<Vec<TreeUse>, ReadFault>
    requires same_pages { table.old.pages ≡ geo.now.pages }
    requires list_least { 1 ≤ list }
    requires list_most { list < length table.old.lists }
    requires surveyed { length survey.now ≡ geo.now.pages }
    requires kinds { IfSome (S.bytes src.old)
        (λ all. survey.now ≡ kinds_of (file_of all geo.now)) }
    requires cached { IsCacheOf (S.bytes src.old) geo.now cache.old }
    ensures value { IfOk result (λ v. IfSome (S.bytes src.old) (λ all.
        map tree_of v.items ≡ walks (file_of all geo.now) list wanted.now (unused table.old))) }
    ensures moved { IfOk result
        (λ v. table.new ≡ all_moved (pages_in (map tree_of v.items)) list table.old) }
    // told or not: unused pages of the file, each once
    ensures part { IfOk result
        (λ v. IsPartOf (pages_in (map tree_of v.items)) (unused table.old)) }
    ensures bound { IfOk result
        (λ v. AllByRecursion (IsTreeOf geo.now.pages) (map tree_of v.items)) }
    ensures len { IfOk result (λ v. length v.items ≡ length wanted.now) }
    ensures rows { IfOk result
        (λ v. map tree_row (map tree_of v.items) ≡ map wanted_row wanted.now) }
    ensures cause { HasCauseOf faults.Source (S.faults src.old) (S.faults src.new) result }
    ensures kept { KeepsSource S.bytes S.attached S.faults S.reads src.old src.new }
    ensures moves { Moves list table.old table.new }
    ensures reads { ReadsEach (S.bytes src.old) geo.now table.old table.new
        (S.reads src.old) (S.reads src.new) (if is_ok result then 0 else 1) }
    ensures cached { IsCacheOf (S.bytes src.old) geo.now cache.new }
    ensures full { HasAll cache.old → HasAll cache.new × ReadsEach (S.bytes src.old) geo.now
        table.old table.new (S.reads src.old) (S.reads src.new) 0 }
{
    let mut trees = Vec::with_capacity(alloc, wanted.len())?;
    for tree in wanted {
        let pages = walk_one(alloc, src, geo, cache, survey, table, tree, list)?;
        trees.push(pages)?;
    }
    Ok(trees)
}
