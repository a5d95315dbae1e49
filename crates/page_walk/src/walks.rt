//! The pages of a tree.
ghost use Rattle.std.specs.Prelude.{◌≡◌, ◌≤◌, ◌<◌, ◌+◌, ◌&&◌, [], ◌∷◌, length, option_to_list, IfOk, IfSome, IsTrue, is_ok, if◌then◌else◌};
ghost use Rattle.page_access.specs.Cache.{HasAll, IsCacheOf};
ghost use Rattle.page_access.specs.Files.{file_of};
ghost use Rattle.page_access.specs.Outside.{HasCauseOf, KeepsSource};
ghost use Rattle.page_access.specs.declared.outside.ReadFault.TheVariants as faults;
ghost use Rattle.page_lists.specs.Lists.{IsPartOf, is_in};
ghost use Rattle.page_lists.specs.Table.{IsPartition, Moves, MovesFront, all_moved, list_at, owner, unused};
ghost use Rattle.page_walk.specs.Bounds.{ArePages};
ghost use Rattle.page_walk.specs.Reach.{IsTree};
ghost use Rattle.page_walk.specs.Taking.{is_of_kind, tail, takes};
ghost use Rattle.page_walk.specs.Turns.{ReadsEach};
ghost use Rattle.page_walk.specs.Walk.{kinds_of, page_named, walk};

use crate::named::pointers_with;
use crate::surveys::PageKinds;
use cell_reader::{Accepted, Kind};
use page_access::{Geometry, PageCache, ReadFault, Source};
use page_lists::PageTable;
use std::alloc::{AllocError, Global};

/// The pages of the tree with this root, level by level: each next level is the unused children of the
/// level before, in page order, cell order and the right-most page last. They move to `list`. There
/// are none where the root is no number of 1 to n, or its page has a use or another kind. After an error
/// the first of them, however many, have moved.
pub fn walk_tree<S: Source>(
    alloc: Global,
    src: &mut S,
    geo: &Geometry,
    cache: &mut PageCache,
    survey: &PageKinds,
    table: &mut PageTable,
    root: i64,
    kind: Kind,
    list: u32,
) -> Result<Vec<u32>, ReadFault>
    requires same_pages { table.old.pages ≡ geo.now.pages }
    requires list_least { 1 ≤ list }
    requires list_most { list < length table.old.lists }
    requires surveyed { length survey.now ≡ geo.now.pages }
    requires kinds { IfSome (S.bytes src.old)
        (λ all. survey.now ≡ kinds_of (file_of all geo.now)) }
    requires cached { IsCacheOf (S.bytes src.old) geo.now cache.old }
    ensures value { IfOk result (λ v. IfSome (S.bytes src.old)
        (λ all. v.items ≡ walk (file_of all geo.now) (unused table.old) root kind)) }
    ensures tree { IfOk result (λ v. IfSome (S.bytes src.old)
        (λ all. IsTree (file_of all geo.now) (unused table.old) root kind v.items)) }
    ensures moved { IfOk result (λ v. table.new ≡ all_moved v.items list table.old) }
    // told or not: unused pages of the file, each once
    ensures part { IfOk result (λ v. IsPartOf v.items (unused table.old)) }
    ensures bound { IfOk result (λ v. ArePages geo.now.pages v.items) }
    // at every exit
    ensures front { IfSome (S.bytes src.old) (λ all. MovesFront
        (walk (file_of all geo.now) (unused table.old) root kind) list table.old table.new) }
    ensures cause { HasCauseOf faults.Source (S.faults src.old) (S.faults src.new) result }
    ensures kept { KeepsSource S.bytes S.attached S.faults S.reads src.old src.new }
    ensures moves { Moves list table.old table.new }
    ensures reads { ReadsEach (S.bytes src.old) geo.now table.old table.new
        (S.reads src.old) (S.reads src.new) (if is_ok result then 0 else 1) }
    ensures cached { IsCacheOf (S.bytes src.old) geo.now cache.new }
    ensures full { HasAll cache.old → HasAll cache.new × (src.new ≡ src.old) }
    // no memory is asked for where there is no tree
    ensures succeeds { IfSome (S.bytes src.old)
        (λ all. walk (file_of all geo.now) (unused table.old) root kind ≡ [] → IsTrue (is_ok result)) }
{
    let Some(first) = root_page(survey, table, root, kind) else {
        return Ok(Vec::new(alloc));
    };
    let mut bytes = vec![in alloc; 0; geo.page_size as usize]?;
    let buffer = bytes.as_mut_slice();
    let mut accepted = Accepted::new(alloc, geo.usable)?;
    // a page names no more
    let mut named = Vec::with_capacity(alloc, geo.usable as usize / 2)?;
    table.move_to_back(first, list);
    // the pages that the list gains are found; those from this one on wait for their turn
    let mut at = Some(first);
    while let Some(page) = at {
        named.clear();
        pointers_with(src, geo, cache, page, buffer, &mut accepted, &mut named)?;
        take_all(survey, table, &named, kind, list);
        at = table.next(page);
    }
    Ok(pages_from(alloc, table, first)?)
}

// The page that a number names, where it is an unused page of the kind.
fn root_page(survey: &PageKinds, table: &PageTable, number: i64, kind: Kind) -> Option<u32>
    requires { length survey.now ≡ table.now.pages }
    ensures value { option_to_list result ≡ takes survey.now kind table.now
        (option_to_list (page_named table.now.pages number)) }
    ensures low { IfSome result (λ p. 1 ≤ p) }
    ensures high { IfSome result (λ p. p ≤ table.now.pages) }
    ensures partition { IsPartition table.now }
{
    let page = page_numbered(number, table.pages())?;
    if is_free(survey, table, page, kind) {
        Some(page)
    } else {
        None
    }
}

// The page that a number names, where it is one of 1 to `pages`.
fn page_numbered(number: i64, pages: u32) -> Option<u32>
    ensures { result ≡ page_named pages number }
{
    let page = u32::try_from(number).ok()?;
    if 1 <= page && page <= pages {
        Some(page)
    } else {
        None
    }
}

// Whether the number is that of an unused page of the kind.
fn is_free(survey: &PageKinds, table: &PageTable, page: u32, kind: Kind) -> bool
    requires { length survey.now ≡ table.now.pages }
    ensures value { result ≡ (is_of_kind survey.now table.now.pages kind page
        && is_in page (unused table.now)) }
    ensures low { IsTrue result → 1 ≤ page }
    ensures high { IsTrue result → page ≤ table.now.pages }
{
    1 <= page
        && page <= table.pages()
        && survey.kind(page) == Some(kind)
        && table.list_of(page) == 0
}

// Moves the page to the list, where it is an unused page of the kind.
fn take(survey: &PageKinds, table: &mut PageTable, page: u32, kind: Kind, list: u32)
    requires same_pages { length survey.now ≡ table.old.pages }
    requires list_least { 1 ≤ list }
    requires list_most { list < length table.old.lists }
    ensures value { table.new ≡ all_moved (takes survey.now kind table.old (page ∷ [])) list table.old }
    ensures moves { Moves list table.old table.new }
{
    if !is_free(survey, table, page, kind) {
        return;
    }
    table.move_to_back(page, list);
}

// Moves the unused pages of the kind to the list, in order.
fn take_all(survey: &PageKinds, table: &mut PageTable, pages: &[u32], kind: Kind, list: u32)
    requires same_pages { length survey.now ≡ table.old.pages }
    requires list_least { 1 ≤ list }
    requires list_most { list < length table.old.lists }
    ensures value { table.new ≡ all_moved (takes survey.now kind table.old pages.now) list table.old }
    ensures moves { Moves list table.old table.new }
{
    for page in pages {
        take(survey, table, *page, kind, list);
    }
}

// The pages of the list of page `first`, from that page on.
fn pages_from(alloc: Global, table: &PageTable, first: u32) -> Result<Vec<u32>, AllocError>
    requires low { 1 ≤ first }
    requires high { first ≤ table.now.pages }
    ensures { IfOk result
        (λ v. v.items ≡ tail first (list_at (owner first table.now.lists) table.now.lists)) }
{
    // tells that the table is a partition
    let _pages = table.pages();
    let mut pages = Vec::new(alloc);
    let mut here = Some(first);
    while let Some(page) = here {
        pages.push(page)?;
        here = table.next(page);
    }
    Ok(pages)
}
