//! Which pages are children of orphan pages.
ghost use Rattle.std.specs.Prelude.{◌≡◌, ◌≤◌, ◌+◌, ◌∷◌, [], false, replicate, filter, length, is_some, IfOk, IfSome, OnOk, if◌then◌else◌};
ghost use Rattle.page_access.specs.Cache.{HasAll, IsCacheOf};
ghost use Rattle.page_access.specs.Files.{IsWhole, file_of};
ghost use Rattle.page_access.specs.Outside.{HasCauseOf, KeepsSource};
ghost use Rattle.page_access.specs.declared.outside.ReadFault.TheVariants as faults;
ghost use Rattle.page_lists.specs.Table.{IsPartition, unused};
ghost use Rattle.page_walk.specs.Taking.{is_of_kind};
ghost use Rattle.page_walk.specs.Walk.{kinds_of};
ghost use Rattle.orphan_trees.specs.Orphans.{is_orphan, orphan_children, orphan_pages};
ghost use Rattle.orphan_trees.specs.Passes.{children_at, kind_unused, with_marks};

use cell_reader::{Accepted, Kind};
use page_access::{Geometry, PageCache, ReadFault, Source};
use page_lists::PageTable;
use page_walk::{PageKinds, pointers_with};
use std::alloc::Global;

/// One mark for each page, set where the page is a child of an orphan page.
pub fn mark_children<S: Source>(
    alloc: Global,
    src: &mut S,
    geo: &Geometry,
    cache: &mut PageCache,
    survey: &PageKinds,
    table: &PageTable,
) -> Result<Vec<bool>, ReadFault>
    requires same_pages { table.now.pages ≡ geo.now.pages }
    requires surveyed { length survey.now ≡ geo.now.pages }
    requires kinds { IfSome (S.bytes src.old)
        (λ all. survey.now ≡ kinds_of (file_of all geo.now)) }
    requires cached { IsCacheOf (S.bytes src.old) geo.now cache.old }
    ensures value { IfOk result (λ m. IfSome (S.bytes src.old) (λ all. m.items ≡ with_marks
        (orphan_children (file_of all geo.now) (unused table.now)) (replicate geo.now.pages false))) }
    ensures len { IfOk result (λ m. length m.items ≡ geo.now.pages) }
    ensures cause { HasCauseOf faults.Source (S.faults src.old) (S.faults src.new) result }
    ensures kept { KeepsSource S.bytes S.attached S.faults S.reads src.old src.new }
    // one read at most for each orphan page
    ensures reads { IfSome (S.bytes src.old) (λ all. IsWhole all geo.now → S.reads src.new
        ≤ S.reads src.old + length (orphan_pages (file_of all geo.now) (unused table.now))) }
    ensures cached { IsCacheOf (S.bytes src.old) geo.now cache.new }
    ensures full { HasAll cache.old → HasAll cache.new × (src.new ≡ src.old) }
{
    let mut marks = vec![in alloc; false; geo.pages as usize]?;
    let mut bytes = vec![in alloc; 0; geo.page_size as usize]?;
    let buffer = bytes.as_mut_slice();
    let mut accepted = Accepted::new(alloc, geo.usable)?;
    // a page names no more
    let mut named = Vec::with_capacity(alloc, geo.usable as usize / 2)?;
    for before in 0..geo.pages {
        mark_page(
            src,
            geo,
            cache,
            survey,
            table,
            before + 1,
            buffer,
            &mut accepted,
            &mut named,
            marks.as_mut_slice(),
        )?;
    }
    Ok(marks)
}

// Marks the children of the page, where it is an orphan page.
fn mark_page<S: Source>(
    src: &mut S,
    geo: &Geometry,
    cache: &mut PageCache,
    survey: &PageKinds,
    table: &PageTable,
    page: u32,
    buffer: &mut [u8],
    accepted: &mut Accepted,
    named: &mut Vec<u32>,
    marks: &mut [bool],
) -> Result<(), ReadFault>
    requires low { 1 ≤ page }
    requires high { page ≤ geo.now.pages }
    requires same_pages { table.now.pages ≡ geo.now.pages }
    requires surveyed { length survey.now ≡ geo.now.pages }
    requires kinds { IfSome (S.bytes src.old)
        (λ all. survey.now ≡ kinds_of (file_of all geo.now)) }
    requires size { length buffer.old ≡ geo.now.page_size }
    requires accepted { length accepted.old ≡ geo.now.usable }
    requires marks { length marks.old ≡ geo.now.pages }
    requires cached { IsCacheOf (S.bytes src.old) geo.now cache.old }
    ensures value { OnOk result (IfSome (S.bytes src.old) (λ all.
        marks.new ≡ with_marks (children_at (file_of all geo.now) (unused table.now) page) marks.old)) }
    ensures len { length marks.new ≡ length marks.old }
    ensures accepted { length accepted.new ≡ length accepted.old }
    ensures cause { HasCauseOf faults.Source (S.faults src.old) (S.faults src.new) result }
    ensures kept { KeepsSource S.bytes S.attached S.faults S.reads src.old src.new }
    ensures reads { IfSome (S.bytes src.old) (λ all. IsWhole all geo.now → S.reads src.new
        ≤ S.reads src.old + (if is_orphan (file_of all geo.now) (unused table.now) page then 1 else 0)) }
    ensures cached { IsCacheOf (S.bytes src.old) geo.now cache.new }
    ensures full { HasAll cache.old → HasAll cache.new × (src.new ≡ src.old) }
{
    let Some(kind) = kind_unused(survey, table, page) else {
        return Ok(());
    };
    named.clear();
    pointers_with(src, geo, cache, page, buffer, accepted, named)?;
    mark_all(survey, geo.pages, named, kind, marks);
    Ok(())
}

// The kind of the page, where it is unused.
fn kind_unused(survey: &PageKinds, table: &PageTable, page: u32) -> Option<Kind>
    requires low { 1 ≤ page }
    requires high { page ≤ length survey.now }
    ensures { result ≡ kind_unused survey.now (unused table.now) page }
{
    if table.is_unused(page) {
        survey.kind(page)
    } else {
        None
    }
}

// Marks those of these numbers that are pages of the kind.
fn mark_all(survey: &PageKinds, pages: u32, named: &[u32], kind: Kind, marks: &mut [bool])
    requires surveyed { length survey.now ≡ pages }
    requires len { length marks.old ≡ pages }
    ensures value { marks.new
        ≡ with_marks (filter (is_of_kind survey.now pages kind) named.now) marks.old }
    ensures len { length marks.new ≡ length marks.old }
{
    for page in named {
        mark(survey, pages, *page, kind, marks);
    }
}

// Marks the page with this number, where it is one of the kind.
fn mark(survey: &PageKinds, pages: u32, page: u32, kind: Kind, marks: &mut [bool])
    requires surveyed { length survey.now ≡ pages }
    requires len { length marks.old ≡ pages }
    ensures value { marks.new
        ≡ with_marks (filter (is_of_kind survey.now pages kind) (page ∷ [])) marks.old }
    ensures len { length marks.new ≡ length marks.old }
{
    if 1 <= page && page <= pages && survey.kind(page) == Some(kind) {
        marks[page as usize - 1] = true;
    }
}
