//! The listing of the page numbers that pages name.
ghost use Rattle.std.specs.Prelude.{◌≡◌, ◌≤◌, ◌+◌, length, IfSome};
ghost use Rattle.page_access.specs.Cache.{IsCacheOf};
ghost use Rattle.page_access.specs.Files.{FewReads, file_of};
ghost use Rattle.page_access.specs.Outside.{HasCauseOf, KeepsSink, KeepsSource, Writes, WritesOf};
ghost use Rattle.dbdata_list.specs.Listing.{page_pointers, pointers_text};
ghost use Rattle.dbdata_list.specs.Text.{pointer_line, pointer_lines};

use crate::faults::ListFault;
use crate::lines::put_pointer;
use cell_reader::Accepted;
use page_access::{Failed, Geometry, PageCache, Sink, Source};
use page_walk::pointers_with;
use std::alloc::Global;

/// Lists, for each interior page in rising order, the child of each accepted cell in cell order and
/// then the right-most pointer, whatever they name: a line `PAGE CHILD` each.
pub fn list_pointers<S: Source, R: Sink>(
    alloc: Global,
    src: &mut S,
    geo: &Geometry,
    to: &mut R,
) -> Result<(), ListFault>
    ensures text { IfSome (S.bytes src.old) (λ all.
        WritesOf ListFault.Sink (R.bytes to.old) (R.bytes to.new) (R.faults to.old)
        (R.faults to.new) (pointers_text (file_of all geo.now)) result) }
    ensures source { HasCauseOf ListFault.Source (S.faults src.old) (S.faults src.new) result }
    ensures sink { HasCauseOf ListFault.Sink (R.faults to.old) (R.faults to.new) result }
    ensures kept { KeepsSource S.bytes S.attached S.faults S.reads src.old src.new }
    ensures kept_sink { KeepsSink R.created R.finished R.faults to.old to.new }
    // each page is read once at most
    ensures reads { FewReads (S.bytes src.old) geo.now (S.reads src.old) (S.reads src.new) geo.now.pages }
{
    let mut cache = PageCache::new(alloc, geo, 1)?;
    let mut bytes = vec![in alloc; 0; geo.page_size as usize]?;
    let buffer = bytes.as_mut_slice();
    let mut accepted = Accepted::new(alloc, geo.usable)?;
    for done in 0..geo.pages {
        list_page(
            alloc,
            src,
            geo,
            &mut cache,
            done + 1,
            buffer,
            &mut accepted,
            to,
        )?;
    }
    Ok(())
}

// Lists the page numbers that page `page` names. `buffer` is for the bytes of the page, `accepted` for those of its
// cells.
fn list_page<S: Source, R: Sink>(
    alloc: Global,
    src: &mut S,
    geo: &Geometry,
    cache: &mut PageCache,
    page: u32,
    buffer: &mut [u8],
    accepted: &mut Accepted,
    to: &mut R,
) -> Result<(), ListFault>
    requires page_least { 1 ≤ page }
    requires page_most { page ≤ geo.now.pages }
    requires size { length buffer.old ≡ geo.now.page_size }
    requires marks { length accepted.old ≡ geo.now.usable }
    requires cached { IsCacheOf (S.bytes src.old) geo.now cache.old }
    ensures text { IfSome (S.bytes src.old) (λ all.
        WritesOf ListFault.Sink (R.bytes to.old) (R.bytes to.new) (R.faults to.old)
        (R.faults to.new) (page_pointers (file_of all geo.now) page) result) }
    ensures source { HasCauseOf ListFault.Source (S.faults src.old) (S.faults src.new) result }
    ensures sink { HasCauseOf ListFault.Sink (R.faults to.old) (R.faults to.new) result }
    ensures kept { KeepsSource S.bytes S.attached S.faults S.reads src.old src.new }
    ensures kept_sink { KeepsSink R.created R.finished R.faults to.old to.new }
    ensures cached { IsCacheOf (S.bytes src.old) geo.now cache.new }
    ensures marks { length accepted.new ≡ length accepted.old }
    ensures reads { FewReads (S.bytes src.old) geo.now (S.reads src.old) (S.reads src.new) 1 }
{
    let mut named = Vec::new(alloc);
    pointers_with(src, geo, cache, page, buffer, accepted, &mut named)?;
    put_pointers(to, page, &named)?;
    Ok(())
}

// Puts a line for each of the children.
fn put_pointers<R: Sink>(to: &mut R, page: u32, children: &[u32]) -> Result<(), Failed>
    ensures writes { Writes (R.bytes to.old) (R.bytes to.new) (R.faults to.old) (R.faults to.new)
        (pointer_lines page children.now) result }
    ensures kept { KeepsSink R.created R.finished R.faults to.old to.new }
{
    for child in children {
        put_pointer(to, page, *child)?;
    }
    Ok(())
}
