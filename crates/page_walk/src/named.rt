//! The pages that a page names.
ghost use Rattle.std.specs.Prelude.{◌≡◌, ◌≤◌, ◌+◌, ◌*◌, ◌/◌, ◌++◌, length, IfOk, IfSome, OnOk, Some};
ghost use Rattle.cell_reader.specs.Shape.{shape_at};
ghost use Rattle.page_access.specs.Cache.{HasAll, IsCacheOf};
ghost use Rattle.page_access.specs.Files.{IsWhole, file_of};
ghost use Rattle.page_access.specs.Outside.{HasCauseOf, KeepsSource};
ghost use Rattle.page_walk.specs.Pointers.{child_by, children_in, pointers_on};

use crate::causes::CellCause;
use crate::pages::read_page;
use crate::pushes::push_some;
use crate::screens::screen;
use cell_reader::{Accepted, CellView, PageShape, right_child, shape};
use page_access::{Geometry, PageCache, ReadFault, Source};
use std::alloc::{AllocError, Global};

// The child that a cell names, where it is accepted.
fn accepted_child(cell: Result<CellView, CellCause>) -> Option<u32>
    ensures { result ≡ child_by cell }
{
    match cell {
        Ok(view) => view.child,
        Err(_) => None,
    }
}

// Appends the child of each accepted cell of the page, in cell order. `accepted` is for the bytes
// of its cells.
fn push_children(
    page: &[u8],
    shape: &PageShape,
    geo: &Geometry,
    accepted: &mut Accepted,
    to: &mut Vec<u32>,
) -> Result<(), AllocError>
    requires whole { geo.now.usable ≤ length page.now }
    requires of_page { shape_at page.now shape.now.head geo.now.usable ≡ Some shape.now }
    requires marks { length accepted.old ≡ geo.now.usable }
    ensures value { OnOk result (to.new.items ≡ to.old.items
        ++ children_in page.now geo.now.usable geo.now.pages shape.now) }
    ensures marks { length accepted.new ≡ length accepted.old }
    ensures bound { length to.new.items ≤ length to.old.items + shape.now.cells }
{
    accepted.clear();
    for i in 0..shape.cells {
        let child = accepted_child(screen(page, shape, geo, i, accepted));
        push_some(to, child)?;
    }
    Ok(())
}

/// As `pointers`, where `buffer` is for the bytes of the page and `accepted` for those of its cells: who goes over many
/// pages makes them once.
pub fn pointers_with<S: Source>(
    src: &mut S,
    geo: &Geometry,
    cache: &mut PageCache,
    page: u32,
    buffer: &mut [u8],
    accepted: &mut Accepted,
    to: &mut Vec<u32>,
) -> Result<(), ReadFault>
    requires page_least { 1 ≤ page }
    requires page_most { page ≤ geo.now.pages }
    requires size { length buffer.old ≡ geo.now.page_size }
    requires marks { length accepted.old ≡ geo.now.usable }
    requires cached { IsCacheOf (S.bytes src.old) geo.now cache.old }
    ensures value { OnOk result (IfSome (S.bytes src.old)
        (λ all. to.new.items ≡ to.old.items ++ pointers_on (file_of all geo.now) page)) }
    ensures marks { length accepted.new ≡ length accepted.old }
    ensures cause { HasCauseOf ReadFault.Source (S.faults src.old) (S.faults src.new) result }
    ensures kept { KeepsSource S.bytes S.attached S.faults S.reads src.old src.new }
    ensures bound { length to.new.items ≤ length to.old.items + geo.now.usable / 2 }
    ensures reads { IfSome (S.bytes src.old)
        (λ all. IsWhole all geo.now → S.reads src.new ≤ S.reads src.old + 1) }
    ensures cached { IsCacheOf (S.bytes src.old) geo.now cache.new }
    ensures full { HasAll cache.old → HasAll cache.new × (src.new ≡ src.old) }
{
    read_page(src, geo, cache, page, buffer)?;
    let Some(shape) = shape(buffer, page, geo) else {
        return Ok(());
    };
    let Some(right) = right_child(buffer, &shape) else {
        return Ok(());
    };
    push_children(buffer, &shape, geo, accepted, to)?;
    to.push(right)?;
    Ok(())
}

/// Appends the pages that an interior page names, whatever they are: the child of each accepted cell
/// in cell order, and then the right-most pointer. A leaf and a page without a shape name none.
pub fn pointers<S: Source>(
    alloc: Global,
    src: &mut S,
    geo: &Geometry,
    cache: &mut PageCache,
    page: u32,
    to: &mut Vec<u32>,
) -> Result<(), ReadFault>
    requires page_least { 1 ≤ page }
    requires page_most { page ≤ geo.now.pages }
    requires cached { IsCacheOf (S.bytes src.old) geo.now cache.old }
    ensures value { OnOk result (IfSome (S.bytes src.old)
        (λ all. to.new.items ≡ to.old.items ++ pointers_on (file_of all geo.now) page)) }
    ensures cause { HasCauseOf ReadFault.Source (S.faults src.old) (S.faults src.new) result }
    ensures kept { KeepsSource S.bytes S.attached S.faults S.reads src.old src.new }
    ensures bound { length to.new.items ≤ length to.old.items + geo.now.usable / 2 }
    ensures reads { IfSome (S.bytes src.old)
        (λ all. IsWhole all geo.now → S.reads src.new ≤ S.reads src.old + 1) }
    ensures cached { IsCacheOf (S.bytes src.old) geo.now cache.new }
    ensures full { HasAll cache.old → HasAll cache.new × (src.new ≡ src.old) }
{
    let mut buffer = vec![in alloc; 0; geo.page_size as usize]?;
    let mut accepted = Accepted::new(alloc, geo.usable)?;
    pointers_with(
        src,
        geo,
        cache,
        page,
        buffer.as_mut_slice(),
        &mut accepted,
        to,
    )
}
