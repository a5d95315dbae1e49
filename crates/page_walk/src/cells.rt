//! The cells of a page, at their turns.
ghost use Rattle.std.specs.Prelude.{◌≡◌, ◌≤◌, ◌+◌, ◌++◌, length, map, IfSome, OnOk, Some, is_ok, if◌then◌else◌};
ghost use Rattle.std.specs.List.{AllByRecursion};
ghost use Rattle.page_access.specs.Cache.{HasAll, IsCacheOf};
ghost use Rattle.page_access.specs.Files.{file_of};
ghost use Rattle.page_access.specs.Outside.{HasCauseOf, KeepsSource};
ghost use Rattle.page_access.specs.declared.outside.ReadFault.TheVariants as faults;
ghost use Rattle.page_lists.specs.Table.{Moves, MovesFront, unused};
ghost use Rattle.cell_reader.specs.Inside.{HasArray};
ghost use Rattle.cell_reader.specs.Shape.{shape_at};
ghost use Rattle.page_walk.specs.Bounds.{Adds, Uses};
ghost use Rattle.page_walk.specs.Cells.{chains_of, outcome_of, outcomes_in, outcomes_on};
ghost use Rattle.page_walk.specs.Evidence.{Evidence};
ghost use Rattle.page_walk.specs.Rows.{AddsFront, rows_of};
ghost use Rattle.page_walk.specs.Turns.{ReadsEach, after_turns};

use crate::entries::take_cell;
use crate::outcomes::{CellOutcome, Place};
use crate::pages::read_page;
use crate::pushes::push_some;
use crate::screens::screen;
use cell_reader::{Accepted, PageShape, shape};
use page_access::{Geometry, PageCache, ReadFault, Source};
use page_lists::PageTable;
use std::alloc::Global;

// Appends what becomes of each cell of a page with this shape, in cell order. `accepted` is for the bytes
// of its cells.
fn add_cells<S: Source>(
    alloc: Global,
    src: &mut S,
    geo: &Geometry,
    table: &mut PageTable,
    bytes: &[u8],
    shape: &PageShape,
    page: u32,
    accepted: &mut Accepted,
    to: &mut Vec<CellOutcome>,
) -> Result<(), ReadFault>
    requires same_pages { table.old.pages ≡ geo.now.pages }
    requires lists { 7 ≤ length table.old.lists }
    requires marks { length accepted.old ≡ geo.now.usable }
    requires whole { geo.now.usable ≤ length bytes.now }
    requires of_page { shape_at bytes.now shape.now.head geo.now.usable ≡ Some shape.now }
    requires array { HasArray geo.now.usable shape.now }
    ensures value { OnOk result (IfSome (S.bytes src.old)
        (λ all. map outcome_of to.new.items ≡ map outcome_of to.old.items
        ++ outcomes_in (file_of all geo.now) bytes.now page shape.now (unused table.old))) }
    ensures used { OnOk result (Uses table.old table.new to.old.items to.new.items) }
    // at every exit
    ensures front { IfSome (S.bytes src.old) (λ all. AddsFront
        (outcomes_in (file_of all geo.now) bytes.now page shape.now (unused table.old))
        (map outcome_of to.old.items) (map outcome_of to.new.items)) }
    ensures table_front { IfSome (S.bytes src.old) (λ all. MovesFront
        (chains_of (outcomes_in (file_of all geo.now) bytes.now page shape.now (unused table.old)))
        4 table.old table.new) }
    ensures cause { HasCauseOf faults.Source (S.faults src.old) (S.faults src.new) result }
    ensures kept { KeepsSource S.bytes S.attached S.faults S.reads src.old src.new }
    ensures moves { Moves 4 table.old table.new }
    ensures adds { Adds geo.now.usable geo.now.pages page to.old.items to.new.items }
    ensures reads { ReadsEach (S.bytes src.old) geo.now table.old table.new
        (S.reads src.old) (S.reads src.new) (if is_ok result then 0 else 1) }
    ensures marks { length accepted.new ≡ length accepted.old }
{
    accepted.clear();
    for i in 0..shape.cells {
        let cell = screen(bytes, shape, geo, i, accepted);
        let place = Place { page, cell: i };
        let outcome = take_cell(alloc, src, geo, table, bytes, shape, place, cell)?;
        push_some(to, outcome)?;
    }
    Ok(())
}

/// As `cells_of`, where `buffer` is for the bytes of the page and `accepted` for those of its cells: who goes over many
/// pages makes them once.
pub fn cells_with<S: Source>(
    alloc: Global,
    src: &mut S,
    geo: &Geometry,
    cache: &mut PageCache,
    table: &mut PageTable,
    page: u32,
    buffer: &mut [u8],
    accepted: &mut Accepted,
    to: &mut Vec<CellOutcome>,
) -> Result<(), ReadFault>
    requires page_least { 1 ≤ page }
    requires page_most { page ≤ geo.now.pages }
    requires same_pages { table.old.pages ≡ geo.now.pages }
    requires lists { 7 ≤ length table.old.lists }
    requires size { length buffer.old ≡ geo.now.page_size }
    requires marks { length accepted.old ≡ geo.now.usable }
    requires cached { IsCacheOf (S.bytes src.old) geo.now cache.old }
    ensures value { OnOk result (IfSome (S.bytes src.old)
        (λ all. map outcome_of to.new.items ≡ map outcome_of to.old.items
        ++ outcomes_on (file_of all geo.now) page (unused table.old))) }
    ensures evidence { OnOk result (IfSome (S.bytes src.old)
        (λ all. AllByRecursion (Evidence (file_of all geo.now))
        (rows_of (outcomes_on (file_of all geo.now) page (unused table.old))))) }
    ensures table { OnOk result (IfSome (S.bytes src.old)
        (λ all. table.new ≡ after_turns (file_of all geo.now) page table.old)) }
    ensures used { OnOk result (Uses table.old table.new to.old.items to.new.items) }
    // at every exit
    ensures front { IfSome (S.bytes src.old) (λ all. AddsFront
        (outcomes_on (file_of all geo.now) page (unused table.old))
        (map outcome_of to.old.items) (map outcome_of to.new.items)) }
    ensures table_front { IfSome (S.bytes src.old) (λ all. MovesFront
        (chains_of (outcomes_on (file_of all geo.now) page (unused table.old)))
        4 table.old table.new) }
    ensures cause { HasCauseOf faults.Source (S.faults src.old) (S.faults src.new) result }
    ensures kept { KeepsSource S.bytes S.attached S.faults S.reads src.old src.new }
    ensures moves { Moves 4 table.old table.new }
    ensures adds { Adds geo.now.usable geo.now.pages page to.old.items to.new.items }
    ensures reads { ReadsEach (S.bytes src.old) geo.now table.old table.new
        (S.reads src.old) (S.reads src.new) (if is_ok result then 1 else 2) }
    ensures cached { IsCacheOf (S.bytes src.old) geo.now cache.new }
    ensures full { HasAll cache.old → HasAll cache.new × ReadsEach (S.bytes src.old) geo.now
        table.old table.new (S.reads src.old) (S.reads src.new) (if is_ok result then 0 else 1) }
    ensures marks { length accepted.new ≡ length accepted.old }
{
    // tells that the table is a partition
    let _pages = table.pages();
    read_page(src, geo, cache, page, buffer)?;
    let Some(shape) = shape(buffer, page, geo) else {
        return Ok(());
    };
    add_cells(alloc, src, geo, table, buffer, &shape, page, accepted, to)
}

/// Appends what becomes of each cell of the page, in cell order: no item for an accepted cell of an
/// interior table page, and none for a page without a shape. The overflow pages that the cells take
/// move to the list of overflow pages. After an error the first cells, however many, are there, and the first of
/// those pages have moved.
pub fn cells_of<S: Source>(
    alloc: Global,
    src: &mut S,
    geo: &Geometry,
    cache: &mut PageCache,
    table: &mut PageTable,
    page: u32,
    to: &mut Vec<CellOutcome>,
) -> Result<(), ReadFault>
    requires page_least { 1 ≤ page }
    requires page_most { page ≤ geo.now.pages }
    requires same_pages { table.old.pages ≡ geo.now.pages }
    requires lists { 7 ≤ length table.old.lists }
    requires cached { IsCacheOf (S.bytes src.old) geo.now cache.old }
    ensures value { OnOk result (IfSome (S.bytes src.old)
        (λ all. map outcome_of to.new.items ≡ map outcome_of to.old.items
        ++ outcomes_on (file_of all geo.now) page (unused table.old))) }
    ensures evidence { OnOk result (IfSome (S.bytes src.old)
        (λ all. AllByRecursion (Evidence (file_of all geo.now))
        (rows_of (outcomes_on (file_of all geo.now) page (unused table.old))))) }
    ensures table { OnOk result (IfSome (S.bytes src.old)
        (λ all. table.new ≡ after_turns (file_of all geo.now) page table.old)) }
    ensures used { OnOk result (Uses table.old table.new to.old.items to.new.items) }
    // at every exit
    ensures front { IfSome (S.bytes src.old) (λ all. AddsFront
        (outcomes_on (file_of all geo.now) page (unused table.old))
        (map outcome_of to.old.items) (map outcome_of to.new.items)) }
    ensures table_front { IfSome (S.bytes src.old) (λ all. MovesFront
        (chains_of (outcomes_on (file_of all geo.now) page (unused table.old)))
        4 table.old table.new) }
    ensures cause { HasCauseOf faults.Source (S.faults src.old) (S.faults src.new) result }
    ensures kept { KeepsSource S.bytes S.attached S.faults S.reads src.old src.new }
    ensures moves { Moves 4 table.old table.new }
    ensures adds { Adds geo.now.usable geo.now.pages page to.old.items to.new.items }
    ensures reads { ReadsEach (S.bytes src.old) geo.now table.old table.new
        (S.reads src.old) (S.reads src.new) (if is_ok result then 1 else 2) }
    ensures cached { IsCacheOf (S.bytes src.old) geo.now cache.new }
    ensures full { HasAll cache.old → HasAll cache.new × ReadsEach (S.bytes src.old) geo.now
        table.old table.new (S.reads src.old) (S.reads src.new) (if is_ok result then 0 else 1) }
{
    let mut bytes = vec![in alloc; 0; geo.page_size as usize]?;
    let mut accepted = Accepted::new(alloc, geo.usable)?;
    cells_with(
        alloc,
        src,
        geo,
        cache,
        table,
        page,
        bytes.as_mut_slice(),
        &mut accepted,
        to,
    )
}
