//! The listing of all cells.
ghost use Rattle.std.specs.Prelude.{◌≡◌, ◌≤◌, ◌+◌, ◌*◌, length, map, IfSome, OnOk, is_ok, if◌then◌else◌};
ghost use Rattle.page_access.specs.Cache.{IsCacheOf};
ghost use Rattle.page_access.specs.Files.{FewReads, file_of};
ghost use Rattle.page_access.specs.Outside.{HasCauseOf, KeepsSink, KeepsSource, Writes, WritesOf};
ghost use Rattle.page_lists.specs.Table.{unused};
ghost use Rattle.page_walk.specs.Cells.{outcome_of};
ghost use Rattle.page_walk.specs.Turns.{ReadsEach, left_by};
ghost use Rattle.dbdata_list.specs.Listing.{data_text, page_data};
ghost use Rattle.dbdata_list.specs.Text.{outcome_text, outcomes_text, page_text};
ghost use Rattle.arrayvec.specs.ArrayVec.{array_vec_len};

use crate::faults::ListFault;
use crate::lines::{page_start, put_row, put_unread};
use cell_reader::Accepted;
use line_text::{Line, cause_word};
use page_access::{Failed, Geometry, PageCache, Sink, Source};
use page_lists::PageTable;
use page_walk::{CellOutcome, LISTS, cells_with};
use std::alloc::Global;

/// Lists every cell of every page in rising order: a line `PAGE CELL FIELD VALUE` for each value of a
/// readable cell, its rowid first as field -1, and `PAGE CELL unread CAUSE` for any other cell.
pub fn list_data<S: Source, R: Sink>(
    alloc: Global,
    src: &mut S,
    geo: &Geometry,
    to: &mut R,
) -> Result<(), ListFault>
    ensures text { IfSome (S.bytes src.old) (λ all.
        WritesOf ListFault.Sink (R.bytes to.old) (R.bytes to.new) (R.faults to.old)
        (R.faults to.new) (data_text (file_of all geo.now)) result) }
    ensures source { HasCauseOf ListFault.Source (S.faults src.old) (S.faults src.new) result }
    ensures sink { HasCauseOf ListFault.Sink (R.faults to.old) (R.faults to.new) result }
    ensures kept { KeepsSource S.bytes S.attached S.faults S.reads src.old src.new }
    ensures kept_sink { KeepsSink R.created R.finished R.faults to.old to.new }
    // each page is read once, and once more where an overflow chain uses it
    ensures reads { FewReads (S.bytes src.old) geo.now
        (S.reads src.old) (S.reads src.new) (2 * geo.now.pages + 1) }
{
    let mut table = PageTable::new(alloc, geo.pages, LISTS)?;
    let mut cache = PageCache::new(alloc, geo, 1)?;
    let mut bytes = vec![in alloc; 0; geo.page_size as usize]?;
    let buffer = bytes.as_mut_slice();
    let mut accepted = Accepted::new(alloc, geo.usable)?;
    let mut cells = Vec::new(alloc);
    for done in 0..geo.pages {
        list_cells(
            alloc,
            src,
            geo,
            &mut cache,
            &mut table,
            done + 1,
            buffer,
            &mut accepted,
            &mut cells,
            to,
        )?;
    }
    Ok(())
}

// Lists the cells of page `page` at their turns. `buffer` is for the bytes of the page, `accepted` for those of its
// cells, `cells` for what becomes of them.
fn list_cells<S: Source, R: Sink>(
    alloc: Global,
    src: &mut S,
    geo: &Geometry,
    cache: &mut PageCache,
    table: &mut PageTable,
    page: u32,
    buffer: &mut [u8],
    accepted: &mut Accepted,
    cells: &mut Vec<CellOutcome>,
    to: &mut R,
) -> Result<(), ListFault>
    requires page_least { 1 ≤ page }
    requires page_most { page ≤ geo.now.pages }
    requires same_pages { table.old.pages ≡ geo.now.pages }
    requires lists { 7 ≤ length table.old.lists }
    requires size { length buffer.old ≡ geo.now.page_size }
    requires marks { length accepted.old ≡ geo.now.usable }
    requires cached { IsCacheOf (S.bytes src.old) geo.now cache.old }
    ensures text { IfSome (S.bytes src.old) (λ all.
        WritesOf ListFault.Sink (R.bytes to.old) (R.bytes to.new) (R.faults to.old)
        (R.faults to.new) (page_data (file_of all geo.now) page (unused table.old)) result) }
    ensures left { OnOk result (IfSome (S.bytes src.old)
        (λ all. unused table.new ≡ left_by (file_of all geo.now) page (unused table.old))) }
    ensures pages { OnOk result (table.new.pages ≡ table.old.pages) }
    ensures lists_kept { OnOk result (length table.new.lists ≡ length table.old.lists) }
    ensures cached { IsCacheOf (S.bytes src.old) geo.now cache.new }
    ensures marks { length accepted.new ≡ length accepted.old }
    ensures source { HasCauseOf ListFault.Source (S.faults src.old) (S.faults src.new) result }
    ensures sink { HasCauseOf ListFault.Sink (R.faults to.old) (R.faults to.new) result }
    ensures kept { KeepsSource S.bytes S.attached S.faults S.reads src.old src.new }
    ensures kept_sink { KeepsSink R.created R.finished R.faults to.old to.new }
    ensures reads { ReadsEach (S.bytes src.old) geo.now table.old table.new
        (S.reads src.old) (S.reads src.new) (if is_ok result then 1 else 2) }
{
    cells.clear();
    cells_with(alloc, src, geo, cache, table, page, buffer, accepted, cells)?;
    put_cells(to, page, cells)?;
    Ok(())
}

// Puts the lines of the cells of a page.
fn put_cells<R: Sink>(to: &mut R, page: u32, cells: &[CellOutcome]) -> Result<(), Failed>
    ensures writes { Writes (R.bytes to.old) (R.bytes to.new) (R.faults to.old) (R.faults to.new)
        (outcomes_text (page_text page) (map outcome_of cells.now)) result }
    ensures kept { KeepsSink R.created R.finished R.faults to.old to.new }
{
    let mut line = page_start(page);
    put_each(to, &mut line, cells)
}

// Puts the lines of cells, each behind the beginning of the lines of their page, which the line holds.
fn put_each<R: Sink>(to: &mut R, line: &mut Line, cells: &[CellOutcome]) -> Result<(), Failed>
    requires { array_vec_len line.old ≤ 21 }
    ensures writes { Writes (R.bytes to.old) (R.bytes to.new) (R.faults to.old) (R.faults to.new)
        (outcomes_text line.old.items (map outcome_of cells.now)) result }
    ensures kept { KeepsSink R.created R.finished R.faults to.old to.new }
{
    for cell in cells {
        put_cell(to, line, cell)?;
    }
    Ok(())
}

// Puts the lines of a cell.
fn put_cell<R: Sink>(to: &mut R, line: &mut Line, cell: &CellOutcome) -> Result<(), Failed>
    requires { array_vec_len line.old ≤ 21 }
    ensures writes { Writes (R.bytes to.old) (R.bytes to.new) (R.faults to.old) (R.faults to.new)
        (outcome_text line.old.items (outcome_of cell.now)) result }
    ensures kept { KeepsSink R.created R.finished R.faults to.old to.new }
    ensures line { OnOk result (line.new.items ≡ line.old.items) }
{
    match cell {
        CellOutcome::Taken(taken) => {
            put_row(to, line, taken.place.cell, taken.rowid, &taken.fields)
        }
        CellOutcome::Unread { cell, cause, .. } => put_unread(to, line, *cell, cause_word(*cause)),
    }
}
