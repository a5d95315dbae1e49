//! Pages whose cells take their turns, one page after another.
ghost use Rattle.std.specs.Prelude.{◌≡◌, ◌≤◌, ◌+◌, length, map, IfOk, IfSome, OnOk, is_ok, if◌then◌else◌};
ghost use Rattle.std.specs.List.{AllByRecursion, flat_map};
ghost use Rattle.page_access.specs.Cache.{HasAll, IsCacheOf};
ghost use Rattle.page_access.specs.Files.{file_of};
ghost use Rattle.page_access.specs.Outside.{HasCauseOf, KeepsSource};
ghost use Rattle.page_access.specs.declared.outside.ReadFault.TheVariants as faults;
ghost use Rattle.page_lists.specs.Table.{Moves, MovesFront, all_moved, unused};
ghost use Rattle.page_walk.specs.Bounds.{ArePages};
ghost use Rattle.page_walk.specs.Cells.{chains_of, outcome_of, outcomes_on};
ghost use Rattle.page_walk.specs.InTurn.{IsSmallTurn, pages_of_turn, turn_of};
ghost use Rattle.page_walk.specs.Turns.{ReadsEach, chains_on, turns_on};

use crate::cells::cells_with;
use crate::outcomes::CellOutcome;
use cell_reader::Accepted;
use page_access::{Geometry, PageCache, ReadFault, Source};
use page_lists::PageTable;
use std::alloc::Global;

/// A page, counted from 1, and what becomes of its cells in cell order.
#[derive(Debug, Drop)]
pub struct PageTurn {
    pub page: u32,
    pub outcomes: Vec<CellOutcome>,
}

// What becomes of the cells of the page at their turns.
fn turn_page<S: Source>(
    alloc: Global,
    src: &mut S,
    geo: &Geometry,
    cache: &mut PageCache,
    table: &mut PageTable,
    page: u32,
    buffer: &mut [u8],
    accepted: &mut Accepted,
) -> Result<PageTurn, ReadFault>
    requires page_least { 1 ≤ page }
    requires page_most { page ≤ geo.now.pages }
    requires same_pages { table.old.pages ≡ geo.now.pages }
    requires lists { 7 ≤ length table.old.lists }
    requires size { length buffer.old ≡ geo.now.page_size }
    requires marks { length accepted.old ≡ geo.now.usable }
    requires cached { IsCacheOf (S.bytes src.old) geo.now cache.old }
    ensures value { IfOk result (λ t. IfSome (S.bytes src.old) (λ all.
        turn_of t ≡ (page, outcomes_on (file_of all geo.now) page (unused table.old)))) }
    ensures moved { IfOk result
        (λ t. table.new ≡ all_moved (pages_of_turn (turn_of t)) 4 table.old) }
    ensures small { IfOk result (λ t. IsSmallTurn geo.now.usable geo.now.pages (turn_of t)) }
    // at every exit
    ensures table_front { IfSome (S.bytes src.old) (λ all. MovesFront
        (chains_of (outcomes_on (file_of all geo.now) page (unused table.old)))
        4 table.old table.new) }
    ensures cause { HasCauseOf faults.Source (S.faults src.old) (S.faults src.new) result }
    ensures kept { KeepsSource S.bytes S.attached S.faults S.reads src.old src.new }
    ensures moves { Moves 4 table.old table.new }
    ensures reads { ReadsEach (S.bytes src.old) geo.now table.old table.new
        (S.reads src.old) (S.reads src.new) (if is_ok result then 1 else 2) }
    ensures cached { IsCacheOf (S.bytes src.old) geo.now cache.new }
    ensures full { HasAll cache.old → HasAll cache.new × ReadsEach (S.bytes src.old) geo.now
        table.old table.new (S.reads src.old) (S.reads src.new) (if is_ok result then 0 else 1) }
    ensures marks { length accepted.new ≡ length accepted.old }
{
    let mut outcomes = Vec::new(alloc);
    cells_with(
        alloc,
        src,
        geo,
        cache,
        table,
        page,
        buffer,
        accepted,
        &mut outcomes,
    )?;
    Ok(PageTurn { page, outcomes })
}

/// What becomes of the cells of the pages, which take their turns page by page and in cell order. The overflow
/// pages that they take move to the list of overflow pages. After an error the first of them, however many, have
/// moved.
pub fn read_turns<S: Source>(
    alloc: Global,
    src: &mut S,
    geo: &Geometry,
    cache: &mut PageCache,
    table: &mut PageTable,
    pages: &[u32],
) -> Result<Vec<PageTurn>, ReadFault>
    requires pages { ArePages geo.now.pages pages.now }
    requires same_pages { table.old.pages ≡ geo.now.pages }
    requires lists { 7 ≤ length table.old.lists }
    requires cached { IsCacheOf (S.bytes src.old) geo.now cache.old }
    ensures value { IfOk result (λ v. IfSome (S.bytes src.old) (λ all.
        map turn_of v.items ≡ turns_on (file_of all geo.now) pages.now (unused table.old))) }
    ensures moved { IfOk result (λ v. table.new
        ≡ all_moved (flat_map pages_of_turn (map turn_of v.items)) 4 table.old) }
    ensures small { IfOk result (λ v.
        AllByRecursion (IsSmallTurn geo.now.usable geo.now.pages) (map turn_of v.items)) }
    ensures len { IfOk result (λ v. length v.items ≡ length pages.now) }
    // at every exit
    ensures table_front { IfSome (S.bytes src.old) (λ all. MovesFront
        (chains_on (file_of all geo.now) pages.now (unused table.old)) 4 table.old table.new) }
    ensures cause { HasCauseOf faults.Source (S.faults src.old) (S.faults src.new) result }
    ensures kept { KeepsSource S.bytes S.attached S.faults S.reads src.old src.new }
    ensures moves { Moves 4 table.old table.new }
    ensures reads { ReadsEach (S.bytes src.old) geo.now table.old table.new
        (S.reads src.old) (S.reads src.new) (length pages.now + (if is_ok result then 0 else 1)) }
    ensures cached { IsCacheOf (S.bytes src.old) geo.now cache.new }
    ensures full { HasAll cache.old → HasAll cache.new × ReadsEach (S.bytes src.old) geo.now
        table.old table.new (S.reads src.old) (S.reads src.new) (if is_ok result then 0 else 1) }
{
    let mut turns = Vec::with_capacity(alloc, pages.len())?;
    let mut bytes = vec![in alloc; 0; geo.page_size as usize]?;
    let buffer = bytes.as_mut_slice();
    let mut accepted = Accepted::new(alloc, geo.usable)?;
    for page in pages {
        let turn = turn_page(alloc, src, geo, cache, table, *page, buffer, &mut accepted)?;
        turns.push(turn)?;
    }
    Ok(turns)
}
