//! The payload and the record of an entry.
ghost use Rattle.std.specs.Prelude.{◌≡◌, ◌≤◌, ◌+◌, ◌*◌, ◌-◌, List, Result, length, map, IfOk, IfSome, IsErrOf, OnOk, Some, is_ok, option_to_list, if◌then◌else◌};
ghost use Rattle.page_access.specs.Files.{file_of};
ghost use Rattle.page_access.specs.Outside.{HasCauseOf, KeepsSource};
ghost use Rattle.page_access.specs.declared.outside.ReadFault.TheVariants as faults;
ghost use Rattle.page_lists.specs.Table.{Moves, MovesFront, all_moved, unused};
ghost use Rattle.record_core.specs.Record.{Gives, record_of};
ghost use Rattle.record_core.specs.declared.faults.RecordFault.{RecordFault};
ghost use Rattle.record_core.specs.declared.values.Value.{Value};
ghost use Rattle.cell_reader.specs.Inside.{HasOverflow, IsInside, has_payload};
ghost use Rattle.overflow_chain.specs.Turn.{Takes};
ghost use Rattle.page_walk.specs.Bounds.{IsSmall};
ghost use Rattle.page_walk.specs.Cells.{chain_of, chains_of, entry_at, missing, outcome_at, outcome_of, read_as, turn_from};
ghost use Rattle.page_walk.specs.Turns.{ReadsEach, RestTaken};

use crate::CellCause;
use crate::outcomes::{CellOutcome, Place, TakenCell};
use cell_reader::{CellView, Kind, PageShape};
use overflow_chain::{ChainEnd, read_chain};
use page_access::{Geometry, ReadFault, Source};
use page_lists::PageTable;
use record_core::{RecordFault, Value, read_record, take_record};
use std::alloc::Global;

// Whether the cells of a page have a payload.
fn cells_have_payload(shape: &PageShape) -> bool
    ensures { result ≡ has_payload shape.now.kind shape.now.leaf }
{
    match shape.kind {
        Kind::Table => shape.leaf,
        Kind::Index => true,
    }
}

// Appends the bytes of an entry's payload that are not local, and the pages that its chain, which begins
// with page `first`, takes.
fn read_rest<S: Source>(
    alloc: Global,
    src: &mut S,
    geo: &Geometry,
    table: &mut PageTable,
    view: &CellView,
    first: u32,
    chain: &mut Vec<u32>,
    payload: &mut Vec<u8>,
) -> Result<ChainEnd, ReadFault>
    requires same_pages { table.old.pages ≡ geo.now.pages }
    requires lists { 7 ≤ length table.old.lists }
    requires first { view.now.overflow ≡ Some first }
    requires local { view.now.local_start ≤ view.now.local_end }
    requires overflow { HasOverflow view.now.overflow
        (view.now.local_end - view.now.local_start) view.now.total }
    requires most { view.now.total ≤ geo.now.pages * geo.now.usable }
    ensures value { IfOk result (λ end. IfSome (S.bytes src.old)
        (λ all. RestTaken (file_of all geo.now) view.now table.old table.new
        chain.old.items chain.new.items payload.old.items payload.new.items end)) }
    ensures taken { OnOk result (Takes (missing view.now) table.old table.new
        chain.old.items chain.new.items payload.old.items payload.new.items) }
    // at every exit
    ensures front { IfSome (S.bytes src.old) (λ all. MovesFront
        (turn_from (file_of all geo.now) (missing view.now) view.now.overflow (unused table.old))
        4 table.old table.new) }
    ensures cause { HasCauseOf faults.Source (S.faults src.old) (S.faults src.new) result }
    ensures kept { KeepsSource S.bytes S.attached S.faults S.reads src.old src.new }
    ensures moves { Moves 4 table.old table.new }
    ensures reads { ReadsEach (S.bytes src.old) geo.now table.old table.new
        (S.reads src.old) (S.reads src.new) (if is_ok result then 0 else 1) }
{
    let need = view.total - u64::from(view.local_end - view.local_start);
    read_chain(alloc, src, geo, table, first, need, chain, payload)
}

// What becomes of a cell whose payload is whole and was read so.
fn judge(
    place: Place,
    rowid: Option<i64>,
    chain: Vec<u32>,
    read: Result<Vec<Value>, RecordFault>,
) -> Result<CellOutcome, ReadFault>
    ensures value { (wanted : Result (List Value) RecordFault) → Gives (λ v. v.items) read wanted
        → IfOk result (λ o. outcome_of o ≡ read_as place.page place.cell rowid chain.items wanted) }
    ensures memory { IsErrOf result faults.Source → ⊥ }
{
    match read {
        Ok(fields) => Ok(CellOutcome::Taken(TakenCell {
            place,
            rowid,
            chain,
            fields,
        })),
        Err(RecordFault::Memory) => Err(ReadFault::Memory),
        Err(_) => Ok(CellOutcome::Unread {
            cell: place.cell,
            rowid,
            cause: CellCause::BadRecord,
            chain,
        }),
    }
}

// What becomes of an entry at its turn.
#[tactic(auto, unfolding(crate::specs::Cells::entry_at))]
fn take_entry<S: Source>(
    alloc: Global,
    src: &mut S,
    geo: &Geometry,
    table: &mut PageTable,
    page: &[u8],
    place: Place,
    view: &CellView,
) -> Result<CellOutcome, ReadFault>
    requires same_pages { table.old.pages ≡ geo.now.pages }
    requires lists { 7 ≤ length table.old.lists }
    requires local { view.now.local_start ≤ view.now.local_end }
    requires within { view.now.local_end ≤ length page.now }
    requires overflow { HasOverflow view.now.overflow
        (view.now.local_end - view.now.local_start) view.now.total }
    requires most { view.now.total ≤ geo.now.pages * geo.now.usable }
    ensures value { IfOk result (λ o. IfSome (S.bytes src.old)
        (λ all. outcome_of o ≡ entry_at (file_of all geo.now) page.now place.page place.cell view.now
        (unused table.old))) }
    ensures moved { IfOk result (λ o. table.new ≡ all_moved (chain_of (outcome_of o)) 4 table.old) }
    ensures small { IfOk result (λ o. IsSmall geo.now.usable geo.now.pages place.page
        (outcome_of o)) }
    // at every exit
    ensures front { IfSome (S.bytes src.old) (λ all. MovesFront
        (turn_from (file_of all geo.now) (missing view.now) view.now.overflow (unused table.old))
        4 table.old table.new) }
    ensures cause { HasCauseOf faults.Source (S.faults src.old) (S.faults src.new) result }
    ensures kept { KeepsSource S.bytes S.attached S.faults S.reads src.old src.new }
    ensures moves { Moves 4 table.old table.new }
    ensures reads { ReadsEach (S.bytes src.old) geo.now table.old table.new
        (S.reads src.old) (S.reads src.new) (if is_ok result then 0 else 1) }
{
    let local = &page[view.local_start as usize..view.local_end as usize];
    let Some(first) = view.overflow else {
        let read = read_record(alloc, local);
        return judge(place, view.rowid, Vec::new(alloc), read);
    };
    let mut chain = Vec::new(alloc);
    let mut payload = Vec::from_slice(alloc, local)?;
    let end = read_rest(
        alloc,
        src,
        geo,
        table,
        view,
        first,
        &mut chain,
        &mut payload,
    )?;
    if end != ChainEnd::Whole {
        return Ok(CellOutcome::Unread {
            cell: place.cell,
            rowid: view.rowid,
            cause: CellCause::Chain,
            chain,
        });
    }
    judge(place, view.rowid, chain, take_record(alloc, payload))
}

// What becomes of a cell at its turn; an accepted cell without a payload has no outcome.
pub fn take_cell<S: Source>(
    alloc: Global,
    src: &mut S,
    geo: &Geometry,
    table: &mut PageTable,
    page: &[u8],
    shape: &PageShape,
    place: Place,
    cell: Result<CellView, CellCause>,
) -> Result<Option<CellOutcome>, ReadFault>
    requires same_pages { table.old.pages ≡ geo.now.pages }
    requires lists { 7 ≤ length table.old.lists }
    requires whole { geo.now.usable ≤ length page.now }
    requires inside { IfOk cell (λ v. IsInside geo.now.usable geo.now.pages shape.now v) }
    ensures value { IfOk result (λ o. IfSome (S.bytes src.old)
        (λ all. map outcome_of (option_to_list o) ≡ outcome_at (file_of all geo.now) page.now place.page
        (has_payload shape.now.kind shape.now.leaf) place.cell cell (unused table.old))) }
    ensures moved { IfOk result
        (λ o. table.new ≡ all_moved (chains_of (map outcome_of (option_to_list o))) 4 table.old) }
    ensures small { IfOk result
        (λ o. IfSome o (λ x. IsSmall geo.now.usable geo.now.pages place.page (outcome_of x))) }
    // at every exit
    ensures front { IfSome (S.bytes src.old) (λ all. MovesFront
        (chains_of (outcome_at (file_of all geo.now) page.now place.page
        (has_payload shape.now.kind shape.now.leaf) place.cell cell (unused table.old)))
        4 table.old table.new) }
    ensures cause { HasCauseOf faults.Source (S.faults src.old) (S.faults src.new) result }
    ensures kept { KeepsSource S.bytes S.attached S.faults S.reads src.old src.new }
    ensures moves { Moves 4 table.old table.new }
    ensures reads { ReadsEach (S.bytes src.old) geo.now table.old table.new
        (S.reads src.old) (S.reads src.new) (if is_ok result then 0 else 1) }
{
    let view = match cell {
        Ok(view) => view,
        Err(cause) => {
            return Ok(Some(CellOutcome::Unread {
                cell: place.cell,
                rowid: None,
                cause,
                chain: Vec::new(alloc),
            }));
        }
    };
    if !cells_have_payload(shape) {
        return Ok(None);
    }
    let outcome = take_entry(alloc, src, geo, table, page, place, &view)?;
    Ok(Some(outcome))
}
