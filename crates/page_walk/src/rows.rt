//! The readable cells of a page.
ghost use Rattle.std.specs.Prelude.{◌≡◌, ◌≤◌, ◌<◌, ◌+◌, ◌^◌, [], ◌∷◌, ◌++◌, length, map, IfOk, IfSome, OnErr, OnOk, is_ok, if◌then◌else◌};
ghost use Rattle.std.specs.List.{AllByRecursion};
ghost use Rattle.page_access.specs.Cache.{HasAll, IsCacheOf};
ghost use Rattle.page_access.specs.Files.{file_of};
ghost use Rattle.page_access.specs.Outside.{HasCauseOf, KeepsSource};
ghost use Rattle.page_access.specs.declared.outside.ReadFault.TheVariants as faults;
ghost use Rattle.page_lists.specs.Table.{Moves, MovesFront, unused};
ghost use Rattle.page_walk.specs.Bounds.{AddsRows};
ghost use Rattle.page_walk.specs.Cells.{chains_of, outcome_of, outcomes_on, row_of};
ghost use Rattle.page_walk.specs.Evidence.{Evidence};
ghost use Rattle.page_walk.specs.Rows.{AddsFront, GainsFront, notes_of, notes_with, rows_of, taken_in};
ghost use Rattle.page_walk.specs.Turns.{ReadsEach, after_turns};

use crate::CellCause;
use crate::cells::cells_of;
use crate::outcomes::{CellOutcome, TakenCell};
use page_access::{Geometry, PageCache, ReadFault, Source};
use page_lists::PageTable;
use std::alloc::{AllocError, Global};

/// What is noted of the cells of a page that are not read.
#[derive(Clone, Copy, Debug, PartialEq, Eq)]
pub struct PageNotes {
    /// How many they are.
    pub unread: u32,
    /// The number of the first, counted from 0, and why it is not read.
    pub first: Option<(u32, CellCause)>,
}

// Appends the cell where it is read, else notes it.
fn sort_one(
    outcome: CellOutcome,
    notes: PageNotes,
    to: &mut Vec<TakenCell>,
) -> Result<PageNotes, AllocError>
    requires { notes.unread + 1 < 2 ^ 32 }
    ensures rows { OnOk result (to.new.items ≡ to.old.items ++ taken_in (outcome ∷ [])) }
    ensures notes { IfOk result (λ n. n ≡ notes_with notes (outcome_of outcome)) }
    ensures err { OnErr result (to.new.items ≡ to.old.items) }
{
    match outcome {
        CellOutcome::Taken(cell) => {
            to.push(cell)?;
            Ok(notes)
        }
        CellOutcome::Unread { cell, cause, .. } => Ok(PageNotes {
            unread: notes.unread + 1,
            first: Some(notes.first.unwrap_or((cell, cause))),
        }),
    }
}

/// Appends the cells that are read, and notes the others.
pub fn sort_outcomes(
    outcomes: Vec<CellOutcome>,
    to: &mut Vec<TakenCell>,
) -> Result<PageNotes, AllocError>
    requires { length outcomes.items ≤ 32768 }
    ensures rows { OnOk result (to.new.items ≡ to.old.items ++ taken_in outcomes.items) }
    ensures notes { IfOk result (λ n. n ≡ notes_of (map outcome_of outcomes.items)) }
    ensures front { GainsFront (taken_in outcomes.items) to.old.items to.new.items }
{
    let mut notes = PageNotes {
        unread: 0,
        first: None,
    };
    for outcome in outcomes {
        notes = sort_one(outcome, notes, to)?;
    }
    Ok(notes)
}

/// Appends the readable cells of the page in cell order, and notes the others. An interior table page
/// and a page without a shape have no readable cells; those of the former that are not accepted are
/// noted. The overflow pages that the cells take move to the list of overflow pages. After an error the first
/// readable cells, however many, are there, and the first of those pages have moved.
pub fn read_cells<S: Source>(
    alloc: Global,
    src: &mut S,
    geo: &Geometry,
    cache: &mut PageCache,
    table: &mut PageTable,
    page: u32,
    to: &mut Vec<TakenCell>,
) -> Result<PageNotes, ReadFault>
    requires page_least { 1 ≤ page }
    requires page_most { page ≤ geo.now.pages }
    requires same_pages { table.old.pages ≡ geo.now.pages }
    requires lists { 7 ≤ length table.old.lists }
    requires cached { IsCacheOf (S.bytes src.old) geo.now cache.old }
    ensures rows { OnOk result (IfSome (S.bytes src.old)
        (λ all. map row_of to.new.items ≡ map row_of to.old.items
        ++ rows_of (outcomes_on (file_of all geo.now) page (unused table.old)))) }
    ensures evidence { OnOk result (IfSome (S.bytes src.old)
        (λ all. AllByRecursion (Evidence (file_of all geo.now))
        (rows_of (outcomes_on (file_of all geo.now) page (unused table.old))))) }
    ensures notes { IfOk result (λ n. IfSome (S.bytes src.old)
        (λ all. n ≡ notes_of (outcomes_on (file_of all geo.now) page (unused table.old)))) }
    ensures table { OnOk result (IfSome (S.bytes src.old)
        (λ all. table.new ≡ after_turns (file_of all geo.now) page table.old)) }
    // at every exit
    ensures front { IfSome (S.bytes src.old) (λ all. AddsFront
        (rows_of (outcomes_on (file_of all geo.now) page (unused table.old)))
        (map row_of to.old.items) (map row_of to.new.items)) }
    ensures table_front { IfSome (S.bytes src.old) (λ all. MovesFront
        (chains_of (outcomes_on (file_of all geo.now) page (unused table.old)))
        4 table.old table.new) }
    ensures cause { HasCauseOf faults.Source (S.faults src.old) (S.faults src.new) result }
    ensures kept { KeepsSource S.bytes S.attached S.faults S.reads src.old src.new }
    ensures moves { Moves 4 table.old table.new }
    ensures adds { AddsRows geo.now.usable geo.now.pages page to.old.items to.new.items }
    ensures reads { ReadsEach (S.bytes src.old) geo.now table.old table.new
        (S.reads src.old) (S.reads src.new) (if is_ok result then 1 else 2) }
    ensures cached { IsCacheOf (S.bytes src.old) geo.now cache.new }
    ensures full { HasAll cache.old → HasAll cache.new × ReadsEach (S.bytes src.old) geo.now
        table.old table.new (S.reads src.old) (S.reads src.new) (if is_ok result then 0 else 1) }
{
    let mut outcomes = Vec::new(alloc);
    cells_of(alloc, src, geo, cache, table, page, &mut outcomes)?;
    Ok(sort_outcomes(outcomes, to)?)
}
