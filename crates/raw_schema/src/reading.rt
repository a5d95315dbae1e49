//! Reading the schema.
ghost use Rattle.std.specs.Prelude.{◌≡◌, ◌≤◌, ◌+◌, [], ◌∷◌, ◌++◌, nat_lt, length, map, IfOk, IfSome, OnOk, is_ok, if◌then◌else◌};
ghost use Rattle.std.specs.List.{AllByRecursion, flat_map};
ghost use Rattle.page_access.specs.Cache.{HasAll, IsCacheOf};
ghost use Rattle.page_access.specs.Files.{file_of};
ghost use Rattle.page_access.specs.Outside.{HasCauseOf, KeepsSource};
ghost use Rattle.page_access.specs.declared.outside.ReadFault.TheVariants as faults;
ghost use Rattle.page_lists.specs.Lists.{IsPartOf};
ghost use Rattle.page_lists.specs.Table.{IsPartition, Moves, MovesFront, all_moved, unused};
ghost use Rattle.overflow_chain.specs.declared.TheConstants.{OVERFLOW_LIST};
ghost use Rattle.page_walk.specs.Bounds.{ArePages};
ghost use Rattle.page_walk.specs.Cells.{row_of};
ghost use Rattle.page_walk.specs.Evidence.{Evidence};
ghost use Rattle.page_walk.specs.InTurn.{turn_of};
ghost use Rattle.page_walk.specs.Rows.{rows_of};
ghost use Rattle.page_walk.specs.Turns.{ReadsEach, chains_on, turns_on};
ghost use Rattle.page_walk.specs.Walk.{kinds_of};
ghost use Rattle.raw_schema.specs.Bounds.{IsSmallSchema};
ghost use Rattle.raw_schema.specs.Schema.{ReadsChains, ReadsTwice, SchemaFront, SchemaMoves, after_schema, bad_in, bad_rows, cells_in, entries_in, noted, schema_notes, schema_pages, schema_rows, schema_turns};

use crate::SCHEMA_LIST;
use crate::entries::sort_out;
use crate::rows::SchemaRow;
use cell_reader::Kind;
use page_access::{Geometry, PageCache, ReadFault, Source};
use page_lists::PageTable;
use page_walk::{PageKinds, PageNotes, PageTurn, TakenCell, read_turns, sort_outcomes, walk_tree};
use std::alloc::{AllocError, Global};

/// The schema of a file. Rows, bad cells and notes are in page order of the schema's tree and then cell
/// order; pages count from 1, cells from 0.
#[derive(Debug, Drop)]
pub struct RawSchema {
    /// The readable cells that are rows of the schema.
    pub rows: Vec<SchemaRow>,
    /// The readable cells that are not.
    pub bad: Vec<TakenCell>,
    /// The pages of the tree, level by level.
    pub pages: Vec<u32>,
    /// Of each page with unread cells its number, and what is noted of them.
    pub notes: Vec<(u32, PageNotes)>,
}

/// Reads the schema: walks the tree of table pages at page 1, and then has its cells take their turns.
/// The pages of the tree move to the list of the schema, their overflow pages to that of overflow pages.
/// After an error the first of these moves, however many, are made.
pub fn read_schema<S: Source>(
    alloc: Global,
    src: &mut S,
    geo: &Geometry,
    cache: &mut PageCache,
    survey: &PageKinds,
    table: &mut PageTable,
) -> Result<RawSchema, ReadFault>
    requires same_pages { table.old.pages ≡ geo.now.pages }
    requires lists { 7 ≤ length table.old.lists }
    requires surveyed { length survey.now ≡ geo.now.pages }
    requires kinds { IfSome (S.bytes src.old)
        (λ all. survey.now ≡ kinds_of (file_of all geo.now)) }
    requires cached { IsCacheOf (S.bytes src.old) geo.now cache.old }
    ensures rows { IfOk result (λ s. IfSome (S.bytes src.old)
        (λ all. s.rows.items ≡ schema_rows (file_of all geo.now) (unused table.old))) }
    ensures bad { IfOk result (λ s. IfSome (S.bytes src.old)
        (λ all. map row_of s.bad.items ≡ bad_rows (file_of all geo.now) (unused table.old))) }
    ensures pages { IfOk result (λ s. IfSome (S.bytes src.old)
        (λ all. s.pages.items ≡ schema_pages (file_of all geo.now) (unused table.old))) }
    ensures notes { IfOk result (λ s. IfSome (S.bytes src.old)
        (λ all. s.notes.items ≡ schema_notes (file_of all geo.now) (unused table.old))) }
    // told or not: unused pages, each once
    ensures part { IfOk result (λ s. IsPartOf s.pages.items (unused table.old)) }
    ensures evidence { OnOk result (IfSome (S.bytes src.old)
        (λ all. AllByRecursion (Evidence (file_of all geo.now))
        (cells_in (schema_turns (file_of all geo.now) (unused table.old))))) }
    ensures table { OnOk result (IfSome (S.bytes src.old)
        (λ all. table.new ≡ after_schema (file_of all geo.now) table.old)) }
    // at every exit
    ensures front { IfSome (S.bytes src.old)
        (λ all. SchemaFront (file_of all geo.now) table.old table.new) }
    ensures cause { HasCauseOf faults.Source (S.faults src.old) (S.faults src.new) result }
    ensures kept { KeepsSource S.bytes S.attached S.faults S.reads src.old src.new }
    ensures moves { SchemaMoves table.old table.new }
    ensures small { IfOk result (λ s.
        IsSmallSchema geo.now.usable geo.now.pages s.rows.items s.bad.items s.pages.items) }
    ensures reads { ReadsTwice (S.bytes src.old) geo.now table.old table.new
        (S.reads src.old) (S.reads src.new) (if is_ok result then 0 else 1) }
    ensures cached { IsCacheOf (S.bytes src.old) geo.now cache.new }
    // where the cache has all pages, only those of chains are read
    ensures full { HasAll cache.old → HasAll cache.new × ReadsChains (S.bytes src.old) geo.now
        table.old table.new (S.reads src.old) (S.reads src.new) (if is_ok result then 0 else 1) }
{
    // tells that the table is a partition
    let _pages = table.pages();
    let pages = walk_tree(
        alloc,
        src,
        geo,
        cache,
        survey,
        table,
        1,
        Kind::Table,
        SCHEMA_LIST,
    )?;
    read_pages(alloc, src, geo, cache, table, pages)
}

// What stands on the pages of the schema's tree, whose cells take their turns.
fn read_pages<S: Source>(
    alloc: Global,
    src: &mut S,
    geo: &Geometry,
    cache: &mut PageCache,
    table: &mut PageTable,
    pages: Vec<u32>,
) -> Result<RawSchema, ReadFault>
    requires same_pages { table.old.pages ≡ geo.now.pages }
    requires lists { 7 ≤ length table.old.lists }
    requires pages { ArePages geo.now.pages pages.items }
    requires partition { IsPartition table.old }
    requires cached { IsCacheOf (S.bytes src.old) geo.now cache.old }
    ensures rows { IfOk result (λ s. IfSome (S.bytes src.old) (λ all. s.rows.items
        ≡ entries_in (cells_in (turns_on (file_of all geo.now) pages.items (unused table.old))))) }
    ensures bad { IfOk result (λ s. IfSome (S.bytes src.old) (λ all. map row_of s.bad.items
        ≡ bad_in (cells_in (turns_on (file_of all geo.now) pages.items (unused table.old))))) }
    ensures pages { IfOk result (λ s. s.pages.items ≡ pages.items) }
    ensures notes { IfOk result (λ s. IfSome (S.bytes src.old) (λ all. s.notes.items
        ≡ flat_map noted (turns_on (file_of all geo.now) pages.items (unused table.old)))) }
    ensures evidence { OnOk result (IfSome (S.bytes src.old)
        (λ all. AllByRecursion (Evidence (file_of all geo.now))
        (cells_in (turns_on (file_of all geo.now) pages.items (unused table.old))))) }
    ensures table { OnOk result (IfSome (S.bytes src.old) (λ all. table.new
        ≡ all_moved (chains_on (file_of all geo.now) pages.items (unused table.old))
        OVERFLOW_LIST table.old)) }
    ensures front { IfSome (S.bytes src.old) (λ all. MovesFront
        (chains_on (file_of all geo.now) pages.items (unused table.old))
        OVERFLOW_LIST table.old table.new) }
    ensures cause { HasCauseOf faults.Source (S.faults src.old) (S.faults src.new) result }
    ensures kept { KeepsSource S.bytes S.attached S.faults S.reads src.old src.new }
    ensures moves { Moves OVERFLOW_LIST table.old table.new }
    ensures small { IfOk result (λ s.
        IsSmallSchema geo.now.usable geo.now.pages s.rows.items s.bad.items s.pages.items) }
    ensures reads { ReadsEach (S.bytes src.old) geo.now table.old table.new
        (S.reads src.old) (S.reads src.new)
        (length pages.items + (if is_ok result then 0 else 1)) }
    ensures cached { IsCacheOf (S.bytes src.old) geo.now cache.new }
    ensures full { HasAll cache.old → HasAll cache.new × ReadsEach (S.bytes src.old) geo.now
        table.old table.new (S.reads src.old) (S.reads src.new) (if is_ok result then 0 else 1) }
{
    let turns = read_turns(alloc, src, geo, cache, table, &pages)?;
    Ok(sort_turns(alloc, turns, pages)?)
}

// The rows of the schema among the cells of these pages, its other readable cells, and notes of the unread ones.
fn sort_turns(alloc: Global, turns: Vec<PageTurn>, pages: Vec<u32>) -> Result<RawSchema, AllocError>
    requires { AllByRecursion (λ t. length t.outcomes.items ≤ 32768) turns.items }
    ensures rows { IfOk result
        (λ s. s.rows.items ≡ entries_in (cells_in (map turn_of turns.items))) }
    ensures bad { IfOk result
        (λ s. map row_of s.bad.items ≡ bad_in (cells_in (map turn_of turns.items))) }
    ensures pages { IfOk result (λ s. s.pages.items ≡ pages.items) }
    ensures notes { IfOk result
        (λ s. s.notes.items ≡ flat_map noted (map turn_of turns.items)) }
{
    let mut rows = Vec::new(alloc);
    let mut bad = Vec::new(alloc);
    let mut notes = Vec::new(alloc);
    for turn in turns {
        sort_turn(alloc, turn, &mut rows, &mut bad, &mut notes)?;
    }
    Ok(RawSchema {
        rows,
        bad,
        pages,
        notes,
    })
}

// Appends the rows of the schema among the cells of a page, its other readable cells, and what is noted of the
// unread ones.
fn sort_turn(
    alloc: Global,
    turn: PageTurn,
    rows: &mut Vec<SchemaRow>,
    bad: &mut Vec<TakenCell>,
    notes: &mut Vec<(u32, PageNotes)>,
) -> Result<(), AllocError>
    requires { length turn.outcomes.items ≤ 32768 }
    ensures rows { OnOk result
        (rows.new.items ≡ rows.old.items ++ entries_in (rows_of (turn_of turn).1)) }
    ensures bad { OnOk result (map row_of bad.new.items
        ≡ map row_of bad.old.items ++ bad_in (rows_of (turn_of turn).1)) }
    ensures notes { OnOk result (notes.new.items ≡ notes.old.items ++ noted (turn_of turn)) }
{
    let PageTurn { page, outcomes } = turn;
    let mut cells = Vec::new(alloc);
    let unread = sort_outcomes(outcomes, &mut cells)?;
    sort_out(cells, rows, bad)?;
    note(page, unread, notes)
}

// Appends what is noted of the page, where it has a cell that is not read.
fn note(page: u32, notes: PageNotes, to: &mut Vec<(u32, PageNotes)>) -> Result<(), AllocError>
    ensures { OnOk result (to.new.items
        ≡ to.old.items ++ (if nat_lt 0 notes.unread then (page, notes) ∷ [] else [])) }
{
    if notes.unread > 0 {
        to.push((page, notes))?;
    }
    Ok(())
}
