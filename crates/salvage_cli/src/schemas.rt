//! The listing of the schema.
ghost use Rattle.std.specs.Prelude.{◌≡◌, ◌+◌, ◌*◌, map, IfOk, IfSome};
ghost use Rattle.std.specs.List.{flat_map};
ghost use Rattle.page_access.specs.Files.{FewReads, file_of};
ghost use Rattle.page_access.specs.Outside.{HasCauseOf, KeepsSink, KeepsSource, Writes, WritesOf};
ghost use Rattle.page_walk.specs.Cells.{row_of};
ghost use Rattle.salvage_cli.specs.Schema.{bad_line, lines_text, row_line, schema_text};

use dbdata_list::ListFault;
use page_access::{Failed, Geometry, PageCache, ReadFault, Sink, Source};
use page_lists::PageTable;
use page_walk::{LISTS, TakenCell, survey};
use raw_schema::{RawSchema, SchemaRow, read_schema};
use report_text::{ReportLine, put_line};
use std::alloc::Global;

// How many pages are in memory at a time.
const CACHED_PAGES: u32 = 64;

/// Lists the rows of the schema, and then the readable cells of its tree that are no rows of it.
pub(crate) fn list_schema<S: Source, R: Sink>(
    alloc: Global,
    src: &mut S,
    geo: &Geometry,
    to: &mut R,
) -> Result<(), ListFault>
    ensures text { IfSome (S.bytes src.old) (λ all.
        WritesOf ListFault.Sink (R.bytes to.old) (R.bytes to.new) (R.faults to.old)
        (R.faults to.new) (schema_text (file_of all geo.now)) result) }
    ensures source { HasCauseOf ListFault.Source (S.faults src.old) (S.faults src.new) result }
    ensures sink { HasCauseOf ListFault.Sink (R.faults to.old) (R.faults to.new) result }
    ensures kept { KeepsSource S.bytes S.attached S.faults S.reads src.old src.new }
    ensures kept_sink { KeepsSink R.created R.finished R.faults to.old to.new }
    // each page is read once, and those of the schema twice more
    ensures reads { FewReads (S.bytes src.old) geo.now
        (S.reads src.old) (S.reads src.new) (3 * geo.now.pages + 1) }
{
    let schema = schema_of(alloc, src, geo)?;
    put_schema(schema, to)?;
    Ok(())
}

// The schema of a file, over a new table of its pages.
#[tactic(auto, unfolding(crate::specs::Schema::schema_text))]
fn schema_of<S: Source>(alloc: Global, src: &mut S, geo: &Geometry) -> Result<RawSchema, ReadFault>
    ensures text { IfOk result (λ s. IfSome (S.bytes src.old) (λ all.
        lines_text s.rows.items (map row_of s.bad.items) ≡ schema_text (file_of all geo.now))) }
    ensures source { HasCauseOf ReadFault.Source (S.faults src.old) (S.faults src.new) result }
    ensures kept { KeepsSource S.bytes S.attached S.faults S.reads src.old src.new }
    ensures reads { FewReads (S.bytes src.old) geo.now
        (S.reads src.old) (S.reads src.new) (3 * geo.now.pages + 1) }
{
    let mut cache = PageCache::new(alloc, geo, CACHED_PAGES)?;
    let kinds = survey(alloc, src, geo, &mut cache)?;
    let mut table = PageTable::new(alloc, geo.pages, LISTS)?;
    read_schema(alloc, src, geo, &mut cache, &kinds, &mut table)
}

// Puts the lines of a schema.
fn put_schema<R: Sink>(schema: RawSchema, to: &mut R) -> Result<(), Failed>
    ensures writes { Writes (R.bytes to.old) (R.bytes to.new) (R.faults to.old) (R.faults to.new)
        (lines_text schema.rows.items (map row_of schema.bad.items)) result }
    ensures kept { KeepsSink R.created R.finished R.faults to.old to.new }
{
    put_rows(schema.rows, to)?;
    put_bad_rows(&schema.bad, to)
}

// Puts the lines of the rows.
fn put_rows<R: Sink>(rows: Vec<SchemaRow>, to: &mut R) -> Result<(), Failed>
    ensures writes { Writes (R.bytes to.old) (R.bytes to.new) (R.faults to.old) (R.faults to.new)
        (flat_map row_line rows.items) result }
    ensures kept { KeepsSink R.created R.finished R.faults to.old to.new }
{
    for row in rows {
        put_row(row, to)?;
    }
    Ok(())
}

// Puts the line of a row.
fn put_row<R: Sink>(row: SchemaRow, to: &mut R) -> Result<(), Failed>
    ensures writes { Writes (R.bytes to.old) (R.bytes to.new) (R.faults to.old) (R.faults to.new)
        (row_line row) result }
    ensures kept { KeepsSink R.created R.finished R.faults to.old to.new }
{
    let line = ReportLine::Row {
        page: u64::from(row.place.page),
        cell: u64::from(row.place.cell),
        kind: row.kind,
        name: row.name,
        tbl: row.tbl,
        root: row.root,
        sql: row.sql,
    };
    put_line(&line, to)
}

// Puts the lines of the cells that are no rows.
fn put_bad_rows<R: Sink>(cells: &[TakenCell], to: &mut R) -> Result<(), Failed>
    ensures writes { Writes (R.bytes to.old) (R.bytes to.new) (R.faults to.old) (R.faults to.new)
        (flat_map bad_line (map row_of cells.now)) result }
    ensures kept { KeepsSink R.created R.finished R.faults to.old to.new }
{
    for cell in cells {
        put_bad_row(cell, to)?;
    }
    Ok(())
}

// Puts the line of a cell that is no row.
fn put_bad_row<R: Sink>(cell: &TakenCell, to: &mut R) -> Result<(), Failed>
    ensures writes { Writes (R.bytes to.old) (R.bytes to.new) (R.faults to.old) (R.faults to.new)
        (bad_line (row_of cell.now)) result }
    ensures kept { KeepsSink R.created R.finished R.faults to.old to.new }
{
    let line = ReportLine::BadRow {
        page: u64::from(cell.place.page),
        cell: u64::from(cell.place.cell),
    };
    put_line(&line, to)
}
