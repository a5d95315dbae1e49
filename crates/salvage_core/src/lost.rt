//! The cells that no table has, and their table.
ghost use Rattle.std.specs.Prelude.{◌≡◌, ℕ, map, IfOk, OnOk};
ghost use Rattle.std.specs.List.{AllByRecursion};
ghost use Rattle.page_walk.specs.Cells.{row_of};
ghost use Rattle.lost_found.specs.Names.{CanBeBase};
ghost use Rattle.lost_found.specs.Few.{HasFewFields};
ghost use Rattle.salvaged_tables.specs.Bounds.{ArePlacesOn, IsLostOn};
ghost use Rattle.salvaged_tables.specs.Salvaged.{AreValid, lost_seen};
ghost use Rattle.salvage_laws.specs.Stored.{bad_lost};
ghost use Rattle.salvage_core.specs.Lost.{AreOfSchema, GainsLost, lost_tables, schema_names};

use lost_found::{LostTable, lost_table};
use page_walk::TakenCell;
use raw_schema::SchemaRow;
use record_core::Bytes;
use report_text::ReportLine;
use salvaged_tables::{LostCell, Placed, add_lost};
use std::alloc::{AllocError, Global};
use table_shape::OutTable;

// The root page of the tree of the schema.
const SCHEMA_ROOT: u32 = 1;

/// The cells of the schema's tree that are no rows of it.
pub(crate) fn bad_lost(alloc: Global, bad: Vec<TakenCell>) -> Result<Vec<LostCell>, AllocError>
    ensures { IfOk result (λ v. map lost_seen v.items ≡ bad_lost (map row_of bad.items)) }
{
    let mut lost = Vec::with_capacity(alloc, bad.len())?;
    add_lost(SCHEMA_ROOT, bad, &mut lost)?;
    Ok(lost)
}

/// Adds the table of the lost cells and its line, where there are any.
pub(crate) fn add_lost_table(
    alloc: Global,
    base: &Bytes,
    rows: &[SchemaRow],
    lost: Vec<LostCell>,
    tables: &mut Vec<OutTable>,
    places: &mut Vec<Vec<Placed>>,
    lines: &mut Vec<ReportLine>,
) -> Result<(), AllocError>
    requires base { CanBeBase base.now }
    requires few { AllByRecursion HasFewFields lost.items }
    ensures added { OnOk result (GainsLost
        (lost_tables base.now (schema_names rows.now) (map lost_seen lost.items))
        tables.old.items places.old.items lines.old.items tables.new.items places.new.items lines.new.items) }
    ensures valid { AreValid tables.old.items → AreOfSchema rows.now tables.old.items
        → OnOk result (AreValid tables.new.items) }
    ensures bounds { (pages : ℕ) → ArePlacesOn pages places.old.items
        → AllByRecursion (IsLostOn pages) lost.items → OnOk result (ArePlacesOn pages places.new.items) }
{
    if lost.is_empty() {
        return Ok(());
    }
    let names = names_of(alloc, rows)?;
    let found = lost_table(alloc, base, &names, lost)?;
    let LostTable {
        table,
        places: of_lost,
    } = found;
    lines.push(ReportLine::Lost {
        name: Bytes::copy_of(alloc, table.name.as_slice())?,
        rows: table.rows.len() as u64,
    })?;
    tables.push(table)?;
    places.push(of_lost)?;
    Ok(())
}

// The names of the rows of a schema.
fn names_of(alloc: Global, rows: &[SchemaRow]) -> Result<Vec<Bytes>, AllocError>
    ensures { IfOk result (λ v. v.items ≡ schema_names rows.now) }
{
    let mut names = Vec::with_capacity(alloc, rows.len())?;
    for row in rows {
        names.push(Bytes::copy_of(alloc, row.name.as_slice())?)?;
    }
    Ok(names)
}
