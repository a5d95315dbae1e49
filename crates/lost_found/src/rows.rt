//! The rows of the table, and where they come from.
ghost use Rattle.std.specs.Prelude.{◌≡◌, ◌+◌, ◌≤◌, ◌<◌, ◌^◌, ◌∷◌, length, map, pos, Some, IfOk, OnOk};
ghost use Rattle.std.specs.List.{AllByRecursion};
ghost use Rattle.salvaged_tables.specs.Salvaged.{lost_seen, rows_at};
ghost use Rattle.salvaged_tables.specs.Steps.{GainsRow};
ghost use Rattle.table_shape.specs.Keys.{number_of};
ghost use Rattle.lost_found.specs.Few.{HasFewFields};
ghost use Rattle.lost_found.specs.Rows.{lost_row, lost_rows, most_fields};

use page_walk::TakenCell;
use record_core::Value;
use salvaged_tables::{LostCell, Placed};
use std::alloc::{AllocError, Global};
use table_shape::OutRow;

/// The rows, and where each of them comes from.
#[derive(Debug, Drop)]
pub(crate) struct LostRows {
    pub rows: Vec<OutRow>,
    pub places: Vec<Placed>,
}

/// The greatest number of fields of a cell.
pub(crate) fn most_fields(cells: &[LostCell]) -> usize
    ensures { result ≡ most_fields (map lost_seen cells.now) }
{
    let mut most = 0;
    for cell in cells {
        most = most.max(cell.cell.fields.len());
    }
    most
}

/// A row for each cell, with the rowids 1, 2, 3 and so on.
pub(crate) fn lost_rows(alloc: Global, cells: Vec<LostCell>) -> Result<LostRows, AllocError>
    requires few { AllByRecursion HasFewFields cells.items }
    ensures rows { IfOk result (λ v. rows_at v.rows.items v.places.items
        ≡ lost_rows 1 (map lost_seen cells.items)) }
    ensures places { IfOk result (λ v. length v.rows.items ≡ length v.places.items) }
{
    let mut rows = Vec::new(alloc);
    let mut places = Vec::new(alloc);
    for cell in cells {
        add_row(alloc, cell, &mut rows, &mut places)?;
    }
    Ok(LostRows { rows, places })
}

// Appends the row of a cell and its place.
fn add_row(
    alloc: Global,
    cell: LostCell,
    rows: &mut Vec<OutRow>,
    places: &mut Vec<Placed>,
) -> Result<(), AllocError>
    requires few { HasFewFields cell }
    requires room { length rows.old.items + 1 < 2 ^ 63 }
    ensures row { OnOk result (GainsRow (lost_row (length rows.old.items + 1) (lost_seen cell))
        rows.old.items places.old.items rows.new.items places.new.items) }
    ensures count { OnOk result (length rows.new.items ≡ length rows.old.items + 1) }
{
    let LostCell { root, cell } = cell;
    let TakenCell {
        place,
        rowid,
        chain,
        fields,
    } = cell;
    let fields = lost_fields(alloc, root, place.page, rowid, fields)?;
    rows.push(row_of(rows.len() + 1, fields))?;
    places.push(Placed { place, chain })?;
    Ok(())
}

// A row with a rowid.
fn row_of(rowid: usize, fields: Vec<Value>) -> OutRow
    requires { rowid < 2 ^ 63 }
    ensures rowid { result.rowid ≡ Some (pos rowid) }
    ensures fields { result.fields ≡ fields }
{
    OutRow {
        rowid: Some(whole(rowid)),
        fields,
    }
}

// The fields of the row of a cell with these fields.
fn lost_fields(
    alloc: Global,
    root: u32,
    page: u32,
    rowid: Option<i64>,
    fields: Vec<Value>,
) -> Result<Vec<Value>, AllocError>
    requires { length fields.items ≤ 1996 }
    ensures { IfOk result (λ v. v.items ≡ Value.Whole (pos root) ∷ (Value.Whole (pos page)
        ∷ (Value.Whole (pos (length fields.items)) ∷ (number_of rowid ∷ fields.items)))) }
{
    let mut fields = fields;
    let mut values = Vec::with_capacity(alloc, fields.len() + 4)?;
    values.push(Value::Whole(i64::from(root)))?;
    values.push(Value::Whole(i64::from(page)))?;
    values.push(Value::Whole(whole(fields.len())))?;
    values.push(id_of(rowid))?;
    values.append(&mut fields)?;
    Ok(values)
}

// A count as a whole number.
fn whole(count: usize) -> i64
    requires { count < 2 ^ 63 }
    ensures { result ≡ pos count }
{
    count as i64
}

// A rowid as a value; NULL where there is none.
fn id_of(rowid: Option<i64>) -> Value
    ensures { result ≡ number_of rowid }
{
    match rowid {
        Some(rowid) => Value::Whole(rowid),
        None => Value::Null,
    }
}
