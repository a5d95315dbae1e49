//! What the keys of a table ask of a cell.

ghost use Rattle.std.specs.Prelude.{◌≡◌, ◌&&◌, List, IfOk, map, not, Option};
ghost use Rattle.std.specs.List.{list_all};
ghost use Rattle.key_order.specs.Order.{folded, is_orderable};
ghost use Rattle.table_shape.specs.Keys.{fits, has_null, has_order, has_parts, has_spot, is_null, key_of, keys_seen, number_of, orderable_row, parts_seen, value_at};
ghost use Rattle.page_walk.specs.Cells.{row_of};
ghost use Rattle.table_fill.specs.Fates.{first_unordered, held};

use key_order::{FoldedKey, fold, orderable};
use page_walk::{Place, TakenCell};
use record_core::Value;
use std::alloc::{AllocError, Global};
use table_shape::{KeyPart, KeyPlan, Spot, TablePlan};

/// Whether the cell fits: it has at most as many fields as there are columns, each key column has its
/// field, and no field of the key that orders the rows is NULL.
pub fn fits(plan: &TablePlan, cell: &TakenCell) -> bool
    ensures { result ≡ fits (keys_seen plan.now) (held (row_of cell.now)) }
{
    let first = plan.first.as_slice();
    cell.fields.len() <= plan.columns
        && has_parts(first, cell)
        && !has_null(first, cell)
        && have_parts(plan.keys.as_slice(), cell)
}

/// The first cell that fits and has a key field that cannot be ordered.
pub fn first_unordered(plan: &TablePlan, cells: &[TakenCell]) -> Option<Place>
    ensures { result ≡ first_unordered (keys_seen plan.now) (map row_of cells.now) }
{
    for cell in cells {
        if fits(plan, cell) && !is_ordered(plan, cell) {
            return Some(cell.place);
        }
    }
    None
}

/// Whether a field of the key is NULL.
pub fn has_null(parts: &[KeyPart], cell: &TakenCell) -> bool
    ensures { result ≡ has_null parts.now (held (row_of cell.now)) }
{
    for part in parts {
        if is_null_at(cell, part.spot) {
            return true;
        }
    }
    false
}

/// The key of the cell as its collations see it.
pub fn key_of(alloc: Global, parts: &[KeyPart], cell: &TakenCell) -> Result<FoldedKey, AllocError>
    ensures { IfOk result (λ k. k ≡ key_of parts.now (held (row_of cell.now))) }
{
    let mut key = FoldedKey::new(alloc);
    for part in parts {
        key.push(folded_at(alloc, part, cell)?)?;
    }
    Ok(key)
}

fn folded_at(alloc: Global, part: &KeyPart, cell: &TakenCell) -> Result<Value, AllocError>
    ensures { IfOk result (λ v. v ≡ folded part.now.coll (value_at (held (row_of cell.now)) part.now.spot)) }
{
    match part.spot {
        Spot::Rowid => Ok(number_of(cell.rowid)),
        Spot::Field(i) => match cell.fields.get(i) {
            Some(value) => fold(alloc, value, part.coll),
            None => Ok(Value::Null),
        },
    }
}

fn number_of(rowid: Option<i64>) -> Value
    ensures { result ≡ number_of rowid }
{
    match rowid {
        Some(number) => Value::Whole(number),
        None => Value::Null,
    }
}

fn is_null(value: &Value) -> bool
    ensures { result ≡ is_null value.now }
{
    match value {
        Value::Null => true,
        Value::Whole(_) | Value::Real8(_) | Value::Text(_) | Value::Blob(_) => false,
    }
}

fn is_null_at(cell: &TakenCell, spot: Spot) -> bool
    ensures { result ≡ is_null (value_at (held (row_of cell.now)) spot) }
{
    match spot {
        Spot::Rowid => cell.rowid.is_none(),
        Spot::Field(i) => match cell.fields.get(i) {
            Some(value) => is_null(value),
            None => true,
        },
    }
}

fn has_spot(cell: &TakenCell, spot: Spot) -> bool
    ensures { result ≡ has_spot (held (row_of cell.now)) spot }
{
    match spot {
        Spot::Rowid => true,
        Spot::Field(i) => i < cell.fields.len(),
    }
}

fn has_parts(parts: &[KeyPart], cell: &TakenCell) -> bool
    ensures { result ≡ has_parts parts.now (held (row_of cell.now)) }
{
    for part in parts {
        if !has_spot(cell, part.spot) {
            return false;
        }
    }
    true
}

fn have_parts(keys: &[KeyPlan], cell: &TakenCell) -> bool
    ensures { result ≡ list_all (λ k. has_parts k.parts (held (row_of cell.now))) (map parts_seen keys.now) }
{
    for key in keys {
        if !has_parts(key.parts.as_slice(), cell) {
            return false;
        }
    }
    true
}

fn is_ordered_at(cell: &TakenCell, part: &KeyPart) -> bool
    ensures { result ≡ is_orderable part.now.coll (value_at (held (row_of cell.now)) part.now.spot) }
{
    match part.spot {
        Spot::Rowid => true,
        Spot::Field(i) => match cell.fields.get(i) {
            Some(value) => orderable(value, part.coll),
            None => true,
        },
    }
}

fn has_order(parts: &[KeyPart], cell: &TakenCell) -> bool
    ensures { result ≡ has_order parts.now (held (row_of cell.now)) }
{
    for part in parts {
        if !is_ordered_at(cell, part) {
            return false;
        }
    }
    true
}

fn have_order(keys: &[KeyPlan], cell: &TakenCell) -> bool
    ensures { result ≡ list_all (λ k. has_order k.parts (held (row_of cell.now))) (map parts_seen keys.now) }
{
    for key in keys {
        if !has_order(key.parts.as_slice(), cell) {
            return false;
        }
    }
    true
}

fn is_ordered(plan: &TablePlan, cell: &TakenCell) -> bool
    ensures { result ≡ orderable_row (keys_seen plan.now) (held (row_of cell.now)) }
{
    has_order(plan.first.as_slice(), cell) && have_order(plan.keys.as_slice(), cell)
}
