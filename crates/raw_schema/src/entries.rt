//! Which readable cells are rows of the schema.
ghost use Rattle.std.specs.Prelude.{◌≡◌, [], ◌∷◌, ◌++◌, filter, is_none, is_some, map, OnOk, option_and_then};
ghost use Rattle.page_walk.specs.Cells.{row_of};
ghost use Rattle.raw_schema.specs.Rows.{entry_of, kind_named, root_in, row_in, sql_in, text_in};
ghost use Rattle.raw_schema.specs.Schema.{entries_in};

use crate::rows::{SchemaKind, SchemaRow};
use page_walk::{Place, TakenCell};
use record_core::{Bytes, Value};
use std::alloc::AllocError;

// The kind that a word names.
#[tactic(auto, unfolding(crate::specs::Rows::kind_named))]
fn kind_of_word(word: &[u8]) -> Option<SchemaKind>
    ensures { result ≡ kind_named word.now }
{
    if word == b"table".as_slice() {
        return Some(SchemaKind::Table);
    }
    if word == b"index".as_slice() {
        return Some(SchemaKind::Index);
    }
    if word == b"view".as_slice() {
        return Some(SchemaKind::View);
    }
    if word == b"trigger".as_slice() {
        return Some(SchemaKind::Trigger);
    }
    None
}

// The kind that a value names, where it is a text.
fn kind_of(value: &Value) -> Option<SchemaKind>
    ensures { result ≡ option_and_then kind_named (text_in value.now) }
{
    match value {
        Value::Text(word) => kind_of_word(word.as_slice()),
        _ => None,
    }
}

// The text that a value is.
fn text_of(value: Value) -> Option<Bytes>
    ensures { result ≡ text_in value }
{
    match value {
        Value::Text(text) => Some(text),
        _ => None,
    }
}

// The root page that a value gives: NULL gives 0.
fn root_of(value: Value) -> Option<i64>
    ensures { result ≡ root_in value }
{
    match value {
        Value::Whole(number) => Some(number),
        Value::Null => Some(0),
        _ => None,
    }
}

// The text of a statement that a value gives: NULL gives none.
fn sql_of(value: Value) -> Option<Option<Bytes>>
    ensures { result ≡ sql_in value }
{
    match value {
        Value::Text(text) => Some(Some(text)),
        Value::Null => Some(None),
        _ => None,
    }
}

// Whether the values of the cell are those of a row of the schema.
fn is_row(cell: &TakenCell) -> bool
    ensures { result ≡ is_some (entry_of (row_of cell.now)) }
{
    let [word, name, tbl, number, sql] = cell.fields.as_slice() else {
        return false;
    };
    kind_of(word).is_some()
        && matches!(name, Value::Text(_))
        && matches!(tbl, Value::Text(_))
        && matches!(number, Value::Whole(_) | Value::Null)
        && matches!(sql, Value::Text(_) | Value::Null)
}

// The row of the schema that these values are, if they are one.
fn row_from(place: Place, fields: Vec<Value>) -> Option<SchemaRow>
    ensures { result ≡ row_in place fields.items }
{
    let mut values = fields.into_iter();
    let kind = kind_of(&values.next()?)?;
    let name = text_of(values.next()?)?;
    let tbl = text_of(values.next()?)?;
    let root = root_of(values.next()?)?;
    let sql = sql_of(values.next()?)?;
    if values.next().is_some() {
        return None;
    }
    Some(SchemaRow {
        kind,
        name,
        tbl,
        root,
        sql,
        place,
    })
}

// Appends the row of the schema that the cell is, or else the cell.
fn sort_one(
    cell: TakenCell,
    rows: &mut Vec<SchemaRow>,
    bad: &mut Vec<TakenCell>,
) -> Result<(), AllocError>
    ensures rows { OnOk result (rows.new.items ≡ rows.old.items ++ entries_in (row_of cell ∷ [])) }
    ensures bad { OnOk result (bad.new.items
        ≡ bad.old.items ++ filter (λ t. is_none (entry_of (row_of t))) (cell ∷ [])) }
{
    if is_row(&cell) {
        let TakenCell { place, fields, .. } = cell;
        rows.push(row_from(place, fields).unwrap())?;
        return Ok(());
    }
    bad.push(cell)?;
    Ok(())
}

// Appends the cells that are rows of the schema as such rows, and the others as they are.
pub fn sort_out(
    cells: Vec<TakenCell>,
    rows: &mut Vec<SchemaRow>,
    bad: &mut Vec<TakenCell>,
) -> Result<(), AllocError>
    ensures rows { OnOk result
        (rows.new.items ≡ rows.old.items ++ entries_in (map row_of cells.items)) }
    ensures bad { OnOk result (bad.new.items
        ≡ bad.old.items ++ filter (λ t. is_none (entry_of (row_of t))) cells.items) }
{
    for cell in cells {
        sort_one(cell, rows, bad)?;
    }
    Ok(())
}
