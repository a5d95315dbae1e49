//! The numbers of a database are those that their types hold.

ghost use Rattle.std.specs.Prelude.{◌≡◌, ◌<◌, ◌^◌, length};
ghost use Rattle.std.specs.List.{AllByRecursion};
ghost use Rattle.record_core.specs.Shortest.{AllStored, IsStored};
ghost use Rattle.table_shape.specs.declared.rows.OutRow.{OutRow};
ghost use Rattle.table_shape.specs.Seen.{row_seen};
ghost use Rattle.layout_laws.specs.Written.{HasTypedRows, IsTyped, IsTypedRow};

use db_builder::OutDb;
use record_core::Value;
use table_shape::{OutRow, OutTable};

/// The numbers of a database are those that their types hold: a caller that has a database needs no
/// proof of it. Reads each value once.
pub fn numbers_are_typed(db: &OutDb)
    ensures { IsTyped db.now }
{
    number_is_typed(db.user_version);
    number_is_typed(db.application_id);
    tables_are_typed(db.tables.as_slice());
}

fn number_is_typed(number: u32)
    ensures { number < 2 ^ 32 }
{}

fn tables_are_typed(tables: &[OutTable])
    ensures { AllByRecursion HasTypedRows tables.now }
{
    for table in tables {
        table_is_typed(table);
    }
}

fn table_is_typed(table: &OutTable)
    ensures { HasTypedRows table.now }
{
    rows_are_typed(table.rows.as_slice());
}

fn rows_are_typed(rows: &[OutRow])
    ensures { AllByRecursion (λ (row : OutRow). IsTypedRow (row_seen row)) rows.now }
{
    for row in rows {
        row_is_typed(row);
    }
}

fn row_is_typed(row: &OutRow)
    ensures { IsTypedRow (row_seen row.now) }
{
    if let Some(rowid) = row.rowid {
        let _rowid = rowid;
    }
    values_are_typed(row.fields.as_slice());
}

fn values_are_typed(values: &[Value])
    ensures { AllStored values.now }
{
    for value in values {
        value_is_typed(value);
    }
}

fn value_is_typed(value: &Value)
    ensures { IsStored value.now }
{
    match value {
        Value::Whole(number) => {
            let _number = *number;
        }
        Value::Real8(bytes) => {
            length_of(bytes);
        }
        Value::Null | Value::Text(_) | Value::Blob(_) => {}
    }
}

fn length_of(bytes: &[u8]) -> usize
    ensures { result ≡ length bytes.now }
{
    bytes.len()
}
