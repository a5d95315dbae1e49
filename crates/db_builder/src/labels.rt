//! The rows of the schema.

ghost use Rattle.std.specs.Prelude.{◌≡◌, ◌++◌, ◌∷◌, [], IfOk, codes, decimal, length, pos};
ghost use Rattle.record_core.specs.Shortest.{IsWritable, record_bytes};
ghost use Rattle.table_shape.specs.Names.{index_name};
ghost use Rattle.db_builder.specs.Layout.{row_values};
ghost use Rattle.db_builder.specs.Trees.{key_label, table_label};

use itoa::Buffer;
use record_core::{Bytes, FieldSlice, Value, record_len, write_record};
use std::alloc::{AllocError, Global};
use table_shape::OutTable;

/// The values of a table's row, where its root has this number.
pub fn table_values(alloc: Global, table: &OutTable, root: u32) -> Result<Vec<Value>, AllocError>
    ensures { IfOk result (λ v. v.items ≡ row_values (table_label table.now) root) }
{
    let sql = text(alloc, table.text.as_slice())?;
    row_values(
        alloc,
        b"table",
        text(alloc, table.name.as_slice())?,
        table,
        root,
        sql,
    )
}

/// The values of an automatic index's row, where its key and its root have these numbers.
pub fn key_values(
    alloc: Global,
    table: &OutTable,
    number: u32,
    root: u32,
) -> Result<Vec<Value>, AllocError>
    ensures { IfOk result (λ v. v.items ≡ row_values (key_label table.now number) root) }
{
    let name = Value::Text(Bytes::of(index_name(alloc, table.name.as_slice(), number)?));
    row_values(alloc, b"index", name, table, root, Value::Null)
}

fn text(alloc: Global, bytes: &[u8]) -> Result<Value, AllocError>
    ensures { IfOk result (λ v. v ≡ Value.Text bytes.now) }
{
    Ok(Value::Text(Bytes::copy_of(alloc, bytes)?))
}

fn row_values(
    alloc: Global,
    type_name: &[u8],
    name: Value,
    table: &OutTable,
    root: u32,
    sql: Value,
) -> Result<Vec<Value>, AllocError>
    ensures { IfOk result (λ v. v.items ≡ Value.Text type_name.now ∷ name ∷ Value.Text table.now.name
        ∷ Value.Whole (pos root) ∷ sql ∷ []) }
{
    let mut values = Vec::with_capacity(alloc, 5)?;
    values.push(text(alloc, type_name)?)?;
    values.push(name)?;
    values.push(text(alloc, table.name.as_slice())?)?;
    values.push(Value::Whole(i64::from(root)))?;
    values.push(sql)?;
    Ok(values)
}

#[tactic(auto, unfolding(table_shape::specs::Names::index_name))]
fn index_name(alloc: Global, table: &[u8], number: u32) -> Result<Vec<u8>, AllocError>
    ensures { IfOk result (λ v. v.items ≡ index_name table.now number) }
{
    let mut name = Vec::from_slice(alloc, b"sqlite_autoindex_")?;
    name.extend_from_slice(table)?;
    name.extend_from_slice(b"_")?;
    name.extend_from_slice(Buffer::new().format(number).as_bytes())?;
    Ok(name)
}

/// The record of these values.
pub fn record_of(alloc: Global, values: &[Value]) -> Result<Bytes, AllocError>
    requires { IsWritable values.now }
    ensures { IfOk result (λ b. b ≡ record_bytes values.now) }
{
    let fields = FieldSlice { values };
    let mut bytes = vec![in alloc; 0u8; record_len(&fields)]?;
    let _len = write_record(&fields, &mut bytes);
    Ok(Bytes::of(bytes))
}
