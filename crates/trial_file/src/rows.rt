//! The rows.
ghost use Rattle.std.specs.Prelude.{◌≡◌, ◌≤◌, length, map, IfOk};
ghost use Rattle.table_shape.specs.Seen.{row_seen};
ghost use Rattle.trial_file.specs.Rows.{body_of, name_of, row_of, rows_of};
ghost use Rattle.trial_file.specs.Trial.{most_rows};

use itoa::Buffer;
use record_core::{Bytes, Value};
use std::alloc::{AllocError, Global};
use table_shape::OutRow;

/// The rows 1 to `count`.
pub(crate) fn rows_of(alloc: Global, count: u32) -> Result<Vec<OutRow>, AllocError>
    requires { count ≤ most_rows }
    ensures { IfOk result (λ v. map row_seen v.items ≡ rows_of count) }
{
    let mut rows = Vec::with_capacity(alloc, count as usize)?;
    for number in 0..count {
        rows.push(row_of(alloc, number + 1)?)?;
    }
    Ok(rows)
}

// Row `number`, counted from 1.
fn row_of(alloc: Global, number: u32) -> Result<OutRow, AllocError>
    requires { number ≤ most_rows }
    ensures { IfOk result (λ r. row_seen r ≡ row_of number) }
{
    let mut fields = Vec::with_capacity(alloc, 3)?;
    fields.push(Value::Null)?;
    fields.push(Value::Text(name_of(alloc, number)?))?;
    fields.push(Value::Blob(body_of(alloc, number)?))?;
    Ok(OutRow {
        rowid: Some(i64::from(number)),
        fields,
    })
}

// Its text.
fn name_of(alloc: Global, number: u32) -> Result<Bytes, AllocError>
    requires { number ≤ most_rows }
    ensures { IfOk result (λ b. b ≡ name_of number) }
{
    let mixed = u64::from(number) * 40503 % (1 << 20);
    let mut name = Vec::from_slice(alloc, b"n")?;
    name.extend_from_slice(Buffer::new().format(mixed).as_bytes())?;
    Ok(Bytes::of(name))
}

// Its blob.
fn body_of(alloc: Global, number: u32) -> Result<Bytes, AllocError>
    ensures { IfOk result (λ b. b ≡ body_of number) }
{
    let body = vec![in alloc; (number % 256) as u8; (number % 701) as usize]?;
    Ok(Bytes::of(body))
}
