//! The order of the entries of an automatic index.

ghost use Rattle.std.specs.Prelude.{◌≡◌, ◌<◌, ◌^◌, IfOk, length, map};
ghost use Rattle.std.specs.Cmp.Lexicographic.{slice_cmp};
ghost use Rattle.std.specs.List.{range_with_len};
ghost use Rattle.key_order.specs.Order.{folded, value_cmp};
ghost use Rattle.table_shape.specs.Entries.{in_order};
ghost use Rattle.table_shape.specs.Keys.{key_of, value_at};
ghost use Rattle.table_shape.specs.Seen.{row_seen};
ghost use Rattle.db_builder.specs.Views.{NamesRows, no_row, row_at};

use crate::indexes::number_of;
use key_order::value_order;
use record_core::Value;
use std::alloc::{AllocError, Global};
use std::cmp::Ordering;
use table_shape::{KeyPart, OutRow, Spot};

/// The numbers of rows, counted from 0, in the order of a key; of rows with equal keys the first. Keys are
/// compared where they lie, so that four bytes a row are all the memory that is taken.
pub fn order_of(alloc: Global, parts: &[KeyPart], rows: &[OutRow]) -> Result<Vec<u32>, AllocError>
    requires { length rows.now < 2 ^ 32 }
    ensures order { IfOk result (λ v. map (row_at rows.now) v.items
        ≡ map (λ e. e.1) (in_order (key_of parts.now) (map row_seen rows.now))) }
    ensures there { IfOk result (λ v. NamesRows v.items (length rows.now)) }
    ensures few { IfOk result (λ v. length v.items < 2 ^ 32) }
{
    let none = OutRow {
        rowid: None,
        fields: Vec::new(alloc),
    };
    let keyed = KeyedRows {
        parts,
        rows,
        none: &none,
    };
    let mut numbers = numbers_below(alloc, rows.len() as u32)?;
    numbers.sort_unstable_by(|a, b| keyed.order(*a, *b).then(a.cmp(b)));
    numbers.dedup_by(|later, kept| keyed.order(*later, *kept) == Ordering::Equal);
    Ok(numbers)
}

// The numbers below a number, as they rise.
fn numbers_below(alloc: Global, count: u32) -> Result<Vec<u32>, AllocError>
    ensures { IfOk result (λ v. v.items ≡ range_with_len 0 count) }
{
    let mut numbers = Vec::with_capacity(alloc, count as usize)?;
    for number in 0..count {
        numbers.push(number)?;
    }
    Ok(numbers)
}

// Rows by the numbers that name them, each with a key. A number that names no row stands for a row without
// values.
#[derive(Clone, Copy)]
struct KeyedRows<'a> {
    parts: &'a [KeyPart],
    rows: &'a [OutRow],
    none: &'a OutRow,
    ghost empty: { row_seen none.now ≡ no_row },
}

impl<'a> KeyedRows<'a> {
    // The order of the keys of two rows.
    fn order(&self, a: u32, b: u32) -> Ordering
        ensures { result ≡ slice_cmp value_cmp (key_of self.now.parts.now (row_at self.now.rows.now a))
            (key_of self.now.parts.now (row_at self.now.rows.now b)) }
    {
        keys_order(self.parts, self.row(a), self.row(b))
    }

    fn row(&self, number: u32) -> &OutRow
        ensures { row_seen result.now ≡ row_at self.now.rows.now number }
    {
        match self.rows.get(number as usize) {
            Some(row) => row,
            None => self.none,
        }
    }
}

// The order of two rows by the first part of their keys that differs.
fn keys_order(parts: &[KeyPart], a: &OutRow, b: &OutRow) -> Ordering
    ensures { result ≡ slice_cmp value_cmp (key_of parts.now (row_seen a.now))
        (key_of parts.now (row_seen b.now)) }
{
    for part in parts {
        let order = part_order(part, a, b);
        if order != Ordering::Equal {
            return order;
        }
    }
    Ordering::Equal
}

// The order of the values of two rows at a part of a key, as its collation sees them.
fn part_order(part: &KeyPart, a: &OutRow, b: &OutRow) -> Ordering
    ensures { result ≡ value_cmp (folded part.now.coll (value_at (row_seen a.now) part.now.spot))
        (folded part.now.coll (value_at (row_seen b.now) part.now.spot)) }
{
    match part.spot {
        Spot::Rowid => value_order(&number_of(a.rowid), &number_of(b.rowid), part.coll),
        Spot::Field(i) => {
            let null = Value::Null;
            let first = a.fields.get(i).unwrap_or(&null);
            let second = b.fields.get(i).unwrap_or(&null);
            value_order(first, second, part.coll)
        }
    }
}
