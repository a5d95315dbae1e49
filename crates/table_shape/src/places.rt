//! Where a column stands in a stored record, and what becomes of REAL columns.

ghost use Rattle.std.specs.Prelude.{◌≡◌, ◌+◌, ◌-◌, ◌<◌, ◌≤◌, ℕ, List, length, count_by, map, nat_lt, ◌==◌, position, IfSome};
ghost use Rattle.std.specs.List.{list_any};
ghost use Rattle.table_shape.specs.Seen.{shape_seen};
ghost use Rattle.table_shape.specs.Shape.{has_real_key, is_real, key_seen, place_among, stored_at};

use crate::columns::{Column, Key};
use crate::shapes::TableShape;

/// The place of a column in the record of a row, counted from 0 (fileformat2.html, 2.4): without
/// rowid the columns of the primary key come first, in the order of the key.
pub fn stored_at(shape: &TableShape, column: u32) -> u32
    requires { column < length shape.now.columns.items }
    ensures { result ≡ stored_at (shape_seen shape.now) column }
{
    place_of(shape.primary.as_slice(), column) as u32
}

/// Whether a column of a key or of the primary key has REAL affinity.
pub fn has_real_key(shape: &TableShape) -> bool
    ensures { result ≡ has_real_key (shape_seen shape.now) }
{
    let columns = shape.columns.as_slice();
    any_real(columns, shape.primary.as_slice()) || any_key_real(columns, shape.keys.as_slice())
}

// The place of a column, where these are the columns of the primary key.
pub fn place_of(primary: &[u32], column: u32) -> usize
    ensures place { result ≡ place_among primary.now column }
    ensures bound { result ≤ length primary.now + column }
{
    match position_of(primary, column) {
        Some(place) => place,
        None => primary.len() + (column as usize).saturating_sub(count_below(primary, column)),
    }
}

fn position_of(primary: &[u32], column: u32) -> Option<usize>
    ensures place { result ≡ position (λ p. p == column) primary.now }
    ensures bound { IfSome result (λ place. place < length primary.now) }
{
    primary.iter().position(|p| *p == column)
}

// How many of the numbers are below.
fn count_below(numbers: &[u32], limit: u32) -> usize
    ensures { result ≡ count_by (λ n. nat_lt n limit) numbers.now }
{
    numbers.iter().filter(|n| **n < limit).count()
}

// Whether one of the columns has REAL affinity.
fn any_real(columns: &[Column], numbers: &[u32]) -> bool
    ensures { result ≡ list_any (is_real columns.now) numbers.now }
{
    for number in numbers {
        if is_real(columns, *number) {
            return true;
        }
    }
    false
}

fn is_real(columns: &[Column], number: u32) -> bool
    ensures { result ≡ is_real columns.now number }
{
    match columns.get(number as usize) {
        Some(column) => column.real,
        None => false,
    }
}

fn any_key_real(columns: &[Column], keys: &[Key]) -> bool
    ensures { result ≡ list_any (λ key. list_any (is_real columns.now) key.columns)
        (map key_seen keys.now) }
{
    for key in keys {
        if any_real(columns, key.columns.as_slice()) {
            return true;
        }
    }
    false
}
