//! The keys of a shape, resolved once to the places of their values.

ghost use Rattle.std.specs.Prelude.{◌≡◌, ◌++◌, ◌<◌, ◌≤◌, ℕ, List, IfOk, filter, length, map};
ghost use Rattle.std.specs.List.{AllByRecursion, list_any};
ghost use Rattle.table_shape.specs.Entries.{entry_parts, follows, is_field};
ghost use Rattle.table_shape.specs.Keys.{first_of, is_alias, keys_of, keys_seen, part_of, parts_of, parts_seen, spot_of};
ghost use Rattle.table_shape.specs.Seen.{shape_seen};
ghost use Rattle.table_shape.specs.Shape.{coll_of, key_seen};

use crate::columns::{Column, Key};
use crate::places::place_of;
use crate::shapes::TableShape;
use key_order::Coll;
use std::alloc::{AllocError, Global};

/// Where the value of a key column stands in a row.
#[derive(Clone, Copy, Debug, PartialEq, Eq)]
pub enum Spot {
    Rowid,
    /// A field of the record, counted from 0.
    Field(usize),
}

/// A part of a key: where its value stands, and how it is compared.
#[derive(Clone, Copy, Debug, PartialEq, Eq)]
pub struct KeyPart {
    pub spot: Spot,
    pub coll: Coll,
}

/// A key with the number of its index.
#[derive(Debug, Drop)]
pub struct KeyPlan {
    pub number: u32,
    pub parts: Vec<KeyPart>,
}

/// What the keys of a table ask of its rows.
#[derive(Debug, Drop)]
pub struct TablePlan {
    /// How many columns the table has.
    pub columns: usize,
    /// The key that orders the rows: the rowid, or the primary key WITHOUT ROWID.
    pub first: Vec<KeyPart>,
    /// The keys with an index of their own, by rising number.
    pub keys: Vec<KeyPlan>,
}

/// The keys of a shape.
pub fn plan_keys(alloc: Global, shape: &TableShape) -> Result<TablePlan, AllocError>
    ensures { IfOk result (λ t. keys_seen t ≡ keys_of (shape_seen shape.now)) }
{
    Ok(TablePlan {
        columns: shape.columns.len(),
        first: first_of(alloc, shape)?,
        keys: all_keys(alloc, shape)?,
    })
}

/// The parts of the record of an index: those of its key, and then the rowid, or the columns of
/// the primary key that are not yet there (fileformat2.html, 2.5.1).
pub fn entry_parts(
    alloc: Global,
    table: &TablePlan,
    key: &KeyPlan,
) -> Result<Vec<KeyPart>, AllocError>
    ensures { IfOk result (λ v. v.items ≡ entry_parts (keys_seen table.now) (parts_seen key.now)) }
{
    let own = key.parts.as_slice();
    let mut parts = Vec::from_slice(alloc, own)?;
    for part in table.first.as_slice() {
        if follows(own, part.spot) {
            parts.push(*part)?;
        }
    }
    Ok(parts)
}

// Whether a part of the key that orders the rows follows the parts of a key.
fn follows(parts: &[KeyPart], spot: Spot) -> bool
    ensures { result ≡ follows parts.now spot }
{
    match spot {
        Spot::Rowid => true,
        Spot::Field(field) => !has_field(parts, field),
    }
}

fn has_field(parts: &[KeyPart], field: usize) -> bool
    ensures { result ≡ list_any (λ p. is_field field p.spot) parts.now }
{
    for part in parts {
        if is_field(field, part.spot) {
            return true;
        }
    }
    false
}

fn is_field(field: usize, spot: Spot) -> bool
    ensures { result ≡ is_field field spot }
{
    match spot {
        Spot::Rowid => false,
        Spot::Field(other) => field == other,
    }
}

fn first_of(alloc: Global, shape: &TableShape) -> Result<Vec<KeyPart>, AllocError>
    ensures { IfOk result (λ v. v.items ≡ first_of (shape_seen shape.now)) }
{
    if shape.without_rowid {
        parts_of(alloc, shape, shape.primary.as_slice())
    } else {
        let mut parts = Vec::new(alloc);
        parts.push(KeyPart {
            spot: Spot::Rowid,
            coll: Coll::Binary,
        })?;
        Ok(parts)
    }
}

fn all_keys(alloc: Global, shape: &TableShape) -> Result<Vec<KeyPlan>, AllocError>
    ensures { IfOk result (λ v. map parts_seen v.items
        ≡ map (parts_of (shape_seen shape.now)) (map key_seen shape.now.keys.items)) }
{
    let mut plans = Vec::new(alloc);
    for key in shape.keys.as_slice() {
        plans.push(key_plan(alloc, shape, key)?)?;
    }
    Ok(plans)
}

fn key_plan(alloc: Global, shape: &TableShape, key: &Key) -> Result<KeyPlan, AllocError>
    ensures { IfOk result (λ k. parts_seen k ≡ parts_of (shape_seen shape.now) (key_seen key.now)) }
{
    Ok(KeyPlan {
        number: key.number,
        parts: parts_of(alloc, shape, key.columns.as_slice())?,
    })
}

fn parts_of(alloc: Global, shape: &TableShape, columns: &[u32]) -> Result<Vec<KeyPart>, AllocError>
    ensures { IfOk result (λ v. v.items ≡ map (part_of (shape_seen shape.now)) columns.now) }
{
    let mut parts = Vec::new(alloc);
    for column in columns {
        parts.push(part_of(shape, *column))?;
    }
    Ok(parts)
}

fn part_of(shape: &TableShape, column: u32) -> KeyPart
    ensures { result ≡ part_of (shape_seen shape.now) column }
{
    KeyPart {
        spot: spot_of(shape, column),
        coll: coll_of(shape.columns.as_slice(), column),
    }
}

fn spot_of(shape: &TableShape, column: u32) -> Spot
    ensures { result ≡ spot_of (shape_seen shape.now) column }
{
    if is_alias(shape.alias, column) {
        Spot::Rowid
    } else {
        Spot::Field(place_of(shape.primary.as_slice(), column))
    }
}

fn is_alias(alias: Option<u32>, column: u32) -> bool
    ensures { result ≡ is_alias alias column }
{
    match alias {
        Some(alias) => alias == column,
        None => false,
    }
}

// The collation of a column; each key column has one.
fn coll_of(columns: &[Column], column: u32) -> Coll
    ensures { result ≡ coll_of columns.now column }
{
    match columns.get(column as usize) {
        Some(column) => column.coll.unwrap_or(Coll::Binary),
        None => Coll::Binary,
    }
}
