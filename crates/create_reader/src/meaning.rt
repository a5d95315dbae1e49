//! The shape that a text means.

ghost use Rattle.std.specs.Prelude.{◌≡◌, ◌≤◌, ℕ, IfOk, IfErr, List, length, map};
ghost use Rattle.std.specs.List.{list_any};
ghost use Rattle.create_reader.specs.Meaning.{alias_from, column_from, first_place, keys_from, places, primary_in, primary_of};
ghost use Rattle.create_reader.specs.Index.{IsIndex};
ghost use Rattle.create_reader.specs.Numbers.{numbered_of};
ghost use Rattle.create_reader.specs.Outcome.{Makes, Means};
ghost use Rattle.create_reader.specs.Views.{constraint_seen, constraints_seen, names_seen, seen};
ghost use Rattle.table_shape.specs.Shape.{key_seen};

use crate::causes::key_lists;
use crate::faults::CreateFault;
use crate::numbers::{makes_alias, numbered};
use crate::places::{Index, index_of, place};
use crate::texts::{ColumnText, ConstraintText, TableText};
use record_core::Bytes;
use std::alloc::{AllocError, Global};
use table_shape::{Column, Key, TableShape};

/// The shape of a table, or the first fault of what its text says.
pub fn shape_of(alloc: Global, table: TableText) -> Result<TableShape, CreateFault>
    ensures { Means (seen table) result }
{
    let made = match made_of(alloc, &table) {
        Ok(made) => made,
        Err(fault) => return Err(fault),
    };
    let columns = match columns_from(alloc, table.columns) {
        Ok(columns) => columns,
        Err(_) => return Err(CreateFault::Memory),
    };
    Ok(TableShape {
        name: table.name,
        columns,
        alias: made.alias,
        without_rowid: table.without_rowid,
        primary: made.primary,
        keys: made.keys,
        autoincrement: made.autoincrement,
    })
}

// The keys of a shape.
#[derive(Drop)]
struct Made {
    alias: Option<u32>,
    primary: Vec<u32>,
    keys: Vec<Key>,
    autoincrement: bool,
}

fn made_of(alloc: Global, table: &TableText) -> Result<Made, CreateFault>
    ensures { Makes (seen table.now) result }
{
    if table.generated {
        return Err(CreateFault::Generated);
    }
    if table.columns.len() > 1996 {
        return Err(CreateFault::Limit);
    }
    let Ok(index) = index_of(alloc, table.columns.as_slice()) else {
        return Err(CreateFault::Memory);
    };
    let taken = match numbered(alloc, table, &index) {
        Ok(Some(taken)) => taken,
        Ok(None) => return Err(CreateFault::Limit),
        Err(_) => return Err(CreateFault::Memory),
    };
    let lists = match key_lists(alloc, table, &index, taken.as_slice()) {
        Ok(Some(lists)) => lists,
        Ok(None) => return Err(CreateFault::Key),
        Err(_) => return Err(CreateFault::Memory),
    };
    let Ok(primary) = primary_of(alloc, table, taken.as_slice(), lists.as_slice()) else {
        return Err(CreateFault::Memory);
    };
    let Ok(keys) = keys(alloc, table, taken.as_slice(), lists.as_slice()) else {
        return Err(CreateFault::Memory);
    };
    let Ok(alias) = alias_of(alloc, table, &index) else {
        return Err(CreateFault::Memory);
    };
    Ok(Made {
        alias,
        primary,
        keys,
        autoincrement: has_auto(table),
    })
}

fn columns_from(alloc: Global, columns: Vec<ColumnText>) -> Result<Vec<Column>, AllocError>
    ensures { IfOk result (λ v. v.items ≡ map column_from columns.items) }
{
    let mut found = Vec::with_capacity(alloc, columns.len())?;
    for column in columns {
        found.push(column_from(column))?;
    }
    Ok(found)
}

fn column_from(column: ColumnText) -> Column
    ensures { result ≡ column_from column }
{
    Column {
        name: column.name,
        coll: column.coll,
        real: column.real,
    }
}

// The keys with a row in the schema, among the constraints that take a number. `lists` are their columns.
fn keys(
    alloc: Global,
    table: &TableText,
    taken: &[&ConstraintText],
    lists: &[Vec<u32>],
) -> Result<Vec<Key>, AllocError>
    requires small { length taken.now ≤ 16 }
    requires lists { map (λ list. list.items) lists.now
        ≡ map (λ c. places table.now.columns.items c.names)
        (map (λ k. constraint_seen table.now.columns.items k.now) taken.now) }
    ensures { IfOk result (λ v. map key_seen v.items
        ≡ keys_from (seen table.now) 1
        (map (λ k. constraint_seen table.now.columns.items k.now) taken.now)) }
{
    let columns = table.columns.as_slice();
    let mut keys = Vec::new(alloc);
    for (i, c) in taken.iter().enumerate() {
        if !(c.primary && table.without_rowid) {
            keys.push(Key {
                columns: copied(alloc, columns, c, lists[i].as_slice())?,
                number: i as u32 + 1,
            })?;
        }
    }
    Ok(keys)
}

// The columns of a constraint.
fn copied(
    alloc: Global,
    columns: &[ColumnText],
    c: &ConstraintText,
    list: &[u32],
) -> Result<Vec<u32>, AllocError>
    requires { list.now ≡ places columns.now (names_seen columns.now c.now.names) }
    ensures { IfOk result (λ v. v.items ≡ places columns.now (names_seen columns.now c.now.names)) }
{
    Vec::from_slice(alloc, list)
}

fn primary_of(
    alloc: Global,
    table: &TableText,
    taken: &[&ConstraintText],
    lists: &[Vec<u32>],
) -> Result<Vec<u32>, AllocError>
    requires taken { map (λ k. constraint_seen table.now.columns.items k.now) taken.now
        ≡ numbered_of (seen table.now) }
    requires lists { map (λ list. list.items) lists.now
        ≡ map (λ c. places table.now.columns.items c.names)
        (map (λ k. constraint_seen table.now.columns.items k.now) taken.now) }
    ensures { IfOk result (λ v. v.items ≡ primary_of (seen table.now)) }
{
    if table.without_rowid {
        primary_in(alloc, table.columns.as_slice(), taken, lists)
    } else {
        Ok(Vec::new(alloc))
    }
}

fn primary_in(
    alloc: Global,
    columns: &[ColumnText],
    taken: &[&ConstraintText],
    lists: &[Vec<u32>],
) -> Result<Vec<u32>, AllocError>
    requires { map (λ list. list.items) lists.now
        ≡ map (λ c. places columns.now c.names)
        (map (λ k. constraint_seen columns.now k.now) taken.now) }
    ensures { IfOk result (λ v. v.items ≡ primary_in columns.now
        (map (λ k. constraint_seen columns.now k.now) taken.now)) }
{
    for (i, c) in taken.iter().enumerate() {
        if c.primary {
            return copied(alloc, columns, c, lists[i].as_slice());
        }
    }
    Ok(Vec::new(alloc))
}

// The column that a constraint makes the rowid.
fn alias_of(alloc: Global, table: &TableText, index: &Index) -> Result<Option<u32>, AllocError>
    requires { IsIndex table.now.columns.items index.now }
    ensures { IfOk result (λ alias. alias ≡ alias_from (seen table.now)
        (constraints_seen table.now.columns.items table.now.constraints.items)) }
{
    let columns = table.columns.as_slice();
    for c in table.constraints.as_slice() {
        if makes_alias(alloc, table, index, c)? {
            return first_place(alloc, columns, index, c.names(columns));
        }
    }
    Ok(None)
}

fn first_place(
    alloc: Global,
    columns: &[ColumnText],
    index: &Index,
    names: &[Bytes],
) -> Result<Option<u32>, AllocError>
    requires { IsIndex columns.now index.now }
    ensures { IfOk result (λ first. first ≡ first_place columns.now names.now) }
{
    match names {
        [] => Ok(None),
        [name, ..] => Ok(Some(place(alloc, columns, index, name.as_slice())?)),
    }
}

fn has_auto(table: &TableText) -> bool
    ensures { result ≡ list_any (λ c. c.auto) (seen table.now).constraints }
{
    for c in table.constraints.as_slice() {
        if c.auto {
            return true;
        }
    }
    false
}
