//! Why a text of the grammar has no shape.

ghost use Rattle.std.specs.Prelude.{◌≡◌, IfOk, IfSome, List, count_by, false, length, map, is_none, ◌||◌, ◌==◌, ◌&&◌, slice_get};
ghost use Rattle.std.specs.List.{list_any};
ghost use Rattle.create_reader.specs.Faults.{auto_alone, bad_list, before_primary, has_bad_list, has_marks, integer_beside_keys, key_fault, key_lacks_coll, lacks_coll, primary_count, unique_before, wrong_primaries};
ghost use Rattle.create_reader.specs.Index.{IsIndex};
ghost use Rattle.create_reader.specs.Meaning.{places};
ghost use Rattle.create_reader.specs.Numbers.{makes_alias, numbered_of, same_names, single_integer};
ghost use Rattle.create_reader.specs.Views.{constraint_seen, constraints_seen, names_seen, seen};

use crate::numbers::{makes_alias, same_names, single_integer};
use crate::places::{Index, places};
use crate::texts::{ColumnText, ConstraintText, TableText};
use record_core::Bytes;
use std::alloc::{AllocError, Global};

/// The columns of the constraints that take a number, which are `taken`; none where one of the causes of `Key` holds.
pub fn key_lists(
    alloc: Global,
    table: &TableText,
    index: &Index,
    taken: &[&ConstraintText],
) -> Result<Option<Vec<Vec<u32>>>, AllocError>
    requires index { IsIndex table.now.columns.items index.now }
    requires taken { map (λ k. constraint_seen table.now.columns.items k.now) taken.now
        ≡ numbered_of (seen table.now) }
    ensures fault { IfOk result (λ found. is_none found ≡ key_fault (seen table.now)) }
    ensures lists { IfOk result (λ found. IfSome found (λ v. map (λ list. list.items) v.items
        ≡ map (λ c. places table.now.columns.items c.names) (numbered_of (seen table.now)))) }
{
    let lists = match lists(alloc, table, index, taken)? {
        Some(lists) => lists,
        None => return Ok(None),
    };
    if key_fault(alloc, table, index, taken, lists.as_slice())? {
        return Ok(None);
    }
    Ok(Some(lists))
}

// The columns of constraints; none where a list is bad.
fn lists(
    alloc: Global,
    table: &TableText,
    index: &Index,
    taken: &[&ConstraintText],
) -> Result<Option<Vec<Vec<u32>>>, AllocError>
    requires { IsIndex table.now.columns.items index.now }
    ensures bad { IfOk result (λ found. is_none found ≡ list_any (bad_list table.now.columns.items)
        (map (λ k. constraint_seen table.now.columns.items k.now) taken.now)) }
    ensures lists { IfOk result (λ found. IfSome found (λ v. map (λ list. list.items) v.items
        ≡ map (λ c. places table.now.columns.items c.names)
        (map (λ k. constraint_seen table.now.columns.items k.now) taken.now))) }
{
    let columns = table.columns.as_slice();
    let mut found = Vec::new(alloc);
    for c in taken {
        match list_of(alloc, columns, index, c)? {
            Some(list) => found.push(list)?,
            None => return Ok(None),
        }
    }
    Ok(Some(found))
}

// The columns of a constraint; none where its list is bad.
fn list_of(
    alloc: Global,
    columns: &[ColumnText],
    index: &Index,
    c: &ConstraintText,
) -> Result<Option<Vec<u32>>, AllocError>
    requires { IsIndex columns.now index.now }
    ensures bad { IfOk result (λ found. is_none found
        ≡ bad_list columns.now (constraint_seen columns.now c.now)) }
    ensures list { IfOk result (λ found. IfSome found (λ v. v.items
        ≡ places columns.now (names_seen columns.now c.now.names))) }
{
    let names = c.names(columns);
    if names.is_empty() {
        return Ok(None);
    }
    places(alloc, columns, index, names)
}

// Whether one of the causes of `Key` holds, where no list of `taken` is bad; `lists` are their columns.
fn key_fault(
    alloc: Global,
    table: &TableText,
    index: &Index,
    taken: &[&ConstraintText],
    lists: &[Vec<u32>],
) -> Result<bool, AllocError>
    requires index { IsIndex table.now.columns.items index.now }
    requires taken { map (λ k. constraint_seen table.now.columns.items k.now) taken.now
        ≡ numbered_of (seen table.now) }
    requires good { list_any (bad_list table.now.columns.items) (numbered_of (seen table.now)) ≡ false }
    requires lists { map (λ list. list.items) lists.now
        ≡ map (λ c. places table.now.columns.items c.names) (numbered_of (seen table.now)) }
    ensures { IfOk result (λ b. b ≡ key_fault (seen table.now)) }
{
    if wrong_primaries(table) {
        return Ok(true);
    }
    if auto_alone(alloc, table, index)? {
        return Ok(true);
    }
    if index.repeats {
        return Ok(true);
    }
    if has_bad_list(alloc, table, index)? {
        return Ok(true);
    }
    if has_marks(table) {
        return Ok(true);
    }
    if key_lacks_coll(table, lists) {
        return Ok(true);
    }
    if integer_beside_keys(alloc, table, index, taken)? {
        return Ok(true);
    }
    Ok(unique_before(table, taken))
}

fn wrong_primaries(table: &TableText) -> bool
    ensures { result ≡ wrong_primaries (seen table.now) }
{
    let count = primary_count(table);
    count > 1 || (table.without_rowid && count == 0)
}

fn primary_count(table: &TableText) -> usize
    ensures { result ≡ primary_count (seen table.now) }
{
    let constraints = table.constraints.as_slice();
    constraints.iter().filter(|c| c.primary).count()
}

fn auto_alone(alloc: Global, table: &TableText, index: &Index) -> Result<bool, AllocError>
    requires { IsIndex table.now.columns.items index.now }
    ensures { IfOk result (λ b. b ≡ auto_alone (seen table.now)) }
{
    for c in table.constraints.as_slice() {
        if c.auto {
            let makes_alias = makes_alias(alloc, table, index, c)?;
            if !makes_alias {
                return Ok(true);
            }
        }
    }
    Ok(false)
}

// A list that took no number has the names of one that did, or makes its column the rowid.
fn has_bad_list(alloc: Global, table: &TableText, index: &Index) -> Result<bool, AllocError>
    requires index { IsIndex table.now.columns.items index.now }
    requires good { list_any (bad_list table.now.columns.items) (numbered_of (seen table.now)) ≡ false }
    ensures { IfOk result (λ b. b ≡ has_bad_list (seen table.now)) }
{
    let bad = alias_bad(alloc, table, index)?;
    Ok(bad)
}

fn alias_bad(alloc: Global, table: &TableText, index: &Index) -> Result<bool, AllocError>
    requires { IsIndex table.now.columns.items index.now }
    ensures { IfOk result (λ b. b ≡ list_any (λ c. makes_alias (seen table.now) c
        && bad_list table.now.columns.items c) (seen table.now).constraints) }
{
    let columns = table.columns.as_slice();
    for c in table.constraints.as_slice() {
        if makes_alias(alloc, table, index, c)? {
            let list = list_of(alloc, columns, index, c)?;
            if list.is_none() {
                return Ok(true);
            }
        }
    }
    Ok(false)
}

fn has_marks(table: &TableText) -> bool
    ensures { result ≡ has_marks (seen table.now) }
{
    for c in table.constraints.as_slice() {
        if c.marked {
            return true;
        }
    }
    false
}

fn key_lacks_coll(table: &TableText, lists: &[Vec<u32>]) -> bool
    requires { map (λ list. list.items) lists.now
        ≡ map (λ c. places table.now.columns.items c.names) (numbered_of (seen table.now)) }
    ensures { result ≡ key_lacks_coll (seen table.now) }
{
    lists_lack_coll(table.columns.as_slice(), lists)
}

fn lists_lack_coll(columns: &[ColumnText], lists: &[Vec<u32>]) -> bool
    ensures { result ≡ list_any (list_any (λ k. lacks_coll (slice_get columns.now k)))
        (map (λ list. list.items) lists.now) }
{
    for list in lists {
        if list_lacks_coll(columns, list.as_slice()) {
            return true;
        }
    }
    false
}

fn list_lacks_coll(columns: &[ColumnText], list: &[u32]) -> bool
    ensures { result ≡ list_any (λ k. lacks_coll (slice_get columns.now k)) list.now }
{
    for number in list {
        if lacks_coll(columns, *number) {
            return true;
        }
    }
    false
}

fn lacks_coll(columns: &[ColumnText], number: u32) -> bool
    ensures { result ≡ lacks_coll (slice_get columns.now number) }
{
    match columns.get(number as usize) {
        Some(column) => column.coll.is_none(),
        None => false,
    }
}

fn integer_beside_keys(
    alloc: Global,
    table: &TableText,
    index: &Index,
    taken: &[&ConstraintText],
) -> Result<bool, AllocError>
    requires index { IsIndex table.now.columns.items index.now }
    requires taken { map (λ k. constraint_seen table.now.columns.items k.now) taken.now
        ≡ numbered_of (seen table.now) }
    ensures { IfOk result (λ b. b ≡ integer_beside_keys (seen table.now)) }
{
    if table.without_rowid && taken.len() > 1 {
        has_integer_primary(alloc, table, index)
    } else {
        Ok(false)
    }
}

fn has_integer_primary(alloc: Global, table: &TableText, index: &Index) -> Result<bool, AllocError>
    requires { IsIndex table.now.columns.items index.now }
    ensures { IfOk result (λ b. b
        ≡ list_any (λ c. c.primary && single_integer table.now.columns.items c)
        (constraints_seen table.now.columns.items table.now.constraints.items)) }
{
    let columns = table.columns.as_slice();
    for c in table.constraints.as_slice() {
        if c.primary {
            let is_integer = single_integer(alloc, columns, index, c)?;
            if is_integer {
                return Ok(true);
            }
        }
    }
    Ok(false)
}

fn unique_before(table: &TableText, taken: &[&ConstraintText]) -> bool
    requires { map (λ k. constraint_seen table.now.columns.items k.now) taken.now
        ≡ numbered_of (seen table.now) }
    ensures { result ≡ unique_before (seen table.now) }
{
    table.without_rowid && before_primary(table.columns.as_slice(), taken)
}

fn before_primary(columns: &[ColumnText], taken: &[&ConstraintText]) -> bool
    ensures { result ≡ before_primary (map (λ k. constraint_seen columns.now k.now) taken.now) }
{
    for (i, c) in taken.iter().enumerate() {
        if !c.primary && has_primary_like(columns, c.names(columns), &taken[i + 1..]) {
            return true;
        }
    }
    false
}

fn has_primary_like(columns: &[ColumnText], names: &[Bytes], taken: &[&ConstraintText]) -> bool
    ensures { result ≡ list_any (λ e. e.primary && same_names names.now e.names)
        (map (λ k. constraint_seen columns.now k.now) taken.now) }
{
    for other in taken {
        if other.primary && same_names(names, other.names(columns)) {
            return true;
        }
    }
    false
}
