//! Which constraints take a number.

ghost use Rattle.std.specs.Prelude.{◌≡◌, IfOk, List, false, length, map, nat_eq, option_map, slice_get};
ghost use Rattle.std.specs.List.{list_any};
ghost use Rattle.create_reader.specs.Numbers.{integer_in, is_among, makes_alias, numbered_of, only_column, same_names, single_integer, takes, up_to_16};
ghost use Rattle.create_reader.specs.Constraints.{Constraint};
ghost use Rattle.create_reader.specs.Index.{IsIndex};
ghost use Rattle.create_reader.specs.Views.{IsKnown, constraint_seen, is_of, seen};

use crate::places::{Index, place};
use crate::texts::{ColumnText, ConstraintText, KeyNames, TableText};
use record_core::Bytes;
use std::alloc::{AllocError, Global};
use table_shape::same_name;

/// The constraints that take a number, in order; none where they are over 16.
pub fn numbered<'a>(
    alloc: Global,
    table: &'a TableText,
    index: &Index,
) -> Result<Option<Vec<&'a ConstraintText>>, AllocError>
    requires { IsIndex table.now.columns.items index.now }
    ensures { IfOk result (λ found.
        option_map (λ v. map (λ k. constraint_seen table.now.columns.items k.now) v.items) found
        ≡ up_to_16 (numbered_of (seen table.now))) }
{
    let mut found = Vec::new(alloc);
    let mut known = None;
    for constraint in table.constraints.as_slice() {
        let is_new = takes(alloc, table, index, found.as_slice(), known, constraint)?;
        if !is_new {
            known = known_behind(alloc, table, index, known, constraint)?;
            continue;
        }
        if is_full(found.as_slice()) {
            return Ok(None);
        }
        found.push(constraint)?;
    }
    Ok(Some(found))
}

// Whether as many constraints took a number as may.
fn is_full(taken: &[&ConstraintText]) -> bool
    ensures { result ≡ nat_eq (length taken.now) 16 }
{
    taken.len() == 16
}

// Whether a constraint takes a number. A constraint of the column `known` has the names of one that took one.
fn takes(
    alloc: Global,
    table: &TableText,
    index: &Index,
    taken: &[&ConstraintText],
    known: Option<usize>,
    c: &ConstraintText,
) -> Result<bool, AllocError>
    requires index { IsIndex table.now.columns.items index.now }
    requires known { IsKnown table.now.columns.items
        (map (λ k. constraint_seen table.now.columns.items k.now) taken.now) known }
    ensures { IfOk result (λ b. b ≡ takes (seen table.now)
        (map (λ k. constraint_seen table.now.columns.items k.now) taken.now)
        (constraint_seen table.now.columns.items c.now)) }
{
    if c.primary && table.without_rowid {
        return Ok(true);
    }
    let makes_alias = makes_alias(alloc, table, index, c)?;
    Ok(!makes_alias && !is_among(table.columns.as_slice(), taken, known, c))
}

// The column whose constraints are known to take no number, behind a constraint that takes none: its own column, unless
// it makes that the rowid.
fn known_behind(
    alloc: Global,
    table: &TableText,
    index: &Index,
    known: Option<usize>,
    c: &ConstraintText,
) -> Result<Option<usize>, AllocError>
    requires { IsIndex table.now.columns.items index.now }
    ensures { IfOk result (λ column. (taken : List Constraint)
        → IsKnown table.now.columns.items taken known
        → takes (seen table.now) taken (constraint_seen table.now.columns.items c.now) ≡ false
        → IsKnown table.now.columns.items taken column) }
{
    match &c.names {
        KeyNames::OfColumn(number) => {
            if makes_alias(alloc, table, index, c)? {
                Ok(known)
            } else {
                Ok(Some(*number))
            }
        }
        KeyNames::Listed(_) => Ok(known),
    }
}

/// Whether the constraint makes its column the rowid.
pub fn makes_alias(
    alloc: Global,
    table: &TableText,
    index: &Index,
    c: &ConstraintText,
) -> Result<bool, AllocError>
    requires { IsIndex table.now.columns.items index.now }
    ensures { IfOk result (λ b. b
        ≡ makes_alias (seen table.now) (constraint_seen table.now.columns.items c.now)) }
{
    if c.primary && !table.without_rowid {
        single_integer(alloc, table.columns.as_slice(), index, c)
    } else {
        Ok(false)
    }
}

/// Whether the constraint has one column, and its type is INTEGER.
pub fn single_integer(
    alloc: Global,
    columns: &[ColumnText],
    index: &Index,
    c: &ConstraintText,
) -> Result<bool, AllocError>
    requires { IsIndex columns.now index.now }
    ensures { IfOk result (λ b. b ≡ single_integer columns.now (constraint_seen columns.now c.now)) }
{
    match c.own {
        Some(number) => Ok(is_integer(columns, number)),
        None => only_is_integer(alloc, columns, index, c.names(columns)),
    }
}

fn is_integer(columns: &[ColumnText], number: usize) -> bool
    ensures { result ≡ integer_in (slice_get columns.now number) }
{
    match columns.get(number) {
        Some(column) => column.integer,
        None => false,
    }
}

#[tactic(auto, using(crate::proofs::Lookup::column_at))]
fn only_is_integer(
    alloc: Global,
    columns: &[ColumnText],
    index: &Index,
    names: &[Bytes],
) -> Result<bool, AllocError>
    requires { IsIndex columns.now index.now }
    ensures { IfOk result (λ b. b ≡ integer_in (only_column columns.now names.now)) }
{
    match names {
        [name] => {
            let number = place(alloc, columns, index, name.as_slice())?;
            Ok(is_integer(columns, number as usize))
        }
        [] | [_, _, ..] => Ok(false),
    }
}

fn is_among(
    columns: &[ColumnText],
    taken: &[&ConstraintText],
    known: Option<usize>,
    c: &ConstraintText,
) -> bool
    requires { IsKnown columns.now (map (λ k. constraint_seen columns.now k.now) taken.now) known }
    ensures { result ≡ is_among (map (λ k. constraint_seen columns.now k.now) taken.now)
        (constraint_seen columns.now c.now) }
{
    is_of(known, &c.names) || have_names(columns, taken, c.names(columns))
}

// Whether a key is of the column that is known.
fn is_of(known: Option<usize>, names: &KeyNames) -> bool
    ensures { result ≡ is_of known names.now }
{
    match names {
        KeyNames::OfColumn(number) => known == Some(*number),
        KeyNames::Listed(_) => false,
    }
}

// Whether one of the constraints has the names.
fn have_names(columns: &[ColumnText], taken: &[&ConstraintText], names: &[Bytes]) -> bool
    ensures { result ≡ list_any (λ e. same_names e.names names.now)
        (map (λ k. constraint_seen columns.now k.now) taken.now) }
{
    for earlier in taken {
        if same_names(earlier.names(columns), names) {
            return true;
        }
    }
    false
}

/// Whether two lists have the same names one by one.
pub fn same_names(a: &[Bytes], b: &[Bytes]) -> bool
    ensures { result ≡ same_names a.now b.now }
{
    if a.len() != b.len() {
        return false;
    }
    for (i, name) in a.iter().enumerate() {
        if !same_name(name.as_slice(), b[i].as_slice()) {
            return false;
        }
    }
    true
}
