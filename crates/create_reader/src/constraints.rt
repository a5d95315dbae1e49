//! The constraints PRIMARY KEY and UNIQUE of a text, and the whole text.

ghost use Rattle.std.specs.Prelude.{◌≡◌, ◌-◌, ℕ, IfOk, IfSome, List, count_by};
ghost use Rattle.std.specs.List.{list_any};
ghost use Rattle.create_grammar.specs.declared.roles.Role.TheVariants as role;
ghost use Rattle.create_grammar.specs.Said.{is};
ghost use Rattle.create_reader.specs.Constraints.{begins_constraint, constraint_of, constraints_from, ends_part, is_of_column, is_primary, key_names, names_of, no_word, own_of, own_part, table_name, table_of};
ghost use Rattle.create_reader.specs.Columns.{columns_of};
ghost use Rattle.create_reader.specs.declared.texts.ColumnText.{ColumnText};
ghost use Rattle.create_reader.specs.Faults.{first_fault};
ghost use Rattle.create_reader.specs.Outcome.{FailsBy};
ghost use Rattle.create_reader.specs.Views.{IsNamed, constraint_seen, constraints_seen, names_seen, seen};

use crate::columns::columns;
use crate::faults::CreateFault;
use crate::names::name_of;
use crate::texts::{ColumnText, ConstraintText, KeyNames, TableText};
use create_grammar::{Role, Said, Word, WordKind};
use record_core::Bytes;
use std::alloc::{AllocError, Global};

/// What the words of a text say.
pub fn table_of(alloc: Global, sql: &[u8], said: &[Said]) -> Result<TableText, AllocError>
    ensures { IfOk result (λ t. seen t ≡ table_of sql.now said.now) }
{
    let columns = columns(alloc, sql, said)?;
    Ok(TableText {
        name: table_name(alloc, sql, said)?,
        constraints: constraints(alloc, sql, said, columns.as_slice())?,
        columns,
        without_rowid: has_role(said, Role::WithoutRowid),
        generated: has_role(said, Role::Generated),
    })
}

/// A fault that the words tell by themselves: a generated column, or too many columns.
#[tactic(auto, using(crate::proofs::Early::generated_first, crate::proofs::Early::limit_first))]
pub fn early_fault(said: &[Said]) -> Option<CreateFault>
    ensures { (sql : List ℕ) → IfSome result (λ fault.
        FailsBy (first_fault (table_of sql said.now)) fault) }
{
    if has_role(said, Role::Generated) {
        Some(CreateFault::Generated)
    } else if columns_in(said) > 1996 {
        Some(CreateFault::Limit)
    } else {
        None
    }
}

fn columns_in(said: &[Said]) -> usize
    ensures { result ≡ count_by (is role.ColumnName) said.now }
{
    said.iter().filter(|w| w.is(Role::ColumnName)).count()
}

fn has_role(said: &[Said], role: Role) -> bool
    ensures { result ≡ list_any (is role) said.now }
{
    for w in said {
        if w.is(role) {
            return true;
        }
    }
    false
}

fn table_name(alloc: Global, sql: &[u8], said: &[Said]) -> Result<Bytes, AllocError>
    ensures { IfOk result (λ b. b ≡ table_name sql.now said.now) }
{
    for w in said {
        if w.is(Role::TableName) {
            return name_of(alloc, sql, w.word);
        }
    }
    Bytes::copy_of(alloc, &[])
}

fn constraints(
    alloc: Global,
    sql: &[u8],
    said: &[Said],
    columns: &[ColumnText],
) -> Result<Vec<ConstraintText>, AllocError>
    requires { columns.now ≡ columns_of sql.now said.now }
    ensures { IfOk result (λ v. constraints_seen columns.now v.items
        ≡ constraints_from sql.now 0 no_word said.now) }
{
    let mut found = Vec::new(alloc);
    let mut number: usize = 0;
    let mut column = Word {
        kind: WordKind::Bad,
        start: 0,
        end: 0,
    };
    for (i, w) in said.iter().enumerate() {
        if w.is(Role::ColumnName) {
            number += 1;
            column = w.word;
            continue;
        }
        if !begins_constraint(*w) {
            continue;
        }
        let part = Part {
            count: number,
            column,
            first: *w,
        };
        found.push(constraint_of(alloc, sql, part, own_part(&said[i + 1..]))?)?;
    }
    Ok(found)
}

// Where a constraint stands: how many columns begin before it, the name of the last of them, and its own first
// word.
#[derive(Clone, Copy)]
struct Part {
    count: usize,
    column: Word,
    first: Said,
}

fn constraint_of(
    alloc: Global,
    sql: &[u8],
    part: Part,
    own: &[Said],
) -> Result<ConstraintText, AllocError>
    ensures { (columns : List ColumnText) → IsNamed sql.now columns part.count part.column
        → IfOk result (λ c. constraint_seen columns c ≡ constraint_of sql.now (record {
          number = part.count - 1;
          column = part.column;
          first = part.first;
        }) own.now) }
{
    Ok(ConstraintText {
        primary: is_primary(part.first),
        own: own_of(part.count.saturating_sub(1), part.first),
        names: names_of(alloc, sql, part, own)?,
        marked: has_role(own, Role::KeyMark),
        auto: has_role(own, Role::Auto),
    })
}

fn own_of(number: usize, first: Said) -> Option<usize>
    ensures { result ≡ own_of number first }
{
    if is_of_column(first) {
        Some(number)
    } else {
        None
    }
}

fn names_of(alloc: Global, sql: &[u8], part: Part, own: &[Said]) -> Result<KeyNames, AllocError>
    ensures { (columns : List ColumnText) → IsNamed sql.now columns part.count part.column
        → IfOk result (λ n. names_seen columns n ≡ names_of sql.now part.column part.first own.now) }
{
    if !is_of_column(part.first) {
        Ok(KeyNames::Listed(key_names(alloc, sql, own)?))
    } else if part.count > 0 {
        Ok(KeyNames::OfColumn(part.count - 1))
    } else {
        let mut names = Vec::new(alloc);
        names.push(name_of(alloc, sql, part.column)?)?;
        Ok(KeyNames::Listed(names))
    }
}

fn key_names(alloc: Global, sql: &[u8], own: &[Said]) -> Result<Vec<Bytes>, AllocError>
    ensures { IfOk result (λ v. v.items ≡ key_names sql.now own.now) }
{
    let mut names = Vec::new(alloc);
    for w in own {
        if w.is(Role::KeyName) {
            names.push(name_of(alloc, sql, w.word)?)?;
        }
    }
    Ok(names)
}

// The words up to the next constraint or column.
fn own_part(said: &[Said]) -> &[Said]
    ensures { result.now ≡ own_part said.now }
{
    for (i, w) in said.iter().enumerate() {
        if ends_part(*w) {
            return &said[..i];
        }
    }
    said
}

fn ends_part(w: Said) -> bool
    ensures { result ≡ ends_part w }
{
    begins_constraint(w) || w.is(Role::ColumnName)
}

fn begins_constraint(w: Said) -> bool
    ensures { result ≡ begins_constraint w }
{
    is_of_column(w) || w.is(Role::TablePrimary) || w.is(Role::TableUnique)
}

fn is_of_column(w: Said) -> bool
    ensures { result ≡ is_of_column w }
{
    w.is(Role::ColumnPrimary) || w.is(Role::ColumnUnique)
}

fn is_primary(w: Said) -> bool
    ensures { result ≡ is_primary w }
{
    w.is(Role::ColumnPrimary) || w.is(Role::TablePrimary)
}
