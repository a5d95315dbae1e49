//! The columns of a text.

ghost use Rattle.std.specs.Prelude.{◌≡◌, IfOk, None, Option, count_by};
ghost use Rattle.std.specs.List.{list_any};
ghost use Rattle.create_grammar.specs.declared.roles.Role.TheVariants as role;
ghost use Rattle.create_grammar.specs.Said.{is};
ghost use Rattle.create_reader.specs.Columns.{begins, coll_by, coll_named, column_of, columns_of, holds, is_integer, is_integer_word, is_other_word, is_real, is_real_word, last_collate, own_words, type_has};

use crate::names::name_of;
use crate::texts::ColumnText;
use create_grammar::{Role, Said, Word, word_bytes};
use key_order::Coll;
use std::alloc::{AllocError, Global};
use table_shape::same_name;

/// The columns, in order.
pub fn columns(alloc: Global, sql: &[u8], said: &[Said]) -> Result<Vec<ColumnText>, AllocError>
    ensures { IfOk result (λ v. v.items ≡ columns_of sql.now said.now) }
{
    let mut found = Vec::new(alloc);
    for (i, w) in said.iter().enumerate() {
        if w.is(Role::ColumnName) {
            found.push(column_of(alloc, sql, w.word, own_words(&said[i + 1..]))?)?;
        }
    }
    Ok(found)
}

// The words up to the next name of a column.
fn own_words(said: &[Said]) -> &[Said]
    ensures { result.now ≡ own_words said.now }
{
    for (i, w) in said.iter().enumerate() {
        if w.is(Role::ColumnName) {
            return &said[..i];
        }
    }
    said
}

fn column_of(alloc: Global, sql: &[u8], word: Word, own: &[Said]) -> Result<ColumnText, AllocError>
    ensures { IfOk result (λ c. c ≡ column_of sql.now word own.now) }
{
    Ok(ColumnText {
        name: name_of(alloc, sql, word)?,
        coll: coll_by(alloc, sql, last_collate(own))?,
        real: is_real(sql, own),
        integer: is_integer(sql, own),
    })
}

// ---- collations

fn last_collate(own: &[Said]) -> Option<Word>
    ensures { result ≡ last_collate None own.now }
{
    let mut found = None;
    for w in own {
        if w.is(Role::ColumnCollate) {
            found = Some(w.word);
        }
    }
    found
}

fn coll_by(alloc: Global, sql: &[u8], word: Option<Word>) -> Result<Option<Coll>, AllocError>
    ensures { IfOk result (λ c. c ≡ coll_by sql.now word) }
{
    match word {
        None => Ok(Some(Coll::Binary)),
        Some(word) => {
            let name = name_of(alloc, sql, word)?;
            Ok(coll_named(name.as_slice()))
        }
    }
}

fn coll_named(name: &[u8]) -> Option<Coll>
    ensures { result ≡ coll_named name.now }
{
    if same_name(name, b"binary") {
        Some(Coll::Binary)
    } else if same_name(name, b"nocase") {
        Some(Coll::NoCase)
    } else if same_name(name, b"rtrim") {
        Some(Coll::RTrim)
    } else {
        None
    }
}

// ---- types

fn is_real(sql: &[u8], own: &[Said]) -> bool
    ensures { result ≡ is_real sql.now own.now }
{
    has_real_word(sql, own) && !has_other_word(sql, own)
}

fn has_real_word(sql: &[u8], own: &[Said]) -> bool
    ensures { result ≡ type_has sql.now is_real_word own.now }
{
    for w in own {
        if w.is(Role::TypeWord) && is_real_word(word_bytes(sql, w.word)) {
            return true;
        }
    }
    false
}

fn has_other_word(sql: &[u8], own: &[Said]) -> bool
    ensures { result ≡ type_has sql.now is_other_word own.now }
{
    for w in own {
        if w.is(Role::TypeWord) && is_other_word(word_bytes(sql, w.word)) {
            return true;
        }
    }
    false
}

fn is_integer(sql: &[u8], own: &[Said]) -> bool
    ensures { result ≡ is_integer sql.now own.now }
{
    type_words(own) == 1 && has_integer_word(sql, own) && !has_open(own)
}

fn type_words(own: &[Said]) -> usize
    ensures { result ≡ count_by (is role.TypeWord) own.now }
{
    own.iter().filter(|w| w.is(Role::TypeWord)).count()
}

fn has_open(own: &[Said]) -> bool
    ensures { result ≡ list_any (is role.TypeOpen) own.now }
{
    own.iter().any(|w| w.is(Role::TypeOpen))
}

fn has_integer_word(sql: &[u8], own: &[Said]) -> bool
    ensures { result ≡ type_has sql.now is_integer_word own.now }
{
    for w in own {
        if w.is(Role::TypeWord) && same_name(word_bytes(sql, w.word), b"integer") {
            return true;
        }
    }
    false
}

fn is_real_word(bytes: &[u8]) -> bool
    ensures { result ≡ is_real_word bytes.now }
{
    holds(b"real", bytes) || holds(b"floa", bytes) || holds(b"doub", bytes)
}

fn is_other_word(bytes: &[u8]) -> bool
    ensures { result ≡ is_other_word bytes.now }
{
    holds(b"int", bytes)
        || holds(b"char", bytes)
        || holds(b"clob", bytes)
        || holds(b"text", bytes)
        || holds(b"blob", bytes)
}

// Whether the part stands somewhere in the bytes, ASCII case ignored.

fn holds(part: &[u8], bytes: &[u8]) -> bool
    ensures { result ≡ holds part.now bytes.now }
{
    for i in 0..bytes.len() {
        if begins(part, &bytes[i..]) {
            return true;
        }
    }
    false
}

fn begins(part: &[u8], bytes: &[u8]) -> bool
    ensures { result ≡ begins part.now bytes.now }
{
    same_name(part, &bytes[..part.len().min(bytes.len())])
}
