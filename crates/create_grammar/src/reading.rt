//! Reading a text: its words with their roles, or why it is no text of the grammar.

ghost use Rattle.std.specs.Prelude.{◌≡◌, ◌<◌, ◌≤◌, ◌^◌, ℕ, List, IfOk, length, map};
ghost use Rattle.create_grammar.specs.Roles.{role_code};
ghost use Rattle.create_grammar.specs.Said.{IsSmall, RolesBy, SaidBy, begins_virtual, fault_of, seen_as};
ghost use Rattle.create_grammar.specs.Sorts.{code, sort_of};

use crate::pass::{Pass, Stop};
use crate::roles::Role;
use crate::sorts::{Sort, code, sort_of};
use crate::spans::{Word, words};
use std::alloc::{AllocError, Global};

/// Why a text is not read.
#[derive(Clone, Copy, Debug, PartialEq, Eq)]
pub enum GrammarFault {
    /// It begins with CREATE VIRTUAL TABLE.
    Virtual,
    /// It is not in the grammar; with its first `at` words some text of the grammar begins, and
    /// with no more of them.
    Form { at: u32 },
    Memory,
}

/// A word of a text and its role.
#[derive(Clone, Copy, Debug, PartialEq, Eq)]
pub struct Said {
    pub role: Role,
    pub word: Word,
}

impl Said {
    ghost use Rattle.create_grammar.specs.Said.{is};

    /// Whether the word has the role.
    pub fn is(self, role: Role) -> bool
        ensures { result ≡ is role self }
    {
        self.role.code() == role.code()
    }
}

// The sorts of words.
fn all_sorts(alloc: Global, sql: &[u8], words: &[Word]) -> Result<Vec<Sort>, AllocError>
    ensures { IfOk result (λ v. map code v.items ≡ map (λ w. code (sort_of sql.now w)) words.now) }
{
    let mut found = Vec::with_capacity(alloc, words.len())?;
    for word in words {
        found.push(sort_of(sql, *word))?;
    }
    Ok(found)
}

// Words and roles side by side.
fn side_by_side(alloc: Global, words: &[Word], roles: &[Role]) -> Result<Vec<Said>, AllocError>
    requires { length words.now ≡ length roles.now }
    ensures words { IfOk result (λ v. map (λ s. s.word) v.items ≡ words.now) }
    ensures roles { IfOk result (λ v. map (λ s. s.role) v.items ≡ roles.now) }
{
    let mut found = Vec::with_capacity(alloc, words.len())?;
    for (i, word) in words.iter().enumerate() {
        found.push(Said {
            role: roles[i],
            word: *word,
        })?;
    }
    Ok(found)
}

// The roles of words with these sorts.
fn roles(alloc: Global, sorts: &[Sort]) -> Result<Vec<Role>, GrammarFault>
    requires { length sorts.now < 2 ^ 32 }
    ensures { RolesBy (map code sorts.now) (seen_as (λ v. v.items) result) }
{
    let mut pass = Pass {
        sorts,
        at: 0,
        roles: Vec::new(alloc),
    };
    match pass.table() {
        Ok(()) => {}
        Err(stop) => return Err(fault_of(stop)),
    }
    if pass.at < pass.sorts.len() {
        return Err(fault_of(Stop::Form(pass.at)));
    }
    Ok(pass.roles)
}

// A stop of the pass, as a fault.
fn fault_of(stop: Stop) -> GrammarFault
    requires { IsSmall stop }
    ensures { result ≡ fault_of stop }
{
    match stop {
        Stop::Form(at) => GrammarFault::Form { at: at as u32 },
        Stop::Memory => GrammarFault::Memory,
    }
}

// Whether the words begin with CREATE VIRTUAL TABLE.
fn begins_virtual(sorts: &[Sort]) -> bool
    ensures { result ≡ begins_virtual (map code sorts.now) }
{
    match sorts {
        [] | [_] | [_, _] => false,
        [first, second, third, ..] => {
            code(*first) == code(Sort::Create)
                && code(*second) == code(Sort::Virtual)
                && code(*third) == code(Sort::Table)
        }
    }
}

/// The words of a CREATE TABLE text with their roles.
pub fn read_words(alloc: Global, sql: &[u8]) -> Result<Vec<Said>, GrammarFault>
    requires { length sql.now < 2 ^ 32 }
    ensures { SaidBy sql.now (seen_as (λ v. v.items) result) }
{
    let Ok(words) = words(alloc, sql) else {
        return Err(GrammarFault::Memory);
    };
    let Ok(sorts) = all_sorts(alloc, sql, words.as_slice()) else {
        return Err(GrammarFault::Memory);
    };
    if begins_virtual(sorts.as_slice()) {
        return Err(GrammarFault::Virtual);
    }
    match roles(alloc, sorts.as_slice()) {
        Ok(roles) => match side_by_side(alloc, words.as_slice(), roles.as_slice()) {
            Ok(said) => Ok(said),
            Err(_) => Err(GrammarFault::Memory),
        },
        Err(fault) => Err(fault),
    }
}
