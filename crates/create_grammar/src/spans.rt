//! The words of a text.

ghost use Rattle.std.specs.Prelude.{◌≡◌, ◌+◌, ◌-◌, ◌<◌, ◌≤◌, ℕ, Bool, List, IfOk, IfSome, length, drop, ◌∷◌, ◌^◌, true};
ghost use Rattle.create_grammar.specs.Words.{bare_len, bare_word, begins_bare, begins_with, begins_with_digit, blob_len, closed_len, closed_word, comment_len, gap_len, goes_on_bare, goes_on_number, front_word, is_space, line_len, more, number_len, other_word, seen, quoted_from, quoted_len, word_at, word_from, words_of};

use std::alloc::{AllocError, Global};

/// What a word is.
#[derive(Clone, Copy, Debug, PartialEq, Eq)]
pub enum WordKind {
    /// A letter, `_` or a byte from 80 on, and then these, digits and `$`.
    Bare,
    /// Between `"`, between backquotes, or between `[` and `]`.
    Quoted,
    /// Between `'`.
    Text,
    /// A digit, or `.` and a digit, and what goes on with it.
    Number,
    /// `x'` up to the next `'`.
    Blob,
    /// Any other single byte.
    Mark(u8),
    /// An opening quote without its end, up to the end of the text.
    Bad,
}

/// A word of a text: the bytes from `start` up to `end`.
#[derive(Clone, Copy, Debug, PartialEq, Eq)]
pub struct Word {
    pub kind: WordKind,
    pub start: usize,
    pub end: usize,
}

/// The words of a text in order. Blank bytes and comments stand between them.
pub fn words(alloc: Global, sql: &[u8]) -> Result<Vec<Word>, AllocError>
    ensures { IfOk result (λ v. v.items ≡ words_of sql.now) }
{
    let mut found = Vec::new(alloc);
    let mut at = 0;
    for _turn in 0..sql.len() {
        if at >= sql.len() {
            return Ok(found);
        }
        let gap = gap_at(sql, at);
        if gap > 0 {
            at += gap;
            continue;
        }
        let word = word_behind(sql, at);
        found.push(word)?;
        at = word.end;
    }
    Ok(found)
}

// The length of the gap at a place.
fn gap_at(sql: &[u8], at: usize) -> usize
    requires { at < length sql.now }
    ensures value { result ≡ gap_len (drop at sql.now) }
    ensures within { at + result ≤ length sql.now }
{
    gap(&sql[at..])
}

fn gap(bytes: &[u8]) -> usize
    ensures value { result ≡ gap_len bytes.now }
    ensures within { result ≤ length bytes.now }
{
    match bytes {
        [] => 0,
        [first, rest @ ..] => gap_behind(*first, rest),
    }
}

fn gap_behind(first: u8, rest: &[u8]) -> usize
    ensures value { result ≡ gap_len (first ∷ rest.now) }
    ensures within { result ≤ 1 + length rest.now }
{
    if is_space(first) {
        1
    } else if first == b'-' && begins_with(b'-', rest) {
        2 + line_len(&rest[1..])
    } else if first == b'/' && begins_with(b'*', rest) {
        2 + comment_len(&rest[1..])
    } else {
        0
    }
}

// The word at a place.
fn word_behind(sql: &[u8], at: usize) -> Word
    requires { at < length sql.now }
    ensures value { result ≡ word_from at (front_word (drop at sql.now)) }
    ensures within { result.end ≤ length sql.now }
{
    let word = front_word(&sql[at..]);
    Word {
        kind: word.kind,
        start: at,
        end: at + word.len,
    }
}

// A word at the front of some bytes.
#[derive(Clone, Copy)]
struct FrontWord {
    kind: WordKind,
    len: usize,
}

fn front_word(bytes: &[u8]) -> FrontWord
    requires { 0 < length bytes.now }
    ensures value { seen result ≡ front_word bytes.now }
    ensures within { result.len ≤ length bytes.now }
{
    match bytes {
        [] => unreachable!(),
        [first, rest @ ..] => word_at(*first, rest),
    }
}

fn word_at(first: u8, rest: &[u8]) -> FrontWord
    ensures value { seen result ≡ word_at first rest.now }
    ensures within { result.len ≤ 1 + length rest.now }
{
    if begins_bare(first) {
        bare_word(rest, blob_len(first, rest))
    } else {
        other_word(first, rest)
    }
}

fn bare_word(rest: &[u8], blob: Option<usize>) -> FrontWord
    requires { IfSome blob (λ n. n ≤ length rest.now) }
    ensures value { seen result ≡ bare_word rest.now blob }
    ensures within { result.len ≤ 1 + length rest.now }
{
    match blob {
        Some(len) => FrontWord {
            kind: WordKind::Blob,
            len: 1 + len,
        },
        None => FrontWord {
            kind: WordKind::Bare,
            len: 1 + bare_len(rest),
        },
    }
}

fn blob_len(first: u8, rest: &[u8]) -> Option<usize>
    ensures value { result ≡ blob_len first rest.now }
    ensures within { IfSome result (λ n. n ≤ length rest.now) }
{
    if (first == b'x' || first == b'X') && begins_with(b'\'', rest) {
        behind_one(closed_len(b'\'', &rest[1..]))
    } else {
        None
    }
}

fn behind_one(len: Option<usize>) -> Option<usize>
    requires { IfSome len (λ n. n < 2 ^ 63) }
    ensures { result ≡ more 1 len }
{
    match len {
        Some(len) => Some(1 + len),
        None => None,
    }
}

fn other_word(first: u8, rest: &[u8]) -> FrontWord
    ensures value { seen result ≡ other_word first rest.now }
    ensures within { result.len ≤ 1 + length rest.now }
{
    if first == b'"' || first == b'`' {
        closed_word(WordKind::Quoted, rest, quoted_len(first, rest))
    } else if first == b'[' {
        closed_word(WordKind::Quoted, rest, closed_len(b']', rest))
    } else if first == b'\'' {
        closed_word(WordKind::Text, rest, quoted_len(b'\'', rest))
    } else if first.is_ascii_digit() || (first == b'.' && begins_with_digit(rest)) {
        FrontWord {
            kind: WordKind::Number,
            len: 1 + number_len(first, rest),
        }
    } else {
        FrontWord {
            kind: WordKind::Mark(first),
            len: 1,
        }
    }
}

fn closed_word(kind: WordKind, rest: &[u8], len: Option<usize>) -> FrontWord
    requires { IfSome len (λ n. n ≤ length rest.now) }
    ensures value { seen result ≡ closed_word kind rest.now len }
    ensures within { result.len ≤ 1 + length rest.now }
{
    match len {
        Some(len) => FrontWord { kind, len: 1 + len },
        None => FrontWord {
            kind: WordKind::Bad,
            len: 1 + rest.len(),
        },
    }
}

// ---- lengths

fn line_len(bytes: &[u8]) -> usize
    ensures value { result ≡ line_len bytes.now }
    ensures within { result ≤ length bytes.now }
{
    for (i, byte) in bytes.iter().enumerate() {
        if *byte == b'\n' {
            return i;
        }
    }
    bytes.len()
}

fn comment_len(bytes: &[u8]) -> usize
    ensures value { result ≡ comment_len bytes.now }
    ensures within { result ≤ length bytes.now }
{
    let mut star = false;
    for (i, byte) in bytes.iter().enumerate() {
        if star && *byte == b'/' {
            return i + 1;
        }
        star = *byte == b'*';
    }
    bytes.len()
}

fn bare_len(bytes: &[u8]) -> usize
    ensures value { result ≡ bare_len bytes.now }
    ensures within { result ≤ length bytes.now }
{
    for (i, byte) in bytes.iter().enumerate() {
        if !goes_on_bare(*byte) {
            return i;
        }
    }
    bytes.len()
}

fn number_len(first: u8, bytes: &[u8]) -> usize
    ensures value { result ≡ number_len first bytes.now }
    ensures within { result ≤ length bytes.now }
{
    let mut before = first;
    for (i, byte) in bytes.iter().enumerate() {
        if !goes_on_number(before, *byte) {
            return i;
        }
        before = *byte;
    }
    bytes.len()
}

fn closed_len(close: u8, bytes: &[u8]) -> Option<usize>
    ensures value { result ≡ closed_len close bytes.now }
    ensures within { IfSome result (λ n. n ≤ length bytes.now) }
{
    for (i, byte) in bytes.iter().enumerate() {
        if *byte == close {
            return Some(i + 1);
        }
    }
    None
}

fn quoted_len(quote: u8, bytes: &[u8]) -> Option<usize>
    ensures value { result ≡ quoted_len quote bytes.now }
    ensures within { IfSome result (λ n. n ≤ length bytes.now) }
{
    let mut second = false;
    for (i, byte) in bytes.iter().enumerate() {
        if *byte == quote {
            second = !second;
        } else if second {
            return Some(i);
        }
    }
    if second { Some(bytes.len()) } else { None }
}

// ---- bytes

fn is_space(byte: u8) -> bool
    ensures { result ≡ is_space byte }
{
    byte == 9 || byte == 10 || byte == 12 || byte == 13 || byte == 32
}

fn begins_bare(byte: u8) -> bool
    ensures { result ≡ begins_bare byte }
{
    byte.is_ascii_alphabetic() || byte == b'_' || byte >= 128
}

fn goes_on_bare(byte: u8) -> bool
    ensures { result ≡ goes_on_bare byte }
{
    begins_bare(byte) || byte.is_ascii_digit() || byte == b'$'
}

fn goes_on_number(before: u8, byte: u8) -> bool
    ensures { result ≡ goes_on_number before byte }
{
    byte.is_ascii_alphabetic()
        || byte.is_ascii_digit()
        || byte == b'_'
        || byte == b'.'
        || ((byte == b'+' || byte == b'-') && (before == b'e' || before == b'E'))
}

fn begins_with(byte: u8, bytes: &[u8]) -> bool
    ensures value { result ≡ begins_with byte bytes.now }
    ensures some { result ≡ true → 0 < length bytes.now }
{
    match bytes {
        [] => false,
        [first, ..] => *first == byte,
    }
}

fn begins_with_digit(bytes: &[u8]) -> bool
    ensures { result ≡ begins_with_digit bytes.now }
{
    match bytes {
        [] => false,
        [first, ..] => first.is_ascii_digit(),
    }
}
