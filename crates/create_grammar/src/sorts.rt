//! The sorts of words.

ghost use Rattle.std.specs.Prelude.{◌≡◌, length};
ghost use Rattle.create_grammar.specs.Keywords.{keyword_of, two_letters, three_letters, four_letters, five_letters, six_letters, seven_letters, eight_letters, nine_letters, ten_letters, thirteen_letters};
ghost use Rattle.create_grammar.specs.Sorts.{code, keyword_1, mark_sort, is_word, sort_of, word_bytes};

use crate::spans::{Word, WordKind};

/// What the grammar sees of a word. The keywords stand for bare words, ASCII case ignored.
#[derive(Clone, Copy, Debug, PartialEq, Eq)]
pub enum Sort {
    /// `(`
    Open,
    /// `)`
    Close,
    /// An opening quote without its end.
    Bad,
    /// `,`
    Comma,
    /// `+`
    Plus,
    /// `-`
    Minus,
    /// Any other mark.
    Mark,
    Number,
    Blob,
    Quoted,
    Text,
    Create,
    Table,
    Virtual,
    Without,
    Rowid,
    Strict,
    Constraint,
    Primary,
    Key,
    Unique,
    Check,
    Foreign,
    Not,
    Null,
    Default,
    Collate,
    References,
    Generated,
    Always,
    As,
    Stored,
    Deferrable,
    Initially,
    Deferred,
    Immediate,
    Asc,
    Desc,
    Autoincrement,
    On,
    Conflict,
    Delete,
    Update,
    Insert,
    Set,
    Cascade,
    Restrict,
    No,
    Action,
    Match,
    /// A bare word that is no keyword.
    Bare,
}

// Whether the bytes are a keyword, ASCII case ignored.
fn is_word(a: &[u8], b: &[u8]) -> bool
    ensures { result ≡ is_word a.now b.now }
{
    a.eq_ignore_ascii_case(b)
}

/// The bytes of a word.
pub fn word_bytes(sql: &[u8], word: Word) -> &[u8]
    ensures { result.now ≡ word_bytes sql.now word }
{
    let start = word.start.min(sql.len());
    let len = word.end.saturating_sub(word.start).min(sql.len() - start);
    &sql[start..start + len]
}

/// The sort of a word.
pub fn sort_of(sql: &[u8], word: Word) -> Sort
    ensures { result ≡ sort_of sql.now word }
{
    match word.kind {
        WordKind::Bare => keyword(word_bytes(sql, word)),
        WordKind::Quoted => Sort::Quoted,
        WordKind::Text => Sort::Text,
        WordKind::Number => Sort::Number,
        WordKind::Blob => Sort::Blob,
        WordKind::Mark(byte) => mark_sort(byte),
        WordKind::Bad => Sort::Bad,
    }
}

/// The number by which a grammar knows a sort.
pub fn code(sort: Sort) -> u8
    ensures { result ≡ code sort }
{
    sort as u8
}

fn mark_sort(byte: u8) -> Sort
    ensures { result ≡ mark_sort byte }
{
    if byte == b'(' {
        Sort::Open
    } else if byte == b')' {
        Sort::Close
    } else if byte == b',' {
        Sort::Comma
    } else if byte == b'+' {
        Sort::Plus
    } else if byte == b'-' {
        Sort::Minus
    } else {
        Sort::Mark
    }
}

// The sort of a bare word: only the keywords of its length are compared.
fn keyword(bytes: &[u8]) -> Sort
    ensures { result ≡ keyword_1 bytes.now }
{
    keyword_by_length(bytes)
}

fn keyword_by_length(bytes: &[u8]) -> Sort
    ensures { result ≡ keyword_of (length bytes.now) bytes.now }
{
    match bytes.len() {
        2 => two_letters(bytes),
        3 => three_letters(bytes),
        4 => four_letters(bytes),
        5 => five_letters(bytes),
        6 => six_letters(bytes),
        7 => seven_letters(bytes),
        8 => eight_letters(bytes),
        9 => nine_letters(bytes),
        10 => ten_letters(bytes),
        13 => thirteen_letters(bytes),
        _ => Sort::Bare,
    }
}

#[tactic(auto, unfolding(crate::specs::Keywords::two_letters))]
fn two_letters(bytes: &[u8]) -> Sort
    ensures { result ≡ two_letters bytes.now }
{
    if is_word(bytes, b"AS") {
        Sort::As
    } else if is_word(bytes, b"ON") {
        Sort::On
    } else if is_word(bytes, b"NO") {
        Sort::No
    } else {
        Sort::Bare
    }
}

#[tactic(auto, unfolding(crate::specs::Keywords::three_letters))]
fn three_letters(bytes: &[u8]) -> Sort
    ensures { result ≡ three_letters bytes.now }
{
    if is_word(bytes, b"KEY") {
        Sort::Key
    } else if is_word(bytes, b"NOT") {
        Sort::Not
    } else if is_word(bytes, b"ASC") {
        Sort::Asc
    } else if is_word(bytes, b"SET") {
        Sort::Set
    } else {
        Sort::Bare
    }
}

#[tactic(auto, unfolding(crate::specs::Keywords::four_letters))]
fn four_letters(bytes: &[u8]) -> Sort
    ensures { result ≡ four_letters bytes.now }
{
    if is_word(bytes, b"NULL") {
        Sort::Null
    } else if is_word(bytes, b"DESC") {
        Sort::Desc
    } else {
        Sort::Bare
    }
}

#[tactic(auto, unfolding(crate::specs::Keywords::five_letters))]
fn five_letters(bytes: &[u8]) -> Sort
    ensures { result ≡ five_letters bytes.now }
{
    if is_word(bytes, b"TABLE") {
        Sort::Table
    } else if is_word(bytes, b"ROWID") {
        Sort::Rowid
    } else if is_word(bytes, b"CHECK") {
        Sort::Check
    } else if is_word(bytes, b"MATCH") {
        Sort::Match
    } else {
        Sort::Bare
    }
}

#[tactic(auto, unfolding(crate::specs::Keywords::six_letters))]
fn six_letters(bytes: &[u8]) -> Sort
    ensures { result ≡ six_letters bytes.now }
{
    if is_word(bytes, b"CREATE") {
        Sort::Create
    } else if is_word(bytes, b"STRICT") {
        Sort::Strict
    } else if is_word(bytes, b"UNIQUE") {
        Sort::Unique
    } else if is_word(bytes, b"ALWAYS") {
        Sort::Always
    } else if is_word(bytes, b"STORED") {
        Sort::Stored
    } else if is_word(bytes, b"DELETE") {
        Sort::Delete
    } else if is_word(bytes, b"UPDATE") {
        Sort::Update
    } else if is_word(bytes, b"INSERT") {
        Sort::Insert
    } else if is_word(bytes, b"ACTION") {
        Sort::Action
    } else {
        Sort::Bare
    }
}

#[tactic(auto, unfolding(crate::specs::Keywords::seven_letters))]
fn seven_letters(bytes: &[u8]) -> Sort
    ensures { result ≡ seven_letters bytes.now }
{
    if is_word(bytes, b"VIRTUAL") {
        Sort::Virtual
    } else if is_word(bytes, b"WITHOUT") {
        Sort::Without
    } else if is_word(bytes, b"PRIMARY") {
        Sort::Primary
    } else if is_word(bytes, b"FOREIGN") {
        Sort::Foreign
    } else if is_word(bytes, b"DEFAULT") {
        Sort::Default
    } else if is_word(bytes, b"COLLATE") {
        Sort::Collate
    } else if is_word(bytes, b"CASCADE") {
        Sort::Cascade
    } else {
        Sort::Bare
    }
}

#[tactic(auto, unfolding(crate::specs::Keywords::eight_letters))]
fn eight_letters(bytes: &[u8]) -> Sort
    ensures { result ≡ eight_letters bytes.now }
{
    if is_word(bytes, b"DEFERRED") {
        Sort::Deferred
    } else if is_word(bytes, b"CONFLICT") {
        Sort::Conflict
    } else if is_word(bytes, b"RESTRICT") {
        Sort::Restrict
    } else {
        Sort::Bare
    }
}

#[tactic(auto, unfolding(crate::specs::Keywords::nine_letters))]
fn nine_letters(bytes: &[u8]) -> Sort
    ensures { result ≡ nine_letters bytes.now }
{
    if is_word(bytes, b"GENERATED") {
        Sort::Generated
    } else if is_word(bytes, b"INITIALLY") {
        Sort::Initially
    } else if is_word(bytes, b"IMMEDIATE") {
        Sort::Immediate
    } else {
        Sort::Bare
    }
}

#[tactic(auto, unfolding(crate::specs::Keywords::ten_letters))]
fn ten_letters(bytes: &[u8]) -> Sort
    ensures { result ≡ ten_letters bytes.now }
{
    if is_word(bytes, b"CONSTRAINT") {
        Sort::Constraint
    } else if is_word(bytes, b"REFERENCES") {
        Sort::References
    } else if is_word(bytes, b"DEFERRABLE") {
        Sort::Deferrable
    } else {
        Sort::Bare
    }
}

#[tactic(auto, unfolding(crate::specs::Keywords::thirteen_letters))]
fn thirteen_letters(bytes: &[u8]) -> Sort
    ensures { result ≡ thirteen_letters bytes.now }
{
    if is_word(bytes, b"AUTOINCREMENT") {
        Sort::Autoincrement
    } else {
        Sort::Bare
    }
}
