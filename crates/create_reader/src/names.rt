//! Names in a text.

ghost use Rattle.std.specs.Prelude.{◌≡◌, IfOk, false};
ghost use Rattle.create_reader.specs.Names.{closing, inner, is_bare, name_of, unquoted};

use create_grammar::{Word, WordKind, word_bytes};
use record_core::Bytes;
use std::alloc::{AllocError, Global};

/// The name that a word is, without its quotes.
pub fn name_of(alloc: Global, sql: &[u8], word: Word) -> Result<Bytes, AllocError>
    ensures { IfOk result (λ b. b ≡ name_of sql.now word) }
{
    let bytes = word_bytes(sql, word);
    if is_bare(word.kind) {
        Bytes::copy_of(alloc, bytes)
    } else {
        Ok(Bytes::of(unquoted(alloc, closing(bytes), inner(bytes))?))
    }
}

fn is_bare(kind: WordKind) -> bool
    ensures { result ≡ is_bare kind }
{
    match kind {
        WordKind::Bare => true,
        WordKind::Quoted
        | WordKind::Text
        | WordKind::Number
        | WordKind::Blob
        | WordKind::Mark(_)
        | WordKind::Bad => false,
    }
}

// The quote that closes.
fn closing(bytes: &[u8]) -> u8
    ensures { result ≡ closing bytes.now }
{
    match bytes {
        [] => 0,
        [first, ..] => { if *first == b'[' { b']' } else { *first } }
    }
}

// What stands between the first byte and the last one.
fn inner(bytes: &[u8]) -> &[u8]
    ensures { result.now ≡ inner bytes.now }
{
    if bytes.len() < 2 {
        &[]
    } else {
        &bytes[1..bytes.len() - 1]
    }
}

// The bytes with doubled quotes made single.
fn unquoted(alloc: Global, quote: u8, bytes: &[u8]) -> Result<Vec<u8>, AllocError>
    ensures { IfOk result (λ v. v.items ≡ unquoted quote false bytes.now) }
{
    let mut found = Vec::new(alloc);
    let mut second = false;
    for byte in bytes {
        if *byte == quote && second {
            second = false;
        } else {
            found.push(*byte)?;
            second = *byte == quote;
        }
    }
    Ok(found)
}
