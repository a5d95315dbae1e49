//! The words of a text.
use crate::{WordKind, words};
use std::alloc::{AllocError, Global};
use std::test::*;

#[test]
fn words_have_their_kinds_and_places(rt: HostRuntime) -> Result<(), Fail> {
    let found = words(rt.alloc(), b"a1$ \"b\"--\n[c]'d'x'0'.5;`")?;
    let expected = [
        (WordKind::Bare, 0, 3),
        (WordKind::Quoted, 4, 7),
        (WordKind::Quoted, 10, 13),
        (WordKind::Text, 13, 16),
        (WordKind::Blob, 16, 20),
        (WordKind::Number, 20, 22),
        (WordKind::Mark(b';'), 22, 23),
        (WordKind::Bad, 23, 24),
    ];
    assert_eq!(rt; found.len(), expected.len());
    for (i, word) in found.as_slice().iter().enumerate() {
        assert!(rt; expected.get(i) == Some(&(word.kind, word.start, word.end)));
    }
    Ok(())
}

// The text that is made of these spaces and words.
fn joined(alloc: Global, pieces: &[(&[u8], &[u8])], last: &[u8]) -> Result<Vec<u8>, AllocError> {
    let mut sql = Vec::new(alloc);
    for (space, word) in pieces {
        sql.extend_from_slice(space)?;
        sql.extend_from_slice(word)?;
    }
    sql.extend_from_slice(last)?;
    Ok(sql)
}

// Whether the words of that text are these, with these spaces between them.
fn lie_so(alloc: Global, pieces: &[(&[u8], &[u8])], last: &[u8]) -> Result<bool, AllocError> {
    let sql = joined(alloc, pieces, last)?;
    let found = words(alloc, sql.as_slice())?;
    let mut at: usize = 0;
    for (i, (space, word)) in pieces.iter().enumerate() {
        let start = at.saturating_add(space.len());
        at = start.saturating_add(word.len());
        match found.as_slice().get(i) {
            Some(other) => {
                if other.start != start || other.end != at {
                    return Ok(false);
                }
            }
            None => return Ok(false),
        }
    }
    Ok(found.len() == pieces.len())
}

#[test]
fn words_and_spaces_are_the_whole_text(rt: HostRuntime) -> Result<(), Fail> {
    let pieces: [(&[u8], &[u8]); 9] = [
        (b"/* a * / ** */", b"CREATE"),
        (b"--x\n\t", b"\"a\"\"b\""),
        (b"", b"[c]"),
        (b"", b"x'1f'"),
        (b" /*/ */", b"'it''s'"),
        (b"-- y\r\n\x0c", b"1.5e-3"),
        (b"", b"-"),
        (b" ", b"x"),
        (b"", b"' -- /* no end"),
    ];
    assert!(rt; lie_so(rt.alloc(), &pieces, b"")?);
    let pieces: [(&[u8], &[u8]); 2] = [(b"", b"a"), (b"--\n", b"*")];
    assert!(rt; lie_so(rt.alloc(), &pieces, b"/* b --")?);
    assert!(rt; lie_so(rt.alloc(), &pieces, b" -- /* b")?);
    assert!(rt; lie_so(rt.alloc(), &[], b"/**/ \t--")?);
    Ok(())
}
