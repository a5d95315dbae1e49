//! Long texts.
use super::{add_number, told};
use std::alloc::{AllocError, Global};
use std::test::*;

#[test]
fn deep_groups_return(rt: HostRuntime) -> Result<(), Fail> {
    let mut sql = Vec::from_slice(rt.alloc(), b"CREATE TABLE t(a CHECK ")?;
    for _ in 0..1_000_000 {
        sql.push(b'(')?;
    }
    let answer = told(rt.alloc(), sql.as_slice())?;
    assert_eq!(rt; answer.as_slice(), b"form 1000006".as_slice());
    Ok(())
}

// A table of so many columns c0, c1, ..
fn wide(alloc: Global, count: u32) -> Result<Vec<u8>, AllocError> {
    let mut sql = Vec::from_slice(alloc, b"CREATE TABLE t(c")?;
    for number in 0..count {
        if number > 0 {
            sql.extend_from_slice(b",c")?;
        }
        add_number(alloc, &mut sql, number)?;
    }
    sql.extend_from_slice(b")")?;
    Ok(sql)
}

#[test]
fn at_most_1996_columns_are_read(rt: HostRuntime) -> Result<(), Fail> {
    let most = told(rt.alloc(), wide(rt.alloc(), 1996)?.as_slice())?;
    assert!(rt; most.starts_with(b"t(c0,c1,c2,"));
    let more = told(rt.alloc(), wide(rt.alloc(), 1997)?.as_slice())?;
    assert_eq!(rt; more.as_slice(), b"limit".as_slice());
    Ok(())
}

// A table of one column, with a name of so many letters and so many times the words behind it.
fn long_name(alloc: Global, letters: u32, count: u32, words: &[u8]) -> Result<Vec<u8>, AllocError> {
    let mut sql = Vec::from_slice(alloc, b"CREATE TABLE t(")?;
    for _ in 0..letters {
        sql.push(b'n')?;
    }
    for _ in 0..count {
        sql.extend_from_slice(words)?;
    }
    sql.extend_from_slice(b")")?;
    Ok(sql)
}

#[test]
fn a_long_name_with_many_constraints_is_read(rt: HostRuntime) -> Result<(), Fail> {
    let sql = long_name(rt.alloc(), 300_000, 60_000, b" UNIQUE")?;
    let answer = told(rt.alloc(), sql.as_slice())?;
    // "t(", the name, ") 1:0"
    assert_eq!(rt; answer.len(), 300_007);
    assert!(rt; answer.ends_with(b") 1:0"));
    let sql = long_name(rt.alloc(), 300_000, 60_000, b" PRIMARY KEY")?;
    assert_eq!(rt;
        told(rt.alloc(), sql.as_slice())?.as_slice(),
        b"key".as_slice()
    );
    Ok(())
}

#[test]
fn a_key_has_at_most_as_many_names_as_columns(rt: HostRuntime) -> Result<(), Fail> {
    let mut sql = Vec::from_slice(rt.alloc(), b"CREATE TABLE t(a, b, UNIQUE(a")?;
    for _ in 0..300_000 {
        sql.extend_from_slice(b",b")?;
    }
    sql.extend_from_slice(b"))")?;
    assert_eq!(rt;
        told(rt.alloc(), sql.as_slice())?.as_slice(),
        b"key".as_slice()
    );
    let both = told(rt.alloc(), b"CREATE TABLE t(a, b, UNIQUE(b, a))")?;
    assert_eq!(rt; both.as_slice(), b"t(a,b) 1:1,0".as_slice());
    Ok(())
}
