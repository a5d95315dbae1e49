ghost use Rattle.std.specs.Prelude.{◌<◌, ◌^◌, length};

use super::*;
use key_order::Coll;
use std::alloc::{AllocError, Global};
use std::process::Abort;
use std::test::*;

mod long;
mod rules;
mod spans;

// The answer to a text in short: the fault, or the name and the columns (`:N`, `:R` and `:?` for
// collations, `!` for REAL), the alias, the primary key, the keys by number.
fn told(alloc: Global, sql: &[u8]) -> Result<Vec<u8>, AllocError> {
    if sql.len() > 10_000_000 {
        return Vec::from_slice(alloc, b"too long");
    }
    match read_create(alloc, sql) {
        Ok(shape) => shape_told(alloc, &shape),
        Err(fault) => fault_told(alloc, fault),
    }
}

fn fault_told(alloc: Global, fault: CreateFault) -> Result<Vec<u8>, AllocError> {
    match fault {
        CreateFault::Virtual => Vec::from_slice(alloc, b"virtual"),
        CreateFault::Form { at } => numbered(alloc, b"form ", at),
        CreateFault::Generated => Vec::from_slice(alloc, b"generated"),
        CreateFault::Limit => Vec::from_slice(alloc, b"limit"),
        CreateFault::Key => Vec::from_slice(alloc, b"key"),
        CreateFault::Memory => Vec::from_slice(alloc, b"memory"),
    }
}

fn numbered(alloc: Global, front: &[u8], number: u32) -> Result<Vec<u8>, AllocError> {
    let mut out = Vec::from_slice(alloc, front)?;
    add_number(alloc, &mut out, number)?;
    Ok(out)
}

fn add_number(alloc: Global, to: &mut Vec<u8>, number: u32) -> Result<(), AllocError> {
    let text = format!(in alloc; "{number}")?;
    to.extend_from_slice(text.as_bytes())
}

fn shape_told(alloc: Global, shape: &TableShape) -> Result<Vec<u8>, AllocError> {
    let mut out = Vec::from_slice(alloc, shape.name.as_slice())?;
    add_columns(&mut out, shape)?;
    if let Some(alias) = shape.alias {
        out.extend_from_slice(b" alias ")?;
        add_number(alloc, &mut out, alias)?;
    }
    if shape.without_rowid {
        out.extend_from_slice(b" primary ")?;
        add_numbers(alloc, &mut out, shape.primary.as_slice())?;
    }
    add_keys(alloc, &mut out, shape)?;
    if shape.autoincrement {
        out.extend_from_slice(b" auto")?;
    }
    Ok(out)
}

fn add_columns(out: &mut Vec<u8>, shape: &TableShape) -> Result<(), AllocError> {
    let mut before: &[u8] = b"(";
    for column in shape.columns.as_slice() {
        out.extend_from_slice(before)?;
        out.extend_from_slice(column.name.as_slice())?;
        out.extend_from_slice(coll_told(column.coll))?;
        if column.real {
            out.extend_from_slice(b"!")?;
        }
        before = b",";
    }
    out.extend_from_slice(b")")
}

fn coll_told(coll: Option<Coll>) -> &'static [u8] {
    match coll {
        Some(Coll::Binary) => b"",
        Some(Coll::NoCase) => b":N",
        Some(Coll::RTrim) => b":R",
        None => b":?",
    }
}

fn add_keys(alloc: Global, out: &mut Vec<u8>, shape: &TableShape) -> Result<(), AllocError> {
    for key in shape.keys.as_slice() {
        out.extend_from_slice(b" ")?;
        add_number(alloc, out, key.number)?;
        out.extend_from_slice(b":")?;
        add_numbers(alloc, out, key.columns.as_slice())?;
    }
    Ok(())
}

fn add_numbers(alloc: Global, out: &mut Vec<u8>, numbers: &[u32]) -> Result<(), AllocError> {
    let mut before: &[u8] = b"";
    for number in numbers {
        out.extend_from_slice(before)?;
        add_number(alloc, out, *number)?;
        before = b",";
    }
    Ok(())
}

fn check(rt: &impl Abort, alloc: Global, sql: &str, expected: &str) -> Result<(), Fail> {
    let answer = told(alloc, sql.as_bytes())?;
    assert_eq!(rt; answer.as_slice(), expected.as_bytes(), "{sql}");
    Ok(())
}

// The expected answers are worked out by hand from docs/CREATE_TABLE.md.

#[test]
fn the_first_texts_have_their_answers(rt: HostRuntime) -> Result<(), Fail> {
    let rows = [
        (
            "CREATE TABLE t(a UNIQUE, b, UNIQUE(b,a), UNIQUE(a), PRIMARY KEY(b))",
            "t(a,b) 1:0 2:1,0 3:1",
        ),
        (
            "CREATE TABLE t(a TEXT PRIMARY KEY, b UNIQUE) WITHOUT ROWID",
            "t(a,b) primary 0 2:1",
        ),
        (
            "CREATE TABLE \"t\"(\"id\" INTEGER, PRIMARY KEY(\"id\" AUTOINCREMENT))",
            "t(id) alias 0 auto",
        ),
        ("CREATE TABLE t(a", "form 5"),
        ("CREATE TABLE t(a,,b)", "form 6"),
        ("CREATE TABLE t(a AS (1))", "generated"),
        ("CREATE TABLE t(a, UNIQUE(a DESC))", "key"),
        ("CREATE VIRTUAL TABLE f USING fts5(x)", "virtual"),
    ];
    for (sql, expected) in rows {
        check(&rt, rt.alloc(), sql, expected)?;
    }
    Ok(())
}

#[test]
fn words_end_where_they_should(rt: HostRuntime) -> Result<(), Fail> {
    let rows = [
        ("", "form 0"),
        ("CREATE /* * / ** */ TABLE -- x\n t(a)", "t(a)"),
        ("CREATE/*/TABLE t(a)", "form 1"),
        ("CREATE TABLE t(a) -- end", "t(a)"),
        ("CREATE TABLE t(a) /* end", "t(a)"),
        ("CREATE TABLE \"a\"\"b\"(\"c\")", "a\"b(c)"),
        ("CREATE TABLE `x y`([a b], 'c''d')", "x y(a b,c'd)"),
        ("CREATE TABLE t(\"a", "form 4"),
        ("CREATE TABLE t(a DEFAULT x'12)", "form 7"),
        ("CREATE TABLE t(a DEFAULT X'12')", "t(a)"),
        ("CREATE TABLE t(a DEFAULT 'it''s' , b)", "t(a,b)"),
        (
            "CREATE TABLE t(a DEFAULT 1.5e-3, b DEFAULT -.5, c DEFAULT +0x1F)",
            "t(a,b,c)",
        ),
        ("CREATE TABLE t(a DEFAULT 1e)", "t(a)"),
        ("CREATE TABLE t(a DEFAULT 1-2)", "form 7"),
        ("CREATE TABLE t$1(a$b)", "t$1(a$b)"),
        ("CREATE TABLE t(a;)", "form 5"),
        ("create table T(A integer primary key)", "T(A) alias 0"),
        ("CREATE TABLE é(ü)", "é(ü)"),
    ];
    for (sql, expected) in rows {
        check(&rt, rt.alloc(), sql, expected)?;
    }
    Ok(())
}

#[test]
fn texts_leave_the_grammar_at_their_place(rt: HostRuntime) -> Result<(), Fail> {
    let rows = [
        ("CREATE VIRTUAL", "form 1"),
        ("CREATE VIRTUAL TABLE", "virtual"),
        ("CREATE TEMP TABLE t(a)", "form 1"),
        ("CREATE TABLE t", "form 3"),
        ("CREATE TABLE t AS SELECT 1", "form 3"),
        ("CREATE TABLE t()", "form 4"),
        ("CREATE TABLE t(a) x", "form 6"),
        ("CREATE TABLE t(a) WITHOUT", "form 7"),
        (
            "CREATE TABLE t(a PRIMARY KEY) WITHOUT ROWID, STRICT",
            "t(a) primary 0",
        ),
        ("CREATE TABLE t(a) STRICT, STRICT", "t(a)"),
        ("CREATE TABLE t(a) STRICT,", "form 8"),
        ("CREATE TABLE t(UNIQUE)", "form 4"),
        ("CREATE TABLE t(\"UNIQUE\", 'CHECK')", "t(UNIQUE,CHECK)"),
        ("CREATE TABLE t(not, null, default)", "t(not,null,default)"),
        ("CREATE TABLE t(a UNIQUE, CHECK(a > 1), b)", "form 14"),
        ("CREATE TABLE t(a CONSTRAINT c, CONSTRAINT d)", "t(a)"),
        (
            "CREATE TABLE t(a CONSTRAINT c NOT NULL ON CONFLICT fail, b NULL ON CONFLICT x)",
            "t(a,b)",
        ),
        (
            "CREATE TABLE t(a NOT DEFERRABLE INITIALLY DEFERRED, b DEFERRABLE)",
            "t(a,b)",
        ),
        ("CREATE TABLE t(a NOT x)", "form 6"),
        (
            "CREATE TABLE t(a REFERENCES p(x, y) ON DELETE SET NULL ON UPDATE NO ACTION MATCH full, b REFERENCES q)",
            "t(a,b)",
        ),
        ("CREATE TABLE t(a REFERENCES p ON DELETE SET x)", "form 10"),
        (
            "CREATE TABLE t(a, FOREIGN KEY(a) REFERENCES p ON INSERT CASCADE NOT DEFERRABLE)",
            "t(a)",
        ),
        (
            "CREATE TABLE t(a DECIMAL(10, -2) NOT NULL, b VARCHAR(+3))",
            "t(a,b)",
        ),
        ("CREATE TABLE t(a VARCHAR())", "form 7"),
        (
            "CREATE TABLE t(a DEFAULT (1 + (2)), b DEFAULT -x)",
            "t(a,b)",
        ),
        ("CREATE TABLE t(a DEFAULT)", "form 6"),
        ("CREATE TABLE t(a CHECK (b \"c))", "form 8"),
        ("CREATE TABLE t(a CHECK ((1))", "form 11"),
        ("CREATE TABLE t(a COLLATE)", "form 6"),
        ("CREATE TABLE t(a PRIMARY)", "form 6"),
        ("CREATE TABLE t(a PRIMARY KEY AUTOINCREMENT ASC)", "form 8"),
        (
            "CREATE TABLE t(a, PRIMARY KEY(a AUTOINCREMENT, a))",
            "form 11",
        ),
        ("CREATE TABLE t(a GENERATED)", "form 6"),
        ("CREATE TABLE t(a AS b)", "form 6"),
        ("CREATE TABLE t(a \"INTEGER\" PRIMARY KEY)", "form 5"),
    ];
    for (sql, expected) in rows {
        check(&rt, rt.alloc(), sql, expected)?;
    }
    Ok(())
}

#[test]
fn columns_and_keys_are_as_the_text_says(rt: HostRuntime) -> Result<(), Fail> {
    let rows = [
        (
            "CREATE TABLE t(a GENERATED ALWAYS AS (b) STORED, b)",
            "generated",
        ),
        ("CREATE TABLE t(a AS (1), UNIQUE(b))", "generated"),
        (
            "CREATE TABLE t(a COLLATE nocase COLLATE RTRIM, b COLLATE \"Binary\", c COLLATE odd, d COLLATE NoCase)",
            "t(a:R,b,c:?,d:N)",
        ),
        (
            "CREATE TABLE t(a REAL, b Double Precision, c FLOAT INT, d floating point)",
            "t(a!,b!,c,d)",
        ),
        ("CREATE TABLE t(a REAL(3,2))", "t(a!)"),
        ("CREATE TABLE t(a INTEGER(4) PRIMARY KEY)", "t(a) 1:0"),
        ("CREATE TABLE t(a INT PRIMARY KEY)", "t(a) 1:0"),
        (
            "CREATE TABLE t(a INTEGER, b, PRIMARY KEY(a, b))",
            "t(a,b) 1:0,1",
        ),
        (
            "CREATE TABLE t(a UNIQUE, b INTEGER, PRIMARY KEY(B))",
            "t(a,b) alias 1 1:0",
        ),
        ("CREATE TABLE t(a UNIQUE UNIQUE, UNIQUE(A))", "t(a) 1:0"),
        ("CREATE TABLE t(a PRIMARY KEY UNIQUE)", "t(a) 1:0"),
        (
            "CREATE TABLE t(a PRIMARY KEY ASC, b, UNIQUE(b ASC))",
            "t(a,b) 1:0 2:1",
        ),
        (
            "CREATE TABLE t(a UNIQUE, b, UNIQUE(a,b), UNIQUE(b,a))",
            "t(a,b) 1:0 2:0,1 3:1,0",
        ),
        (
            "CREATE TABLE t(a INTEGER PRIMARY KEY, UNIQUE(a))",
            "t(a) alias 0 1:0",
        ),
        (
            "CREATE TABLE t(a, b, PRIMARY KEY(b, a)) WITHOUT ROWID",
            "t(a,b) primary 1,0",
        ),
        (
            "CREATE TABLE t(a, b UNIQUE, PRIMARY KEY(a)) WITHOUT ROWID",
            "t(a,b) primary 0 1:1",
        ),
        (
            "CREATE TABLE t(a INTEGER PRIMARY KEY) WITHOUT ROWID",
            "t(a) primary 0",
        ),
        (
            "CREATE TABLE t(a INTEGER PRIMARY KEY, UNIQUE(a)) WITHOUT ROWID",
            "t(a) primary 0",
        ),
        (
            "CREATE TABLE t(a INTEGER PRIMARY KEY COLLATE odd)",
            "t(a:?) alias 0",
        ),
        (
            "CREATE TABLE t(a INTEGER PRIMARY KEY AUTOINCREMENT)",
            "t(a) alias 0 auto",
        ),
        (
            "CREATE TABLE t(a UNIQUE, b UNIQUE, c UNIQUE, d UNIQUE, e UNIQUE, f UNIQUE, g UNIQUE, h UNIQUE, i UNIQUE, j UNIQUE, k UNIQUE, l UNIQUE, m UNIQUE, n UNIQUE, o UNIQUE, p UNIQUE, q UNIQUE)",
            "limit",
        ),
        (
            "CREATE TABLE t(a UNIQUE, b UNIQUE, c UNIQUE, d UNIQUE, e UNIQUE, f UNIQUE, g UNIQUE, h UNIQUE, i UNIQUE, j UNIQUE, k UNIQUE, l UNIQUE, m UNIQUE, n UNIQUE, o UNIQUE, p INTEGER PRIMARY KEY, q UNIQUE)",
            "t(a,b,c,d,e,f,g,h,i,j,k,l,m,n,o,p,q) alias 15 1:0 2:1 3:2 4:3 5:4 6:5 7:6 8:7 9:8 10:9 11:10 12:11 13:12 14:13 15:14 16:16",
        ),
        (
            "CREATE TABLE t(a PRIMARY KEY, a PRIMARY KEY, UNIQUE(b), UNIQUE(c), UNIQUE(d), UNIQUE(e), UNIQUE(f), UNIQUE(g), UNIQUE(h), UNIQUE(i), UNIQUE(j), UNIQUE(k), UNIQUE(l), UNIQUE(m), UNIQUE(n), UNIQUE(o), UNIQUE(p)) WITHOUT ROWID",
            "limit",
        ),
    ];
    for (sql, expected) in rows {
        check(&rt, rt.alloc(), sql, expected)?;
    }
    Ok(())
}

#[test]
fn keys_that_are_not_written_are_refused(rt: HostRuntime) -> Result<(), Fail> {
    let rows = [
        ("CREATE TABLE t(a INTEGER PRIMARY KEY DESC)", "key"),
        (
            "CREATE TABLE t(a INTEGER PRIMARY KEY, b UNIQUE) WITHOUT ROWID",
            "key",
        ),
        ("CREATE TABLE t(a PRIMARY KEY, b PRIMARY KEY)", "key"),
        ("CREATE TABLE t(a) WITHOUT ROWID", "key"),
        ("CREATE TABLE t(a PRIMARY KEY AUTOINCREMENT)", "key"),
        (
            "CREATE TABLE t(a INTEGER PRIMARY KEY AUTOINCREMENT) WITHOUT ROWID",
            "key",
        ),
        ("CREATE TABLE t(a, A)", "key"),
        ("CREATE TABLE t(a, UNIQUE(b))", "key"),
        ("CREATE TABLE t(a, UNIQUE(a, A))", "key"),
        ("CREATE TABLE t(a, UNIQUE(a COLLATE nocase))", "key"),
        ("CREATE TABLE t(a UNIQUE COLLATE odd)", "key"),
        (
            "CREATE TABLE t(a UNIQUE, PRIMARY KEY(a)) WITHOUT ROWID",
            "key",
        ),
    ];
    for (sql, expected) in rows {
        check(&rt, rt.alloc(), sql, expected)?;
    }
    Ok(())
}
