//! Rules of the grammar, each with a text.
use super::check;
use std::test::*;

// The expected answers are worked out by hand from docs/CREATE_TABLE.md.

#[test]
fn further_rules_have_their_texts(rt: HostRuntime) -> Result<(), Fail> {
    let rows = [
        (
            "CREATE TABLE t(a PRIMARY KEY ON CONFLICT REPLACE, b UNIQUE ON CONFLICT IGNORE)",
            "t(a,b) 1:0 2:1",
        ),
        (
            "CREATE TABLE t(a INTEGER PRIMARY KEY ON CONFLICT ABORT AUTOINCREMENT)",
            "t(a) alias 0 auto",
        ),
        ("CREATE TABLE t(a PRIMARY KEY ON CONFLICT 'x')", "form 9"),
        (
            "CREATE TABLE t(a REFERENCES p ON DELETE SET DEFAULT ON UPDATE RESTRICT)",
            "t(a)",
        ),
        ("CREATE TABLE t(a REFERENCES p ON UPDATE NO x)", "form 10"),
        (
            "CREATE TABLE t(a REFERENCES p DEFERRABLE INITIALLY IMMEDIATE)",
            "t(a)",
        ),
        (
            "CREATE TABLE t(a GENERATED ALWAYS AS (1) VIRTUAL)",
            "generated",
        ),
        ("CREATE TABLE t(a AS (1) x)", "form 9"),
        ("CREATE TABLE t(a CONSTRAINT 1)", "form 6"),
        ("CREATE TABLE t(a CHECK 1)", "form 6"),
        ("CREATE TABLE t(a DEFAULT - - 1)", "form 7"),
        (
            "CREATE TABLE t(a INTEGER, b TEXT DEFAULT NULL, c DEFAULT current_time)",
            "t(a,b,c)",
        ),
        ("CREATE TABLE t(a NUMERIC(1,))", "form 9"),
        ("CREATE TABLE t(a, CONSTRAINT c)", "t(a)"),
        (
            "CREATE TABLE t(a, CONSTRAINT c UNIQUE(a) ON CONFLICT ROLLBACK, PRIMARY KEY(a) ON CONFLICT FAIL)",
            "t(a) 1:0",
        ),
        ("CREATE TABLE t(a, CHECK(a) ON CONFLICT FAIL)", "t(a)"),
        (
            "CREATE TABLE t(a, FOREIGN KEY(a) REFERENCES p(b) DEFERRABLE INITIALLY DEFERRED)",
            "t(a)",
        ),
        (
            "CREATE TABLE t(a, FOREIGN KEY(a) REFERENCES p NOT NULL)",
            "form 14",
        ),
        ("CREATE TABLE t(a, UNIQUE())", "form 8"),
        ("CREATE TABLE t(a, UNIQUE(a,))", "form 10"),
        ("CREATE TABLE t(a, PRIMARY KEY(a) AUTOINCREMENT)", "form 11"),
        ("CREATE TABLE t(a) WITHOUT x", "form 7"),
        ("CREATE TABLE t(a) STRICT WITHOUT ROWID", "form 7"),
        (
            "CREATE TABLE t(a INTEGER PRIMARY KEY, b INTEGER PRIMARY KEY)",
            "key",
        ),
        ("CREATE TABLE t(a UNIQUE, a UNIQUE)", "key"),
        (
            "CREATE TABLE t(a INTEGER PRIMARY KEY UNIQUE UNIQUE, b UNIQUE)",
            "t(a,b) alias 0 1:0 2:1",
        ),
        (
            "CREATE TABLE t(a UNIQUE PRIMARY KEY UNIQUE, b, UNIQUE(a), UNIQUE(b))",
            "t(a,b) 1:0 2:1",
        ),
        (
            "CREATE TABLE t(a, b, PRIMARY KEY(a,b), UNIQUE(a,b)) WITHOUT ROWID",
            "t(a,b) primary 0,1",
        ),
    ];
    for (sql, expected) in rows {
        check(&rt, rt.alloc(), sql, expected)?;
    }
    Ok(())
}
