//! Rows of a schema made by hand, over a file of two pages of 512 bytes of which the second is an index leaf.
ghost use Rattle.std.specs.Prelude.{◌≡◌, ◌<◌, ◌^◌, IfOk, length};
ghost use Rattle.raw_schema.specs.Bounds.{sql_len};

use crate::causes::read_row;
use crate::{Reading, read_tables};
use cell_reader::Kind;
use page_access::{Geometry, MemSource, PageCache, ReadFault};
use page_walk::{PageKinds, Place, survey};
use raw_schema::{SchemaKind, SchemaRow};
use record_core::Bytes;
use report_text::UnreadCause;
use std::alloc::{AllocError, Global};
use std::test::Fail;

// A table row with this name and text, and root page 2.
fn row(alloc: Global, name: &[u8], sql: &[u8]) -> Result<SchemaRow, AllocError>
    ensures { IfOk result (λ r. sql_len r.sql ≡ length sql.now) }
{
    Ok(SchemaRow {
        kind: SchemaKind::Table,
        name: Bytes::copy_of(alloc, name)?,
        tbl: Bytes::copy_of(alloc, name)?,
        root: 2,
        sql: Some(Bytes::copy_of(alloc, sql)?),
        place: Place { page: 1, cell: 0 },
    })
}

// The kinds of the two pages.
fn kinds(alloc: Global) -> Result<PageKinds, ReadFault>
    ensures { IfOk result (λ k. length k ≡ 2) }
{
    let mut bytes = vec![in alloc; 0u8; 1024]?;
    bytes[512] = 10;
    let geo = Geometry {
        page_size: 512,
        usable: 512,
        pages: 2,
    };
    let mut src = MemSource::new(bytes, Vec::new(alloc));
    let mut cache = PageCache::new(alloc, &geo, 2)?;
    survey(alloc, &mut src, &geo, &mut cache)
}

// Why a reading is of a table that is not built, and the kind of its tree.
fn cause_in(reading: &Reading) -> Option<(UnreadCause, Option<Kind>)> {
    match reading {
        Reading::Shape(_) => None,
        Reading::Unread { cause, kind } => Some((*cause, *kind)),
    }
}

// The same of a row with this name and text.
fn cause(
    alloc: Global,
    name: &[u8],
    sql: &[u8],
    double: bool,
) -> Result<Option<(UnreadCause, Option<Kind>)>, Fail>
    requires { length sql.now < 2 ^ 32 }
{
    let row = row(alloc, name, sql)?;
    let reading = read_row(alloc, &row, double, &kinds(alloc)?, 2)?;
    Ok(cause_in(&reading))
}

#[test]
fn a_table_is_built_where_nothing_bars_it(rt: HostRuntime) -> Result<(), Fail> {
    let alloc = rt.alloc();
    assert!(rt; cause(alloc, b"t", b"CREATE TABLE t(a, b UNIQUE)", false)?.is_none());
    Ok(())
}

#[test]
fn a_table_without_a_shape_has_the_kind_of_its_root(rt: HostRuntime) -> Result<(), Fail> {
    let alloc = rt.alloc();
    let form = cause(alloc, b"t", b"CREATE TABLE t(a", true)?;
    assert!(rt; form == Some((UnreadCause::Form { at: 5 }, Some(Kind::Index))));
    let made = cause(alloc, b"t", b"CREATE TABLE t(a AS (1))", false)?;
    assert!(rt; made == Some((UnreadCause::Generated, Some(Kind::Index))));
    let key = cause(alloc, b"t", b"CREATE TABLE t(a, UNIQUE(a DESC))", false)?;
    assert!(rt; key == Some((UnreadCause::Key, Some(Kind::Index))));
    Ok(())
}

#[test]
fn a_virtual_table_has_no_tree(rt: HostRuntime) -> Result<(), Fail> {
    let found = cause(
        rt.alloc(),
        b"f",
        b"CREATE VIRTUAL TABLE f USING fts5(x)",
        false,
    )?;
    assert!(rt; found == Some((UnreadCause::Virtual, None)));
    Ok(())
}

#[test]
fn a_table_with_a_shape_has_the_kind_of_its_shape(rt: HostRuntime) -> Result<(), Fail> {
    let alloc = rt.alloc();
    let real = cause(alloc, b"s", b"CREATE TABLE r(k REAL PRIMARY KEY, v)", true)?;
    assert!(rt; real == Some((UnreadCause::Real, Some(Kind::Table))));
    let name = cause(alloc, b"T", b"CREATE TABLE t(a)", true)?;
    assert!(rt; name == Some((UnreadCause::Name, Some(Kind::Table))));
    Ok(())
}

#[test]
fn a_reserved_name_comes_before_one_that_stands_twice(rt: HostRuntime) -> Result<(), Fail> {
    let alloc = rt.alloc();
    let sql = b"CREATE TABLE sqlite_Master(a PRIMARY KEY) WITHOUT ROWID";
    let reserved = cause(alloc, b"sqlite_Master", sql, true)?;
    assert!(rt; reserved == Some((UnreadCause::Reserved, Some(Kind::Index))));
    let double = cause(alloc, b"t", b"CREATE TABLE t(a)", true)?;
    assert!(rt; double == Some((UnreadCause::Double, Some(Kind::Table))));
    Ok(())
}

#[test]
fn a_name_stands_twice_whatever_the_case_of_its_letters(rt: HostRuntime) -> Result<(), Fail> {
    let alloc = rt.alloc();
    let mut rows = Vec::new(alloc);
    rows.push(row(alloc, b"t", b"CREATE TABLE t(a)")?)?;
    rows.push(row(alloc, b"T", b"CREATE TABLE T(a)")?)?;
    let readings = read_tables(alloc, &rows, &kinds(alloc)?, 2)?;
    assert_eq!(rt; readings.len(), 2);
    assert_eq!(rt; (readings[0].row, readings[1].row), (0, 1));
    assert!(rt; cause_in(&readings[0].reading).is_none());
    assert!(rt; cause_in(&readings[1].reading) == Some((UnreadCause::Double, Some(Kind::Table))));
    Ok(())
}
