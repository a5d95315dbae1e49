//! The lines are written by hand (docs/TEXTS.md, "Listings").
use crate::{ReportLine, UnreadCause, put_line, put_script};
use page_access::{Failed, MemFail, MemSink};
use page_size::Origin;
use page_walk::{CellCause, Place};
use raw_schema::SchemaKind;
use record_core::Bytes;
use std::alloc::{AllocError, Global};
use std::test::Fail;

const ROW_OF_T: &[u8] = b"1 0 table t t 2 text:435245415445205441424c45207428612c6229\n";

// The row of table t in a new file.
fn row_of_t(alloc: Global) -> Result<ReportLine, AllocError> {
    Ok(ReportLine::Row {
        page: 1,
        cell: 0,
        kind: SchemaKind::Table,
        name: Bytes::copy_of(alloc, b"t")?,
        tbl: Bytes::copy_of(alloc, b"t")?,
        root: 2,
        sql: Some(Bytes::copy_of(alloc, b"CREATE TABLE t(a,b)")?),
    })
}

#[test]
fn a_row_is_listed_with_its_statement(rt: HostRuntime) -> Result<(), Fail> {
    let alloc = rt.alloc();
    let mut to = MemSink::new(alloc, 100, Vec::new(alloc))?;
    assert_eq!(rt; put_line(&row_of_t(alloc)?, &mut to), Ok(()));
    assert_eq!(rt; to.bytes(), ROW_OF_T);
    Ok(())
}

#[test]
fn bytes_of_names_that_could_be_misread_are_written_as_digits(rt: HostRuntime) -> Result<(), Fail> {
    let alloc = rt.alloc();
    let mut to = MemSink::new(alloc, 100, Vec::new(alloc))?;
    let line = ReportLine::Row {
        page: 7,
        cell: 3,
        kind: SchemaKind::Index,
        name: Bytes::copy_of(alloc, b"a b\\\xff~\x7f!")?,
        tbl: Bytes::copy_of(alloc, b"")?,
        root: -12,
        sql: None,
    };
    assert_eq!(rt; put_line(&line, &mut to), Ok(()));
    assert_eq!(rt;
        to.bytes(),
        b"7 3 index a\\20b\\5c\\ff~\\7f! \\ -12 null\n".as_slice()
    );
    Ok(())
}

#[test]
fn a_cell_that_is_no_row_is_bad(rt: HostRuntime) -> Result<(), Fail> {
    let alloc = rt.alloc();
    let mut to = MemSink::new(alloc, 100, Vec::new(alloc))?;
    let line = ReportLine::BadRow { page: 3, cell: 1 };
    assert_eq!(rt; put_line(&line, &mut to), Ok(()));
    assert_eq!(rt; to.bytes(), b"3 1 bad\n".as_slice());
    Ok(())
}

#[test]
fn a_call_of_the_sink_that_fails_leaves_a_front_of_the_line(rt: HostRuntime) -> Result<(), Fail> {
    let alloc = rt.alloc();
    let line = row_of_t(alloc)?;
    for call in 1..9u64 {
        let fails = [MemFail { call, keep: 1 }].to_vec(alloc)?;
        let mut to = MemSink::new(alloc, 100, fails)?;
        assert_eq!(rt; put_line(&line, &mut to), Err(Failed));
        assert!(rt; ROW_OF_T.starts_with(to.bytes()));
    }
    Ok(())
}

#[test]
fn the_geometry_comes_with_its_origin(rt: HostRuntime) -> Result<(), Fail> {
    let alloc = rt.alloc();
    let mut to = MemSink::new(alloc, 100, Vec::new(alloc))?;
    let line = ReportLine::Geometry {
        size: 512,
        reserved: 0,
        pages: 4,
        origin: Origin::Header,
    };
    assert_eq!(rt; put_line(&line, &mut to), Ok(()));
    assert_eq!(rt; to.bytes(), b"geometry 512 0 4 header\n".as_slice());
    Ok(())
}

#[test]
fn unread_cells_of_a_page_come_with_their_cause(rt: HostRuntime) -> Result<(), Fail> {
    let alloc = rt.alloc();
    let mut to = MemSink::new(alloc, 100, Vec::new(alloc))?;
    let line = ReportLine::Cells {
        page: 2,
        count: 299,
        first: 1,
        cause: CellCause::Overlap,
    };
    assert_eq!(rt; put_line(&line, &mut to), Ok(()));
    assert_eq!(rt; to.bytes(), b"cells 2 299 1 overlap\n".as_slice());
    Ok(())
}

#[test]
fn a_clash_names_the_later_row_first(rt: HostRuntime) -> Result<(), Fail> {
    let alloc = rt.alloc();
    let mut to = MemSink::new(alloc, 100, Vec::new(alloc))?;
    let line = ReportLine::Clash {
        name: Bytes::copy_of(alloc, b"t")?,
        page: 4,
        cell: 0,
        earlier_page: 3,
        earlier_cell: 1,
        key: 0,
    };
    assert_eq!(rt; put_line(&line, &mut to), Ok(()));
    assert_eq!(rt; to.bytes(), b"clash t 4 0 3 1 0\n".as_slice());
    Ok(())
}

#[test]
fn an_unread_table_comes_with_the_cell_that_has_no_order(rt: HostRuntime) -> Result<(), Fail> {
    let alloc = rt.alloc();
    let mut to = MemSink::new(alloc, 100, Vec::new(alloc))?;
    let line = ReportLine::Unread {
        name: Bytes::copy_of(alloc, b"v")?,
        rows: 2,
        pages: 1,
        cause: UnreadCause::Unordered(Place { page: 2, cell: 0 }),
    };
    assert_eq!(rt; put_line(&line, &mut to), Ok(()));
    assert_eq!(rt; to.bytes(), b"unread v 2 1 unordered 2 0\n".as_slice());
    Ok(())
}

#[test]
fn the_result_is_the_number_of_pages(rt: HostRuntime) -> Result<(), Fail> {
    let alloc = rt.alloc();
    let mut to = MemSink::new(alloc, 100, Vec::new(alloc))?;
    let line = ReportLine::Written { pages: 3 };
    assert_eq!(rt; put_line(&line, &mut to), Ok(()));
    assert_eq!(rt; to.bytes(), b"result 3\n".as_slice());
    Ok(())
}

#[test]
fn a_text_of_the_script_ends_with_a_line_of_its_own(rt: HostRuntime) -> Result<(), Fail> {
    let mut to = MemSink::new(rt.alloc(), 100, Vec::new(rt.alloc()))?;
    assert_eq!(rt; put_script(b"CREATE VIEW v AS SELECT 1", &mut to), Ok(()));
    assert_eq!(rt; to.bytes(), b"CREATE VIEW v AS SELECT 1\n;\n".as_slice());
    Ok(())
}
