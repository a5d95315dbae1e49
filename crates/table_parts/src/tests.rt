//! Cells of tables made by hand.
use crate::{TablePart, lines_of, part_of};
use create_reader::read_create;
use page_walk::{CellCause, PageNotes, Place, TakenCell};
use record_core::{Bytes, Value};
use report_text::{ReportLine, UnreadCause};
use schema_texts::Reading;
use std::alloc::{AllocError, Global};
use std::test::Fail;

// A cell of page 2 with a rowid and one whole number.
fn cell(alloc: Global, number: u32, rowid: i64) -> Result<TakenCell, AllocError> {
    let mut fields = Vec::new(alloc);
    fields.push(Value::Whole(5))?;
    Ok(TakenCell {
        place: Place {
            page: 2,
            cell: number,
        },
        rowid: Some(rowid),
        chain: Vec::new(alloc),
        fields,
    })
}

// Cells with the rowids 7, 3 and 7.
fn cells(alloc: Global) -> Result<Vec<TakenCell>, AllocError> {
    let mut cells = Vec::new(alloc);
    cells.push(cell(alloc, 0, 7)?)?;
    cells.push(cell(alloc, 1, 3)?)?;
    cells.push(cell(alloc, 2, 7)?)?;
    Ok(cells)
}

// The numbers of a table's line, of its clashes, and of its pages with unread cells.
fn numbers(line: &ReportLine) -> [u64; 5] {
    match line {
        ReportLine::Table {
            rows,
            clashes,
            misfits,
            pages,
            ..
        } => [*rows, *clashes, *misfits, *pages, 0],
        ReportLine::Unread { rows, pages, .. } => [*rows, *pages, 0, 0, 0],
        ReportLine::Clash {
            page,
            cell,
            earlier_page,
            earlier_cell,
            key,
            ..
        } => [*page, *cell, *earlier_page, *earlier_cell, *key],
        ReportLine::Cells {
            page,
            count,
            first,
            ..
        } => [*page, *count, *first, 0, 0],
        _ => [0; 5],
    }
}

// The numbers of the lines of the table t on three pages, of which page 4 has two unread cells from cell 3 on.
fn told(alloc: Global, part: &TablePart) -> Result<Vec<[u64; 5]>, AllocError> {
    let first = Some((3, CellCause::Chain));
    let notes = [(4, PageNotes { unread: 2, first })];
    let name = Bytes::copy_of(alloc, b"t")?;
    let lines = lines_of(alloc, &name, 3, part, &notes)?;
    let mut told = Vec::new(alloc);
    for line in &lines {
        told.push(numbers(line))?;
    }
    Ok(told)
}

#[test]
fn two_rows_with_one_rowid_keep_the_earlier(rt: HostRuntime) -> Result<(), Fail> {
    let alloc = rt.alloc();
    let Ok(shape) = read_create(alloc, b"CREATE TABLE t(a)") else {
        assert!(rt; false);
        return Ok(());
    };
    let part = part_of(alloc, Reading::Shape(shape), cells(alloc)?)?;
    let told = told(alloc, &part)?;
    assert_eq!(rt;
        told.as_slice(),
        [[2, 1, 0, 3, 0], [2, 2, 2, 0, 0], [4, 2, 3, 0, 0]].as_slice()
    );
    Ok(())
}

#[test]
fn a_table_that_is_not_built_keeps_all_cells(rt: HostRuntime) -> Result<(), Fail> {
    let alloc = rt.alloc();
    let cause = UnreadCause::Double;
    let part = part_of(alloc, Reading::Unread { cause, kind: None }, cells(alloc)?)?;
    let told = told(alloc, &part)?;
    assert_eq!(rt;
        told.as_slice(),
        [[3, 3, 0, 0, 0], [4, 2, 3, 0, 0]].as_slice()
    );
    Ok(())
}
