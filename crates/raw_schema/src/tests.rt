//! Files are built by hand from fileformat2.html, 1.3, 1.6, 2.1 and 2.6; pages have 512 bytes.
ghost use Rattle.std.specs.Prelude.{◌≡◌, ◌<◌, ◌≤◌, ◌^◌, IfOk, length};

use crate::{RawSchema, SCHEMA_LIST, SchemaKind, SchemaRow, read_schema};
use page_access::{Geometry, MemSource, PageCache};
use page_lists::PageTable;
use page_walk::{CellCause, LISTS, PageNotes, survey};
use record_core::Value;
use std::alloc::Global;
use std::process::Abort;
use std::test::Fail;

// Writes a piece at a place, as far as there is room.
fn place(bytes: &mut [u8], at: u16, piece: &[u8]) {
    for (byte, new) in bytes.iter_mut().skip(at as usize).zip(piece) {
        *byte = *new;
    }
}

// The schema of a file of so many pages.
fn schema_of(alloc: Global, pages: u32, bytes: Vec<u8>) -> Result<(RawSchema, PageTable), Fail>
    requires least { 1 ≤ pages }
    requires most { pages < 2 ^ 16 }
    ensures { IfOk result (λ r. length r.1.lists ≡ 7) }
{
    let geo = Geometry {
        page_size: 512,
        usable: 512,
        pages,
    };
    let mut src = MemSource::new(bytes, Vec::new(alloc));
    let mut cache = PageCache::new(alloc, &geo, 2)?;
    let kinds = survey(alloc, &mut src, &geo, &mut cache)?;
    let mut table = PageTable::new(alloc, pages, LISTS)?;
    let schema = read_schema(alloc, &mut src, &geo, &mut cache, &kinds, &mut table)?;
    Ok((schema, table))
}

// The row stands in this cell of this page, and has these texts.
fn assert_texts(
    rt: &impl Abort,
    row: &SchemaRow,
    page: u32,
    cell: u32,
    name: &[u8],
    tbl: &[u8],
    sql: &[u8],
) {
    assert_eq!(rt; (row.place.page, row.place.cell), (page, cell));
    assert_eq!(rt; row.name.as_slice(), name);
    assert_eq!(rt; row.tbl.as_slice(), tbl);
    if let Some(text) = &row.sql {
        assert_eq!(rt; text.as_slice(), sql);
    }
}

#[test]
fn a_file_with_one_table_has_one_row(rt: HostRuntime) -> Result<(), Fail> {
    let alloc = rt.alloc();
    let mut bytes = vec![in alloc; 0u8; 1024]?;
    let all = bytes.as_mut_slice();
    place(all, 100, b"\x0d\x00\x00\x00\x01\x01\xdd\x00\x01\xdd");
    place(
        all,
        477,
        b"\x21\x01\x06\x17\x0f\x0f\x01\x33tablett\x02CREATE TABLE t(a,b)",
    );
    place(all, 512, b"\x0d\x00\x00\x00\x00\x02\x00\x00");
    let (schema, table) = schema_of(alloc, 2, bytes)?;
    assert_eq!(rt; schema.rows.len(), 1);
    for row in &schema.rows {
        assert_eq!(rt; row.kind, SchemaKind::Table);
        assert_eq!(rt; row.root, 2);
        assert!(rt; row.sql.is_some());
        assert_texts(&rt, row, 1, 0, b"t", b"t", b"CREATE TABLE t(a,b)");
    }
    assert_eq!(rt; schema.bad.len(), 0);
    assert_eq!(rt; schema.pages.as_slice(), [1].as_slice());
    assert_eq!(rt; schema.notes.len(), 0);
    assert_eq!(rt; table.first(SCHEMA_LIST), Some(1));
    assert_eq!(rt; table.first(0), Some(2));
    Ok(())
}

#[test]
fn a_row_may_lack_root_and_text_but_has_five_fields_and_a_kind_in_small_letters(
    rt: HostRuntime,
) -> Result<(), Fail> {
    let alloc = rt.alloc();
    let mut bytes = vec![in alloc; 0u8; 512]?;
    let all = bytes.as_mut_slice();
    place(
        all,
        100,
        b"\x0d\x00\x00\x00\x03\x01\xd2\x00\x01\xf1\x01\xe1\x01\xd2",
    );
    place(all, 497, b"\x0d\x01\x06\x17\x0f\x0f\x00\x00indexit");
    place(all, 481, b"\x0e\x02\x06\x17\x0f\x0f\x01\x00Tablett\x02");
    place(all, 466, b"\x0d\x03\x05\x17\x0f\x0f\x01tablett\x02");
    let (schema, _table) = schema_of(alloc, 1, bytes)?;
    assert_eq!(rt; schema.rows.len(), 1);
    for row in &schema.rows {
        assert_eq!(rt; row.kind, SchemaKind::Index);
        assert_eq!(rt; row.root, 0);
        assert!(rt; row.sql.is_none());
        assert_texts(&rt, row, 1, 0, b"i", b"t", b"");
    }
    assert_eq!(rt; schema.bad.len(), 2);
    let word = &schema.bad[0];
    assert_eq!(rt; (word.place.page, word.place.cell), (1, 1));
    assert!(rt;
        matches!(
            &word.fields.as_slice(),
            [Value::Text(_), _, _, Value::Whole(2), Value::Null]
        )
    );
    let four = &schema.bad[1];
    assert_eq!(rt; (four.place.page, four.place.cell), (1, 2));
    assert_eq!(rt; four.fields.len(), 4);
    assert_eq!(rt; schema.notes.len(), 0);
    Ok(())
}

#[test]
fn rows_come_in_page_order_and_a_page_with_an_unread_cell_has_its_note(
    rt: HostRuntime,
) -> Result<(), Fail> {
    let alloc = rt.alloc();
    let mut bytes = vec![in alloc; 0u8; 1536]?;
    let all = bytes.as_mut_slice();
    // page 1 names page 2 in its cell, and page 3 as its right-most
    place(
        all,
        100,
        b"\x05\x00\x00\x00\x01\x01\xfb\x00\x00\x00\x00\x03\x01\xfb",
    );
    place(all, 507, b"\x00\x00\x00\x02\x01");
    place(all, 512, b"\x0d\x00\x00\x00\x01\x01\xf1\x00\x01\xf1");
    place(all, 1009, b"\x0d\x01\x06\x17\x0f\x0f\x00\x00indexit");
    // the first cell pointer of page 3 points to the page's start
    place(
        all,
        1024,
        b"\x0d\x00\x00\x00\x02\x01\xee\x00\x00\x00\x01\xee",
    );
    place(all, 1518, b"\x10\x02\x06\x1b\x0f\x0f\x08\x0ftriggerrtx");
    let (schema, table) = schema_of(alloc, 3, bytes)?;
    assert_eq!(rt; schema.rows.len(), 2);
    let first = &schema.rows[0];
    assert_eq!(rt; first.kind, SchemaKind::Index);
    assert_texts(&rt, first, 2, 0, b"i", b"t", b"");
    let second = &schema.rows[1];
    assert_eq!(rt; second.kind, SchemaKind::Trigger);
    assert_eq!(rt; second.root, 0);
    assert!(rt; second.sql.is_some());
    assert_texts(&rt, second, 3, 1, b"r", b"t", b"x");
    assert_eq!(rt; schema.bad.len(), 0);
    assert_eq!(rt; schema.pages.as_slice(), [1, 2, 3].as_slice());
    assert_eq!(rt; schema.notes.len(), 1);
    let first = Some((0, CellCause::Pointer));
    assert_eq!(rt; schema.notes[0].0, 3);
    assert_eq!(rt; schema.notes[0].1, PageNotes { unread: 1, first });
    assert_eq!(rt; table.len(SCHEMA_LIST), 3);
    Ok(())
}
