//! Files, by hand from the standard (fileformat2.html, 1.3 to 1.7 and 2.6).

ghost use Rattle.std.specs.Prelude.{◌≡◌, ◌∷◌, [], Some, pos, IfOk, IfSome, codes, false, length, true};
ghost use Rattle.db_builder.specs.Valid.{IsTable, IsValid};

use crate::*;
use create_reader::read_create;
use page_access::MemSink;
use record_core::{Bytes, Value};
use std::alloc::{AllocError, Global};
use std::test::Fail;
use table_shape::{OutRow, OutTable, TableShape};

fn row(alloc: Global, rowid: i64, values: [Value; 2]) -> Result<OutRow, AllocError>
    ensures rowid { IfOk result (λ r. r.rowid ≡ Some rowid) }
    ensures fields { IfOk result (λ r. length r.fields.items ≡ 2) }
{
    Ok(OutRow {
        rowid: Some(rowid),
        fields: Vec::from_array(alloc, values)?,
    })
}

// Two rows: 5 and 'x', NULL and a byte 0.
fn two_rows(alloc: Global) -> Result<Vec<OutRow>, AllocError>
    ensures { IfOk result (λ v. (a b : OutRow) × (v.items ≡ a ∷ b ∷ []) × (a.rowid ≡ Some (pos 1))
        × (b.rowid ≡ Some (pos 2)) × (length a.fields.items ≡ 2) × (length b.fields.items ≡ 2)) }
{
    let text = Value::Text(Bytes::copy_of(alloc, b"x")?);
    let blob = Value::Blob(Bytes::copy_of(alloc, &[0])?);
    let first = row(alloc, 1, [Value::Whole(5), text])?;
    let second = row(alloc, 2, [Value::Null, blob])?;
    Ok(Vec::from_array(alloc, [first, second])?)
}

// Whether a shape is of a table t with rowids, two columns and no key.
fn is_plain(shape: &TableShape) -> bool
    ensures name { result ≡ true → shape.now.name ≡ codes "t" }
    ensures columns { result ≡ true → length shape.now.columns.items ≡ 2 }
    ensures rowids { result ≡ true → shape.now.without_rowid ≡ false }
    ensures keys { result ≡ true → shape.now.keys.items ≡ [] }
{
    shape.name.as_slice() == b"t".as_slice()
        && shape.columns.len() == 2
        && !shape.without_rowid
        && shape.keys.is_empty()
}

// The table t with these rows, where its text is read as that of a plain table.
fn table_of_two_rows(alloc: Global) -> Result<Option<OutTable>, Fail>
    ensures { IfOk result (λ t. IfSome t IsTable) }
{
    let text = Bytes::copy_of(alloc, b"CREATE TABLE t(a,b)")?;
    let shape = read_create(alloc, text.as_slice())?;
    if !is_plain(&shape) {
        return Ok(None);
    }
    Ok(Some(OutTable {
        name: Bytes::copy_of(alloc, b"t")?,
        text,
        shape,
        rows: two_rows(alloc)?,
    }))
}

fn one_table(alloc: Global) -> Result<OutDb, Fail>
    ensures { IfOk result IsValid }
{
    let mut tables = Vec::new(alloc);
    if let Some(table) = table_of_two_rows(alloc)? {
        tables.push(table)?;
    }
    Ok(OutDb {
        tables,
        user_version: 0,
        application_id: 0,
    })
}

// A row of the schema has 33 and 3 bytes, the rows have 5 and 4, and each counts 32 more.
#[test]
fn a_table_of_two_rows_has_the_load_141(rt: HostRuntime) -> Result<(), Fail> {
    let db = one_table(rt.alloc())?;
    assert_eq!(rt; load_of(&db), 141);
    let refused = prepare(rt.alloc(), &db, 512, 100);
    assert_eq!(rt; refused.err(), Some(PrepareFault::TooLarge { load: 141 }));
    Ok(())
}

// Page 1, and the leaf of the table.
#[test]
fn a_table_of_two_rows_has_two_pages(rt: HostRuntime) -> Result<(), Fail> {
    let db = one_table(rt.alloc())?;
    let mut sink = MemSink::new(rt.alloc(), 1024, Vec::new(rt.alloc()))?;
    assert_eq!(rt; build(rt.alloc(), &db, 512, 141, &mut sink).ok(), Some(2));
    Ok(())
}

#[test]
fn an_empty_database_has_one_page(rt: HostRuntime) -> Result<(), Fail> {
    let db = OutDb {
        tables: Vec::new(rt.alloc()),
        user_version: 7,
        application_id: 9,
    };
    let mut prepared = plan_file(rt.alloc(), &db, 4096)?;
    let mut sink = MemSink::new(rt.alloc(), 4096, Vec::new(rt.alloc()))?;
    assert_eq!(rt; prepared.write(&db, &mut sink).ok(), Some(1));
    let bytes = sink.bytes();
    assert_eq!(rt; bytes.len(), 4096);
    assert_eq!(rt; &bytes[..16], b"SQLite format 3\0".as_slice());
    assert_eq!(rt;
        &bytes[16..28],
        [16, 0, 1, 1, 0, 64, 32, 32, 0, 0, 0, 1].as_slice()
    );
    assert_eq!(rt;
        &bytes[28..44],
        [0, 0, 0, 1, 0, 0, 0, 0, 0, 0, 0, 0, 0, 0, 0, 1].as_slice()
    );
    assert_eq!(rt;
        &bytes[44..60],
        [0, 0, 0, 4, 0, 0, 0, 0, 0, 0, 0, 0, 0, 0, 0, 1].as_slice()
    );
    assert_eq!(rt;
        &bytes[60..72],
        [0, 0, 0, 7, 0, 0, 0, 0, 0, 0, 0, 9].as_slice()
    );
    assert!(rt; bytes[72..92].iter().all(|byte| *byte == 0));
    assert_eq!(rt;
        &bytes[92..100],
        [0, 0, 0, 1, 0, 0x2e, 0x57, 0x48].as_slice()
    );
    // a table leaf without cells, whose content begins at its end
    assert_eq!(rt; &bytes[100..108], [13, 0, 0, 0, 0, 16, 0, 0].as_slice());
    assert!(rt; bytes[108..].iter().all(|byte| *byte == 0));
    Ok(())
}
