//! Tables of three cells, made by hand.
ghost use Rattle.std.specs.Prelude.{◌≡◌, ◌<◌, ◌≤◌, IfOk, length};
ghost use Rattle.std.specs.List.{AllByRecursion};
ghost use Rattle.lost_found.specs.Few.{HasFewFields};
ghost use Rattle.lost_found.specs.Names.{CanBeBase};

use crate::{LostTable, lost_table};
use page_walk::{Place, TakenCell};
use record_core::{Bytes, Value};
use salvaged_tables::LostCell;
use std::alloc::{AllocError, Global};
use std::test::Fail;

// A cell of page 4 in the tree of page 3.
fn cell(alloc: Global, number: u32, rowid: Option<i64>, fields: Vec<Value>) -> LostCell
    requires { length fields.items ≤ 3 }
    ensures { HasFewFields result }
{
    LostCell {
        root: 3,
        cell: TakenCell {
            place: Place {
                page: 4,
                cell: number,
            },
            rowid,
            chain: Vec::new(alloc),
            fields,
        },
    }
}

// Row 1 with the field 7, an entry of an index with no field, and row -5 with three fields.
fn cells(alloc: Global) -> Result<Vec<LostCell>, Fail>
    ensures few { IfOk result (λ v. AllByRecursion HasFewFields v.items) }
    ensures three { IfOk result (λ v. length v.items ≡ 3) }
{
    let one = Vec::from_array(alloc, [Value::Whole(7)])?;
    let text = Value::Text(Bytes::copy_of(alloc, b"q")?);
    let three = Vec::from_array(alloc, [Value::Null, text, Value::Whole(0)])?;
    let first = cell(alloc, 0, Some(1), one);
    let second = cell(alloc, 1, None, Vec::new(alloc));
    let third = cell(alloc, 2, Some(-5), three);
    Ok(Vec::from_array(alloc, [first, second, third])?)
}

// A cell with no field.
fn empty_cell(alloc: Global) -> Result<Vec<LostCell>, Fail>
    ensures few { IfOk result (λ v. AllByRecursion HasFewFields v.items) }
    ensures one { IfOk result (λ v. length v.items ≡ 1) }
{
    Ok(Vec::from_array(alloc, [cell(alloc, 0, Some(1), Vec::new(alloc))])?)
}

fn lost_and_found(alloc: Global) -> Result<Bytes, AllocError>
    ensures { IfOk result (λ b. CanBeBase b) }
{
    Bytes::copy_of(alloc, b"lost_and_found")
}

fn with_quote(alloc: Global) -> Result<Bytes, AllocError>
    ensures { IfOk result (λ b. CanBeBase b) }
{
    Bytes::copy_of(alloc, b"a\"b")
}

// The table of these cells, where no other name is there.
fn alone(alloc: Global, cells: Vec<LostCell>) -> Result<LostTable, Fail>
    requires some { 0 < length cells.items }
    requires few { AllByRecursion HasFewFields cells.items }
{
    Ok(lost_table(alloc, &lost_and_found(alloc)?, &[], cells)?)
}

// The whole number that a value is.
fn whole(value: &Value) -> Option<i64> {
    match value {
        Value::Whole(number) => Some(*number),
        Value::Null | Value::Real8(_) | Value::Text(_) | Value::Blob(_) => None,
    }
}

#[test]
fn a_row_begins_with_root_page_and_count(rt: HostRuntime) -> Result<(), Fail> {
    let alloc = rt.alloc();
    let found = alone(alloc, cells(alloc)?)?;
    let rows = found.table.rows.as_slice();
    assert_eq!(rt; rows.len(), 3);
    assert_eq!(rt;
        (rows[0].rowid, rows[1].rowid, rows[2].rowid),
        (Some(1), Some(2), Some(3))
    );
    let first = rows[0].fields.as_slice();
    assert_eq!(rt; first.len(), 5);
    for (i, want) in [3, 4, 1, 1, 7].iter().enumerate() {
        assert_eq!(rt; whole(&first[i]), Some(*want));
    }
    let second = rows[1].fields.as_slice();
    assert_eq!(rt; second.len(), 4);
    assert_eq!(rt; whole(&second[2]), Some(0));
    assert!(rt; matches!(&second[3], Value::Null));
    let third = rows[2].fields.as_slice();
    assert_eq!(rt; third.len(), 7);
    assert_eq!(rt; (whole(&third[2]), whole(&third[3])), (Some(3), Some(-5)));
    assert_eq!(rt; found.places.len(), 3);
    assert_eq!(rt; found.places[2].place, Place { page: 4, cell: 2 });
    Ok(())
}

#[test]
fn there_is_a_column_for_each_field_of_the_longest_cell(rt: HostRuntime) -> Result<(), Fail> {
    let alloc = rt.alloc();
    let found = alone(alloc, cells(alloc)?)?;
    assert_eq!(rt;
        found.table.text.as_slice(),
        b"CREATE TABLE \"lost_and_found\"(rootpgno INTEGER, pgno INTEGER, nfield INTEGER, id INTEGER, c0, c1, c2)".as_slice()
    );
    assert_eq!(rt; found.table.shape.columns.len(), 7);
    assert_eq!(rt;
        found.table.shape.columns[6].name.as_slice(),
        b"c2".as_slice()
    );
    Ok(())
}

#[test]
fn without_fields_there_are_four_columns(rt: HostRuntime) -> Result<(), Fail> {
    let alloc = rt.alloc();
    let found = alone(alloc, empty_cell(alloc)?)?;
    assert_eq!(rt;
        found.table.text.as_slice(),
        b"CREATE TABLE \"lost_and_found\"(rootpgno INTEGER, pgno INTEGER, nfield INTEGER, id INTEGER)".as_slice()
    );
    assert_eq!(rt; found.table.shape.columns.len(), 4);
    Ok(())
}

#[test]
fn a_quote_in_the_name_is_doubled(rt: HostRuntime) -> Result<(), Fail> {
    let alloc = rt.alloc();
    let found = lost_table(alloc, &with_quote(alloc)?, &[], empty_cell(alloc)?)?;
    assert_eq!(rt; found.table.name.as_slice(), b"a\"b".as_slice());
    assert_eq!(rt;
        found.table.text.as_slice(),
        b"CREATE TABLE \"a\"\"b\"(rootpgno INTEGER, pgno INTEGER, nfield INTEGER, id INTEGER)".as_slice()
    );
    Ok(())
}

#[test]
fn a_name_that_is_taken_gets_a_number(rt: HostRuntime) -> Result<(), Fail> {
    let alloc = rt.alloc();
    let base = lost_and_found(alloc)?;
    let mut names = Vec::new(alloc);
    names.push(Bytes::copy_of(alloc, b"LOST_AND_FOUND")?)?;
    let first = lost_table(alloc, &base, names.as_slice(), empty_cell(alloc)?)?;
    assert_eq!(rt; first.table.name.as_slice(), b"lost_and_found0".as_slice());
    names.push(Bytes::copy_of(alloc, b"Lost_and_found0")?)?;
    names.push(Bytes::copy_of(alloc, b"lost_and_found2")?)?;
    let second = lost_table(alloc, &base, names.as_slice(), empty_cell(alloc)?)?;
    assert_eq!(rt; second.table.name.as_slice(), b"lost_and_found1".as_slice());
    Ok(())
}
