use super::*;
use crate::chooses::choose_by;
use key_order::Coll;
use page_walk::{Place, TakenCell};
use record_core::{Bytes, Value};
use std::alloc::AllocError;
use std::test::*;
use table_shape::{KeyPart, KeyPlan, Spot, TablePlan, TableShape};

// The expected answers are read off the rules of docs/FORMAT.md, "Keys and clashes".

const ROWID: KeyPart = KeyPart {
    spot: Spot::Rowid,
    coll: Coll::Binary,
};

fn field(i: usize, coll: Coll) -> KeyPart {
    KeyPart {
        spot: Spot::Field(i),
        coll,
    }
}

fn text(rt: &HostRuntime, bytes: &[u8]) -> Result<Value, AllocError> {
    Ok(Value::Text(Bytes::copy_of(rt.alloc(), bytes)?))
}

// A plan without keys but the one that orders the rows.
fn plan(rt: &HostRuntime, columns: usize, first: &[KeyPart]) -> Result<TablePlan, AllocError> {
    Ok(TablePlan {
        columns,
        first: Vec::from_slice(rt.alloc(), first)?,
        keys: Vec::new(rt.alloc()),
    })
}

fn add_key(
    rt: &HostRuntime,
    plan: &mut TablePlan,
    number: u32,
    parts: &[KeyPart],
) -> Result<(), AllocError> {
    let parts = Vec::from_slice(rt.alloc(), parts)?;
    plan.keys.push(KeyPlan { number, parts })?;
    Ok(())
}

// Cells of page 2, numbered as they come.
#[derive(Drop)]
struct Cells {
    cells: Vec<TakenCell>,
}

impl Cells {
    fn new(rt: &HostRuntime) -> Cells {
        Cells {
            cells: Vec::new(rt.alloc()),
        }
    }

    fn add(
        &mut self,
        rt: &HostRuntime,
        rowid: Option<i64>,
        fields: Vec<Value>,
    ) -> Result<(), AllocError> {
        let cell = (self.cells.len() % 1000) as u32;
        self.cells.push(TakenCell {
            place: Place { page: 2, cell },
            rowid,
            chain: Vec::new(rt.alloc()),
            fields,
        })?;
        Ok(())
    }
}

// Whether these cells are the rows, and those the others: a clash with its cell and key, or a misfit.
fn is_rows(chosen: &Chosen, wanted: &[u32], others: &[(u32, Option<(u32, u32)>)]) -> bool {
    match chosen {
        Chosen::Rows { rows, left } => are_cells(rows.as_slice(), wanted)
            && are_left(left.as_slice(), others),
        Chosen::Unordered { .. } => false,
    }
}

fn are_cells(cells: &[TakenCell], wanted: &[u32]) -> bool {
    for (cell, number) in cells.iter().zip(wanted) {
        if cell.place.cell != *number {
            return false;
        }
    }
    cells.len() == wanted.len()
}

fn are_left(left: &[LeftCell], wanted: &[(u32, Option<(u32, u32)>)]) -> bool {
    for (cell, other) in left.iter().zip(wanted) {
        if cell.cell.place.cell != other.0 || !is_fate(cell.fate, other.1) {
            return false;
        }
    }
    left.len() == wanted.len()
}

fn is_fate(fate: Fate, wanted: Option<(u32, u32)>) -> bool {
    match (fate, wanted) {
        (Fate::Clash { earlier, key }, Some((cell, number))) => {
            earlier.page == 2 && earlier.cell == cell && key == number
        }
        (Fate::Misfit, None) => true,
        _ => false,
    }
}

fn are_clashes(clashes: &[Clash], wanted: &[(u32, u32, u32)]) -> bool {
    for (clash, other) in clashes.iter().zip(wanted) {
        if clash.cell.place.cell != other.0
            || clash.earlier.cell != other.1
            || clash.key != other.2
        {
            return false;
        }
    }
    clashes.len() == wanted.len()
}

fn is_filled(filled: &Filled, wanted: &[u32], others: &[(u32, u32, u32)], apart: &[u32]) -> bool {
    match filled {
        Filled::Built {
            rows,
            clashes,
            misfits,
        } => {
            are_cells(rows.as_slice(), wanted)
                && are_clashes(clashes.as_slice(), others)
                && are_cells(misfits.as_slice(), apart)
        }
        Filled::Unordered { .. } => false,
    }
}

fn is_unordered(chosen: &Chosen, first: u32, count: usize) -> bool {
    match chosen {
        Chosen::Rows { .. } => false,
        Chosen::Unordered { cells, place } => place.cell == first && cells.len() == count,
    }
}

#[test]
fn three_equal_rowids_keep_the_first(rt: HostRuntime) -> Result<(), Fail> {
    let plan = plan(&rt, 1, &[ROWID])?;
    let mut cells = Cells::new(&rt);
    for rowid in [7, 5, 7, 7] {
        cells.add(&rt, Some(rowid), vec![in rt.alloc(); Value::Whole(1)]?)?;
    }
    let chosen = choose_by(rt.alloc(), &plan, cells.cells)?;
    assert!(rt; is_rows(&chosen, &[1, 0], &[(2, Some((0, 0))), (3, Some((0, 0)))]));
    Ok(())
}

#[test]
fn texts_under_nocase_clash_and_nulls_do_not(rt: HostRuntime) -> Result<(), Fail> {
    let mut plan = plan(&rt, 1, &[ROWID])?;
    add_key(&rt, &mut plan, 1, &[field(0, Coll::NoCase)])?;
    let mut cells = Cells::new(&rt);
    cells.add(&rt, Some(1), vec![in rt.alloc(); text(&rt, b"Ab\xc4")?]?)?;
    cells.add(&rt, Some(2), vec![in rt.alloc(); Value::Null]?)?;
    cells.add(&rt, Some(3), vec![in rt.alloc(); text(&rt, b"aB\xc4")?]?)?;
    cells.add(&rt, Some(4), vec![in rt.alloc(); Value::Null]?)?;
    cells.add(&rt, Some(5), vec![in rt.alloc(); text(&rt, b"aB\xe4")?]?)?;
    let chosen = choose_by(rt.alloc(), &plan, cells.cells)?;
    assert!(rt; is_rows(&chosen, &[0, 1, 3, 4], &[(2, Some((0, 1)))]));
    Ok(())
}

#[test]
fn spaces_at_the_end_do_not_count_under_rtrim(rt: HostRuntime) -> Result<(), Fail> {
    let mut plan = plan(&rt, 1, &[ROWID])?;
    add_key(&rt, &mut plan, 1, &[field(0, Coll::RTrim)])?;
    let mut cells = Cells::new(&rt);
    cells.add(&rt, Some(1), vec![in rt.alloc(); text(&rt, b"a  ")?]?)?;
    cells.add(&rt, Some(2), vec![in rt.alloc(); text(&rt, b"a")?]?)?;
    cells.add(&rt, Some(3), vec![in rt.alloc(); text(&rt, b" a")?]?)?;
    let chosen = choose_by(rt.alloc(), &plan, cells.cells)?;
    assert!(rt; is_rows(&chosen, &[0, 2], &[(1, Some((0, 1)))]));
    Ok(())
}

#[test]
fn without_rowid_the_primary_key_orders_and_a_second_equal_key_clashes(
    rt: HostRuntime,
) -> Result<(), Fail> {
    let plan = plan(&rt, 2, &[field(0, Coll::Binary)])?;
    let mut cells = Cells::new(&rt);
    cells.add(
        &rt,
        None,
        vec![in rt.alloc(); text(&rt, b"b")?, Value::Whole(1)]?,
    )?;
    cells.add(
        &rt,
        None,
        vec![in rt.alloc(); text(&rt, b"a")?, Value::Whole(2)]?,
    )?;
    cells.add(
        &rt,
        None,
        vec![in rt.alloc(); text(&rt, b"b")?, Value::Whole(3)]?,
    )?;
    cells.add(
        &rt,
        None,
        vec![in rt.alloc(); Value::Null, Value::Whole(4)]?,
    )?;
    let chosen = choose_by(rt.alloc(), &plan, cells.cells)?;
    assert!(rt; is_rows(&chosen, &[1, 0], &[(2, Some((0, 0))), (3, None)]));
    Ok(())
}

#[test]
fn a_key_of_three_columns_clashes_where_all_are_equal(rt: HostRuntime) -> Result<(), Fail> {
    let mut plan = plan(&rt, 3, &[ROWID])?;
    let parts = [
        field(2, Coll::Binary),
        field(0, Coll::Binary),
        field(1, Coll::NoCase),
    ];
    add_key(&rt, &mut plan, 1, &parts)?;
    let mut cells = Cells::new(&rt);
    for last in [b"x", b"y", b"X"] {
        let fields = vec![in rt.alloc(); Value::Whole(1), text(&rt, last)?, Value::Whole(2)]?;
        cells.add(&rt, Some(9), fields)?;
    }
    let chosen = choose_by(rt.alloc(), &plan, cells.cells)?;
    assert!(rt; is_rows(&chosen, &[0], &[(1, Some((0, 0))), (2, Some((0, 0)))]));
    let mut cells = Cells::new(&rt);
    for (rowid, last) in [(1, b"x"), (2, b"y"), (3, b"X")] {
        let fields = vec![in rt.alloc(); Value::Whole(1), text(&rt, last)?, Value::Whole(2)]?;
        cells.add(&rt, Some(rowid), fields)?;
    }
    let chosen = choose_by(rt.alloc(), &plan, cells.cells)?;
    assert!(rt; is_rows(&chosen, &[0, 1], &[(2, Some((0, 1)))]));
    Ok(())
}

#[test]
fn the_least_key_is_named_though_another_row_clashes_by_a_greater(
    rt: HostRuntime,
) -> Result<(), Fail> {
    let mut plan = plan(&rt, 2, &[ROWID])?;
    add_key(&rt, &mut plan, 1, &[field(0, Coll::Binary)])?;
    add_key(&rt, &mut plan, 4, &[field(1, Coll::Binary)])?;
    let mut cells = Cells::new(&rt);
    cells.add(
        &rt,
        Some(1),
        vec![in rt.alloc(); Value::Whole(1), Value::Whole(8)]?,
    )?;
    cells.add(
        &rt,
        Some(2),
        vec![in rt.alloc(); Value::Whole(2), Value::Whole(9)]?,
    )?;
    cells.add(
        &rt,
        Some(3),
        vec![in rt.alloc(); Value::Whole(2), Value::Whole(8)]?,
    )?;
    cells.add(
        &rt,
        Some(4),
        vec![in rt.alloc(); Value::Whole(3), Value::Whole(8)]?,
    )?;
    cells.add(
        &rt,
        Some(5),
        vec![in rt.alloc(); Value::Whole(3), Value::Whole(7)]?,
    )?;
    let chosen = choose_by(rt.alloc(), &plan, cells.cells)?;
    assert!(rt; is_rows(&chosen, &[0, 1, 4], &[(2, Some((1, 1))), (3, Some((0, 4)))]));
    Ok(())
}

#[test]
fn a_key_column_without_its_field_is_a_misfit(rt: HostRuntime) -> Result<(), Fail> {
    let mut plan = plan(&rt, 2, &[ROWID])?;
    add_key(&rt, &mut plan, 1, &[field(1, Coll::Binary)])?;
    let mut cells = Cells::new(&rt);
    cells.add(&rt, Some(1), vec![in rt.alloc(); Value::Whole(1)]?)?;
    cells.add(
        &rt,
        Some(2),
        vec![in rt.alloc(); Value::Whole(1), Value::Null]?,
    )?;
    cells.add(
        &rt,
        Some(3),
        vec![in rt.alloc(); Value::Whole(1), Value::Null, Value::Null]?,
    )?;
    cells.add(
        &rt,
        None,
        vec![in rt.alloc(); Value::Whole(1), Value::Null]?,
    )?;
    let chosen = choose_by(rt.alloc(), &plan, cells.cells)?;
    assert!(rt; is_rows(&chosen, &[1], &[(0, None), (2, None), (3, None)]));
    Ok(())
}

#[test]
fn the_field_of_the_rowid_column_in_a_key_is_the_rowid(rt: HostRuntime) -> Result<(), Fail> {
    let mut plan = plan(&rt, 2, &[ROWID])?;
    add_key(&rt, &mut plan, 1, &[field(1, Coll::Binary), ROWID])?;
    let mut cells = Cells::new(&rt);
    cells.add(
        &rt,
        Some(3),
        vec![in rt.alloc(); Value::Null, Value::Whole(5)]?,
    )?;
    cells.add(
        &rt,
        Some(-3),
        vec![in rt.alloc(); Value::Null, Value::Whole(5)]?,
    )?;
    let chosen = choose_by(rt.alloc(), &plan, cells.cells)?;
    assert!(rt; is_rows(&chosen, &[1, 0], &[]));
    Ok(())
}

#[test]
fn a_real_or_a_zero_byte_under_nocase_leaves_a_table_unordered(
    rt: HostRuntime,
) -> Result<(), Fail> {
    let mut plan = plan(&rt, 1, &[ROWID])?;
    add_key(&rt, &mut plan, 1, &[field(0, Coll::NoCase)])?;
    let mut cells = Cells::new(&rt);
    cells.add(&rt, Some(1), vec![in rt.alloc(); Value::Null]?)?;
    cells.add(
        &rt,
        Some(2),
        vec![in rt.alloc(); Value::Real8([0x3f, 0xf8, 0, 0, 0, 0, 0, 0]), Value::Null]?,
    )?;
    cells.add(&rt, Some(3), vec![in rt.alloc(); text(&rt, b"a\0b")?]?)?;
    cells.add(
        &rt,
        Some(4),
        vec![in rt.alloc(); Value::Real8([0x3f, 0xf8, 0, 0, 0, 0, 0, 0])]?,
    )?;
    let chosen = choose_by(rt.alloc(), &plan, cells.cells)?;
    assert!(rt; is_unordered(&chosen, 2, 4));
    Ok(())
}

// A table without columns and keys.
fn no_columns(rt: &HostRuntime) -> Result<TableShape, AllocError> {
    Ok(TableShape {
        name: Bytes::copy_of(rt.alloc(), b"t")?,
        columns: Vec::new(rt.alloc()),
        alias: None,
        without_rowid: false,
        primary: Vec::new(rt.alloc()),
        keys: Vec::new(rt.alloc()),
        autoincrement: false,
    })
}

#[test]
fn clashes_and_misfits_are_told_apart(rt: HostRuntime) -> Result<(), Fail> {
    let shape = no_columns(&rt)?;
    let mut cells = Cells::new(&rt);
    cells.add(&rt, Some(1), vec![in rt.alloc(); Value::Null]?)?;
    cells.add(&rt, Some(2), Vec::new(rt.alloc()))?;
    cells.add(&rt, Some(2), Vec::new(rt.alloc()))?;
    let filled = fill(rt.alloc(), &shape, cells.cells)?;
    assert!(rt; is_filled(&filled, &[1], &[(2, 1, 0)], &[0]));
    Ok(())
}
