//! Rows of a schema and cells of page 2, made by hand.
ghost use Rattle.std.specs.Prelude.{◌≡◌, IfOk};
ghost use Rattle.salvaged_tables.specs.Steps.{AreFew};
ghost use Rattle.tree_uses.specs.Trees.{turns_of};

use crate::{SalvagedTables, salvage_tables};
use create_reader::read_create;
use page_walk::{CellCause, CellOutcome, PageTurn, Place, TakenCell};
use raw_schema::{SchemaKind, SchemaRow};
use record_core::{Bytes, Value};
use report_text::UnreadCause;
use schema_texts::{Reading, TableReading};
use std::alloc::{AllocError, Global};
use std::test::Fail;
use tree_uses::{TreeTurns, TreeUse};

// A row of the schema for t.
fn row(alloc: Global, kind: SchemaKind, sql: Option<Bytes>) -> Result<SchemaRow, AllocError>
    ensures { IfOk result (λ r. r.kind ≡ kind) }
{
    Ok(SchemaRow {
        kind,
        name: Bytes::copy_of(alloc, b"t")?,
        tbl: Bytes::copy_of(alloc, b"t")?,
        root: 2,
        sql,
        place: Place { page: 1, cell: 0 },
    })
}

// A cell of page 2 with a rowid and one whole number.
fn cell(alloc: Global, number: u32, rowid: i64) -> Result<CellOutcome, AllocError> {
    let mut fields = Vec::new(alloc);
    fields.push(Value::Whole(5))?;
    Ok(CellOutcome::Taken(TakenCell {
        place: Place {
            page: 2,
            cell: number,
        },
        rowid: Some(rowid),
        chain: Vec::new(alloc),
        fields,
    }))
}

// Page 2 with the rowids 7, 3 and 7, and a cell whose overflow chain breaks.
fn turns(alloc: Global) -> Result<TreeTurns, AllocError>
    ensures { IfOk result (λ t. AreFew (turns_of t)) }
{
    let mut outcomes = Vec::new(alloc);
    outcomes.push(cell(alloc, 0, 7)?)?;
    outcomes.push(cell(alloc, 1, 3)?)?;
    outcomes.push(cell(alloc, 2, 7)?)?;
    outcomes.push(CellOutcome::Unread {
        cell: 3,
        rowid: Some(9),
        cause: CellCause::Chain,
        chain: Vec::new(alloc),
    })?;
    let mut turns = Vec::new(alloc);
    turns.push(PageTurn { page: 2, outcomes })?;
    Ok(TreeTurns { turns })
}

fn tree(alloc: Global) -> Result<TreeUse, AllocError> {
    let mut pages = Vec::new(alloc);
    pages.push(2)?;
    Ok(TreeUse {
        row: 0,
        list: 2,
        pages,
    })
}

// What the table t gives, whose tree is page 2.
fn salvaged(alloc: Global, reading: Reading) -> Result<SalvagedTables, AllocError> {
    let text = Bytes::copy_of(alloc, b"CREATE TABLE t(a)")?;
    let mut rows = Vec::new(alloc);
    rows.push(row(alloc, SchemaKind::Table, Some(text))?)?;
    let mut readings = Vec::new(alloc);
    readings.push(TableReading {
        row: 0,
        root: 2,
        reading,
    })?;
    let mut trees = Vec::new(alloc);
    trees.push(tree(alloc)?)?;
    let mut all = Vec::new(alloc);
    all.push(turns(alloc)?)?;
    salvage_tables(alloc, &rows, readings, &trees, all)
}

#[test]
fn of_two_rows_with_one_rowid_the_earlier_stays(rt: HostRuntime) -> Result<(), Fail> {
    let alloc = rt.alloc();
    let Ok(shape) = read_create(alloc, b"CREATE TABLE t(a)") else {
        assert!(rt; false);
        return Ok(());
    };
    let found = salvaged(alloc, Reading::Shape(shape))?;
    assert_eq!(rt; found.tables.len(), 1);
    assert_eq!(rt; found.tables[0].rows.len(), 2);
    assert_eq!(rt; found.tables[0].rows[0].rowid, Some(3));
    assert_eq!(rt; found.places.len(), 1);
    assert_eq!(rt; found.places[0].len(), 2);
    assert_eq!(rt; found.places[0][1].place, Place { page: 2, cell: 0 });
    assert_eq!(rt; found.lost.len(), 1);
    assert_eq!(rt; (found.lost[0].root, found.lost[0].cell.place.cell), (2, 2));
    assert_eq!(rt; found.script.len(), 0);
    Ok(())
}

#[test]
fn a_table_that_is_not_built_loses_its_cells(rt: HostRuntime) -> Result<(), Fail> {
    let cause = UnreadCause::Double;
    let found = salvaged(rt.alloc(), Reading::Unread { cause, kind: None })?;
    assert_eq!(rt; found.tables.len(), 0);
    assert_eq!(rt; found.lost.len(), 3);
    assert_eq!(rt; found.script.len(), 1);
    assert!(rt; found.script[0].table.is_some());
    assert_eq!(rt;
        found.script[0].text.as_slice(),
        b"CREATE TABLE t(a)".as_slice()
    );
    assert_eq!(rt; found.lines.len(), 2);
    Ok(())
}

#[test]
fn a_cell_that_is_not_read_has_its_root(rt: HostRuntime) -> Result<(), Fail> {
    let cause = UnreadCause::Double;
    let found = salvaged(rt.alloc(), Reading::Unread { cause, kind: None })?;
    assert_eq!(rt; found.failed.len(), 1);
    assert_eq!(rt; found.failed[0].place, Place { page: 2, cell: 3 });
    assert_eq!(rt; (found.failed[0].root, found.failed[0].rowid), (2, Some(9)));
    Ok(())
}

#[test]
fn an_index_gives_its_text_where_it_has_one(rt: HostRuntime) -> Result<(), Fail> {
    let alloc = rt.alloc();
    let text = Bytes::copy_of(alloc, b"CREATE INDEX i ON t(a)")?;
    let mut rows = Vec::new(alloc);
    rows.push(row(alloc, SchemaKind::Index, Some(text))?)?;
    rows.push(row(alloc, SchemaKind::Index, None)?)?;
    let found = salvage_tables(alloc, &rows, Vec::new(alloc), &[], Vec::new(alloc))?;
    assert_eq!(rt; found.script.len(), 1);
    assert!(rt; found.script[0].table.is_none());
    Ok(())
}
