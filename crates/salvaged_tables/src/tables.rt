//! The rows of a table with their places, and the cells that are none.
ghost use Rattle.std.specs.Prelude.{◌≡◌, ◌++◌, [], length, map, unwrap_or, if◌then◌else◌, IfOk, OnOk};
ghost use Rattle.page_walk.specs.Cells.{Row, row_of};
ghost use Rattle.table_fill.specs.Chosen.{left_seen};
ghost use Rattle.table_fill.specs.Fates.{Left};
ghost use Rattle.salvaged_tables.specs.Fates.{stored_row};
ghost use Rattle.salvaged_tables.specs.Salvaged.{lost_seen, rows_at};
ghost use Rattle.salvaged_tables.specs.Steps.{GainsRow};

use crate::places::{LostCell, Placed};
use page_walk::TakenCell;
use record_core::Bytes;
use std::alloc::{AllocError, Global};
use table_fill::LeftCell;
use table_shape::OutRow;

/// The rows of a table, and where each of them comes from.
#[derive(Debug, Drop)]
pub(crate) struct PlacedRows {
    pub rows: Vec<OutRow>,
    pub places: Vec<Placed>,
}

/// These cells as the rows of a table; one WITHOUT ROWID has no rowids.
pub(crate) fn placed_rows(
    alloc: Global,
    without_rowid: bool,
    cells: Vec<TakenCell>,
) -> Result<PlacedRows, AllocError>
    ensures rows { IfOk result (λ v. rows_at v.rows.items v.places.items
        ≡ map (stored_row without_rowid) (map row_of cells.items)) }
    ensures places { IfOk result (λ v. length v.rows.items ≡ length v.places.items) }
{
    let mut rows = Vec::new(alloc);
    let mut places = Vec::new(alloc);
    for cell in cells {
        add_row(without_rowid, cell, &mut rows, &mut places)?;
    }
    Ok(PlacedRows { rows, places })
}

// Appends a row and its place.
fn add_row(
    without_rowid: bool,
    cell: TakenCell,
    rows: &mut Vec<OutRow>,
    places: &mut Vec<Placed>,
) -> Result<(), AllocError>
    ensures { OnOk result (GainsRow (stored_row without_rowid (row_of cell))
        rows.old.items places.old.items rows.new.items places.new.items) }
{
    let TakenCell {
        place,
        rowid,
        chain,
        fields,
    } = cell;
    rows.push(OutRow {
        rowid: rowid_in(without_rowid, rowid),
        fields,
    })?;
    places.push(Placed { place, chain })?;
    Ok(())
}

// The rowid of a row, where its table has them.
fn rowid_in(without_rowid: bool, rowid: Option<i64>) -> Option<i64>
    ensures { result ≡ (if without_rowid then None else rowid) }
{
    if without_rowid { None } else { rowid }
}

/// The text of a row; empty where there is none.
pub(crate) fn text_of(alloc: Global, sql: &Option<Bytes>) -> Result<Bytes, AllocError>
    ensures { IfOk result (λ b. b ≡ unwrap_or sql.now []) }
{
    match sql {
        Some(sql) => Bytes::copy_of(alloc, sql.as_slice()),
        None => Bytes::copy_of(alloc, b""),
    }
}

/// Appends the cells that are no rows of a table that is built.
pub(crate) fn add_left(
    root: u32,
    left: Vec<LeftCell>,
    to: &mut Vec<LostCell>,
) -> Result<(), AllocError>
    ensures { OnOk result (map lost_seen to.new.items ≡ map lost_seen to.old.items
        ++ map (λ (r : Row). (root, r)) (map (λ (l : Left). l.row) (map left_seen left.items))) }
{
    for cell in left {
        let LeftCell { cell, .. } = cell;
        to.push(LostCell { root, cell })?;
    }
    Ok(())
}

/// Appends the cells of a tree with this root page, which no table has.
pub fn add_lost(root: u32, cells: Vec<TakenCell>, to: &mut Vec<LostCell>) -> Result<(), AllocError>
    ensures { OnOk result (map lost_seen to.new.items ≡ map lost_seen to.old.items
        ++ map (λ (r : Row). (root, r)) (map row_of cells.items)) }
{
    for cell in cells {
        to.push(LostCell { root, cell })?;
    }
    Ok(())
}
