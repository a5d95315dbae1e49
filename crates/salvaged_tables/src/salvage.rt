//! All tables of a schema.
ghost use Rattle.std.specs.Prelude.{◌≡◌, ◌∷◌, [], ℕ, true, List, Option, length, map, IfOk, OnOk};
ghost use Rattle.std.specs.List.{AllByRecursion};
ghost use Rattle.cell_reader.specs.declared.shapes.Kind.{Kind};
ghost use Rattle.page_walk.specs.Cells.{row_of};
ghost use Rattle.page_walk.specs.InTurn.{IsSmallTurn, turn_of};
ghost use Rattle.schema_texts.specs.Readings.{AreReadings, is_table, tables_from};
ghost use Rattle.table_shape.specs.Seen.{shape_seen};
ghost use Rattle.tree_uses.specs.Trees.{tree_of, turns_of};
ghost use Rattle.salvaged_tables.specs.Bounds.{AreOnPages};
ghost use Rattle.salvaged_tables.specs.Fates.{root_of, table_with};
ghost use Rattle.salvaged_tables.specs.Salvaged.{AreValid, IsSalvage};
ghost use Rattle.salvaged_tables.specs.Steps.{AreFew, AreReady, GainsPart, GainsTable, GainsTables, Goes};

use crate::failures::add_failed;
use crate::places::{FailedEntry, LostCell, Placed, ScriptText};
use crate::tables::{PlacedRows, add_left, add_lost, placed_rows, text_of};
use crate::texts::{add_table_text, add_text};
use page_walk::{PageTurn, TakenCell};
use raw_schema::{SchemaKind, SchemaRow};
use record_core::Bytes;
use report_text::ReportLine;
use schema_texts::{Reading, TableReading};
use std::alloc::{AllocError, Global};
use std::vec::IntoIter;
use table_parts::{TableCells, TablePart, cells_of, lines_of, part_of};
use table_shape::{OutTable, TableShape};
use tree_uses::{TreeTurns, TreeUse};

/// What the table rows of a schema give.
#[derive(Debug, Drop)]
pub struct SalvagedTables {
    /// The tables that are built, in schema order.
    pub tables: Vec<OutTable>,
    /// Where the rows of each of them come from, row by row.
    pub places: Vec<Vec<Placed>>,
    /// The cells that no table has, table after table in schema order, in cell order.
    pub lost: Vec<LostCell>,
    /// The cells that are not read for their chain or their record, in the order of their turns.
    pub failed: Vec<FailedEntry>,
    /// The texts of what is not built, in schema order.
    pub script: Vec<ScriptText>,
    /// The lines of the tables in the report, in schema order.
    pub lines: Vec<ReportLine>,
}

// The readings and the turns of the table rows that are to come, and the number of their first tree.
#[derive(Drop)]
struct Left {
    readings: IntoIter<TableReading>,
    turns: IntoIter<TreeTurns>,
    number: usize,
}

/// What the rows of a schema give, in schema order. `readings` are those of its table rows, `trees` and
/// `turns` their trees and the cells on these pages. Names and texts are copied, cells and values are moved.
pub fn salvage_tables(
    alloc: Global,
    rows: &[SchemaRow],
    readings: Vec<TableReading>,
    trees: &[TreeUse],
    turns: Vec<TreeTurns>,
) -> Result<SalvagedTables, AllocError>
    requires numbers { map (λ (r : TableReading). r.row) readings.items ≡ tables_from 0 rows.now }
    requires trees { length trees.now ≡ length readings.items }
    requires turns { length turns.items ≡ length readings.items }
    requires few { AllByRecursion AreFew (map turns_of turns.items) }
    ensures salvage { IfOk result
        (IsSalvage rows.now readings.items (map tree_of trees.now) (map turns_of turns.items)) }
    ensures valid { (kinds : List (Option Kind)) (pages : ℕ)
        → AreReadings kinds pages rows.now readings.items → IfOk result (λ v. AreValid v.tables.items) }
    ensures bounds { (usable pages : ℕ)
        → AllByRecursion (AllByRecursion (IsSmallTurn usable pages)) (map turns_of turns.items)
        → IfOk result (AreOnPages pages) }
{
    let mut left = Left {
        readings: readings.into_iter(),
        turns: turns.into_iter(),
        number: 0,
    };
    let mut found = SalvagedTables {
        tables: Vec::new(alloc),
        places: Vec::new(alloc),
        lost: Vec::new(alloc),
        failed: Vec::new(alloc),
        script: Vec::new(alloc),
        lines: Vec::new(alloc),
    };
    for row in rows {
        add_row(alloc, row, trees, &mut left, &mut found)?;
    }
    Ok(found)
}

// Adds what a row gives.
fn add_row(
    alloc: Global,
    row: &SchemaRow,
    trees: &[TreeUse],
    left: &mut Left,
    found: &mut SalvagedTables,
) -> Result<(), AllocError>
    requires { AreReady trees.now left.old }
    ensures { OnOk result (Goes row.now trees.now left.old left.new found.old found.new) }
{
    if is_table(row.kind) {
        add_next(alloc, row, trees, left, found)
    } else {
        add_text(alloc, &row.sql, &mut found.script)
    }
}

fn is_table(kind: SchemaKind) -> bool
    ensures { result ≡ is_table kind }
{
    matches!(kind, SchemaKind::Table)
}

// Adds what a table row gives, whose reading, tree and turns are the next.
fn add_next(
    alloc: Global,
    row: &SchemaRow,
    trees: &[TreeUse],
    left: &mut Left,
    found: &mut SalvagedTables,
) -> Result<(), AllocError>
    requires { AreReady trees.now left.old }
    ensures { is_table row.now.kind ≡ true
        → OnOk result (Goes row.now trees.now left.old left.new found.old found.new) }
{
    let Some(reading) = left.readings.next() else {
        return Ok(());
    };
    let Some(turns) = left.turns.next() else {
        return Ok(());
    };
    let tree = &trees[left.number];
    left.number += 1;
    add_table(alloc, row, reading.reading, &tree.pages, turns.turns, found)
}

// Adds what a table row gives, of which these are the pages and the cells.
fn add_table(
    alloc: Global,
    row: &SchemaRow,
    reading: Reading,
    pages: &[u32],
    turns: Vec<PageTurn>,
    found: &mut SalvagedTables,
) -> Result<(), AllocError>
    requires { AreFew (map turn_of turns.items) }
    ensures { OnOk result
        (GainsTable row.now reading pages.now (map turn_of turns.items) found.old found.new) }
{
    let root = root_of(pages);
    add_failed(alloc, root, &turns, &mut found.failed)?;
    let TableCells { cells, notes } = cells_of(alloc, turns)?;
    let part = part_of(alloc, reading, cells)?;
    let mut lines = lines_of(alloc, &row.name, pages.len() as u64, &part, &notes)?;
    found.lines.append(&mut lines)?;
    add_part(alloc, row, root, part, found)
}

// The root page of a tree, which is its first.
fn root_of(pages: &[u32]) -> u32
    ensures { result ≡ root_of pages.now }
{
    pages.first().copied().unwrap_or(0)
}

// Adds what a table is built of, or its text, and the cells that are no rows.
fn add_part(
    alloc: Global,
    row: &SchemaRow,
    root: u32,
    part: TablePart,
    found: &mut SalvagedTables,
) -> Result<(), AllocError>
    ensures { OnOk result (GainsPart row.now root part found.old found.new) }
{
    match part {
        TablePart::Built { shape, rows, left } => {
            add_left(root, left, &mut found.lost)?;
            add_built(
                alloc,
                row,
                shape,
                rows,
                &mut found.tables,
                &mut found.places,
            )
        }
        TablePart::Unread { cells, .. } => {
            add_table_text(alloc, &row.name, &row.sql, &mut found.script)?;
            add_lost(root, cells, &mut found.lost)
        }
    }
}

// Adds a table that is built.
fn add_built(
    alloc: Global,
    row: &SchemaRow,
    shape: TableShape,
    cells: Vec<TakenCell>,
    tables: &mut Vec<OutTable>,
    places: &mut Vec<Vec<Placed>>,
) -> Result<(), AllocError>
    ensures { OnOk result (GainsTables
        (table_with row.now (shape_seen shape) (map row_of cells.items) ∷ [])
        tables.old.items places.old.items tables.new.items places.new.items) }
{
    let PlacedRows {
        rows,
        places: found,
    } = placed_rows(alloc, shape.without_rowid, cells)?;
    tables.push(OutTable {
        name: Bytes::copy_of(alloc, row.name.as_slice())?,
        text: text_of(alloc, &row.sql)?,
        shape,
        rows,
    })?;
    places.push(found)?;
    Ok(())
}
