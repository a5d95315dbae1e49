//! The trees that the rows of a schema name.
ghost use Rattle.std.specs.Prelude.{◌≡◌, ◌<◌, ◌^◌, length, map, IfOk};
ghost use Rattle.schema_texts.specs.Readings.{kind_of};
ghost use Rattle.table_shape.specs.Seen.{shape_seen};
ghost use Rattle.use_order.specs.Order.{index_trees, is_index, kind_read, table_tree};

use cell_reader::Kind;
use raw_schema::{SchemaKind, SchemaRow};
use schema_texts::{Reading, TableReading, kind_of};
use std::alloc::{AllocError, Global};
use tree_uses::WantedTree;

/// The trees of the table rows.
pub(crate) fn table_trees(
    alloc: Global,
    readings: &[TableReading],
) -> Result<Vec<WantedTree>, AllocError>
    ensures { IfOk result (λ v. v.items ≡ map table_tree readings.now) }
{
    let mut trees = Vec::with_capacity(alloc, readings.len())?;
    for reading in readings {
        trees.push(table_tree(reading))?;
    }
    Ok(trees)
}

fn table_tree(reading: &TableReading) -> WantedTree
    ensures { result ≡ table_tree reading.now }
{
    WantedTree {
        row: reading.row,
        root: reading.root,
        kind: kind_read(&reading.reading),
    }
}

fn kind_read(reading: &Reading) -> Option<Kind>
    ensures { result ≡ kind_read reading.now }
{
    match reading {
        Reading::Shape(shape) => Some(kind_of(shape)),
        Reading::Unread { kind, .. } => *kind,
    }
}

/// The trees of the index rows.
pub(crate) fn index_trees(alloc: Global, rows: &[SchemaRow]) -> Result<Vec<WantedTree>, AllocError>
    requires { length rows.now < 2 ^ 32 }
    ensures { IfOk result (λ v. v.items ≡ index_trees 0 rows.now) }
{
    let mut trees = Vec::new(alloc);
    for number in 0..rows.len() as u32 {
        let row = &rows[number as usize];
        if is_index(row.kind) {
            trees.push(WantedTree {
                row: number,
                root: row.root,
                kind: Some(Kind::Index),
            })?;
        }
    }
    Ok(trees)
}

fn is_index(kind: SchemaKind) -> bool
    ensures { result ≡ is_index kind }
{
    matches!(kind, SchemaKind::Index)
}
