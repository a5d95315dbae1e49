//! The table.
ghost use Rattle.std.specs.Prelude.{◌≡◌, ◌<◌, false, length, map, IfOk};
ghost use Rattle.std.specs.List.{AllByRecursion};
ghost use Rattle.db_builder.specs.Valid.{IsTable};
ghost use Rattle.salvaged_tables.specs.Salvaged.{lost_seen, stored_table};
ghost use Rattle.table_shape.specs.Names.{is_named};
ghost use Rattle.lost_found.specs.Few.{HasFewFields};
ghost use Rattle.lost_found.specs.Lost.{lost_of};
ghost use Rattle.lost_found.specs.Names.{CanBeBase};

use crate::names::lost_name;
use crate::rows::{lost_rows, most_fields};
use crate::shapes::lost_shape;
use crate::texts::lost_text;
use record_core::Bytes;
use salvaged_tables::{LostCell, Placed};
use std::alloc::{AllocError, Global};
use table_shape::OutTable;

/// The table of lost cells, and where its rows come from, row by row.
#[derive(Debug, Drop)]
pub struct LostTable {
    pub table: OutTable,
    pub places: Vec<Placed>,
}

/// The table of these cells: a row for each of them, in their order. Its name is the base, or the
/// base and the first of 0, 1, 2, .. with which none of the names is the same, the case of ASCII
/// letters ignored.
pub fn lost_table(
    alloc: Global,
    base: &Bytes,
    names: &[Bytes],
    cells: Vec<LostCell>,
) -> Result<LostTable, AllocError>
    requires base { CanBeBase base.now }
    requires some { 0 < length cells.items }
    requires few { AllByRecursion HasFewFields cells.items }
    ensures table { IfOk result (λ v. stored_table v.table v.places
        ≡ lost_of base.now names.now (map lost_seen cells.items)) }
    ensures places { IfOk result (λ v. length v.table.rows.items ≡ length v.places.items) }
    ensures valid { IfOk result (λ v. IsTable v.table) }
    ensures name { IfOk result (λ v. is_named v.table.name names.now ≡ false) }
{
    let fields = most_fields(&cells);
    let name = lost_name(alloc, base.as_slice(), names)?;
    let text = Bytes::of(lost_text(alloc, name.as_slice(), fields)?);
    let shape = lost_shape(alloc, name.as_slice(), fields)?;
    let found = lost_rows(alloc, cells)?;
    Ok(LostTable {
        table: OutTable {
            name,
            text,
            shape,
            rows: found.rows,
        },
        places: found.places,
    })
}
