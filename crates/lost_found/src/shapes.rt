//! The shape of the table.
ghost use Rattle.std.specs.Prelude.{◌≡◌, ◌≤◌, ◌++◌, ◌∷◌, [], map, IfOk, OnOk};
ghost use Rattle.table_shape.specs.Seen.{shape_seen};
ghost use Rattle.lost_found.specs.Texts.{field_names, first_names, lost_shape, plain_column};

use crate::names::field_name;
use key_order::Coll;
use record_core::Bytes;
use std::alloc::{AllocError, Global};
use table_shape::{Column, TableShape};

/// The shape of the table with this name and the columns of so many fields.
pub(crate) fn lost_shape(
    alloc: Global,
    name: &[u8],
    fields: usize,
) -> Result<TableShape, AllocError>
    requires { fields ≤ 1996 }
    ensures { IfOk result (λ s. shape_seen s ≡ lost_shape name.now fields) }
{
    let name = Bytes::copy_of(alloc, name)?;
    let columns = columns_of(alloc, fields)?;
    Ok(TableShape {
        name,
        columns,
        alias: None,
        without_rowid: false,
        primary: Vec::new(alloc),
        keys: Vec::new(alloc),
        autoincrement: false,
    })
}

// Its columns.
fn columns_of(alloc: Global, fields: usize) -> Result<Vec<Column>, AllocError>
    ensures { IfOk result (λ v. v.items ≡ map plain_column (first_names ++ field_names fields)) }
{
    let mut columns = first_columns(alloc)?;
    for field in 0..fields {
        add_column(alloc, field_name(alloc, field)?.as_slice(), &mut columns)?;
    }
    Ok(columns)
}

// Those that tell where a cell comes from.
fn first_columns(alloc: Global) -> Result<Vec<Column>, AllocError>
    ensures { IfOk result (λ v. v.items ≡ map plain_column first_names) }
{
    let mut columns = Vec::new(alloc);
    add_column(alloc, b"rootpgno", &mut columns)?;
    add_column(alloc, b"pgno", &mut columns)?;
    add_column(alloc, b"nfield", &mut columns)?;
    add_column(alloc, b"id", &mut columns)?;
    Ok(columns)
}

// Appends a column of no key.
fn add_column(alloc: Global, name: &[u8], to: &mut Vec<Column>) -> Result<(), AllocError>
    ensures { OnOk result (to.new.items ≡ to.old.items ++ plain_column name.now ∷ []) }
{
    to.push(Column {
        name: Bytes::copy_of(alloc, name)?,
        coll: Some(Coll::Binary),
        real: false,
    })?;
    Ok(())
}
