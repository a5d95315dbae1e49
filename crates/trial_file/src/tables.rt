//! The table, and the database.
ghost use Rattle.std.specs.Prelude.{◌≡◌, ◌≤◌, ◌∷◌, [], IfOk};
ghost use Rattle.table_shape.specs.Seen.{shape_seen};
ghost use Rattle.db_builder.specs.Valid.{IsValid};
ghost use Rattle.trial_file.specs.Trial.{IsTrial, IsTrialTable, most_rows, table_shape, table_text};

use crate::laws::{the_database_of_a_trial_can_be_written, the_text_of_a_trial_has_no_fault};
use crate::rows::rows_of;
use create_reader::read_create;
use db_builder::OutDb;
use record_core::Bytes;
use std::alloc::{AllocError, Global};
use table_shape::{OutTable, TableShape};

/// The database of a trial with so many rows, at most 100000. It can be written.
pub fn make_db(alloc: Global, rows: u32) -> Result<OutDb, AllocError>
    requires { rows ≤ most_rows }
    ensures trial { IfOk result (IsTrial rows) }
    ensures valid { IfOk result IsValid }
{
    the_database_of_a_trial_can_be_written();
    let mut tables = Vec::new(alloc);
    tables.push(table_of(alloc, rows)?)?;
    Ok(OutDb {
        tables,
        user_version: 0,
        application_id: 0,
    })
}

// Its table.
fn table_of(alloc: Global, rows: u32) -> Result<OutTable, AllocError>
    requires { rows ≤ most_rows }
    ensures { IfOk result (IsTrialTable rows) }
{
    let text = text_of(alloc)?;
    let shape = shape_of(alloc, text.as_slice())?;
    Ok(OutTable {
        name: Bytes::copy_of(alloc, b"t")?,
        text,
        shape,
        rows: rows_of(alloc, rows)?,
    })
}

// The text of the table.
fn text_of(alloc: Global) -> Result<Bytes, AllocError>
    ensures { IfOk result (λ b. b ≡ table_text) }
{
    Bytes::copy_of(
        alloc,
        b"CREATE TABLE t(id INTEGER PRIMARY KEY, name TEXT UNIQUE, body BLOB)",
    )
}

// Its shape. The text has no fault, so that only memory is wanting where there is no answer.
fn shape_of(alloc: Global, text: &[u8]) -> Result<TableShape, AllocError>
    requires { text.now ≡ table_text }
    ensures { IfOk result (λ s. shape_seen s ≡ table_shape) }
{
    the_text_of_a_trial_has_no_fault();
    match read_create(alloc, text) {
        Ok(shape) => Ok(shape),
        Err(_) => Err(AllocError),
    }
}
