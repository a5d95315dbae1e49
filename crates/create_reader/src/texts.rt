//! What a text says, before its keys are numbered.

ghost use Rattle.std.specs.Prelude.{◌≡◌, slice_get};
ghost use Rattle.create_reader.specs.Views.{name_at};

use key_order::Coll;
use record_core::Bytes;
use std::slice;

/// A column: its name, its collation (none where it is not known), whether it has REAL affinity,
/// and whether its type is the one word INTEGER.
#[derive(Debug, Drop)]
pub struct ColumnText {
    pub name: Bytes,
    pub coll: Option<Coll>,
    pub real: bool,
    pub integer: bool,
}

/// The columns of a key.
#[derive(Debug, Drop)]
pub enum KeyNames {
    /// The one column in which the constraint stands, counted from 0.
    OfColumn(usize),
    /// The names of a list.
    Listed(Vec<Bytes>),
}

/// A PRIMARY KEY or UNIQUE.
#[derive(Debug, Drop)]
pub struct ConstraintText {
    pub primary: bool,
    /// The column in which it stands, if it is no constraint of the table.
    pub own: Option<usize>,
    pub names: KeyNames,
    /// Whether it has DESC or COLLATE.
    pub marked: bool,
    /// Whether it has AUTOINCREMENT.
    pub auto: bool,
}

impl ConstraintText {
    ghost use Rattle.create_reader.specs.Views.{names_seen};

    /// The names of its columns, where these are the columns of the table.
    pub fn names<'a>(&'a self, columns: &'a [ColumnText]) -> &'a [Bytes]
        ensures { result.now ≡ names_seen columns.now self.now.names }
    {
        match &self.names {
            KeyNames::OfColumn(number) => name_at(columns, *number),
            KeyNames::Listed(names) => names.as_slice(),
        }
    }
}

// The name of a column, if there is one with the number.
fn name_at(columns: &[ColumnText], number: usize) -> &[Bytes]
    ensures { result.now ≡ name_at (slice_get columns.now number) }
{
    match columns.get(number) {
        Some(column) => slice::from_ref(&column.name),
        None => &[],
    }
}

/// What a text says.
#[derive(Debug, Drop)]
pub struct TableText {
    pub name: Bytes,
    pub columns: Vec<ColumnText>,
    pub constraints: Vec<ConstraintText>,
    pub without_rowid: bool,
    pub generated: bool,
}
