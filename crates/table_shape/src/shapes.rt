//! The shape of a table.

ghost use Rattle.std.specs.Prelude.{map};
ghost use Rattle.std.proofs.Props.{props};
ghost use Rattle.table_shape.specs.Shape.{IsShape, key_seen};

use crate::columns::{Column, Key};
use record_core::Bytes;

/// What the text of a table says of it. Columns are counted from 0. `primary` is the primary key of
/// a table WITHOUT ROWID, and else empty; `keys` are the constraints with an automatic index that
/// has a row in the schema.
#[derive(Debug, Drop)]
pub struct TableShape {
    pub name: Bytes,
    pub columns: Vec<Column>,
    /// The column that stands for the rowid.
    pub alias: Option<u32>,
    pub without_rowid: bool,
    pub primary: Vec<u32>,
    pub keys: Vec<Key>,
    pub autoincrement: bool,
    pub ghost valid: { IsShape (record {
      name = name;
      columns = columns.items;
      alias = alias;
      without_rowid = without_rowid;
      primary = primary.items;
      keys = map key_seen keys.items;
      autoincrement = autoincrement;
    }) } by { Prim.hlevel props },
}
