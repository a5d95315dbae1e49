//! The entries of an automatic index as a view over the rows of its table.

ghost use Rattle.std.specs.Prelude.{◌≡◌, ◌<◌, ◌^◌, length, map, slice_index_or};
ghost use Rattle.std.proofs.Props.{props};
ghost use Rattle.table_shape.specs.Keys.{number_of, values_of};
ghost use Rattle.table_shape.specs.Seen.{row_seen};
ghost use Rattle.db_builder.specs.Views.{HaveIndexRecords, NamesRows, index_entries, row_at, spot_value};

use record_core::{Fields, Value, record_len, write_record};
use table_shape::{KeyPart, OutRow, Spot};
use tree_writer::Entries;

/// The values of an index record, where they lie in the row.
#[derive(Drop)]
pub struct IndexFields<'a> {
    pub row: &'a OutRow,
    pub parts: &'a [KeyPart],
    pub rowid: Value,
    /// What stands for a field that the row has not.
    pub null: Value,
}

/// The index record of a row. Takes no memory.
pub fn index_fields<'a>(row: &'a OutRow, parts: &'a [KeyPart]) -> IndexFields<'a>
    ensures row { result.row.now ≡ row.now }
    ensures parts { result.parts.now ≡ parts.now }
    ensures rowid { result.rowid ≡ number_of row.now.rowid }
    ensures null { result.null ≡ Value.Null }
{
    IndexFields {
        row,
        parts,
        rowid: number_of(row.rowid),
        null: Value::Null,
    }
}

/// A rowid as a value.
pub fn number_of(rowid: Option<i64>) -> Value
    ensures { result ≡ number_of rowid }
{
    match rowid {
        Some(number) => Value::Whole(number),
        None => Value::Null,
    }
}

impl Fields for IndexFields<'_> {
    ghost values = { λ s. map (λ p. spot_value s.rowid s.null s.row.now.fields.items p.spot) s.parts.now };

    fn count(&self) -> usize {
        self.parts.len()
    }

    fn field(&self, i: usize) -> &Value {
        match self.parts[i].spot {
            Spot::Rowid => &self.rowid,
            Spot::Field(k) => match self.row.fields.get(k) {
                Some(value) => value,
                None => &self.null,
            },
        }
    }
}

/// The entries of an index: rows by their numbers in the order of the key, and the parts of a record.
#[derive(Clone, Copy)]
pub struct IndexEntries<'a> {
    pub rows: &'a [OutRow],
    pub parts: &'a [KeyPart],
    pub order: &'a [u32],
    ghost few: { length order.now < 2 ^ 32 },
    ghost there: { NamesRows order.now (length rows.now) },
    ghost writable: { HaveIndexRecords parts.now rows.now } by { Prim.hlevel props },
}

impl<'a> IndexEntries<'a> {
    fn fields(&self, i: u32) -> IndexFields<'a>
        requires { i < length self.now.order.now }
        ensures { map (λ p. spot_value result.rowid result.null result.row.now.fields.items p.spot)
            result.parts.now ≡ values_of self.now.parts.now
            (row_at self.now.rows.now (slice_index_or self.now.order.now i 0)) }
    {
        index_fields(&self.rows[self.order[i as usize] as usize], self.parts)
    }
}

impl Entries for IndexEntries<'_> {
    ghost entries = { λ s. index_entries s.parts.now s.rows.now s.order.now };

    fn count(&self) -> u32 {
        self.order.len() as u32
    }

    fn rowid(&self, _i: u32) -> Option<i64> {
        None
    }

    fn payload_len(&self, i: u32) -> u64 {
        record_len(&self.fields(i)) as u64
    }

    fn payload(&self, i: u32, to: &mut [u8]) {
        let _len = write_record(&self.fields(i), to);
    }
}
