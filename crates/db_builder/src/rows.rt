//! The rows of a table as entries of its tree.

ghost use Rattle.std.specs.Prelude.{◌≡◌, ◌<◌, ◌^◌, length};
ghost use Rattle.std.proofs.Props.{props};
ghost use Rattle.record_core.specs.Shortest.{IsWritable, record_bytes};
ghost use Rattle.db_builder.specs.Views.{AreWritable, row_at, row_entries};

use record_core::{FieldSlice, record_len, write_record};
use table_shape::OutRow;
use tree_writer::Entries;

/// The rows of a table, each an entry with its rowid and its record.
#[derive(Clone, Copy)]
pub struct RowEntries<'a> {
    pub rows: &'a [OutRow],
    ghost few: { length rows.now < 2 ^ 32 },
    ghost writable: { AreWritable rows.now } by { Prim.hlevel props },
}

impl<'a> RowEntries<'a> {
    fn fields(&self, i: u32) -> FieldSlice<'a>
        requires { i < length self.now.rows.now }
        ensures { result.values.now ≡ (row_at self.now.rows.now i).fields }
    {
        FieldSlice {
            values: self.rows[i as usize].fields.as_slice(),
        }
    }
}

impl Entries for RowEntries<'_> {
    ghost entries = { λ s. row_entries s.rows.now };

    fn count(&self) -> u32 {
        self.rows.len() as u32
    }

    fn rowid(&self, i: u32) -> Option<i64> {
        self.rows[i as usize].rowid
    }

    fn payload_len(&self, i: u32) -> u64 {
        record_len(&self.fields(i)) as u64
    }

    fn payload(&self, i: u32, to: &mut [u8]) {
        let _len = write_record(&self.fields(i), to);
    }
}
