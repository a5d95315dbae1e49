//! The rows of the schema as entries of its tree.

ghost use Rattle.std.specs.Prelude.{◌≡◌, ◌<◌, ◌^◌, length};

use crate::plans::PlannedTree;
use tree_writer::Entries;

/// The records of all trees, with the rowids 1, 2, 3 and so on.
#[derive(Clone, Copy)]
pub struct SchemaEntries<'a> {
    pub trees: &'a [PlannedTree],
    ghost few: { length trees.now < 2 ^ 32 },
}

impl<'a> SchemaEntries<'a> {
    ghost use Rattle.db_builder.specs.Prepared.{record_in};

    fn record(&self, i: u32) -> &'a [u8]
        requires { i < length self.now.trees.now }
        ensures { result.now ≡ record_in self.now.trees.now i }
    {
        self.trees[i as usize].record.as_slice()
    }
}

impl Entries for SchemaEntries<'_> {
    ghost use Rattle.db_builder.specs.Prepared.{schema_seen};

    ghost entries = { λ s. schema_seen s.trees.now };

    fn count(&self) -> u32 {
        self.trees.len() as u32
    }

    fn rowid(&self, i: u32) -> Option<i64> {
        Some(i64::from(i + 1))
    }

    fn payload_len(&self, i: u32) -> u64 {
        self.record(i).len() as u64
    }

    fn payload(&self, i: u32, to: &mut [u8]) {
        to.copy_from_slice(self.record(i));
    }
}
