//! Entries of a tree, wherever they lie.

ghost use Rattle.std.specs.Prelude.{◌≡◌, ◌<◌, List, length};
ghost use Rattle.tree_writer.specs.Entry.{Entry, entry_at};

/// The entries of a tree in order, each a rowid or none and a payload. No call takes memory.
pub trait Entries {
    // The entries, in order.
    ghost entries: { Self → List Entry };

    /// How many entries there are.
    fn count(&self) -> u32
        ensures { result ≡ length (entries self.now) };

    /// The rowid of entry `i`, counted from 0: there is one in the tree of a table with rowids.
    fn rowid(&self, i: u32) -> Option<i64>
        requires { i < length (entries self.now) }
        ensures { result ≡ (entry_at (entries self.now) i).rowid };

    /// The length of the payload of entry `i`, in bytes.
    fn payload_len(&self, i: u32) -> u64
        requires { i < length (entries self.now) }
        ensures { result ≡ length (entry_at (entries self.now) i).bytes };

    /// Fills `to` with the payload of entry `i`.
    fn payload(&self, i: u32, to: &mut [u8])
        requires there { i < length (entries self.now) }
        requires room { length to.old ≡ length (entry_at (entries self.now) i).bytes }
        ensures { to.new ≡ (entry_at (entries self.now) i).bytes };
}
