//! The lengths of cells, and how many overflow pages they have.

ghost use Rattle.std.specs.Prelude.{◌≡◌, ◌≤◌, ◌<◌, ◌^◌, ◌+◌, ◌-◌, ◌/◌, length};
ghost use Rattle.tree_writer.specs.Cells.{cell_len, numbers_of_lens, over_count, payload_len, slot_len};
ghost use Rattle.tree_writer.specs.Entry.{entry_at, raw_of};
ghost use Rattle.tree_writer.specs.Plan.{part_of, size_for};

use crate::entries::Entries;
use cell_reader::{Kind, local_size};
use varint_core::varint_len;

/// What a cell takes: bytes of its page, with its pointer, and overflow pages.
#[derive(Clone, Copy, Debug)]
pub struct Size {
    pub need: u32,
    pub overs: u32,
}

// The 64 bits of a rowid or key, as a cell spells them.
pub(crate) fn raw_of(rowid: Option<i64>) -> u64
    ensures { result ≡ raw_of rowid }
{
    match rowid {
        None => 0,
        Some(rowid) => rowid.cast_unsigned(),
    }
}

// The overflow pages of a payload with this many local bytes.
pub(crate) fn overs_of(usable: u32, kept: u64, total: u64) -> u64
    requires least { 480 ≤ usable }
    requires most { usable ≤ 65536 }
    requires within { kept ≤ total }
    requires small { total < 2 ^ 36 }
    ensures value { result ≡ (total - kept + (usable - 5)) / (usable - 4) }
    ensures few { result ≤ total }
{
    (total - kept + u64::from(usable - 5)) / u64::from(usable - 4)
}

// The bytes of a cell that begins with these numbers and has a payload.
fn with_payload(kept: u64, total: u64) -> u64
    requires within { kept ≤ total }
    requires small { kept < 65536 }
    ensures value { result ≡ payload_len kept total }
    ensures most { result ≤ kept + 4 }
{
    if kept == total { kept } else { kept + 4 }
}

// The bytes of the varints of a cell with a payload of `total` bytes.
fn numbers_size(kind: Kind, leaf: bool, total: u64, rowid: Option<i64>) -> u64
    ensures value { result ≡ numbers_of_lens kind leaf total rowid }
    ensures most { result ≤ 18 }
{
    match kind {
        Kind::Index => varint_len(total) as u64,
        Kind::Table if leaf => varint_len(total) as u64 + varint_len(raw_of(rowid)) as u64,
        Kind::Table => varint_len(raw_of(rowid)) as u64,
    }
}

// Bytes of a cell's payload, of which an interior table page's cell has none.
pub(crate) fn payload_size<N: Entries>(kind: Kind, leaf: bool, entries: &N, i: u32) -> u64
    requires { i < length (N.entries entries.now) }
    ensures { result ≡ length (part_of kind leaf (entry_at (N.entries entries.now) i)).bytes }
{
    match kind {
        Kind::Index => entries.payload_len(i),
        Kind::Table if leaf => entries.payload_len(i),
        Kind::Table => 0,
    }
}

/// What the cell of entry `i` takes on a page of this kind.
#[tactic(auto, unfolding(crate::specs::Cells::cell_len, crate::specs::Cells::over_count))]
pub(crate) fn size_of<N: Entries>(usable: u32, kind: Kind, leaf: bool, entries: &N, i: u32) -> Size
    requires least { 480 ≤ usable }
    requires most { usable ≤ 65536 }
    requires there { i < length (N.entries entries.now) }
    requires small { length (entry_at (N.entries entries.now) i).bytes < 2 ^ 36 }
    ensures { result ≡ size_for usable kind leaf (part_of kind leaf (entry_at (N.entries entries.now) i)) }
{
    let total = payload_size(kind, leaf, entries, i);
    let kept = local_size(kind, usable, total);
    let child = if leaf { 0 } else { 4 };
    let numbers = numbers_size(kind, leaf, total, entries.rowid(i));
    let len = child + numbers + with_payload(kept, total);
    Size {
        need: 2 + len.max(4) as u32,
        overs: overs_of(usable, kept, total) as u32,
    }
}
