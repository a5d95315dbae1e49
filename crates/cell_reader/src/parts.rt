//! A cell seen from its first byte: its numbers, its local payload and its length.
ghost use Rattle.std.specs.Prelude.{◌≡◌, ◌≤◌, ◌<◌, ◌+◌, IfSome, IfOk, is_some, length};
ghost use Rattle.std.specs.Bool.{MatchBool};
ghost use Rattle.cell_reader.specs.Cell.{cell_parts, least_local, local_len, most_local, numbers_behind, numbers_of, with_payload};
ghost use Rattle.cell_reader.specs.Inside.{IsParts, has_payload};

use crate::cells::CellFault;
use crate::shapes::Kind;
use byteorder::{BigEndian, ByteOrder};
use varint_core::read_varint;

/// The numbers that begin a cell.
#[derive(Clone, Copy, Debug)]
pub struct Numbers {
    /// The child's page number, on interior pages.
    pub child: Option<u32>,
    /// The 64 bits of the rowid or key, on table pages.
    pub rowid: Option<u64>,
    /// Bytes of the payload, where the cell has one.
    pub total: Option<u64>,
    /// Bytes that these numbers take.
    pub len: usize,
}

/// A cell whose places count from its first byte.
#[derive(Clone, Copy, Debug)]
pub struct Parts {
    /// The child's page number, on interior pages.
    pub child: Option<u32>,
    /// The 64 bits of the rowid or key, on table pages.
    pub rowid: Option<u64>,
    /// Bytes of the payload, 0 where the cell has none.
    pub total: u64,
    /// Where the local payload begins.
    pub from: usize,
    /// Bytes of the local payload.
    pub kept: usize,
    /// Bytes of the cell.
    pub size: usize,
    /// The first overflow page, where not all of the payload is local.
    pub overflow: Option<u32>,
}

// Most local bytes of a payload without overflow pages.
fn most_local_len(kind: Kind, usable: u32) -> u32
    requires least { 480 ≤ usable }
    requires most { usable ≤ 65536 }
    ensures value { result ≡ most_local kind usable }
    ensures more { least_local usable ≤ result }
    ensures fits { result + 35 ≤ usable }
{
    match kind {
        Kind::Table => usable - 35,
        Kind::Index => (usable - 12) * 64 / 255 - 23,
    }
}

/// How many of a payload's `total` bytes stand on a page of this kind with `usable` bytes, 480 to 65536;
/// the others stand on overflow pages (fileformat2.html, 1.6).
#[tactic(auto, unfolding(crate::specs::Cell::local_len))]
pub fn local_size(kind: Kind, usable: u32, total: u64) -> u64
    requires least { 480 ≤ usable }
    requires most { usable ≤ 65536 }
    ensures value { result ≡ local_len kind usable total }
    ensures within { result ≤ total }
    ensures some { 1 ≤ total → 1 ≤ result }
    ensures fits { result < usable }
{
    let most = u64::from(most_local_len(kind, usable));
    if total <= most {
        return total;
    }
    let least = u64::from((usable - 12) * 32 / 255 - 23);
    let wanted = least + (total - least) % u64::from(usable - 4);
    if wanted <= most { wanted } else { least }
}

// The varints of a cell from `at` on, behind its child number.
#[tactic(auto, unfolding(crate::specs::Cell::numbers_behind))]
fn read_behind(
    kind: Kind,
    leaf: bool,
    child: Option<u32>,
    bytes: &[u8],
    at: usize,
) -> Option<Numbers>
    requires { at ≤ length bytes.now }
    ensures exact { result ≡ numbers_behind kind leaf child at bytes.now }
    ensures there { IfSome result (λ n. (at < n.len) × (n.len ≤ at + 18) × (n.len ≤ length bytes.now)) }
    ensures payload { IfSome result (λ n. is_some n.total ≡ has_payload kind leaf) }
{
    let (first, a) = read_varint(bytes, at)?;
    let behind = at + a;
    match (kind, leaf) {
        (Kind::Table, true) => {
            let (rowid, b) = read_varint(bytes, behind)?;
            Some(Numbers {
                child,
                rowid: Some(rowid),
                total: Some(first),
                len: behind + b,
            })
        }
        (Kind::Table, false) => Some(Numbers {
            child,
            rowid: Some(first),
            total: None,
            len: behind,
        }),
        (Kind::Index, _) => Some(Numbers {
            child,
            rowid: None,
            total: Some(first),
            len: behind,
        }),
    }
}

// The numbers that begin a cell.
#[tactic(auto, unfolding(crate::specs::Cell::numbers_of))]
fn read_numbers(kind: Kind, leaf: bool, bytes: &[u8]) -> Option<Numbers>
    ensures exact { result ≡ numbers_of kind leaf bytes.now }
    ensures there { IfSome result (λ n. (0 < n.len) × (n.len ≤ 22) × (n.len ≤ length bytes.now)) }
    ensures payload { IfSome result (λ n. is_some n.total ≡ has_payload kind leaf) }
{
    if leaf {
        return read_behind(kind, leaf, None, bytes, 0);
    }
    if bytes.len() < 4 {
        return None;
    }
    read_behind(kind, leaf, Some(BigEndian::read_u32(bytes)), bytes, 4)
}

// The cell behind whose numbers a payload of `total` bytes stands.
#[tactic(auto, unfolding(crate::specs::Cell::with_payload))]
fn payload_parts(
    usable: u32,
    kind: Kind,
    bytes: &[u8],
    numbers: Numbers,
    total: u64,
) -> Result<Parts, CellFault>
    requires least { 480 ≤ usable }
    requires most { usable ≤ 65536 }
    requires some { 0 < numbers.len }
    requires few { numbers.len ≤ 22 }
    requires there { 1 ≤ total }
    ensures exact { result ≡ with_payload usable kind bytes.now numbers total }
    ensures parts { IfOk result (λ p. IsParts (length bytes.now) p) }
    ensures total_is { IfOk result (λ p. p.total ≡ total) }
{
    let local = local_size(kind, usable, total);
    let kept = local as usize;
    let whole = local == total;
    let size = numbers.len + kept + if whole { 0 } else { 4 };
    if bytes.len() < size {
        return Err(CellFault::Cut);
    }
    let overflow = if whole {
        None
    } else {
        Some(BigEndian::read_u32(&bytes[numbers.len + kept..]))
    };
    Ok(Parts {
        child: numbers.child,
        rowid: numbers.rowid,
        total,
        from: numbers.len,
        kept,
        size,
        overflow,
    })
}

/// The cell that begins the bytes, which reach from its start to the end of the usable bytes of its
/// page; `limit` is the most that a payload can have.
#[tactic(auto, unfolding(crate::specs::Cell::cell_parts))]
pub fn parts_of(
    usable: u32,
    limit: u64,
    kind: Kind,
    leaf: bool,
    bytes: &[u8],
) -> Result<Parts, CellFault>
    requires least { 480 ≤ usable }
    requires most { usable ≤ 65536 }
    ensures exact { result ≡ cell_parts usable limit kind leaf bytes.now }
    ensures parts { IfOk result (λ p. IsParts (length bytes.now) p) }
    ensures most { IfOk result (λ p. p.total ≤ limit) }
    ensures payload { IfOk result (λ p. MatchBool (has_payload kind leaf) (1 ≤ p.total) (p.total ≡ 0)) }
{
    let Some(numbers) = read_numbers(kind, leaf, bytes) else {
        return Err(CellFault::Cut);
    };
    let Some(total) = numbers.total else {
        return Ok(Parts {
            child: numbers.child,
            rowid: numbers.rowid,
            total: 0,
            from: numbers.len,
            kept: 0,
            size: numbers.len,
            overflow: None,
        });
    };
    if total == 0 || limit < total {
        return Err(CellFault::Length);
    }
    payload_parts(usable, kind, bytes, numbers, total)
}
