//! A value that is most of its record.

ghost use Rattle.std.specs.Prelude.{◌≡◌, ◌≤◌, ℕ, List, length, true, IfSome, IsSomeAnd, Some};
ghost use Rattle.record_core.specs.Record.{bodies_len, types_in, values_of};
ghost use Rattle.record_core.specs.Apart.{IsLongIn};

use crate::spans::body_len;
use varint_core::read_varint;

// A text or a blob: its number, counted from 0, its serial type, and where its body stands among the bodies.
#[derive(Clone, Copy)]
pub struct LongValue {
    pub field: usize,
    pub kind: u64,
    pub from: usize,
    pub end: usize,
}

// The text or blob that is longer than half of the bytes behind the header.
pub fn long_value(types: &[u8], bodies: &[u8]) -> Option<LongValue>
    requires { IsSomeAnd (types_in types.now) (λ ts. bodies_len ts ≤ length bodies.now) }
    ensures { IfSome result (λ l. (ts : List ℕ) → types_in types.now ≡ Some ts
        → IsLongIn (values_of ts bodies.now) bodies.now l) }
{
    let mut field = 0;
    let mut at = 0;
    let mut from = 0;
    'types: while at < types.len() {
        let (kind, len) = read_varint(types, at).unwrap();
        let end = from + body_len(kind) as usize;
        if is_long(kind, end - from, bodies.len()) {
            return Some(LongValue {
                field,
                kind,
                from,
                end,
            });
        }
        field += 1;
        at += len;
        from = end;
    }
    None
}

// Whether a body is that of a text or a blob, and longer than half of all.
fn is_long(kind: u64, len: usize, all: usize) -> bool
    ensures { result ≡ true → 12 ≤ kind }
{
    kind >= 12 && len > all / 2
}
