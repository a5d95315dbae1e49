//! Varints: whole numbers below 2^64 in one to nine bytes (docs/FORMAT.md, "Varints").
#![tactic(auto)]

mod writing;

ghost use Rattle.std.specs.Prelude.{◌≡◌, ◌≤◌, ◌+◌, ◌↔◌, ℕ, List, [], ◌++◌, length, take, drop, IfSome, IsNone};
ghost use Rattle.varint_core.specs.Varint.{IsVarint, EndsInside, IsReadWhole, varint_at};

pub use writing::{a_spelling_is_read_back, varint_len, write_varint};

/// The varint at a place in the bytes: its value, and its length of 1 to 9 bytes
/// (fileformat2.html, 1.6). `None` where the bytes end inside it.
pub fn read_varint(bytes: &[u8], at: usize) -> Option<(u64, usize)>
    requires { at ≤ length bytes.now }
    // What is answered is spelled by the bytes.
    ensures found { IfSome result (λ v. IsVarint (take v.1 (drop at bytes.now)) v.0) }
    // What the bytes spell is answered, whatever follows it.
    ensures only { IsReadWhole (drop at bytes.now) result }
    ensures exact { result ≡ varint_at (drop at bytes.now) }
    ensures none { IsNone result ↔ EndsInside (drop at bytes.now) }
    ensures there { IfSome result (λ v. (1 ≤ v.1) × (v.1 ≤ 9) × (at + v.1 ≤ length bytes.now)) }
{
    varint_of(&bytes[at..])
}

/// No spelling of a number begins another: where a varint ends is said by its own bytes.
pub fn no_spelling_begins_another()
    ensures { (s rest : List ℕ) (v w : ℕ) → IsVarint s v → IsVarint (s ++ rest) w → rest ≡ [] }
{}

// The varint that begins the bytes. Most have one byte.
#[tactic(auto, unfolding(crate::specs::Varint::varint_at))]
fn varint_of(bytes: &[u8]) -> Option<(u64, usize)>
    ensures exact { result ≡ varint_at bytes.now }
    ensures there { IfSome result (λ v. (1 ≤ v.1) × (v.1 ≤ 9) × (v.1 ≤ length bytes.now)) }
{
    match bytes {
        [byte, ..] if *byte < 128 => Some((u64::from(*byte), 1)),
        _ => long_varint(bytes),
    }
}

// The same, byte by byte.
#[tactic(auto, unfolding(crate::specs::Varint::varint_at))]
fn long_varint(bytes: &[u8]) -> Option<(u64, usize)>
    ensures exact { result ≡ varint_at bytes.now }
    ensures there { IfSome result (λ v. (1 ≤ v.1) × (v.1 ≤ 9) × (v.1 ≤ length bytes.now)) }
{
    let mut high: u64 = 0;
    for (k, byte) in bytes.iter().enumerate() {
        if k == 8 {
            return Some((high * 256 + u64::from(*byte), 9));
        }
        if *byte < 128 {
            return Some((high * 128 + u64::from(*byte), k + 1));
        }
        high = high * 128 + u64::from(*byte % 128);
    }
    None
}

#[cfg(test)]
mod tests;
