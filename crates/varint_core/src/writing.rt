//! Varints in their shortest spelling.

ghost use Rattle.std.specs.Prelude.{◌≡◌, ◌≤◌, ◌<◌, ◌^◌, ℕ, List, [], ◌∷◌, ◌++◌, length};
ghost use Rattle.varint_core.specs.Varint.{IsVarint, varint_at};
ghost use Rattle.varint_core.specs.Shortest.{IsShortest, front_of, spell, varint_len};

use arrayvec::ArrayVec;

/// The length of the shortest spelling, 1 to 9 bytes.
pub fn varint_len(v: u64) -> usize
    ensures shortest { (s : List ℕ) → IsShortest s v → result ≡ length s }
    ensures exact { result ≡ varint_len v }
    ensures there { (1 ≤ result) × (result ≤ 9) }
{
    len_of(v)
}

/// The shortest spelling of a number (fileformat2.html, 1.6).
pub fn write_varint(v: u64) -> ArrayVec<u8, 9>
    // What is written spells the number, and nothing shorter does.
    ensures shortest { IsShortest result.items v }
    ensures exact { result.items ≡ spell v }
{
    spelling_of(v)
}

/// What spells a number is read back, whatever follows it.
pub fn a_spelling_is_read_back()
    ensures { (s rest : List ℕ) (v : ℕ) → IsVarint s v
        → varint_at (s ++ rest) ≡ Some (v, length s) }
{}

// The length of the shortest spelling.
#[tactic(auto, unfolding(crate::specs::Shortest::varint_len))]
fn len_of(v: u64) -> usize
    ensures exact { result ≡ varint_len v }
    ensures there { (1 ≤ result) × (result ≤ 9) × (v < 2 ^ 56 → result ≤ 8) }
{
    match v {
        _ if v < 1 << 7 => 1,
        _ if v < 1 << 14 => 2,
        _ if v < 1 << 21 => 3,
        _ if v < 1 << 28 => 4,
        _ if v < 1 << 35 => 5,
        _ if v < 1 << 42 => 6,
        _ if v < 1 << 49 => 7,
        _ if v < 1 << 56 => 8,
        _ => 9,
    }
}

// The shortest spelling: seven bits a byte, or eight in a ninth.
#[tactic(auto, unfolding(crate::specs::Shortest::spell))]
fn spelling_of(v: u64) -> ArrayVec<u8, 9>
    ensures { result.items ≡ spell v }
{
    if v < 1 << 56 {
        bytes_of(len_of(v) - 1, v / 128, (v % 128) as u8)
    } else {
        bytes_of(8, v / 256, (v % 256) as u8)
    }
}

// Bytes that continue, with seven bits each, and the last byte.
fn bytes_of(count: usize, high: u64, last: u8) -> ArrayVec<u8, 9>
    requires { count ≤ 8 }
    ensures { result.items ≡ front_of count high ++ last ∷ [] }
{
    let mut bytes = ArrayVec::new();
    let mut left = count;
    'bytes: while left > 0 {
        left -= 1;
        bytes.push(((high >> (7 * left)) % 128) as u8 + 128);
    }
    bytes.push(last);
    bytes
}
