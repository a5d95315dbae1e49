//! Bytes put one piece behind another.

ghost use Rattle.std.specs.Prelude.{◌≡◌, ◌≤◌, ◌+◌, [], ◌∷◌, ◌++◌, length, take, replicate};
ghost use Rattle.byteorder.specs.Endian.{big_bytes};
ghost use Rattle.varint_core.specs.Shortest.{spell};

use byteorder::{BigEndian, ByteOrder};
use varint_core::write_varint;

/// Puts a piece at a place, and gives the place behind it.
pub(crate) fn put(to: &mut [u8], at: usize, piece: &[u8]) -> usize
    requires { at + length piece.now ≤ length to.old }
    ensures end { result ≡ at + length piece.now }
    ensures front { take result to.new ≡ take at to.old ++ piece.now }
{
    let end = at + piece.len();
    to[at..end].copy_from_slice(piece);
    end
}

/// Puts zeros at a place, and gives the place behind them.
pub(crate) fn put_zeros(to: &mut [u8], at: usize, count: usize) -> usize
    requires { at + count ≤ length to.old }
    ensures end { result ≡ at + count }
    ensures front { take result to.new ≡ take at to.old ++ replicate count 0 }
{
    let end = at + count;
    to[at..end].fill(0);
    end
}

/// Puts a byte at a place, and gives the place behind it.
pub(crate) fn put_u8(to: &mut [u8], at: usize, number: u8) -> usize
    requires { at + 1 ≤ length to.old }
    ensures end { result ≡ at + 1 }
    ensures front { take result to.new ≡ take at to.old ++ number ∷ [] }
{
    put(to, at, &[number])
}

/// Puts a number of two bytes at a place, and gives the place behind it.
pub(crate) fn put_u16(to: &mut [u8], at: usize, number: u16) -> usize
    requires { at + 2 ≤ length to.old }
    ensures end { result ≡ at + 2 }
    ensures front { take result to.new ≡ take at to.old ++ big_bytes 2 number }
{
    let mut bytes = [0u8; 2];
    BigEndian::write_u16(&mut bytes, number);
    put(to, at, &bytes)
}

/// Puts a number of four bytes at a place, and gives the place behind it.
pub(crate) fn put_u32(to: &mut [u8], at: usize, number: u32) -> usize
    requires { at + 4 ≤ length to.old }
    ensures end { result ≡ at + 4 }
    ensures front { take result to.new ≡ take at to.old ++ big_bytes 4 number }
{
    let mut bytes = [0u8; 4];
    BigEndian::write_u32(&mut bytes, number);
    put(to, at, &bytes)
}

/// Puts a varint at a place, and gives the place behind it.
pub(crate) fn put_varint(to: &mut [u8], at: usize, number: u64) -> usize
    requires { at + length (spell number) ≤ length to.old }
    ensures end { result ≡ at + length (spell number) }
    ensures front { take result to.new ≡ take at to.old ++ spell number }
{
    put(to, at, write_varint(number).as_slice())
}
