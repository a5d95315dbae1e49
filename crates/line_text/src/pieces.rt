//! The beginning of a line, short words, and bytes in hexadecimal digits.
ghost use Rattle.std.specs.Prelude.{◌≡◌, ◌≤◌, ◌+◌, ◌*◌, ◌++◌, length, codes, decimal};
ghost use Rattle.arrayvec.specs.ArrayVec.{array_vec_len};
ghost use Rattle.hex.specs.Hex.{encode_lower};
ghost use Rattle.page_access.specs.Outside.{KeepsSink, Writes};
ghost use Rattle.line_text.specs.Text.{place_text};

use arrayvec::ArrayVec;
use itoa::Buffer;
use page_access::{Failed, Sink};

/// A line, or its beginning: a few numbers and short words, 128 bytes at most.
pub type Line = ArrayVec<u8, 128>;

/// The beginning of a cell's line: the number of its page, counted from 1, and its own number
/// there, counted from 0, with a space behind each. These are 42 bytes at most.
#[tactic(auto, unfolding(crate::specs::Text::place_text))]
pub fn place(page: u64, cell: u64) -> Line
    ensures text { result.items ≡ place_text page cell }
    ensures len { array_vec_len result ≤ 42 }
{
    let mut line = Line::new();
    add(&mut line, Buffer::new().format(page).as_bytes());
    add(&mut line, b" ");
    add(&mut line, Buffer::new().format(cell).as_bytes());
    add(&mut line, b" ");
    line
}

/// Appends the bytes of a word to a line that has room for them.
pub fn add(line: &mut Line, word: &[u8])
    requires { array_vec_len line.old + length word.now ≤ 128 }
    ensures text { line.new.items ≡ line.old.items ++ word.now }
    ensures len { array_vec_len line.new ≡ array_vec_len line.old + length word.now }
{
    line.try_extend_from_slice(word).unwrap();
}

/// Puts two small hexadecimal digits for each byte, at most 128 digits in one call of the sink.
/// After an error a front of the digits is there.
pub fn put_hex<R: Sink>(to: &mut R, bytes: &[u8]) -> Result<(), Failed>
    ensures writes { Writes (R.bytes to.old) (R.bytes to.new) (R.faults to.old) (R.faults to.new)
        (encode_lower bytes.now) result }
    ensures kept { KeepsSink R.created R.finished R.faults to.old to.new }
{
    let mut rest = bytes;
    while rest.len() > 64 {
        let (piece, behind) = rest.split_at(64);
        put_digits(to, piece)?;
        rest = behind;
    }
    put_digits(to, rest)
}

// Puts a few bytes in hexadecimal digits.
fn put_digits<R: Sink>(to: &mut R, bytes: &[u8]) -> Result<(), Failed>
    requires { length bytes.now ≤ 64 }
    ensures writes { Writes (R.bytes to.old) (R.bytes to.new) (R.faults to.old) (R.faults to.new)
        (encode_lower bytes.now) result }
    ensures kept { KeepsSink R.created R.finished R.faults to.old to.new }
{
    let mut digits = [0; 128];
    let room = &mut digits[..2 * bytes.len()];
    hex::encode_to_slice(bytes, room).unwrap();
    to.put(room)
}
