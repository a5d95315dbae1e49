//! Names in a line (docs/TEXTS.md, "Names").
ghost use Rattle.std.specs.Prelude.{◌≡◌, ◌≤◌, ◌+◌, [], ◌∷◌, ◌++◌, length, codes};
ghost use Rattle.std.specs.List.{flat_map};
ghost use Rattle.arrayvec.specs.ArrayVec.{array_vec_len};
ghost use Rattle.hex.specs.Hex.{encode_lower};
ghost use Rattle.page_access.specs.Outside.{KeepsSink, Writes};
ghost use Rattle.report_text.specs.Names.{esc, esc_byte, is_plain};

use line_text::{Line, add};
use page_access::{Failed, Sink};

// Bytes of a name that are put in one call of the sink: each is 3 bytes of a line at most.
const CHUNK: usize = 32;

/// Puts a name and a space behind it.
pub(crate) fn put_name<R: Sink>(to: &mut R, name: &[u8]) -> Result<(), Failed>
    ensures writes { Writes (R.bytes to.old) (R.bytes to.new) (R.faults to.old) (R.faults to.new)
        (esc name.now ++ codes " ") result }
    ensures kept { KeepsSink R.created R.finished R.faults to.old to.new }
{
    put_esc(to, name)?;
    to.put(b" ")
}

/// Puts a name.
pub(crate) fn put_esc<R: Sink>(to: &mut R, name: &[u8]) -> Result<(), Failed>
    ensures writes { Writes (R.bytes to.old) (R.bytes to.new) (R.faults to.old) (R.faults to.new)
        (esc name.now) result }
    ensures kept { KeepsSink R.created R.finished R.faults to.old to.new }
{
    if name.is_empty() {
        return to.put(b"\\");
    }
    put_bytes(to, name)
}

// Puts the bytes of a name.
fn put_bytes<R: Sink>(to: &mut R, bytes: &[u8]) -> Result<(), Failed>
    ensures writes { Writes (R.bytes to.old) (R.bytes to.new) (R.faults to.old) (R.faults to.new)
        (flat_map esc_byte bytes.now) result }
    ensures kept { KeepsSink R.created R.finished R.faults to.old to.new }
{
    let mut rest = bytes;
    while rest.len() > CHUNK {
        let (piece, behind) = rest.split_at(CHUNK);
        put_chunk(to, piece)?;
        rest = behind;
    }
    put_chunk(to, rest)
}

// Puts a few bytes of a name.
fn put_chunk<R: Sink>(to: &mut R, bytes: &[u8]) -> Result<(), Failed>
    requires { length bytes.now ≤ 32 }
    ensures writes { Writes (R.bytes to.old) (R.bytes to.new) (R.faults to.old) (R.faults to.new)
        (flat_map esc_byte bytes.now) result }
    ensures kept { KeepsSink R.created R.finished R.faults to.old to.new }
{
    to.put(chunk(bytes).as_slice())
}

// A few bytes of a name, as they stand in a line.
fn chunk(bytes: &[u8]) -> Line
    requires { length bytes.now ≤ 32 }
    ensures { result.items ≡ flat_map esc_byte bytes.now }
{
    let mut line = Line::new();
    for byte in bytes {
        add_byte(&mut line, *byte);
    }
    line
}

// Adds a byte of a name.
fn add_byte(line: &mut Line, byte: u8)
    requires { array_vec_len line.old ≤ 125 }
    ensures text { line.new.items ≡ line.old.items ++ esc_byte byte }
    ensures len { array_vec_len line.new ≤ array_vec_len line.old + 3 }
{
    if is_plain(byte) {
        add(line, &[byte]);
    } else {
        add(line, b"\\");
        add_digits(line, byte);
    }
}

// Adds the two hexadecimal digits of a byte.
fn add_digits(line: &mut Line, byte: u8)
    requires { array_vec_len line.old ≤ 126 }
    ensures text { line.new.items ≡ line.old.items ++ encode_lower (byte ∷ []) }
    ensures len { array_vec_len line.new ≡ array_vec_len line.old + 2 }
{
    let mut digits = [0; 2];
    hex::encode_to_slice(&[byte], &mut digits).unwrap();
    add(line, &digits);
}

// Whether a byte stands in a line as it is.
fn is_plain(byte: u8) -> bool
    ensures { result ≡ is_plain byte }
{
    0x21 <= byte && byte <= 0x7e && byte != b'\\'
}
