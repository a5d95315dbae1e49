//! The lines of a cell.
ghost use Rattle.std.specs.Prelude.{◌≡◌, ◌≤◌, ◌<◌, ◌+◌, ◌++◌, ℤ, pos, negsuc, length, take, codes, decimal, OnOk};
ghost use Rattle.std.specs.Fmt.{signed_decimal};
ghost use Rattle.arrayvec.specs.ArrayVec.{array_vec_len};
ghost use Rattle.hex.specs.Hex.{encode_lower};
ghost use Rattle.page_access.specs.Outside.{Writes, KeepsSink};
ghost use Rattle.record_core.specs.declared.values.Value.TheVariants.{Null, Whole};
ghost use Rattle.line_text.specs.Text.{newline};
ghost use Rattle.dbdata_list.specs.Text.{cell_text, page_text, field_line, field_text, fields_text, pointer_line, row_text, rowid_text, unread_line, value_line, word_line};

use itoa::Buffer;
use line_text::{Line, add, put_hex};
use page_access::{Failed, Sink};
use record_core::Value;

// How many bytes a line has room for, in hexadecimal digits.
const FEW: usize = 24;

/// The beginning of the lines of a page.
pub(crate) fn page_start(page: u32) -> Line
    ensures text { result.items ≡ page_text page }
    ensures len { array_vec_len result ≤ 21 }
{
    let mut line = Line::new();
    add(&mut line, Buffer::new().format(page).as_bytes());
    add(&mut line, b" ");
    line
}

/// Puts the lines of a row: its rowid, then its fields. The line begins with the number of the page when this is
/// called, and is that again where it returns without an error.
pub(crate) fn put_row<R: Sink>(
    to: &mut R,
    line: &mut Line,
    cell: u32,
    rowid: Option<i64>,
    values: &[Value],
) -> Result<(), Failed>
    requires { array_vec_len line.old ≤ 21 }
    ensures writes { Writes (R.bytes to.old) (R.bytes to.new) (R.faults to.old) (R.faults to.new)
        (row_text line.old.items cell rowid values.now) result }
    ensures kept { KeepsSink R.created R.finished R.faults to.old to.new }
    ensures line { OnOk result (line.new.items ≡ line.old.items) }
{
    let start = line.len();
    add_cell(line, cell);
    put_rowid(to, line, rowid)?;
    put_fields(to, line, values)?;
    line.truncate(start);
    Ok(())
}

// Appends the number of a cell.
#[tactic(auto, unfolding(crate::specs::Text::cell_text))]
fn add_cell(line: &mut Line, cell: u32)
    requires { array_vec_len line.old ≤ 21 }
    ensures text { line.new.items ≡ cell_text line.old.items cell }
    ensures len { array_vec_len line.new ≤ 42 }
{
    add(line, Buffer::new().format(cell).as_bytes());
    add(line, b" ");
}

// Each of the next functions puts lines behind the place of a cell, which a line holds when it is called and again
// when it returns.

// Puts the line of the rowid, where there is one.
fn put_rowid<R: Sink>(to: &mut R, line: &mut Line, rowid: Option<i64>) -> Result<(), Failed>
    requires { array_vec_len line.old ≤ 42 }
    ensures writes { Writes (R.bytes to.old) (R.bytes to.new) (R.faults to.old) (R.faults to.new)
        (rowid_text line.old.items rowid) result }
    ensures kept { KeepsSink R.created R.finished R.faults to.old to.new }
    ensures line { line.new.items ≡ line.old.items }
{
    match rowid {
        Some(rowid) => put_rowid_line(to, line, rowid),
        None => Ok(()),
    }
}

// Puts the line of a rowid.
#[tactic(auto, unfolding(crate::specs::Text::field_line, crate::specs::Text::field_text))]
fn put_rowid_line<R: Sink>(to: &mut R, line: &mut Line, rowid: i64) -> Result<(), Failed>
    requires { array_vec_len line.old ≤ 42 }
    ensures writes { Writes (R.bytes to.old) (R.bytes to.new) (R.faults to.old) (R.faults to.new)
        (field_line line.old.items (codes "-1") (Whole rowid)) result }
    ensures kept { KeepsSink R.created R.finished R.faults to.old to.new }
    ensures line { line.new.items ≡ line.old.items }
{
    let place = line.len();
    add(line, b"-1 ");
    put_whole(to, line, place, rowid)
}

// Puts the lines of the fields.
fn put_fields<R: Sink>(to: &mut R, line: &mut Line, values: &[Value]) -> Result<(), Failed>
    requires { array_vec_len line.old ≤ 42 }
    ensures writes { Writes (R.bytes to.old) (R.bytes to.new) (R.faults to.old) (R.faults to.new)
        (fields_text line.old.items 0 values.now) result }
    ensures kept { KeepsSink R.created R.finished R.faults to.old to.new }
    ensures line { OnOk result (line.new.items ≡ line.old.items) }
{
    for (field, value) in values.iter().enumerate() {
        put_numbered(to, line, field, value)?;
    }
    Ok(())
}

// Puts the line of a field with this number, counted from 0.
#[tactic(auto, unfolding(crate::specs::Text::field_line, crate::specs::Text::field_text))]
fn put_numbered<R: Sink>(
    to: &mut R,
    line: &mut Line,
    field: usize,
    value: &Value,
) -> Result<(), Failed>
    requires { array_vec_len line.old ≤ 42 }
    ensures writes { Writes (R.bytes to.old) (R.bytes to.new) (R.faults to.old) (R.faults to.new)
        (field_line line.old.items (decimal field) value.now) result }
    ensures kept { KeepsSink R.created R.finished R.faults to.old to.new }
    ensures line { line.new.items ≡ line.old.items }
{
    let place = line.len();
    add_field(line, field);
    put_field(to, line, place, value)
}

// Appends the number of a field. Most have one digit.
#[tactic(auto, unfolding(crate::specs::Text::field_text), using(std::proofs::lemmas::Fmt::decimal_digit))]
fn add_field(line: &mut Line, field: usize)
    requires { array_vec_len line.old ≤ 42 }
    ensures text { line.new.items ≡ field_text line.old.items (decimal field) }
    ensures len { array_vec_len line.new ≤ 63 }
    ensures more { array_vec_len line.old ≤ array_vec_len line.new }
{
    if field < 10 {
        add(line, &[b'0' + field as u8, b' ']);
    } else {
        add(line, Buffer::new().format(field).as_bytes());
        add(line, b" ");
    }
}

// Each of the next functions puts the line of a value behind the number of its field, which the line holds, and
// cuts the line back to so many bytes.

// Puts the line of a value.
#[tactic(auto, unfolding(crate::specs::Text::value_line, crate::specs::Text::word_line))]
fn put_field<R: Sink>(
    to: &mut R,
    line: &mut Line,
    place: usize,
    value: &Value,
) -> Result<(), Failed>
    requires line { array_vec_len line.old ≤ 63 }
    requires place { place ≤ array_vec_len line.old }
    ensures writes { Writes (R.bytes to.old) (R.bytes to.new) (R.faults to.old) (R.faults to.new)
        (value_line line.old.items value.now) result }
    ensures kept { KeepsSink R.created R.finished R.faults to.old to.new }
    ensures line { line.new.items ≡ take place line.old.items }
{
    match value {
        Value::Null => put_null(to, line, place),
        Value::Whole(number) => put_whole(to, line, place, *number),
        Value::Real8(bytes) => put_bytes(to, line, place, b"real:", bytes),
        Value::Text(bytes) => put_bytes(to, line, place, b"text:", bytes.as_slice()),
        Value::Blob(bytes) => put_bytes(to, line, place, b"blob:", bytes.as_slice()),
    }
}

// Puts the line of a NULL.
#[tactic(auto, unfolding(crate::specs::Text::value_line))]
fn put_null<R: Sink>(to: &mut R, line: &mut Line, place: usize) -> Result<(), Failed>
    requires line { array_vec_len line.old ≤ 63 }
    requires place { place ≤ array_vec_len line.old }
    ensures writes { Writes (R.bytes to.old) (R.bytes to.new) (R.faults to.old) (R.faults to.new)
        (value_line line.old.items Null) result }
    ensures kept { KeepsSink R.created R.finished R.faults to.old to.new }
    ensures line { line.new.items ≡ take place line.old.items }
{
    add(line, b"null\n");
    put_line(to, line, place)
}

// Puts the line of a whole number.
#[tactic(auto, unfolding(crate::specs::Text::value_line))]
fn put_whole<R: Sink>(to: &mut R, line: &mut Line, place: usize, number: i64) -> Result<(), Failed>
    requires line { array_vec_len line.old ≤ 63 }
    requires place { place ≤ array_vec_len line.old }
    ensures writes { Writes (R.bytes to.old) (R.bytes to.new) (R.faults to.old) (R.faults to.new)
        (value_line line.old.items (Whole number)) result }
    ensures kept { KeepsSink R.created R.finished R.faults to.old to.new }
    ensures line { line.new.items ≡ take place line.old.items }
{
    add(line, b"int:");
    add(line, Buffer::new().format(number).as_bytes());
    add(line, b"\n");
    put_line(to, line, place)
}

// Puts a line that ends in bytes, in hexadecimal digits behind the name of their type: the line of a few bytes at once.
#[tactic(auto, unfolding(crate::specs::Text::word_line))]
fn put_bytes<R: Sink>(
    to: &mut R,
    line: &mut Line,
    place: usize,
    name: &[u8],
    bytes: &[u8],
) -> Result<(), Failed>
    requires line { array_vec_len line.old ≤ 63 }
    requires place { place ≤ array_vec_len line.old }
    requires name { length name.now ≤ 8 }
    ensures writes { Writes (R.bytes to.old) (R.bytes to.new) (R.faults to.old) (R.faults to.new)
        (word_line line.old.items name.now (encode_lower bytes.now)) result }
    ensures kept { KeepsSink R.created R.finished R.faults to.old to.new }
    ensures line { line.new.items ≡ take place line.old.items }
{
    if bytes.len() > FEW {
        return put_long(to, line, place, name, bytes);
    }
    add(line, name);
    add_hex(line, bytes);
    add(line, b"\n");
    put_line(to, line, place)
}

// Appends the hexadecimal digits of a few bytes.
fn add_hex(line: &mut Line, bytes: &[u8])
    requires few { length bytes.now ≤ 24 }
    requires room { array_vec_len line.old ≤ 80 }
    ensures text { line.new.items ≡ line.old.items ++ encode_lower bytes.now }
    ensures len { array_vec_len line.new ≤ array_vec_len line.old + 48 }
{
    let mut digits = [0; 2 * FEW];
    let room = &mut digits[..2 * bytes.len()];
    hex::encode_to_slice(bytes, room).unwrap();
    add(line, room);
}

// The same in pieces, of however many bytes.
fn put_long<R: Sink>(
    to: &mut R,
    line: &mut Line,
    place: usize,
    name: &[u8],
    bytes: &[u8],
) -> Result<(), Failed>
    requires line { array_vec_len line.old ≤ 63 }
    requires place { place ≤ array_vec_len line.old }
    requires name { length name.now ≤ 8 }
    ensures writes { Writes (R.bytes to.old) (R.bytes to.new) (R.faults to.old) (R.faults to.new)
        (word_line line.old.items name.now (encode_lower bytes.now)) result }
    ensures kept { KeepsSink R.created R.finished R.faults to.old to.new }
    ensures line { line.new.items ≡ take place line.old.items }
{
    put_name(to, line, place, name)?;
    put_hex(to, bytes)?;
    to.put(b"\n")
}

// Puts the beginning of a line, up to the name of the type of its value.
fn put_name<R: Sink>(to: &mut R, line: &mut Line, place: usize, name: &[u8]) -> Result<(), Failed>
    requires line { array_vec_len line.old ≤ 63 }
    requires place { place ≤ array_vec_len line.old }
    requires name { length name.now ≤ 8 }
    ensures writes { Writes (R.bytes to.old) (R.bytes to.new) (R.faults to.old) (R.faults to.new)
        (line.old.items ++ name.now) result }
    ensures kept { KeepsSink R.created R.finished R.faults to.old to.new }
    ensures line { line.new.items ≡ take place line.old.items }
{
    add(line, name);
    put_line(to, line, place)
}

// Puts a line, and cuts it back to so many bytes.
fn put_line<R: Sink>(to: &mut R, line: &mut Line, place: usize) -> Result<(), Failed>
    ensures writes { Writes (R.bytes to.old) (R.bytes to.new) (R.faults to.old) (R.faults to.new)
        line.old.items result }
    ensures kept { KeepsSink R.created R.finished R.faults to.old to.new }
    ensures line { line.new.items ≡ take place line.old.items }
{
    let done = to.put(line.as_slice());
    line.truncate(place);
    done
}

/// Puts the line of a cell that is not read. The line begins with the number of the page when this is called, and is
/// that again when it returns.
#[tactic(auto, unfolding(crate::specs::Text::unread_line, crate::specs::Text::cell_text))]
pub(crate) fn put_unread<R: Sink>(
    to: &mut R,
    line: &mut Line,
    cell: u32,
    cause: &str,
) -> Result<(), Failed>
    requires line { array_vec_len line.old ≤ 21 }
    requires cause { length cause.now ≤ 32 }
    ensures writes { Writes (R.bytes to.old) (R.bytes to.new) (R.faults to.old) (R.faults to.new)
        (unread_line line.old.items cell cause.now) result }
    ensures kept { KeepsSink R.created R.finished R.faults to.old to.new }
    ensures line { line.new.items ≡ line.old.items }
{
    let start = line.len();
    add_cell(line, cell);
    add(line, b"unread ");
    add(line, cause.as_bytes());
    add(line, b"\n");
    put_line(to, line, start)
}

/// Puts the line of a page number that a page names.
#[tactic(auto, unfolding(crate::specs::Text::pointer_line))]
pub(crate) fn put_pointer<R: Sink>(to: &mut R, page: u32, child: u32) -> Result<(), Failed>
    ensures writes { Writes (R.bytes to.old) (R.bytes to.new) (R.faults to.old) (R.faults to.new)
        (pointer_line page child) result }
    ensures kept { KeepsSink R.created R.finished R.faults to.old to.new }
{
    let mut line = Line::new();
    add(&mut line, Buffer::new().format(page).as_bytes());
    add(&mut line, b" ");
    add(&mut line, Buffer::new().format(child).as_bytes());
    add(&mut line, b"\n");
    to.put(line.as_slice())
}
