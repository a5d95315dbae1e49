//! Records in their shortest spelling.

ghost use Rattle.std.specs.Prelude.{◌≡◌, ◌≤◌, ◌<◌, ◌+◌, ◌*◌, ◌^◌, ◌++◌, ℕ, List, length, sum_by, take, drop};
ghost use Rattle.varint_core.specs.Shortest.{spell};
ghost use Rattle.record_core.specs.Shortest.{IsStored, AllStored, IsWritable, steps, width_type, whole_type, serial_type, body_of, types_of, bodies_of, header_len, record_bytes, put_at};
ghost use Rattle.record_core.specs.Spelling.{IsRecord, IsShortestRecord};
ghost use Rattle.record_core.specs.Record.{record_of, value_len};
ghost use Rattle.record_core.specs.declared.values.Value.{Value};

use crate::fields::Fields;
use crate::spans::body_len;
use crate::values::Value;
use byteorder::{BigEndian, ByteOrder};
use varint_core::{varint_len, write_varint};

/// The length of the shortest record of the values, at most 4,000 whose lengths sum below 2^40.
/// Takes no memory.
pub fn record_len<F: Fields>(values: &F) -> usize
    requires { IsWritable (F.values values.now) }
    ensures value { result ≡ length (record_bytes (F.values values.now)) }
{
    record_size(values) as usize
}

/// The length of the shortest record of at most 4,000 values, however long they are. Takes no memory.
pub fn record_size<F: Fields>(values: &F) -> u128
    requires { length (F.values values.now) ≤ 4000 }
    ensures value { result ≡ length (record_bytes (F.values values.now)) }
    ensures most { let vs = F.values values.now in
        result ≤ sum_by value_len vs + 8 * length vs + 36003 }
    ensures fits { result < 2 ^ 80 }
{
    header_len(types_len(values)) as u128 + bodies_len(values)
}

/// Writes the shortest record of the values to the front, leaves the rest, and gives its length
/// (fileformat2.html, 2.1). Takes no memory.
pub fn write_record<F: Fields>(values: &F, to: &mut [u8]) -> usize
    requires fit { IsWritable (F.values values.now) }
    requires room { length (record_bytes (F.values values.now)) ≤ length to.old }
    ensures value { result ≡ length (record_bytes (F.values values.now)) }
    ensures bytes { to.new ≡ record_bytes (F.values values.now) ++ drop result to.old }
    // What is written spells the values, whatever follows it.
    ensures found { (rest : List ℕ) → IsRecord (take result to.new ++ rest) (F.values values.now) }
    // Nothing shorter does: smallest serial types, shortest varints.
    ensures shortest { IsShortestRecord (take result to.new) (F.values values.now) }
{
    put_record(to, values)
}

/// A record of few values is read back.
pub fn a_record_is_read_back()
    ensures { (s : List ℕ) (vs : List Value) → IsRecord s vs → length vs ≤ 1996
        → record_of s ≡ Ok vs }
{}

// Puts the record to the front, and gives its length.
#[tactic(auto, unfolding(crate::specs::Shortest::record_bytes))]
fn put_record<F: Fields>(to: &mut [u8], values: &F) -> usize
    requires fit { IsWritable (F.values values.now) }
    requires room { length (record_bytes (F.values values.now)) ≤ length to.old }
    ensures end { result ≡ length (record_bytes (F.values values.now)) }
    ensures after { to.new ≡ put_at to.old 0 (record_bytes (F.values values.now)) }
    ensures stored { AllStored (F.values values.now) }
{
    let size = write_varint(header_len(types_len(values)) as u64);
    let types = put(to, 0, size.as_slice());
    let bodies = put_types(to, types, values);
    put_bodies(to, bodies, values)
}

// The size of a header whose serial types take this many bytes.
fn header_len(types: usize) -> usize
    requires { types ≤ 36000 }
    ensures value { result ≡ header_len types }
    ensures short { result ≤ 36003 }
{
    if types < 127 {
        types + 1
    } else if types < 16382 {
        types + 2
    } else {
        types + 3
    }
}

// How far a number is from 0, or from -1 where it is below 0.
fn steps(number: i64) -> u64
    ensures { result ≡ steps number }
{
    if number < 0 {
        (-1 - number) as u64
    } else {
        number as u64
    }
}

// The first of the serial types 1 to 6 that has room for a number with this many steps.
fn width_type(steps: u64) -> u64
    ensures value { result ≡ width_type steps }
    ensures short { result ≤ 6 }
{
    match steps {
        _ if steps < 1 << 7 => 1,
        _ if steps < 1 << 15 => 2,
        _ if steps < 1 << 23 => 3,
        _ if steps < 1 << 31 => 4,
        _ if steps < 1 << 47 => 5,
        _ => 6,
    }
}

// The serial type of a whole number.
#[tactic(auto, unfolding(crate::specs::Shortest::whole_type))]
fn whole_type(number: i64) -> u64
    ensures value { result ≡ whole_type number }
    ensures short { result ≤ 9 }
{
    match number {
        0 => 8,
        1 => 9,
        _ => width_type(steps(number)),
    }
}

// The serial type of a value.
fn serial_type(value: &Value) -> u128
    ensures { result ≡ serial_type value.now }
{
    match value {
        Value::Null => 0,
        Value::Whole(number) => u128::from(whole_type(*number)),
        Value::Real8(_) => 7,
        Value::Text(bytes) => 2 * bytes.as_slice().len() as u128 + 13,
        Value::Blob(bytes) => 2 * bytes.as_slice().len() as u128 + 12,
    }
}

// Puts a piece at a place, and gives the place behind it.
fn put(to: &mut [u8], at: usize, piece: &[u8]) -> usize
    requires { at + length piece.now ≤ length to.old }
    ensures end { result ≡ at + length piece.now }
    ensures after { to.new ≡ put_at to.old at piece.now }
{
    let end = at + piece.len();
    to[at..end].copy_from_slice(piece);
    end
}

// Puts the body of a whole number at a place, and gives the place behind it.
fn put_whole(to: &mut [u8], at: usize, number: i64) -> usize
    requires { at + length (body_of (Value.Whole number)) ≤ length to.old }
    ensures end { result ≡ at + length (body_of (Value.Whole number)) }
    ensures after { to.new ≡ put_at to.old at (body_of (Value.Whole number)) }
{
    let len = body_len(whole_type(number)) as usize;
    let mut bytes = [0u8; 8];
    if len > 0 {
        BigEndian::write_int(&mut bytes, number, len);
    }
    put(to, at, &bytes[..len])
}

// Puts the body of a value at a place, and gives the place behind it.
fn put_body(to: &mut [u8], at: usize, value: &Value) -> usize
    requires { at + length (body_of value.now) ≤ length to.old }
    ensures end { result ≡ at + length (body_of value.now) }
    ensures after { to.new ≡ put_at to.old at (body_of value.now) }
    ensures stored { IsStored value.now }
{
    match value {
        Value::Null => at,
        Value::Whole(number) => put_whole(to, at, *number),
        Value::Real8(bytes) => put(to, at, bytes),
        Value::Text(bytes) | Value::Blob(bytes) => put(to, at, bytes.as_slice()),
    }
}

// The length of a slice.
fn slice_len(bytes: &[u8]) -> usize
    ensures { result ≡ length bytes.now }
{
    bytes.len()
}

// The length of the body of a value.
fn body_size(value: &Value) -> usize
    ensures value { result ≡ length (body_of value.now) }
    ensures bound { result ≤ value_len value.now + 8 }
{
    match value {
        Value::Null => 0,
        Value::Whole(number) => body_len(whole_type(*number)) as usize,
        Value::Real8(bytes) => slice_len(bytes),
        Value::Text(bytes) | Value::Blob(bytes) => bytes.as_slice().len(),
    }
}

// The length of the serial type of a value.
fn type_len(value: &Value) -> usize
    ensures value { result ≡ length (spell (serial_type value.now)) }
    ensures short { result ≤ 9 }
{
    let kind = serial_type(value);
    if kind < 1 << 56 {
        varint_len(kind as u64)
    } else {
        9
    }
}

// The length of the serial types of values.
fn types_len<F: Fields>(values: &F) -> usize
    requires { length (F.values values.now) ≤ 4000 }
    ensures value { result ≡ length (types_of (F.values values.now)) }
    ensures short { result ≤ 36000 }
{
    let mut total = 0;
    for i in 0..values.count() {
        total += type_len(values.field(i));
    }
    total
}

// The length of the bodies of values.
fn bodies_len<F: Fields>(values: &F) -> u128
    requires { length (F.values values.now) ≤ 4000 }
    ensures value { result ≡ length (bodies_of (F.values values.now)) }
    ensures most { let vs = F.values values.now in result ≤ sum_by value_len vs + 8 * length vs }
    ensures fits { result ≤ 2 ^ 76 }
{
    let mut total: u128 = 0;
    for i in 0..values.count() {
        total += body_size(values.field(i)) as u128;
    }
    total
}

// Puts the serial type of a value at a place, and gives the place behind it.
fn put_type(to: &mut [u8], at: usize, value: &Value) -> usize
    requires short { value_len value.now < 2 ^ 40 }
    requires room { at + length (spell (serial_type value.now)) ≤ length to.old }
    ensures end { result ≡ at + length (spell (serial_type value.now)) }
    ensures after { to.new ≡ put_at to.old at (spell (serial_type value.now)) }
{
    put(to, at, write_varint(serial_type(value) as u64).as_slice())
}

// Puts the serial types of values at a place, and gives the place behind them.
fn put_types<F: Fields>(to: &mut [u8], at: usize, values: &F) -> usize
    requires fit { IsWritable (F.values values.now) }
    requires room { at + length (types_of (F.values values.now)) ≤ length to.old }
    ensures end { result ≡ at + length (types_of (F.values values.now)) }
    ensures after { to.new ≡ put_at to.old at (types_of (F.values values.now)) }
{
    let mut end = at;
    for i in 0..values.count() {
        end = put_type(to, end, values.field(i));
    }
    end
}

// Puts the bodies of values at a place, and gives the place behind them.
fn put_bodies<F: Fields>(to: &mut [u8], at: usize, values: &F) -> usize
    requires { at + length (bodies_of (F.values values.now)) ≤ length to.old }
    ensures end { result ≡ at + length (bodies_of (F.values values.now)) }
    ensures after { to.new ≡ put_at to.old at (bodies_of (F.values values.now)) }
    ensures stored { AllStored (F.values values.now) }
{
    let mut end = at;
    for i in 0..values.count() {
        end = put_body(to, end, values.field(i));
    }
    end
}
