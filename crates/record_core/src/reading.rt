//! Reading a record.

ghost use Rattle.std.specs.Prelude.{◌≡◌, ◌≤◌, ◌==◌, ℕ, List, length, IfOk, IfErr, IsOk, IsErrOf, IsSomeAnd, ◌⊎◌, if◌then◌else◌};
ghost use Rattle.std.specs.Prelude.{Some};
ghost use Rattle.byteorder.specs.Endian.{big_number, twos_complement};
ghost use Rattle.record_core.specs.Record.{body_len, bodies_len, types_in, value_of, values_of, record_of, Gives};
ghost use Rattle.record_core.specs.Faults.{IsCause};
ghost use Rattle.record_core.specs.Spelling.{IsRecord};
ghost use Rattle.record_core.specs.Apart.{has_long_at, without_long};
ghost use Rattle.record_core.specs.declared.values.Value.TheVariants.{Null};

use crate::faults::RecordFault;
use crate::long::LongValue;
use crate::spans::{body_len, read_layout};
use crate::values::{Bytes, Value};
use byteorder::{BigEndian, ByteOrder};
use std::alloc::{AllocError, Global};
use varint_core::read_varint;

/// The values of the record at the front of the payload; bytes may follow them
/// (fileformat2.html, 2.1). The fault is the first of `RecordFault` that holds.
pub fn read_record(alloc: Global, payload: &[u8]) -> Result<Vec<Value>, RecordFault>
    // What is answered is spelled by the payload.
    ensures found { IfOk result (λ v. IsRecord payload.now v.items) }
    // What the payload spells, with few values, is answered, unless memory runs out.
    ensures only { (vs : List Value) → IsRecord payload.now vs → length vs ≤ 1996
        → Gives (λ v. v.items) result (Ok vs) }
    ensures exact { Gives (λ v. v.items) result (record_of payload.now) }
    ensures fault { IfErr result (λ f. (f ≡ RecordFault.Memory) ⊎ IsCause payload.now f) }
    // Memory runs out only where there are values.
    ensures memory { IsErrOf result RecordFault.Memory → IsOk (record_of payload.now) }
{
    decode(alloc, payload)
}

/// A payload spells the values of one record at most, however many they are.
pub fn a_payload_spells_one_record()
    ensures { (s : List ℕ) (vs ws : List Value) → IsRecord s vs → IsRecord s ws → vs ≡ ws }
{}

// The values of the record, or the first fault.
fn decode(alloc: Global, payload: &[u8]) -> Result<Vec<Value>, RecordFault>
    ensures exact { Gives (λ v. v.items) result (record_of payload.now) }
    ensures memory { IsErrOf result RecordFault.Memory → IsOk (record_of payload.now) }
{
    let layout = read_layout(payload)?;
    let types = &payload[layout.start..layout.spans.header];
    let bodies = &payload[layout.spans.header..];
    match values_but(alloc, types, bodies, layout.spans.fields as usize, None) {
        Ok(values) => Ok(values),
        Err(AllocError) => Err(RecordFault::Memory),
    }
}

// The values of the serial types that fill the bytes, with NULL in place of the long one.
pub fn values_but(
    alloc: Global,
    types: &[u8],
    bodies: &[u8],
    fields: usize,
    long: Option<LongValue>,
) -> Result<Vec<Value>, AllocError>
    requires { IsSomeAnd (types_in types.now) (λ ts. bodies_len ts ≤ length bodies.now) }
    ensures { IfOk result (λ v. (ts : List ℕ) → types_in types.now ≡ Some ts
        → v.items ≡ without_long long (values_of ts bodies.now)) }
{
    let mut values = Vec::with_capacity(alloc, fields)?;
    let mut at = 0;
    let mut from = 0;
    'types: while at < types.len() {
        let (kind, len) = read_varint(types, at).unwrap();
        let end = from + body_len(kind) as usize;
        let is_long = is_long_at(&long, values.len());
        values.push(value_or_null(alloc, is_long, kind, &bodies[from..end])?)?;
        at += len;
        from = end;
    }
    Ok(values)
}

// Whether the long value has this number.
fn is_long_at(long: &Option<LongValue>, field: usize) -> bool
    ensures { result ≡ has_long_at long.now field }
{
    match long {
        Some(value) => value.field == field,
        None => false,
    }
}

// The value that a serial type and its body stand for, or NULL where it is left out.
fn value_or_null(alloc: Global, left_out: bool, kind: u64, body: &[u8]) -> Result<Value, AllocError>
    requires { length body.now ≡ body_len kind }
    ensures { IfOk result (λ v. v ≡ (if left_out then Null else value_of kind body.now)) }
{
    if left_out {
        return Ok(Value::Null);
    }
    value_at(alloc, kind, body)
}

// The value that a serial type and its body stand for.
#[tactic(auto, unfolding(crate::specs::Record::value_of, crate::specs::Record::body_len))]
fn value_at(alloc: Global, kind: u64, body: &[u8]) -> Result<Value, AllocError>
    requires { length body.now ≡ body_len kind }
    ensures { IfOk result (λ v. v ≡ value_of kind body.now) }
{
    Ok(match kind {
        0 => Value::Null,
        1..=6 => Value::Whole(whole(body)),
        7 => Value::Real8(eight(body)),
        8 => Value::Whole(0),
        9 => Value::Whole(1),
        _ => text_or_blob(kind, Vec::from_slice(alloc, body)?),
    })
}

// The whole number that up to eight bytes stand for in two's complement. Each length that a serial type has is
// named, so that each is read by code of its own.
fn whole(body: &[u8]) -> i64
    requires some { 1 ≤ length body.now }
    requires few { length body.now ≤ 8 }
    ensures { result ≡ twos_complement (length body.now) (big_number (length body.now) body.now) }
{
    match body.len() {
        1 => BigEndian::read_int(body, 1),
        2 => BigEndian::read_int(body, 2),
        3 => BigEndian::read_int(body, 3),
        4 => BigEndian::read_int(body, 4),
        6 => BigEndian::read_int(body, 6),
        8 => BigEndian::read_int(body, 8),
        len => BigEndian::read_int(body, len),
    }
}

// The text or the blob of these bytes, as the serial type says. Takes no memory.
#[tactic(auto, unfolding(crate::specs::Record::value_of))]
pub fn text_or_blob(kind: u64, bytes: Vec<u8>) -> Value
    requires { 10 ≤ kind }
    ensures { result ≡ value_of kind bytes.items }
{
    let bytes = Bytes::of(bytes);
    if kind % 2 == 0 {
        Value::Blob(bytes)
    } else {
        Value::Text(bytes)
    }
}

// Eight bytes as an array.
fn eight(body: &[u8]) -> [u8; 8]
    requires { length body.now ≡ 8 }
    ensures { result ≡ body.now }
{
    let mut bytes = [0; 8];
    bytes.copy_from_slice(body);
    bytes
}
