//! Reading a record out of bytes that are given up for it.

ghost use Rattle.std.specs.Prelude.{◌≡◌, ◌≤◌, ℕ, List, length, IfOk, IfErr, IsOk, IsErrOf, ◌⊎◌};
ghost use Rattle.std.specs.List.{slice_range};
ghost use Rattle.record_core.specs.Record.{record_of, Fails, Gives};
ghost use Rattle.record_core.specs.Faults.{IsCause};
ghost use Rattle.record_core.specs.Spelling.{IsRecord};
ghost use Rattle.record_core.specs.Apart.{IsApart};

use crate::faults::RecordFault;
use crate::long::{LongValue, long_value};
use crate::reading::{text_or_blob, values_but};
use crate::spans::read_layout;
use crate::values::Value;
use std::alloc::{AllocError, Global};

// The values of a record but for a long one, which stands between two places of the payload.
#[derive(Drop)]
pub struct Apart {
    pub values: Vec<Value>,
    pub header: usize,
    pub long: Option<LongValue>,
}

/// The values of the record at the front of the payload, by the rules and faults of `read_record`. A text
/// or a blob that is most of the payload stays where it is, so that no second copy of it is made.
pub fn take_record(alloc: Global, payload: Vec<u8>) -> Result<Vec<Value>, RecordFault>
    // What is answered is spelled by the payload.
    ensures found { IfOk result (λ v. IsRecord payload.items v.items) }
    // What the payload spells, with few values, is answered, unless memory runs out.
    ensures only { (vs : List Value) → IsRecord payload.items vs → length vs ≤ 1996
        → Gives (λ v. v.items) result (Ok vs) }
    ensures exact { Gives (λ v. v.items) result (record_of payload.items) }
    ensures fault { IfErr result (λ f. (f ≡ RecordFault.Memory) ⊎ IsCause payload.items f) }
    // Memory runs out only where there are values.
    ensures memory { IsErrOf result RecordFault.Memory → IsOk (record_of payload.items) }
{
    take(alloc, payload)
}

// The values of the record, or the first fault.
fn take(alloc: Global, payload: Vec<u8>) -> Result<Vec<Value>, RecordFault>
    ensures exact { Gives (λ v. v.items) result (record_of payload.items) }
    ensures memory { IsErrOf result RecordFault.Memory → IsOk (record_of payload.items) }
{
    let apart = read_apart(alloc, payload.as_slice())?;
    Ok(joined(apart, payload))
}

// The values of the record but for a long one, or the first fault.
fn read_apart(alloc: Global, payload: &[u8]) -> Result<Apart, RecordFault>
    ensures value { IfOk result (IsApart payload.now) }
    ensures fault { IfErr result (λ f. Fails f (record_of payload.now)) }
    ensures memory { IsErrOf result RecordFault.Memory → IsOk (record_of payload.now) }
{
    let layout = read_layout(payload)?;
    let types = &payload[layout.start..layout.spans.header];
    let bodies = &payload[layout.spans.header..];
    let long = long_value(types, bodies);
    match values_but(alloc, types, bodies, layout.spans.fields as usize, long) {
        Ok(values) => Ok(Apart {
            values,
            header: layout.spans.header,
            long,
        }),
        Err(AllocError) => Err(RecordFault::Memory),
    }
}

// All values of the record.
fn joined(apart: Apart, payload: Vec<u8>) -> Vec<Value>
    requires { IsApart payload.items apart }
    ensures { record_of payload.items ≡ Ok result.items }
{
    let Apart {
        mut values,
        header,
        long,
    } = apart;
    let Some(long) = long else {
        return values;
    };
    let body = cut(payload, header + long.from, header + long.end);
    values[long.field] = text_or_blob(long.kind, body);
    values
}

// The bytes between two places, moved to the front of their own memory.
fn cut(mut bytes: Vec<u8>, from: usize, end: usize) -> Vec<u8>
    requires low { from ≤ end }
    requires high { end ≤ length bytes.items }
    ensures { result.items ≡ slice_range bytes.items from end }
{
    bytes.copy_within(from..end, 0);
    bytes.truncate(end - from);
    bytes.shrink_to_fit();
    bytes
}
