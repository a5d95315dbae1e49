//! The header of a record: its serial types, and what they say of the bytes.

ghost use Rattle.std.specs.Prelude.{◌≡◌, ◌≤◌, ◌<◌, ◌+◌, ◌^◌, ◌||◌, List, length, option_map, IfOk, IfErr, IsErrOf, IfSome};
ghost use Rattle.record_core.specs.Record.{body_len, is_reserved, types_in, spans_of};
ghost use Rattle.record_core.specs.Tally.{tally_of, more_within, layout_of, HasValues};
ghost use Rattle.record_core.specs.Faults.{IsCause};
ghost use Rattle.record_core.specs.Spelling.{AreSpans, IsRecord, spans_in};
ghost use Rattle.record_core.specs.declared.values.Value.{Value};

use crate::faults::RecordFault;
use varint_core::read_varint;

/// The sizes in a record.
#[derive(Clone, Copy, Debug, PartialEq, Eq)]
pub struct RecordSpans {
    /// How many values it has.
    pub fields: u32,
    /// The header's size in bytes.
    pub header: usize,
    /// The bytes of the header and of all values.
    pub used: usize,
}

// A record's sizes, and where its first serial type stands.
#[derive(Clone, Copy)]
pub struct Layout {
    pub start: usize,
    pub spans: RecordSpans,
}

// What serial types say together: how many they are, whether one is reserved, and the length of
// their bodies where there is room for it.
#[derive(Clone, Copy)]
pub struct Tally {
    pub fields: usize,
    pub reserved: bool,
    pub bodies: Option<usize>,
}

const MAX_FIELDS: usize = 1996;

/// The sizes in the record at the front of the payload, by the rules and faults of `read_record`.
/// Never `Memory`.
pub fn record_spans(payload: &[u8]) -> Result<RecordSpans, RecordFault>
    // What is answered are the sizes of a record that the payload spells.
    ensures found { IfOk result (λ s. AreSpans payload.now s) }
    // The sizes of a record with few values are answered.
    ensures only { (vs : List Value) (r : IsRecord payload.now vs) → length vs ≤ 1996
        → result ≡ Ok (spans_in r) }
    ensures exact { result ≡ spans_of payload.now }
    ensures fault { IfErr result (IsCause payload.now) }
{
    spans(payload)
}

// The sizes in the record, or the first fault.
fn spans(payload: &[u8]) -> Result<RecordSpans, RecordFault>
    ensures { result ≡ spans_of payload.now }
{
    let layout = read_layout(payload)?;
    Ok(layout.spans)
}

// The layout of the record at the front of the payload, and where its values are.
pub fn read_layout(payload: &[u8]) -> Result<Layout, RecordFault>
    ensures exact { result ≡ layout_of payload.now }
    ensures values { IfOk result (λ l. HasValues payload.now l) }
    ensures no_memory { IsErrOf result RecordFault.Memory → ⊥ }
{
    layout_at(payload)
}

// The layout of the record at the front of the payload.
#[tactic(auto, unfolding(crate::specs::Record::header_at, crate::specs::Record::checked))]
fn layout_at(payload: &[u8]) -> Result<Layout, RecordFault>
    ensures exact { result ≡ layout_of payload.now }
{
    let Some((size, start)) = read_varint(payload, 0) else {
        return Err(RecordFault::HeaderBad);
    };
    if size < start as u64 || size > payload.len() as u64 {
        return Err(RecordFault::HeaderBad);
    }
    let header = size as usize;
    let Some(tally) = tally_types(&payload[start..header], payload.len() - header) else {
        return Err(RecordFault::HeaderBad);
    };
    if tally.fields > MAX_FIELDS {
        return Err(RecordFault::TooManyFields);
    }
    if tally.reserved {
        return Err(RecordFault::Reserved);
    }
    let Some(bodies) = tally.bodies else {
        return Err(RecordFault::BodyShort);
    };
    let spans = RecordSpans {
        fields: tally.fields as u32,
        header,
        used: header + bodies,
    };
    Ok(Layout { start, spans })
}

// What the serial types that fill the bytes say together. `None` where the bytes end inside one.
fn tally_types(types: &[u8], room: usize) -> Option<Tally>
    ensures { result ≡ option_map (tally_of room) (types_in types.now) }
{
    let mut tally = Tally {
        fields: 0,
        reserved: false,
        bodies: Some(0),
    };
    let mut at = 0;
    'types: while at < types.len() {
        let Some((kind, len)) = read_varint(types, at) else {
            return None;
        };
        tally = add_type(tally, kind, room);
        at += len;
    }
    Some(tally)
}

// What the serial types say with one more.
fn add_type(tally: Tally, kind: u64, room: usize) -> Tally
    requires few { tally.fields + 1 < 2 ^ 64 }
    requires there { IfSome tally.bodies (λ used. used ≤ room) }
    ensures fields { result.fields ≡ tally.fields + 1 }
    ensures reserved { result.reserved ≡ (tally.reserved || is_reserved kind) }
    ensures bodies { result.bodies ≡ more_within room tally.bodies (body_len kind) }
{
    Tally {
        fields: tally.fields + 1,
        reserved: tally.reserved || kind == 10 || kind == 11,
        bodies: add_body(tally.bodies, body_len(kind), room),
    }
}

// The length with one body more, where there is room for it.
fn add_body(bodies: Option<usize>, more: u64, room: usize) -> Option<usize>
    requires { IfSome bodies (λ used. used ≤ room) }
    ensures { result ≡ more_within room bodies more }
{
    let used = bodies?;
    if more > (room - used) as u64 {
        return None;
    }
    Some(used + more as usize)
}

/// The length of the body of a serial type.
#[tactic(auto, unfolding(crate::specs::Record::body_len))]
pub fn body_len(kind: u64) -> u64
    ensures value { result ≡ body_len kind }
    ensures short { kind < 12 → result ≤ 8 }
{
    match kind {
        0..=4 => kind,
        5 => 6,
        6 | 7 => 8,
        8..=11 => 0,
        _ => (kind - 12) / 2,
    }
}
