ghost use Rattle.std.specs.Prelude.{replicate};
ghost use Rattle.record_core.specs.Shortest.{IsWritable};

use super::*;
use std::test::*;

// The payloads are written out by hand from fileformat2.html, 2.1.

fn same_bytes(bytes: &Bytes, wanted: &[u8]) -> bool {
    bytes.as_slice() == wanted
}

fn fault_of(rt: &HostRuntime, payload: &[u8]) -> Option<RecordFault> {
    match read_record(rt.alloc(), payload) {
        Ok(_) => None,
        Err(fault) => Some(fault),
    }
}

// The number of a record that holds one number alone.
fn number_of(rt: &HostRuntime, payload: &[u8]) -> Option<i64> {
    let Ok(values) = read_record(rt.alloc(), payload) else {
        return None;
    };
    match values.as_slice() {
        [Value::Whole(number)] => Some(*number),
        _ => None,
    }
}

#[test]
fn a_number_and_a_text_are_read(rt: HostRuntime) -> Result<(), Fail> {
    let values = read_record(rt.alloc(), &[0x03, 0x01, 0x0f, 0x05, 0x78])
        .ok()
        .ok_or("5 and 'x'")?;
    assert_eq!(rt; values.len(), 2);
    assert!(rt; matches!(&values[0], Value::Whole(5)));
    assert!(rt; matches!(&values[1], Value::Text(text) if same_bytes(text, b"x")));
    Ok(())
}

// NULL, 0, 5, 1.5, a text of 40 bytes, a blob of two bytes and 'x', and a byte behind them.
const LONG_TEXT: &[u8] = &[
    0x08, 0x00, 0x08, 0x01, 0x07, 0x5d, 0x10, 0x0f, // the header
    0x05, 0x3f, 0xf8, 0, 0, 0, 0, 0, 0, // 5 and 1.5
    b'0', b'1', b'2', b'3', b'4', b'5', b'6', b'7', b'8', b'9', // the text
    b'a', b'b', b'c', b'd', b'e', b'f', b'g', b'h', b'i', b'j', //
    b'A', b'B', b'C', b'D', b'E', b'F', b'G', b'H', b'I', b'J', //
    b'9', b'8', b'7', b'6', b'5', b'4', b'3', b'2', b'1', b'0', //
    0xca, 0xfe, 0x78, 0x99,
];

fn are_of_long_text(values: &[Value]) -> bool {
    match values {
        [
            Value::Null,
            Value::Whole(0),
            Value::Whole(5),
            Value::Real8(real),
            Value::Text(long),
            Value::Blob(blob),
            Value::Text(short),
        ] => {
            *real == [0x3f, 0xf8, 0, 0, 0, 0, 0, 0]
                && same_bytes(long, b"0123456789abcdefghijABCDEFGHIJ9876543210")
                && same_bytes(blob, &[0xca, 0xfe])
                && same_bytes(short, b"x")
        }
        _ => false,
    }
}

fn taken(rt: &HostRuntime, payload: &[u8]) -> Result<Vec<Value>, RecordFault> {
    match Vec::from_slice(rt.alloc(), payload) {
        Ok(payload) => take_record(rt.alloc(), payload),
        Err(_) => Err(RecordFault::Memory),
    }
}

#[test]
fn a_long_text_among_short_values_is_read_and_taken(rt: HostRuntime) -> Result<(), Fail> {
    let read = read_record(rt.alloc(), LONG_TEXT)
        .ok()
        .ok_or("seven values")?;
    assert!(rt; are_of_long_text(&read));
    let taken = taken(&rt, LONG_TEXT).ok().ok_or("the same")?;
    assert!(rt; are_of_long_text(&taken));
    Ok(())
}

#[test]
fn a_long_blob_alone_is_taken(rt: HostRuntime) -> Result<(), Fail> {
    let values = taken(&rt, &[0x02, 0x12, 0xca, 0xfe, 0xba])
        .ok()
        .ok_or("a blob")?;
    assert!(rt;
        matches!(values.as_slice(), [Value::Blob(blob)] if same_bytes(blob, &[0xca, 0xfe, 0xba]))
    );
    Ok(())
}

#[test]
fn two_equal_texts_are_taken(rt: HostRuntime) -> Result<(), Fail> {
    let values = taken(&rt, &[0x03, 0x0f, 0x0f, 0x78, 0x79])
        .ok()
        .ok_or("'x' and 'y'")?;
    assert_eq!(rt; values.len(), 2);
    assert!(rt; matches!(&values[0], Value::Text(text) if same_bytes(text, b"x")));
    assert!(rt; matches!(&values[1], Value::Text(text) if same_bytes(text, b"y")));
    assert!(rt; matches!(taken(&rt, &[0x02, 0x0a]), Err(RecordFault::Reserved)));
    assert!(rt; matches!(taken(&rt, &[0x02, 0x0f]), Err(RecordFault::BodyShort)));
    Ok(())
}

#[test]
fn a_real_a_blob_and_a_null_are_read_and_copied(rt: HostRuntime) -> Result<(), Fail> {
    let payload = [
        0x04, 0x07, 0x10, 0x00, 0x3f, 0xf8, 0, 0, 0, 0, 0, 0, 0xca, 0xfe, 0x99,
    ];
    let values = read_record(rt.alloc(), &payload)
        .ok()
        .ok_or("1.5, a blob, NULL")?;
    assert_eq!(rt; values.len(), 3);
    for value in &values {
        let copied = value.copy(rt.alloc()).ok().ok_or("a copy")?;
        match copied {
            Value::Real8(bytes) => assert_eq!(rt; bytes, [0x3f, 0xf8, 0, 0, 0, 0, 0, 0]),
            Value::Blob(bytes) => assert!(rt; same_bytes(&bytes, &[0xca, 0xfe])),
            Value::Null => {}
            _ => assert!(rt; false),
        }
    }
    assert!(rt; matches!(&values[2], Value::Null));
    Ok(())
}

#[test]
fn no_values_and_single_numbers_are_read(rt: HostRuntime) -> Result<(), Fail> {
    let values = read_record(rt.alloc(), &[0x01]).ok().ok_or("no values")?;
    assert_eq!(rt; values.len(), 0);
    assert_eq!(rt; number_of(&rt, &[0x02, 0x09, 0xff]), Some(1));
    assert_eq!(rt; number_of(&rt, &[0x02, 0x08]), Some(0));
    assert_eq!(rt;
        number_of(&rt, &[0x02, 0x04, 0xff, 0xff, 0xff, 0xfe]),
        Some(-2)
    );
    Ok(())
}

#[test]
fn each_fault_is_the_first_that_holds(rt: HostRuntime) {
    assert_eq!(rt; fault_of(&rt, &[]), Some(RecordFault::HeaderBad));
    assert_eq!(rt; fault_of(&rt, &[0x02]), Some(RecordFault::HeaderBad));
    assert_eq!(rt;
        fault_of(&rt, &[0x02, 0x81, 0x00]),
        Some(RecordFault::HeaderBad)
    );
    assert_eq!(rt; fault_of(&rt, &[0x02, 0x0a]), Some(RecordFault::Reserved));
    assert_eq!(rt;
        fault_of(&rt, &[0x03, 0x0a, 0x01]),
        Some(RecordFault::Reserved)
    );
    assert_eq!(rt; fault_of(&rt, &[0x02, 0x01]), Some(RecordFault::BodyShort));
}

#[test]
fn a_record_has_1996_values_at_most(rt: HostRuntime) -> Result<(), Fail> {
    let mut payload = [0u8; 1999];
    payload[0] = 0x8f;
    payload[1] = 0x4f;
    assert_eq!(rt; fault_of(&rt, &payload), Some(RecordFault::TooManyFields));
    assert_eq!(rt; record_spans(&payload), Err(RecordFault::TooManyFields));
    payload[1] = 0x4e;
    let values = read_record(rt.alloc(), &payload[..1998])
        .ok()
        .ok_or("1,996 NULLs")?;
    assert_eq!(rt; values.len(), 1996);
    assert!(rt; values.iter().all(|v| matches!(v, Value::Null)));
    Ok(())
}

#[test]
fn the_sizes_of_a_record_are_told(rt: HostRuntime) {
    let told = record_spans(&[0x03, 0x01, 0x0f, 0x05, 0x78, 0x99]);
    let wanted = RecordSpans {
        fields: 2,
        header: 3,
        used: 5,
    };
    assert_eq!(rt; told, Ok(wanted));
    assert_eq!(rt;
        record_spans(&[0x02, 0x81, 0x00]),
        Err(RecordFault::HeaderBad)
    );
    assert_eq!(rt; record_spans(&[0x02, 0x0a]), Err(RecordFault::Reserved));
    assert_eq!(rt; record_spans(&[0x02, 0x01]), Err(RecordFault::BodyShort));
}

// One value, many times.
#[derive(Clone, Copy)]
struct Repeated<'a> {
    value: &'a Value,
    count: usize,
}

impl Fields for Repeated<'_> {
    ghost values = { λ s. replicate s.count s.value.now };

    fn count(&self) -> usize {
        self.count
    }

    fn field(&self, _i: usize) -> &Value {
        self.value
    }
}

// Writes the record into bytes of ee: the front is as wanted, and the rest is still ee.
fn is_front<F: Fields>(fields: &F, wanted: &[u8]) -> bool
    requires { IsWritable (F.values fields.now) }
{
    let mut to = [0xeeu8; 200];
    let len = record_len(fields);
    if len > to.len() {
        return false;
    }
    let written = write_record(fields, &mut to);
    let (front, rest) = to.split_at(len);
    written == len && front == wanted && rest.iter().all(|byte| *byte == 0xee)
}

fn is_written(values: &[Value], wanted: &[u8]) -> bool
    requires { IsWritable values.now }
{
    is_front(&FieldSlice { values }, wanted)
}

#[test]
fn a_number_and_a_text_are_written(rt: HostRuntime) -> Result<(), Fail> {
    let text = Bytes::copy_of(rt.alloc(), b"x").ok().ok_or("a text")?;
    let values = [Value::Whole(5), Value::Text(text)];
    assert!(rt; is_written(&values, &[0x03, 0x01, 0x0f, 0x05, 0x78]));
    Ok(())
}

#[test]
fn small_numbers_have_no_body_where_they_are_0_or_1(rt: HostRuntime) {
    let values = [
        Value::Whole(3),
        Value::Whole(4),
        Value::Whole(1),
        Value::Whole(1),
        Value::Whole(7),
    ];
    let wanted = [0x06, 0x01, 0x01, 0x09, 0x09, 0x01, 0x03, 0x04, 0x07];
    assert!(rt; is_written(&values, &wanted));
}

// A record of one number alone.
fn is_number(number: i64, wanted: &[u8]) -> bool {
    is_written(&[Value::Whole(number)], wanted)
}

#[test]
fn each_number_has_the_shortest_body(rt: HostRuntime) {
    assert!(rt; is_number(0, &[0x02, 0x08]));
    assert!(rt; is_number(-1, &[0x02, 0x01, 0xff]));
    assert!(rt; is_number(127, &[0x02, 0x01, 0x7f]));
    assert!(rt; is_number(128, &[0x02, 0x02, 0x00, 0x80]));
    assert!(rt; is_number(-129, &[0x02, 0x02, 0xff, 0x7f]));
    assert!(rt; is_number(32768, &[0x02, 0x03, 0x00, 0x80, 0x00]));
    assert!(rt; is_number(8388608, &[0x02, 0x04, 0x00, 0x80, 0x00, 0x00]));
    assert!(rt;
        is_number(
            -(1 << 47),
            &[0x02, 0x05, 0x80, 0x00, 0x00, 0x00, 0x00, 0x00]
        )
    );
    assert!(rt;
        is_number(
            1 << 47,
            &[0x02, 0x06, 0x00, 0x00, 0x80, 0x00, 0x00, 0x00, 0x00, 0x00]
        )
    );
    assert!(rt;
        is_number(
            -(1 << 47) - 1,
            &[0x02, 0x06, 0xff, 0xff, 0x7f, 0xff, 0xff, 0xff, 0xff, 0xff]
        )
    );
    assert!(rt;
        is_number(
            i64::MIN,
            &[0x02, 0x06, 0x80, 0x00, 0x00, 0x00, 0x00, 0x00, 0x00, 0x00]
        )
    );
}

#[test]
fn the_size_of_a_header_counts_its_own_bytes(rt: HostRuntime) {
    let null = Value::Null;
    let mut wanted = [0u8; 127];
    wanted[0] = 0x7f;
    let fields = Repeated {
        value: &null,
        count: 126,
    };
    assert!(rt; is_front(&fields, &wanted));
    let mut wanted = [0u8; 129];
    wanted[0] = 0x81;
    wanted[1] = 0x01;
    let fields = Repeated {
        value: &null,
        count: 127,
    };
    assert!(rt; is_front(&fields, &wanted));
}

// The length of a record of 4,000 texts of 100 bytes: types 213 in two bytes each, and so a header of
// 2 + 8,000 bytes.
fn size_of_4000(text: &Value) -> u128 {
    let fields = Repeated {
        value: text,
        count: 4000,
    };
    record_size(&fields)
}

#[test]
fn a_long_record_has_its_length(rt: HostRuntime) -> Result<(), Fail> {
    let text = Value::Text(Bytes::of(vec![in rt.alloc(); b'a'; 100].ok().ok_or("a text")?));
    assert_eq!(rt; size_of_4000(&text), 408_002);
    Ok(())
}
