ghost use Rattle.std.specs.Prelude.{◌≡◌, ◌&&◌, [], ◌∷◌};
ghost use Rattle.key_order.specs.declared.Coll.TheVariants.{Binary};
ghost use Rattle.key_order.specs.Order.{is_orderable};

use super::*;
use record_core::Bytes;
use std::alloc::AllocError;
use std::test::*;

// A key of two values.
#[derive(Clone, Copy)]
struct Pair<'a> {
    first: &'a Value,
    second: &'a Value,
}

impl Fields for Pair<'_> {
    ghost values = { λ p. p.first.now ∷ p.second.now ∷ [] };

    fn count(&self) -> usize {
        2
    }

    fn field(&self, i: usize) -> &Value {
        if i == 0 { self.first } else { self.second }
    }
}

fn fits(pair: Pair<'_>, coll: Coll) -> bool
    ensures { result ≡ (is_orderable coll pair.entry.first.now && is_orderable Binary pair.entry.second.now) }
{
    orderable(pair.first, coll) && orderable(pair.second, Coll::Binary)
}

// The order of two keys, the second place under BINARY; none where a value has no order.
fn order(a: Pair<'_>, b: Pair<'_>, coll: Coll) -> Option<Ordering> {
    if fits(a, coll) && fits(b, coll) {
        Some(compare(&a, &b, &[coll, Coll::Binary]))
    } else {
        None
    }
}

// The order of two values, each before a NULL.
fn order_of(a: &Value, b: &Value, coll: Coll) -> Option<Ordering> {
    let null = Value::Null;
    let first = Pair {
        first: a,
        second: &null,
    };
    let second = Pair {
        first: b,
        second: &null,
    };
    order(first, second, coll)
}

fn text(rt: &HostRuntime, bytes: &[u8]) -> Result<Value, AllocError> {
    Ok(Value::Text(Bytes::copy_of(rt.alloc(), bytes)?))
}

fn blob(rt: &HostRuntime, bytes: &[u8]) -> Result<Value, AllocError> {
    Ok(Value::Blob(Bytes::copy_of(rt.alloc(), bytes)?))
}

// The expected answers are read off fileformat2.html, 2.2, and datatype3.html, 7.

#[test]
fn case_counts_under_binary_alone(rt: HostRuntime) -> Result<(), Fail> {
    let (a, b) = (text(&rt, b"Ab")?, text(&rt, b"aB")?);
    assert_eq!(rt; order_of(&a, &b, Coll::NoCase), Some(Ordering::Equal));
    assert_eq!(rt; order_of(&a, &b, Coll::Binary), Some(Ordering::Less));
    assert_eq!(rt; order_of(&b, &a, Coll::RTrim), Some(Ordering::Greater));
    Ok(())
}

#[test]
fn spaces_at_the_end_count_unless_under_rtrim(rt: HostRuntime) -> Result<(), Fail> {
    let (a, b) = (text(&rt, b"a ")?, text(&rt, b"a")?);
    assert_eq!(rt; order_of(&a, &b, Coll::RTrim), Some(Ordering::Equal));
    assert_eq!(rt; order_of(&a, &b, Coll::Binary), Some(Ordering::Greater));
    let tab = text(&rt, b"a\t")?;
    assert_eq!(rt; order_of(&tab, &b, Coll::RTrim), Some(Ordering::Greater));
    Ok(())
}

#[test]
fn classes_rise_from_null_to_blobs(rt: HostRuntime) -> Result<(), Fail> {
    let rising = [
        Value::Null,
        Value::Whole(-1),
        Value::Whole(0),
        text(&rt, b"")?,
        text(&rt, b"a")?,
        text(&rt, b"a\0")?,
        text(&rt, b"b")?,
        blob(&rt, b"")?,
        blob(&rt, b"a")?,
    ];
    for (i, a) in rising.iter().enumerate() {
        for (j, b) in rising.iter().enumerate() {
            assert_eq!(rt; order_of(a, b, Coll::Binary), Some(i.cmp(&j)));
        }
    }
    Ok(())
}

#[test]
fn the_first_place_that_differs_decides(rt: HostRuntime) {
    let (one, two) = (Value::Whole(1), Value::Whole(2));
    let a = Pair {
        first: &one,
        second: &two,
    };
    let b = Pair {
        first: &two,
        second: &one,
    };
    let c = Pair {
        first: &one,
        second: &one,
    };
    assert_eq!(rt; order(a, b, Coll::NoCase), Some(Ordering::Less));
    assert_eq!(rt; order(a, c, Coll::NoCase), Some(Ordering::Greater));
    assert_eq!(rt; order(b, b, Coll::NoCase), Some(Ordering::Equal));
}

#[test]
fn reals_and_texts_with_a_zero_byte_may_have_no_order(rt: HostRuntime) -> Result<(), Fail> {
    let zero = text(&rt, b"a\0b")?;
    assert!(rt; orderable(&zero, Coll::Binary));
    assert!(rt; orderable(&zero, Coll::RTrim));
    assert!(rt; !orderable(&zero, Coll::NoCase));
    let real = Value::Real8([0x3f, 0xf8, 0, 0, 0, 0, 0, 0]);
    assert!(rt; !orderable(&real, Coll::Binary));
    assert!(rt; orderable(&blob(&rt, b"\0")?, Coll::NoCase));
    assert!(rt; orderable(&Value::Null, Coll::NoCase));
    Ok(())
}

// The folded key of one value.
fn folded(rt: &HostRuntime, value: &Value, coll: Coll) -> Result<FoldedKey, AllocError> {
    let mut key = FoldedKey::new(rt.alloc());
    key.push(fold(rt.alloc(), value, coll)?)?;
    Ok(key)
}

#[test]
fn folded_keys_need_no_collation(rt: HostRuntime) -> Result<(), Fail> {
    let a = folded(&rt, &text(&rt, b"aBC\xc4\0")?, Coll::NoCase)?;
    assert!(rt; a == folded(&rt, &text(&rt, b"abc\xc4\0")?, Coll::Binary)?);
    assert!(rt; a != folded(&rt, &text(&rt, b"abc\xc4")?, Coll::Binary)?);
    let b = folded(&rt, &text(&rt, b"abc ")?, Coll::Binary)?;
    let c = folded(&rt, &text(&rt, b"abc  ")?, Coll::RTrim)?;
    assert_eq!(rt; b.cmp(&c), Ordering::Greater);
    assert!(rt; c == folded(&rt, &text(&rt, b"abc")?, Coll::Binary)?);
    let real = folded(
        &rt,
        &Value::Real8([0x3f, 0xf8, 0, 0, 0, 0, 0, 0]),
        Coll::Binary,
    )?;
    assert_eq!(rt; real.cmp(&c), Ordering::Greater);
    assert_eq!(rt; FoldedKey::new(rt.alloc()).cmp(&real), Ordering::Less);
    assert_eq!(rt; real.cmp(&FoldedKey::new(rt.alloc())), Ordering::Greater);
    Ok(())
}

#[test]
fn folded_keys_with_one_first_value_are_told_apart_by_the_next(
    rt: HostRuntime,
) -> Result<(), Fail> {
    let short = folded(&rt, &Value::Whole(7), Coll::Binary)?;
    let mut low = folded(&rt, &Value::Whole(7), Coll::Binary)?;
    low.push(Value::Null)?;
    let mut high = folded(&rt, &Value::Whole(7), Coll::Binary)?;
    high.push(Value::Whole(-1))?;
    assert_eq!(rt; low.cmp(&high), Ordering::Less);
    assert_eq!(rt; high.cmp(&low), Ordering::Greater);
    assert_eq!(rt; short.cmp(&low), Ordering::Less);
    Ok(())
}
