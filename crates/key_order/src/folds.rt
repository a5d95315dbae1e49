//! Keys as their collations see them, in an order for maps and for sorting.

ghost use Rattle.std.specs.Prelude.{◌≡◌, ◌++◌, ◌∷◌, [], IfOk, OnOk, refl};
ghost use Rattle.std.specs.Cmp.{partial_equiv_from_equiv, partial_order_from_total};
ghost use Rattle.std.specs.Cmp.Lexicographic.{slice_cmp};
ghost use Rattle.std.specs.Ordering.{as_partial_cmp, eq_by_cmp};
ghost use Rattle.key_order.specs.Order.{folded, folded_text, value_cmp};
ghost use Rattle.key_order.specs.Totals.{folds_alike, folds_total};

use crate::{Coll, value_order, without_end_spaces};
use record_core::{Bytes, Value};
use std::alloc::{AllocError, Global};
use std::cmp::Ordering;
use std::marker::Model;

/// The value as the collation sees it: under [`Coll::NoCase`] a text with small letters in place of
/// the capitals of ASCII, under [`Coll::RTrim`] a text without the spaces at its end.
pub fn fold(alloc: Global, value: &Value, coll: Coll) -> Result<Value, AllocError>
    ensures value { IfOk result (λ v. v ≡ folded coll value.now) }
{
    Ok(match value {
        Value::Null => Value::Null,
        Value::Whole(number) => Value::Whole(*number),
        Value::Real8(bytes) => Value::Real8(*bytes),
        Value::Text(text) => Value::Text(fold_text(alloc, text.as_slice(), coll)?),
        Value::Blob(bytes) => Value::Blob(Bytes::copy_of(alloc, bytes.as_slice())?),
    })
}

fn fold_text(alloc: Global, text: &[u8], coll: Coll) -> Result<Bytes, AllocError>
    ensures { IfOk result (λ t. t ≡ folded_text coll text.now) }
{
    Ok(match coll {
        Coll::Binary => Bytes::copy_of(alloc, text)?,
        Coll::NoCase => Bytes::of(text.to_ascii_lowercase(alloc)?),
        Coll::RTrim => Bytes::copy_of(alloc, without_end_spaces(text))?,
    })
}

/// A key of folded values. Its order is total and has no conditions: by the first place that differs, as
/// [`compare`](crate::compare) orders the keys that were folded.
#[derive(Debug, Drop)]
pub struct FoldedKey {
    // The first value stands apart: a key of one value takes no memory of its own, and most comparisons end at it.
    first: Option<Value>,
    rest: Vec<Value>,
}

impl Model for FoldedKey {
    ghost use Rattle.std.specs.Prelude.{◌≡◌, ◌++◌, [], None};
    ghost use Rattle.std.specs.Option.{option_to_list};
    ghost use Rattle.key_order.specs.Folds.{Folds};

    ghost Value = { Folds };

    ghost view = { λ k. option_to_list k.first ++ k.rest.items };

    ghost invariant = { λ k. k.first ≡ None → k.rest.items ≡ [] };
}

impl FoldedKey {
    /// A key without values. Takes no memory.
    pub fn new(alloc: Global) -> FoldedKey
        ensures { result ≡ [] }
    {
        FoldedKey {
            first: None,
            rest: Vec::new(alloc),
        }
    }

    /// Appends a value, which is folded. Takes no memory for the first one.
    pub fn push(&mut self, value: Value) -> Result<(), AllocError>
        ensures value { OnOk result (self.new ≡ self.old ++ value ∷ []) }
    {
        if self.first.is_none() {
            self.first = Some(value);
            return Ok(());
        }
        self.rest.push(value)?;
        Ok(())
    }
}

impl PartialEq for FoldedKey {
    ghost eq = { eq_by_cmp (slice_cmp value_cmp) };

    ghost laws = { partial_equiv_from_equiv folds_alike };

    fn eq(&self, other: &FoldedKey) -> bool {
        self.cmp(other) == Ordering::Equal
    }
}

impl Eq for FoldedKey {
    ghost laws = { folds_alike };
}

impl PartialOrd for FoldedKey {
    ghost partial_cmp = { as_partial_cmp (slice_cmp value_cmp) };

    ghost laws = { partial_order_from_total folds_total };

    fn partial_cmp(&self, other: &FoldedKey) -> Option<Ordering> {
        Some(self.cmp(other))
    }
}

impl Ord for FoldedKey {
    ghost cmp = { slice_cmp value_cmp };

    ghost total = { folds_total };

    ghost matches_partial_cmp = { λ _ _. refl };

    ghost matches_eq = { λ _ _. refl };

    fn cmp(&self, other: &FoldedKey) -> Ordering {
        match (&self.first, &other.first) {
            (Some(a), Some(b)) => match value_order(a, b, Coll::Binary) {
                Ordering::Equal => folds_order(self.rest.as_slice(), other.rest.as_slice()),
                order => order,
            },
            (Some(_), None) => Ordering::Greater,
            (None, Some(_)) => Ordering::Less,
            (None, None) => Ordering::Equal,
        }
    }
}

// The order of two lists of folded values.
fn folds_order(a: &[Value], b: &[Value]) -> Ordering
    ensures { result ≡ slice_cmp value_cmp a.now b.now }
{
    let mut i = 0;
    while i < a.len() && i < b.len() {
        let order = value_order(&a[i], &b[i], Coll::Binary);
        if order != Ordering::Equal {
            return order;
        }
        i += 1;
    }
    a.len().cmp(&b.len())
}
