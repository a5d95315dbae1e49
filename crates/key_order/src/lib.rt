//! The order of keys: values under their collations (docs/FORMAT.md, "Order of keys").
#![tactic(auto)]

ghost use Rattle.std.specs.Prelude.{◌≡◌, ◌≢◌, List};
ghost use Rattle.std.specs.Cmp.{IsTotalOrder};
ghost use Rattle.std.specs.Cmp.Lexicographic.{slice_cmp};
ghost use Rattle.std.specs.Ordering.{nat_cmp, on, ordering_reverse};
ghost use Rattle.std.specs.Str.{str_to_ascii_lowercase};
ghost use Rattle.std.specs.declared.cmp.Ordering.TheVariants.{Equal, Greater};
ghost use Rattle.key_order.specs.Order.{AreOrderable, class, folded, folded_list, folded_text, has_order, is_orderable, keys_cmp, value_cmp, without_end_spaces};
ghost use Rattle.record_core.specs.declared.values.Value.{Value};

use record_core::{Fields, Value};
use std::cmp::Ordering;

mod folds;

pub use folds::{FoldedKey, fold};

#[cfg(test)]
mod tests;

/// A collation: how texts are compared.
#[derive(Debug, Clone, Copy, PartialEq, Eq)]
pub enum Coll {
    /// By bytes.
    Binary,
    /// By bytes, once the 26 capitals of ASCII are small letters.
    NoCase,
    /// By bytes, without the spaces at the end.
    RTrim,
}

/// Whether a value can be ordered: it is no floating point number, and no text with a zero byte
/// under [`Coll::NoCase`].
pub fn orderable(value: &Value, coll: Coll) -> bool
    ensures value { result ≡ is_orderable coll value.now }
{
    match value {
        Value::Null | Value::Whole(_) | Value::Blob(_) => true,
        Value::Real8(_) => false,
        Value::Text(text) => has_order(text.as_slice(), coll),
    }
}

/// Orders two keys by the first place that differs: NULL, whole numbers by value, texts, blobs
/// (fileformat2.html, 2.2). Each place has its collation.
pub fn compare<F: Fields>(a: &F, b: &F, colls: &[Coll]) -> Ordering
    requires first { AreOrderable colls.now (F.values a.now) }
    requires second { AreOrderable colls.now (F.values b.now) }
    ensures value { result ≡ keys_cmp colls.now (F.values a.now) (F.values b.now) }
{
    for (i, coll) in colls.iter().enumerate() {
        let order = value_order(a.field(i), b.field(i), *coll);
        if order != Ordering::Equal {
            return order;
        }
    }
    Ordering::Equal
}

/// Each key is equal to itself.
pub fn the_order_is_reflexive()
    ensures { (colls : List Coll) (a : List Value) → keys_cmp colls a a ≡ Equal }
{}

/// What is at most a second key is at most all that this is at most.
pub fn the_order_is_transitive()
    ensures { (colls : List Coll) (a b c : List Value) → keys_cmp colls a b ≢ Greater
        → keys_cmp colls b c ≢ Greater → keys_cmp colls a c ≢ Greater }
{}

/// Two keys compare one way and back alike, so that one of them is always at most the other.
pub fn the_order_is_total()
    ensures back { (colls : List Coll) (a b : List Value)
        → keys_cmp colls a b ≡ ordering_reverse (keys_cmp colls b a) }
    ensures laws { (colls : List Coll) → IsTotalOrder (keys_cmp colls) }
{}

/// Two keys are equal exactly where their folded values are the same.
pub fn equal_keys_are_folded_alike()
    ensures same { (colls : List Coll) (a b : List Value) → AreOrderable colls a
        → AreOrderable colls b → keys_cmp colls a b ≡ Equal
        → folded_list colls a ≡ folded_list colls b }
    ensures equal { (colls : List Coll) (a b : List Value)
        → folded_list colls a ≡ folded_list colls b → keys_cmp colls a b ≡ Equal }
{}

/// Folded keys are in the order of the keys that were folded.
pub fn folded_keys_keep_the_order()
    ensures order { (colls : List Coll) (a b : List Value)
        → slice_cmp value_cmp (folded_list colls a) (folded_list colls b) ≡ keys_cmp colls a b }
    ensures laws { IsTotalOrder (slice_cmp value_cmp) }
{}

// Whether a text can be ordered under the collation.
fn has_order(text: &[u8], coll: Coll) -> bool
    ensures { result ≡ has_order coll text.now }
{
    match coll {
        Coll::Binary | Coll::RTrim => true,
        Coll::NoCase => !text.contains(&0),
    }
}

/// Orders two values as the collation sees them, where they lie: takes no memory and has no conditions. A
/// floating point number comes behind all other values, and any two of them are equal here.
pub fn value_order(a: &Value, b: &Value, coll: Coll) -> Ordering
    ensures value { result ≡ value_cmp (folded coll a.now) (folded coll b.now) }
{
    match (a, b) {
        (Value::Whole(m), Value::Whole(n)) => m.cmp(n),
        (Value::Text(s), Value::Text(t)) => text_order(s.as_slice(), t.as_slice(), coll),
        (Value::Blob(s), Value::Blob(t)) => s.as_slice().cmp(t.as_slice()),
        _ => class(a).cmp(&class(b)),
    }
}

fn class(value: &Value) -> u8
    ensures { result ≡ class value.now }
{
    match value {
        Value::Null => 0,
        Value::Whole(_) => 1,
        Value::Text(_) => 2,
        Value::Blob(_) => 3,
        Value::Real8(_) => 4,
    }
}

fn text_order(a: &[u8], b: &[u8], coll: Coll) -> Ordering
    ensures { result ≡ slice_cmp nat_cmp (folded_text coll a.now) (folded_text coll b.now) }
{
    match coll {
        Coll::Binary => a.cmp(b),
        Coll::NoCase => order_without_case(a, b),
        Coll::RTrim => without_end_spaces(a).cmp(without_end_spaces(b)),
    }
}

fn order_without_case(a: &[u8], b: &[u8]) -> Ordering
    ensures { result ≡ on str_to_ascii_lowercase (slice_cmp nat_cmp) a.now b.now }
{
    let first = a.iter().map(|byte| byte.to_ascii_lowercase());
    let second = b.iter().map(|byte| byte.to_ascii_lowercase());
    first.cmp(second)
}

fn without_end_spaces(text: &[u8]) -> &[u8]
    ensures { result.now ≡ without_end_spaces text.now }
{
    let mut len = text.len();
    while len > 0 && text[len - 1] == b' ' {
        len -= 1;
    }
    &text[..len]
}
