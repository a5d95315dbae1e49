//! The name of the table, and those of its columns.
ghost use Rattle.std.specs.Prelude.{◌≡◌, length, IfOk};
ghost use Rattle.std.specs.Str.{str_to_ascii_lowercase};
ghost use Rattle.table_shape.specs.Names.{is_named};
ghost use Rattle.lost_found.specs.Names.{free_from, lost_name, numbered};
ghost use Rattle.lost_found.specs.Small.{HasSmall, has_text};
ghost use Rattle.lost_found.specs.Texts.{field_name};

use itoa::Buffer;
use record_core::Bytes;
use std::alloc::{AllocError, Global};
use std::collections::BTreeSet;

/// The name beside these: the base, or the base with the first number with which it is free.
pub(crate) fn lost_name(alloc: Global, base: &[u8], names: &[Bytes]) -> Result<Bytes, AllocError>
    ensures { IfOk result (λ b. b ≡ lost_name base.now names.now) }
{
    let small = small_names(alloc, names)?;
    if is_taken(alloc, base, names, &small)? {
        first_free(alloc, base, names, &small)
    } else {
        Bytes::copy_of(alloc, base)
    }
}

// The names in small letters.
fn small_names(alloc: Global, names: &[Bytes]) -> Result<BTreeSet<Vec<u8>>, AllocError>
    ensures { IfOk result (λ s. HasSmall names.now s) }
{
    let mut small = BTreeSet::new(alloc);
    for name in names {
        let _new = small.insert(small_letters(alloc, name.as_slice())?)?;
    }
    Ok(small)
}

fn small_letters(alloc: Global, name: &[u8]) -> Result<Vec<u8>, AllocError>
    ensures { IfOk result (λ v. v.items ≡ str_to_ascii_lowercase name.now) }
{
    let mut letters = Vec::with_capacity(alloc, name.len())?;
    for byte in name {
        letters.push(byte.to_ascii_lowercase())?;
    }
    Ok(letters)
}

// Whether one of the names is the same as this; `small` has them in small letters.
fn is_taken(
    alloc: Global,
    name: &[u8],
    names: &[Bytes],
    small: &BTreeSet<Vec<u8>>,
) -> Result<bool, AllocError>
    requires { HasSmall names.now small.now }
    ensures { IfOk result (λ t. t ≡ is_named name.now names.now) }
{
    let letters = small_letters(alloc, name)?;
    Ok(small.contains(letters.as_slice()))
}

// The base with the first number with which it is free, where the base is not.
fn first_free(
    alloc: Global,
    base: &[u8],
    names: &[Bytes],
    small: &BTreeSet<Vec<u8>>,
) -> Result<Bytes, AllocError>
    requires { HasSmall names.now small.now }
    ensures { IfOk result (λ b. b
        ≡ numbered base.now (free_from (length names.now) 0 base.now names.now)) }
{
    for number in 0..names.len() {
        let name = numbered(alloc, base, number)?;
        if !is_taken(alloc, name.as_slice(), names, small)? {
            return Ok(Bytes::of(name));
        }
    }
    Ok(Bytes::of(numbered(alloc, base, names.len())?))
}

// A base with a number behind it.
fn numbered(alloc: Global, base: &[u8], number: usize) -> Result<Vec<u8>, AllocError>
    ensures { IfOk result (λ v. v.items ≡ numbered base.now number) }
{
    let mut name = Vec::from_slice(alloc, base)?;
    name.extend_from_slice(Buffer::new().format(number).as_bytes())?;
    Ok(name)
}

/// The name of the column of a field, counted from 0.
pub(crate) fn field_name(alloc: Global, field: usize) -> Result<Vec<u8>, AllocError>
    ensures { IfOk result (λ v. v.items ≡ field_name field) }
{
    numbered(alloc, b"c", field)
}
