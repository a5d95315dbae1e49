//! The values of a record.

ghost use Rattle.std.specs.Prelude.{◌≡◌, ℕ, List, IfOk};

use std::alloc::{AllocError, Global};
use std::marker::Model;

/// Bytes of their own, as a text or a blob has them.
#[derive(Debug, Drop)]
pub struct Bytes {
    items: Vec<u8>,
}

impl Model for Bytes {
    ghost Value = { List ℕ };

    ghost view = { λ b. b.items.items };
}

impl Bytes {
    /// A copy of the bytes.
    pub fn copy_of(alloc: Global, from: &[u8]) -> Result<Bytes, AllocError>
        ensures { IfOk result (λ b. b ≡ from.now) }
    {
        Ok(Bytes {
            items: Vec::from_slice(alloc, from)?,
        })
    }

    /// These bytes. Takes no memory.
    pub fn of(items: Vec<u8>) -> Bytes
        ensures { result ≡ items.items }
    {
        Bytes { items }
    }

    pub fn as_slice(&self) -> &[u8]
        ensures { result.now ≡ self.now }
    {
        self.items.as_slice()
    }
}

/// A value of a record, as it is stored (fileformat2.html, 2.1).
#[derive(Debug, Drop)]
pub enum Value {
    Null,
    Whole(i64),
    /// The eight bytes of a floating point number, the highest first, as they stand in the file.
    Real8([u8; 8]),
    /// The bytes of a text, in the encoding of the file.
    Text(Bytes),
    Blob(Bytes),
}

impl Value {
    /// An equal value.
    pub fn copy(&self, alloc: Global) -> Result<Value, AllocError>
        ensures { IfOk result (λ v. v ≡ self.now) }
    {
        Ok(match self {
            Value::Null => Value::Null,
            Value::Whole(number) => Value::Whole(*number),
            Value::Real8(bytes) => Value::Real8(*bytes),
            Value::Text(bytes) => Value::Text(Bytes::copy_of(alloc, bytes.as_slice())?),
            Value::Blob(bytes) => Value::Blob(Bytes::copy_of(alloc, bytes.as_slice())?),
        })
    }
}
