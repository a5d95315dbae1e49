//! Values in a row, wherever they lie.

ghost use Rattle.std.specs.Prelude.{◌≡◌, ◌<◌, List, length, slice_index_or};
ghost use Rattle.record_core.specs.declared.values.Value.{Value};

use crate::values::Value;

/// Values in a row, which may lie apart. No call takes memory.
pub trait Fields {
    // The values, in order.
    ghost values: { Self → List Value };

    /// How many values there are.
    fn count(&self) -> usize
        ensures { result ≡ length (values self.now) };

    /// The value with this number, counted from 0.
    fn field(&self, i: usize) -> &Value
        requires { i < length (values self.now) }
        ensures { result.now ≡ slice_index_or (values self.now) i result.now };
}

/// Values that lie one after another.
#[derive(Clone, Copy)]
pub struct FieldSlice<'a> {
    pub values: &'a [Value],
}

impl Fields for FieldSlice<'_> {
    ghost values = { λ s. s.values.now };

    fn count(&self) -> usize {
        self.values.len()
    }

    fn field(&self, i: usize) -> &Value {
        &self.values[i]
    }
}
