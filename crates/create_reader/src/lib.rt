//! From the bytes of a CREATE TABLE text to the shape of its table (docs/CREATE_TABLE.md).
#![tactic(auto)]

mod causes;
mod columns;
mod constraints;
mod faults;
mod laws;
mod meaning;
mod names;
mod numbers;
mod places;
mod reading;
mod texts;

pub use create_grammar::{Word, WordKind, words};
pub use faults::CreateFault;
pub use laws::{
    a_text_has_one_shape, the_shape_of_a_text_is_valid, what_is_read_is_related,
    what_is_related_is_read,
};
pub use reading::read_create;
pub use table_shape::{Column, Key, OutRow, OutTable, TableShape, stored_at};

#[cfg(test)]
mod tests;
