//! The schema of a file: the rows of its schema table, as they stand (docs/FORMAT.md, "The schema").
#![tactic(auto)]

mod entries;
mod laws;
mod reading;
mod rows;

pub use laws::rows_are_spelled;
pub use reading::{RawSchema, read_schema};
pub use rows::{SchemaKind, SchemaRow};

/// The list of a page table that holds the pages of the schema's tree.
pub const SCHEMA_LIST: u32 = 1;

#[cfg(test)]
mod tests;
