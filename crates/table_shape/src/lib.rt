//! The shape of a table, its keys, and the rows that fit it
//! (docs/FORMAT.md, "The shape of a table").
#![tactic(auto)]

mod columns;
mod keys;
mod names;
mod places;
mod rows;
mod shapes;

pub use columns::{Column, Key};
pub use keys::{KeyPart, KeyPlan, Spot, TablePlan, entry_parts, plan_keys};
pub use names::{is_reserved, same_name};
pub use places::{has_real_key, stored_at};
pub use rows::{OutRow, OutTable};
pub use shapes::TableShape;

#[cfg(test)]
mod tests;
