//! The table of cells that no table has (docs/FORMAT.md, "The table of lost cells").
#![tactic(auto)]

mod laws;
mod names;
mod rows;
mod shapes;
mod tables;
mod texts;

pub use laws::{the_name_is_one, the_name_is_the_first_that_is_free, the_text_says_the_shape};
pub use tables::{LostTable, lost_table};

#[cfg(test)]
mod tests;
