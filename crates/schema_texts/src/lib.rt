//! What the texts of a schema's table rows say: the shape of each table that is built, and why the others are not
//! (docs/FORMAT.md, "Tables that are not built").
#![tactic(auto)]

mod causes;
mod readings;
mod rows;

pub use causes::kind_of;
pub use readings::{Reading, TableReading};
pub use rows::read_tables;

#[cfg(test)]
mod tests;
