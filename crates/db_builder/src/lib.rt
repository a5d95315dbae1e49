//! A whole database file, written of tables and their rows (docs/FORMAT.md, "Layout of a written
//! file").
#![tactic(auto)]

mod databases;
mod faults;
mod headers;
mod indexes;
mod labels;
mod laws;
mod loads;
mod orders;
mod places;
mod planners;
mod plans;
mod rows;
mod schema;
mod writes;

pub use databases::OutDb;
pub use faults::{BuildFault, PrepareFault};
pub use laws::a_valid_database_can_be_prepared;
pub use loads::{a_valid_database_has_few_values, load_of};
pub use plans::{Prepared, plan_file, prepare};
pub use writes::build;

#[cfg(test)]
mod tests;
