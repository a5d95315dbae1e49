//! What the table rows of a schema and the cells of their trees give: the tables that are built, and where
//! each row comes from; the cells that no table has; the texts of the script; the lines of the report
//! (docs/ARCHITECTURE.md, "Rows of a table").
#![tactic(auto)]

mod failures;
mod laws;
mod places;
mod salvage;
mod tables;
mod texts;

pub use failures::add_failed;
pub use laws::each_readable_cell_is_stored_or_lost;
pub use places::{FailedEntry, LostCell, Placed, ScriptText};
pub use salvage::{SalvagedTables, salvage_tables};
pub use tables::add_lost;

#[cfg(test)]
mod tests;
