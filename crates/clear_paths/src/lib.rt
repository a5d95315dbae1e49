//! Rows on clear paths come back, whatever else a file holds (docs/FORMAT.md, "Clear paths").
//! Definitions and their laws.
#![tactic(auto)]

mod laws;

pub use laws::{clear_cells_are_read, clear_rows_come_back, touched_pages_are_listed};
