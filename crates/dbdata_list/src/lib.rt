//! The listings: a line for each value or each page number that a file holds (docs/TEXTS.md, "Listings").
#![tactic(auto)]

mod cells;
mod faults;
mod lines;
mod pointers;

pub use cells::list_data;
pub use faults::ListFault;
pub use pointers::list_pointers;
