//! What becomes of a table: its rows and the cells that are none, or why it is not built, and its lines of the
//! report (docs/TEXTS.md, "The report").
#![tactic(auto)]

mod cells;
mod laws;
mod lines;
mod parts;

pub use cells::{TableCells, cells_of};
pub use laws::each_cell_is_kept_or_lost;
pub use lines::{lines_of, unread_lines};
pub use parts::{TablePart, part_of};

#[cfg(test)]
mod tests;
