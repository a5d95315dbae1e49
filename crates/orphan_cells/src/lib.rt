//! What the cells of orphan trees give: the cells that no table has, those that are not read, and the lines of the
//! orphan trees in the report (docs/ARCHITECTURE.md, "Order of use").
#![tactic(auto)]

mod cells;

pub use cells::{OrphanCells, orphan_cells};

#[cfg(test)]
mod tests;
