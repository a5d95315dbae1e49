//! Well-formed trees as a walk meets them: their pages row by row, and what becomes of their cells
//! (docs/FORMAT.md, "Trees"; docs/ARCHITECTURE.md, "Order of use"). Definitions and their laws.
#![tactic(auto)]

mod laws;

pub use laws::{a_tree_is_its_rows, the_cells_of_a_tree_take_their_turns, trees_are_walked};
