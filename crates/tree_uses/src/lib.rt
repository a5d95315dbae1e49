//! Trees that are walked one after another, and the cells of their pages, each at its turn
//! (docs/ARCHITECTURE.md, "Order of use").
#![tactic(auto)]

mod laws;
mod reads;
mod walks;

pub use laws::{trees_are_unused, trees_take_turns};
pub use reads::{TreeTurns, read_trees};
pub use walks::{TreeUse, WantedTree, walk_trees};

#[cfg(test)]
mod tests;
