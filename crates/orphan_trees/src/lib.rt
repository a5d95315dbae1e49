//! The trees of pages that have a shape and no other use (docs/ARCHITECTURE.md, "Order of use").
#![tactic(auto)]

mod laws;
mod marks;
mod passes;
mod trees;

pub use laws::each_orphan_page_is_in_one_tree;
pub use trees::{OrphanTree, orphans};

/// The list of a page table that holds the pages of orphan trees.
pub const ORPHAN_LIST: u32 = 6;

#[cfg(test)]
mod tests;
