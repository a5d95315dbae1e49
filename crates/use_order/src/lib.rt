//! The use of each page by the schema, by the trees of its tables and indexes, and by the overflow chains of
//! their cells: the first part of the order of use (docs/ARCHITECTURE.md, "Order of use").
#![tactic(auto)]

mod laws;
mod uses;
mod wants;

pub use laws::each_page_has_one_use;
pub use uses::{FileUses, find_uses};

/// The list of a page table that holds the pages of the tables' trees.
pub const TABLE_LIST: u32 = 2;

/// The list of a page table that holds the pages of the indexes' trees.
pub const INDEX_LIST: u32 = 3;

#[cfg(test)]
mod tests;
