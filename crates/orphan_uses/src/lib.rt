//! The uses of the pages that the schema and its trees leave: the pages of the freelist, the orphan trees, and the
//! overflow chains of the orphan trees' cells: the second part of the order of use (docs/ARCHITECTURE.md, "Order of
//! use").
#![tactic(auto)]

mod free;
mod laws;
mod turns;
mod uses;

pub use laws::each_left_page_has_one_use;
pub use uses::{OrphanUses, find_orphans};

#[cfg(test)]
mod tests;
