//! The pages of a tree, from its entries: which cells stand on which page, and the bytes of each page
//! (docs/FORMAT.md, "Layout of a written file").
#![tactic(auto)]

mod bytes;
mod cells;
mod entries;
mod groups;
mod numbering;
mod plans;
mod sheets;
mod sizes;

pub use entries::Entries;
pub use numbering::Numbering;
pub use plans::TreePlan;

#[cfg(test)]
mod tests;
