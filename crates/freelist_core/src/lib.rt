//! The pages of the freelist (fileformat2.html, 1.5).
#![tactic(auto)]

mod laws;
mod marks;
mod trunks;

pub use laws::free_pages_are_trunks;
pub use marks::mark_free;

/// The list of free pages (docs/ARCHITECTURE.md, "Page lists").
pub const FREE_LIST: u32 = 5;

#[cfg(test)]
mod tests;
