//! Overflow chains: the payload of a cell that does not fit its page goes on in pages that name one another.
#![tactic(auto)]

mod chains;
mod laws;

pub use chains::read_chain;
pub use laws::{turn_is_longest, whole_turn_is_chain};

/// The list of a page table that holds the pages of overflow chains.
pub const OVERFLOW_LIST: u32 = 4;

/// Why a chain breaks off.
#[derive(Clone, Copy, Debug, PartialEq, Eq)]
pub enum Why {
    /// The number is 0, or over the number of pages.
    Range,
    /// The page has a use already.
    Used,
}

/// How a chain ends.
#[derive(Clone, Copy, Debug, PartialEq, Eq)]
pub enum ChainEnd {
    /// All bytes are there.
    Whole,
    /// Bytes are missing, and the number that should name the next page names none to take.
    Broken {
        /// That number.
        at: u32,
        why: Why,
    },
}

#[cfg(test)]
mod tests;
