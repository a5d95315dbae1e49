//! Trees of pages: what a page says, what a well-formed tree is, and which cells and pages it has
//! (docs/FORMAT.md, "Trees"). Definitions and their laws, for the writer of trees and for their readers.
#![tactic(auto)]

mod laws;

pub use laws::{a_page_says_its_accepted_cells, a_root_has_one_tree};
