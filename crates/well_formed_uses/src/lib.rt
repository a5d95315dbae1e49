//! The uses of the pages of a well-formed file: each takes its own pages, and what is left has no shape
//! (docs/ARCHITECTURE.md, "Order of use"; docs/FORMAT.md, "A well-formed file"). Definitions and their laws.
#![tactic(auto)]

mod laws;

pub use laws::{
    each_use_takes_its_own_pages, no_page_that_is_left_has_a_shape, stored_trees_are_walked,
};
