//! A well-formed file comes back whole (docs/FORMAT.md, "A well-formed file"). Laws alone.
#![tactic(auto)]

mod laws;

pub use laws::{
    a_well_formed_file_comes_back, the_header_of_a_well_formed_file_is_found,
    the_pages_of_a_file_are_all,
};
