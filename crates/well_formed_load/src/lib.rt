//! The load of what a well-formed file spells (docs/FORMAT.md, "A well-formed file"). Laws alone.
#![tactic(auto)]

mod laws;

pub use laws::a_well_formed_file_has_a_small_load;
