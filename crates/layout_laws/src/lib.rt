//! A written file is well-formed, and spells the database that was written.
#![tactic(auto)]

mod laws;
mod types;

pub use laws::{
    a_layout_is_whole, a_layout_spells_its_database, a_layout_spells_no_other,
    the_file_of_a_database_spells_it,
};
pub use types::numbers_are_typed;
