//! Well-formed database files, and what they spell (docs/FORMAT.md, "A well-formed file").
#![tactic(auto)]

mod laws;

pub use laws::a_file_spells_one_database;
