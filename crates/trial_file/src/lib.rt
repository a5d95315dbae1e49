//! The database of a trial: one table of any number of rows, made by rule (docs/FORMAT.md, "The database of
//! a trial").
#![tactic(auto)]

mod laws;
mod rows;
mod tables;

pub use laws::{
    the_database_of_a_trial_can_be_written, the_database_of_a_trial_is_small,
    the_text_of_a_trial_has_no_fault,
};
pub use tables::make_db;
