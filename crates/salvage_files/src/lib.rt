//! The files that a salvage makes: the database, the script and the report (docs/TEXTS.md, "The files of
//! `recover`").
#![tactic(auto)]

mod writes;

pub use writes::{write_database, write_report, write_script};
