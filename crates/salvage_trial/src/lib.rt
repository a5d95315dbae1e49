//! A trial of the whole salvage: a database is made by rule, its file is salvaged whole and with a page of
//! zeros, and two lines tell what came back (docs/FORMAT.md, "The database of a trial").
#![tactic(auto)]

mod faults;
mod files;
mod lines;
mod salvages;
mod sinks;
mod trials;

pub use faults::TrialFault;
pub use trials::trial;

#[cfg(test)]
mod tests;
