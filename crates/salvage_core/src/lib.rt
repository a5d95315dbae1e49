//! The salvage of a file: all that its bytes give, gathered, and the three files that are made of it
//! (docs/ARCHITECTURE.md, "Order of use").
#![tactic(auto)]

mod assemble;
mod faults;
mod fronts;
mod gathered;
mod gathers;
mod laws;
mod lost;
mod options;
mod recovers;
mod uses;

pub use faults::Fault;
pub use gathered::Gathered;
pub use gathers::gather;
pub use laws::a_well_formed_input_is_never_barred;
pub use options::Options;
pub use recovers::{Summary, recover};

#[cfg(test)]
mod tests;
