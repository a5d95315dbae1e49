//! The input of a command: it is attached, measured and cut into pages.
#![tactic(auto)]

mod faults;
mod inputs;

pub use faults::InputFault;
pub use inputs::{Input, is_utf16, open_input};

#[cfg(test)]
mod tests;
