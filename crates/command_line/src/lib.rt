//! The command line: which words are a command, and what they ask for.
#![tactic(auto)]

mod names;
mod numbers;
mod options;
mod request;
mod words;

pub use request::{InputFile, Listing, Recovery, Request, Trial};
pub use words::{WordsFault, read_words};

#[cfg(test)]
mod tests;
