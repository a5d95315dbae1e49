//! What the lines of all texts are made of (docs/TEXTS.md, "Listings").
#![tactic(auto)]

mod pieces;
mod words;

pub use pieces::{Line, add, place, put_hex};
pub use words::cause_word;
