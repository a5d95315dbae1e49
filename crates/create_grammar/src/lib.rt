//! The words of a CREATE TABLE text, and their roles by its grammar (docs/CREATE_TABLE.md).
#![tactic(auto)]

ghost use Rattle.std.specs.Prelude.{◌≡◌, [], true};
ghost use Rattle.create_grammar.specs.Cover.{WordsCover};
ghost use Rattle.create_grammar.specs.Grammar.{table};
ghost use Rattle.word_grammar.specs.Reading.{is_plain};

mod classes;
mod columns;
mod pass;
mod reading;
mod roles;
mod shared;
mod sorts;
mod spans;
mod tables;

pub use reading::{GrammarFault, Said, read_words};
pub use roles::Role;
pub use sorts::word_bytes;
pub use spans::{Word, WordKind, words};

/// One word of sight is enough for the grammar.
pub fn grammar_is_plain()
    ensures { is_plain table [] ≡ true }
{}

/// The words of a text are in order and apart, and each byte of it is in one of them, or in the space
/// and the comments between them.
pub fn words_cover_a_text()
    ensures { WordsCover }
{}
