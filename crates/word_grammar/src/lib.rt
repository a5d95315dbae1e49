//! Grammars by words, and their reading by one word of sight
//! (docs/CREATE_TABLE.md, "How a grammar is written").
#![tactic(auto)]

ghost use Rattle.word_grammar.specs.Law.{IsVerdict};

/// What the reading by one word of sight takes for a text is one, in that one way; where it stops
/// is the longest front of the words with which a text begins.
pub fn reading_is_exact()
    ensures { IsVerdict }
{}
