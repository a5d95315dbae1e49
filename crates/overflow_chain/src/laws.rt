//! What is true of every turn.
ghost use Rattle.overflow_chain.specs.Laws.{TurnIsLongest, WholeIsAlwaysChain};

/// A turn takes the longest front of the chain whose pages are unused, each once.
pub fn turn_is_longest()
    ensures { TurnIsLongest }
{}

/// A turn is whole exactly where a chain of unused pages is there, and it takes that chain.
pub fn whole_turn_is_chain()
    ensures { WholeIsAlwaysChain }
{}
