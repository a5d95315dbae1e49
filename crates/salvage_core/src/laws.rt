//! What holds of every salvage of a well-formed input.
ghost use Rattle.salvage_core.specs.Recoverable.{NeverBarred};

/// A well-formed input in scope is not refused: its pages are found, its texts are not in UTF-16, and the
/// database that is written of it is not too large. Neither a page size nor reserved bytes are given, and the
/// freelist is looked at.
pub fn a_well_formed_input_is_never_barred()
    ensures { NeverBarred }
{}
