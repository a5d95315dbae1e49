//! What holds of every well-formed file that is not too large.
ghost use Rattle.well_formed_load.specs.Laws.{SmallLoad};

/// A file of 1 to 2^28 bytes spells no database whose load is eight times its length or more: each entry that
/// is written of it stands in a cell of its own, with its payload, its numbers and its pointer.
pub fn a_well_formed_file_has_a_small_load()
    ensures { SmallLoad }
{}
