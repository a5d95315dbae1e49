//! What holds of all well-formed files.
ghost use Rattle.well_formed.specs.Laws.{OneDatabase};

/// A file spells at most one database.
pub fn a_file_spells_one_database()
    ensures { OneDatabase }
{}
