//! What holds of each database that can be written.

ghost use Rattle.db_builder.specs.Laws.{CanBePrepared};

/// A database that can be written, and whose load is at most 2^35, can be prepared: its records can be
/// written, the entries of each tree are in order and not too many, and its file has fewer than 2^31 pages.
pub fn a_valid_database_can_be_prepared()
    ensures { CanBePrepared }
{}
