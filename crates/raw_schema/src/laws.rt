//! What is true of every row of the schema.
ghost use Rattle.raw_schema.specs.Spelling.{RowsAreSpelled};

/// A readable cell is taken for a row of the schema exactly where it spells that row.
pub fn rows_are_spelled()
    ensures { RowsAreSpelled }
{}
