//! What holds of all that is salvaged.
ghost use Rattle.salvaged_tables.specs.Laws.{EachCellOnce};

/// Each readable cell of a table's tree is a row of the table or lost, once.
pub fn each_readable_cell_is_stored_or_lost()
    ensures { EachCellOnce }
{}
