//! What holds of all parts.
ghost use Rattle.table_parts.specs.Laws.{EachCellOnce};

/// Each cell of a table is one of its rows or lost, once.
pub fn each_cell_is_kept_or_lost()
    ensures { EachCellOnce }
{}
