//! What holds of the rows on clear paths of every file.
ghost use Rattle.clear_paths.specs.Laws.{ClearCellsAreRead, ClearRowsComeBack, CountsAreSame, TouchedAreListed};

/// The pages that are touched are those of their list, each once; which list of them is taken makes no difference to
/// which pages are clear.
pub fn touched_pages_are_listed()
    ensures listed { TouchedAreListed }
    ensures counts { CountsAreSame }
{}

/// Each row on a clear path from the root of a table row of the schema is a readable cell of that row's tree.
pub fn clear_cells_are_read()
    ensures { ClearCellsAreRead }
{}

/// Each row that fits a table that is built, on a clear path from its root, is a row of the table as it is stored; or
/// the report has its `clash` line with the place of an earlier row of the table and the key.
pub fn clear_rows_come_back()
    ensures { ClearRowsComeBack }
{}
