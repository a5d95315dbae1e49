//! What holds of all cells that are written.
ghost use Rattle.salvage_laws.specs.Laws.{EachCellOnce, EachPageOnce, KeptAreApart, KeptFitFile, KeptHaveEvidence, KeptShareNothing, LostAreTold, PagesAreOnce, RangesAreApart, SalvageAlwaysHolds, StoredAreCells, StoredAreGood};

/// The pages 1 to n of a file are listed once: a salvage begins with these unused.
pub fn the_pages_of_a_file_are_once()
    ensures { PagesAreOnce }
{}

/// Each page of the file has one use at most: in the schema's tree, in the tree of a table or of an index, in the
/// freelist, in an orphan tree, or in an overflow chain of a cell of the schema, a table or an orphan tree.
pub fn each_page_is_used_once()
    ensures { EachPageOnce }
{}

/// The rows of the tables that are built are readable cells as they are, rowids and all: where a table is stored
/// WITHOUT ROWID, its cells have none.
pub fn stored_rows_are_cells()
    ensures { StoredAreCells }
{}

/// Each cell that is written, as a row of a table or as a lost cell, has its evidence in the file: its own cell
/// and overflow chain spell its values, and the rowid is the cell's.
pub fn kept_cells_have_evidence()
    ensures { KeptHaveEvidence }
{}

/// No two rows that are written are one cell, no page is in the overflow chains of two or twice in one, and none
/// of these pages holds such a cell.
pub fn kept_cells_share_nothing()
    ensures counts { KeptAreApart }
    // The same of any two, and the bytes of their cells.
    ensures pairs { KeptShareNothing }
{}

/// The cells of two rows with evidence on one page share no byte.
pub fn cells_of_rows_are_apart()
    ensures { RangesAreApart }
{}

/// Each readable cell of a table's tree or of an orphan tree, and each of the schema's tree that is no row of the
/// schema, is written once, and nothing else is.
pub fn each_cell_is_kept_once()
    ensures { EachCellOnce }
{}

/// There are four usable bytes of the file for each cell that is written, and one for each byte of their payloads.
pub fn kept_cells_have_room()
    ensures { KeptFitFile }
{}

/// In a report with the lines of the tables, each lost cell of a table that is built has its line: it
/// clashes with the row that the line names, by the least key by which it clashes with a row before it, or
/// it does not fit. Each table that is not built has its line, with the number of its cells.
pub fn each_lost_cell_is_told()
    ensures { LostAreTold }
{}

/// The rows of a stored table fit it, rise strictly by rowid or primary key, and no two clash.
pub fn stored_rows_are_good()
    ensures { StoredAreGood }
{}

/// All that holds of the cells that are written: evidence, no sharing, each once, pages once, good rows, and room.
pub fn all_holds_of_a_salvage()
    ensures { SalvageAlwaysHolds }
{}
