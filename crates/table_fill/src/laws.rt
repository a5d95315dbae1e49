//! What the definitions of rows, clashes and misfits say.

ghost use Rattle.table_fill.specs.Laws.{EachOnce, EntriesRise, FatesAreSo, GoodRowsStay, InCellOrder, KeptExactly, LeftAreBoth, MisfitsAre, NamesLeastKey, RowsAreGood, ShapesRise};

/// Each given cell stands once among the rows and the cells that are none, and each of the latter once among
/// the clashes and the misfits.
pub fn each_cell_stands_once()
    ensures rows { EachOnce }
    ensures left { LeftAreBoth }
{}

/// A cell is a row exactly where it fits and clashes with no kept row before it in cell order.
pub fn a_cell_is_kept_where_it_is_free()
    ensures exactly { KeptExactly }
    ensures order { InCellOrder }
{}

/// The rows fit, can be ordered, rise strictly by rowid or primary key, and no two clash.
pub fn the_rows_are_good()
    ensures { RowsAreGood }
{}

/// The misfits are the cells that do not fit, in cell order.
pub fn misfits_do_not_fit()
    ensures { MisfitsAre }
{}

/// A clash names a row of the table and a key by which they clash, the least of those by which the cell
/// clashes with a row before it.
pub fn a_clash_names_a_row_and_the_least_key()
    ensures fates { FatesAreSo }
    ensures least { NamesLeastKey }
    // The keys of every shape have rising numbers.
    ensures rising { ShapesRise }
{}

/// Rows of a well-formed table, found in any order, are its rows, in order, and nothing else is left.
pub fn good_rows_stay()
    ensures { GoodRowsStay }
{}

/// The entries of a key of a well-formed table rise strictly, one for each row.
pub fn the_entries_of_a_key_rise()
    ensures { EntriesRise }
{}
