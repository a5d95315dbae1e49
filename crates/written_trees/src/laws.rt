//! What holds of every written tree.

ghost use Rattle.written_trees.specs.Laws.{CellsReadBack, NumbersServe, PagesAreFew, PagesAreFull, PagesAreTree, PagesSayTheirCells, SchemaIsTree, SchemaPagesAreFew, SchemaPagesAreFull};

/// A written cell is read back, whatever follows it: its numbers, its local payload and its first
/// overflow page.
pub fn a_written_cell_is_read_back()
    ensures { CellsReadBack }
{}

/// A written page of a file says its kind, its cells in order and its right-most child, on page 1
/// behind the 100 bytes of the file's header.
pub fn a_written_page_says_its_cells()
    ensures { PagesSayTheirCells }
{}

/// The pages of the tree of a table or of an index, where a file has them at rising numbers, are a
/// well-formed tree: all leaves have one depth, rowids rise and keys bound them, the cells hold exactly
/// the entries in order, each with its overflow pages, and each page stands in the tree once.
pub fn the_pages_of_a_plan_are_a_tree()
    ensures { PagesAreTree }
{}

/// The same of the schema's tree, whose root is page 1.
pub fn the_pages_of_a_schema_are_a_tree()
    ensures { SchemaIsTree }
{}

/// A tree has at most two pages for each entry and one more, its overflow pages apart.
pub fn a_tree_has_few_pages()
    ensures tree { PagesAreFew }
    ensures schema { SchemaPagesAreFew }
{}

/// The page numbers of a numbering behind page 1 can number the pages of a tree, and none of them is the
/// lock-byte page's.
pub fn the_numbers_of_a_numbering_serve()
    ensures { NumbersServe }
{}

/// Each page of a tree, overflow pages too, has as many bytes as are usable, so that the pages of a file
/// stand one behind another.
pub fn the_pages_of_a_tree_are_full()
    ensures tree { PagesAreFull }
    ensures schema { SchemaPagesAreFull }
{}
