//! What holds of the uses of the pages of every well-formed file.
ghost use Rattle.well_formed_uses.specs.Laws.{LeftAreUnused, NoneIsLeft, StoredAreTrees, UsesTakeOwn};

/// A tree with its cells and its pages, as a well-formed file has it, is one whose rows a walk meets, with
/// the same cells, in a table tree in the same order, and with the same pages.
pub fn stored_trees_are_walked()
    ensures { StoredAreTrees }
{}

/// In a well-formed file each use takes exactly its own pages, whatever the texts of the tables are.
pub fn each_use_takes_its_own_pages()
    ensures own { UsesTakeOwn }
    // What is left is what the table of page lists holds unused.
    ensures left { LeftAreUnused }
{}

/// In a well-formed file of at most 2^28 bytes the freelist takes exactly its own pages, and no page that is
/// left then has a shape, so there is no orphan tree.
pub fn no_page_that_is_left_has_a_shape()
    ensures { NoneIsLeft }
{}
