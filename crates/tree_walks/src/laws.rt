//! What holds of every well-formed tree.
ghost use Rattle.tree_walks.specs.Laws.{TreesAreRows, TreesAreTurned, TreesAreWalked, WalksHaveTrees};

/// From the root of a tree none of whose pages is used, a walk by levels gives the pages of the tree row by
/// row, and no other.
pub fn trees_are_walked()
    ensures rows { TreesAreWalked }
    // In words of a tree with its cells and pages.
    ensures trees { WalksHaveTrees }
{}

/// Row by row a tree has the same pages as by its children, the same overflow pages and the same entries; in
/// a table tree the entries stand in order.
pub fn a_tree_is_its_rows()
    ensures { TreesAreRows }
{}

/// The turns of a tree's cells take exactly the overflow chains of its entries, where none of their pages is
/// used; where the records of the entries can be read, each entry is read.
pub fn the_cells_of_a_tree_take_their_turns()
    ensures { TreesAreTurned }
{}
