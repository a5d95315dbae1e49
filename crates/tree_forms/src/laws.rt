//! What holds of every tree.

ghost use Rattle.tree_forms.specs.Tree.{OneTree};
ghost use Rattle.tree_forms.specs.Laws.{SaysAccepted};

/// The root and the kind of a tree fix its depth, its cells and its pages, whatever the pages say.
pub fn a_root_has_one_tree()
    ensures { OneTree }
{}

/// A page that says something has a shape, and what it says are its cells, each of them accepted.
pub fn a_page_says_its_accepted_cells()
    ensures { SaysAccepted }
{}
