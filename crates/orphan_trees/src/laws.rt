//! What holds of all orphan trees.
ghost use Rattle.orphan_trees.specs.Laws.{OrphansAlwaysHold};

/// Each orphan page is in one tree, once, and no other page is in any; after them no unused page has a shape.
pub fn each_orphan_page_is_in_one_tree()
    ensures { OrphansAlwaysHold }
{}
