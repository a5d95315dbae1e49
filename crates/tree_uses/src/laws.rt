//! What holds of all trees.
ghost use Rattle.tree_uses.specs.Laws.{TreesAlwaysTakeTurns, TreesAreUnused};

/// The pages of trees that are walked one after another are unused pages, each the page of one tree.
pub fn trees_are_unused()
    ensures { TreesAreUnused }
{}

/// The turns of trees, joined, are those of all their pages, tree after tree.
pub fn trees_take_turns()
    ensures { TreesAlwaysTakeTurns }
{}
