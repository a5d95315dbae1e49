//! What is true of every walk and of all turns.
ghost use Rattle.page_walk.specs.Laws.{CellsRise, ChainsAreUnused, ReadableAreRead, RowidsAreByKind, TurnsAlwaysGoOn, WalksAreUnused};
ghost use Rattle.page_walk.specs.Reach.{ChildrenAreNamed, WalkIsTree};

/// A walk gives the pages that the root reaches through unused pages, each once.
pub fn walk_is_tree()
    ensures { WalkIsTree }
{}

/// The children of a page as a list are its children as a relation.
pub fn children_are_named()
    ensures { ChildrenAreNamed }
{}

/// The pages of a walk are unused ones, and each has the kind of the tree.
pub fn walks_are_unused()
    ensures { WalksAreUnused }
{}

/// Turns over pages and then over more go on from the unused pages that the first left.
pub fn turns_go_on()
    ensures { TurnsAlwaysGoOn }
{}

/// The pages that turns take are unused ones.
pub fn chains_are_unused()
    ensures { ChainsAreUnused }
{}

/// The numbers of a page's cells rise.
pub fn cells_rise()
    ensures { CellsRise }
{}

/// The readable cells of a page are exactly those with evidence whose chain is part of the unused pages that
/// the cells before them leave.
pub fn readable_cells_are_read()
    ensures { ReadableAreRead }
{}

/// A readable cell has a rowid on a page of a table, and none on a page of an index.
pub fn rowids_are_by_kind()
    ensures { RowidsAreByKind }
{}
