//! What holds of the uses of the pages that are left.
ghost use Rattle.orphan_uses.specs.Laws.{OrphanUsesAlwaysHold};

/// Each page has one use at most; each page with a shape that the freelist leaves is in one orphan tree; each
/// readable cell of such a tree has its evidence in the file, and no two of them share a cell or a page of their
/// overflow chains.
pub fn each_left_page_has_one_use()
    ensures { OrphanUsesAlwaysHold }
{}
