//! What holds of the uses of pages.
ghost use Rattle.use_order.specs.Laws.{UsesAlwaysHold};

/// Each page has one use at most; each readable cell of a table's tree has its evidence in the file, and
/// no two of them share a cell or a page of their overflow chains.
pub fn each_page_has_one_use()
    ensures { UsesAlwaysHold }
{}
