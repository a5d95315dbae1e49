//! What holds of every page with a shape.
ghost use Rattle.page_room.specs.Room.{PagesHaveRoom};

/// A page has four usable bytes for each accepted cell, and one for each of their local bytes; the pointers of
/// the cells, their numbers and their local bytes all together have room behind the page's header.
pub fn a_page_has_room_for_its_cells()
    ensures { PagesHaveRoom }
{}
