//! How many cells and bytes a page has room for (docs/FORMAT.md, "Accepted cells"). Laws alone.
#![tactic(auto)]

mod laws;

pub use laws::a_page_has_room_for_its_cells;
