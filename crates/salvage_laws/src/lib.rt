//! What holds of all cells that a salvage writes (docs/PROMISES.md).
#![tactic(auto)]

mod laws;

pub use laws::{
    all_holds_of_a_salvage, cells_of_rows_are_apart, each_cell_is_kept_once,
    each_lost_cell_is_told, each_page_is_used_once, kept_cells_have_evidence, kept_cells_have_room,
    kept_cells_share_nothing, stored_rows_are_cells, stored_rows_are_good,
    the_pages_of_a_file_are_once,
};
