//! Pages of a tree and their cells: what a page is, where its cells stand, and which of them share
//! no byte (docs/FORMAT.md, "Pages and cells").
#![tactic(auto)]

mod accepted;
mod cells;
mod laws;
mod parts;
mod shapes;

pub use accepted::Accepted;
pub use cells::{CellFault, CellView, cell};
pub use laws::{
    a_read_cell_is_spelled, a_spelled_cell_is_read_back, accepted_cells_are_apart,
    marks_tell_verdicts, offers_tell_ranges,
};
pub use parts::local_size;
pub use shapes::{Kind, PageShape, right_child, shape};

#[cfg(test)]
mod tests;
