//! What stands on a page: its readable cells, why the others are not, and the pages it names
//! (docs/FORMAT.md, "Readable cells").
#![tactic(auto)]

mod causes;
mod cells;
mod entries;
mod laws;
mod named;
mod outcomes;
mod pages;
mod pushes;
mod rows;
mod screens;
mod surveys;
mod turns;
mod walks;

pub use causes::CellCause;
pub use cells::{cells_of, cells_with};
pub use laws::{
    cells_rise, chains_are_unused, children_are_named, readable_cells_are_read, rowids_are_by_kind,
    turns_go_on, walk_is_tree, walks_are_unused,
};
pub use named::{pointers, pointers_with};
pub use outcomes::{CellOutcome, Place, TakenCell};
pub use rows::{PageNotes, read_cells, sort_outcomes};
pub use surveys::{PageKinds, survey};
pub use turns::{PageTurn, read_turns};
pub use walks::walk_tree;

/// The number of lists of a page table: as many as the order of use has.
pub const LISTS: u32 = 7;

#[cfg(test)]
mod tests;
#[cfg(test)]
mod walk_tests;
