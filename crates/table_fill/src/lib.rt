//! The rows of a table: which of the cells that are found fit it and clash with no row before them
//! (docs/FORMAT.md, "Keys and clashes").
#![tactic(auto)]

mod chooses;
mod fates;
mod fills;
mod fits;
mod laws;
mod maps;

pub use chooses::choose_rows;
pub use fates::{Chosen, Fate, LeftCell};
pub use fills::{Clash, Filled, fill};
pub use laws::{
    a_cell_is_kept_where_it_is_free, a_clash_names_a_row_and_the_least_key, each_cell_stands_once,
    good_rows_stay, misfits_do_not_fit, the_entries_of_a_key_rise, the_rows_are_good,
};

#[cfg(test)]
mod tests;
