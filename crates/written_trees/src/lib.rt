//! What the pages of a written tree say: they are a well-formed tree of its entries.
#![tactic(auto)]

mod laws;

pub use laws::{
    a_tree_has_few_pages, a_written_cell_is_read_back, a_written_page_says_its_cells,
    the_numbers_of_a_numbering_serve, the_pages_of_a_plan_are_a_tree,
    the_pages_of_a_schema_are_a_tree, the_pages_of_a_tree_are_full,
};
