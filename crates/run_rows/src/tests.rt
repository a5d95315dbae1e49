//! Files, runs over them, and what is told of each.
mod faults;
mod images;
mod listings;
mod lost_cells;
mod order;
mod recoveries;
mod runs;
