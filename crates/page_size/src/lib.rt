//! The page size of a file, and what its header says.
#![tactic(auto)]

mod finds;
mod headers;
mod scores;

pub use finds::{Found, GeoFault, Origin, find_geometry};
pub use headers::{Header, read_header};

#[cfg(test)]
mod tests;
