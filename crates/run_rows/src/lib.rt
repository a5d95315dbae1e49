//! Whole runs of the program over objects in memory. The library has tests alone: what the proofs of
//! `salvage_cli::run` cannot see, told by files that are written by hand from the format.
#![tactic(auto)]

#[cfg(test)]
mod tests;
