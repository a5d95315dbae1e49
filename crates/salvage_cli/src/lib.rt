//! The program: what its words ask for, done over the five objects of the outside.
#![tactic(auto)]

mod adapters;
mod faults;
mod lines;
mod listings;
mod recoveries;
mod runs;
mod schemas;
mod trials;

pub use adapters::{FileSink, FileSource, StreamSink};
pub use faults::Fault;
pub use runs::run;
