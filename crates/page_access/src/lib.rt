//! Pages of a file, and the outside that gives and takes bytes.
#![tactic(auto)]

mod caches;
mod geometry;
mod limited;
mod loads;
mod outside;
mod sinks;
mod sources;
mod sparse;

pub use caches::PageCache;
pub use geometry::{Geometry, MAX_INPUT};
pub use limited::{NarrowSource, SlowSource};
pub use loads::{load, read_front};
pub use outside::{Failed, ReadFault, Sink, Source};
pub use sinks::{MemFail, MemSink, SureSink};
pub use sources::{MemSource, SureSource};
pub use sparse::SparseSource;

#[cfg(test)]
mod cache_tests;
#[cfg(test)]
mod tests;
