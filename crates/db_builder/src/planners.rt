//! Trees that are planned one behind another.

ghost use Rattle.std.specs.Prelude.{◌≤◌, ◌<◌, ◌^◌};

use crate::plans::PlannedTree;

/// Trees that are planned so far, the number of their pages, and the length of the longest payload.
#[derive(Debug, Drop)]
pub struct Planner {
    pub page_size: u32,
    pub before: u32,
    pub longest: usize,
    pub trees: Vec<PlannedTree>,
    ghost few: { before < 2 ^ 31 },
    ghost least: { 512 ≤ page_size },
    ghost most: { page_size ≤ 65536 },
}
