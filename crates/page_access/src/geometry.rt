//! How a file is cut into pages.
ghost use Rattle.std.specs.Prelude.{IsTrue, ◌+◌, ◌-◌, ◌^◌, ◌<◌, ◌≤◌};
ghost use Rattle.page_access.specs.Pages.{is_page_size};

/// The most bytes that an input may have.
pub const MAX_INPUT: u64 = 1 << 28;

/// How a file is cut into pages (fileformat2.html, 1.2 and 1.3): sizes are in bytes, pages are
/// counted from 1. Bytes behind the last whole page belong to no page.
#[derive(Clone, Copy, Debug)]
pub struct Geometry {
    /// Bytes of a page, a power of two from 512 to 65536.
    pub page_size: u32,
    /// Bytes of a page without those reserved at its end, at least 480.
    pub usable: u32,
    /// Number of pages, from 1 to 2^32 - 2.
    pub pages: u32,
    ghost size_power: { IsTrue (is_page_size page_size) },
    ghost size_least: { 512 ≤ page_size },
    ghost size_most: { page_size ≤ 65536 },
    ghost usable_most: { usable ≤ page_size },
    ghost reserved_most: { page_size ≤ usable + 255 },
    ghost usable_least: { 480 ≤ usable },
    ghost pages_least: { 1 ≤ pages },
    ghost pages_most: { pages < 2 ^ 32 - 1 },
}
