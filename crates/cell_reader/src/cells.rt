//! Cells of a page: where they stand, and what their bytes name.
ghost use Rattle.std.specs.Prelude.{◌≡◌, ◌≤◌, ◌<◌, ◌+◌, ◌*◌, ◌^◌, IfOk, Some, length};
ghost use Rattle.std.specs.Option.{option_map};
ghost use Rattle.byteorder.specs.Endian.{twos_complement};
ghost use Rattle.cell_reader.specs.Cell.{cell_of, pointer_of, view_at};
ghost use Rattle.cell_reader.specs.Inside.{HasArray, IsInside, IsParts};
ghost use Rattle.cell_reader.specs.Shape.{header_len, shape_at};

use crate::parts::{Parts, parts_of};
use crate::shapes::PageShape;
use byteorder::{BigEndian, ByteOrder};
use page_access::Geometry;
use thiserror::Error;

/// A cell of a page, as its bytes tell it (fileformat2.html, 1.6). Places are in bytes from the start
/// of the page; an end is the place behind the last byte.
#[derive(Clone, Copy, Debug, PartialEq, Eq)]
pub struct CellView {
    /// Where the cell begins.
    pub start: u32,
    /// Where the cell ends.
    pub end: u32,
    /// The page number of the left child, on interior pages.
    pub child: Option<u32>,
    /// The rowid on a table leaf, the key on an interior table page, else nothing.
    pub rowid: Option<i64>,
    /// Bytes of the payload, 0 on an interior table page.
    pub total: u64,
    /// Where the local payload begins.
    pub local_start: u32,
    /// Where the local payload ends.
    pub local_end: u32,
    /// The first overflow page, where not all of the payload is local.
    pub overflow: Option<u32>,
}

/// Why a cell cannot be read.
#[derive(Clone, Copy, Debug, PartialEq, Eq, Error)]
pub enum CellFault {
    /// Its pointer names no place between the end of the pointer array and the end of the usable bytes.
    #[error("the cell's pointer is bad")]
    Pointer,
    /// It passes the end of the usable bytes.
    #[error("the cell is cut off")]
    Cut,
    /// Its payload is empty, or longer than all pages together.
    #[error("the payload's length is bad")]
    Length,
}

// The number that 64 bits spell in two's complement.
fn signed(bits: u64) -> i64
    ensures { result ≡ twos_complement 8 bits }
{
    if bits < 1 << 63 {
        bits as i64
    } else {
        -1 - (u64::MAX - bits) as i64
    }
}

// The number that the bits of a rowid spell, where there are any.
fn signed_rowid(bits: Option<u64>) -> Option<i64>
    ensures { result ≡ option_map (twos_complement 8) bits }
{
    match bits {
        Some(bits) => Some(signed(bits)),
        None => None,
    }
}

// The cell on its page, where it begins at `start`.
#[tactic(auto, unfolding(crate::specs::Cell::view_at))]
fn view(start: u32, parts: &Parts) -> CellView
    requires local { parts.now.from + parts.now.kept ≤ parts.now.size }
    requires fits { start + parts.now.size < 2 ^ 32 }
    ensures { result ≡ view_at start parts.now }
{
    let local_start = start + parts.from as u32;
    CellView {
        start,
        end: start + parts.size as u32,
        child: parts.child,
        rowid: signed_rowid(parts.rowid),
        total: parts.total,
        local_start,
        local_end: local_start + parts.kept as u32,
        overflow: parts.overflow,
    }
}

// The pointer of cell i.
fn pointer(page: &[u8], shape: &PageShape, i: u32) -> u32
    requires index { i < shape.now.cells }
    requires array { HasArray (length page.now) shape.now }
    ensures { result ≡ pointer_of page.now shape.now i }
{
    let header = if shape.leaf { 8 } else { 12 };
    let at = shape.head as usize + header + 2 * i as usize;
    u32::from(BigEndian::read_u16(&page[at..]))
}

/// Cell i of a page with this shape, cells counted from 0 (fileformat2.html, 1.6). The first fault
/// that holds: `Pointer`; `Length`, where the numbers that begin the cell end inside the usable bytes;
/// `Cut`.
#[tactic(auto, unfolding(crate::specs::Cell::cell_of, crate::specs::Shape::shape_at))]
pub fn cell(page: &[u8], shape: &PageShape, geo: &Geometry, i: u32) -> Result<CellView, CellFault>
    requires index { i < shape.now.cells }
    requires whole { geo.now.usable ≤ length page.now }
    requires of_page { shape_at page.now shape.now.head geo.now.usable ≡ Some shape.now }
    ensures exact { result ≡ cell_of page.now geo.now.usable geo.now.pages shape.now i }
    ensures inside { IfOk result (λ v. IsInside geo.now.usable geo.now.pages shape.now v) }
{
    let start = pointer(page, shape, i);
    if start < shape.array_end || geo.usable <= start {
        return Err(CellFault::Pointer);
    }
    let limit = u64::from(geo.pages) * u64::from(geo.usable);
    let bytes = &page[start as usize..geo.usable as usize];
    let parts = parts_of(geo.usable, limit, shape.kind, shape.leaf, bytes)?;
    Ok(view(start, &parts))
}
