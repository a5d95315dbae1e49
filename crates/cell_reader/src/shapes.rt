//! What a page is: its kind, its header and its array of cell pointers.
ghost use Rattle.std.specs.Prelude.{◌≡◌, ◌≤◌, ◌+◌, ◌*◌, ◌↔◌, IfSome, IsSome, Some, false, length};
ghost use Rattle.cell_reader.specs.Inside.{HasArray};
ghost use Rattle.cell_reader.specs.Shape.{header_len, right_of, shape_at, shape_of, type_of};

use byteorder::{BigEndian, ByteOrder};
use page_access::Geometry;

/// The two kinds of pages of trees (fileformat2.html, 1.6).
#[derive(Clone, Copy, Debug, PartialEq, Eq)]
pub enum Kind {
    /// Rows of a table, by rowid.
    Table,
    /// Entries of an index, or rows of a table without rowid.
    Index,
}

/// What the header of a page says (fileformat2.html, 1.6). Places are in bytes from the start of
/// the page.
#[derive(Clone, Copy, Debug, PartialEq, Eq)]
pub struct PageShape {
    /// Whether the tree is that of a table or of an index.
    pub kind: Kind,
    /// Whether the page has no children.
    pub leaf: bool,
    /// Number of cells, counted from 0.
    pub cells: u32,
    /// Where the header begins: 100 on page 1, else 0.
    pub head: u32,
    /// Where the array of cell pointers ends.
    pub array_end: u32,
}

// The kind of a page and whether it is a leaf, by the first byte of its header.
fn type_of_byte(byte: u8) -> Option<(Kind, bool)>
    ensures { result ≡ type_of byte }
{
    match byte {
        2 => Some((Kind::Index, false)),
        5 => Some((Kind::Table, false)),
        10 => Some((Kind::Index, true)),
        13 => Some((Kind::Table, true)),
        _ => None,
    }
}

// Bytes of a page's header.
fn header_size(leaf: bool) -> u32
    ensures { result ≡ header_len leaf }
{
    if leaf { 8 } else { 12 }
}

// The shape of a page whose header begins at `head`.
#[tactic(auto, unfolding(crate::specs::Shape::shape_at))]
fn shape_from(page: &[u8], head: u32, usable: u32) -> Option<PageShape>
    requires head { head ≤ 100 }
    requires least { 480 ≤ usable }
    requires whole { usable ≤ length page.now }
    ensures exact { result ≡ shape_at page.now head usable }
    ensures of_page { IfSome result (λ s. shape_at page.now s.head usable ≡ Some s) }
    ensures array { IfSome result (λ s. HasArray usable s) }
{
    let start = head as usize;
    let (kind, leaf) = type_of_byte(page[start])?;
    let cells = u32::from(BigEndian::read_u16(&page[start + 3..]));
    let array_end = head + header_size(leaf) + 2 * cells;
    if usable < array_end {
        return None;
    }
    Some(PageShape {
        kind,
        leaf,
        cells,
        head,
        array_end,
    })
}

/// The shape of the page with this number, counted from 1 (fileformat2.html, 1.6). `None` where its
/// first byte is none of the four types, or its array of cell pointers passes the usable bytes.
pub fn shape(page: &[u8], number: u32, geo: &Geometry) -> Option<PageShape>
    requires { geo.now.usable ≤ length page.now }
    ensures exact { result ≡ shape_of page.now number geo.now.usable }
    ensures of_page { IfSome result (λ s. shape_at page.now s.head geo.now.usable ≡ Some s) }
    ensures array { IfSome result (λ s. HasArray geo.now.usable s) }
{
    let head = if number == 1 { 100 } else { 0 };
    shape_from(page, head, geo.usable)
}

/// The right-most pointer of an interior page, a page number as it stands (fileformat2.html, 1.6).
/// `None` on a leaf.
#[tactic(auto, unfolding(crate::specs::Shape::shape_at))]
pub fn right_child(page: &[u8], shape: &PageShape) -> Option<u32>
    requires inside { shape.now.head + header_len shape.now.leaf ≤ length page.now }
    ensures exact { result ≡ right_of page.now shape.now }
    ensures found { IsSome result ↔ (shape.now.leaf ≡ false) }
{
    if shape.leaf {
        return None;
    }
    Some(BigEndian::read_u32(&page[shape.head as usize + 8..]))
}
