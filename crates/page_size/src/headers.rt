//! The header of a file.
ghost use Rattle.std.specs.Prelude.{◌≡◌, ◌≢◌, ◌+◌, ◌≤◌, IsTrue, length, take};
ghost use Rattle.page_access.specs.Pages.{is_page_size, zero_filled};
ghost use Rattle.cell_reader.specs.Shape.{u32_at};
ghost use Rattle.page_size.specs.Fields.{header_in, header_of, named_size};

use byteorder::{BigEndian, ByteOrder};

// The eight page sizes, in bytes.
pub const PAGE_SIZES: [u32; 8] = [512, 1024, 2048, 4096, 8192, 16384, 32768, 65536];

/// What the header of a file says (fileformat2.html, 1.3).
#[derive(Clone, Copy, Debug, PartialEq, Eq)]
pub struct Header {
    /// Bytes of a page, or 0 where the field names no page size.
    pub size: u32,
    /// Reserved bytes at the end of each page.
    pub reserved: u8,
    /// Encoding of texts: 1 UTF-8, 2 UTF-16le, 3 UTF-16be.
    pub encoding: u32,
    /// The first trunk page of the freelist, or 0.
    pub first_trunk: u32,
    /// The user version.
    pub user_version: u32,
    /// The application id.
    pub application_id: u32,
    /// The largest root page of a file with auto-vacuum, else 0.
    pub largest_root: u32,
}

// The page size that the field names, or 0.
fn size_of_field(field: u16) -> u32
    ensures size { result ≡ named_size field }
    ensures valid { result ≢ 0 → IsTrue (is_page_size result) }
{
    let size = if field == 1 { 65536 } else { u32::from(field) };
    if is_size(size) { size } else { 0 }
}

// Whether it is one of the eight page sizes.
fn is_size(size: u32) -> bool
    ensures { result ≡ is_page_size size }
{
    PAGE_SIZES.iter().any(|s| *s == size)
}

// The number in the four bytes at a place.
fn number_at(bytes: &[u8], at: usize) -> u32
    requires { at + 4 ≤ length bytes.now }
    ensures { result ≡ u32_at bytes.now at }
{
    BigEndian::read_u32(&bytes[at..])
}

/// What the header of a file with these first bytes says; missing bytes count as zeros.
pub fn read_header(first: &[u8]) -> Header
    ensures exact { result ≡ header_of first.now }
    ensures size { result.size ≢ 0 → IsTrue (is_page_size result.size) }
{
    let mut bytes = [0; 100];
    copy_front(first, &mut bytes);
    header_from(&bytes)
}

// Copies the first bytes to `to`, with zeros behind them.
fn copy_front(first: &[u8], to: &mut [u8])
    ensures { to.new ≡ zero_filled (length to.new) (take (length to.new) first.now) }
{
    let count = first.len().min(to.len());
    to[..count].copy_from_slice(&first[..count]);
    to[count..].fill(0);
}

// What the 100 bytes of a header say.
#[tactic(auto, unfolding(crate::specs::Fields::header_in))]
fn header_from(bytes: &[u8]) -> Header
    requires { length bytes.now ≡ 100 }
    ensures exact { result ≡ header_in bytes.now }
    ensures size { result.size ≢ 0 → IsTrue (is_page_size result.size) }
{
    Header {
        size: size_of_field(BigEndian::read_u16(&bytes[16..])),
        reserved: bytes[20],
        encoding: number_at(bytes, 56),
        first_trunk: number_at(bytes, 32),
        user_version: number_at(bytes, 60),
        application_id: number_at(bytes, 68),
        largest_root: number_at(bytes, 52),
    }
}
