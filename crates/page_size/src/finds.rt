//! How the pages of a file are found.
ghost use Rattle.std.specs.Prelude.{◌≡◌, ◌≢◌, ◌≤◌, ◌<◌, ◌+◌, ◌*◌, ◌/◌, ℕ, IsTrue, Some, None, IsErrOf, IfOk, IfSome, is_none, length, if◌then◌else◌};
ghost use Rattle.std.specs.Option.{option_or};
ghost use Rattle.page_access.specs.Files.{max_input};
ghost use Rattle.page_access.specs.Outside.{HasCause, HasCauseOf, KeepsSource};
ghost use Rattle.page_access.specs.Pages.{is_page_size};
ghost use Rattle.page_size.specs.declared.finds.GeoFault.TheVariants.{Source, Memory};
ghost use Rattle.page_size.specs.Fields.{header_of};
ghost use Rattle.page_size.specs.Rule.{IsByRule, IsUsable, fault_of, given_sizing, is_scored, own_reserved, rule, scored_sizing};

use crate::headers::{Header, read_header};
use crate::scores::{best, geometry_of, rank, zeros};
use page_access::{Failed, Geometry, ReadFault, Source, read_front};
use std::alloc::{AllocError, Global};
use thiserror::Error;

/// Where a page size comes from.
#[derive(Clone, Copy, Debug, PartialEq, Eq)]
pub enum Origin {
    /// From the header of the file.
    Header,
    /// From the pages, by their scores.
    Pages,
    /// From the command line.
    Chosen,
    /// From nowhere: the file is empty.
    Empty,
}

/// The pages of a file.
#[derive(Clone, Copy, Debug)]
pub struct Found {
    /// How the file is cut into pages.
    pub geometry: Geometry,
    /// Where the page size comes from.
    pub origin: Origin,
    /// What the header says.
    pub header: Header,
}

/// Why no pages were found.
#[derive(Clone, Copy, Debug, PartialEq, Eq, Error)]
pub enum GeoFault {
    /// Neither the header nor a page tells the page size.
    #[error("no page size found")]
    NoPageSize,
    /// The file is shorter than a page.
    #[error("no whole page: {len} bytes, page size {size}")]
    NoWholePage {
        /// Bytes of the file.
        len: u64,
        /// Bytes of a page.
        size: u32,
    },
    /// A call of the source failed.
    #[error("the source could not be read")]
    Source,
    /// There was no memory.
    #[error("out of memory")]
    Memory,
}

impl From<Failed> for GeoFault {
    ghost from_gives = { λ _ e. e ≡ Source };

    fn from(_: Failed) -> Self {
        GeoFault::Source
    }
}

impl From<ReadFault> for GeoFault {
    ghost from_gives = { λ fault e. e ≡ fault_of fault };

    fn from(fault: ReadFault) -> Self {
        match fault {
            ReadFault::Source => GeoFault::Source,
            ReadFault::Memory => GeoFault::Memory,
        }
    }
}

// A page size with its reserved bytes.
#[derive(Clone, Copy, Debug, PartialEq, Eq)]
pub struct Sizing {
    pub size: u32,
    pub reserved: u8,
    pub origin: Origin,
}

// The reserved bytes of a chosen page size, where no option gives them.
fn own_reserved(header: &Header, size: u32) -> u8
    requires { 480 ≤ size }
    ensures exact { result ≡ own_reserved header.now size }
    ensures enough { result + 480 ≤ size }
{
    let enough = u32::from(header.reserved) + 480 <= size;
    if header.size == size && enough {
        header.reserved
    } else {
        0
    }
}

// The page size and the reserved bytes that the options and the header give.
fn given_sizing(header: &Header, page_size: Option<u32>, reserved: Option<u8>) -> Option<Sizing>
    requires header { header.now.size ≢ 0 → IsTrue (is_page_size header.now.size) }
    requires size { IfSome page_size (λ s. IsTrue (is_page_size s)) }
    requires enough { IfSome page_size (λ s. IfSome reserved (λ r. r + 480 ≤ s)) }
    ensures exact { result ≡ given_sizing header.now page_size reserved }
    ensures usable { IfSome result (λ s. IsUsable s.size s.reserved) }
{
    if let Some(size) = page_size {
        let reserved = match reserved {
            Some(reserved) => reserved,
            None => own_reserved(header, size),
        };
        return Some(Sizing {
            size,
            reserved,
            origin: Origin::Chosen,
        });
    }
    let reserved = reserved.unwrap_or(header.reserved);
    if header.size == 0 || header.size < u32::from(reserved) + 480 {
        return None;
    }
    Some(Sizing {
        size: header.size,
        reserved,
        origin: Origin::Header,
    })
}

// The page size and the reserved bytes that the scores give.
fn scored_sizing<S: Source>(
    alloc: Global,
    src: &mut S,
    len: u64,
    reserved: Option<u8>,
) -> Result<Option<Sizing>, ReadFault>
    requires { len ≤ max_input }
    ensures value { IfOk result (λ o. IfSome (S.bytes src.old)
        (λ all. length all ≡ len → o ≡ scored_sizing all reserved)) }
    ensures usable { IfOk result (λ o. IfSome o (λ s. IsUsable s.size s.reserved)) }
    ensures cause { HasCauseOf ReadFault.Source (S.faults src.old) (S.faults src.new) result }
    ensures kept { KeepsSource S.bytes S.attached S.faults S.reads src.old src.new }
    ensures reads { IfSome (S.bytes src.old)
        (λ all. length all ≡ len → S.reads src.new ≤ S.reads src.old + len / 256) }
{
    let reserved = reserved.unwrap_or(0);
    let mut page = zeros(alloc, 65536)?;
    let scores = rank(alloc, src, len, reserved, &mut page)?;
    let Some(score) = best(&scores) else {
        return Ok(None);
    };
    Ok(Some(Sizing {
        size: score.size,
        reserved,
        origin: Origin::Pages,
    }))
}

// The header of a source of this length. Its first bytes are read to `first`.
fn header_of_source<S: Source>(src: &mut S, len: u64, first: &mut [u8]) -> Result<Header, Failed>
    requires { length first.old ≡ 100 }
    ensures value { IfOk result (λ h. IfSome (S.bytes src.old)
        (λ all. length all ≡ len → h ≡ header_of all)) }
    ensures size { IfOk result (λ h. h.size ≢ 0 → IsTrue (is_page_size h.size)) }
    ensures cause { HasCause (S.faults src.old) (S.faults src.new) result }
    ensures kept { KeepsSource S.bytes S.attached S.faults S.reads src.old src.new }
    ensures reads { IfSome (S.bytes src.old)
        (λ all. length all ≡ len → S.reads src.new ≤ S.reads src.old + 1) }
{
    let front = &mut first[..len.min(100) as usize];
    read_front(src, front)?;
    Ok(read_header(front))
}

// The page size and the reserved bytes, where the options, the header or the scores give them.
fn sizing_of<S: Source>(
    alloc: Global,
    src: &mut S,
    len: u64,
    header: &Header,
    page_size: Option<u32>,
    reserved: Option<u8>,
) -> Result<Option<Sizing>, ReadFault>
    requires len { len ≤ max_input }
    requires header { header.now.size ≢ 0 → IsTrue (is_page_size header.now.size) }
    requires size { IfSome page_size (λ s. IsTrue (is_page_size s)) }
    requires enough { IfSome page_size (λ s. IfSome reserved (λ r. r + 480 ≤ s)) }
    ensures value { IfOk result (λ o. IfSome (S.bytes src.old) (λ all. length all ≡ len →
        o ≡ option_or (given_sizing header.now page_size reserved) (scored_sizing all reserved))) }
    ensures usable { IfOk result (λ o. IfSome o (λ s. IsUsable s.size s.reserved)) }
    ensures cause { HasCauseOf ReadFault.Source (S.faults src.old) (S.faults src.new) result }
    ensures kept { KeepsSource S.bytes S.attached S.faults S.reads src.old src.new }
    ensures reads { IfSome (S.bytes src.old) (λ all. length all ≡ len →
        S.reads src.new ≤ S.reads src.old
        + (if is_none (given_sizing header.now page_size reserved) then len / 256 else 0)) }
    // memory is asked for only where the sizes are scored
    ensures memory { IsErrOf result ReadFault.Memory
        → IsTrue (is_none (given_sizing header.now page_size reserved)) }
{
    match given_sizing(header, page_size, reserved) {
        Some(sizing) => Ok(Some(sizing)),
        None => scored_sizing(alloc, src, len, reserved),
    }
}

/// The pages of a source of `len` bytes, from 1 to 2^28. `page_size` is a page size, and `reserved`
/// leaves 480 bytes of it. A chosen page size comes first, then the header's where it is one and
/// leaves 480 usable bytes, then the one whose pages look most like pages of trees. `NoPageSize`
/// where no page looks so, `NoWholePage` where the page size is over `len`, `Memory` only where the pages
/// have to be looked at.
pub fn find_geometry<S: Source>(
    alloc: Global,
    src: &mut S,
    len: u64,
    page_size: Option<u32>,
    reserved: Option<u8>,
) -> Result<Found, GeoFault>
    requires len_least { 1 ≤ len }
    requires len_most { len ≤ max_input }
    requires size { IfSome page_size (λ s. IsTrue (is_page_size s)) }
    requires enough { IfSome page_size (λ s. IfSome reserved (λ r. r + 480 ≤ s)) }
    ensures exact { IfSome (S.bytes src.old)
        (λ all. length all ≡ len → IsByRule result (rule all page_size reserved)) }
    ensures pages { IfOk result (λ f. f.geometry.pages ≡ len / f.geometry.page_size) }
    ensures no_whole_page { (n s : ℕ) → IsErrOf result (GeoFault.NoWholePage n s) →
        (n ≡ len) × (len < s) }
    ensures cause { HasCauseOf GeoFault.Source (S.faults src.old) (S.faults src.new) result }
    ensures kept { KeepsSource S.bytes S.attached S.faults S.reads src.old src.new }
    ensures reads { IfSome (S.bytes src.old) (λ all. length all ≡ len →
        S.reads src.new ≤ S.reads src.old + 1
        + (if is_scored all page_size reserved then len / 256 else 0)) }
    // memory is asked for only where the sizes are scored
    ensures memory { IfSome (S.bytes src.old) (λ all. length all ≡ len →
        IsErrOf result GeoFault.Memory → IsTrue (is_scored all page_size reserved)) }
{
    let header = header_of_source(src, len, &mut [0; 100])?;
    let Some(sizing) = sizing_of(alloc, src, len, &header, page_size, reserved)? else {
        return Err(GeoFault::NoPageSize);
    };
    let size = sizing.size;
    let Some(geometry) = geometry_of(len, size, sizing.reserved) else {
        return Err(GeoFault::NoWholePage { len, size });
    };
    Ok(Found {
        geometry,
        origin: sizing.origin,
        header,
    })
}
