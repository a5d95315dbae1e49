use super::*;
use crate::scores::zeros;
use page_access::{MemSource, SureSource};
use std::alloc::Global;
use std::process::Abort;
use std::test::Fail;

// Writes the piece over the bytes at a place.
fn place(rt: &impl Abort, bytes: &mut Vec<u8>, at: usize, piece: &[u8]) {
    assert!(rt; at <= bytes.len());
    assert!(rt; piece.len() <= bytes.len() - at);
    bytes[at..at + piece.len()].copy_from_slice(piece);
}

// The page size, the usable bytes, the number of pages and the origin.
fn parts(found: Result<Found, GeoFault>) -> Result<(u32, u32, u32, Origin), GeoFault> {
    let found = found?;
    let geometry = found.geometry;
    Ok((
        geometry.page_size,
        geometry.usable,
        geometry.pages,
        found.origin,
    ))
}

// So many bytes with a header of this page size and these reserved bytes.
fn with_header(
    rt: &impl Abort,
    alloc: Global,
    len: usize,
    size: &[u8],
    reserved: u8,
) -> Result<SureSource, Fail> {
    let mut bytes = zeros(alloc, len)?;
    place(rt, &mut bytes, 16, size);
    place(rt, &mut bytes, 20, &[reserved]);
    Ok(SureSource::new(bytes))
}

#[test]
fn zeros_name_no_page_size(rt: HostRuntime) -> Result<(), Fail> {
    let alloc = rt.alloc();
    let mut src = SureSource::new(zeros(alloc, 4096)?);
    let found = parts(find_geometry(alloc, &mut src, 4096, None, None));
    assert_eq!(rt; found, Err(GeoFault::NoPageSize));
    Ok(())
}

// Each page of 1,024 bytes has one cell, at 1000: a payload of two bytes and rowid 1. Its first
// half alone names a cell outside of it, and its second half begins with no type of a page.
#[test]
fn eight_pages_win_over_four_pages_twice_as_long(rt: HostRuntime) -> Result<(), Fail> {
    let alloc = rt.alloc();
    let mut bytes = zeros(alloc, 8192)?;
    for page in 0..8 {
        let head = if page == 0 { 100 } else { page * 1024 };
        place(
            &rt,
            &mut bytes,
            head,
            &[13, 0, 0, 0, 1, 3, 0xe8, 0, 3, 0xe8],
        );
        place(&rt, &mut bytes, page * 1024 + 1000, &[2, 1, 2, 9]);
    }
    let mut src = MemSource::new(bytes, Vec::new(alloc));
    let found = parts(find_geometry(alloc, &mut src, 8192, None, None));
    assert_eq!(rt; found, Ok((1024, 1024, 8, Origin::Pages)));
    assert!(rt; src.reads() <= 1 + 8192 / 256);
    Ok(())
}

// A leaf with one cell at 4000 of its 4,096 or 8,192 bytes, and an empty leaf at 4096.
#[test]
fn a_tie_goes_to_the_smaller_size(rt: HostRuntime) -> Result<(), Fail> {
    let alloc = rt.alloc();
    let mut bytes = zeros(alloc, 8192)?;
    place(
        &rt,
        &mut bytes,
        100,
        &[13, 0, 0, 0, 1, 15, 0xa0, 0, 15, 0xa0],
    );
    place(&rt, &mut bytes, 4000, &[2, 1, 2, 9]);
    place(&rt, &mut bytes, 4096, &[13, 0, 0, 0, 0, 16, 0, 0]);
    let mut src = SureSource::new(bytes);
    let found = parts(find_geometry(alloc, &mut src, 8192, None, None));
    assert_eq!(rt; found, Ok((4096, 4096, 2, Origin::Pages)));
    Ok(())
}

#[test]
fn a_header_names_the_largest_size_by_one(rt: HostRuntime) -> Result<(), Fail> {
    let alloc = rt.alloc();
    let mut src = with_header(&rt, alloc, 65600, &[0, 1], 0)?;
    let found = parts(find_geometry(alloc, &mut src, 65600, None, None));
    assert_eq!(rt; found, Ok((65536, 65536, 1, Origin::Header)));
    Ok(())
}

#[test]
fn a_header_leaves_480_usable_bytes(rt: HostRuntime) -> Result<(), Fail> {
    let alloc = rt.alloc();
    let mut src = with_header(&rt, alloc, 1024, &[2, 0], 32)?;
    let found = parts(find_geometry(alloc, &mut src, 1024, None, None));
    assert_eq!(rt; found, Ok((512, 480, 2, Origin::Header)));
    let mut src = with_header(&rt, alloc, 1024, &[2, 0], 33)?;
    let found = parts(find_geometry(alloc, &mut src, 1024, None, None));
    assert_eq!(rt; found, Err(GeoFault::NoPageSize));
    let found = parts(find_geometry(alloc, &mut src, 1024, None, Some(4)));
    assert_eq!(rt; found, Ok((512, 508, 2, Origin::Header)));
    Ok(())
}

#[test]
fn a_chosen_size_takes_the_reserved_bytes_of_a_header_that_names_it(
    rt: HostRuntime,
) -> Result<(), Fail> {
    let alloc = rt.alloc();
    let mut src = with_header(&rt, alloc, 2048, &[4, 0], 8)?;
    let found = parts(find_geometry(alloc, &mut src, 2048, Some(1024), None));
    assert_eq!(rt; found, Ok((1024, 1016, 2, Origin::Chosen)));
    let found = parts(find_geometry(alloc, &mut src, 2048, Some(2048), None));
    assert_eq!(rt; found, Ok((2048, 2048, 1, Origin::Chosen)));
    let found = parts(find_geometry(alloc, &mut src, 2048, Some(512), Some(16)));
    assert_eq!(rt; found, Ok((512, 496, 4, Origin::Chosen)));
    Ok(())
}

#[test]
fn a_file_shorter_than_a_page_has_no_whole_page(rt: HostRuntime) -> Result<(), Fail> {
    let alloc = rt.alloc();
    let mut src = with_header(&rt, alloc, 600, &[16, 0], 0)?;
    let found = parts(find_geometry(alloc, &mut src, 600, None, None));
    let fault = GeoFault::NoWholePage {
        len: 600,
        size: 4096,
    };
    assert_eq!(rt; found, Err(fault));
    let mut src = with_header(&rt, alloc, 4096, &[16, 0], 0)?;
    let found = parts(find_geometry(alloc, &mut src, 4096, None, None));
    assert_eq!(rt; found, Ok((4096, 4096, 1, Origin::Header)));
    Ok(())
}

#[test]
fn a_header_alone_has_no_page(rt: HostRuntime) -> Result<(), Fail> {
    let alloc = rt.alloc();
    let mut src = SureSource::new(zeros(alloc, 100)?);
    let found = parts(find_geometry(alloc, &mut src, 100, None, None));
    assert_eq!(rt; found, Err(GeoFault::NoPageSize));
    let mut src = with_header(&rt, alloc, 100, &[2, 0], 0)?;
    let found = parts(find_geometry(alloc, &mut src, 100, None, None));
    let fault = GeoFault::NoWholePage {
        len: 100,
        size: 512,
    };
    assert_eq!(rt; found, Err(fault));
    Ok(())
}

#[test]
fn missing_bytes_of_a_header_are_zeros(rt: HostRuntime) -> Result<(), Fail> {
    let mut bytes = zeros(rt.alloc(), 63)?;
    place(&rt, &mut bytes, 16, &[2, 1]);
    place(&rt, &mut bytes, 20, &[7]);
    place(&rt, &mut bytes, 32, &[0, 0, 0, 9]);
    place(&rt, &mut bytes, 52, &[0, 0, 1, 0]);
    place(&rt, &mut bytes, 59, &[1, 0, 0, 3]);
    let header = Header {
        size: 0,
        reserved: 7,
        encoding: 1,
        first_trunk: 9,
        user_version: 0x300,
        application_id: 0,
        largest_root: 256,
    };
    assert_eq!(rt; read_header(&bytes), header);
    Ok(())
}
