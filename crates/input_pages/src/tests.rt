//! Inputs in memory. The bytes are written by hand from the format.
ghost use Rattle.std.specs.Prelude.{◌≡◌, IfSome};

use super::*;
use page_access::{MAX_INPUT, SparseSource, SureSource};
use page_size::Origin;
use std::alloc::{AllocError, Global};
use std::process::Abort;
use std::test::Fail;

fn zeros(alloc: Global, len: usize) -> Result<Vec<u8>, AllocError> {
    vec![in alloc; 0; len]
}

// Sets one byte.
fn set(rt: &impl Abort, bytes: &mut Vec<u8>, at: usize, byte: u8) {
    assert!(rt; at < bytes.len());
    bytes[at] = byte;
}

// The size, the number and the origin of the pages of an input of these bytes, and how many are left behind
// them; none where it is empty.
fn parts(alloc: Global, bytes: Vec<u8>) -> Result<Option<(u32, u32, Origin, u64)>, InputFault> {
    let mut src = SureSource::new(bytes);
    match open_input(alloc, &mut src, "input.db", MAX_INPUT, None, None)? {
        Some(Input { found, left }) => {
            let geometry = found.geometry;
            Ok(Some((geometry.page_size, geometry.pages, found.origin, left)))
        }
        None => Ok(None),
    }
}

#[test]
fn an_empty_input_has_no_pages(rt: HostRuntime) -> Result<(), Fail> {
    let alloc = rt.alloc();
    assert_eq!(rt; parts(alloc, Vec::new(alloc)), Ok(None));
    Ok(())
}

// The field at 16 says 4096.
#[test]
fn an_input_of_600_bytes_has_no_whole_page_of_4096(rt: HostRuntime) -> Result<(), Fail> {
    let alloc = rt.alloc();
    let mut bytes = zeros(alloc, 600)?;
    set(&rt, &mut bytes, 16, 16);
    let fault = InputFault::NoWholePage {
        len: 600,
        size: 4096,
    };
    assert_eq!(rt; parts(alloc, bytes), Err(fault));
    Ok(())
}

#[test]
fn an_input_of_zeros_has_no_page_size(rt: HostRuntime) -> Result<(), Fail> {
    let alloc = rt.alloc();
    assert_eq!(rt;
        parts(alloc, zeros(alloc, 4096)?),
        Err(InputFault::NoPageSize)
    );
    Ok(())
}

// The field at 16 says 512; of 1,100 bytes the last 76 are no page.
#[test]
fn bytes_behind_the_last_whole_page_are_no_page(rt: HostRuntime) -> Result<(), Fail> {
    let alloc = rt.alloc();
    let mut bytes = zeros(alloc, 1100)?;
    set(&rt, &mut bytes, 16, 2);
    assert_eq!(rt; parts(alloc, bytes), Ok(Some((512, 2, Origin::Header, 76))));
    Ok(())
}

#[test]
fn an_input_of_over_2_to_the_28_bytes_is_too_large(rt: HostRuntime) -> Result<(), Fail> {
    let alloc = rt.alloc();
    let mut src = SparseSource::new(268435457, 512, Vec::new(alloc));
    let opened = open_input(alloc, &mut src, "input.db", MAX_INPUT, None, None);
    assert!(rt; matches!(opened, Err(InputFault::TooLarge { len: 268435457 })));
    Ok(())
}

// The limit is the caller's.
#[test]
fn an_input_of_600_bytes_is_over_a_limit_of_599(rt: HostRuntime) -> Result<(), Fail> {
    let alloc = rt.alloc();
    let mut src = SureSource::new(zeros(alloc, 600)?);
    let opened = open_input(alloc, &mut src, "input.db", 599, Some(512), None);
    assert!(rt; matches!(opened, Err(InputFault::TooLarge { len: 600 })));
    let opened = open_input(alloc, &mut src, "input.db", 600, Some(512), None);
    assert!(rt; matches!(opened, Ok(Some(_))));
    Ok(())
}

// The field at 16 says 512, the field at 56 the encoding.
fn is_utf16_by(
    rt: &impl Abort,
    alloc: Global,
    encoding: u8,
    page_size: Option<u32>,
) -> Result<bool, Fail>
    requires { IfSome page_size (λ s. s ≡ 512) }
{
    let mut bytes = zeros(alloc, 512)?;
    set(rt, &mut bytes, 16, 2);
    set(rt, &mut bytes, 59, encoding);
    let mut src = SureSource::new(bytes);
    match open_input(alloc, &mut src, "input.db", MAX_INPUT, page_size, None) {
        Ok(Some(input)) => Ok(is_utf16(&input.found)),
        _ => Ok(false),
    }
}

#[test]
fn encodings_2_and_3_of_a_header_that_tells_the_page_size_are_utf_16(
    rt: HostRuntime,
) -> Result<(), Fail> {
    let alloc = rt.alloc();
    assert!(rt; !is_utf16_by(&rt, alloc, 1, None)?);
    assert!(rt; is_utf16_by(&rt, alloc, 2, None)?);
    assert!(rt; is_utf16_by(&rt, alloc, 3, None)?);
    assert!(rt; !is_utf16_by(&rt, alloc, 3, Some(512))?);
    Ok(())
}
