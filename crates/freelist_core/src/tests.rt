//! The trunks are written by hand: the next trunk in four bytes, how many leaves, and the leaves in four
//! bytes each, the highest first (fileformat2.html, 1.5). Pages here have 512 bytes, so room for 126 leaves.
ghost use Rattle.std.specs.Prelude.{◌≡◌};

use crate::{FREE_LIST, mark_free};
use page_access::{Geometry, MemSource, ReadFault};
use page_lists::PageTable;
use std::alloc::{AllocError, Global};
use std::test::Fail;

// Four pages, of which page 3 begins with these numbers; all else is zero.
fn with_trunk(alloc: Global, numbers: &[u32]) -> Result<Vec<u8>, AllocError> {
    let mut bytes = [0; 1024].to_vec(alloc)?;
    for number in numbers {
        bytes.extend_from_slice(&number.to_be_bytes())?;
    }
    bytes.resize(2048, 0)?;
    Ok(bytes)
}

fn geometry() -> Geometry
    ensures size { result.page_size ≡ 512 }
    ensures usable { result.usable ≡ 512 }
    ensures pages { result.pages ≡ 4 }
{
    Geometry {
        page_size: 512,
        usable: 512,
        pages: 4,
    }
}

// How many pages the freelist from page 3 on takes, and what stands in the list then.
fn marked(alloc: Global, numbers: &[u32]) -> Result<(u32, Option<u32>, Option<u32>), Fail> {
    let mut src = MemSource::new(with_trunk(alloc, numbers)?, Vec::new(alloc));
    let mut table = PageTable::new(alloc, 4, 7)?;
    let count = mark_free(alloc, &mut src, &geometry(), &mut table, 3)?;
    let first = table.first(FREE_LIST);
    let second = match first {
        Some(page) if 1 <= page && page <= table.pages() => table.next(page),
        _ => None,
    };
    Ok((count, first, second))
}

#[test]
fn a_trunk_takes_its_leaf_and_a_count_that_is_too_large_names_none(
    rt: HostRuntime,
) -> Result<(), Fail> {
    let alloc = rt.alloc();
    assert_eq!(rt; marked(alloc, &[0, 1, 4])?, (2, Some(3), Some(4)));
    assert_eq!(rt; marked(alloc, &[0, u32::MAX, 4])?, (1, Some(3), None));
    assert_eq!(rt; marked(alloc, &[1, 127, 4])?, (1, Some(3), None));
    Ok(())
}

#[test]
fn a_list_in_a_circle_and_leaves_that_are_no_unused_pages_are_passed_over(
    rt: HostRuntime,
) -> Result<(), Fail> {
    let alloc = rt.alloc();
    // it names itself; its leaves are itself, page 0, page 5, and one page twice
    assert_eq!(rt; marked(alloc, &[3, 0])?, (1, Some(3), None));
    assert_eq!(rt;
        marked(alloc, &[3, 5, 3, 0, 5, 4, 4])?,
        (2, Some(3), Some(4))
    );
    Ok(())
}

#[test]
fn a_read_that_fails_is_told_and_moves_nothing(rt: HostRuntime) -> Result<(), Fail> {
    let alloc = rt.alloc();
    let mut src = MemSource::new(with_trunk(alloc, &[0, 1, 4])?, [1].to_vec(alloc)?);
    let mut table = PageTable::new(alloc, 4, 7)?;
    let answer = mark_free(alloc, &mut src, &geometry(), &mut table, 3);
    assert_eq!(rt; answer, Err(ReadFault::Source));
    assert_eq!(rt; table.first(FREE_LIST), None);
    assert_eq!(rt; src.reads(), 1);
    Ok(())
}
