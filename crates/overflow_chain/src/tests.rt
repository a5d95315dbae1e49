//! The chains are written by hand: an overflow page is the number of the next page in four bytes, the
//! highest first, and then content (fileformat2.html, 1.7). Pages here have 512 bytes, so 508 of content.
ghost use Rattle.std.specs.Prelude.{◌≡◌};

use crate::{ChainEnd, OVERFLOW_LIST, Why, read_chain};
use page_access::{Geometry, MemSource, ReadFault};
use page_lists::PageTable;
use std::alloc::{AllocError, Global};
use std::test::Fail;

// Five pages, which name these pages; the content of page p is the byte p.
fn five_pages(alloc: Global, next: [u32; 5]) -> Result<Vec<u8>, AllocError> {
    let mut bytes = Vec::new(alloc);
    for (place, number) in next.iter().enumerate() {
        bytes.extend_from_slice(&number.to_be_bytes())?;
        bytes.extend_from_slice(&[place as u8 + 1; 508])?;
    }
    Ok(bytes)
}

fn geometry() -> Geometry
    ensures size { result.page_size ≡ 512 }
    ensures usable { result.usable ≡ 512 }
    ensures pages { result.pages ≡ 5 }
{
    Geometry {
        page_size: 512,
        usable: 512,
        pages: 5,
    }
}

#[test]
fn a_chain_through_a_used_page_breaks_off_there(rt: HostRuntime) -> Result<(), Fail> {
    let alloc = rt.alloc();
    let mut src = MemSource::new(five_pages(alloc, [0, 3, 4, 5, 0])?, Vec::new(alloc));
    let mut table = PageTable::new(alloc, 5, 7)?;
    table.move_to_back(5, 2);
    let mut pages = Vec::new(alloc);
    let mut to = Vec::new(alloc);
    let end = read_chain(
        alloc,
        &mut src,
        &geometry(),
        &mut table,
        3,
        1524,
        &mut pages,
        &mut to,
    );
    assert_eq!(rt;
        end,
        Ok(ChainEnd::Broken {
            at: 5,
            why: Why::Used
        })
    );
    let mut content = [3; 508].to_vec(alloc)?;
    content.extend_from_slice(&[4; 508])?;
    assert_eq!(rt; to.as_slice(), content.as_slice());
    assert_eq!(rt; pages.as_slice(), [3, 4].as_slice());
    assert_eq!(rt; table.first(OVERFLOW_LIST), Some(3));
    assert_eq!(rt; table.next(3), Some(4));
    assert_eq!(rt; table.next(4), None);
    assert_eq!(rt; table.list_of(5), 2);
    assert_eq!(rt; src.reads(), 2);
    Ok(())
}

#[test]
fn the_last_page_is_cut_and_its_number_is_not_looked_at(rt: HostRuntime) -> Result<(), Fail> {
    let alloc = rt.alloc();
    let mut src = MemSource::new(five_pages(alloc, [0, 4, 0, 99, 0])?, Vec::new(alloc));
    let mut table = PageTable::new(alloc, 5, 7)?;
    let mut pages = [1].to_vec(alloc)?;
    let mut to = [8].to_vec(alloc)?;
    let end = read_chain(
        alloc,
        &mut src,
        &geometry(),
        &mut table,
        2,
        510,
        &mut pages,
        &mut to,
    );
    assert_eq!(rt; end, Ok(ChainEnd::Whole));
    let mut content = [8].to_vec(alloc)?;
    content.extend_from_slice(&[2; 508])?;
    content.extend_from_slice(&[4; 2])?;
    assert_eq!(rt; to.as_slice(), content.as_slice());
    assert_eq!(rt; pages.as_slice(), [1, 2, 4].as_slice());
    assert_eq!(rt; table.len(OVERFLOW_LIST), 2);
    assert_eq!(rt; table.len(0), 3);
    Ok(())
}

#[test]
fn a_page_that_names_itself_is_used(rt: HostRuntime) -> Result<(), Fail> {
    let alloc = rt.alloc();
    let mut src = MemSource::new(five_pages(alloc, [0, 0, 3, 0, 0])?, Vec::new(alloc));
    let mut table = PageTable::new(alloc, 5, 7)?;
    let mut pages = Vec::new(alloc);
    let mut to = Vec::new(alloc);
    let end = read_chain(
        alloc,
        &mut src,
        &geometry(),
        &mut table,
        3,
        1016,
        &mut pages,
        &mut to,
    );
    assert_eq!(rt;
        end,
        Ok(ChainEnd::Broken {
            at: 3,
            why: Why::Used
        })
    );
    assert_eq!(rt; pages.as_slice(), [3].as_slice());
    Ok(())
}

#[test]
fn numbers_of_no_page_are_out_of_range(rt: HostRuntime) -> Result<(), Fail> {
    let alloc = rt.alloc();
    let mut src = MemSource::new(five_pages(alloc, [0, 0, 0, 0, 0])?, Vec::new(alloc));
    let mut table = PageTable::new(alloc, 5, 7)?;
    let mut pages = Vec::new(alloc);
    let mut to = Vec::new(alloc);
    let end = read_chain(
        alloc,
        &mut src,
        &geometry(),
        &mut table,
        6,
        509,
        &mut pages,
        &mut to,
    );
    assert_eq!(rt;
        end,
        Ok(ChainEnd::Broken {
            at: 6,
            why: Why::Range
        })
    );
    assert_eq!(rt; src.reads(), 0);
    let end = read_chain(
        alloc,
        &mut src,
        &geometry(),
        &mut table,
        5,
        509,
        &mut pages,
        &mut to,
    );
    assert_eq!(rt;
        end,
        Ok(ChainEnd::Broken {
            at: 0,
            why: Why::Range
        })
    );
    assert_eq!(rt; to.as_slice(), [5; 508].as_slice());
    assert_eq!(rt; table.first(OVERFLOW_LIST), Some(5));
    Ok(())
}

#[test]
fn a_failed_read_is_the_sources(rt: HostRuntime) -> Result<(), Fail> {
    let alloc = rt.alloc();
    let mut src = MemSource::new(five_pages(alloc, [2, 3, 0, 0, 0])?, [2].to_vec(alloc)?);
    let mut table = PageTable::new(alloc, 5, 7)?;
    let mut pages = Vec::new(alloc);
    let mut to = Vec::new(alloc);
    let end = read_chain(
        alloc,
        &mut src,
        &geometry(),
        &mut table,
        1,
        1524,
        &mut pages,
        &mut to,
    );
    assert_eq!(rt; end, Err(ReadFault::Source));
    assert_eq!(rt; table.len(OVERFLOW_LIST), 1);
    Ok(())
}
