//! Files of five pages of 512 bytes, built by hand from fileformat2.html, 1.6. Page 1 has its use.
use crate::{OrphanTree, orphans};
use page_access::{Geometry, MemSource, PageCache, ReadFault};
use page_lists::PageTable;
use page_walk::{LISTS, survey};
use std::alloc::Global;
use std::test::Fail;

// Writes a piece at a place, as far as there is room.
fn place(bytes: &mut [u8], at: u16, piece: &[u8]) {
    for (byte, new) in bytes.iter_mut().skip(at as usize).zip(piece) {
        *byte = *new;
    }
}

// The orphan trees of such a file.
fn found(alloc: Global, bytes: Vec<u8>) -> Result<Vec<OrphanTree>, ReadFault> {
    let geo = Geometry {
        page_size: 512,
        usable: 512,
        pages: 5,
    };
    let mut src = MemSource::new(bytes, Vec::new(alloc));
    let mut cache = PageCache::new(alloc, &geo, 5)?;
    let kinds = survey(alloc, &mut src, &geo, &mut cache)?;
    let mut table = PageTable::new(alloc, 5, LISTS)?;
    table.move_to_back(1, 1);
    orphans(alloc, &mut src, &geo, &mut cache, &kinds, &mut table)
}

#[test]
fn a_page_that_no_orphan_page_names_is_a_root(rt: HostRuntime) -> Result<(), Fail> {
    let alloc = rt.alloc();
    let mut bytes = vec![in alloc; 0u8; 2560]?;
    // page 3 has a cell with child 4, and the right-most pointer 5
    place(
        bytes.as_mut_slice(),
        1024,
        b"\x05\x00\x00\x00\x01\x01\xfb\x00\x00\x00\x00\x05\x01\xfb",
    );
    place(bytes.as_mut_slice(), 1531, b"\x00\x00\x00\x04\x01");
    place(bytes.as_mut_slice(), 1536, b"\x0d");
    place(bytes.as_mut_slice(), 2048, b"\x0d");
    let trees = found(alloc, bytes)?;
    let [tree] = trees.as_slice() else {
        assert!(rt; false);
        return Ok(());
    };
    assert_eq!(rt; tree.root, 3);
    assert_eq!(rt; tree.pages.as_slice(), [3, 4, 5].as_slice());
    Ok(())
}

#[test]
fn of_two_pages_that_name_each_other_the_lesser_is_a_root(rt: HostRuntime) -> Result<(), Fail> {
    let alloc = rt.alloc();
    let mut bytes = vec![in alloc; 0u8; 2560]?;
    // pages 3 and 4 have no cells, and the right-most pointers 4 and 3
    let ring = b"\x05\x00\x00\x00\x00\x02\x00\x00\x00\x00\x00";
    place(bytes.as_mut_slice(), 1024, ring);
    place(bytes.as_mut_slice(), 1035, b"\x04");
    place(bytes.as_mut_slice(), 1536, ring);
    place(bytes.as_mut_slice(), 1547, b"\x03");
    let trees = found(alloc, bytes)?;
    let [tree] = trees.as_slice() else {
        assert!(rt; false);
        return Ok(());
    };
    assert_eq!(rt; tree.root, 3);
    assert_eq!(rt; tree.pages.as_slice(), [3, 4].as_slice());
    Ok(())
}
