//! Files of five pages of 512 bytes, built by hand from fileformat2.html, 1.5, 1.6 and 2.1. Page 1 has its use.
ghost use Rattle.std.specs.Prelude.{◌≡◌, IfOk, length};

use crate::{OrphanUses, find_orphans};
use freelist_core::FREE_LIST;
use orphan_trees::ORPHAN_LIST;
use page_access::{Geometry, MemSource, PageCache, ReadFault};
use page_lists::PageTable;
use page_walk::{LISTS, survey};
use std::alloc::Global;
use std::test::Fail;

// Writes a piece at a place, as far as there is room.
fn place(bytes: &mut [u8], at: u16, piece: &[u8]) {
    for (byte, new) in bytes.iter_mut().skip(at as usize).zip(piece) {
        *byte = *new;
    }
}

// Writes a table leaf with one row, whose only field is 'z'.
fn leaf(bytes: &mut [u8], at: u16) {
    place(bytes, at, b"\x0d\x00\x00\x00\x01\x01\xfb\x00\x01\xfb");
    place(bytes, at.saturating_add(507), b"\x03\x09\x02\x0fz");
}

// The orphan trees of such a file, and the table of its pages.
fn found(
    alloc: Global,
    bytes: Vec<u8>,
    first_trunk: Option<u32>,
) -> Result<(OrphanUses, PageTable), ReadFault>
    ensures { IfOk result (λ r. (r.1.pages ≡ 5) × (length r.1.lists ≡ 7)) }
{
    let geo = Geometry {
        page_size: 512,
        usable: 512,
        pages: 5,
    };
    let mut src = MemSource::new(bytes, Vec::new(alloc));
    let mut cache = PageCache::new(alloc, &geo, 2)?;
    let kinds = survey(alloc, &mut src, &geo, &mut cache)?;
    let mut table = PageTable::new(alloc, 5, LISTS)?;
    table.move_to_back(1, 1);
    let uses = find_orphans(
        alloc,
        &mut src,
        &geo,
        &mut cache,
        &kinds,
        &mut table,
        first_trunk,
    )?;
    Ok((uses, table))
}

#[test]
fn an_interior_page_and_its_leaves_are_one_tree(rt: HostRuntime) -> Result<(), Fail> {
    let alloc = rt.alloc();
    let mut bytes = vec![in alloc; 0u8; 2560]?;
    // page 3 has a cell with child 4, and the right-most pointer 5
    place(
        bytes.as_mut_slice(),
        1024,
        b"\x05\x00\x00\x00\x01\x01\xfb\x00\x00\x00\x00\x05\x01\xfb",
    );
    place(bytes.as_mut_slice(), 1531, b"\x00\x00\x00\x04\x01");
    leaf(bytes.as_mut_slice(), 1536);
    leaf(bytes.as_mut_slice(), 2048);
    let (uses, table) = found(alloc, bytes, None)?;
    assert_eq!(rt; uses.trees.len(), 1);
    assert_eq!(rt; uses.trees[0].root, 3);
    assert_eq!(rt; uses.trees[0].pages.as_slice(), [3, 4, 5].as_slice());
    assert_eq!(rt; uses.turns.len(), 1);
    assert_eq!(rt; uses.turns[0].turns.len(), 3);
    assert_eq!(rt; uses.turns[0].turns[0].outcomes.len(), 0);
    assert_eq!(rt; uses.turns[0].turns[2].outcomes.len(), 1);
    assert_eq!(rt; table.len(ORPHAN_LIST), 3);
    assert_eq!(rt; table.len(0), 1);
    Ok(())
}

#[test]
fn a_free_page_with_an_old_leaf_is_an_orphan_where_the_freelist_is_not_looked_at(
    rt: HostRuntime,
) -> Result<(), Fail> {
    let alloc = rt.alloc();
    let mut bytes = vec![in alloc; 0u8; 2560]?;
    // page 3 is the last trunk, with the leaf 4
    place(
        bytes.as_mut_slice(),
        1024,
        b"\x00\x00\x00\x00\x00\x00\x00\x01\x00\x00\x00\x04",
    );
    leaf(bytes.as_mut_slice(), 1536);
    let again = bytes.clone()?;
    let (uses, table) = found(alloc, bytes, Some(3))?;
    assert_eq!(rt; uses.trees.len(), 0);
    assert_eq!(rt; table.len(FREE_LIST), 2);
    let (uses, table) = found(alloc, again, None)?;
    assert_eq!(rt; uses.trees.len(), 1);
    assert_eq!(rt; uses.trees[0].root, 4);
    assert_eq!(rt; uses.trees[0].pages.as_slice(), [4].as_slice());
    assert_eq!(rt; table.len(FREE_LIST), 0);
    Ok(())
}
