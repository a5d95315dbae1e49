//! Files are built by hand from fileformat2.html, 1.6, 1.7 and 2.1.
ghost use Rattle.std.specs.Prelude.{◌≡◌, ◌⊎◌};

use crate::{CellCause, CellOutcome, PageNotes, cells_of, pointers, read_cells};
use page_access::{Geometry, MemSource, PageCache};
use page_lists::PageTable;
use record_core::Value;
use std::alloc::{AllocError, Global};
use std::test::Fail;

// A file of three pages of this size.
pub(crate) fn geometry(size: u32) -> Geometry
    requires { (size ≡ 512) ⊎ (size ≡ 1024) }
    ensures size { result.page_size ≡ size }
    ensures pages { result.pages ≡ 3 }
{
    Geometry {
        page_size: size,
        usable: size,
        pages: 3,
    }
}

// The page with the piece at a place, where there is room for it.
pub(crate) fn put(page: &mut [u8], at: usize, piece: &[u8]) {
    for (i, byte) in piece.iter().enumerate() {
        if at < page.len() && i < page.len() - at {
            page[at + i] = *byte;
        }
    }
}

// The three pages as a source.
pub(crate) fn source(alloc: Global, pages: [&[u8]; 3]) -> Result<MemSource, AllocError> {
    let mut bytes = Vec::new(alloc);
    for page in pages {
        bytes.extend_from_slice(page)?;
    }
    Ok(MemSource::new(bytes, Vec::new(alloc)))
}

#[test]
fn of_300_pointers_at_one_cell_the_first_is_taken(rt: HostRuntime) -> Result<(), Fail> {
    let alloc = rt.alloc();
    let mut page = [0; 1024];
    put(&mut page, 0, &[13, 0, 0, 1, 44]);
    for i in 0..300 {
        put(&mut page, 8 + 2 * i, &[3, 232]);
    }
    put(&mut page, 1000, &[2, 7, 2, 9]);
    let empty = [0; 1024];
    let mut src = source(alloc, [&empty, &page, &empty])?;
    let mut table = PageTable::new(alloc, 3, 7)?;
    let mut cells = Vec::new(alloc);
    let geo = geometry(1024);
    let mut cache = PageCache::new(alloc, &geo, 1)?;
    let notes = read_cells(alloc, &mut src, &geo, &mut cache, &mut table, 2, &mut cells)?;
    let first = Some((1, CellCause::Overlap));
    assert_eq!(rt; notes, PageNotes { unread: 299, first });
    assert_eq!(rt; cells.len(), 1);
    for cell in &cells {
        assert_eq!(rt;
            (cell.place.page, cell.place.cell, cell.rowid),
            (2, 0, Some(7))
        );
        assert_eq!(rt; cell.chain.len(), 0);
        assert!(rt; matches!(cell.fields.as_slice(), [Value::Whole(1)]));
    }
    Ok(())
}

#[test]
fn an_interior_page_names_its_children_and_then_the_right_most_page(
    rt: HostRuntime,
) -> Result<(), Fail> {
    let alloc = rt.alloc();
    let mut page = [0; 512];
    put(&mut page, 0, &[5, 0, 0, 0, 1, 0, 0, 0, 0, 0, 0, 3, 1, 251]);
    put(&mut page, 507, &[0, 0, 0, 2, 5]);
    let empty = [0; 512];
    let mut src = source(alloc, [&empty, &page, &empty])?;
    let mut named = [9].to_vec(alloc)?;
    let geo = geometry(512);
    let mut cache = PageCache::new(alloc, &geo, 1)?;
    pointers(alloc, &mut src, &geo, &mut cache, 2, &mut named)?;
    assert_eq!(rt; named.as_slice(), [9, 2, 3].as_slice());
    pointers(alloc, &mut src, &geo, &mut cache, 1, &mut named)?;
    assert_eq!(rt; named.len(), 3);
    Ok(())
}

#[test]
fn a_chain_that_names_itself_gives_no_values(rt: HostRuntime) -> Result<(), Fail> {
    let alloc = rt.alloc();
    let mut leaf = [0; 512];
    // 1192 bytes of payload, of which 176 stand here
    put(&mut leaf, 0, &[13, 0, 0, 0, 1, 0, 0, 0, 0, 100]);
    put(&mut leaf, 100, &[0x89, 0x28, 1]);
    put(&mut leaf, 279, &[0, 0, 0, 3]);
    let mut chain = [0; 512];
    put(&mut chain, 0, &[0, 0, 0, 3]);
    let empty = [0; 512];
    let mut src = source(alloc, [&empty, &leaf, &chain])?;
    let mut table = PageTable::new(alloc, 3, 7)?;
    let mut outcomes = Vec::new(alloc);
    let geo = geometry(512);
    let mut cache = PageCache::new(alloc, &geo, 1)?;
    cells_of(
        alloc,
        &mut src,
        &geo,
        &mut cache,
        &mut table,
        2,
        &mut outcomes,
    )?;
    assert_eq!(rt; outcomes.len(), 1);
    for outcome in &outcomes {
        assert!(rt;
            matches!(
                outcome,
                CellOutcome::Unread {
                    cell: 0,
                    rowid: Some(1),
                    cause: CellCause::Chain,
                    ..
                }
            )
        );
        if let CellOutcome::Unread { chain, .. } = outcome {
            assert_eq!(rt; chain.as_slice(), [3].as_slice());
        }
    }
    assert_eq!(rt; table.list_of(3), 4);
    Ok(())
}

#[test]
fn a_row_with_an_overflow_page_is_read(rt: HostRuntime) -> Result<(), Fail> {
    let alloc = rt.alloc();
    let mut leaf = [0; 512];
    // 600 bytes of payload: a record of one blob of 597 bytes (type 1206), of which 89 stand here
    put(&mut leaf, 0, &[13, 0, 0, 0, 1, 0, 0, 0, 0, 100]);
    put(&mut leaf, 100, &[0x84, 0x58, 7, 3, 0x89, 0x36]);
    put(&mut leaf, 195, &[0, 0, 0, 3]);
    let empty = [0; 512];
    let mut src = source(alloc, [&empty, &leaf, &empty])?;
    let mut table = PageTable::new(alloc, 3, 7)?;
    let mut cells = Vec::new(alloc);
    let geo = geometry(512);
    let mut cache = PageCache::new(alloc, &geo, 1)?;
    let notes = read_cells(alloc, &mut src, &geo, &mut cache, &mut table, 2, &mut cells)?;
    assert_eq!(rt;
        notes,
        PageNotes {
            unread: 0,
            first: None
        }
    );
    assert_eq!(rt; cells.len(), 1);
    for cell in &cells {
        assert_eq!(rt; cell.chain.as_slice(), [3].as_slice());
        assert_eq!(rt; cell.fields.len(), 1);
        for field in &cell.fields {
            assert!(rt; matches!(field, Value::Blob(bytes) if bytes.as_slice().len() == 597));
        }
    }
    Ok(())
}
