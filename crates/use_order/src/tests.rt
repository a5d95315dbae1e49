//! A file of two pages of 512 bytes, built by hand from fileformat2.html, 1.6, 2.1 and 2.6: two tables and an
//! index, all with root page 2, which is a table leaf with two rows.
ghost use Rattle.std.specs.Prelude.{◌≡◌, ◌≤◌, IfOk, length};

use crate::{FileUses, INDEX_LIST, TABLE_LIST, find_uses};
use page_access::{Geometry, MemSource, PageCache, ReadFault};
use page_lists::PageTable;
use page_walk::{LISTS, survey};
use schema_texts::Reading;
use std::alloc::Global;
use std::test::Fail;

// Writes a piece at a place, as far as there is room.
fn place(bytes: &mut [u8], at: u16, piece: &[u8]) {
    for (byte, new) in bytes.iter_mut().skip(at as usize).zip(piece) {
        *byte = *new;
    }
}

fn uses(alloc: Global) -> Result<(FileUses, PageTable), ReadFault>
    ensures { IfOk result (λ r. (r.1.pages ≡ 2) × (length r.1.lists ≡ 7)) }
{
    let mut bytes = vec![in alloc; 0u8; 1024]?;
    let all = bytes.as_mut_slice();
    place(
        all,
        100,
        b"\x0d\x00\x00\x00\x03\x01\xaa\x00\x01\xdd\x01\xba\x01\xaa",
    );
    place(
        all,
        477,
        b"\x21\x01\x06\x17\x0f\x0f\x01\x33tablett\x02CREATE TABLE t(a,b)",
    );
    place(
        all,
        442,
        b"\x21\x02\x06\x17\x0f\x0f\x01\x33tableuu\x02CREATE TABLE u(a,b)",
    );
    place(all, 426, b"\x0e\x03\x06\x17\x0f\x0f\x01\x00indexit\x02");
    place(
        all,
        512,
        b"\x0d\x00\x00\x00\x02\x01\xf3\x00\x01\xf9\x01\xf3",
    );
    place(
        all,
        1011,
        b"\x04\x02\x03\x00\x0e\x00\x05\x01\x03\x01\x0f\x05\x78",
    );
    let geo = Geometry {
        page_size: 512,
        usable: 512,
        pages: 2,
    };
    let mut src = MemSource::new(bytes, Vec::new(alloc));
    let mut cache = PageCache::new(alloc, &geo, 2)?;
    let kinds = survey(alloc, &mut src, &geo, &mut cache)?;
    let mut table = PageTable::new(alloc, 2, LISTS)?;
    let found = find_uses(alloc, &mut src, &geo, &mut cache, &kinds, &mut table)?;
    Ok((found, table))
}

#[test]
fn a_page_is_of_the_first_table_that_names_it(rt: HostRuntime) -> Result<(), Fail> {
    let (found, table) = uses(rt.alloc())?;
    assert_eq!(rt; found.schema.rows.len(), 3);
    assert_eq!(rt; found.tables.len(), 2);
    assert_eq!(rt; found.tables[0].pages.as_slice(), [2].as_slice());
    assert_eq!(rt; found.tables[1].pages.len(), 0);
    assert_eq!(rt; found.indexes.len(), 1);
    assert_eq!(rt;
        (found.indexes[0].row, found.indexes[0].pages.len()),
        (2, 0)
    );
    assert_eq!(rt; table.list_of(2), TABLE_LIST);
    assert_eq!(rt; table.len(INDEX_LIST), 0);
    Ok(())
}

#[test]
fn the_cells_of_a_table_are_those_of_its_tree(rt: HostRuntime) -> Result<(), Fail> {
    let (found, _table) = uses(rt.alloc())?;
    assert_eq!(rt; found.readings.len(), 2);
    assert!(rt; matches!(found.readings[1].reading, Reading::Shape(_)));
    assert_eq!(rt; found.turns.len(), 2);
    assert_eq!(rt; found.turns[0].turns.len(), 1);
    assert_eq!(rt; found.turns[0].turns[0].outcomes.len(), 2);
    assert_eq!(rt; found.turns[1].turns.len(), 0);
    Ok(())
}
