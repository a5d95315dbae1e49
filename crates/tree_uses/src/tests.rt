//! A file of three pages of 512 bytes, built by hand from fileformat2.html, 1.6 and 2.1: page 2 is a table leaf
//! whose one cell has an overflow chain of page 3.
ghost use Rattle.std.specs.Prelude.{◌≡◌, IfOk, length};

use crate::{TreeTurns, TreeUse, WantedTree, read_trees, walk_trees};
use cell_reader::Kind;
use page_access::{Geometry, MemSource, PageCache, ReadFault};
use page_lists::PageTable;
use page_walk::{CellOutcome, LISTS, survey};
use std::alloc::Global;
use std::test::Fail;

// Writes a piece at a place, as far as there is room.
fn place(bytes: &mut [u8], at: u16, piece: &[u8]) {
    for (byte, new) in bytes.iter_mut().skip(at as usize).zip(piece) {
        *byte = *new;
    }
}

fn wanted(row: u32, root: i64, kind: Option<Kind>) -> WantedTree {
    WantedTree { row, root, kind }
}

// Four trees over the file, the turns of their cells, and the lists of the pages.
fn trees(alloc: Global) -> Result<(Vec<TreeUse>, Vec<TreeTurns>, [u32; 3]), ReadFault>
    ensures { IfOk result (λ r. (length r.0.items ≡ 4) × (length r.1.items ≡ 4)) }
{
    let mut bytes = vec![in alloc; 0u8; 1536]?;
    let all = bytes.as_mut_slice();
    place(all, 512, b"\x0d\x00\x00\x00\x01\x01\xd2\x00\x01\xd2");
    // a blob of 475 bytes in a payload of 478, of which 39 are local
    place(all, 978, b"\x83\x5e\x01\x03\x87\x42");
    place(all, 1020, b"\x00\x00\x00\x03");
    let geo = Geometry {
        page_size: 512,
        usable: 512,
        pages: 3,
    };
    let mut src = MemSource::new(bytes, Vec::new(alloc));
    let mut cache = PageCache::new(alloc, &geo, 3)?;
    let kinds = survey(alloc, &mut src, &geo, &mut cache)?;
    let mut table = PageTable::new(alloc, 3, LISTS)?;
    let named = [
        wanted(0, 2, Some(Kind::Table)),
        wanted(1, 2, Some(Kind::Table)),
        wanted(2, 3, Some(Kind::Index)),
        wanted(3, 2, None),
    ];
    let trees = walk_trees(
        alloc, &mut src, &geo, &mut cache, &kinds, &mut table, &named, 2,
    )?;
    let turns = read_trees(alloc, &mut src, &geo, &mut cache, &mut table, &trees)?;
    let lists = [table.list_of(1), table.list_of(2), table.list_of(3)];
    Ok((trees, turns, lists))
}

#[test]
fn a_page_is_of_the_first_tree_that_names_it(rt: HostRuntime) -> Result<(), Fail> {
    let (trees, _turns, lists) = trees(rt.alloc())?;
    assert_eq!(rt; trees[0].pages.as_slice(), [2].as_slice());
    assert_eq!(rt; trees[1].pages.len(), 0);
    assert_eq!(rt; trees[2].pages.len(), 0);
    assert_eq!(rt; trees[3].pages.len(), 0);
    assert_eq!(rt; (trees[3].row, trees[3].list), (3, 2));
    assert_eq!(rt; lists, [0, 2, 4]);
    Ok(())
}

#[test]
fn the_turns_of_a_tree_are_those_of_its_pages(rt: HostRuntime) -> Result<(), Fail> {
    let (_trees, turns, _lists) = trees(rt.alloc())?;
    assert_eq!(rt; turns[0].turns.len(), 1);
    assert_eq!(rt; turns[1].turns.len(), 0);
    assert_eq!(rt; turns[3].turns.len(), 0);
    for turn in &turns[0].turns {
        assert_eq!(rt; turn.page, 2);
        let [CellOutcome::Taken(cell)] = turn.outcomes.as_slice() else {
            assert!(rt; false);
            return Ok(());
        };
        assert_eq!(rt; cell.rowid, Some(1));
        assert_eq!(rt; cell.chain.as_slice(), [3].as_slice());
        assert_eq!(rt; cell.fields.len(), 1);
    }
    Ok(())
}
