ghost use Rattle.std.specs.Prelude.{◌<◌, length};

use crate::PageTable;
use std::process::Abort;
use std::test::Fail;

// List `list` has these pages, by `first`, `next` and `len`.
fn assert_list(rt: &impl Abort, table: &PageTable, list: u32, pages: &[u32])
    requires { list < length table.now.lists }
{
    assert_eq!(rt; table.len(list) as usize, pages.len());
    let mut at = table.first(list);
    for page in pages {
        assert_eq!(rt; at, Some(*page));
        assert!(rt; 1 <= *page && *page <= table.pages());
        assert_eq!(rt; table.list_of(*page), list);
        at = table.next(*page);
    }
    assert_eq!(rt; at, None);
}

#[test]
fn three_pages_move_between_two_lists(rt: HostRuntime) -> Result<(), Fail> {
    let mut table = PageTable::new(rt.alloc(), 3, 2)?;
    assert_eq!(rt; table.pages(), 3);
    assert_list(&rt, &table, 0, &[1, 2, 3]);
    assert_list(&rt, &table, 1, &[]);
    table.move_to_back(2, 1);
    assert_list(&rt, &table, 0, &[1, 3]);
    assert_list(&rt, &table, 1, &[2]);
    table.move_to_back(1, 1);
    assert_list(&rt, &table, 0, &[3]);
    assert_list(&rt, &table, 1, &[2, 1]);
    assert_eq!(rt; table.next(2), Some(1));
    assert_eq!(rt; table.next(1), None);
    table.move_to_back(2, 1);
    assert_list(&rt, &table, 1, &[1, 2]);
    Ok(())
}

#[test]
fn a_table_of_no_pages_has_empty_lists(rt: HostRuntime) -> Result<(), Fail> {
    let table = PageTable::new(rt.alloc(), 0, 16)?;
    assert_eq!(rt; table.pages(), 0);
    assert_list(&rt, &table, 0, &[]);
    assert_list(&rt, &table, 15, &[]);
    Ok(())
}

#[test]
fn all_pages_stand_in_the_one_list(rt: HostRuntime) -> Result<(), Fail> {
    let table = PageTable::new(rt.alloc(), 3, 1)?;
    assert_list(&rt, &table, 0, &[1, 2, 3]);
    Ok(())
}
