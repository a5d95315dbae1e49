//! Pages are built by hand from fileformat2.html, 1.6.
ghost use Rattle.std.specs.Prelude.{◌≡◌, ◌≤◌};

use crate::{Accepted, CellFault, CellView, Kind, cell, right_child, shape};
use page_access::Geometry;
use std::test::Fail;

// Pages of 512 bytes in a file of ten.
fn geometry(usable: u32) -> Geometry
    requires least { 480 ≤ usable }
    requires most { usable ≤ 512 }
    ensures { result.usable ≡ usable }
{
    Geometry {
        page_size: 512,
        usable,
        pages: 10,
    }
}

// A page of this type with one cell, which begins at `start` with these bytes.
fn page_with(kind: u8, start: u16, bytes: [u8; 6]) -> [u8; 512] {
    let mut page = [0; 512];
    page[0] = kind;
    page[4] = 1;
    let array = if kind < 8 { 12 } else { 8 };
    page[array] = (start / 256) as u8;
    page[array + 1] = (start % 256) as u8;
    for (i, byte) in bytes.iter().enumerate() {
        let at = start as usize + i;
        if at < 512 {
            page[at] = *byte;
        }
    }
    page
}

// The first cell of the page, where it has one.
fn first_cell(page: &[u8; 512], usable: u32) -> Option<Result<CellView, CellFault>>
    requires least { 480 ≤ usable }
    requires most { usable ≤ 512 }
{
    let geo = geometry(usable);
    let shape = shape(page, 2, &geo)?;
    if shape.cells == 0 {
        return None;
    }
    Some(cell(page, &shape, &geo, 0))
}

// Local bytes of the first cell's payload, and those on overflow pages.
fn local_and_missing(page: &[u8; 512], usable: u32) -> Option<(u64, u64)>
    requires least { 480 ≤ usable }
    requires most { usable ≤ 512 }
{
    let view = first_cell(page, usable)?.ok()?;
    let local = u64::from(view.local_end.saturating_sub(view.local_start));
    Some((local, view.total.saturating_sub(local)))
}

#[test]
fn payloads_on_a_table_leaf_spill_past_35_bytes_less_than_the_usable_size(rt: HostRuntime) {
    for (high, low, local, missing) in [
        (0x83, 0x5d, 477, 0),
        (0x83, 0x5e, 39, 439),
        (0x84, 0x58, 92, 508),
        (0x87, 0x59, 477, 508),
        (0x87, 0x5a, 39, 947),
    ] {
        let page = page_with(13, 28, [high, low, 1, 0, 0, 0]);
        assert_eq!(rt; local_and_missing(&page, 512), Some((local, missing)));
    }
    for (low, local, missing) in [(0x3d, 445, 0), (0x3e, 35, 411)] {
        let page = page_with(13, 28, [0x83, low, 1, 0, 0, 0]);
        assert_eq!(rt; local_and_missing(&page, 480), Some((local, missing)));
    }
}

#[test]
fn payloads_on_an_index_page_spill_past_a_quarter_of_it(rt: HostRuntime) {
    for (len, local, missing) in [(102, 102, 0), (103, 39, 64)] {
        let leaf = page_with(10, 28, [len, 0, 0, 0, 0, 0]);
        assert_eq!(rt; local_and_missing(&leaf, 512), Some((local, missing)));
        let interior = page_with(2, 28, [0, 0, 0, 9, len, 0]);
        assert_eq!(rt; local_and_missing(&interior, 512), Some((local, missing)));
    }
}

#[test]
fn the_first_fault_of_a_cell_is_told(rt: HostRuntime) {
    for (start, bytes, fault) in [
        (9, [1, 1, 0, 0, 0, 0], CellFault::Pointer),
        (512, [0, 0, 0, 0, 0, 0], CellFault::Pointer),
        (500, [0, 1, 0, 0, 0, 0], CellFault::Length),
        (500, [0xa8, 0x01, 1, 0, 0, 0], CellFault::Length),
        (510, [0xa8, 0x01, 0, 0, 0, 0], CellFault::Cut),
        (511, [0, 0, 0, 0, 0, 0], CellFault::Cut),
        (509, [2, 1, 0, 0, 0, 0], CellFault::Cut),
    ] {
        assert_eq!(rt;
            first_cell(&page_with(13, start, bytes), 512),
            Some(Err(fault))
        );
    }
    let cut_child = page_with(5, 509, [0, 0, 0, 9, 1, 0]);
    assert_eq!(rt; first_cell(&cut_child, 512), Some(Err(CellFault::Cut)));
}

#[test]
fn cells_of_the_four_kinds_of_pages(rt: HostRuntime) {
    let view = CellView {
        start: 500,
        end: 504,
        child: None,
        rowid: Some(7),
        total: 2,
        local_start: 502,
        local_end: 504,
        overflow: None,
    };
    let leaf = page_with(13, 500, [2, 7, 1, 0, 0, 0]);
    assert_eq!(rt; first_cell(&leaf, 512), Some(Ok(view)));
    let index_leaf = CellView {
        end: 503,
        rowid: None,
        local_start: 501,
        local_end: 503,
        ..view
    };
    assert_eq!(rt;
        first_cell(&page_with(10, 500, [2, 1, 9, 0, 0, 0]), 512),
        Some(Ok(index_leaf))
    );
    let index = CellView {
        end: 507,
        child: Some(3),
        rowid: None,
        local_start: 505,
        local_end: 507,
        ..view
    };
    assert_eq!(rt;
        first_cell(&page_with(2, 500, [0, 0, 0, 3, 2, 1]), 512),
        Some(Ok(index))
    );
    let table = CellView {
        end: 505,
        child: Some(3),
        rowid: Some(5),
        total: 0,
        local_start: 505,
        local_end: 505,
        ..view
    };
    assert_eq!(rt;
        first_cell(&page_with(5, 500, [0, 0, 0, 3, 5, 0]), 512),
        Some(Ok(table))
    );
    assert_eq!(rt;
        first_cell(&page_with(4, 500, [0, 0, 0, 3, 5, 0]), 512),
        None
    );
}

#[test]
fn a_key_of_nine_bytes_is_negative(rt: HostRuntime) {
    let mut page = page_with(5, 496, [0, 0, 0, 3, 0xff, 0xff]);
    for i in 502..509 {
        page[i] = 0xff;
    }
    let key = first_cell(&page, 512)
        .ok_or(())
        .and_then(|c| c.map_err(|_| ()))
        .map(|v| v.rowid);
    assert_eq!(rt; key, Ok(Some(-1)));
}

#[test]
fn the_header_of_page_1_stands_behind_the_files(rt: HostRuntime) -> Result<(), Fail> {
    let mut page = [0; 512];
    page[100] = 5;
    page[111] = 4;
    let shape = shape(&page, 1, &geometry(512)).ok_or("page 1 has a shape")?;
    assert_eq!(rt; shape.kind, Kind::Table);
    assert_eq!(rt;
        (shape.leaf, shape.cells, shape.head, shape.array_end),
        (false, 0, 100, 112)
    );
    assert_eq!(rt; right_child(&page, &shape), Some(4));
    Ok(())
}

#[test]
fn a_range_is_accepted_where_it_shares_no_byte_with_an_accepted_one(
    rt: HostRuntime,
) -> Result<(), Fail> {
    let mut accepted = Accepted::new(rt.alloc(), 512)?;
    assert!(rt; accepted.offer(100, 120));
    assert!(rt; !accepted.offer(119, 121));
    assert!(rt; !accepted.offer(90, 101));
    assert!(rt; !accepted.offer(90, 130));
    assert!(rt; accepted.offer(120, 512));
    assert!(rt; accepted.offer(90, 100));
    accepted.clear();
    assert!(rt; accepted.offer(90, 130));
    Ok(())
}

#[test]
fn ranges_over_many_blocks_are_told_apart(rt: HostRuntime) -> Result<(), Fail> {
    let mut accepted = Accepted::new(rt.alloc(), 2048)?;
    assert!(rt; accepted.offer(1000, 1001));
    assert!(rt; !accepted.offer(1, 1500));
    assert!(rt; accepted.offer(1001, 1500));
    Ok(())
}

#[test]
fn a_range_may_end_or_begin_where_a_long_one_begins_or_ends(rt: HostRuntime) -> Result<(), Fail> {
    let mut accepted = Accepted::new(rt.alloc(), 2048)?;
    assert!(rt; accepted.offer(1000, 1500));
    assert!(rt; accepted.offer(1, 1000));
    assert!(rt; !accepted.offer(1499, 2048));
    assert!(rt; accepted.offer(1500, 2048));
    Ok(())
}
