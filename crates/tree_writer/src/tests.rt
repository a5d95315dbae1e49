use super::*;
use std::alloc::{AllocError, Global};
use std::test::*;

// The expected bytes are laid out by hand from fileformat2.html, 1.6 and 1.7.

// Entries of one length, each filled with its own number; rowids from 0 on, or none.
#[derive(Drop)]
struct Alike {
    count: u32,
    len: u64,
    rowids: bool,
}

impl Entries for Alike {
    ghost use Rattle.tree_writer.specs.Alike.{alike_from};

    ghost entries = { λ s. alike_from s.rowids s.len 0 s.count };

    fn count(&self) -> u32 {
        self.count
    }

    fn rowid(&self, i: u32) -> Option<i64> {
        if self.rowids {
            Some(i64::from(i))
        } else {
            None
        }
    }

    fn payload_len(&self, _i: u32) -> u64 {
        self.len
    }

    fn payload(&self, i: u32, to: &mut [u8]) {
        to.fill((i % 256) as u8);
    }
}

#[test]
fn hundred_entries_of_forty_bytes_take_eleven_pages(rt: HostRuntime) -> Result<(), Fail> {
    let entries = Alike {
        count: 100,
        len: 40,
        rowids: true,
    };
    let plan = TreePlan::table(rt.alloc(), 512, &entries)?;
    assert_eq!(rt; plan.page_count(), 11);
    assert_eq!(rt; plan.root(), 10);
    Ok(())
}

#[test]
fn twenty_index_entries_of_hundred_bytes_take_six_pages(rt: HostRuntime) -> Result<(), Fail> {
    let entries = Alike {
        count: 20,
        len: 100,
        rowids: false,
    };
    let plan = TreePlan::index(rt.alloc(), 512, &entries)?;
    assert_eq!(rt; plan.page_count(), 6);
    assert_eq!(rt; plan.root(), 5);
    let mut scratch = [0u8; 100];
    let mut page = [0u8; 512];
    let numbers = Numbering { start: 2, lock: 4 };
    let mut cells = Vec::new(rt.alloc());
    for k in 0..6 {
        plan.write_page(k, &numbers, &entries, &mut scratch, &mut page);
        cells.push(page[4])?;
    }
    assert_eq!(rt; cells.as_slice(), [4, 4, 4, 3, 1, 4].as_slice());
    assert_eq!(rt; page[0], 2);
    assert_eq!(rt; &page[8..12], [0, 0, 0, 7].as_slice());
    Ok(())
}

// Four entries fit a leaf, and four cells an interior page: nine leaves, two pages over them, the root.
#[test]
fn forty_index_entries_of_hundred_bytes_take_three_levels(rt: HostRuntime) -> Result<(), Fail> {
    let entries = Alike {
        count: 40,
        len: 100,
        rowids: false,
    };
    let plan = TreePlan::index(rt.alloc(), 512, &entries)?;
    assert_eq!(rt; plan.page_count(), 12);
    assert_eq!(rt; plan.root(), 11);
    let numbers = Numbering { start: 2, lock: 0 };
    let mut scratch = [0u8; 100];
    let mut page = [0u8; 512];
    plan.write_page(11, &numbers, &entries, &mut scratch, &mut page);
    assert_eq!(rt;
        &page[0..12],
        [2, 0, 0, 0, 1, 1, 151, 0, 0, 0, 0, 12].as_slice()
    );
    // The cell names the page before, and holds the entry between the two.
    assert_eq!(rt; &page[407..413], [0, 0, 0, 11, 100, 24].as_slice());
    Ok(())
}

// On pages of 512 bytes 256 bytes of each payload are local, and 508 stand on each of its 1,968 overflow
// pages; the two leaves and the root are three more.
#[test]
fn payloads_of_a_million_bytes_fill_their_overflow_pages(rt: HostRuntime) -> Result<(), Fail> {
    let entries = Alike {
        count: 2,
        len: 1_000_000,
        rowids: true,
    };
    let plan = TreePlan::table(rt.alloc(), 512, &entries)?;
    assert_eq!(rt; plan.page_count(), 3939);
    assert_eq!(rt; plan.root(), 3938);
    Ok(())
}

#[test]
fn the_number_of_the_lock_page_is_left_out(rt: HostRuntime) -> Result<(), Fail> {
    let numbers = Numbering { start: 2, lock: 4 };
    assert_eq!(rt; numbers.number(0), 2);
    assert_eq!(rt; numbers.number(1), 3);
    assert_eq!(rt; numbers.number(2), 5);
    assert_eq!(rt; numbers.number(3), 6);
    Ok(())
}

// Four cells of 100 bytes fit a leaf of 512 bytes, and page 1 with 100 bytes less does not hold them.
#[test]
fn a_schema_that_almost_fits_page_1_has_a_right_most_pointer_alone(
    rt: HostRuntime,
) -> Result<(), Fail> {
    let entries = Alike {
        count: 4,
        len: 98,
        rowids: true,
    };
    let plan = TreePlan::schema(rt.alloc(), 512, &entries)?;
    assert_eq!(rt; plan.page_count(), 2);
    assert_eq!(rt; plan.root(), 0);
    let numbers = Numbering { start: 7, lock: 0 };
    let mut scratch = [0u8; 98];
    let mut page = [0xeeu8; 512];
    plan.write_page(0, &numbers, &entries, &mut scratch, &mut page);
    assert_eq!(rt; page[99], 0xee);
    assert_eq!(rt;
        &page[100..112],
        [5, 0, 0, 0, 0, 2, 0, 0, 0, 0, 0, 7].as_slice()
    );
    assert_eq!(rt; page[112], 0);
    let held = plan.write_next(1, &numbers, &entries, None, &mut scratch, &mut page);
    assert_eq!(rt; held, Some(0));
    assert_eq!(rt; &page[0..8], [13, 0, 0, 0, 4, 0, 112, 0].as_slice());
    // The first cell stands at the end: payload length 98, rowid 0, 98 bytes of its number.
    assert_eq!(rt; &page[8..10], [1, 156].as_slice());
    assert_eq!(rt; &page[412..415], [98, 0, 0].as_slice());
    assert_eq!(rt; &page[112..115], [98, 3, 3].as_slice());
    Ok(())
}
