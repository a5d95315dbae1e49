//! Each call of the outside fails in turn (docs/TEXTS.md, "Statuses").
use crate::tests::images::{orphan_tree, two_rows};
use crate::tests::runs::{Fails, NONE, ran_by, ran_over, ran_without};
use page_access::{MemFail, NarrowSource, SlowSource};
use std::test::Fail;

const RECOVER: [&str; 4] = ["recover", "a", "b", "c"];

// What is told of the tree that no row names.
const ORPHANS_LOST: &[u8] = b"geometry 512 0 5 header\ntable t 0 0 0 0\norphans 1 3\n\
    lost lost_and_found 2\nresult 3\n";

const TWO_ROWS_KEPT: &[u8] = b"geometry 512 0 2 header\ntable t 2 0 0 1\norphans 0 0\nresult 2\n";

#[test]
fn each_call_of_the_source_that_fails_leaves_nothing(rt: HostRuntime) -> Result<(), Fail> {
    let alloc = rt.alloc();
    let mut failed = 0u64;
    for call in 1..100u64 {
        let left = ran_without(alloc, &RECOVER, orphan_tree(alloc)?, call)?;
        if left.status == 0 {
            assert_eq!(rt; left.report.as_slice(), ORPHANS_LOST);
            break;
        }
        failed = call;
        assert_eq!(rt; left.status, 3, "call {call}");
        let written = (left.output.len(), left.script.len(), left.report.len());
        assert_eq!(rt; written, (0, 0, 0), "call {call}");
    }
    // it is attached, its length is asked for, and each of the five pages is read at least once
    assert!(rt; failed >= 7 && failed < 99);
    Ok(())
}

// The calls of the output are: it is made, page 1 is put, page 2 is put, it is finished.
#[test]
fn an_output_that_fails_is_cut_off_and_nothing_else_is_begun(rt: HostRuntime) -> Result<(), Fail> {
    let alloc = rt.alloc();
    for (call, kept) in [(1, 0), (2, 10), (3, 522), (4, 1024)] {
        let out = MemFail { call, keep: 10 };
        let left = ran_by(alloc, &RECOVER, two_rows(alloc)?, Fails { out, ..NONE })?;
        assert_eq!(rt; (left.status, left.output.len()), (7, kept), "call {call}");
        assert_eq!(rt;
            (left.script.len(), left.report.len()),
            (0, 0),
            "call {call}"
        );
        assert_eq!(rt;
            left.errors.as_slice(),
            b"db_salvage: output fault\n".as_slice()
        );
    }
    Ok(())
}

// The calls of the script are: it is made, and finished, since it has no text.
#[test]
fn a_script_that_fails_leaves_a_whole_output(rt: HostRuntime) -> Result<(), Fail> {
    let alloc = rt.alloc();
    for call in [1, 2] {
        let script = MemFail { call, keep: 10 };
        let left = ran_by(alloc, &RECOVER, two_rows(alloc)?, Fails { script, ..NONE })?;
        assert_eq!(rt; (left.status, left.output.len()), (8, 1024), "call {call}");
        assert_eq!(rt;
            (left.script.len(), left.report.len()),
            (0, 0),
            "call {call}"
        );
        assert_eq!(rt;
            left.errors.as_slice(),
            b"db_salvage: script fault\n".as_slice()
        );
    }
    Ok(())
}

#[test]
fn a_report_that_fails_comes_behind_the_output(rt: HostRuntime) -> Result<(), Fail> {
    let alloc = rt.alloc();
    let report = MemFail { call: 1, keep: 3 };
    let left = ran_by(alloc, &RECOVER, two_rows(alloc)?, Fails { report, ..NONE })?;
    assert_eq!(rt; (left.status, left.output.len()), (9, 1024));
    assert_eq!(rt; left.report.as_slice(), b"geo".as_slice());
    assert_eq!(rt;
        left.errors.as_slice(),
        b"db_salvage: report fault\n".as_slice()
    );
    Ok(())
}

#[test]
fn a_source_of_one_page_at_once_gives_all(rt: HostRuntime) -> Result<(), Fail> {
    let alloc = rt.alloc();
    let mut src = NarrowSource::new(orphan_tree(alloc)?, 512);
    let left = ran_over(alloc, &RECOVER, &mut src, NONE)?;
    assert_eq!(rt; left.status, 0);
    assert_eq!(rt; left.report.as_slice(), ORPHANS_LOST);
    Ok(())
}

#[test]
fn a_source_of_less_than_a_page_at_once_is_an_input_fault(rt: HostRuntime) -> Result<(), Fail> {
    let alloc = rt.alloc();
    let mut src = NarrowSource::new(orphan_tree(alloc)?, 511);
    let left = ran_over(alloc, &RECOVER, &mut src, NONE)?;
    assert_eq!(rt; (left.status, left.output.len()), (3, 0));
    Ok(())
}

#[test]
fn a_source_of_one_byte_a_call_gives_all(rt: HostRuntime) -> Result<(), Fail> {
    let alloc = rt.alloc();
    let mut src = SlowSource::new(two_rows(alloc)?, 1);
    let left = ran_over(alloc, &RECOVER, &mut src, NONE)?;
    assert_eq!(rt; (left.status, left.output.len()), (0, 1024));
    let behind_the_header = two_rows(alloc)?.into_iter().skip(100);
    assert!(rt; left.output.iter().skip(100).copied().eq(behind_the_header));
    assert_eq!(rt; left.report.as_slice(), TWO_ROWS_KEPT);
    Ok(())
}
