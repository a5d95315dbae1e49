//! Whole recoveries. What is written of each file is told by the format.
use crate::tests::images::{in_utf16, two_rows};
use crate::tests::runs::ran_on;
use std::test::Fail;

const RECOVER: [&str; 4] = ["recover", "a", "b", "c"];

// The pages of the new database are those of the file, behind the header's 100 bytes.
#[test]
fn two_rows_are_recovered(rt: HostRuntime) -> Result<(), Fail> {
    let alloc = rt.alloc();
    let left = ran_on(alloc, &RECOVER, two_rows(alloc)?)?;
    assert_eq!(rt; left.status, 0);
    assert_eq!(rt; left.output.len(), 1024);
    let behind_the_header = two_rows(alloc)?.into_iter().skip(100);
    assert!(rt; left.output.iter().skip(100).copied().eq(behind_the_header));
    assert_eq!(rt; left.script.len(), 0);
    assert_eq!(rt;
        left.report.as_slice(),
        b"geometry 512 0 2 header\ntable t 2 0 0 1\norphans 0 0\nresult 2\n".as_slice()
    );
    assert_eq!(rt; left.errors.len(), 0);
    Ok(())
}

#[test]
fn a_file_in_utf16_is_not_recovered(rt: HostRuntime) -> Result<(), Fail> {
    let alloc = rt.alloc();
    let left = ran_on(alloc, &RECOVER, in_utf16(alloc)?)?;
    assert_eq!(rt; (left.status, left.output.len()), (12, 0));
    assert_eq!(rt; (left.script.len(), left.report.len()), (0, 0));
    assert_eq!(rt;
        left.errors.as_slice(),
        b"db_salvage: UTF-16 database\n".as_slice()
    );
    Ok(())
}

#[test]
fn an_empty_file_gives_a_database_without_tables(rt: HostRuntime) -> Result<(), Fail> {
    let alloc = rt.alloc();
    let left = ran_on(alloc, &RECOVER, Vec::new(alloc))?;
    assert_eq!(rt; (left.status, left.output.len()), (0, 4096));
    assert_eq!(rt;
        left.report.as_slice(),
        b"geometry 4096 0 0 empty\norphans 0 0\nresult 1\n".as_slice()
    );
    Ok(())
}
