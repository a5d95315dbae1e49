//! Trials with their lines, by hand from the layout of a written file: in the files of none and of three rows
//! page 2 is the leaf of the table and page 3 that of its index.
use crate::trial;
use page_access::MemSink;
use std::alloc::Global;
use std::test::Fail;

// Whether a trial of so many rows, at most 3, puts this text.
fn puts(alloc: Global, rows: u8, text: &[u8]) -> Result<bool, Fail> {
    let mut report = MemSink::new(alloc, 256, Vec::new(alloc))?;
    let done = trial(alloc, u32::from(rows), &mut report).is_ok();
    Ok(done && report.bytes() == text)
}

#[test]
fn the_rows_of_a_trial_come_back_but_those_on_a_page_of_zeros(rt: HostRuntime) -> Result<(), Fail> {
    let alloc = rt.alloc();
    let none = b"trial 0 pages 3 rows 0 lost 0\nhole 2 rows 0 lost 0\n";
    assert!(rt; puts(alloc, 0, none.as_slice())?);
    let three = b"trial 3 pages 3 rows 3 lost 0\nhole 3 rows 3 lost 0\n";
    assert!(rt; puts(alloc, 3, three.as_slice())?);
    Ok(())
}
