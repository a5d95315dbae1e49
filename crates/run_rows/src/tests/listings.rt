//! Whole listings, and words that are no command. The files and the lines are written by hand from the format.
use crate::tests::images::{file_of_t, in_utf16, place, two_rows};
use crate::tests::runs::{Fails, NONE, ran_by, ran_on, ran_over, ran_without};
use page_access::{MemFail, SparseSource};
use std::alloc::Global;
use std::test::Fail;

const TWELVE_LINES: &[u8] =
    b"1 0 -1 int:1\n1 0 0 text:7461626c65\n1 0 1 text:74\n1 0 2 text:74\n1 0 3 int:2\n\
    1 0 4 text:435245415445205441424c45207428612c6229\n2 0 -1 int:1\n2 0 0 int:5\n2 0 1 text:78\n\
    2 1 -1 int:2\n2 1 0 null\n2 1 1 blob:00\n";

const ROW_OF_T: &[u8] = b"1 0 table t t 2 text:435245415445205441424c45207428612c6229\n";

const USE: &[u8] =
    b"db_salvage: use: recover INPUT OUTPUT SCRIPT, dbdata INPUT, dbptr INPUT, schema INPUT, trial N\n";

// Three pages: page 2 has one cell of 1,192 bytes whose overflow page 3 names itself.
fn chain_to_itself(alloc: Global) -> Result<Vec<u8>, Fail> {
    let mut bytes = file_of_t(alloc, 3)?;
    let all = bytes.as_mut_slice();
    place(all, 512, b"\x0d\x00\x00\x00\x01\x01\x49\x00\x01\x49");
    place(all, 512 + 329, b"\x89\x28\x01\x04\x01\x92\x52\x05");
    place(all, 512 + 508, b"\x00\x00\x00\x03");
    place(all, 1024, b"\x00\x00\x00\x03");
    Ok(bytes)
}

// Three pages: page 2 is an interior table page whose cell names page 2 and whose right-most pointer is 3.
fn child_is_its_parent(alloc: Global) -> Result<Vec<u8>, Fail> {
    let mut bytes = file_of_t(alloc, 3)?;
    let all = bytes.as_mut_slice();
    place(
        all,
        512,
        b"\x05\x00\x00\x00\x01\x01\xfb\x00\x00\x00\x00\x03\x01\xfb",
    );
    place(all, 512 + 507, b"\x00\x00\x00\x02\x05");
    Ok(bytes)
}

#[test]
fn two_rows_give_twelve_lines(rt: HostRuntime) -> Result<(), Fail> {
    let done = ran_on(rt.alloc(), &["dbdata", "a"], two_rows(rt.alloc())?)?;
    assert_eq!(rt; done.status, 0);
    assert_eq!(rt; done.report.as_slice(), TWELVE_LINES);
    assert_eq!(rt; done.errors.len(), 0);
    Ok(())
}

#[test]
fn chain_to_itself_is_unread(rt: HostRuntime) -> Result<(), Fail> {
    let done = ran_on(rt.alloc(), &["dbdata", "a"], chain_to_itself(rt.alloc())?)?;
    assert_eq!(rt; done.status, 0);
    assert_eq!(rt;
        done.report.as_slice(),
        b"1 0 -1 int:1\n1 0 0 text:7461626c65\n1 0 1 text:74\n1 0 2 text:74\n\
        1 0 3 int:2\n1 0 4 text:435245415445205441424c45207428612c6229\n2 0 unread chain\n"
            .as_slice()
    );
    let done = ran_on(rt.alloc(), &["dbptr", "a"], chain_to_itself(rt.alloc())?)?;
    assert_eq!(rt; done.status, 0);
    assert_eq!(rt; done.report.len(), 0);
    Ok(())
}

#[test]
fn pointers_are_listed_whatever_they_name(rt: HostRuntime) -> Result<(), Fail> {
    let done = ran_on(
        rt.alloc(),
        &["dbptr", "a"],
        child_is_its_parent(rt.alloc())?,
    )?;
    assert_eq!(rt; done.status, 0);
    assert_eq!(rt; done.report.as_slice(), b"2 2\n2 3\n".as_slice());
    Ok(())
}

#[test]
fn the_schema_has_the_row_of_its_table(rt: HostRuntime) -> Result<(), Fail> {
    let done = ran_on(rt.alloc(), &["schema", "a"], two_rows(rt.alloc())?)?;
    assert_eq!(rt; done.status, 0);
    assert_eq!(rt; done.report.as_slice(), ROW_OF_T);
    assert_eq!(rt; done.errors.len(), 0);
    Ok(())
}

#[test]
fn a_row_of_no_kind_is_bad(rt: HostRuntime) -> Result<(), Fail> {
    let mut bytes = two_rows(rt.alloc())?;
    place(bytes.as_mut_slice(), 485, b"T");
    let done = ran_on(rt.alloc(), &["schema", "a"], bytes)?;
    assert_eq!(rt; done.status, 0);
    assert_eq!(rt; done.report.as_slice(), b"1 0 bad\n".as_slice());
    Ok(())
}

#[test]
fn the_schema_in_utf16_is_refused(rt: HostRuntime) -> Result<(), Fail> {
    let done = ran_on(rt.alloc(), &["schema", "a"], in_utf16(rt.alloc())?)?;
    assert_eq!(rt; done.status, 12);
    assert_eq!(rt; done.report.len(), 0);
    assert_eq!(rt;
        done.errors.as_slice(),
        b"db_salvage: UTF-16 database\n".as_slice()
    );
    Ok(())
}

#[test]
fn values_in_utf16_are_listed_as_they_stand(rt: HostRuntime) -> Result<(), Fail> {
    let done = ran_on(rt.alloc(), &["dbdata", "a"], in_utf16(rt.alloc())?)?;
    assert_eq!(rt; done.status, 0);
    assert_eq!(rt; done.report.as_slice(), TWELVE_LINES);
    Ok(())
}

#[test]
fn empty_input_gives_nothing(rt: HostRuntime) -> Result<(), Fail> {
    let done = ran_on(rt.alloc(), &["dbdata", "a"], Vec::new(rt.alloc()))?;
    assert_eq!(rt; done.status, 0);
    assert_eq!(rt; done.report.len(), 0);
    assert_eq!(rt; done.errors.len(), 0);
    Ok(())
}

#[test]
fn words_that_are_no_command_say_the_use(rt: HostRuntime) -> Result<(), Fail> {
    let done = ran_on(rt.alloc(), &["recover", "a", "b"], two_rows(rt.alloc())?)?;
    assert_eq!(rt; done.status, 2);
    assert_eq!(rt; done.report.len(), 0);
    assert_eq!(rt; done.errors.as_slice(), USE);
    Ok(())
}

#[test]
fn zeros_have_no_page_size(rt: HostRuntime) -> Result<(), Fail> {
    let done = ran_on(
        rt.alloc(),
        &["dbdata", "a"],
        vec![in rt.alloc(); 0u8; 4096]?,
    )?;
    assert_eq!(rt; done.status, 4);
    assert_eq!(rt;
        done.errors.as_slice(),
        b"db_salvage: no page size found\n".as_slice()
    );
    Ok(())
}

#[test]
fn short_file_has_no_whole_page(rt: HostRuntime) -> Result<(), Fail> {
    let mut bytes = vec![in rt.alloc(); 0u8; 600]?;
    place(bytes.as_mut_slice(), 16, b"\x10\x00");
    let done = ran_on(rt.alloc(), &["dbdata", "a"], bytes)?;
    assert_eq!(rt; done.status, 4);
    assert_eq!(rt;
        done.errors.as_slice(),
        b"db_salvage: no whole page: 600 bytes, page size 4096\n".as_slice()
    );
    Ok(())
}

#[test]
fn a_chosen_page_size_is_taken(rt: HostRuntime) -> Result<(), Fail> {
    let mut bytes = two_rows(rt.alloc())?;
    place(bytes.as_mut_slice(), 16, b"\x10\x00");
    let done = ran_on(rt.alloc(), &["dbdata", "--page-size", "512", "a"], bytes)?;
    assert_eq!(rt; done.status, 0);
    assert_eq!(rt; done.report.as_slice(), TWELVE_LINES);
    Ok(())
}

#[test]
fn one_byte_over_the_limit_is_too_large(rt: HostRuntime) -> Result<(), Fail> {
    let alloc = rt.alloc();
    let mut src = SparseSource::new(268435457, 512, Vec::new(alloc));
    let done = ran_over(alloc, &["dbdata", "a"], &mut src, NONE)?;
    assert_eq!(rt; done.status, 5);
    assert_eq!(rt;
        done.errors.as_slice(),
        b"db_salvage: input too large: 268435457 bytes\n".as_slice()
    );
    Ok(())
}

#[test]
fn each_call_of_the_source_that_fails_is_an_input_fault(rt: HostRuntime) -> Result<(), Fail> {
    let alloc = rt.alloc();
    for call in 1..6u64 {
        let done = ran_without(alloc, &["dbdata", "a"], two_rows(alloc)?, call)?;
        assert_eq!(rt; done.status, 3);
        assert_eq!(rt;
            done.errors.as_slice(),
            b"db_salvage: input fault\n".as_slice()
        );
        assert!(rt; TWELVE_LINES.starts_with(done.report.as_slice()));
        assert!(rt; call == 5 || done.report.is_empty());
    }
    Ok(())
}

#[test]
fn each_call_under_the_schema_that_fails_is_an_input_fault(rt: HostRuntime) -> Result<(), Fail> {
    let alloc = rt.alloc();
    for call in 1..6u64 {
        let done = ran_without(alloc, &["schema", "a"], two_rows(alloc)?, call)?;
        assert_eq!(rt; done.status, 3);
        assert_eq!(rt; done.report.len(), 0);
    }
    Ok(())
}

#[test]
fn the_schema_of_two_pages_takes_five_calls_of_the_source(rt: HostRuntime) -> Result<(), Fail> {
    let done = ran_without(rt.alloc(), &["schema", "a"], two_rows(rt.alloc())?, 6)?;
    assert_eq!(rt; done.status, 0);
    Ok(())
}

#[test]
fn a_report_that_fails_keeps_a_front_of_the_listing(rt: HostRuntime) -> Result<(), Fail> {
    let alloc = rt.alloc();
    for call in 1..12u64 {
        let report = MemFail { call, keep: 3 };
        let fails = Fails { report, ..NONE };
        let done = ran_by(alloc, &["dbdata", "a"], two_rows(alloc)?, fails)?;
        assert_eq!(rt; done.status, 9);
        assert_eq!(rt;
            done.errors.as_slice(),
            b"db_salvage: report fault\n".as_slice()
        );
        assert!(rt; TWELVE_LINES.starts_with(done.report.as_slice()));
    }
    Ok(())
}

#[test]
fn errors_that_fail_change_no_status(rt: HostRuntime) -> Result<(), Fail> {
    let alloc = rt.alloc();
    let errors = MemFail { call: 1, keep: 11 };
    let fails = Fails { errors, ..NONE };
    let done = ran_by(alloc, &["dbdata"], two_rows(alloc)?, fails)?;
    assert_eq!(rt; done.status, 2);
    assert_eq!(rt; done.errors.as_slice(), b"db_salvage:".as_slice());
    let done = ran_by(alloc, &["recover", "a"], two_rows(alloc)?, fails)?;
    assert_eq!(rt; done.status, 2);
    Ok(())
}
