//! Salvages over objects in memory. The file is written by hand from the format.
ghost use Rattle.std.specs.Prelude.{◌≤◌, ◌^◌, IfOk};
ghost use Rattle.salvage_core.specs.Plan.{AreOptions};

use crate::{Fault, Options, Summary, recover};
use page_access::{MAX_INPUT, MemSink, MemSource};
use record_core::Bytes;
use std::alloc::{AllocError, Global};
use std::test::Fail;

// Options of a command without options, with this limit of the load.
fn options(alloc: Global, load_limit: u64) -> Result<Options, AllocError>
    requires { load_limit ≤ 2 ^ 35 }
    ensures { IfOk result AreOptions }
{
    Ok(Options {
        page_size: None,
        reserved: None,
        freelist_corrupt: false,
        lost: Bytes::copy_of(alloc, b"lost_and_found")?,
        input_limit: MAX_INPUT,
        load_limit,
    })
}

// What a salvage did.
#[derive(Drop)]
struct Done {
    answer: Result<Summary, Fault>,
    // bytes in the sink of the database
    written: usize,
    // how often the input was read
    reads: u64,
}

// A salvage of these bytes.
fn recovered(alloc: Global, bytes: Vec<u8>, load_limit: u64) -> Result<Done, Fail>
    requires { load_limit ≤ 2 ^ 35 }
{
    let mut src = MemSource::new(bytes, Vec::new(alloc));
    let mut out = MemSink::new(alloc, 1 << 16, Vec::new(alloc))?;
    let mut script = MemSink::new(alloc, 0, Vec::new(alloc))?;
    let mut report = MemSink::new(alloc, 1 << 16, Vec::new(alloc))?;
    let answer = recover(
        alloc,
        &options(alloc, load_limit)?,
        "in.db",
        "out.db",
        "out.sql",
        &mut src,
        &mut out,
        &mut script,
        &mut report,
    );
    Ok(Done {
        answer,
        written: out.bytes().len(),
        reads: src.reads(),
    })
}

// Writes a piece at a place, as far as there is room.
fn place(bytes: &mut [u8], at: u16, piece: &[u8]) {
    for (byte, new) in bytes.iter_mut().skip(at as usize).zip(piece) {
        *byte = *new;
    }
}

// Two pages of 512 bytes: table t with the rows 1 (5, 'x') and 2 (NULL, a blob of a zero).
fn two_rows(alloc: Global) -> Result<Vec<u8>, Fail> {
    let mut bytes = vec![in alloc; 0u8; 1024]?;
    let all = bytes.as_mut_slice();
    place(all, 0, b"SQLite format 3\0\x02\x00\x01\x01\x00\x40\x20\x20");
    place(all, 56, b"\x00\x00\x00\x01");
    place(all, 100, b"\x0d\x00\x00\x00\x01\x01\xdd\x00\x01\xdd");
    place(
        all,
        477,
        b"\x21\x01\x06\x17\x0f\x0f\x01\x33tablett\x02CREATE TABLE t(a,b)",
    );
    place(
        all,
        512,
        b"\x0d\x00\x00\x00\x02\x01\xf3\x00\x01\xf9\x01\xf3",
    );
    place(
        all,
        1011,
        b"\x04\x02\x03\x00\x0e\x00\x05\x01\x03\x01\x0f\x05\x78",
    );
    Ok(bytes)
}

#[test]
fn a_file_of_two_pages_comes_back(rt: HostRuntime) -> Result<(), Fail> {
    let alloc = rt.alloc();
    let done = recovered(alloc, two_rows(alloc)?, 1 << 32)?;
    let summary = Summary {
        pages_in: 2,
        pages_out: 2,
        rows: 2,
        lost: 0,
    };
    assert!(rt; done.answer == Ok(summary));
    assert_eq!(rt; done.written, 1024);
    Ok(())
}

#[test]
fn an_empty_file_gives_a_database_of_one_page(rt: HostRuntime) -> Result<(), Fail> {
    let alloc = rt.alloc();
    let done = recovered(alloc, Vec::new(alloc), 1 << 32)?;
    let summary = Summary {
        pages_in: 0,
        pages_out: 1,
        rows: 0,
        lost: 0,
    };
    assert!(rt; done.answer == Ok(summary));
    assert_eq!(rt; done.written, 4096);
    Ok(())
}

// 33 + 3 + 32 for the row of the schema, 37 and 36 for the rows.
#[test]
fn a_load_over_the_limit_is_told(rt: HostRuntime) -> Result<(), Fail> {
    let alloc = rt.alloc();
    let done = recovered(alloc, two_rows(alloc)?, 100)?;
    assert!(rt; done.answer == Err(Fault::OutputTooLarge { load: 141 }));
    assert_eq!(rt; done.written, 0);
    Ok(())
}

// The header, and each page once.
#[test]
fn a_file_of_two_pages_takes_three_reads(rt: HostRuntime) -> Result<(), Fail> {
    let alloc = rt.alloc();
    let done = recovered(alloc, two_rows(alloc)?, 1 << 32)?;
    assert!(rt; done.answer.is_ok());
    assert_eq!(rt; done.reads, 3);
    Ok(())
}
