//! Cells that no table has, through whole recoveries over objects in memory. Each file is laid out by hand from
//! fileformat2.html, 1.6, 2.1 and 2.6; what is written of it is told by docs/FORMAT.md, "The table of lost cells".
use crate::tests::images::{file_of_t, orphan_tree, place};
use crate::tests::runs::{Fails, NONE, ran_by, ran_on};
use page_access::MemFail;
use std::alloc::Global;
use std::test::Fail;

// Four pages: t has an interior page over the leaves 3, with the rowids 5 and 7, and 4, with 7 and 9.
fn two_sevens(alloc: Global) -> Result<Vec<u8>, Fail> {
    let mut bytes = file_of_t(alloc, 4)?;
    let all = bytes.as_mut_slice();
    place(
        all,
        512,
        b"\x05\x00\x00\x00\x01\x01\xfb\x00\x00\x00\x00\x04\x01\xfb",
    );
    place(all, 512 + 507, b"\x00\x00\x00\x03\x07");
    place(
        all,
        1024,
        b"\x0d\x00\x00\x00\x02\x01\xf2\x00\x01\xf9\x01\xf2",
    );
    place(
        all,
        1024 + 498,
        b"\x05\x07\x03\x01\x01\x04\x05\x05\x05\x03\x01\x01\x02\x03",
    );
    place(
        all,
        1536,
        b"\x0d\x00\x00\x00\x02\x01\xf2\x00\x01\xf9\x01\xf2",
    );
    place(
        all,
        1536 + 498,
        b"\x05\x09\x03\x01\x01\x08\x09\x05\x07\x03\x01\x01\x06\x07",
    );
    Ok(bytes)
}

#[test]
fn a_row_with_a_rowid_that_stands_before_is_lost(rt: HostRuntime) -> Result<(), Fail> {
    let alloc = rt.alloc();
    let left = ran_on(alloc, &["recover", "a", "b", "c"], two_sevens(alloc)?)?;
    assert_eq!(rt; (left.status, left.output.len()), (0, 1536));
    assert_eq!(rt;
        left.report.as_slice(),
        b"geometry 512 0 4 header\ntable t 3 1 0 3\nclash t 4 0 3 1 0\norphans 0 0\n\
        lost lost_and_found 1\nresult 3\n"
            .as_slice()
    );
    // root 2, page 4, two fields, rowid 7, 6, 7
    let row = left.output.iter().skip(1024 + 497).copied();
    assert!(rt; row.eq(*b"\x0d\x01\x07\x01\x01\x01\x01\x01\x01\x02\x04\x02\x07\x06\x07"));
    Ok(())
}

// Three pages: r has one row, and an empty index of its own.
fn real_key(alloc: Global) -> Result<Vec<u8>, Fail> {
    let mut bytes = file_of_t(alloc, 3)?;
    let all = bytes.as_mut_slice();
    place(
        all,
        100,
        b"\x0d\x00\x00\x00\x02\x01\xa8\x00\x01\xcb\x01\xa8",
    );
    place(
        all,
        424,
        b"\x21\x02\x06\x17\x35\x0f\x01\x00indexsqlite_autoindex_r_1r\x03\
        \x33\x01\x06\x17\x0f\x0f\x01\x57tablerr\x02CREATE TABLE r(k REAL PRIMARY KEY, v)",
    );
    place(all, 512, b"\x0d\x00\x00\x00\x01\x01\xf2\x00\x01\xf2");
    place(
        all,
        512 + 498,
        b"\x0c\x01\x03\x07\x0f\x3f\xf8\x00\x00\x00\x00\x00\x00x",
    );
    place(all, 1024, b"\x0a\x00\x00\x00\x00\x02\x00\x00");
    Ok(bytes)
}

#[test]
fn rows_of_a_table_that_is_not_built_are_lost(rt: HostRuntime) -> Result<(), Fail> {
    let alloc = rt.alloc();
    let words = ["recover", "a", "b", "c", "--lost", "rest"];
    let left = ran_on(alloc, &words, real_key(alloc)?)?;
    assert_eq!(rt; (left.status, left.output.len()), (0, 1024));
    assert_eq!(rt;
        left.report.as_slice(),
        b"geometry 512 0 3 header\nunread r 1 1 real\norphans 0 0\nlost rest 1\nresult 2\n".as_slice()
    );
    assert_eq!(rt;
        left.script.as_slice(),
        b"CREATE TABLE r(k REAL PRIMARY KEY, v)\n;\n".as_slice()
    );
    // root 2, page 2, two fields, rowid 1, 1.5, 'x'
    let row = left.output.iter().skip(512 + 491).copied();
    assert!(rt;
        row.eq(
            *b"\x13\x01\x07\x01\x01\x01\x09\x07\x0f\x02\x02\x02\x3f\xf8\x00\x00\x00\x00\x00\x00x"
        )
    );
    Ok(())
}

// Two pages: w is WITHOUT ROWID, and its index leaf has two cells with one primary key.
fn two_ones(alloc: Global) -> Result<Vec<u8>, Fail> {
    let mut bytes = file_of_t(alloc, 2)?;
    let all = bytes.as_mut_slice();
    place(all, 100, b"\x0d\x00\x00\x00\x01\x01\xbe\x00\x01\xbe");
    place(
        all,
        446,
        b"\x40\x01\x06\x17\x0f\x0f\x01\x71tableww\x02\
        CREATE TABLE w(b, a, PRIMARY KEY(a)) WITHOUT ROWID",
    );
    place(
        all,
        512,
        b"\x0a\x00\x00\x00\x02\x01\xf6\x00\x01\xfb\x01\xf6",
    );
    place(all, 512 + 502, b"\x04\x03\x09\x0fy\x04\x03\x09\x0fx");
    Ok(bytes)
}

#[test]
fn a_lost_index_cell_has_no_rowid(rt: HostRuntime) -> Result<(), Fail> {
    let alloc = rt.alloc();
    let left = ran_on(alloc, &["recover", "a", "b", "c"], two_ones(alloc)?)?;
    assert_eq!(rt; (left.status, left.output.len()), (0, 1536));
    assert_eq!(rt;
        left.report.as_slice(),
        b"geometry 512 0 2 header\ntable w 1 1 0 1\nclash w 2 1 2 0 0\norphans 0 0\n\
        lost lost_and_found 1\nresult 3\n"
            .as_slice()
    );
    // root 2, page 2, two fields, NULL, 1, 'y'
    let row = left.output.iter().skip(1024 + 499).copied();
    assert!(rt; row.eq(*b"\x0b\x01\x07\x01\x01\x01\x00\x09\x0f\x02\x02\x02y"));
    Ok(())
}

#[test]
fn rows_of_an_orphan_tree_are_lost(rt: HostRuntime) -> Result<(), Fail> {
    let alloc = rt.alloc();
    let left = ran_on(alloc, &["recover", "a", "b", "c"], orphan_tree(alloc)?)?;
    assert_eq!(rt; (left.status, left.output.len()), (0, 1536));
    assert_eq!(rt;
        left.report.as_slice(),
        b"geometry 512 0 5 header\ntable t 0 0 0 0\norphans 1 3\nlost lost_and_found 2\nresult 3\n".as_slice()
    );
    // (3, 5, 1, 2, 'q') and then (3, 4, 1, 1, 7)
    let rows = left.output.iter().skip(1024 + 489).copied();
    assert!(rt;
        rows.eq(
            *b"\x0a\x02\x06\x01\x01\x09\x01\x0f\x03\x05\x02q\x09\x01\x06\x01\x01\x09\x09\x01\x03\x04\x07"
        )
    );
    Ok(())
}

// The first call makes the file, and the fourth puts page 3.
#[test]
fn an_output_is_cut_where_it_fails(rt: HostRuntime) -> Result<(), Fail> {
    let alloc = rt.alloc();
    let words = ["recover", "a", "b", "c"];
    let out = MemFail { call: 4, keep: 100 };
    let left = ran_by(alloc, &words, orphan_tree(alloc)?, Fails { out, ..NONE })?;
    assert_eq!(rt; (left.status, left.output.len()), (7, 1124));
    assert_eq!(rt; (left.script.len(), left.report.len()), (0, 0));
    Ok(())
}

// Four pages: t has a leaf without cells; page 3 is a trunk of the freelist with so many leaves, and page 4 an old
// table leaf, its first leaf.
fn old_rows(alloc: Global, count: &[u8]) -> Result<Vec<u8>, Fail> {
    let mut bytes = file_of_t(alloc, 4)?;
    let all = bytes.as_mut_slice();
    place(all, 32, b"\x00\x00\x00\x03");
    place(all, 512, b"\x0d\x00\x00\x00\x00\x02\x00\x00");
    place(all, 1028, count);
    place(all, 1032, b"\x00\x00\x00\x04");
    place(all, 1536, b"\x0d\x00\x00\x00\x01\x01\xfb\x00\x01\xfb");
    place(all, 1536 + 507, b"\x03\x09\x02\x0fz");
    Ok(bytes)
}

const NOTHING_LOST: &[u8] = b"geometry 512 0 4 header\ntable t 0 0 0 1\norphans 0 0\nresult 2\n";

const ONE_LOST: &[u8] =
    b"geometry 512 0 4 header\ntable t 0 0 0 1\norphans 1 1\nlost lost_and_found 1\nresult 3\n";

#[test]
fn rows_on_free_pages_are_left(rt: HostRuntime) -> Result<(), Fail> {
    let alloc = rt.alloc();
    let words = ["recover", "a", "b", "c"];
    let left = ran_on(alloc, &words, old_rows(alloc, b"\x00\x00\x00\x01")?)?;
    assert_eq!(rt; left.report.as_slice(), NOTHING_LOST);
    Ok(())
}

#[test]
fn rows_on_free_pages_are_lost_where_the_freelist_is_corrupt(rt: HostRuntime) -> Result<(), Fail> {
    let alloc = rt.alloc();
    let words = ["recover", "--freelist-corrupt", "a", "b", "c"];
    let left = ran_on(alloc, &words, old_rows(alloc, b"\x00\x00\x00\x01")?)?;
    assert_eq!(rt; left.report.as_slice(), ONE_LOST);
    Ok(())
}

#[test]
fn a_trunk_that_counts_too_many_names_no_leaf(rt: HostRuntime) -> Result<(), Fail> {
    let alloc = rt.alloc();
    let words = ["recover", "a", "b", "c"];
    let left = ran_on(alloc, &words, old_rows(alloc, b"\xff\xff\xff\xff")?)?;
    assert_eq!(rt; left.report.as_slice(), ONE_LOST);
    Ok(())
}
