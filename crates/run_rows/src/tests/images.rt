//! Files of pages of 512 bytes, written by hand from fileformat2.html, 1.3, 1.6 and 2.1.
use std::alloc::Global;
use std::test::Fail;

// Writes a piece at a place, as far as there is room.
pub(crate) fn place(bytes: &mut [u8], at: u16, piece: &[u8]) {
    for (byte, new) in bytes.iter_mut().skip(at as usize).zip(piece) {
        *byte = *new;
    }
}

// A file of so many pages of 512 bytes, with the schema row of `CREATE TABLE t(a,b)`, root 2.
pub(crate) fn file_of_t(alloc: Global, pages: u8) -> Result<Vec<u8>, Fail> {
    let mut bytes = vec![in alloc; 0u8; 512 * pages as usize]?;
    let all = bytes.as_mut_slice();
    place(all, 0, b"SQLite format 3\0\x02\x00\x01\x01\x00\x40\x20\x20");
    place(all, 56, b"\x00\x00\x00\x01");
    place(all, 100, b"\x0d\x00\x00\x00\x01\x01\xdd\x00\x01\xdd");
    place(
        all,
        477,
        b"\x21\x01\x06\x17\x0f\x0f\x01\x33tablett\x02CREATE TABLE t(a,b)",
    );
    Ok(bytes)
}

// Two pages: table t with the rows 1 (5, 'x') and 2 (NULL, a blob of a zero).
pub(crate) fn two_rows(alloc: Global) -> Result<Vec<u8>, Fail> {
    let mut bytes = file_of_t(alloc, 2)?;
    let all = bytes.as_mut_slice();
    place(
        all,
        512,
        b"\x0d\x00\x00\x00\x02\x01\xf3\x00\x01\xf9\x01\xf3",
    );
    place(
        all,
        512 + 499,
        b"\x04\x02\x03\x00\x0e\x00\x05\x01\x03\x01\x0f\x05\x78",
    );
    Ok(bytes)
}

// The file of two rows, whose header says that its texts are in UTF-16le.
pub(crate) fn in_utf16(alloc: Global) -> Result<Vec<u8>, Fail> {
    let mut bytes = two_rows(alloc)?;
    place(bytes.as_mut_slice(), 59, b"\x02");
    Ok(bytes)
}

// Five pages: the root page of t is zeroed, and pages 3 to 5 are a tree of their own.
pub(crate) fn orphan_tree(alloc: Global) -> Result<Vec<u8>, Fail> {
    let mut bytes = file_of_t(alloc, 5)?;
    let all = bytes.as_mut_slice();
    place(
        all,
        1024,
        b"\x05\x00\x00\x00\x01\x01\xfb\x00\x00\x00\x00\x05\x01\xfb",
    );
    place(all, 1024 + 507, b"\x00\x00\x00\x04\x01");
    place(all, 1536, b"\x0d\x00\x00\x00\x01\x01\xfb\x00\x01\xfb");
    place(all, 1536 + 507, b"\x03\x01\x02\x01\x07");
    place(all, 2048, b"\x0d\x00\x00\x00\x01\x01\xfb\x00\x01\xfb");
    place(all, 2048 + 507, b"\x03\x02\x02\x0fq");
    Ok(bytes)
}
