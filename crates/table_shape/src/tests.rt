//! Names, by hand.
use crate::{is_reserved, same_name};
use std::test::Fail;

#[test]
fn some_names_are_reserved_in_any_case(rt: HostRuntime) -> Result<(), Fail> {
    for name in [
        b"sqlite_master".as_slice(),
        b"SQLite_Schema",
        b"sqlite_temp_master",
        b"sqlite_temp_schema",
        b"sqlite_autoindex_",
        b"SQLITE_AUTOINDEX_t_1",
    ] {
        assert!(rt; is_reserved(name));
    }
    for name in [
        b"".as_slice(),
        b"sqlite_sequence",
        b"sqlite_autoindex",
        b"sqlite_masters",
    ] {
        assert!(rt; !is_reserved(name));
    }
    Ok(())
}

#[test]
fn names_differ_by_more_than_case(rt: HostRuntime) -> Result<(), Fail> {
    assert!(rt; same_name(b"Note", b"nOTE"));
    assert!(rt; !same_name(b"note", b"notes"));
    // only letters of ASCII have a case here
    assert!(rt; !same_name(b"\xc3\x84", b"\xc3\xa4"));
    assert!(rt; !same_name(b"[", b"{"));
    Ok(())
}
