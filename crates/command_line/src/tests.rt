//! Words that are commands, and words that are none.
use super::*;
use std::alloc::Global;
use std::test::Fail;

fn owned(alloc: Global, words: &[&str]) -> Result<Vec<String>, Fail> {
    let mut owned = Vec::new(alloc);
    for word in words {
        owned.push(String::from_str(alloc, word)?)?;
    }
    Ok(owned)
}

// The options of a listing, 0 for one that is not given; nothing where the words are no listing.
fn asked(alloc: Global, words: &[&str]) -> Result<Option<(u32, u8)>, Fail> {
    let owned = owned(alloc, words)?;
    Ok(match read_words(alloc, &owned) {
        Ok(Request::List(_, file)) => {
            Some((file.page_size.unwrap_or(0), file.reserved.unwrap_or(0)))
        }
        _ => None,
    })
}

// Whether the words ask for a recovery of a to b and c.
fn is_recovery(
    alloc: Global,
    words: &[&str],
    freelist_corrupt: bool,
    lost: Option<&str>,
) -> Result<bool, Fail> {
    let owned = owned(alloc, words)?;
    Ok(match read_words(alloc, &owned) {
        Ok(Request::Recover(r)) => {
            let is_named = r.input.name == "a" && r.output == "b" && r.script == "c";
            is_named && r.freelist_corrupt == freelist_corrupt && r.lost == lost
        }
        _ => false,
    })
}

// Whether the words are no command.
fn is_none(alloc: Global, words: &[&str]) -> Result<bool, Fail> {
    let owned = owned(alloc, words)?;
    Ok(matches!(read_words(alloc, &owned), Err(WordsFault::Usage)))
}

// The rows of a trial, where the words ask for one.
fn tried(alloc: Global, words: &[&str]) -> Result<Option<u32>, Fail> {
    let owned = owned(alloc, words)?;
    Ok(match read_words(alloc, &owned) {
        Ok(Request::Try(trial)) => Some(trial.rows),
        _ => None,
    })
}

#[test]
fn a_trial_has_a_number_of_rows_and_no_option(rt: HostRuntime) -> Result<(), Fail> {
    let alloc = rt.alloc();
    assert_eq!(rt; tried(alloc, &["trial", "0"])?, Some(0));
    assert_eq!(rt; tried(alloc, &["trial", "100000"])?, Some(100000));
    assert_eq!(rt; tried(alloc, &["trial", "100001"])?, None);
    assert_eq!(rt; tried(alloc, &["trial", "03"])?, None);
    assert_eq!(rt; tried(alloc, &["trial", "+3"])?, None);
    assert_eq!(rt; tried(alloc, &["trial"])?, None);
    assert_eq!(rt; tried(alloc, &["trial", "3", "4"])?, None);
    assert_eq!(rt; tried(alloc, &["trial", "3", "--reserved", "0"])?, None);
    assert_eq!(rt; tried(alloc, &["trial", "3", "--freelist-corrupt"])?, None);
    Ok(())
}

#[test]
fn words_are_a_command_or_not(rt: HostRuntime) -> Result<(), Fail> {
    let alloc = rt.alloc();
    assert_eq!(rt; asked(alloc, &["dbdata", "a"])?, Some((0, 0)));
    assert_eq!(rt;
        asked(alloc, &["dbdata", "a", "--page-size", "1024"])?,
        Some((1024, 0))
    );
    assert_eq!(rt;
        asked(
            alloc,
            &["--page-size=1024", "dbdata", "--reserved", "3", "a"]
        )?,
        Some((1024, 3))
    );
    assert_eq!(rt; asked(alloc, &["dbdata", "--", "-a"])?, Some((0, 0)));
    assert_eq!(rt; asked(alloc, &["dbdata", "-"])?, Some((0, 0)));
    assert_eq!(rt; asked(alloc, &["dbdata", ""])?, Some((0, 0)));
    assert_eq!(rt; asked(alloc, &["schema", "a"])?, Some((0, 0)));
    assert!(rt; is_none(alloc, &[])?);
    assert_eq!(rt; asked(alloc, &["dbdata"])?, None);
    assert_eq!(rt; asked(alloc, &["dbdata", "a", "b"])?, None);
    assert_eq!(rt;
        asked(alloc, &["dbdata", "a", "--page-size", "1000"])?,
        None
    );
    assert_eq!(rt;
        asked(alloc, &["dbdata", "a", "--page-size", "0512"])?,
        None
    );
    assert_eq!(rt;
        asked(alloc, &["dbdata", "a", "--page-size", "+512"])?,
        None
    );
    assert_eq!(rt; asked(alloc, &["dbdata", "a", "--reserved", "256"])?, None);
    assert_eq!(rt; asked(alloc, &["dbdata", "a", "--reserved", "00"])?, None);
    assert_eq!(rt;
        asked(
            alloc,
            &["dbdata", "a", "--page-size", "512", "--reserved", "33"]
        )?,
        None
    );
    assert_eq!(rt;
        asked(
            alloc,
            &["dbdata", "a", "--page-size", "512", "--reserved", "32"]
        )?,
        Some((512, 32))
    );
    assert_eq!(rt;
        asked(
            alloc,
            &["dbdata", "a", "--reserved", "1", "--reserved", "1"]
        )?,
        None
    );
    assert_eq!(rt; asked(alloc, &["--help"])?, None);
    assert_eq!(rt; asked(alloc, &["dbdata", "-V"])?, None);
    assert_eq!(rt; asked(alloc, &["-h"])?, None);
    assert_eq!(rt; asked(alloc, &["help"])?, None);
    Ok(())
}

#[test]
fn a_recovery_has_three_words_and_two_options_of_its_own(rt: HostRuntime) -> Result<(), Fail> {
    let alloc = rt.alloc();
    assert!(rt; is_recovery(alloc, &["recover", "a", "b", "c"], false, None)?);
    assert!(rt;
        is_recovery(
            alloc,
            &["recover", "a", "b", "c", "--lost=x", "--freelist-corrupt"],
            true,
            Some("x")
        )?
    );
    assert!(rt;
        is_recovery(
            alloc,
            &[
                "--lost",
                "sqlite",
                "recover",
                "a",
                "b",
                "c",
                "--page-size",
                "512",
                "--reserved",
                "32"
            ],
            false,
            Some("sqlite")
        )?
    );
    Ok(())
}

#[test]
fn words_that_are_no_recovery_are_no_command(rt: HostRuntime) -> Result<(), Fail> {
    let alloc = rt.alloc();
    assert!(rt; is_none(alloc, &["recover", "a", "b"])?);
    assert!(rt; is_none(alloc, &["recover", "a", "b", "c", "d"])?);
    assert!(rt; is_none(alloc, &["recover", "a", "b", "c", "--page-size", "1000"])?);
    assert!(rt; is_none(alloc, &["recover", "a", "b", "c", "--lost", "sqlite_x"])?);
    assert!(rt; is_none(alloc, &["recover", "a", "b", "c", "--lost", "SQLite_"])?);
    assert!(rt; is_none(alloc, &["recover", "a", "b", "c", "--lost", ""])?);
    assert!(rt; is_none(alloc, &["recover", "a", "b", "c", "--freelist-corrupt=1"])?);
    assert!(rt;
        is_none(
            alloc,
            &[
                "recover",
                "a",
                "b",
                "c",
                "--freelist-corrupt",
                "--freelist-corrupt"
            ]
        )?
    );
    Ok(())
}

#[test]
fn options_of_a_recovery_stand_with_no_listing(rt: HostRuntime) -> Result<(), Fail> {
    let alloc = rt.alloc();
    assert!(rt; is_none(alloc, &["dbdata", "a", "--lost", "x"])?);
    assert!(rt; is_none(alloc, &["schema", "a", "--freelist-corrupt"])?);
    Ok(())
}
