use super::*;
use std::test::Fail;

#[test]
fn exactly_the_named_calls_of_a_source_fail(rt: HostRuntime) -> Result<(), Fail> {
    let alloc = rt.alloc();
    let mut src = MemSource::new([1, 2, 3, 4, 5].to_vec(alloc)?, [2, 4].to_vec(alloc)?);
    let mut to = [9; 4];
    assert_eq!(rt; src.attach(String::from_str(alloc, "a.db")?), Ok(()));
    assert_eq!(rt; src.length(), Err(Failed));
    assert_eq!(rt; src.read_at(3, &mut to), Ok(2));
    assert_eq!(rt; to, [4, 5, 9, 9]);
    assert_eq!(rt; src.read_at(0, &mut to), Err(Failed));
    assert_eq!(rt; src.read_at(5, &mut to), Ok(0));
    assert_eq!(rt; src.length(), Ok(5));
    assert_eq!(rt; src.reads(), 3);
    Ok(())
}

#[test]
fn bytes_past_the_end_of_a_page_are_zeros(rt: HostRuntime) -> Result<(), Fail> {
    let alloc = rt.alloc();
    let geo = Geometry {
        page_size: 512,
        usable: 500,
        pages: 2,
    };
    let mut src = SureSource::new([7; 513].to_vec(alloc)?);
    let mut to = [1; 512];
    assert_eq!(rt; load(&mut src, &geo, 2, &mut to), Ok(()));
    assert_eq!(rt; to[0], 7);
    assert!(rt; to[1..].iter().all(|byte| *byte == 0));
    assert_eq!(rt; load(&mut src, &geo, 1, &mut to), Ok(()));
    assert!(rt; to.iter().all(|byte| *byte == 7));
    Ok(())
}

#[test]
fn a_page_that_is_whole_takes_one_read(rt: HostRuntime) -> Result<(), Fail> {
    let alloc = rt.alloc();
    let geo = Geometry {
        page_size: 512,
        usable: 512,
        pages: 1,
    };
    let mut src = MemSource::new([7; 600].to_vec(alloc)?, [2].to_vec(alloc)?);
    let mut to = [1; 512];
    assert_eq!(rt; load(&mut src, &geo, 1, &mut to), Ok(()));
    assert_eq!(rt; src.reads(), 1);
    assert_eq!(rt; load(&mut src, &geo, 1, &mut to), Err(Failed));
    Ok(())
}

#[test]
fn the_front_of_a_short_source_ends_in_zeros(rt: HostRuntime) -> Result<(), Fail> {
    let alloc = rt.alloc();
    let mut src = SureSource::new([5, 6].to_vec(alloc)?);
    let mut to = [1; 4];
    assert_eq!(rt; read_front(&mut src, &mut to), Ok(()));
    assert_eq!(rt; to, [5, 6, 0, 0]);
    assert_eq!(rt; src.attach(String::from_str(alloc, "a.db")?), Ok(()));
    assert_eq!(rt; src.length(), Ok(2));
    assert_eq!(rt; src.reads(), 2);
    Ok(())
}

#[test]
fn bytes_outside_the_named_pages_are_zeros(rt: HostRuntime) -> Result<(), Fail> {
    let alloc = rt.alloc();
    let mut pages = Vec::new(alloc);
    pages.push((2, [1, 2, 3].to_vec(alloc)?))?;
    let mut src = SparseSource::new(7, 3, pages);
    let mut to = [9; 9];
    assert_eq!(rt; src.attach(String::from_str(alloc, "a.db")?), Ok(()));
    assert_eq!(rt; src.length(), Ok(7));
    assert_eq!(rt; src.read_at(1, &mut to), Ok(6));
    assert_eq!(rt; to, [0, 0, 1, 2, 3, 0, 9, 9, 9]);
    assert_eq!(rt; src.read_at(7, &mut to), Ok(0));
    assert_eq!(rt; src.reads(), 2);
    Ok(())
}

#[test]
fn a_sink_fails_at_its_room_and_at_the_named_calls(rt: HostRuntime) -> Result<(), Fail> {
    let alloc = rt.alloc();
    let fails = [MemFail { call: 3, keep: 1 }, MemFail { call: 6, keep: 9 }].to_vec(alloc)?;
    let mut out = MemSink::new(alloc, 6, fails)?;
    assert_eq!(rt; out.create(String::from_str(alloc, "b.db")?), Ok(()));
    assert_eq!(rt; out.put(&[1, 2]), Ok(()));
    assert_eq!(rt; out.put(&[3, 4]), Err(Failed));
    assert_eq!(rt; out.bytes(), [1, 2, 3].as_slice());
    assert_eq!(rt; out.put(&[5, 5, 5, 5]), Err(Failed));
    assert_eq!(rt; out.put(&[4, 5]), Ok(()));
    assert_eq!(rt; out.put(&[6]), Err(Failed));
    assert_eq!(rt; out.bytes(), [1, 2, 3, 4, 5, 6].as_slice());
    assert_eq!(rt; out.finish(), Ok(()));
    Ok(())
}

#[test]
fn a_sure_sink_fails_at_its_room_alone(rt: HostRuntime) -> Result<(), Fail> {
    let alloc = rt.alloc();
    let mut out = SureSink::new(alloc, 2)?;
    assert_eq!(rt; out.create(String::from_str(alloc, "b.db")?), Ok(()));
    assert_eq!(rt; out.put(&[1]), Ok(()));
    assert_eq!(rt; out.put(&[2, 3]), Err(Failed));
    assert_eq!(rt; out.put(&[2]), Ok(()));
    assert_eq!(rt; out.bytes(), [1, 2].as_slice());
    assert_eq!(rt; out.finish(), Ok(()));
    Ok(())
}

#[test]
fn errors_become_read_faults(rt: HostRuntime) {
    assert_eq!(rt; ReadFault::from(Failed), ReadFault::Source);
}

#[test]
fn a_source_that_gives_few_bytes_a_call_gives_a_whole_page_all_the_same(
    rt: HostRuntime,
) -> Result<(), Fail> {
    let alloc = rt.alloc();
    let geo = Geometry {
        page_size: 512,
        usable: 512,
        pages: 1,
    };
    let mut bytes = [3; 500].to_vec(alloc)?;
    bytes.extend_from_slice(&[4; 12])?;
    for step in [1, 7, 511, 512, 1000] {
        let mut src = SlowSource::new(bytes.clone()?, step);
        let mut to = [1; 512];
        assert_eq!(rt; load(&mut src, &geo, 1, &mut to), Ok(()));
        assert_eq!(rt; to.as_slice(), bytes.as_slice());
    }
    Ok(())
}

#[test]
fn a_read_that_is_too_wide_fails_and_is_counted(rt: HostRuntime) -> Result<(), Fail> {
    let alloc = rt.alloc();
    let mut src = NarrowSource::new([1, 2, 3].to_vec(alloc)?, 2);
    assert_eq!(rt; src.read_at(0, &mut [0; 3]), Err(Failed));
    let mut to = [0; 2];
    assert_eq!(rt; src.read_at(1, &mut to), Ok(2));
    assert_eq!(rt; to, [2, 3]);
    assert_eq!(rt; src.length(), Ok(3));
    Ok(())
}
