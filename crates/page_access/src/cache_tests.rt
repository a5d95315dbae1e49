use super::*;
use std::test::Fail;

const GEO: Geometry = Geometry {
    page_size: 512,
    usable: 512,
    pages: 2,
};

#[test]
fn a_cache_of_one_slot_reads_a_page_again_once_another_was_asked_for(
    rt: HostRuntime,
) -> Result<(), Fail> {
    let alloc = rt.alloc();
    let mut bytes = vec![in alloc; 1u8; 1024]?;
    bytes[512..].fill(2);
    let mut src = MemSource::new(bytes, Vec::new(alloc));
    let mut cache = PageCache::new(alloc, &GEO, 1)?;
    assert_eq!(rt; cache.slots(), 1);
    let mut to = [0; 512];
    assert_eq!(rt; cache.page(&mut src, 1, &mut to), Ok(()));
    assert!(rt; to.iter().all(|byte| *byte == 1));
    assert_eq!(rt; cache.page(&mut src, 2, &mut to), Ok(()));
    assert!(rt; to.iter().all(|byte| *byte == 2));
    assert_eq!(rt; cache.page(&mut src, 1, &mut to), Ok(()));
    assert!(rt; to.iter().all(|byte| *byte == 1));
    assert_eq!(rt; cache.page(&mut src, 1, &mut to), Ok(()));
    assert!(rt; to.iter().all(|byte| *byte == 1));
    assert_eq!(rt; src.reads(), 3);
    Ok(())
}

#[test]
fn a_failed_read_leaves_the_cached_page(rt: HostRuntime) -> Result<(), Fail> {
    let alloc = rt.alloc();
    let bytes = vec![in alloc; 7u8; 1024]?;
    let mut src = MemSource::new(bytes, [2].to_vec(alloc)?);
    let mut cache = PageCache::new(alloc, &GEO, 1)?;
    let mut to = [0; 512];
    assert_eq!(rt; cache.page(&mut src, 1, &mut to), Ok(()));
    assert_eq!(rt; cache.page(&mut src, 2, &mut to), Err(ReadFault::Source));
    assert_eq!(rt; cache.page(&mut src, 1, &mut to), Ok(()));
    assert_eq!(rt; src.reads(), 2);
    Ok(())
}
