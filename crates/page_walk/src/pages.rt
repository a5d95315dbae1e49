//! A page in memory.
ghost use Rattle.std.specs.Prelude.{◌≡◌, ◌≤◌, ◌+◌, is_some, IsTrue, None, length, IfSome, OnOk};
ghost use Rattle.page_access.specs.Cache.{HasAll, IsCacheOf, IsHit, added, found};
ghost use Rattle.page_access.specs.Files.{IsWhole, file_of};
ghost use Rattle.page_access.specs.Outside.{HasCauseOf, KeepsSource};
ghost use Rattle.page_access.specs.Pages.{page_at};
ghost use Rattle.page_access.specs.declared.outside.ReadFault.TheVariants as faults;

use page_access::{Geometry, PageCache, ReadFault, Source};

// The bytes of page `page`, counted from 1.
pub fn read_page<S: Source>(
    src: &mut S,
    geo: &Geometry,
    cache: &mut PageCache,
    page: u32,
    to: &mut [u8],
) -> Result<(), ReadFault>
    requires page_least { 1 ≤ page }
    requires page_most { page ≤ geo.now.pages }
    requires size { length to.old ≡ geo.now.page_size }
    requires cached { IsCacheOf (S.bytes src.old) geo.now cache.old }
    ensures page { OnOk result (IfSome (S.bytes src.old)
        (λ all. to.new ≡ page_at (file_of all geo.now) page)) }
    ensures cause { HasCauseOf faults.Source (S.faults src.old) (S.faults src.new) result }
    ensures kept { KeepsSource S.bytes S.attached S.faults S.reads src.old src.new }
    ensures cached { IsCacheOf (S.bytes src.old) geo.now cache.new }
    ensures hit { IsTrue (is_some (found page cache.old)) → IsHit page to.new result cache.old cache.new }
    ensures miss { found page cache.old ≡ None → OnOk result (cache.new ≡ added page to.new cache.old) }
    ensures slots { cache.new.slots ≡ cache.old.slots }
    ensures reads { IfSome (S.bytes src.old)
        (λ all. IsWhole all geo.now → S.reads src.new ≤ S.reads src.old + 1) }
    ensures full { HasAll cache.old → HasAll cache.new × (src.new ≡ src.old) }
{
    cache.page(src, page, to)
}
