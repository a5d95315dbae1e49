//! Pages in memory, so that a page that is asked for again is not read again.
ghost use Rattle.std.specs.Prelude.{◌≡◌, ◌+◌, ◌-◌, ◌*◌, ◌≤◌, [], ◌∷◌, is_some, IsTrue, None, Some, true, false, length, nat_eq, take, IfOk, IfSome, OnErr, OnOk};
ghost use Rattle.std.specs.List.{AllByRecursion};
ghost use Rattle.std.specs.Map.{lookup};
ghost use Rattle.lru.specs.LruCache.{lru_cache, promoted};
ghost use Rattle.page_access.specs.Cache.{ArePairs, HasAll, HoldsPages, IsHit, IsSame, added, found, used};
ghost use Rattle.page_access.specs.Outside.{HasCauseOf, KeepsSource};
ghost use Rattle.page_access.specs.Pages.{page_of};
ghost use Rattle.page_access.specs.declared.outside.ReadFault.TheVariants as faults;

use crate::{Geometry, ReadFault, Source, load};
use lru::LruCache;
use std::alloc::{AllocError, AllocFailed, Global};
use std::marker::Model;
use std::num::NonZeroUsize;

/// Pages of a file with their bytes, the one asked for last first: at most as many as it has slots.
#[derive(Drop)]
pub struct PageCache {
    geo: Geometry,
    alloc: Global,
    pairs: LruCache<u32, Vec<u8>>,
}

impl Model for PageCache {
    ghost use Rattle.page_access.specs.Cache.{Cache};

    ghost Value = { Cache };

    ghost use Rattle.page_access.specs.CacheStored.{IsSound, cache_of};

    ghost view = { cache_of };

    ghost invariant = { IsSound };
}

impl PageCache {
    /// An empty cache of so many slots, for the pages of a file that is cut so.
    pub fn new(alloc: Global, geo: &Geometry, slots: u32) -> Result<PageCache, AllocError>
        requires { 1 ≤ slots }
        ensures { IfOk result (λ c. c ≡ record {
          size = geo.now.page_size;
          pages = geo.now.pages;
          slots = slots;
          pairs = [];
        }) }
    {
        let pairs = LruCache::new(alloc, NonZeroUsize::new(slots as usize).unwrap())?;
        Ok(PageCache {
            geo: *geo,
            alloc,
            pairs,
        })
    }

    /// The number of slots.
    pub fn slots(&self) -> usize
        ensures value { result ≡ self.now.slots }
        ensures pairs { ArePairs self.now }
    {
        self.pairs.cap().get()
    }

    // The bytes of the page, where they are there; its pair then comes first.
    fn take(&mut self, page: u32, to: &mut [u8]) -> bool
        requires size { length to.old ≡ self.old.size }
        ensures found { result ≡ is_some (found page self.old) }
        ensures hit { result ≡ true → found page self.old ≡ Some to.new }
        ensures used { result ≡ true → self.new ≡ used page to.new self.old }
        ensures miss { result ≡ false → self.new ≡ self.old }
        ensures len { length to.new ≡ length to.old }
    {
        let hit = copy(&mut self.pairs, page, to);
        // tells that the pairs are valid
        let _len = self.pairs.len();
        hit
    }

    // The bytes of a page that is not there; its pair is then the first.
    fn fetch<S: Source>(&mut self, src: &mut S, page: u32, to: &mut [u8]) -> Result<(), ReadFault>
        requires least { 1 ≤ page }
        requires most { page ≤ self.old.pages }
        requires size { length to.old ≡ self.old.size }
        requires absent { found page self.old ≡ None }
        ensures page { OnOk result (IfSome (S.bytes src.old)
            (λ all. to.new ≡ page_of all self.old.size page)) }
        ensures added { OnOk result (self.new ≡ added page to.new self.old) }
        ensures err { OnErr result (self.new ≡ self.old) }
        ensures cause { HasCauseOf faults.Source (S.faults src.old) (S.faults src.new) result }
        ensures kept { KeepsSource S.bytes S.attached S.faults S.reads src.old src.new }
        ensures reads { IfSome (S.bytes src.old) (λ all.
            page * self.old.size ≤ length all → S.reads src.new ≤ S.reads src.old + 1) }
    {
        load(src, &self.geo, page, to)?;
        let bytes = Vec::from_slice(self.alloc, to)?;
        store(&mut self.pairs, page, bytes)?;
        // tells that the pairs are valid
        let _len = self.pairs.len();
        Ok(())
    }

    /// The bytes of page `page`, counted from 1. Where the cache has it, nothing is read and no memory is
    /// taken; else it is loaded. Its pair is then the first, and the last has gone where all slots
    /// were taken. After an error the pairs are as before.
    pub fn page<S: Source>(
        &mut self,
        src: &mut S,
        page: u32,
        to: &mut [u8],
    ) -> Result<(), ReadFault>
        requires least { 1 ≤ page }
        requires most { page ≤ self.old.pages }
        requires size { length to.old ≡ self.old.size }
        requires told { IfSome (S.bytes src.old) (λ all. HoldsPages all self.old) }
        ensures page { OnOk result (IfSome (S.bytes src.old)
            (λ all. to.new ≡ page_of all self.old.size page)) }
        ensures hit { IsTrue (is_some (found page self.old))
            → IsHit page to.new result self.old self.new }
        ensures hit_source { IsTrue (is_some (found page self.old)) → src.new ≡ src.old }
        ensures miss { found page self.old ≡ None
            → OnOk result (self.new ≡ added page to.new self.old) }
        ensures cause { HasCauseOf faults.Source (S.faults src.old) (S.faults src.new) result }
        ensures holds { IfSome (S.bytes src.old) (λ all. HoldsPages all self.new) }
        ensures same { IsSame self.old self.new }
        ensures err { OnErr result (self.new ≡ self.old) }
        ensures kept { KeepsSource S.bytes S.attached S.faults S.reads src.old src.new }
        ensures reads { IfSome (S.bytes src.old) (λ all.
            page * self.old.size ≤ length all → S.reads src.new ≤ S.reads src.old + 1) }
        ensures full { HasAll self.old → HasAll self.new × (src.new ≡ src.old) }
    {
        if self.take(page, to) {
            return Ok(());
        }
        self.fetch(src, page, to)
    }
}

// The bytes of the page, where the pairs have them; its pair then comes first.
fn copy(pairs: &mut LruCache<u32, Vec<u8>>, page: u32, to: &mut [u8]) -> bool
    requires { AllByRecursion (λ e. length e.1.items ≡ length to.old) pairs.old.entries }
    ensures entries { pairs.new ≡ lru_cache (promoted (nat_eq page) pairs.old.entries) pairs.old.cap }
    ensures found { result ≡ is_some (lookup (nat_eq page) pairs.old.entries) }
    ensures bytes { result ≡ true
        → IfSome (lookup (nat_eq page) pairs.old.entries) (λ v. to.new ≡ v.items) }
    ensures len { length to.new ≡ length to.old }
{
    match pairs.get(&page) {
        Some(bytes) => {
            to.copy_from_slice(bytes);
            true
        }
        None => false,
    }
}

// The pair of a page that is not there is put first.
fn store(
    pairs: &mut LruCache<u32, Vec<u8>>,
    page: u32,
    bytes: Vec<u8>,
) -> Result<(), AllocFailed<(u32, Vec<u8>)>>
    requires { lookup (nat_eq page) pairs.old.entries ≡ None }
    ensures entries { OnOk result (pairs.new
        ≡ lru_cache ((page, bytes) ∷ take (pairs.old.cap - 1) pairs.old.entries) pairs.old.cap) }
    ensures err { OnErr result (pairs.new ≡ pairs.old) }
{
    pairs.put(page, bytes)?;
    Ok(())
}
