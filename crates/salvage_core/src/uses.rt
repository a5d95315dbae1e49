//! The use of each page of a file.
ghost use Rattle.std.specs.Prelude.{◌≡◌, ◌≤◌, ◌+◌, ◌*◌, length, IfOk, IfSome};
ghost use Rattle.page_access.specs.Files.{FewReads, file_of, max_input};
ghost use Rattle.page_access.specs.Outside.{HasCauseOf, KeepsSource};
ghost use Rattle.salvage_core.specs.Reads.{page_reads};
ghost use Rattle.salvage_core.specs.Uses.{AreUses, HaveOrphans, HaveReadings};

use orphan_uses::{OrphanUses, find_orphans};
use page_access::{Geometry, PageCache, ReadFault, Source};
use page_lists::PageTable;
use page_walk::{LISTS, survey};
use std::alloc::Global;
use use_order::{FileUses, find_uses};

// How many pages are in memory at a time.
const CACHED_PAGES: u32 = 64;

/// What is found on the pages of a file, and the use of each page.
#[derive(Drop)]
pub struct FoundUses {
    /// In the schema and in the trees of its rows.
    pub uses: FileUses,
    /// In the trees of the pages that have no other use.
    pub orphans: OrphanUses,
    pub table: PageTable,
}

/// The uses of the pages of a file, whose freelist begins with this trunk where it is looked at.
pub(crate) fn uses_of<S: Source>(
    alloc: Global,
    geo: &Geometry,
    first_trunk: Option<u32>,
    src: &mut S,
) -> Result<FoundUses, ReadFault>
    requires few { geo.now.pages * geo.now.page_size ≤ max_input }
    ensures uses { IfOk result (λ u. IfSome (S.bytes src.old)
        (λ all. AreUses (file_of all geo.now) first_trunk u)) }
    ensures readings { IfOk result (λ u. HaveReadings geo.now.usable geo.now.pages u.uses) }
    ensures orphans { IfOk result (λ u. HaveOrphans geo.now.usable geo.now.pages u.orphans) }
    ensures lists { IfOk result (λ u. (u.table.pages ≡ geo.now.pages) × (length u.table.lists ≡ 7)) }
    ensures cause { HasCauseOf ReadFault.Source (S.faults src.old) (S.faults src.new) result }
    ensures kept { KeepsSource S.bytes S.attached S.faults S.reads src.old src.new }
    ensures reads { FewReads (S.bytes src.old) geo.now (S.reads src.old) (S.reads src.new)
        (page_reads geo.now.pages + 1) }
{
    let mut cache = PageCache::new(alloc, geo, CACHED_PAGES)?;
    let kinds = survey(alloc, src, geo, &mut cache)?;
    let mut table = PageTable::new(alloc, geo.pages, LISTS)?;
    let uses = find_uses(alloc, src, geo, &mut cache, &kinds, &mut table)?;
    let orphans = find_orphans(alloc, src, geo, &mut cache, &kinds, &mut table, first_trunk)?;
    Ok(FoundUses {
        uses,
        orphans,
        table,
    })
}
