//! Reading a chain page by page.
ghost use Rattle.std.specs.Prelude.{◌≡◌, ℕ, ◌+◌, ◌-◌, ◌*◌, ◌<◌, ◌≤◌, ◌⊎◌, true, false, if◌then◌else◌, [], ◌∷◌, ◌++◌, length, take, IfNone, IfOk, IfSome, OnErr, OnOk, is_ok};
ghost use Rattle.std.specs.List.{slice_range};
ghost use Rattle.page_access.specs.Files.{IsWhole, file_of};
ghost use Rattle.page_access.specs.Outside.{HasCauseOf, KeepsSource};
ghost use Rattle.page_access.specs.Pages.{page_of};
ghost use Rattle.page_access.specs.declared.outside.ReadFault.TheVariants as faults;
ghost use Rattle.page_lists.specs.Lists.{is_in};
ghost use Rattle.page_lists.specs.Table.{IsPartition, Moves, moved, unused};
ghost use Rattle.overflow_chain.specs.Turn.{GivesChain, Takes, Turned, TurnsFront, why_not};

use crate::{ChainEnd, OVERFLOW_LIST, Why};
use byteorder::{BigEndian, ByteOrder};
use page_access::{Geometry, ReadFault, Source, load};
use page_lists::PageTable;
use std::alloc::Global;

/// Follows the overflow chain from page `first` on while bytes of the `need` are missing and its pages
/// are unused. Appends the pages to `pages` and their contents to `to`, and moves them to the list of
/// overflow pages (fileformat2.html, 1.7). After an error some pages may have moved.
pub fn read_chain<S: Source>(
    alloc: Global,
    src: &mut S,
    geo: &Geometry,
    table: &mut PageTable,
    first: u32,
    need: u64,
    pages: &mut Vec<u32>,
    to: &mut Vec<u8>,
) -> Result<ChainEnd, ReadFault>
    requires same_pages { table.old.pages ≡ geo.now.pages }
    requires lists { 7 ≤ length table.old.lists }
    requires need_least { 1 ≤ need }
    requires need_most { need ≤ geo.now.pages * geo.now.usable }
    ensures value { IfOk result (λ end. IfSome (S.bytes src.old)
        (λ all. Turned (file_of all geo.now) first need table.old table.new
        pages.old.items pages.new.items to.old.items to.new.items end)) }
    ensures chain { IfOk result (λ end. IfSome (S.bytes src.old)
        (λ all. GivesChain (file_of all geo.now) first need
        pages.old.items pages.new.items to.old.items to.new.items end)) }
    // at every exit
    ensures front { IfSome (S.bytes src.old)
        (λ all. TurnsFront (file_of all geo.now) first need table.old table.new
        pages.old.items pages.new.items to.old.items to.new.items) }
    ensures taken { OnOk result (Takes need table.old table.new
        pages.old.items pages.new.items to.old.items to.new.items) }
    ensures cause { HasCauseOf faults.Source (S.faults src.old) (S.faults src.new) result }
    ensures kept { KeepsSource S.bytes S.attached S.faults S.reads src.old src.new }
    ensures moves { Moves OVERFLOW_LIST table.old table.new }
    // one read for each page that moved, and one more at an error
    ensures reads { IfSome (S.bytes src.old)
        (λ all. IsWhole all geo.now →
        S.reads src.new + length (unused table.new)
        ≤ S.reads src.old + length (unused table.old) + (if is_ok result then 0 else 1)) }
{
    let mut page = vec![in alloc; 0u8; geo.page_size as usize]?;
    let buffer = page.as_mut_slice();
    let last = table.pages();
    let content_len = u64::from(geo.usable - 4);
    let mut at = first;
    let mut missing = need;
    while missing > 0 {
        if let Some(why) = refusal(table, last, at) {
            return Ok(ChainEnd::Broken { at, why });
        }
        take_page(src, geo, table, at, missing, buffer, pages, to)?;
        at = BigEndian::read_u32(buffer);
        missing = missing.saturating_sub(content_len);
    }
    Ok(ChainEnd::Whole)
}

// Why the page of this number cannot be taken, or `None` where it is unused.
fn refusal(table: &PageTable, last: u32, at: u32) -> Option<Why>
    requires last { last ≡ table.now.pages }
    requires partition { IsPartition table.now }
    ensures none { IfNone result (is_in at (unused table.now) ≡ true) }
    ensures some { IfSome result
        (λ why. (is_in at (unused table.now) ≡ false) × (why ≡ why_not table.now.pages at)) }
{
    if at == 0 {
        return Some(Why::Range);
    }
    if at > last {
        return Some(Why::Range);
    }
    if table.list_of(at) != 0 {
        return Some(Why::Used);
    }
    None
}

// Reads overflow page `at` into `buffer`, appends its number and what is missing of its content, and
// moves it to the list of overflow pages.
fn take_page<S: Source>(
    src: &mut S,
    geo: &Geometry,
    table: &mut PageTable,
    at: u32,
    missing: u64,
    buffer: &mut [u8],
    pages: &mut Vec<u32>,
    to: &mut Vec<u8>,
) -> Result<(), ReadFault>
    requires least { 1 ≤ at }
    requires most { at ≤ geo.now.pages }
    requires same_pages { table.old.pages ≡ geo.now.pages }
    requires lists { 7 ≤ length table.old.lists }
    requires size { length buffer.old ≡ geo.now.page_size }
    ensures page { OnOk result (IfSome (S.bytes src.old)
        (λ all. buffer.new ≡ page_of all geo.now.page_size at)) }
    ensures pages { OnOk result (pages.new.items ≡ pages.old.items ++ at ∷ []) }
    ensures bytes { OnOk result
        (to.new.items ≡ to.old.items ++ take missing (slice_range buffer.new 4 geo.now.usable)) }
    ensures moved { OnOk result (table.new ≡ moved at OVERFLOW_LIST table.old) }
    ensures err { OnErr result (table.new ≡ table.old) }
    ensures err_bytes { OnErr result (to.new.items ≡ to.old.items) }
    ensures err_pages { OnErr result ((pages.new.items ≡ pages.old.items)
        ⊎ (pages.new.items ≡ pages.old.items ++ at ∷ [])) }
    ensures cause { HasCauseOf faults.Source (S.faults src.old) (S.faults src.new) result }
    ensures kept { KeepsSource S.bytes S.attached S.faults S.reads src.old src.new }
    ensures reads { IfSome (S.bytes src.old)
        (λ all. at * geo.now.page_size ≤ length all → S.reads src.new ≤ S.reads src.old + 1) }
{
    load(src, geo, at, buffer)?;
    pages.push(at)?;
    to.extend_from_slice(missing_content(buffer, geo.usable as usize, missing))?;
    table.move_to_back(at, OVERFLOW_LIST);
    Ok(())
}

// The content of an overflow page, cut where no more is missing.
fn missing_content(page: &[u8], usable: usize, missing: u64) -> &[u8]
    requires least { 4 ≤ usable }
    requires most { usable ≤ length page.now }
    ensures { result.now ≡ take missing (slice_range page.now 4 usable) }
{
    let content = &page[4..usable];
    if missing >= content.len() as u64 {
        return content;
    }
    &content[..missing as usize]
}
