//! What the bytes of an input give.
ghost use Rattle.std.specs.Prelude.{◌≡◌, ◌≤◌, ◌+◌, unwrap_or, IsTrue, Some, IfOk, IfSome, OnOk};
ghost use Rattle.page_access.specs.Outside.{HasCauseOf, KeepsSource};
ghost use Rattle.page_access.specs.Files.{FewReads, max_input};
ghost use Rattle.page_access.specs.Pages.{is_page_size};
ghost use Rattle.page_size.specs.Rule.{finding};
ghost use Rattle.input_pages.specs.Input.{IsWithin, left_of};
ghost use Rattle.salvage_core.specs.Outcome.{HasNumbers};
ghost use Rattle.salvage_core.specs.Plan.{AreOptions, Gathers, IsEmptyPlan, IsPagesAnswer, IsReadAnswer, trunk_of};
ghost use Rattle.salvage_core.specs.Reads.{most_reads, page_reads};
ghost use Rattle.salvage_core.specs.Sound.{IsSound, OnlyOfInput};

use crate::assemble::assemble;
use crate::uses::uses_of;
use crate::{Fault, Gathered, Options};
use db_builder::OutDb;
use input_pages::{Input, is_utf16, open_input};
use page_access::Source;
use page_lists::PageTable;
use page_size::{Found, Origin};
use page_walk::LISTS;
use report_text::ReportLine;
use std::alloc::{AllocError, Global};

// The page size of a database that is written of nothing, where no option gives one.
const EMPTY_SIZE: u32 = 4096;

/// All that the bytes of the input of this name give. It is refused for the faults of its source, of its
/// length, of its page size and of its encoding, and for want of memory.
pub fn gather<S: Source>(
    alloc: Global,
    opts: &Options,
    input: &str,
    src: &mut S,
) -> Result<Gathered, Fault>
    requires { AreOptions opts.now }
    ensures plan { IfSome (S.bytes src.old) (λ all. Gathers opts.now all result) }
    ensures sound { IfOk result IsSound }
    ensures name { OnOk result (S.attached src.new ≡ Some input.now) }
    ensures numbers { HasNumbers opts.now result }
    ensures only { OnlyOfInput result }
    ensures cause { HasCauseOf Fault.InputFault (S.faults src.old) (S.faults src.new) result }
    ensures bytes { S.bytes src.new ≡ S.bytes src.old }
    ensures reads { IfSome (S.bytes src.old)
        (λ all. S.reads src.new ≤ S.reads src.old + most_reads opts.now all) }
{
    match open_input(
        alloc,
        src,
        input,
        opts.input_limit,
        opts.page_size,
        opts.reserved,
    )? {
        Some(input) => gather_pages(alloc, opts, &input, src),
        None => Ok(gather_nothing(alloc, opts)?),
    }
}

// The page size of a database that is written of nothing.
fn empty_size(page_size: Option<u32>) -> u32
    requires { IfSome page_size (λ s. IsTrue (is_page_size s)) }
    ensures value { result ≡ unwrap_or page_size 4096 }
    ensures valid { IsTrue (is_page_size result) }
    ensures least { 512 ≤ result }
    ensures most { result ≤ 65536 }
{
    match page_size {
        Some(size) => size,
        None => EMPTY_SIZE,
    }
}

// What an empty input gives.
fn gather_nothing(alloc: Global, opts: &Options) -> Result<Gathered, AllocError>
    requires { AreOptions opts.now }
    ensures plan { IfOk result (IsEmptyPlan opts.now) }
    ensures sound { IfOk result IsSound }
{
    let page_size = empty_size(opts.page_size);
    let mut lines = Vec::new(alloc);
    lines.push(ReportLine::Geometry {
        size: u64::from(page_size),
        reserved: 0,
        pages: 0,
        origin: Origin::Empty,
    })?;
    lines.push(ReportLine::Orphans { trees: 0, pages: 0 })?;
    Ok(Gathered {
        geometry: None,
        origin: Origin::Empty,
        page_size,
        uses: PageTable::new(alloc, 0, LISTS)?,
        schema: Vec::new(alloc),
        trees: Vec::new(alloc),
        orphans: Vec::new(alloc),
        db: OutDb {
            tables: Vec::new(alloc),
            user_version: 0,
            application_id: 0,
        },
        lost: 0,
        places: Vec::new(alloc),
        failed: Vec::new(alloc),
        script: Vec::new(alloc),
        lines,
    })
}

// What the pages of an input give.
fn gather_pages<S: Source>(
    alloc: Global,
    opts: &Options,
    input: &Input,
    src: &mut S,
) -> Result<Gathered, Fault>
    requires options { AreOptions opts.now }
    requires within { IsWithin max_input input.now }
    ensures plan { IfSome (S.bytes src.old) (λ all. input.now.left ≡ left_of all (finding input.now.found)
        → IsPagesAnswer opts.now all (finding input.now.found) result) }
    ensures sound { IfOk result IsSound }
    ensures only { IsReadAnswer result }
    ensures cause { HasCauseOf Fault.InputFault (S.faults src.old) (S.faults src.new) result }
    ensures kept { KeepsSource S.bytes S.attached S.faults S.reads src.old src.new }
    ensures reads { FewReads (S.bytes src.old) input.now.found.geometry
        (S.reads src.old) (S.reads src.new) (page_reads input.now.found.geometry.pages + 1) }
{
    let found = &input.found;
    if is_utf16(found) {
        let encoding = found.header.encoding;
        return Err(Fault::Utf16 { encoding });
    }
    let first_trunk = trunk_of(opts, found);
    let uses = uses_of(alloc, &found.geometry, first_trunk, src)?;
    Ok(assemble(alloc, opts, input, uses)?)
}

// The first trunk of the freelist, where the freelist is looked at.
fn trunk_of(opts: &Options, found: &Found) -> Option<u32>
    ensures { result ≡ trunk_of opts.now (finding found.now) }
{
    if found.origin == Origin::Header && !opts.freelist_corrupt {
        Some(found.header.first_trunk)
    } else {
        None
    }
}
