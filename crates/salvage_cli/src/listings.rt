//! A command, done: its input is listed in the report.
ghost use Rattle.std.specs.Prelude.{◌≡◌, Some, true, IfErr, IfSome, OnErr, OnOk};
ghost use Rattle.page_access.specs.Files.{file_of};
ghost use Rattle.page_access.specs.Outside.{HasCauseOf, KeepsSink, KeepsSource, WritesOf};
ghost use Rattle.command_line.specs.Command.{file_view};
ghost use Rattle.page_size.specs.Rule.{finding};
ghost use Rattle.salvage_cli.specs.Wanted.{is_refused, listing_answer, listing_text, text_or_refusal};
ghost use Rattle.salvage_cli.specs.Outcome.{StaysUnfinished};
ghost use Rattle.salvage_cli.specs.Run.{GivesWanted, HasNumbers, IsEarly, IsLate, IsOfListing};

use crate::faults::Fault;
use crate::schemas::list_schema;
use command_line::{InputFile, Listing};
use dbdata_list::{list_data, list_pointers};
use input_pages::{is_utf16, open_input};
use page_access::{Geometry, MAX_INPUT, Sink, Source};
use page_size::Found;
use std::alloc::Global;

/// Lists the input in the report, and finishes the report.
pub(crate) fn list<S: Source, R: Sink>(
    alloc: Global,
    listing: Listing,
    input: &InputFile<'_>,
    src: &mut S,
    report: &mut R,
) -> Result<(), Fault>
    ensures told { IfSome (S.bytes src.old)
        (λ all. GivesWanted (listing_answer listing (file_view input.now) all) (R.bytes report.old)
        (R.bytes report.new) result) }
    ensures name { OnOk result (S.attached src.new ≡ Some input.now.name.now) }
    ensures finished { OnOk result (R.finished report.new ≡ true) }
    ensures early { IsEarly result → report.new ≡ report.old }
    ensures only { IsOfListing result }
    ensures numbers { HasNumbers result }
    ensures source { HasCauseOf Fault.InputFault (S.faults src.old) (S.faults src.new) result }
    ensures sink { HasCauseOf Fault.ReportFault (R.faults report.old) (R.faults report.new) result }
    ensures report_name { R.created report.new ≡ R.created report.old }
    ensures unfinished { OnErr result (StaysUnfinished (R.finished report.old)
        (R.finished report.new)) }
{
    let pages = open_input(
        alloc,
        src,
        input.name,
        MAX_INPUT,
        input.page_size,
        input.reserved,
    )?;
    match pages {
        Some(pages) => put_found(alloc, listing, &pages.found, src, report),
        None => finish(report),
    }
}

// Lists the pages that were found, but for those that the listing refuses.
fn put_found<S: Source, R: Sink>(
    alloc: Global,
    listing: Listing,
    found: &Found,
    src: &mut S,
    report: &mut R,
) -> Result<(), Fault>
    ensures told { IfSome (S.bytes src.old)
        (λ all. GivesWanted (text_or_refusal listing all (finding found.now)) (R.bytes report.old)
        (R.bytes report.new) result) }
    ensures finished { OnOk result (R.finished report.new ≡ true) }
    ensures early { IsEarly result → report.new ≡ report.old }
    ensures only { IsOfListing result }
    ensures numbers { HasNumbers result }
    ensures source { HasCauseOf Fault.InputFault (S.faults src.old) (S.faults src.new) result }
    ensures sink { HasCauseOf Fault.ReportFault (R.faults report.old) (R.faults report.new) result }
    ensures report_name { R.created report.new ≡ R.created report.old }
    ensures unfinished { OnErr result (StaysUnfinished (R.finished report.old)
        (R.finished report.new)) }
    ensures kept { KeepsSource S.bytes S.attached S.faults S.reads src.old src.new }
{
    if is_refused(listing, found) {
        return Err(Fault::Utf16);
    }
    put_all(alloc, listing, &found.geometry, src, report)
}

// Whether the listing refuses the pages for the encoding of their texts.
fn is_refused(listing: Listing, found: &Found) -> bool
    ensures { result ≡ is_refused listing (finding found.now) }
{
    match listing {
        Listing::Schema => is_utf16(found),
        Listing::Dbdata | Listing::Dbptr => false,
    }
}

// Lists a file in the report, and finishes the report.
fn put_all<S: Source, R: Sink>(
    alloc: Global,
    listing: Listing,
    geo: &Geometry,
    src: &mut S,
    report: &mut R,
) -> Result<(), Fault>
    ensures text { IfSome (S.bytes src.old)
        (λ all. GivesWanted (Ok (listing_text listing (file_of all geo.now))) (R.bytes report.old)
        (R.bytes report.new) result) }
    ensures finished { OnOk result (R.finished report.new ≡ true) }
    ensures source { HasCauseOf Fault.InputFault (S.faults src.old) (S.faults src.new) result }
    ensures sink { HasCauseOf Fault.ReportFault (R.faults report.old) (R.faults report.new) result }
    ensures report_name { R.created report.new ≡ R.created report.old }
    ensures unfinished { OnErr result (StaysUnfinished (R.finished report.old)
        (R.finished report.new)) }
    ensures kept { KeepsSource S.bytes S.attached S.faults S.reads src.old src.new }
    ensures late { IsLate result }
{
    put_listing(alloc, listing, geo, src, report)?;
    finish(report)
}

// Lists a file in the report.
fn put_listing<S: Source, R: Sink>(
    alloc: Global,
    listing: Listing,
    geo: &Geometry,
    src: &mut S,
    report: &mut R,
) -> Result<(), Fault>
    ensures text { IfSome (S.bytes src.old) (λ all.
        WritesOf Fault.ReportFault (R.bytes report.old) (R.bytes report.new) (R.faults report.old)
        (R.faults report.new) (listing_text listing (file_of all geo.now)) result) }
    ensures source { HasCauseOf Fault.InputFault (S.faults src.old) (S.faults src.new) result }
    ensures sink { HasCauseOf Fault.ReportFault (R.faults report.old) (R.faults report.new) result }
    ensures kept { KeepsSource S.bytes S.attached S.faults S.reads src.old src.new }
    ensures kept_sink { KeepsSink R.created R.finished R.faults report.old report.new }
    ensures late { IsLate result }
{
    match listing {
        Listing::Dbdata => list_data(alloc, src, geo, report)?,
        Listing::Dbptr => list_pointers(alloc, src, geo, report)?,
        Listing::Schema => list_schema(alloc, src, geo, report)?,
    }
    Ok(())
}

// Finishes the report.
fn finish<R: Sink>(report: &mut R) -> Result<(), Fault>
    ensures finished { OnOk result (R.finished report.new ≡ true) }
    ensures only { IfErr result (λ fault. fault ≡ Fault.ReportFault) }
    ensures sink { HasCauseOf Fault.ReportFault (R.faults report.old) (R.faults report.new) result }
    ensures report_name { R.created report.new ≡ R.created report.old }
    ensures unfinished { OnErr result (StaysUnfinished (R.finished report.old)
        (R.finished report.new)) }
    ensures bytes { R.bytes report.new ≡ R.bytes report.old }
{
    match report.finish() {
        Ok(()) => Ok(()),
        Err(_) => Err(Fault::ReportFault),
    }
}
