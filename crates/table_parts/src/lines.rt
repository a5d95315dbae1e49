//! The lines of a table in the report.
ghost use Rattle.std.specs.Prelude.{◌≡◌, ◌++◌, length, map, IfOk, OnOk};
ghost use Rattle.table_fill.specs.Chosen.{left_seen};
ghost use Rattle.table_parts.specs.Lines.{clash_line, clash_lines, head_lines, misfit_line, misfit_lines, note_line, note_lines, table_lines};

use crate::parts::TablePart;
use page_walk::PageNotes;
use record_core::Bytes;
use report_text::ReportLine;
use std::alloc::{AllocError, Global};
use table_fill::{Fate, LeftCell};

/// The lines of a table of this name, whose tree has so many pages: its own, the clashes, the misfits, and the
/// pages with unread cells.
pub fn lines_of(
    alloc: Global,
    name: &Bytes,
    pages: u64,
    part: &TablePart,
    notes: &[(u32, PageNotes)],
) -> Result<Vec<ReportLine>, AllocError>
    ensures { IfOk result (λ v. v.items ≡ table_lines name.now pages part.now notes.now) }
{
    let mut lines = Vec::new(alloc);
    add_head(alloc, name, pages, part, &mut lines)?;
    add_notes(notes, &mut lines)?;
    Ok(lines)
}

/// The lines of pages with unread cells.
pub fn unread_lines(
    alloc: Global,
    notes: &[(u32, PageNotes)],
) -> Result<Vec<ReportLine>, AllocError>
    ensures { IfOk result (λ v. v.items ≡ note_lines notes.now) }
{
    let mut lines = Vec::new(alloc);
    add_notes(notes, &mut lines)?;
    Ok(lines)
}

fn add_head(
    alloc: Global,
    name: &Bytes,
    pages: u64,
    part: &TablePart,
    to: &mut Vec<ReportLine>,
) -> Result<(), AllocError>
    ensures { OnOk result
        (to.new.items ≡ to.old.items ++ head_lines name.now pages part.now) }
{
    match part {
        TablePart::Built { rows, left, .. } => {
            let clashes = clash_lines(alloc, name, left)?;
            let misfits = misfit_lines(alloc, name, left)?;
            to.push(ReportLine::Table {
                name: copied(alloc, name)?,
                rows: rows.len() as u64,
                clashes: clashes.len() as u64,
                misfits: misfits.len() as u64,
                pages,
            })?;
            add_all(clashes, to)?;
            add_all(misfits, to)
        }
        TablePart::Unread { cause, cells } => {
            to.push(ReportLine::Unread {
                name: copied(alloc, name)?,
                rows: cells.len() as u64,
                pages,
                cause: *cause,
            })?;
            Ok(())
        }
    }
}

fn copied(alloc: Global, name: &Bytes) -> Result<Bytes, AllocError>
    ensures { IfOk result (λ b. b ≡ name.now) }
{
    Bytes::copy_of(alloc, name.as_slice())
}

fn add_all(lines: Vec<ReportLine>, to: &mut Vec<ReportLine>) -> Result<(), AllocError>
    ensures { OnOk result (to.new.items ≡ to.old.items ++ lines.items) }
{
    for line in lines {
        to.push(line)?;
    }
    Ok(())
}

fn clash_lines(
    alloc: Global,
    name: &Bytes,
    left: &[LeftCell],
) -> Result<Vec<ReportLine>, AllocError>
    ensures { IfOk result (λ v. v.items ≡ clash_lines name.now (map left_seen left.now)) }
{
    let mut lines = Vec::new(alloc);
    for cell in left {
        add_clash(alloc, name, cell, &mut lines)?;
    }
    Ok(lines)
}

fn add_clash(
    alloc: Global,
    name: &Bytes,
    left: &LeftCell,
    to: &mut Vec<ReportLine>,
) -> Result<(), AllocError>
    ensures { OnOk result (to.new.items
        ≡ to.old.items ++ clash_line name.now (left_seen left.now).row (left_seen left.now).fate) }
{
    let place = left.cell.place;
    if let Fate::Clash { earlier, key } = left.fate {
        to.push(ReportLine::Clash {
            name: copied(alloc, name)?,
            page: u64::from(place.page),
            cell: u64::from(place.cell),
            earlier_page: u64::from(earlier.page),
            earlier_cell: u64::from(earlier.cell),
            key: u64::from(key),
        })?;
    }
    Ok(())
}

fn misfit_lines(
    alloc: Global,
    name: &Bytes,
    left: &[LeftCell],
) -> Result<Vec<ReportLine>, AllocError>
    ensures { IfOk result (λ v. v.items ≡ misfit_lines name.now (map left_seen left.now)) }
{
    let mut lines = Vec::new(alloc);
    for cell in left {
        add_misfit(alloc, name, cell, &mut lines)?;
    }
    Ok(lines)
}

fn add_misfit(
    alloc: Global,
    name: &Bytes,
    left: &LeftCell,
    to: &mut Vec<ReportLine>,
) -> Result<(), AllocError>
    ensures { OnOk result (to.new.items
        ≡ to.old.items ++ misfit_line name.now (left_seen left.now).row (left_seen left.now).fate) }
{
    let place = left.cell.place;
    if left.fate == Fate::Misfit {
        to.push(ReportLine::Misfit {
            name: copied(alloc, name)?,
            page: u64::from(place.page),
            cell: u64::from(place.cell),
        })?;
    }
    Ok(())
}

fn add_notes(notes: &[(u32, PageNotes)], to: &mut Vec<ReportLine>) -> Result<(), AllocError>
    ensures { OnOk result (to.new.items ≡ to.old.items ++ note_lines notes.now) }
{
    for (page, note) in notes {
        add_note(*page, note, to)?;
    }
    Ok(())
}

fn add_note(page: u32, notes: &PageNotes, to: &mut Vec<ReportLine>) -> Result<(), AllocError>
    ensures { OnOk result
        (to.new.items ≡ to.old.items ++ note_line page notes.now.unread notes.now.first) }
{
    if let Some((first, cause)) = notes.first {
        to.push(ReportLine::Cells {
            page: u64::from(page),
            count: u64::from(notes.unread),
            first: u64::from(first),
            cause,
        })?;
    }
    Ok(())
}
