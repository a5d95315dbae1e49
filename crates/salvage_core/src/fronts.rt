//! The lines of the report in front of those of the tables.
ghost use Rattle.std.specs.Prelude.{◌≡◌, ◌++◌, ◌-◌, map, IfOk, OnOk};
ghost use Rattle.page_size.specs.Rule.{finding};
ghost use Rattle.page_walk.specs.Cells.{row_of};
ghost use Rattle.table_parts.specs.Lines.{note_lines};
ghost use Rattle.salvage_core.specs.Plan.{bad_line, front_lines, left_lines};

use page_size::Found;
use page_walk::{PageNotes, TakenCell};
use report_text::ReportLine;
use std::alloc::{AllocError, Global};
use table_parts::unread_lines;

/// The lines in front: how the file is cut, the bytes behind its last page, the cells of the schema's tree
/// that are no rows of it, and its pages with unread cells.
pub(crate) fn front_lines(
    alloc: Global,
    found: &Found,
    left: u64,
    bad: &[TakenCell],
    notes: &[(u32, PageNotes)],
) -> Result<Vec<ReportLine>, AllocError>
    ensures { IfOk result (λ v. v.items
        ≡ front_lines (finding found.now) left (map row_of bad.now) notes.now) }
{
    let geo = &found.geometry;
    let mut lines = Vec::new(alloc);
    lines.push(ReportLine::Geometry {
        size: u64::from(geo.page_size),
        reserved: u64::from(geo.page_size - geo.usable),
        pages: u64::from(geo.pages),
        origin: found.origin,
    })?;
    if left > 0 {
        lines.push(ReportLine::Left { bytes: left })?;
    }
    add_bad(bad, &mut lines)?;
    lines.append(&mut unread_lines(alloc, notes)?)?;
    Ok(lines)
}

// Appends the lines of cells that are no rows of the schema.
fn add_bad(bad: &[TakenCell], to: &mut Vec<ReportLine>) -> Result<(), AllocError>
    ensures { OnOk result (to.new.items ≡ to.old.items ++ map bad_line (map row_of bad.now)) }
{
    for cell in bad {
        to.push(bad_line(cell))?;
    }
    Ok(())
}

fn bad_line(cell: &TakenCell) -> ReportLine
    ensures { result ≡ bad_line (row_of cell.now) }
{
    ReportLine::BadSchema {
        page: u64::from(cell.place.page),
        cell: u64::from(cell.place.cell),
    }
}
