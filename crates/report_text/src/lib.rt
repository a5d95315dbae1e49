//! The lines of the program's texts, one variant each (docs/TEXTS.md, "Listings" and "The report").
#![tactic(auto)]

mod causes;
mod laws;
mod lines;
mod names;
mod numbers;
mod report;
mod scripts;

ghost use Rattle.std.specs.Prelude.{◌≡◌, [], ◌∷◌, codes};
ghost use Rattle.page_access.specs.Outside.{KeepsSink, Writes};
ghost use Rattle.report_text.specs.Lines.{line_text};

pub use causes::UnreadCause;
use causes::origin_word;
pub use laws::names_are_told_apart;
use line_text::cause_word;
use lines::{put_bad, put_end, put_start};
use names::put_name;
use page_access::{Failed, Sink};
use page_size::Origin;
use page_walk::CellCause;
use raw_schema::SchemaKind;
use record_core::Bytes;
use report::{counts, put_counted, put_ended, put_named, reason};
pub use scripts::put_script;

/// A line of the schema listing or of a report. Pages count from 1, cells from 0.
#[derive(Debug, Drop)]
pub enum ReportLine {
    /// A row of the schema.
    Row {
        page: u64,
        cell: u64,
        kind: SchemaKind,
        name: Bytes,
        tbl: Bytes,
        root: i64,
        sql: Option<Bytes>,
    },
    /// A readable cell of the schema's tree that is no row of the schema.
    BadRow {
        page: u64,
        cell: u64,
    },
    /// How the input is cut into pages: bytes of a page, reserved bytes at its end, number of pages.
    Geometry {
        size: u64,
        reserved: u64,
        pages: u64,
        origin: Origin,
    },
    /// Bytes behind the last page.
    Left {
        bytes: u64,
    },
    /// A readable cell of the schema's tree that is no row of the schema.
    BadSchema {
        page: u64,
        cell: u64,
    },
    /// The unread cells of a page: how many, the first and its cause.
    Cells {
        page: u64,
        count: u64,
        first: u64,
        cause: CellCause,
    },
    /// A table that is built: its rows, the cells that clash and those that do not fit, the pages of its
    /// tree.
    Table {
        name: Bytes,
        rows: u64,
        clashes: u64,
        misfits: u64,
        pages: u64,
    },
    /// A table that is not built: the readable cells of its tree, its pages, and why.
    Unread {
        name: Bytes,
        rows: u64,
        pages: u64,
        cause: UnreadCause,
    },
    /// A cell that clashes with an earlier row by a key.
    Clash {
        name: Bytes,
        page: u64,
        cell: u64,
        earlier_page: u64,
        earlier_cell: u64,
        key: u64,
    },
    /// A cell that does not fit its table.
    Misfit {
        name: Bytes,
        page: u64,
        cell: u64,
    },
    /// The orphan trees and their pages.
    Orphans {
        trees: u64,
        pages: u64,
    },
    /// The table of lost rows.
    Lost {
        name: Bytes,
        rows: u64,
    },
    /// The pages of the database that was written.
    Written {
        pages: u64,
    },
}

/// Puts one line. After an error a front of it is there.
#[tactic(auto, unfolding(crate::specs::Lines::line_text))]
pub fn put_line<R: Sink>(line: &ReportLine, to: &mut R) -> Result<(), Failed>
    ensures writes { Writes (R.bytes to.old) (R.bytes to.new) (R.faults to.old) (R.faults to.new)
        (line_text line.now) result }
    ensures kept { KeepsSink R.created R.finished R.faults to.old to.new }
{
    match line {
        ReportLine::Row {
            page,
            cell,
            kind,
            name,
            tbl,
            root,
            sql,
        } => {
            put_start(to, *page, *cell, *kind)?;
            put_name(to, name.as_slice())?;
            put_name(to, tbl.as_slice())?;
            put_end(to, *root, sql)
        }
        ReportLine::BadRow { page, cell } => put_bad(to, *page, *cell),
        ReportLine::Geometry {
            size,
            reserved,
            pages,
            origin,
        } => put_ended(
            to,
            b"geometry",
            &[*size, *reserved, *pages],
            origin_word(*origin),
        ),
        ReportLine::Left { bytes } => put_counted(to, b"left", &[*bytes]),
        ReportLine::BadSchema { page, cell } => put_counted(to, b"badschema", &[*page, *cell]),
        ReportLine::Cells {
            page,
            count,
            first,
            cause,
        } => put_ended(
            to,
            b"cells",
            &[*page, *count, *first],
            cause_word(*cause).as_bytes(),
        ),
        ReportLine::Table {
            name,
            rows,
            clashes,
            misfits,
            pages,
        } => put_named(
            to,
            b"table",
            name.as_slice(),
            &counts(&[*rows, *clashes, *misfits, *pages]),
        ),
        ReportLine::Unread {
            name,
            rows,
            pages,
            cause,
        } => put_named(
            to,
            b"unread",
            name.as_slice(),
            &reason(*rows, *pages, *cause),
        ),
        ReportLine::Clash {
            name,
            page,
            cell,
            earlier_page,
            earlier_cell,
            key,
        } => put_named(
            to,
            b"clash",
            name.as_slice(),
            &counts(&[*page, *cell, *earlier_page, *earlier_cell, *key]),
        ),
        ReportLine::Misfit { name, page, cell } => put_named(
            to,
            b"misfit",
            name.as_slice(),
            &counts(&[*page, *cell]),
        ),
        ReportLine::Orphans { trees, pages } => put_counted(to, b"orphans", &[*trees, *pages]),
        ReportLine::Lost { name, rows } => {
            put_named(to, b"lost", name.as_slice(), &counts(&[*rows]))
        }
        ReportLine::Written { pages } => put_counted(to, b"result", &[*pages]),
    }
}

#[cfg(test)]
mod tests;
