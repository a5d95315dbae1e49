//! What a file gives.
ghost use Rattle.std.specs.Prelude.{◌≡◌, ◌^◌, ◌-◌, min, length, sum_by};
ghost use Rattle.table_shape.specs.declared.rows.OutTable.{OutTable};
ghost use Rattle.salvage_core.specs.Outcome.{rows_out};

use crate::Options;
use db_builder::OutDb;
use orphan_trees::OrphanTree;
use page_access::Geometry;
use page_lists::PageTable;
use page_size::Origin;
use raw_schema::SchemaRow;
use report_text::ReportLine;
use salvaged_tables::{FailedEntry, Placed, ScriptText};
use table_shape::OutTable;
use tree_uses::TreeUse;

/// All that the bytes of a file give.
#[derive(Drop)]
pub struct Gathered {
    /// How the file is cut into pages; none where it is empty.
    pub geometry: Option<Geometry>,
    /// Where its page size comes from.
    pub origin: Origin,
    /// Bytes of a page of the file, and of the database that is written.
    pub page_size: u32,
    /// The use of each page, by list.
    pub uses: PageTable,
    /// The rows of its schema.
    pub schema: Vec<SchemaRow>,
    /// The trees of its tables and then those of its indexes, in schema order.
    pub trees: Vec<TreeUse>,
    /// The trees of the pages that have no other use.
    pub orphans: Vec<OrphanTree>,
    /// What is recovered: the tables that are built, in schema order, and that of the lost cells, where there
    /// are any.
    pub db: OutDb,
    /// How many rows the table of lost cells has.
    pub lost: u64,
    /// The cells of the rows of each table of it, row by row.
    pub places: Vec<Vec<Placed>>,
    /// The cells that are not read for their overflow chain or their record, in the order of their turns.
    pub failed: Vec<FailedEntry>,
    /// The texts of what is not built, in schema order.
    pub script: Vec<ScriptText>,
    /// The report but its last line.
    pub lines: Vec<ReportLine>,
}

impl Gathered {
    /// The number of rows of the tables that are built, but for that of the lost cells; at most 2^64 - 1.
    pub fn rows_out(&self) -> u64
        ensures { result ≡ rows_out self.now }
    {
        rows_in(&self.db.tables).saturating_sub(self.lost)
    }
}

// The number of rows of tables.
fn rows_in(tables: &[OutTable]) -> u64
    ensures { result ≡ min (sum_by (λ (t : OutTable). length t.rows.items) tables.now) (2 ^ 64 - 1) }
{
    let mut rows: u64 = 0;
    for table in tables {
        rows = rows.saturating_add(table.rows.len() as u64);
    }
    rows
}
