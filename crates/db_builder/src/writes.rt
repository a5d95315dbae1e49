//! A prepared database is written, page by page.

ghost use Rattle.std.specs.Prelude.{◌≡◌, ◌≤◌, ◌<◌, ◌+◌, ◌-◌, ◌^◌, ◌++◌, ℕ, List, [], IfOk, IsErrOf, IsOk, length, slice_index_or, take, ◌⊎◌};
ghost use Rattle.std.specs.List.{AllZip, flat_map};
ghost use Rattle.page_access.specs.Outside.{KeepsSink, Writes, WritesOf};
ghost use Rattle.tree_writer.specs.Numbers.{number_of};
ghost use Rattle.tree_writer.specs.Planned.{HasRoom, IsHeld};
ghost use Rattle.tree_writer.specs.Trees.{IsPlan, IsSchemaPlan};
ghost use Rattle.tree_writer.specs.Layout.{schema_pages};
ghost use Rattle.db_builder.specs.Header.{header_bytes};
ghost use Rattle.db_builder.specs.Facts.{said};
ghost use Rattle.db_builder.specs.Layout.{Placed, gap, last_page, layout, lock_of, paged, tree_bytes};
ghost use Rattle.db_builder.specs.Load.{load};
ghost use Rattle.db_builder.specs.Prepared.{ArePlanned, CanRead, IsPlanned, IsPrepared, planned_entries};
ghost use Rattle.db_builder.specs.Trees.{trees_of};
ghost use Rattle.db_builder.specs.Valid.{IsValid};
ghost use Rattle.db_builder.specs.Written.{ArePages};

use crate::databases::OutDb;
use crate::faults::BuildFault;
use crate::headers::{FileFacts, header};
use crate::indexes::IndexEntries;
use crate::plans::{PlannedTree, Prepared, lock_of, prepare};
use crate::rows::RowEntries;
use crate::schema::SchemaEntries;
use page_access::{Failed, Sink};
use std::alloc::Global;
use table_shape::OutTable;
use tree_writer::{Entries, Numbering, TreePlan};

/// Puts the file of a database whose load is at most the limit into a sink, one page per call, and gives
/// the number of pages. Memory runs out only before the first page is put.
pub fn build<O: Sink>(
    alloc: Global,
    db: &OutDb,
    page_size: u32,
    limit: u64,
    out: &mut O,
) -> Result<u32, BuildFault>
    requires least { 512 ≤ page_size }
    requires most { page_size ≤ 65536 }
    requires valid { IsValid db.now }
    requires limit { limit ≤ 2 ^ 35 }
    ensures pages { IfOk result (λ n. n ≡ last_page page_size (trees_of db.now.tables.items)) }
    ensures writes { WritesOf BuildFault.Sink (O.bytes out.old) (O.bytes out.new) (O.faults out.old)
        (O.faults out.new) (layout page_size db.now) result }
    ensures too_large { (n : ℕ) → IsErrOf result (BuildFault.TooLarge n)
        → (limit < load db.now) × (n ≡ load db.now) }
    ensures refused { limit < load db.now → IsErrOf result (BuildFault.TooLarge (load db.now)) }
    ensures untouched { IsErrOf result BuildFault.Sink ⊎ (IsOk result ⊎ (out.new ≡ out.old)) }
    ensures kept { KeepsSink O.created O.finished O.faults out.old out.new }
{
    let mut prepared = prepare(alloc, db, page_size, limit)?;
    Ok(prepared.write(db, out)?)
}

impl Prepared {
    /// Puts the file that was prepared into a sink, one page per call, and gives the number of pages.
    /// It stays prepared, for the same database. Takes no memory.
    pub fn write<O: Sink>(&mut self, db: &OutDb, out: &mut O) -> Result<u32, Failed>
        requires { IsPrepared self.old.page_size db.now self.old }
        ensures pages { IfOk result (λ n. n
            ≡ last_page self.old.page_size (trees_of db.now.tables.items)) }
        ensures writes { Writes (O.bytes out.old) (O.bytes out.new) (O.faults out.old)
            (O.faults out.new) (layout self.old.page_size db.now) result }
        ensures kept { KeepsSink O.created O.finished O.faults out.old out.new }
        ensures prepared { IsPrepared self.old.page_size db.now self.new }
    {
        let numbers = Numbering {
            start: self.start,
            lock: lock_of(self.page_size),
        };
        let entries = SchemaEntries {
            trees: self.trees.as_slice(),
        };
        let facts = FileFacts {
            size: self.page_size,
            pages: self.pages,
            user_version: db.user_version,
            application_id: db.application_id,
        };
        let scratch = self.scratch.as_mut_slice();
        let page = self.page.as_mut_slice();
        put_first(&self.schema, facts, &numbers, &entries, scratch, page, out)?;
        let tables = db.tables.as_slice();
        put_trees(entries.trees, tables, numbers.lock, scratch, page, out)?;
        put_pages(&self.schema, 1, &numbers, &entries, scratch, page, out)?;
        Ok(self.pages)
    }
}

// Puts page 1: the header, and the root of the schema's tree.
fn put_first<N: Entries, O: Sink>(
    plan: &TreePlan,
    facts: FileFacts,
    numbers: &Numbering,
    entries: &N,
    scratch: &mut [u8],
    page: &mut [u8],
    out: &mut O,
) -> Result<(), Failed>
    requires plan { IsSchemaPlan facts.size (N.entries entries.now) plan.now }
    requires size { length page.old ≡ facts.size }
    requires room { HasRoom (N.entries entries.now) scratch.old }
    requires least { 1 ≤ numbers.now.start }
    requires most { numbers.now.start + plan.now.count < 2 ^ 32 - 1 }
    ensures writes { Writes (O.bytes out.old) (O.bytes out.new) (O.faults out.old) (O.faults out.new)
        (slice_index_or (schema_pages (header_bytes (said facts)) facts.size
        (number_of numbers.now.start numbers.now.lock) (N.entries entries.now)) 0 []) result }
    ensures kept { KeepsSink O.created O.finished O.faults out.old out.new }
{
    put_front(page, header(facts).as_slice());
    plan.write_page(0, numbers, entries, scratch, page);
    out.put(page)
}

// Puts bytes at the front of a page.
fn put_front(page: &mut [u8], head: &[u8])
    requires { length head.now ≤ length page.old }
    ensures { take (length head.now) page.new ≡ head.now }
{
    page[..head.len()].copy_from_slice(head);
}

// Puts trees one after another.
fn put_trees<O: Sink>(
    trees: &[PlannedTree],
    tables: &[OutTable],
    lock: u32,
    scratch: &mut [u8],
    page: &mut [u8],
    out: &mut O,
) -> Result<(), Failed>
    requires lock { lock ≡ lock_of (length page.old) }
    requires planned { ArePlanned (length page.old) tables.now (length scratch.old) trees.now }
    ensures writes { (ps : List Placed)
        → AllZip (IsPlanned (length page.old) tables.now (length scratch.old)) ps trees.now
        → Writes (O.bytes out.old) (O.bytes out.new) (O.faults out.old) (O.faults out.new)
        (flat_map (tree_bytes (length page.old)) ps) result }
    ensures kept { KeepsSink O.created O.finished O.faults out.old out.new }
{
    for tree in trees {
        put_tree(tree, tables, lock, scratch, page, out)?;
    }
    Ok(())
}

// Puts a tree.
fn put_tree<O: Sink>(
    tree: &PlannedTree,
    tables: &[OutTable],
    lock: u32,
    scratch: &mut [u8],
    page: &mut [u8],
    out: &mut O,
) -> Result<(), Failed>
    requires lock { lock ≡ lock_of (length page.old) }
    requires planned { (p : Placed)
        × IsPlanned (length page.old) tables.now (length scratch.old) p tree.now }
    ensures writes { (p : Placed) → IsPlanned (length page.old) tables.now (length scratch.old) p tree.now
        → Writes (O.bytes out.old) (O.bytes out.new) (O.faults out.old) (O.faults out.new)
        (tree_bytes (length page.old) p) result }
    ensures kept { KeepsSink O.created O.finished O.faults out.old out.new }
{
    let rows = tables[tree.table].rows.as_slice();
    let numbers = Numbering {
        start: tree.start,
        lock,
    };
    match &tree.index {
        None => {
            let entries = RowEntries { rows };
            put_pages(&tree.plan, 0, &numbers, &entries, scratch, page, out)
        }
        Some(index) => {
            let entries = IndexEntries {
                rows,
                parts: index.parts.as_slice(),
                order: index.order.as_slice(),
            };
            put_pages(&tree.plan, 0, &numbers, &entries, scratch, page, out)
        }
    }
}

// Puts the pages of a plan behind the first ones.
fn put_pages<N: Entries, O: Sink>(
    plan: &TreePlan,
    first: u32,
    numbers: &Numbering,
    entries: &N,
    scratch: &mut [u8],
    page: &mut [u8],
    out: &mut O,
) -> Result<(), Failed>
    requires plan { IsPlan (N.entries entries.now) plan.now }
    requires size { length page.old ≡ plan.now.usable }
    requires room { HasRoom (N.entries entries.now) scratch.old }
    requires lock { numbers.now.lock ≡ lock_of (length page.old) }
    requires least { 1 ≤ numbers.now.start }
    requires most { numbers.now.start + plan.now.count < 2 ^ 32 - 1 }
    requires first { first ≤ plan.now.count }
    ensures writes { (pages : List (List ℕ)) → ArePages (N.entries entries.now)
        (number_of numbers.now.start numbers.now.lock) plan.now first pages
        → Writes (O.bytes out.old) (O.bytes out.new) (O.faults out.old) (O.faults out.new)
        (paged (length page.old) (number_of numbers.now.start numbers.now.lock) 0 pages) result }
    ensures kept { KeepsSink O.created O.finished O.faults out.old out.new }
{
    let mut held = None;
    for j in 0..plan.page_count() - first {
        held = put_one(plan, first, j, numbers, entries, held, scratch, page, out)?;
    }
    Ok(())
}

// Puts the page with index `j` behind the first ones, and zeros before it where the lock-byte page is
// there.
fn put_one<N: Entries, O: Sink>(
    plan: &TreePlan,
    first: u32,
    j: u32,
    numbers: &Numbering,
    entries: &N,
    held: Option<u32>,
    scratch: &mut [u8],
    page: &mut [u8],
    out: &mut O,
) -> Result<Option<u32>, Failed>
    requires plan { IsPlan (N.entries entries.now) plan.now }
    requires size { length page.old ≡ plan.now.usable }
    requires held { IsHeld (N.entries entries.now) held scratch.old }
    requires room { HasRoom (N.entries entries.now) scratch.old }
    requires lock { numbers.now.lock ≡ lock_of (length page.old) }
    requires least { 1 ≤ numbers.now.start }
    requires most { numbers.now.start + plan.now.count < 2 ^ 32 - 1 }
    requires there { first + j < plan.now.count }
    ensures held { IfOk result (λ h. IsHeld (N.entries entries.now) h scratch.new) }
    ensures writes { (pages : List (List ℕ)) → ArePages (N.entries entries.now)
        (number_of numbers.now.start numbers.now.lock) plan.now first pages
        → Writes (O.bytes out.old) (O.bytes out.new) (O.faults out.old) (O.faults out.new)
        (gap (length page.old) (number_of numbers.now.start numbers.now.lock j)
        ++ slice_index_or pages j []) result }
    ensures kept { KeepsSink O.created O.finished O.faults out.old out.new }
{
    put_gap(numbers.number(j), numbers.lock, page, out)?;
    let held = plan.write_next(first + j, numbers, entries, held, scratch, page);
    out.put(page)?;
    Ok(held)
}

// Puts zeros in place of the lock-byte page, where the page behind it is the next one.
fn put_gap<O: Sink>(number: u32, lock: u32, page: &mut [u8], out: &mut O) -> Result<(), Failed>
    requires small { lock < 2 ^ 32 - 1 }
    requires lock { lock ≡ lock_of (length page.old) }
    ensures writes { Writes (O.bytes out.old) (O.bytes out.new) (O.faults out.old) (O.faults out.new)
        (gap (length page.old) number) result }
    ensures kept { KeepsSink O.created O.finished O.faults out.old out.new }
{
    if number == lock + 1 {
        page.fill(0);
        return out.put(page);
    }
    Ok(())
}
