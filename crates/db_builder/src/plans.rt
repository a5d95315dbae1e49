//! What is prepared before a file is written.

ghost use Rattle.std.specs.Prelude.{◌≡◌, ◌≤◌, ◌<◌, ◌+◌, ◌-◌, ◌^◌, ◌++◌, ℕ, List, [], ◌∷◌, IfOk, IsErrOf, OnOk, None, length, slice_index_or};
ghost use Rattle.db_builder.specs.declared.databases.OutDb.{OutDb};
ghost use Rattle.table_shape.specs.declared.rows.OutTable.{OutTable};
ghost use Rattle.table_shape.specs.Keys.{keys_seen, parts_seen};
ghost use Rattle.tree_writer.specs.Entry.{AreEntries, HaveNoRowids, RowidsRise};
ghost use Rattle.tree_writer.specs.Trees.{IsTreePlan, schema_count};
ghost use Rattle.db_builder.specs.Layout.{lock_of, pages_of_trees, start_of};
ghost use Rattle.db_builder.specs.Load.{load};
ghost use Rattle.db_builder.specs.Plannable.{CanPrepare, IsKeyPlannable, IsPlannable};
ghost use Rattle.db_builder.specs.Prepared.{HaveAtMost, IsPlanned, IsPrepared, rows_at, schema_seen};
ghost use Rattle.db_builder.specs.SoFar.{HasPages, IsMade, IsSoFar};
ghost use Rattle.db_builder.specs.Trees.{Tree, key_tree, keys_in, kind_of, table_tree, table_trees, trees_of};
ghost use Rattle.db_builder.specs.Valid.{IsValid};

use crate::databases::OutDb;
use crate::faults::PrepareFault;
use crate::indexes::IndexEntries;
use crate::labels::{key_values, record_of, table_values};
use crate::loads::load_of;
use crate::orders::order_of;
use crate::planners::Planner;
use crate::rows::RowEntries;
use crate::schema::SchemaEntries;
use cell_reader::Kind;
use record_core::Bytes;
use std::alloc::{AllocError, Global};
use table_shape::{KeyPart, KeyPlan, OutTable, TablePlan, entry_parts, plan_keys};
use tree_writer::{Entries, Numbering, TreePlan};

/// The entries of an index: the parts of a record, and its rows in the order of the key.
#[derive(Debug, Drop)]
pub struct IndexOrder {
    pub parts: Vec<KeyPart>,
    pub order: Vec<u32>,
}

/// A tree: the number of its table, the order of its rows where it is an index, its plan, the number
/// of its first page, and the record of its row in the schema.
#[derive(Debug, Drop)]
pub struct PlannedTree {
    pub table: usize,
    pub index: Option<IndexOrder>,
    pub plan: TreePlan,
    pub start: u32,
    pub record: Bytes,
}

/// A planned tree, and the length of its longest payload.
#[derive(Debug, Drop)]
pub struct MadeTree {
    pub tree: PlannedTree,
    pub longest: usize,
}

/// A database that is prepared for writing. It holds no page's bytes but those of one page.
#[derive(Debug, Drop)]
pub struct Prepared {
    pub(crate) page_size: u32,
    pub(crate) trees: Vec<PlannedTree>,
    pub(crate) schema: TreePlan,
    /// The number of the first page of the schema but page 1.
    pub(crate) start: u32,
    /// The number of the last page.
    pub(crate) pages: u32,
    pub(crate) scratch: Vec<u8>,
    pub(crate) page: Vec<u8>,
}

/// The number of the lock-byte page, which holds byte 2^30 of a file (fileformat2.html, 1.4).
pub fn lock_of(page_size: u32) -> u32
    requires { 512 ≤ page_size }
    ensures value { result ≡ lock_of page_size }
    ensures small { result ≤ 2 ^ 21 + 1 }
{
    (1 << 30) / page_size + 1
}

/// Plans the file of a database whose load is at most the limit, on pages of `page_size` bytes.
pub fn prepare(
    alloc: Global,
    db: &OutDb,
    page_size: u32,
    limit: u64,
) -> Result<Prepared, PrepareFault>
    requires least { 512 ≤ page_size }
    requires most { page_size ≤ 65536 }
    requires valid { IsValid db.now }
    requires limit { limit ≤ 2 ^ 35 }
    ensures size { IfOk result (λ p. p.page_size ≡ page_size) }
    ensures prepared { IfOk result (λ p. IsPrepared p.page_size db.now p) }
    ensures too_large { (n : ℕ) → IsErrOf result (PrepareFault.TooLarge n)
        → (limit < load db.now) × (n ≡ load db.now) }
    ensures refused { limit < load db.now → IsErrOf result (PrepareFault.TooLarge (load db.now)) }
{
    let load = load_of(db);
    if load > u128::from(limit) {
        return Err(PrepareFault::TooLarge { load });
    }
    Ok(plan_file(alloc, db, page_size)?)
}

/// Plans a file of pages of `page_size` bytes.
pub fn plan_file(alloc: Global, db: &OutDb, page_size: u32) -> Result<Prepared, AllocError>
    requires least { 512 ≤ page_size }
    requires most { page_size ≤ 65536 }
    requires can { CanPrepare page_size db.now }
    ensures size { IfOk result (λ p. p.page_size ≡ page_size) }
    ensures prepared { IfOk result (λ p. IsPrepared p.page_size db.now p) }
{
    let planner = plan_trees(alloc, db.tables.as_slice(), page_size)?;
    planner.finish(alloc)
}

// The trees of all tables.
fn plan_trees(alloc: Global, tables: &[OutTable], page_size: u32) -> Result<Planner, AllocError>
    requires least { 512 ≤ page_size }
    requires most { page_size ≤ 65536 }
    requires can { (t : OutTable) (i : ℕ) → i < length tables.now
        → t ≡ slice_index_or tables.now i t → IsPlannable t }
    requires pages { pages_of_trees page_size (trees_of tables.now) < 2 ^ 31 }
    ensures { IfOk result (λ p. (p.page_size ≡ page_size) × IsSoFar tables.now (trees_of tables.now) p) }
{
    let mut planner = Planner {
        page_size,
        before: 0,
        longest: 0,
        trees: Vec::new(alloc),
    };
    for i in 0..tables.len() {
        planner.add_table(alloc, i, &tables[i])?;
    }
    Ok(planner)
}

impl Planner {
    // The page numbers of a tree behind the trees so far.
    fn numbers(&self) -> Numbering
        ensures start { result.start ≡ start_of self.now.page_size self.now.before }
        ensures lock { result.lock ≡ lock_of self.now.page_size }
        ensures least { 1 ≤ result.start }
        ensures most { result.start ≤ self.now.before + 3 }
    {
        let lock = lock_of(self.page_size);
        let start = Numbering { start: 2, lock }.number(self.before);
        Numbering { start, lock }
    }

    fn add_table(
        &mut self,
        alloc: Global,
        number: usize,
        table: &OutTable,
    ) -> Result<(), AllocError>
        requires can { IsPlannable table.now }
        requires pages { self.old.before + pages_of_trees self.old.page_size (table_trees table.now) < 2 ^ 31 }
        ensures size { self.new.page_size ≡ self.old.page_size }
        ensures trees { (tables : List OutTable) (done : List Tree) → number < length tables
            → rows_at tables number ≡ table.now.rows.items → IsSoFar tables done self.old
            → OnOk result (IsSoFar tables (done ++ table_trees table.now) self.new) }
    {
        let rows = self.plan_rows(alloc, number, table)?;
        self.add(rows)?;
        let keys = plan_keys(alloc, &table.shape)?;
        for key in keys.keys.as_slice() {
            let tree = self.plan_key(alloc, number, table, &keys, key)?;
            self.add(tree)?;
        }
        Ok(())
    }

    // The plan of a table's own tree, behind the trees so far.
    fn plan_rows(
        &self,
        alloc: Global,
        number: usize,
        table: &OutTable,
    ) -> Result<MadeTree, AllocError>
        requires can { IsPlannable table.now }
        requires pages { HasPages self.now (table_tree table.now) }
        ensures { IfOk result (IsMade self.now number table.now.rows.items (table_tree table.now)) }
    {
        let entries = RowEntries {
            rows: table.rows.as_slice(),
        };
        let plan = plan_of(
            alloc,
            self.page_size,
            kind_of(table.shape.without_rowid),
            &entries,
        )?;
        let numbers = self.numbers();
        let longest = longest(&entries);
        let values = table_values(alloc, table, numbers.number(plan.root()))?;
        let tree = PlannedTree {
            table: number,
            index: None,
            plan,
            start: numbers.start,
            record: record_of(alloc, values.as_slice())?,
        };
        Ok(MadeTree { tree, longest })
    }

    // The plan of the tree of a key, behind the trees so far.
    fn plan_key(
        &self,
        alloc: Global,
        number: usize,
        table: &OutTable,
        keys: &TablePlan,
        key: &KeyPlan,
    ) -> Result<MadeTree, AllocError>
        requires rows { length table.now.rows.items < 2 ^ 32 }
        requires keys { keys_seen keys.now ≡ keys_in table.now }
        requires key { IsKeyPlannable table.now (parts_seen key.now) }
        requires pages { HasPages self.now (key_tree table.now (parts_seen key.now)) }
        ensures { IfOk result (IsMade self.now number table.now.rows.items
            (key_tree table.now (parts_seen key.now))) }
    {
        let rows = table.rows.as_slice();
        let parts = entry_parts(alloc, keys, key)?;
        let order = order_of(alloc, parts.as_slice(), rows)?;
        let entries = IndexEntries {
            rows,
            parts: parts.as_slice(),
            order: order.as_slice(),
        };
        let plan = plan_of(alloc, self.page_size, Kind::Index, &entries)?;
        let numbers = self.numbers();
        let longest = longest(&entries);
        let values = key_values(alloc, table, key.number, numbers.number(plan.root()))?;
        let tree = PlannedTree {
            table: number,
            index: Some(IndexOrder { parts, order }),
            plan,
            start: numbers.start,
            record: record_of(alloc, values.as_slice())?,
        };
        Ok(MadeTree { tree, longest })
    }

    // Takes a tree in that is planned behind the trees so far.
    fn add(&mut self, made: MadeTree) -> Result<(), AllocError>
        requires { self.old.before + made.tree.plan.count < 2 ^ 31 }
        ensures size { self.new.page_size ≡ self.old.page_size }
        ensures before { OnOk result (self.new.before ≡ self.old.before + made.tree.plan.count) }
        ensures trees { (tables : List OutTable) (done : List Tree) (number : ℕ) (tree : Tree)
            → number < length tables → IsMade self.old number (rows_at tables number) tree made
            → IsSoFar tables done self.old
            → OnOk result (IsSoFar tables (done ++ tree ∷ []) self.new) }
    {
        let MadeTree { tree, longest } = made;
        let count = tree.plan.page_count();
        self.trees.push(tree)?;
        self.before += count;
        self.longest = self.longest.max(longest);
        Ok(())
    }

    // The plan of the schema's tree, and the buffers.
    fn finish(self, alloc: Global) -> Result<Prepared, AllocError>
        requires few { length self.trees.items < 2 ^ 32 }
        requires entries { AreEntries (schema_seen self.trees.items) }
        requires pages { self.before + schema_count self.page_size (schema_seen self.trees.items) < 2 ^ 31 }
        ensures { IfOk result (λ p. (db : OutDb) → IsSoFar db.tables.items (trees_of db.tables.items) self
            → IsPrepared self.page_size db p) }
    {
        let entries = SchemaEntries {
            trees: self.trees.as_slice(),
        };
        let schema = TreePlan::schema(alloc, self.page_size, &entries)?;
        let numbers = self.numbers();
        let most = self.longest.max(longest(&entries));
        let scratch = vec![in alloc; 0u8; most]?;
        let page = vec![in alloc; 0u8; self.page_size as usize]?;
        let last = Numbering {
            start: 1,
            lock: numbers.lock,
        };
        let pages = last.number(self.before + schema.page_count() - 1);
        Ok(Prepared {
            page_size: self.page_size,
            trees: self.trees,
            schema,
            start: numbers.start,
            pages,
            scratch,
            page,
        })
    }
}

fn kind_of(without_rowid: bool) -> Kind
    ensures { result ≡ kind_of without_rowid }
{
    if without_rowid {
        Kind::Index
    } else {
        Kind::Table
    }
}

fn plan_of<N: Entries>(
    alloc: Global,
    page_size: u32,
    kind: Kind,
    entries: &N,
) -> Result<TreePlan, AllocError>
    requires least { 512 ≤ page_size }
    requires most { page_size ≤ 65536 }
    requires entries { AreEntries (N.entries entries.now) }
    requires rowids { kind ≡ Kind.Table → RowidsRise None (N.entries entries.now) }
    requires none { kind ≡ Kind.Index → HaveNoRowids (N.entries entries.now) }
    ensures { IfOk result (IsTreePlan page_size kind (N.entries entries.now)) }
{
    match kind {
        Kind::Table => TreePlan::table(alloc, page_size, entries),
        Kind::Index => TreePlan::index(alloc, page_size, entries),
    }
}

/// The length of the longest payload.
fn longest<N: Entries>(entries: &N) -> usize
    ensures { HaveAtMost result (N.entries entries.now) }
{
    let mut most = 0;
    for i in 0..entries.count() {
        most = most.max(entries.payload_len(i) as usize);
    }
    most
}
