//! The uses of pages, in order.
ghost use Rattle.std.specs.Prelude.{◌≡◌, ◌≤◌, ◌*◌, length, map, IfOk, IfSome, is_ok, if◌then◌else◌};
ghost use Rattle.std.specs.List.{AllByRecursion};
ghost use Rattle.page_access.specs.Cache.{HasAll, IsCacheOf};
ghost use Rattle.page_access.specs.Files.{file_of, max_input};
ghost use Rattle.page_access.specs.Outside.{HasCauseOf, KeepsSource};
ghost use Rattle.page_access.specs.declared.outside.ReadFault.TheVariants as faults;
ghost use Rattle.page_lists.specs.Table.{unused};
ghost use Rattle.page_walk.specs.InTurn.{IsSmallTurn};
ghost use Rattle.page_walk.specs.Turns.{ReadsEach};
ghost use Rattle.page_walk.specs.Walk.{kinds_of};
ghost use Rattle.raw_schema.specs.Bounds.{IsSmallSchema};
ghost use Rattle.raw_schema.specs.Schema.{ReadsTwice};
ghost use Rattle.schema_texts.specs.Readings.{AreReadings};
ghost use Rattle.tree_uses.specs.Trees.{HaveTurns, tree_of, turns_of};
ghost use Rattle.use_order.specs.Order.{AreInOrder, AreMatched, AreTreesOf, HaveUnused, IsSchema, UsesMove, after_uses};

use crate::wants::{index_trees, table_trees};
use crate::{INDEX_LIST, TABLE_LIST};
use page_access::{Geometry, PageCache, ReadFault, Source};
use page_lists::PageTable;
use page_walk::PageKinds;
use raw_schema::{RawSchema, read_schema};
use schema_texts::{TableReading, read_tables};
use std::alloc::Global;
use tree_uses::{TreeTurns, TreeUse, read_trees, walk_trees};

/// What stands in the schema and in the trees of its rows.
#[derive(Debug, Drop)]
pub struct FileUses {
    pub schema: RawSchema,
    /// What the texts of the table rows say, in schema order.
    pub readings: Vec<TableReading>,
    /// The tree of each table row, in schema order.
    pub tables: Vec<TreeUse>,
    /// The tree of each index row, in schema order.
    pub indexes: Vec<TreeUse>,
    /// What becomes of the cells of each table's tree.
    pub turns: Vec<TreeTurns>,
}

/// Gives the pages of a file their uses, in order: the schema, the trees of its table rows, those of its index
/// rows, and the overflow chains of the tables' cells. Each page gets one use at most; it moves to the list
/// of its use. After an error some pages have moved.
pub fn find_uses<S: Source>(
    alloc: Global,
    src: &mut S,
    geo: &Geometry,
    cache: &mut PageCache,
    survey: &PageKinds,
    table: &mut PageTable,
) -> Result<FileUses, ReadFault>
    requires few { geo.now.pages * geo.now.page_size ≤ max_input }
    requires same_pages { table.old.pages ≡ geo.now.pages }
    requires lists { 7 ≤ length table.old.lists }
    requires surveyed { length survey.now ≡ geo.now.pages }
    requires kinds { IfSome (S.bytes src.old)
        (λ all. survey.now ≡ kinds_of (file_of all geo.now)) }
    requires cached { IsCacheOf (S.bytes src.old) geo.now cache.old }
    ensures order { IfOk result (λ u. IfSome (S.bytes src.old) (λ all.
        AreInOrder (file_of all geo.now) (unused table.old) u.schema.rows.items u.readings.items
        (map tree_of u.tables.items) (map tree_of u.indexes.items) (map turns_of u.turns.items))) }
    ensures schema { IfOk result (λ u. IfSome (S.bytes src.old) (λ all.
        IsSchema (file_of all geo.now) (unused table.old) u.schema)) }
    ensures table { IfOk result (λ u. IfSome (S.bytes src.old) (λ all.
        table.new ≡ after_uses (file_of all geo.now) table.old (map tree_of u.tables.items)
        (map tree_of u.indexes.items) (map turns_of u.turns.items))) }
    // told or not
    ensures readings { IfOk result (λ u.
        AreReadings survey.now geo.now.pages u.schema.rows.items u.readings.items) }
    ensures matched { IfOk result (λ u. AreMatched u.schema.rows.items u.readings.items
        (map tree_of u.tables.items) (map tree_of u.indexes.items) (map turns_of u.turns.items)) }
    ensures trees { IfOk result (λ u. length u.tables.items ≡ length u.readings.items) }
    ensures part { IfOk result (HaveUnused (unused table.old)) }
    ensures each { IfOk result
        (λ u. HaveTurns (map tree_of u.tables.items) (map turns_of u.turns.items)) }
    ensures small { IfOk result (λ u. IsSmallSchema geo.now.usable geo.now.pages
        u.schema.rows.items u.schema.bad.items u.schema.pages.items) }
    ensures tables { IfOk result (λ u. AreTreesOf geo.now.pages u.tables.items) }
    ensures indexes { IfOk result (λ u. AreTreesOf geo.now.pages u.indexes.items) }
    ensures turns { IfOk result (λ u. AllByRecursion
        (AllByRecursion (IsSmallTurn geo.now.usable geo.now.pages)) (map turns_of u.turns.items)) }
    ensures moves { UsesMove table.old table.new }
    ensures cause { HasCauseOf faults.Source (S.faults src.old) (S.faults src.new) result }
    ensures kept { KeepsSource S.bytes S.attached S.faults S.reads src.old src.new }
    ensures reads { ReadsTwice (S.bytes src.old) geo.now table.old table.new
        (S.reads src.old) (S.reads src.new) (if is_ok result then 0 else 1) }
    ensures cached { IsCacheOf (S.bytes src.old) geo.now cache.new }
    // where the cache has all pages, each page is read once at most
    ensures full { HasAll cache.old → HasAll cache.new × ReadsEach (S.bytes src.old) geo.now
        table.old table.new (S.reads src.old) (S.reads src.new) (if is_ok result then 0 else 1) }
{
    // tells that the table is a partition
    let _pages = table.pages();
    let schema = read_schema(alloc, src, geo, cache, survey, table)?;
    let readings = read_tables(alloc, &schema.rows, survey, geo.pages)?;
    let wanted = table_trees(alloc, &readings)?;
    let tables = walk_trees(alloc, src, geo, cache, survey, table, &wanted, TABLE_LIST)?;
    let named = index_trees(alloc, &schema.rows)?;
    let indexes = walk_trees(alloc, src, geo, cache, survey, table, &named, INDEX_LIST)?;
    let turns = read_trees(alloc, src, geo, cache, table, &tables)?;
    Ok(FileUses {
        schema,
        readings,
        tables,
        indexes,
        turns,
    })
}
