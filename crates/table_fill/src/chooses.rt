//! Sorting out the cells of a table.

ghost use Rattle.std.specs.Prelude.{◌≡◌, ◌<◌, List, [], IfOk, IsErr, OnOk, map, Option, true, vec_len};
ghost use Rattle.std.specs.BTreeMap.{get, insert_entry};
ghost use Rattle.std.specs.Cmp.Lexicographic.{slice_cmp};
ghost use Rattle.std.specs.Option.{option_map};
ghost use Rattle.key_order.specs.Order.{value_cmp};
ghost use Rattle.table_shape.specs.Keys.{Keys, fits, key_of, keys_of, keys_seen};
ghost use Rattle.table_shape.specs.Seen.{shape_seen};
ghost use Rattle.page_walk.specs.Cells.{row_of};
ghost use Rattle.table_fill.specs.Chosen.{IsChosen};
ghost use Rattle.table_fill.specs.Fates.{Sorted, fate_of, first_clash, first_unordered, held, place_of, with_cell, with_cells, with_fate};
ghost use Rattle.table_fill.specs.Maps.{Keeps, Shows};

use crate::fates::{Chosen, Fate, LeftCell};
use crate::fits::{first_unordered, fits, key_of};
use crate::maps::{KeyMap, new_maps, take_in};
use key_order::FoldedKey;
use page_walk::{Place, TakenCell};
use std::alloc::{AllocError, Global};
use std::collections::BTreeMap;
use std::collections::btree_map::Entry;
use table_shape::{TablePlan, TableShape, plan_keys};

/// The kept rows in their order, where each stands by each key, and the cells that are no rows.
#[derive(Drop)]
pub struct Filling<'a> {
    pub rows: BTreeMap<FoldedKey, TakenCell>,
    pub maps: Vec<KeyMap<'a>>,
    pub left: Vec<LeftCell>,
}

/// Sorts out the cells of a table, given in cell order: a cell that fits is a row exactly where it
/// clashes with no row before it. Takes n log n comparisons of keys for n cells, and memory for each
/// key.
pub fn choose_rows(
    alloc: Global,
    shape: &TableShape,
    cells: Vec<TakenCell>,
) -> Result<Chosen, AllocError>
    ensures exact { IfOk result (IsChosen (keys_of (shape_seen shape.now)) (map row_of cells.items)) }
    // Without cells no memory is taken.
    ensures memory { IsErr result → 0 < vec_len cells }
{
    if cells.is_empty() {
        return Ok(Chosen::Rows {
            rows: cells,
            left: Vec::new(alloc),
        });
    }
    choose_some(alloc, shape, cells)
}

fn choose_some(
    alloc: Global,
    shape: &TableShape,
    cells: Vec<TakenCell>,
) -> Result<Chosen, AllocError>
    ensures { IfOk result (IsChosen (keys_of (shape_seen shape.now)) (map row_of cells.items)) }
{
    let plan = plan_keys(alloc, shape)?;
    choose_by(alloc, &plan, cells)
}

// Sorts out the cells by the keys of their table.
pub fn choose_by(
    alloc: Global,
    plan: &TablePlan,
    cells: Vec<TakenCell>,
) -> Result<Chosen, AllocError>
    ensures { IfOk result (IsChosen (keys_seen plan.now) (map row_of cells.items)) }
{
    if let Some(place) = first_unordered(plan, cells.as_slice()) {
        return Ok(Chosen::Unordered { cells, place });
    }
    choose(alloc, plan, cells)
}

fn choose(alloc: Global, plan: &TablePlan, cells: Vec<TakenCell>) -> Result<Chosen, AllocError>
    requires { first_unordered (keys_seen plan.now) (map row_of cells.items) ≡ None }
    ensures { IfOk result (IsChosen (keys_seen plan.now) (map row_of cells.items)) }
{
    let mut now = Filling {
        rows: BTreeMap::new(alloc),
        maps: new_maps(alloc, plan.keys.as_slice())?,
        left: Vec::new(alloc),
    };
    take_all(alloc, plan, cells, &mut now)?;
    let Filling {
        rows,
        maps: _maps,
        left,
    } = now;
    let rows = in_order(alloc, rows)?;
    Ok(Chosen::Rows { rows, left })
}

fn in_order(
    alloc: Global,
    rows: BTreeMap<FoldedKey, TakenCell>,
) -> Result<Vec<TakenCell>, AllocError>
    ensures { IfOk result (λ v. v.items ≡ map (λ e. e.1) rows.entries) }
{
    rows.into_values().collect(alloc)
}

// Takes the cells in, one after another.
fn take_all(
    alloc: Global,
    plan: &TablePlan,
    cells: Vec<TakenCell>,
    now: &mut Filling<'_>,
) -> Result<(), AllocError>
    ensures { (s : Sorted) → Shows (keys_seen plan.now) s now.old
        → OnOk result (Shows (keys_seen plan.now) (with_cells (keys_seen plan.now) s (map row_of cells.items)) now.new) }
{
    for cell in cells {
        take(alloc, plan, cell, now)?;
    }
    Ok(())
}

fn take(
    alloc: Global,
    plan: &TablePlan,
    cell: TakenCell,
    now: &mut Filling<'_>,
) -> Result<(), AllocError>
    ensures { (s : Sorted) → Shows (keys_seen plan.now) s now.old
        → OnOk result (Shows (keys_seen plan.now) (with_cell (keys_seen plan.now) s (row_of cell)) now.new) }
{
    if !fits(plan, &cell) {
        let fate = Fate::Misfit;
        now.left.push(LeftCell { cell, fate })?;
        return Ok(());
    }
    if let Some(left) = keep(alloc, plan, cell, now)? {
        now.left.push(left)?;
    }
    Ok(())
}

// Takes in a cell that fits as a row; one that clashes is given back. One search finds the row with which it
// clashes by the key that orders the rows, or else the place where it goes.
fn keep(
    alloc: Global,
    plan: &TablePlan,
    cell: TakenCell,
    now: &mut Filling<'_>,
) -> Result<Option<LeftCell>, AllocError>
    ensures { (s : Sorted) → Shows (keys_seen plan.now) s now.old
        → fits (keys_seen plan.now) (held (row_of cell)) ≡ true
        → IfOk result (λ left. Keeps (keys_seen plan.now) s (row_of cell) left now.new) }
{
    let key = key_of(alloc, plan.first.as_slice(), &cell)?;
    match now.rows.entry(key)? {
        Entry::Occupied(row) => {
            let earlier = row.get().place;
            let fate = Fate::Clash { earlier, key: 0 };
            Ok(Some(LeftCell { cell, fate }))
        }
        Entry::Vacant(free) => {
            let row = free.insert_entry(cell);
            let Some(fate) = take_in(alloc, now.maps.as_mut_slice(), row.get())? else {
                return Ok(None);
            };
            let cell = row.remove();
            Ok(Some(LeftCell { cell, fate }))
        }
    }
}
