//! From a key to the kept row that has it.

ghost use Rattle.std.specs.Prelude.{◌≡◌, List, [], IfOk, OnOk, map, Option, if◌then◌else◌, length};
ghost use Rattle.std.specs.BTreeMap.{get, insert_entry};
ghost use Rattle.std.specs.Cmp.Lexicographic.{slice_cmp};
ghost use Rattle.std.specs.List.{AllByRecursion};
ghost use Rattle.key_order.specs.Order.{value_cmp};
ghost use Rattle.table_shape.specs.Keys.{has_null, key_of, parts_seen};
ghost use Rattle.page_walk.specs.Cells.{row_of};
ghost use Rattle.table_fill.specs.Fates.{held, place_of};
ghost use Rattle.table_fill.specs.Maps.{AddedBy, AddedByAll, Holds, found_by, key_in, keys_in, place_by, TakeIn};

use crate::fates::Fate;
use crate::fits::{has_null, key_of};
use key_order::FoldedKey;
use page_walk::{Place, TakenCell};
use std::alloc::{AllocError, Global};
use std::collections::BTreeMap;
use table_shape::KeyPlan;

/// The places of the kept rows by a key with a number; rows with a NULL in it are not there.
#[derive(Drop)]
pub struct KeyMap<'a> {
    pub plan: &'a KeyPlan,
    pub rows: BTreeMap<FoldedKey, Place>,
}

impl<'a> KeyMap<'a> {
    // The key of a cell here; none where a field of it is NULL.
    fn key(&self, alloc: Global, cell: &TakenCell) -> Result<Option<FoldedKey>, AllocError>
        ensures { IfOk result (λ k. k ≡ key_in self.now (row_of cell.now)) }
    {
        let parts = self.plan.parts.as_slice();
        if has_null(parts, cell) {
            return Ok(None);
        }
        Ok(Some(key_of(alloc, parts, cell)?))
    }

    // The kept row with this key.
    fn find(&self, key: &Option<FoldedKey>) -> Option<Place>
        ensures { result ≡ place_by self.now key.now }
    {
        match key {
            Some(key) => self.rows.get(key).copied(),
            None => None,
        }
    }

    // Takes in a row with this key, and where it stands.
    fn add(&mut self, key: Option<FoldedKey>, place: Place) -> Result<(), AllocError>
        ensures { OnOk result (AddedBy key place self.old self.new) }
    {
        if let Some(key) = key {
            self.rows.insert(key, place)?;
        }
        Ok(())
    }
}

/// Takes a cell in as a row, unless it clashes by one of the keys; then the clash with the least is told.
pub fn take_in(
    alloc: Global,
    maps: &mut [KeyMap<'_>],
    cell: &TakenCell,
) -> Result<Option<Fate>, AllocError>
    ensures { IfOk result (λ fate. TakeIn (row_of cell.now) fate maps.old maps.new) }
{
    let keys = keys_in(alloc, &*maps, cell)?;
    if let Some(fate) = find_among(&*maps, keys.as_slice()) {
        return Ok(Some(fate));
    }
    add_all(maps, keys, cell.place)?;
    Ok(None)
}

/// The key of a cell in each map.
pub fn keys_in(
    alloc: Global,
    maps: &[KeyMap<'_>],
    cell: &TakenCell,
) -> Result<Vec<Option<FoldedKey>>, AllocError>
    ensures { IfOk result (λ v. v.items ≡ keys_in maps.now (row_of cell.now)) }
{
    let mut keys = Vec::with_capacity(alloc, maps.len())?;
    for map in maps {
        keys.push(map.key(alloc, cell)?)?;
    }
    Ok(keys)
}

/// The least key by which a cell with these keys clashes, and with which row.
pub fn find_among(maps: &[KeyMap<'_>], keys: &[Option<FoldedKey>]) -> Option<Fate>
    ensures { result ≡ found_by maps.now keys.now }
{
    for (i, map) in maps.iter().enumerate() {
        let Some(key) = keys.get(i) else {
            return None;
        };
        if let Some(earlier) = map.find(key) {
            let key = map.plan.number;
            return Some(Fate::Clash { earlier, key });
        }
    }
    None
}

/// Takes a row with these keys into each map.
pub fn add_all(
    maps: &mut [KeyMap<'_>],
    keys: Vec<Option<FoldedKey>>,
    place: Place,
) -> Result<(), AllocError>
    ensures { OnOk result (AddedByAll keys.items place maps.old maps.new) }
{
    let mut keys = keys.into_iter();
    for map in maps.iter_mut() {
        if let Some(key) = keys.next() {
            map.add(key, place)?;
        }
    }
    Ok(())
}

/// A map without rows for each key.
pub fn new_maps<'a>(alloc: Global, keys: &'a [KeyPlan]) -> Result<Vec<KeyMap<'a>>, AllocError>
    ensures keys { IfOk result (λ v. map (λ m. parts_seen m.plan.now) v.items ≡ map parts_seen keys.now) }
    ensures empty { IfOk result (λ v. AllByRecursion (Holds []) v.items) }
{
    let mut maps = Vec::with_capacity(alloc, keys.len())?;
    for plan in keys {
        let rows = BTreeMap::new(alloc);
        maps.push(KeyMap { plan, rows })?;
    }
    Ok(maps)
}
