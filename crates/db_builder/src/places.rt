//! Where the values of an index record stand, found without memory.

ghost use Rattle.std.specs.Prelude.{◌≡◌, ◌≤◌, ◌<◌, ◌++◌, List, filter, length, map};
ghost use Rattle.std.specs.List.{list_any};
ghost use Rattle.arrayvec.specs.ArrayVec.{array_vec_len};
ghost use Rattle.table_shape.specs.declared.keys.Spot.{Spot};
ghost use Rattle.table_shape.specs.Entries.{entry_parts, follows, is_field};
ghost use Rattle.table_shape.specs.Keys.{first_of, keys_of, part_of, parts_of, spot_of};
ghost use Rattle.table_shape.specs.Seen.{shape_seen};
ghost use Rattle.table_shape.specs.Shape.{IsKeyOf, key_seen};
ghost use Rattle.db_builder.specs.Load.{place_of, placed_value};

use arrayvec::ArrayVec;
use record_core::{Fields, Value};
use table_shape::{Key, OutRow, TableShape, stored_at};

/// A place of a value: a field of the record, counted from 0, or the rowid.
pub type Places = ArrayVec<Option<usize>, 4000>;

/// The values of an index record, at these places of a row.
#[derive(Drop)]
pub struct PlacedFields<'a> {
    pub row: &'a OutRow,
    pub places: &'a [Option<usize>],
    pub rowid: Value,
    /// What stands for a field that the row has not.
    pub null: Value,
}

impl Fields for PlacedFields<'_> {
    ghost values = { λ s. map (placed_value s.rowid s.null s.row.now.fields.items) s.places.now };

    fn count(&self) -> usize {
        self.places.len()
    }

    fn field(&self, i: usize) -> &Value {
        match self.places[i] {
            None => &self.rowid,
            Some(k) => match self.row.fields.get(k) {
                Some(value) => value,
                None => &self.null,
            },
        }
    }
}

/// The places of an index record: those of the columns of its key, and then the rowid, or the columns
/// of the primary key that are not yet there (fileformat2.html, 2.5.1). Takes no memory.
pub fn places_of(shape: &TableShape, key: &Key) -> Places
    requires { IsKeyOf shape.now.columns.items (key_seen key.now) }
    ensures { result.items ≡ map (λ p. place_of p.spot) (entry_parts (keys_of (shape_seen shape.now))
        (parts_of (shape_seen shape.now) (key_seen key.now))) }
{
    let mut places = ArrayVec::new();
    for column in key.columns.as_slice() {
        places.push(place_of(shape, *column));
    }
    add_followers(shape, key, &mut places);
    places
}

// Takes in what follows the columns of a key.
fn add_followers(shape: &TableShape, key: &Key, places: &mut Places)
    requires room { array_vec_len places.old ≤ 2000 }
    requires key { IsKeyOf shape.now.columns.items (key_seen key.now) }
    ensures { places.new.items ≡ places.old.items ++ map (λ p. place_of p.spot)
        (filter (λ p. follows (map (part_of (shape_seen shape.now)) key.now.columns.items) p.spot)
        (first_of (shape_seen shape.now))) }
{
    if !shape.without_rowid {
        places.push(None);
        return;
    }
    for column in shape.primary.as_slice() {
        let place = place_of(shape, *column);
        if follows(shape, key, place) {
            places.push(place);
        }
    }
}

// Whether a place follows those of the columns of a key.
fn follows(shape: &TableShape, key: &Key, place: Option<usize>) -> bool
    requires { IsKeyOf shape.now.columns.items (key_seen key.now) }
    ensures { (spot : Spot) → place ≡ place_of spot
        → result ≡ follows (map (part_of (shape_seen shape.now)) key.now.columns.items) spot }
{
    match place {
        Some(field) => !has_field(shape, key, field),
        None => true,
    }
}

// Whether a column of a key is this field.
fn has_field(shape: &TableShape, key: &Key, field: usize) -> bool
    requires { IsKeyOf shape.now.columns.items (key_seen key.now) }
    ensures { result ≡ list_any (λ p. is_field field p.spot)
        (map (part_of (shape_seen shape.now)) key.now.columns.items) }
{
    for column in key.columns.as_slice() {
        if is_place(place_of(shape, *column), field) {
            return true;
        }
    }
    false
}

fn is_place(place: Option<usize>, field: usize) -> bool
    ensures { (spot : Spot) → place ≡ place_of spot → result ≡ is_field field spot }
{
    match place {
        Some(other) => field == other,
        None => false,
    }
}

fn place_of(shape: &TableShape, column: u32) -> Option<usize>
    requires { column < length shape.now.columns.items }
    ensures { result ≡ place_of (spot_of (shape_seen shape.now) column) }
{
    match shape.alias {
        Some(alias) if alias == column => None,
        _ => Some(stored_at(shape, column) as usize),
    }
}
