//! The load of a database.

ghost use Rattle.std.specs.Prelude.{◌≡◌, ◌≤◌, ◌<◌, ◌+◌, ◌-◌, ◌*◌, ◌^◌, List, None, Some, length, min};
ghost use Rattle.record_core.specs.declared.values.Value.{Value};
ghost use Rattle.record_core.specs.declared.values.Value.TheVariants.{Null, Text, Whole};
ghost use Rattle.table_shape.specs.Keys.{parts_of};
ghost use Rattle.table_shape.specs.Names.{index_name};
ghost use Rattle.table_shape.specs.Seen.{shape_seen};
ghost use Rattle.table_shape.specs.Shape.{IsKeyOf, key_seen};
ghost use Rattle.varint_core.specs.Shortest.{spell};
ghost use Rattle.db_builder.specs.Load.{HasFewValues, HaveFewValues, key_load, label_load, load, record_load, rows_load, table_load};
ghost use Rattle.db_builder.specs.declared.databases.OutDb.{OutDb};
ghost use Rattle.db_builder.specs.Valid.{IsValid};
ghost use Rattle.db_builder.specs.Trees.{Label, key_label, table_label};

use crate::databases::OutDb;
use crate::indexes::number_of;
use crate::places::{PlacedFields, places_of};
use itoa::Buffer;
use record_core::{FieldSlice, Fields, Value, record_size};
use table_shape::{Key, OutTable};
use varint_core::varint_len;

/// The load of a database: the payload and 32 bytes of each entry of each tree, at most 2^128 - 1, where
/// the root in a row of the schema counts as four bytes long. Takes no memory.
pub fn load_of(db: &OutDb) -> u128
    requires { HasFewValues db.now }
    ensures { result ≡ load db.now }
{
    let mut total: u128 = 0;
    for table in db.tables.as_slice() {
        total = total.saturating_add(table_load(table));
    }
    total
}

/// A database that can be written has few enough values in each row.
pub fn a_valid_database_has_few_values()
    ensures { (db : OutDb) → IsValid db → HasFewValues db }
{}

fn table_load(table: &OutTable) -> u128
    requires { HaveFewValues table.now.rows.items }
    ensures { result ≡ min (table_load table.now) (2 ^ 128 - 1) }
{
    let mut total = rows_load(table);
    for key in table.shape.keys.as_slice() {
        total = total.saturating_add(key_load(table, key));
    }
    total
}

fn rows_load(table: &OutTable) -> u128
    requires { HaveFewValues table.now.rows.items }
    ensures { result ≡ min (rows_load table.now) (2 ^ 128 - 1) }
{
    let mut total = table_label_load(table);
    for row in table.rows.as_slice() {
        let fields = FieldSlice {
            values: row.fields.as_slice(),
        };
        total = total.saturating_add(entry_load(&fields));
    }
    total
}

fn key_load(table: &OutTable, key: &Key) -> u128
    requires { IsKeyOf table.now.shape.columns.items (key_seen key.now) }
    ensures { result ≡ min (key_load table.now (parts_of (shape_seen table.now.shape) (key_seen key.now)))
        (2 ^ 128 - 1) }
{
    let places = places_of(&table.shape, key);
    let mut total = key_label_load(table, key.number);
    for row in table.rows.as_slice() {
        let fields = PlacedFields {
            row,
            places: places.as_slice(),
            rowid: number_of(row.rowid),
            null: Value::Null,
        };
        total = total.saturating_add(entry_load(&fields));
    }
    total
}

// What a record adds.
fn entry_load<F: Fields>(values: &F) -> u128
    requires { length (F.values values.now) ≤ 4000 }
    ensures { result ≡ record_load (F.values values.now) }
{
    record_size(values) + 32
}

// The load of a table's row of the schema.
fn table_label_load(table: &OutTable) -> u128
    ensures { result ≡ label_load (table_label table.now) }
{
    let name = table.name.as_slice().len() as u128;
    let text = table.text.as_slice().len() as u128;
    names_load(name, name) + u128::from(text_type_len(text)) + text
}

// The load of an automatic index's row of the schema.
fn key_label_load(table: &OutTable, number: u32) -> u128
    ensures { result ≡ label_load (key_label table.now number) }
{
    let name = table.name.as_slice().len() as u128;
    let digits = Buffer::new().format(number).as_bytes().len() as u128;
    names_load(name + digits + 18, name) + 1
}

// The load of a row of the schema but its text, where its name and the name of its table have these
// lengths.
fn names_load(name: u128, table: u128) -> u128
    requires name { name < 2 ^ 100 }
    requires table { table < 2 ^ 100 }
    ensures value { result ≡ length (spell (2 * name + 13)) + length (spell (2 * table + 13)) + name + table + 44 }
    ensures short { result ≤ name + table + 62 }
{
    u128::from(text_type_len(name) + text_type_len(table)) + name + table + 44
}

// The length of the serial type of a text.
fn text_type_len(len: u128) -> u8
    requires { len < 2 ^ 100 }
    ensures value { result ≡ length (spell (2 * len + 13)) }
    ensures short { result ≤ 9 }
{
    let kind = 2 * len + 13;
    if kind < 1 << 56 {
        varint_len(kind as u64) as u8
    } else {
        9
    }
}
