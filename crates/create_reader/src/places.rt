//! The columns of a table by their names.

ghost use Rattle.std.specs.Prelude.{◌≡◌, ◌≤◌, ◌+◌, ◌||◌, ◌∷◌, IfOk, IfSome, OnOk, List, is_none, length, map};
ghost use Rattle.std.specs.List.{list_any};
ghost use Rattle.create_reader.specs.declared.texts.ColumnText.{ColumnText};
ghost use Rattle.create_reader.specs.Faults.{has_repeat};
ghost use Rattle.create_reader.specs.Index.{IsIndex, IsIndexFrom};
ghost use Rattle.create_reader.specs.Meaning.{place, places};
ghost use Rattle.create_reader.specs.Numbers.{column_named};

use crate::texts::ColumnText;
use record_core::Bytes;
use std::alloc::{AllocError, Global};
use std::collections::BTreeMap;

/// The columns of a table by their names.
#[derive(Debug, Drop)]
pub struct Index {
    /// The number of the first column with a name, its capitals of ASCII made small.
    pub places: BTreeMap<Vec<u8>, u32>,
    /// Whether two columns have one name.
    pub repeats: bool,
}

/// The index of the columns.
pub fn index_of(alloc: Global, columns: &[ColumnText]) -> Result<Index, AllocError>
    requires { length columns.now ≤ 1996 }
    ensures { IfOk result (IsIndex columns.now) }
{
    let mut index = Index {
        places: BTreeMap::new(alloc),
        repeats: false,
    };
    let mut number = columns.len();
    while number > 0 {
        number -= 1;
        put(alloc, &mut index, &columns[number], number as u32)?;
    }
    Ok(index)
}

// Puts a column before those that the index has.
fn put(alloc: Global, index: &mut Index, column: &ColumnText, number: u32) -> Result<(), AllocError>
    ensures { OnOk result ((columns : List ColumnText) → IsIndexFrom (number + 1) columns index.old
        → IsIndexFrom number (column.now ∷ columns) index.new) }
{
    let name = column.name.as_slice().to_ascii_lowercase(alloc)?;
    let later = index.places.insert(name, number)?;
    index.repeats = later.is_some() || index.repeats;
    Ok(())
}

/// The number of the first column that has the name.
pub fn place(
    alloc: Global,
    columns: &[ColumnText],
    index: &Index,
    name: &[u8],
) -> Result<u32, AllocError>
    requires { IsIndex columns.now index.now }
    ensures { IfOk result (λ k. k ≡ place columns.now name.now) }
{
    let small = name.to_ascii_lowercase(alloc)?;
    let number = index.places.get(&small).copied();
    Ok(number.unwrap_or(columns.len() as u32))
}

/// The columns that a list names; none where it names no column of the table, or one twice.
pub fn places(
    alloc: Global,
    columns: &[ColumnText],
    index: &Index,
    names: &[Bytes],
) -> Result<Option<Vec<u32>>, AllocError>
    requires { IsIndex columns.now index.now }
    ensures bad { IfOk result (λ found. is_none found
        ≡ (list_any (λ name. is_none (column_named columns.now name)) names.now
        || has_repeat names.now)) }
    ensures places { IfOk result (λ found. IfSome found (λ v. v.items ≡ places columns.now names.now)) }
{
    let mut met = vec![in alloc; false; columns.len()]?;
    let mut found = Vec::new(alloc);
    for name in names {
        let number = place(alloc, columns, index, name.as_slice())?;
        let at = number as usize;
        if at >= met.len() || met[at] {
            return Ok(None);
        }
        met[at] = true;
        found.push(number)?;
    }
    Ok(Some(found))
}
