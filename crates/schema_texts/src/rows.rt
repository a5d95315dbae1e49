//! The table rows of a schema.
ghost use Rattle.std.specs.Prelude.{◌≡◌, ◌<◌, ◌^◌, ◌+◌, length, IfOk, OnOk};
ghost use Rattle.std.specs.List.{AllByRecursion};
ghost use Rattle.raw_schema.specs.Bounds.{sql_len};
ghost use Rattle.schema_texts.specs.Known.{AreRead, Learns, Meets};
ghost use Rattle.schema_texts.specs.Readings.{AreReadings, IsReading, is_table};

use crate::causes::read_row;
use crate::readings::TableReading;
use page_walk::PageKinds;
use raw_schema::{SchemaKind, SchemaRow};
use record_core::Bytes;
use std::alloc::{AllocError, Global};
use std::collections::BTreeSet;

/// What the texts of the table rows say, in schema order. `survey` has the kinds of the `pages` pages of the
/// file, `rows` are the rows of the schema.
pub fn read_tables(
    alloc: Global,
    rows: &[SchemaRow],
    survey: &PageKinds,
    pages: u32,
) -> Result<Vec<TableReading>, AllocError>
    requires few { length rows.now < 2 ^ 32 }
    requires short { AllByRecursion (λ r. sql_len r.sql < 2 ^ 32) rows.now }
    requires surveyed { length survey.now ≡ pages }
    ensures { IfOk result (λ v. AreReadings survey.now pages rows.now v.items) }
{
    let mut names = BTreeSet::new(alloc);
    let mut readings = Vec::new(alloc);
    for number in 0..rows.len() as u32 {
        read_next(
            alloc,
            rows,
            number,
            survey,
            pages,
            &mut names,
            &mut readings,
        )?;
    }
    Ok(readings)
}

// Appends the reading of row `number`, where it is a table row; `names` has the names of those before it.
fn read_next(
    alloc: Global,
    rows: &[SchemaRow],
    number: u32,
    survey: &PageKinds,
    pages: u32,
    names: &mut BTreeSet<Vec<u8>>,
    readings: &mut Vec<TableReading>,
) -> Result<(), AllocError>
    requires there { number < length rows.now }
    requires short { AllByRecursion (λ r. sql_len r.sql < 2 ^ 32) rows.now }
    requires surveyed { length survey.now ≡ pages }
    ensures { OnOk result (AreRead survey.now pages rows.now number names.old readings.old.items
        → AreRead survey.now pages rows.now (number + 1) names.new readings.new.items) }
{
    let row = &rows[number as usize];
    if !is_table(row.kind) {
        return Ok(());
    }
    let double = meet(alloc, names, &row.name)?;
    let reading = read_numbered(alloc, row, number, double, survey, pages)?;
    readings.push(reading)?;
    Ok(())
}

// The reading of a table row of this number.
fn read_numbered(
    alloc: Global,
    row: &SchemaRow,
    number: u32,
    double: bool,
    survey: &PageKinds,
    pages: u32,
) -> Result<TableReading, AllocError>
    requires short { sql_len row.now.sql < 2 ^ 32 }
    requires surveyed { length survey.now ≡ pages }
    ensures number { IfOk result (λ r. r.row ≡ number) }
    ensures root { IfOk result (λ r. r.root ≡ row.now.root) }
    ensures reading { IfOk result (λ r. IsReading survey.now pages row.now double r.reading) }
{
    Ok(TableReading {
        row: number,
        root: row.root,
        reading: read_row(alloc, row, double, survey, pages)?,
    })
}

fn is_table(kind: SchemaKind) -> bool
    ensures { result ≡ is_table kind }
{
    matches!(kind, SchemaKind::Table)
}

// Whether a name was met before, the case of ASCII letters ignored; from now on it was.
fn meet(alloc: Global, names: &mut BTreeSet<Vec<u8>>, name: &Bytes) -> Result<bool, AllocError>
    ensures met { IfOk result (Meets names.old name.now) }
    ensures known { OnOk result (Learns names.old name.now names.new) }
{
    let is_new = names.insert(name.as_slice().to_ascii_lowercase(alloc)?)?;
    Ok(!is_new)
}
