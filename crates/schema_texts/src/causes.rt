//! Why a table is not built.
ghost use Rattle.std.specs.Prelude.{◌≡◌, ◌<◌, ◌^◌, length, IfOk};
ghost use Rattle.raw_schema.specs.Bounds.{sql_len};
ghost use Rattle.table_shape.specs.Seen.{shape_seen};
ghost use Rattle.schema_texts.specs.Readings.{IsJudged, IsReading, IsText, bar, kind_at_root, kind_of, kind_without};

use crate::readings::Reading;
use cell_reader::Kind;
use create_reader::{CreateFault, read_create};
use page_walk::PageKinds;
use raw_schema::SchemaRow;
use record_core::Bytes;
use report_text::UnreadCause;
use std::alloc::{AllocError, Global};
use table_shape::{TableShape, has_real_key, is_reserved};

/// What the text of a table row says; `double` says that an earlier table row has its name.
pub(crate) fn read_row(
    alloc: Global,
    row: &SchemaRow,
    double: bool,
    survey: &PageKinds,
    pages: u32,
) -> Result<Reading, AllocError>
    requires short { sql_len row.now.sql < 2 ^ 32 }
    requires surveyed { length survey.now ≡ pages }
    ensures { IfOk result (IsReading survey.now pages row.now double) }
{
    match read_text(alloc, &row.sql)? {
        Ok(shape) => Ok(judged(row, shape, double)),
        Err(cause) => Ok(Reading::Unread {
            cause,
            kind: kind_without(survey, pages, row.root, cause),
        }),
    }
}

// What a text says of its table.
fn read_text(
    alloc: Global,
    sql: &Option<Bytes>,
) -> Result<Result<TableShape, UnreadCause>, AllocError>
    requires { sql_len sql.now < 2 ^ 32 }
    ensures { IfOk result (IsText sql.now) }
{
    let Some(sql) = sql else {
        return Ok(Err(UnreadCause::Text));
    };
    match read_create(alloc, sql.as_slice()) {
        Ok(shape) => Ok(Ok(shape)),
        Err(CreateFault::Virtual) => Ok(Err(UnreadCause::Virtual)),
        Err(CreateFault::Form { at }) => Ok(Err(UnreadCause::Form { at })),
        Err(CreateFault::Generated) => Ok(Err(UnreadCause::Generated)),
        Err(CreateFault::Limit) => Ok(Err(UnreadCause::Limit)),
        Err(CreateFault::Key) => Ok(Err(UnreadCause::Key)),
        Err(CreateFault::Memory) => Err(AllocError),
    }
}

// The reading of a table with a shape.
fn judged(row: &SchemaRow, shape: TableShape, double: bool) -> Reading
    ensures { IsJudged (shape_seen shape) row.now.name double result }
{
    let kind = Some(kind_of(&shape));
    match bar(&shape, row.name.as_slice(), double) {
        Some(cause) => Reading::Unread { cause, kind },
        None => Reading::Shape(shape),
    }
}

// Why a table with a shape is not built, where it is so.
fn bar(shape: &TableShape, name: &[u8], double: bool) -> Option<UnreadCause>
    ensures { result ≡ bar (shape_seen shape.now) name.now double }
{
    if has_real_key(shape) {
        return Some(UnreadCause::Real);
    }
    if name != shape.name.as_slice() {
        return Some(UnreadCause::Name);
    }
    if is_reserved(name) {
        return Some(UnreadCause::Reserved);
    }
    if double {
        return Some(UnreadCause::Double);
    }
    None
}

/// The kind of the pages of a table.
pub fn kind_of(shape: &TableShape) -> Kind
    ensures { result ≡ kind_of (shape_seen shape.now) }
{
    if shape.without_rowid {
        Kind::Index
    } else {
        Kind::Table
    }
}

// The kind of the tree of a table without a shape.
fn kind_without(survey: &PageKinds, pages: u32, root: i64, cause: UnreadCause) -> Option<Kind>
    requires { length survey.now ≡ pages }
    ensures { result ≡ kind_without survey.now pages root cause }
{
    match cause {
        UnreadCause::Virtual => None,
        _ => kind_at_root(survey, pages, root),
    }
}

fn kind_at_root(survey: &PageKinds, pages: u32, root: i64) -> Option<Kind>
    requires { length survey.now ≡ pages }
    ensures { result ≡ kind_at_root survey.now pages root }
{
    let page = u32::try_from(root).ok()?;
    if 1 <= page && page <= pages {
        survey.kind(page)
    } else {
        None
    }
}
