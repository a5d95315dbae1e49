//! The beginning and the end of a row's line, and the line of a bad row.
ghost use Rattle.std.specs.Prelude.{◌≡◌, ◌≤◌, ◌+◌, ◌++◌, length, codes};
ghost use Rattle.std.specs.Fmt.{signed_decimal};
ghost use Rattle.arrayvec.specs.ArrayVec.{array_vec_len};
ghost use Rattle.hex.specs.Hex.{encode_lower};
ghost use Rattle.page_access.specs.Outside.{KeepsSink, Writes};
ghost use Rattle.line_text.specs.Text.{newline, place_text, value_text};
ghost use Rattle.raw_schema.specs.Spelling.{kind_text};
ghost use Rattle.report_text.specs.Lines.{line_text, sql_value};
ghost use Rattle.report_text.specs.declared.ReportLine.TheVariants.{BadRow};

use itoa::Buffer;
use line_text::{Line, add, place, put_hex};
use page_access::{Failed, Sink};
use raw_schema::SchemaKind;
use record_core::Bytes;

/// Puts the beginning of a row's line, up to its name.
pub(crate) fn put_start<R: Sink>(
    to: &mut R,
    page: u64,
    cell: u64,
    kind: SchemaKind,
) -> Result<(), Failed>
    ensures writes { Writes (R.bytes to.old) (R.bytes to.new) (R.faults to.old) (R.faults to.new)
        (place_text page cell ++ (kind_text kind ++ codes " ")) result }
    ensures kept { KeepsSink R.created R.finished R.faults to.old to.new }
{
    let mut line = place(page, cell);
    add(&mut line, word(kind).as_bytes());
    put_behind(to, line, b" ")
}

// The word for what a row describes.
fn word(kind: SchemaKind) -> &'static str
    ensures text { result.now ≡ kind_text kind }
    ensures short { length result.now ≤ 32 }
{
    match kind {
        SchemaKind::Table => "table",
        SchemaKind::Index => "index",
        SchemaKind::View => "view",
        SchemaKind::Trigger => "trigger",
    }
}

/// Puts the end of a row's line: its root and its statement.
pub(crate) fn put_end<R: Sink>(to: &mut R, root: i64, sql: &Option<Bytes>) -> Result<(), Failed>
    ensures writes { Writes (R.bytes to.old) (R.bytes to.new) (R.faults to.old) (R.faults to.new)
        (signed_decimal root ++ (codes " " ++ (value_text (sql_value sql.now) ++ newline)))
        result }
    ensures kept { KeepsSink R.created R.finished R.faults to.old to.new }
{
    let mut line = Line::new();
    add(&mut line, Buffer::new().format(root).as_bytes());
    match sql {
        Some(text) => put_text(to, line, text.as_slice()),
        None => put_behind(to, line, b" null\n"),
    }
}

// Puts a line that ends in a text.
fn put_text<R: Sink>(to: &mut R, line: Line, text: &[u8]) -> Result<(), Failed>
    requires { array_vec_len line ≤ 20 }
    ensures writes { Writes (R.bytes to.old) (R.bytes to.new) (R.faults to.old) (R.faults to.new)
        (line.items ++ (codes " text:" ++ (encode_lower text.now ++ newline))) result }
    ensures kept { KeepsSink R.created R.finished R.faults to.old to.new }
{
    put_behind(to, line, b" text:")?;
    put_hex(to, text)?;
    to.put(b"\n")
}

// Puts a line, or its beginning, with a word behind it.
fn put_behind<R: Sink>(to: &mut R, mut line: Line, word: &[u8]) -> Result<(), Failed>
    requires { array_vec_len line + length word.now ≤ 128 }
    ensures writes { Writes (R.bytes to.old) (R.bytes to.new) (R.faults to.old) (R.faults to.new)
        (line.items ++ word.now) result }
    ensures kept { KeepsSink R.created R.finished R.faults to.old to.new }
{
    add(&mut line, word);
    to.put(line.as_slice())
}

/// Puts the line of a cell that is no row of the schema.
#[tactic(auto, unfolding(crate::specs::Lines::line_text))]
pub(crate) fn put_bad<R: Sink>(to: &mut R, page: u64, cell: u64) -> Result<(), Failed>
    ensures writes { Writes (R.bytes to.old) (R.bytes to.new) (R.faults to.old) (R.faults to.new)
        (line_text (BadRow page cell)) result }
    ensures kept { KeepsSink R.created R.finished R.faults to.old to.new }
{
    put_behind(to, place(page, cell), b"bad\n")
}
