//! The lines of a trial.
ghost use Rattle.std.specs.Prelude.{◌≡◌, ◌≤◌, ◌+◌, ◌++◌};
ghost use Rattle.arrayvec.specs.ArrayVec.{array_vec_len};
ghost use Rattle.page_access.specs.Outside.{KeepsSink, Writes};
ghost use Rattle.salvage_trial.specs.Lines.{counts_text, hole_line, whole_line};
ghost use Rattle.salvage_trial.specs.Numbers.{lines_of};

use itoa::Buffer;
use line_text::{Line, add};
use page_access::{Failed, Sink};

/// How many rows came back, and how many are lost.
#[derive(Clone, Copy, Debug, PartialEq, Eq)]
pub struct Counts {
    /// Rows of the tables that are built.
    pub rows: u64,
    /// Rows of the table of lost cells.
    pub lost: u64,
}

/// What a trial tells.
#[derive(Clone, Copy, Debug, PartialEq, Eq)]
pub struct Numbers {
    /// Rows of the database.
    pub rows: u32,
    /// Pages of its file.
    pub pages: u32,
    /// What came back of the whole file.
    pub whole: Counts,
    /// The page of zeros.
    pub hole: u32,
    /// What came back of the file with this page.
    pub holed: Counts,
}

/// Puts both lines.
pub(crate) fn put_lines<R: Sink>(numbers: &Numbers, to: &mut R) -> Result<(), Failed>
    ensures writes { Writes (R.bytes to.old) (R.bytes to.new) (R.faults to.old) (R.faults to.new)
        (lines_of numbers.now) result }
    ensures kept { KeepsSink R.created R.finished R.faults to.old to.new }
{
    to.put(whole_line(numbers).as_slice())?;
    to.put(hole_line(numbers).as_slice())
}

// The line of the whole file.
fn whole_line(numbers: &Numbers) -> Line
    ensures { result.items ≡ whole_line numbers.now.rows numbers.now.pages
        numbers.now.whole.rows numbers.now.whole.lost }
{
    let mut line = Line::new();
    add(&mut line, b"trial ");
    add(&mut line, Buffer::new().format(numbers.rows).as_bytes());
    add(&mut line, b" pages ");
    add(&mut line, Buffer::new().format(numbers.pages).as_bytes());
    add_counts(&mut line, numbers.whole);
    line
}

// The line of the file with a page of zeros.
fn hole_line(numbers: &Numbers) -> Line
    ensures { result.items ≡ hole_line numbers.now.hole numbers.now.holed.rows
        numbers.now.holed.lost }
{
    let mut line = Line::new();
    add(&mut line, b"hole ");
    add(&mut line, Buffer::new().format(numbers.hole).as_bytes());
    add_counts(&mut line, numbers.holed);
    line
}

// Appends the end of a line.
fn add_counts(line: &mut Line, counts: Counts)
    requires { array_vec_len line.old + 53 ≤ 128 }
    ensures { line.new.items ≡ line.old.items ++ counts_text counts.rows counts.lost }
{
    add(line, b" rows ");
    add(line, Buffer::new().format(counts.rows).as_bytes());
    add(line, b" lost ");
    add(line, Buffer::new().format(counts.lost).as_bytes());
    add(line, b"\n");
}
