//! The lines of a report.
ghost use Rattle.std.specs.Prelude.{◌≡◌, ◌≤◌, ◌+◌, ◌*◌, ◌++◌, [], ◌∷◌, length, codes};
ghost use Rattle.arrayvec.specs.ArrayVec.{array_vec_len};
ghost use Rattle.page_access.specs.Outside.{KeepsSink, Writes};
ghost use Rattle.report_text.specs.Names.{esc};
ghost use Rattle.report_text.specs.Report.{counted_text, counts_text, ended_text, named_text, reason_text};

use crate::causes::{UnreadCause, add_cause};
use crate::names::put_esc;
use crate::numbers::add_numbers;
use line_text::{Line, add};
use page_access::{Failed, Sink};

/// Puts a line of a word and numbers.
#[tactic(auto, unfolding(crate::specs::Report::counted_text))]
pub(crate) fn put_counted<R: Sink>(to: &mut R, word: &[u8], numbers: &[u64]) -> Result<(), Failed>
    requires word { length word.now ≤ 10 }
    requires few { length numbers.now ≤ 3 }
    ensures writes { Writes (R.bytes to.old) (R.bytes to.new) (R.faults to.old) (R.faults to.new)
        (counted_text word.now numbers.now) result }
    ensures kept { KeepsSink R.created R.finished R.faults to.old to.new }
{
    let mut line = Line::new();
    add(&mut line, word);
    add_numbers(&mut line, numbers);
    add(&mut line, b"\n");
    to.put(line.as_slice())
}

/// Puts a line of a word, numbers and a word.
#[tactic(auto, unfolding(crate::specs::Report::ended_text))]
pub(crate) fn put_ended<R: Sink>(
    to: &mut R,
    word: &[u8],
    numbers: &[u64],
    end: &[u8],
) -> Result<(), Failed>
    requires word { length word.now ≤ 10 }
    requires few { length numbers.now ≤ 3 }
    requires end { length end.now ≤ 32 }
    ensures writes { Writes (R.bytes to.old) (R.bytes to.new) (R.faults to.old) (R.faults to.new)
        (ended_text word.now numbers.now end.now) result }
    ensures kept { KeepsSink R.created R.finished R.faults to.old to.new }
{
    let mut line = Line::new();
    add(&mut line, word);
    add_numbers(&mut line, numbers);
    add(&mut line, b" ");
    add(&mut line, end);
    add(&mut line, b"\n");
    to.put(line.as_slice())
}

/// Puts a line of a word, a name, and the rest that is given.
pub(crate) fn put_named<R: Sink>(
    to: &mut R,
    word: &[u8],
    name: &[u8],
    rest: &Line,
) -> Result<(), Failed>
    requires { length word.now ≤ 10 }
    ensures writes { Writes (R.bytes to.old) (R.bytes to.new) (R.faults to.old) (R.faults to.new)
        (named_text word.now name.now rest.now.items) result }
    ensures kept { KeepsSink R.created R.finished R.faults to.old to.new }
{
    put_word(to, word)?;
    put_esc(to, name)?;
    to.put(rest.as_slice())
}

// Puts a word and a space.
fn put_word<R: Sink>(to: &mut R, word: &[u8]) -> Result<(), Failed>
    requires { length word.now ≤ 10 }
    ensures writes { Writes (R.bytes to.old) (R.bytes to.new) (R.faults to.old) (R.faults to.new)
        (word.now ++ codes " ") result }
    ensures kept { KeepsSink R.created R.finished R.faults to.old to.new }
{
    let mut line = Line::new();
    add(&mut line, word);
    add(&mut line, b" ");
    to.put(line.as_slice())
}

/// The rest of a line that ends in numbers.
pub(crate) fn counts(numbers: &[u64]) -> Line
    requires { length numbers.now ≤ 5 }
    ensures { result.items ≡ counts_text numbers.now }
{
    let mut line = Line::new();
    add_numbers(&mut line, numbers);
    add(&mut line, b"\n");
    line
}

/// The rest of the line of a table that is not built.
#[tactic(auto, unfolding(crate::specs::Report::reason_text))]
pub(crate) fn reason(rows: u64, pages: u64, cause: UnreadCause) -> Line
    ensures { result.items ≡ reason_text rows pages cause }
{
    let mut line = Line::new();
    add_numbers(&mut line, &[rows, pages]);
    add(&mut line, b" ");
    add_cause(&mut line, cause);
    add(&mut line, b"\n");
    line
}
