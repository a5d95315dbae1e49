//! Why a table of the schema is not built, and the words of a report.
ghost use Rattle.std.specs.Prelude.{◌≡◌, ◌≤◌, ◌+◌, ◌++◌, [], ◌∷◌, length, codes};
ghost use Rattle.arrayvec.specs.ArrayVec.{array_vec_len};
ghost use Rattle.report_text.specs.Report.{numbers_text, origin_text, unread_text};

use crate::numbers::add_numbers;
use line_text::{Line, add};
use page_size::Origin;
use page_walk::Place;

/// Why a table of the schema is not built (docs/TEXTS.md, "The report").
#[derive(Clone, Copy, Debug, PartialEq, Eq)]
pub enum UnreadCause {
    /// Its row has no text.
    Text,
    /// It is a virtual table.
    Virtual,
    /// Its text leaves the grammar of CREATE TABLE behind so many words.
    Form {
        /// Words of the longest beginning that a text of the grammar has.
        at: u32,
    },
    /// A column is generated.
    Generated,
    /// There are too many columns or keys.
    Limit,
    /// A key cannot be built.
    Key,
    /// A key column has REAL affinity.
    Real,
    /// The row has another name than the text.
    Name,
    /// The name is reserved.
    Reserved,
    /// An earlier table has the name, the case of ASCII letters ignored.
    Double,
    /// A key field of this cell cannot be ordered.
    Unordered(Place),
}

/// The word for where the page size comes from.
pub(crate) fn origin_word(origin: Origin) -> &'static [u8]
    ensures text { result.now ≡ origin_text origin }
    ensures short { length result.now ≤ 8 }
{
    match origin {
        Origin::Header => b"header",
        Origin::Pages => b"pages",
        Origin::Chosen => b"option",
        Origin::Empty => b"empty",
    }
}

/// Adds what a cause says.
pub(crate) fn add_cause(line: &mut Line, cause: UnreadCause)
    requires { array_vec_len line.old ≤ 64 }
    ensures text { line.new.items ≡ line.old.items ++ unread_text cause }
    ensures len { array_vec_len line.new ≤ array_vec_len line.old + 52 }
{
    match cause {
        UnreadCause::Text => add(line, b"text"),
        UnreadCause::Virtual => add(line, b"virtual"),
        UnreadCause::Form { at } => add_counted(line, b"form", &[u64::from(at)]),
        UnreadCause::Generated => add(line, b"generated"),
        UnreadCause::Limit => add(line, b"limit"),
        UnreadCause::Key => add(line, b"key"),
        UnreadCause::Real => add(line, b"real"),
        UnreadCause::Name => add(line, b"name"),
        UnreadCause::Reserved => add(line, b"reserved"),
        UnreadCause::Double => add(line, b"double"),
        UnreadCause::Unordered(place) => add_counted(
            line,
            b"unordered",
            &[u64::from(place.page), u64::from(place.cell)],
        ),
    }
}

// Adds a word and numbers behind it.
fn add_counted(line: &mut Line, word: &[u8], numbers: &[u64])
    requires room { array_vec_len line.old ≤ 64 }
    requires word { length word.now ≤ 10 }
    requires few { length numbers.now ≤ 2 }
    ensures text { line.new.items ≡ line.old.items ++ (word.now ++ numbers_text numbers.now) }
    ensures len { array_vec_len line.new ≤ array_vec_len line.old + 52 }
{
    add(line, word);
    add_numbers(line, numbers);
}
