//! The words of texts.
ghost use Rattle.std.specs.Prelude.{◌≡◌, ◌≤◌, length};
ghost use Rattle.line_text.specs.Text.{cause_text};

use page_walk::CellCause;

/// The word for the cause of a cell that is not read, at most 32 bytes.
pub fn cause_word(cause: CellCause) -> &'static str
    ensures text { result.now ≡ cause_text cause }
    ensures short { length result.now ≤ 32 }
{
    match cause {
        CellCause::Pointer => "pointer",
        CellCause::Cut => "cut",
        CellCause::Length => "length",
        CellCause::Overlap => "overlap",
        CellCause::Chain => "chain",
        CellCause::BadRecord => "record",
    }
}
