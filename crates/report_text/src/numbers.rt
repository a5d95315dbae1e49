//! Numbers of a line.
ghost use Rattle.std.specs.Prelude.{◌≡◌, ◌≤◌, ◌+◌, ◌*◌, ◌++◌, length, decimal};
ghost use Rattle.arrayvec.specs.ArrayVec.{array_vec_len};
ghost use Rattle.report_text.specs.Report.{numbers_text};

use itoa::Buffer;
use line_text::{Line, add};

/// Adds numbers, each with a space before it: 21 bytes at most for each.
pub(crate) fn add_numbers(line: &mut Line, numbers: &[u64])
    requires { array_vec_len line.old + 21 * length numbers.now ≤ 128 }
    ensures text { line.new.items ≡ line.old.items ++ numbers_text numbers.now }
    ensures len { array_vec_len line.new ≤ array_vec_len line.old + 21 * length numbers.now }
{
    for number in numbers {
        add(line, b" ");
        add(line, Buffer::new().format(*number).as_bytes());
    }
}
