//! The texts of a script.
ghost use Rattle.std.specs.Prelude.{◌≡◌};
ghost use Rattle.page_access.specs.Outside.{KeepsSink, Writes};
ghost use Rattle.report_text.specs.Lines.{script_text};

use page_access::{Failed, Sink};

/// Puts a text, and `;` on a line of its own behind it. After an error a front of this is there.
pub fn put_script<T: Sink>(text: &[u8], to: &mut T) -> Result<(), Failed>
    ensures writes { Writes (T.bytes to.old) (T.bytes to.new) (T.faults to.old) (T.faults to.new)
        (script_text text.now) result }
    ensures kept { KeepsSink T.created T.finished T.faults to.old to.new }
{
    to.put(text)?;
    to.put(b"\n;\n")
}
