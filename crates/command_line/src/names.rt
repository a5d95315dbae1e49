//! Names on the command line.
ghost use Rattle.std.specs.Prelude.{◌≡◌};
ghost use Rattle.command_line.specs.Names.{begins_as_sqlite, is_lost_name};

/// Whether the table of lost rows may have this name.
#[tactic(auto, unfolding(crate::specs::Names::is_lost_name))]
pub(crate) fn is_lost_name(name: &str) -> bool
    ensures { result ≡ is_lost_name name.now }
{
    !name.is_empty() && !begins_as_sqlite(name.as_bytes())
}

// Whether a name begins with `sqlite_`, in any case of its letters.
#[tactic(auto, unfolding(crate::specs::Names::begins_as_sqlite))]
fn begins_as_sqlite(name: &[u8]) -> bool
    ensures { result ≡ begins_as_sqlite name.now }
{
    name[..name.len().min(7)].eq_ignore_ascii_case(b"sqlite_")
}
