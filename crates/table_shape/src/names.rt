//! Names of tables and indexes.

ghost use Rattle.std.specs.Prelude.{◌≡◌};
ghost use Rattle.table_shape.specs.Names.{begins_as_automatic, is_reserved, is_schema_name, same_name};

/// Whether two names are the same, the case of ASCII letters ignored.
pub fn same_name(a: &[u8], b: &[u8]) -> bool
    ensures { result ≡ same_name a.now b.now }
{
    a.eq_ignore_ascii_case(b)
}

/// Whether a table may not have this name when it is written: those of the schema table itself, and
/// what begins as the names of automatic indexes do (fileformat2.html, 2.6 and 2.6.2).
pub fn is_reserved(name: &[u8]) -> bool
    ensures { result ≡ is_reserved name.now }
{
    is_schema_name(name) || begins_as_automatic(name)
}

#[tactic(auto, unfolding(crate::specs::Names::is_schema_name))]
fn is_schema_name(name: &[u8]) -> bool
    ensures { result ≡ is_schema_name name.now }
{
    same_name(name, b"sqlite_master")
        || same_name(name, b"sqlite_schema")
        || same_name(name, b"sqlite_temp_master")
        || same_name(name, b"sqlite_temp_schema")
}

#[tactic(auto, unfolding(crate::specs::Names::begins_as_automatic))]
fn begins_as_automatic(name: &[u8]) -> bool
    ensures { result ≡ begins_as_automatic name.now }
{
    same_name(&name[..name.len().min(17)], b"sqlite_autoindex_")
}
