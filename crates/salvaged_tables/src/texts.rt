//! The texts of the script.
ghost use Rattle.std.specs.Prelude.{◌≡◌, ◌++◌, Some, None, OnOk};
ghost use Rattle.salvaged_tables.specs.Fates.{text_of};

use crate::places::ScriptText;
use record_core::Bytes;
use std::alloc::{AllocError, Global};

/// Appends the text of a table that is not built, if its row has one.
pub(crate) fn add_table_text(
    alloc: Global,
    name: &Bytes,
    sql: &Option<Bytes>,
    to: &mut Vec<ScriptText>,
) -> Result<(), AllocError>
    ensures { OnOk result
        (to.new.items ≡ to.old.items ++ text_of (Some name.now) sql.now) }
{
    if let Some(sql) = sql {
        to.push(ScriptText {
            table: Some(Bytes::copy_of(alloc, name.as_slice())?),
            text: Bytes::copy_of(alloc, sql.as_slice())?,
        })?;
    }
    Ok(())
}

/// Appends the text of an index, a view or a trigger, if its row has one.
pub(crate) fn add_text(
    alloc: Global,
    sql: &Option<Bytes>,
    to: &mut Vec<ScriptText>,
) -> Result<(), AllocError>
    ensures { OnOk result (to.new.items ≡ to.old.items ++ text_of None sql.now) }
{
    if let Some(sql) = sql {
        to.push(ScriptText {
            table: None,
            text: Bytes::copy_of(alloc, sql.as_slice())?,
        })?;
    }
    Ok(())
}
