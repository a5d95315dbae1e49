//! The text of the table.
ghost use Rattle.std.specs.Prelude.{◌≡◌, ◌++◌, ◌==◌, ◌∷◌, [], if◌then◌else◌, IfOk, OnOk};
ghost use Rattle.lost_found.specs.Texts.{behind_commas, doubled, field_names, lost_text, quoted};

use crate::names::field_name;
use std::alloc::{AllocError, Global};

/// The text of the table with this name and the columns of so many fields.
pub(crate) fn lost_text(alloc: Global, name: &[u8], fields: usize) -> Result<Vec<u8>, AllocError>
    ensures { IfOk result (λ v. v.items ≡ lost_text name.now fields) }
{
    let mut text = Vec::from_slice(alloc, b"CREATE TABLE ")?;
    add_quoted(name, &mut text)?;
    text.extend_from_slice(b"(rootpgno INTEGER, pgno INTEGER, nfield INTEGER, id INTEGER")?;
    add_fields(alloc, fields, &mut text)?;
    text.extend_from_slice(b")")?;
    Ok(text)
}

// Appends a name between quotes.
fn add_quoted(name: &[u8], to: &mut Vec<u8>) -> Result<(), AllocError>
    ensures { OnOk result (to.new.items ≡ to.old.items ++ quoted name.now) }
{
    to.extend_from_slice(b"\"")?;
    add_doubled(name, to)?;
    to.extend_from_slice(b"\"")?;
    Ok(())
}

// Appends a name with each quote doubled.
fn add_doubled(name: &[u8], to: &mut Vec<u8>) -> Result<(), AllocError>
    ensures { OnOk result (to.new.items ≡ to.old.items ++ doubled name.now) }
{
    for byte in name {
        add_letter(*byte, to)?;
    }
    Ok(())
}

fn add_letter(byte: u8, to: &mut Vec<u8>) -> Result<(), AllocError>
    ensures { OnOk result (to.new.items
        ≡ to.old.items ++ (if byte == 34 then 34 ∷ (34 ∷ []) else byte ∷ [])) }
{
    if byte == b'"' {
        to.extend_from_slice(b"\"\"")?;
    } else {
        to.push(byte)?;
    }
    Ok(())
}

// Appends the columns of so many fields, each behind a comma.
fn add_fields(alloc: Global, fields: usize, to: &mut Vec<u8>) -> Result<(), AllocError>
    ensures { OnOk result (to.new.items ≡ to.old.items ++ behind_commas (field_names fields)) }
{
    for field in 0..fields {
        to.extend_from_slice(b", ")?;
        to.extend_from_slice(field_name(alloc, field)?.as_slice())?;
    }
    Ok(())
}
