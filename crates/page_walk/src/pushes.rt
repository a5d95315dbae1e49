//! Appending what may not be there.
ghost use Rattle.std.specs.Prelude.{◌≡◌, ◌++◌, OnErr, OnOk, option_to_list};

use std::alloc::AllocError;

// Appends the item, where there is one.
pub fn push_some<T: Drop>(to: &mut Vec<T>, item: Option<T>) -> Result<(), AllocError>
    ensures items { OnOk result (to.new.items ≡ to.old.items ++ option_to_list item) }
    ensures err { OnErr result (to.new.items ≡ to.old.items) }
{
    if let Some(item) = item {
        to.push(item)?;
    }
    Ok(())
}
