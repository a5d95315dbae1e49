//! The pages of the freelist, where it is looked at.
ghost use Rattle.std.specs.Prelude.{◌≡◌, ◌≤◌, length, IfSome, OnOk, is_ok, if◌then◌else◌};
ghost use Rattle.page_access.specs.Files.{file_of};
ghost use Rattle.page_access.specs.Outside.{HasCauseOf, KeepsSource};
ghost use Rattle.page_access.specs.declared.outside.ReadFault.TheVariants as faults;
ghost use Rattle.page_lists.specs.Table.{Moves, all_moved, unused};
ghost use Rattle.page_walk.specs.Turns.{ReadsEach};
ghost use Rattle.freelist_core.specs.declared.TheConstants.{FREE_LIST};
ghost use Rattle.orphan_uses.specs.Order.{free_of};

use freelist_core::mark_free;
use page_access::{Geometry, ReadFault, Source};
use page_lists::PageTable;
use std::alloc::Global;

/// Moves the pages of the freelist from this trunk on, where there is one, to the list of free pages. After an
/// error some have moved.
pub(crate) fn take_free<S: Source>(
    alloc: Global,
    src: &mut S,
    geo: &Geometry,
    table: &mut PageTable,
    first_trunk: Option<u32>,
) -> Result<(), ReadFault>
    requires same_pages { table.old.pages ≡ geo.now.pages }
    requires lists { 7 ≤ length table.old.lists }
    ensures table { OnOk result (IfSome (S.bytes src.old) (λ all. table.new ≡
        all_moved (free_of (file_of all geo.now) (unused table.old) first_trunk) FREE_LIST table.old)) }
    ensures moves { Moves FREE_LIST table.old table.new }
    ensures cause { HasCauseOf faults.Source (S.faults src.old) (S.faults src.new) result }
    ensures kept { KeepsSource S.bytes S.attached S.faults S.reads src.old src.new }
    ensures reads { ReadsEach (S.bytes src.old) geo.now table.old table.new
        (S.reads src.old) (S.reads src.new) (if is_ok result then 0 else 1) }
{
    let Some(trunk) = first_trunk else {
        return Ok(());
    };
    mark_free(alloc, src, geo, table, trunk)?;
    Ok(())
}
