//! Marking the pages of the freelist.
ghost use Rattle.std.specs.Prelude.{◌≡◌, ℕ, ◌+◌, ◌≤◌, length, IfOk, IfSome, OnOk, if◌then◌else◌, is_ok};
ghost use Rattle.page_access.specs.Files.{IsWhole, file_of};
ghost use Rattle.page_access.specs.Outside.{HasCauseOf, KeepsSource};
ghost use Rattle.page_access.specs.declared.outside.ReadFault.TheVariants as faults;
ghost use Rattle.page_lists.specs.Table.{Moves, MovesFront, all_moved, unused};
ghost use Rattle.freelist_core.specs.Free.{free_pages};

use crate::FREE_LIST;
use crate::trunks::take_leaves;
use page_access::{Geometry, ReadFault, Source, load};
use page_lists::PageTable;
use std::alloc::Global;

/// Moves the pages of the freelist to the list of free pages: each trunk from `first_trunk` on while it is
/// an unused page of the file, and with it the leaves that it names and that are unused (fileformat2.html,
/// 1.5). A trunk that gives more leaves than it has room for names none, and ends the list. Gives how many
/// pages moved. After an error some have moved.
pub fn mark_free<S: Source>(
    alloc: Global,
    src: &mut S,
    geo: &Geometry,
    table: &mut PageTable,
    first_trunk: u32,
) -> Result<u32, ReadFault>
    requires same_pages { table.old.pages ≡ geo.now.pages }
    requires lists { 7 ≤ length table.old.lists }
    ensures table { OnOk result (IfSome (S.bytes src.old) (λ all. table.new ≡
        all_moved (free_pages (file_of all geo.now) (unused table.old) first_trunk) FREE_LIST table.old)) }
    // told or not
    ensures count { IfOk result (λ n. n + length (unused table.new) ≡ length (unused table.old)) }
    ensures moves { Moves FREE_LIST table.old table.new }
    // at an error too
    ensures front { IfSome (S.bytes src.old) (λ all. MovesFront
        (free_pages (file_of all geo.now) (unused table.old) first_trunk) FREE_LIST table.old table.new) }
    ensures cause { HasCauseOf faults.Source (S.faults src.old) (S.faults src.new) result }
    ensures kept { KeepsSource S.bytes S.attached S.faults S.reads src.old src.new }
    // one read at most for each page that moved, and one more at an error
    ensures reads { IfSome (S.bytes src.old) (λ all. IsWhole all geo.now →
        S.reads src.new + length (unused table.new)
        ≤ S.reads src.old + length (unused table.old) + (if is_ok result then 0 else 1)) }
{
    let mut page = vec![in alloc; 0; geo.page_size as usize]?;
    let buffer = page.as_mut_slice();
    let before = table.len(0);
    let mut at = first_trunk;
    while table.is_unused(at) {
        load(src, geo, at, buffer)?;
        table.move_to_back(at, FREE_LIST);
        at = take_leaves(buffer, geo.usable, table);
    }
    Ok(before - table.len(0))
}
