//! One trunk page and its leaves.
ghost use Rattle.std.specs.Prelude.{◌≡◌, ◌+◌, ◌-◌, ◌*◌, ◌/◌, ◌<◌, ◌≤◌, [], ◌∷◌, length};
ghost use Rattle.page_lists.specs.Lists.{firsts, is_in};
ghost use Rattle.page_lists.specs.Table.{all_moved, unused};
ghost use Rattle.freelist_core.specs.Trunk.{is_long, leaves_from, leaves_on, next_on};
ghost use Rattle.freelist_core.specs.declared.TheConstants.{FREE_LIST};

use crate::FREE_LIST;
use byteorder::{BigEndian, ByteOrder};
use page_lists::PageTable;

/// Moves the leaves of a trunk page that are unused to the list of free pages, and gives the next trunk: 0
/// where the page gives more leaves than it has room for.
pub fn take_leaves(page: &[u8], usable: u32, table: &mut PageTable) -> u32
    requires size { usable ≤ length page.now }
    requires least { 480 ≤ usable }
    requires lists { 6 ≤ length table.old.lists }
    ensures next { result ≡ next_on usable page.now }
    ensures moved { table.new ≡ all_moved (firsts (unused table.old) (leaves_on usable page.now))
        FREE_LIST table.old }
{
    let count = BigEndian::read_u32(&page[4..]);
    if count > usable / 4 - 2 {
        return 0;
    }
    for k in 0..count {
        take_leaf(page, k, table);
    }
    BigEndian::read_u32(page)
}

// Moves leaf k of a trunk page to the list of free pages, where it is unused.
fn take_leaf(page: &[u8], k: u32, table: &mut PageTable)
    requires room { 12 + 4 * k ≤ length page.now }
    requires lists { 6 ≤ length table.old.lists }
    ensures { table.new ≡ all_moved (firsts (unused table.old) (leaves_from page.now k 1))
        FREE_LIST table.old }
{
    let leaf = BigEndian::read_u32(&page[8 + 4 * k as usize..]);
    if table.is_unused(leaf) {
        table.move_to_back(leaf, FREE_LIST);
    }
}
