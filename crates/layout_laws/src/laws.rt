//! What holds of every written file.

ghost use Rattle.std.specs.Prelude.{◌≤◌, ◌^◌, IsTrue};
ghost use Rattle.page_access.specs.Pages.{is_page_size};
ghost use Rattle.db_builder.specs.Layout.{layout};
ghost use Rattle.db_builder.specs.Load.{load};
ghost use Rattle.db_builder.specs.Valid.{IsValid};
ghost use Rattle.well_formed.specs.Spells.{Spells};
ghost use Rattle.layout_laws.specs.Laws.{LayoutIsWhole, LayoutSpells, LayoutSpellsOne};
ghost use Rattle.layout_laws.specs.Written.{database_of};

use crate::types::numbers_are_typed;
use db_builder::OutDb;

/// A written file has whole pages, as many as the number of its last page says.
pub fn a_layout_is_whole()
    ensures { LayoutIsWhole }
{}

/// The file of a database that can be written, and is not too large, spells this database, on pages of
/// any size: with tables with and without rowids, their automatic indexes, overflow pages, a schema of
/// several levels, and a lock-byte page.
pub fn a_layout_spells_its_database()
    ensures { LayoutSpells }
{}

/// It spells no other database.
pub fn a_layout_spells_no_other()
    ensures { LayoutSpellsOne }
{}

/// The same of a database that a caller has: its numbers are those that their types hold. Reads each
/// value once.
pub fn the_file_of_a_database_spells_it(page_size: u32, db: &OutDb)
    requires size { IsTrue (is_page_size page_size) }
    requires valid { IsValid db.now }
    requires load { load db.now ≤ 2 ^ 35 }
    ensures { Spells (layout page_size db.now) (database_of db.now) }
{
    numbers_are_typed(db);
}
