//! The parts of a file, put together.
ghost use Rattle.std.specs.Prelude.{◌≡◌, length, IfOk};
ghost use Rattle.page_access.specs.Files.{max_input};
ghost use Rattle.page_access.specs.Pages.{File};
ghost use Rattle.page_size.specs.Rule.{finding};
ghost use Rattle.input_pages.specs.Input.{IsWithin};
ghost use Rattle.salvage_core.specs.Plan.{AreOptions, IsFileOf, IsFilePlan, header_number, trunk_of};
ghost use Rattle.salvage_core.specs.Sound.{IsSound};
ghost use Rattle.salvage_core.specs.Uses.{AreUses, HaveOrphans, HaveReadings};

use crate::fronts::front_lines;
use crate::lost::{add_lost_table, bad_lost};
use crate::uses::FoundUses;
use crate::{Gathered, Options};
use db_builder::OutDb;
use input_pages::Input;
use orphan_cells::{OrphanCells, orphan_cells};
use orphan_uses::OrphanUses;
use page_size::{Found, Origin};
use salvaged_tables::{SalvagedTables, salvage_tables};
use std::alloc::{AllocError, Global};
use table_shape::OutTable;
use use_order::FileUses;

/// What a file gives, by the uses of its pages.
pub(crate) fn assemble(
    alloc: Global,
    opts: &Options,
    input: &Input,
    found_uses: FoundUses,
) -> Result<Gathered, AllocError>
    requires options { AreOptions opts.now }
    requires within { IsWithin max_input input.now }
    requires readings { HaveReadings input.now.found.geometry.usable
        input.now.found.geometry.pages found_uses.uses }
    requires orphans { HaveOrphans input.now.found.geometry.usable
        input.now.found.geometry.pages found_uses.orphans }
    requires lists { (found_uses.table.pages ≡ input.now.found.geometry.pages)
        × (length found_uses.table.lists ≡ 7) }
    ensures plan { IfOk result (λ g. (f : File) → IsFileOf f (finding input.now.found)
        → AreUses f (trunk_of opts.now (finding input.now.found)) found_uses
        → IsFilePlan opts.now (finding input.now.found) input.now.left f g) }
    ensures sound { IfOk result IsSound }
{
    let found = &input.found;
    let FoundUses {
        uses,
        orphans,
        table,
    } = found_uses;
    let FileUses {
        schema,
        readings,
        mut tables,
        mut indexes,
        turns,
    } = uses;
    let OrphanUses {
        trees,
        turns: orphan_turns,
    } = orphans;
    let mut lines = front_lines(alloc, found, input.left, &schema.bad, &schema.notes)?;
    let mut lost = bad_lost(alloc, schema.bad)?;
    let salvaged = salvage_tables(alloc, &schema.rows, readings, &tables, turns)?;
    let SalvagedTables {
        tables: mut built,
        mut places,
        lost: mut of_tables,
        mut failed,
        script,
        lines: mut table_lines,
    } = salvaged;
    let cells = orphan_cells(alloc, &trees, orphan_turns)?;
    let OrphanCells {
        lost: mut of_orphans,
        failed: mut orphans_failed,
        lines: mut orphan_lines,
    } = cells;
    lines.append(&mut table_lines)?;
    lines.append(&mut orphan_lines)?;
    failed.append(&mut orphans_failed)?;
    lost.append(&mut of_tables)?;
    lost.append(&mut of_orphans)?;
    tables.append(&mut indexes)?;
    let lost_rows = lost.len() as u64;
    add_lost_table(
        alloc,
        &opts.lost,
        &schema.rows,
        lost,
        &mut built,
        &mut places,
        &mut lines,
    )?;
    Ok(Gathered {
        geometry: Some(found.geometry),
        origin: found.origin,
        page_size: found.geometry.page_size,
        uses: table,
        schema: schema.rows,
        trees: tables,
        orphans: trees,
        db: database(found, built),
        lost: lost_rows,
        places,
        failed,
        script,
        lines,
    })
}

// A database of these tables, with the numbers of the header where the page size is the header's.
fn database(found: &Found, tables: Vec<OutTable>) -> OutDb
    ensures tables { result.tables ≡ tables }
    ensures user_version { result.user_version
        ≡ header_number (finding found.now) found.now.header.user_version }
    ensures application_id { result.application_id
        ≡ header_number (finding found.now) found.now.header.application_id }
{
    let by_header = found.origin == Origin::Header;
    OutDb {
        tables,
        user_version: if by_header {
            found.header.user_version
        } else {
            0
        },
        application_id: if by_header {
            found.header.application_id
        } else {
            0
        },
    }
}
