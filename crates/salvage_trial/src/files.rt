//! The file of a trial, and the same with a page of zeros.
ghost use Rattle.std.specs.Prelude.{◌≡◌, ◌≤◌, ◌<◌, ◌*◌, ◌^◌, length, IfOk};
ghost use Rattle.db_builder.specs.declared.faults.BuildFault.{BuildFault};
ghost use Rattle.db_builder.specs.Load.{load};
ghost use Rattle.db_builder.specs.Valid.{IsValid};
ghost use Rattle.trial_file.specs.Trial.{IsSmall, most_rows};
ghost use Rattle.salvage_trial.specs.Holes.{page_size, with_hole};
ghost use Rattle.salvage_trial.specs.Trial.{IsShort, file_of, pages_of};

use crate::sinks::FileSink;
use db_builder::{BuildFault, OutDb, build};
use std::alloc::{AllocError, Global};

// Bytes of a page.
const PAGE_SIZE: u32 = 512;

// The most load of a file that is built.
const LOAD_LIMIT: u64 = 1 << 32;

/// A file: its bytes, and the number of its pages.
#[derive(Debug, Drop)]
pub(crate) struct File {
    pub bytes: Vec<u8>,
    pub pages: u32,
}

/// The file of the database of a trial with so many rows.
pub(crate) fn file_of(alloc: Global, rows: u32, db: &OutDb) -> Result<File, AllocError>
    requires rows { rows ≤ most_rows }
    requires valid { IsValid db.now }
    requires small { IsSmall rows db.now }
    ensures bytes { IfOk result (λ f. f.bytes.items ≡ file_of db.now) }
    ensures pages { IfOk result (λ f. f.pages ≡ pages_of db.now) }
{
    let room = PAGE_SIZE as usize * (5 * rows as usize + 7);
    let mut sink = FileSink::new(alloc, room)?;
    match build(alloc, db, PAGE_SIZE, LOAD_LIMIT, &mut sink) {
        Ok(pages) => Ok(File {
            bytes: sink.bytes,
            pages,
        }),
        Err(fault) => Err(no_memory(fault)),
    }
}

// The fault of a build into memory, of a database that is not too large: memory ran out, in the build or in
// the sink.
fn no_memory(fault: BuildFault) -> AllocError
    requires { IsShort fault }
{
    match fault {
        BuildFault::Sink | BuildFault::Memory => AllocError,
        BuildFault::TooLarge { load: _ } => unreachable!(),
    }
}

/// Sets all bytes of a page to zero, pages counted from 1.
pub(crate) fn blank(bytes: &mut [u8], page: u32)
    requires least { 1 ≤ page }
    requires most { page * page_size ≤ length bytes.old }
    ensures { bytes.new ≡ with_hole page bytes.old }
{
    let size = PAGE_SIZE as usize;
    let end = page as usize * size;
    bytes[end - size..end].fill(0);
}
