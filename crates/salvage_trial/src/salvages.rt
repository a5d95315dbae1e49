//! A salvage of bytes in memory, without options.
ghost use Rattle.std.specs.Prelude.{◌≡◌, IfOk};
ghost use Rattle.salvage_core.specs.Plan.{AreOptions, IsPlan};
ghost use Rattle.salvage_core.specs.Sound.{IsSound};
ghost use Rattle.salvage_trial.specs.Trial.{IsReadable, IsWanting, plain_options};

use page_access::{MAX_INPUT, SureSource};
use record_core::Bytes;
use salvage_core::{Fault, Gathered, Options, gather};
use std::alloc::{AllocError, Global};

/// What these bytes give.
pub(crate) fn salvage(alloc: Global, bytes: Vec<u8>) -> Result<Gathered, AllocError>
    requires { IsReadable bytes.items }
    ensures plan { IfOk result (IsPlan plain_options bytes.items) }
    ensures sound { IfOk result IsSound }
{
    let options = plain_options(alloc)?;
    let mut src = SureSource::new(bytes);
    match gather(alloc, &options, "trial", &mut src) {
        Ok(gathered) => Ok(gathered),
        Err(fault) => Err(no_memory(fault)),
    }
}

// The fault of a salvage of bytes in memory whose pages are found: memory ran out.
fn no_memory(fault: Fault) -> AllocError
    requires { IsWanting fault }
{
    match fault {
        Fault::Memory => AllocError,
        _ => unreachable!(),
    }
}

// The options of a recovery for which none is given.
fn plain_options(alloc: Global) -> Result<Options, AllocError>
    ensures are { IfOk result (λ o. o ≡ plain_options) }
    ensures valid { IfOk result AreOptions }
{
    Ok(Options {
        page_size: None,
        reserved: None,
        freelist_corrupt: false,
        lost: Bytes::copy_of(alloc, b"lost_and_found")?,
        input_limit: MAX_INPUT,
        load_limit: 1 << 32,
    })
}
