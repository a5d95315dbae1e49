//! How an input is opened.
ghost use Rattle.std.specs.Prelude.{◌≡◌, ◌≢◌, ◌≤◌, ◌+◌, ◌/◌, ◌⊎◌, length, Some, IsTrue, IsErrOf, IfOk, IfSome, OnOk, if◌then◌else◌};
ghost use Rattle.page_access.specs.Files.{IsWhole, max_input};
ghost use Rattle.page_access.specs.Outside.{HasCauseOf, KeepsSource};
ghost use Rattle.page_access.specs.Pages.{is_page_size};
ghost use Rattle.page_size.specs.Rule.{finding, is_scored};
ghost use Rattle.input_pages.specs.Input.{FindsPages, IsOfInput, IsWithin, is_utf16, left_of, pages_of};

use crate::faults::InputFault;
use page_access::{ReadFault, Source};
use page_size::{Found, Origin, find_geometry};
use std::alloc::Global;

/// An input that is not empty, cut into pages.
#[derive(Clone, Copy, Debug)]
pub struct Input {
    /// Its pages.
    pub found: Found,
    /// Bytes behind the last whole page, which belong to no page.
    pub left: u64,
}

/// Opens the input of this name, of at most `limit` bytes, and finds its pages: none where it is empty.
/// `page_size` is a page size in bytes, and `reserved`, bytes at the end of each page, leaves 480 of it.
/// `TooLarge` where it has more bytes, then the faults of `find_geometry`.
/// `Memory` before the input is touched, or where neither an option nor the header gives the page size.
pub fn open_input<S: Source>(
    alloc: Global,
    src: &mut S,
    name: &str,
    limit: u64,
    page_size: Option<u32>,
    reserved: Option<u8>,
) -> Result<Option<Input>, InputFault>
    requires limit { limit ≤ max_input }
    requires size { IfSome page_size (λ s. IsTrue (is_page_size s)) }
    requires enough { IfSome page_size (λ s. IfSome reserved (λ r. r + 480 ≤ s)) }
    // opened
    ensures told { IfSome (S.bytes src.old)
        (λ all. FindsPages result (pages_of limit page_size reserved all)) }
    ensures name { OnOk result (S.attached src.new ≡ Some name.now) }
    ensures left { IfSome (S.bytes src.old)
        (λ all. IfOk result (λ o. IfSome o (λ i. i.left ≡ left_of all (finding i.found)))) }
    ensures whole { IfSome (S.bytes src.old)
        (λ all. IfOk result (λ o. IfSome o (λ i. IsWhole all i.found.geometry))) }
    ensures valid { IfOk result (λ o. IfSome o (λ i. IsWithin limit i)) }
    ensures origin { IfSome (S.bytes src.old)
        (λ _. IfOk result (λ o. IfSome o (λ i. i.found.origin ≢ Origin.Empty))) }

    // refused
    ensures numbers { IsOfInput limit result }
    ensures cause { HasCauseOf InputFault.Source (S.faults src.old) (S.faults src.new) result }

    // what stays
    ensures bytes { S.bytes src.new ≡ S.bytes src.old }
    ensures reads { S.reads src.old ≤ S.reads src.new }
    ensures few_reads { IfSome (S.bytes src.old) (λ all. S.reads src.new ≤ S.reads src.old + 1
        + (if is_scored all page_size reserved then length all / 256 else 0)) }

    // memory is asked for before the input is touched, and then only where the page size is scored
    ensures memory { IfSome (S.bytes src.old) (λ all. IsErrOf result InputFault.Memory
        → (src.new ≡ src.old) ⊎ IsTrue (is_scored all page_size reserved)) }
{
    attach(alloc, src, name)?;
    find_pages(alloc, src, limit, page_size, reserved)
}

// Attaches the source to the input of this name.
fn attach<S: Source>(alloc: Global, src: &mut S, name: &str) -> Result<(), ReadFault>
    ensures name { OnOk result (S.attached src.new ≡ Some name.now) }
    ensures cause { HasCauseOf ReadFault.Source (S.faults src.old) (S.faults src.new) result }
    ensures bytes { S.bytes src.new ≡ S.bytes src.old }
    ensures reads { S.reads src.new ≡ S.reads src.old }
    ensures memory { IsErrOf result ReadFault.Memory → src.new ≡ src.old }
{
    let name = String::from_str(alloc, name)?;
    src.attach(name)?;
    Ok(())
}

// The pages of the attached input.
#[tactic(auto, unfolding(crate::specs::Input::pages_of))]
fn find_pages<S: Source>(
    alloc: Global,
    src: &mut S,
    limit: u64,
    page_size: Option<u32>,
    reserved: Option<u8>,
) -> Result<Option<Input>, InputFault>
    requires limit { limit ≤ max_input }
    requires size { IfSome page_size (λ s. IsTrue (is_page_size s)) }
    requires enough { IfSome page_size (λ s. IfSome reserved (λ r. r + 480 ≤ s)) }
    ensures told { IfSome (S.bytes src.old)
        (λ all. FindsPages result (pages_of limit page_size reserved all)) }
    ensures left { IfSome (S.bytes src.old)
        (λ all. IfOk result (λ o. IfSome o (λ i. i.left ≡ left_of all (finding i.found)))) }
    ensures whole { IfSome (S.bytes src.old)
        (λ all. IfOk result (λ o. IfSome o (λ i. IsWhole all i.found.geometry))) }
    ensures valid { IfOk result (λ o. IfSome o (λ i. IsWithin limit i)) }
    ensures numbers { IsOfInput limit result }
    ensures cause { HasCauseOf InputFault.Source (S.faults src.old) (S.faults src.new) result }
    ensures kept { KeepsSource S.bytes S.attached S.faults S.reads src.old src.new }
    ensures few_reads { IfSome (S.bytes src.old) (λ all. S.reads src.new ≤ S.reads src.old + 1
        + (if is_scored all page_size reserved then length all / 256 else 0)) }
    ensures memory { IfSome (S.bytes src.old) (λ all. IsErrOf result InputFault.Memory
        → IsTrue (is_scored all page_size reserved)) }
{
    let len = src.length()?;
    if len > limit {
        return Err(InputFault::TooLarge { len });
    }
    if len == 0 {
        return Ok(None);
    }
    let found = find_geometry(alloc, src, len, page_size, reserved)?;
    let left = len % u64::from(found.geometry.page_size);
    Ok(Some(Input { found, left }))
}

/// The page size is the header's, and the header says that texts are in UTF-16: its encoding is 2 or 3.
pub fn is_utf16(found: &Found) -> bool
    ensures { result ≡ is_utf16 (finding found.now) }
{
    found.origin == Origin::Header && matches!(found.header.encoding, 2 | 3)
}
