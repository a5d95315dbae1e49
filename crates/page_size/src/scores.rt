//! How the page size is told from the pages.
ghost use Rattle.std.specs.Prelude.{◌≡◌, ◌≤◌, ◌<◌, ◌+◌, ◌-◌, ◌*◌, ◌/◌, List, length, map, is_ok, IsTrue, All, IfOk, IfSome, IfNone, OnOk, Some, nat_le, nat_lt, ◌&&◌};
ghost use Rattle.std.specs.List.{list_all, range_with_len};
ghost use Rattle.std.specs.Option.{option_map};
ghost use Rattle.page_access.specs.Files.{max_input};
ghost use Rattle.page_access.specs.Outside.{HasCause, HasCauseOf, KeepsSource};
ghost use Rattle.page_access.specs.Pages.{page_of};
ghost use Rattle.cell_reader.specs.Shape.{shape_at, shape_of};
ghost use Rattle.cell_reader.specs.Cell.{cell_of};
ghost use Rattle.page_size.specs.Rule.{IsCut, IsUsable};
ghost use Rattle.page_size.specs.Score.{are_read, is_plausible, plausible_pages, ranking, score, winner};

use crate::headers::PAGE_SIZES;
use cell_reader::{PageShape, cell, shape};
use page_access::{Failed, Geometry, ReadFault, Source, load};
use std::alloc::{AllocError, Global};

// A page size with its score.
#[derive(Clone, Copy, Debug, PartialEq, Eq)]
pub struct Score {
    pub size: u32,
    pub pages: u32,
}

/// The pages of a file of this length, where it has a whole one.
pub fn geometry_of(len: u64, size: u32, reserved: u8) -> Option<Geometry>
    requires len { len ≤ max_input }
    requires size { IsUsable size reserved }
    ensures found { IfSome result (λ g. IsCut len size reserved g.page_size g.usable g.pages) }
    ensures none { IfNone result (len < size) }
{
    if len < u64::from(size) {
        return None;
    }
    Some(Geometry {
        page_size: size,
        usable: size - u32::from(reserved),
        pages: (len / u64::from(size)) as u32,
    })
}

// Whether each cell of a page with this shape can be read.
fn are_cells_read(page: &[u8], shape: &PageShape, geo: &Geometry) -> bool
    requires whole { geo.now.usable ≤ length page.now }
    requires of_page { shape_at page.now shape.now.head geo.now.usable ≡ Some shape.now }
    ensures { result ≡ are_read page.now geo.now.usable geo.now.pages shape.now }
{
    for i in 0..shape.cells {
        if cell(page, shape, geo, i).is_err() {
            return false;
        }
    }
    true
}

// Whether the page with this number looks like a page of a tree.
#[tactic(auto, unfolding(crate::specs::Score::is_plausible))]
fn is_plausible_page(page: &[u8], number: u32, geo: &Geometry) -> bool
    requires { geo.now.usable ≤ length page.now }
    ensures { result ≡ is_plausible page.now number geo.now.usable geo.now.pages }
{
    match shape(page, number, geo) {
        None => false,
        Some(shape) => shape.cells > 0 && are_cells_read(page, &shape, geo),
    }
}

// How many pages look like pages of a tree. Each is read to `page` in turn.
fn count_plausible<S: Source>(src: &mut S, geo: &Geometry, page: &mut [u8]) -> Result<u32, Failed>
    requires { length page.old ≡ geo.now.page_size }
    ensures value { IfOk result (λ n. IfSome (S.bytes src.old)
        (λ all. n ≡ plausible_pages all geo.now.page_size geo.now.usable geo.now.pages)) }
    ensures cause { HasCause (S.faults src.old) (S.faults src.new) result }
    ensures kept { KeepsSource S.bytes S.attached S.faults S.reads src.old src.new }
    ensures reads { IfSome (S.bytes src.old) (λ all.
        geo.now.pages * geo.now.page_size ≤ length all →
        S.reads src.new ≤ S.reads src.old + geo.now.pages) }
{
    let mut count = 0;
    for number in 1..geo.pages + 1 {
        load(src, geo, number, page)?;
        count += u32::from(is_plausible_page(page, number, geo));
    }
    Ok(count)
}

// The score of a page size. Each page is read to `page` in turn.
#[tactic(auto, unfolding(crate::specs::Score::score))]
fn score_of<S: Source>(
    src: &mut S,
    len: u64,
    size: u32,
    reserved: u8,
    page: &mut [u8],
) -> Result<u32, Failed>
    requires len { len ≤ max_input }
    requires size { IsUsable size reserved }
    requires page { length page.old ≡ size }
    ensures value { IfOk result (λ n. IfSome (S.bytes src.old)
        (λ all. length all ≡ len → n ≡ score all size reserved)) }
    ensures cause { HasCause (S.faults src.old) (S.faults src.new) result }
    ensures kept { KeepsSource S.bytes S.attached S.faults S.reads src.old src.new }
    ensures reads { IfSome (S.bytes src.old)
        (λ all. length all ≡ len → S.reads src.new ≤ S.reads src.old + len / size) }
{
    match geometry_of(len, size, reserved) {
        Some(geo) => count_plausible(src, &geo, page),
        None => Ok(0),
    }
}

/// Each page size that leaves enough usable bytes, with its score, the smallest size first. Each
/// page is read to the front of `page` in turn.
pub fn rank<S: Source>(
    alloc: Global,
    src: &mut S,
    len: u64,
    reserved: u8,
    page: &mut [u8],
) -> Result<Vec<Score>, ReadFault>
    requires len { len ≤ max_input }
    requires page { length page.old ≡ 65536 }
    ensures value { IfOk result (λ v. IfSome (S.bytes src.old)
        (λ all. length all ≡ len → v.items ≡ ranking all reserved)) }
    ensures usable { IfOk result (λ v. All (λ s. IsUsable s.size reserved) v.items) }
    ensures cause { HasCauseOf ReadFault.Source (S.faults src.old) (S.faults src.new) result }
    ensures kept { KeepsSource S.bytes S.attached S.faults S.reads src.old src.new }
    ensures reads { IfSome (S.bytes src.old)
        (λ all. length all ≡ len → S.reads src.new ≤ S.reads src.old + len / 256) }
{
    let mut scores = Vec::new(alloc);
    for size in PAGE_SIZES {
        if size < u32::from(reserved) + 480 {
            continue;
        }
        let pages = score_of(src, len, size, reserved, &mut page[..size as usize])?;
        scores.push(Score { size, pages })?;
    }
    Ok(scores)
}

/// So many zeros.
pub fn zeros(alloc: Global, len: usize) -> Result<Vec<u8>, AllocError>
    ensures { IfOk result (λ v. length v.items ≡ len) }
{
    vec![in alloc; 0; len]
}

// Whether no score is higher.
fn is_highest(score: &Score, scores: &[Score]) -> bool
    ensures { result ≡ list_all (λ t. nat_le t.pages score.now.pages) scores.now }
{
    scores.iter().all(|other| other.pages <= score.pages)
}

/// The score that wins: it is over 0, none is higher, and of several such it is the first.
pub fn best(scores: &[Score]) -> Option<Score>
    ensures { result ≡ winner scores.now }
{
    for score in scores {
        if score.pages > 0 && is_highest(score, scores) {
            return Some(*score);
        }
    }
    None
}
