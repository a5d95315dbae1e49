//! The kind of each page of a file.
ghost use Rattle.std.specs.Prelude.{◌≡◌, ◌≤◌, ◌+◌, length, option_map, IfOk, IfSome, OnOk};
ghost use Rattle.cell_reader.specs.Shape.{shape_of};
ghost use Rattle.page_access.specs.Cache.{HasAll, IsCacheOf};
ghost use Rattle.page_access.specs.Files.{IsWhole, file_of};
ghost use Rattle.page_access.specs.Outside.{HasCauseOf, KeepsSource};
ghost use Rattle.page_access.specs.declared.outside.ReadFault.TheVariants as faults;
ghost use Rattle.page_walk.specs.Kinds.{kind_at};
ghost use Rattle.page_walk.specs.Walk.{kinds_of};

use crate::pages::read_page;
use cell_reader::{Kind, shape};
use page_access::{Geometry, PageCache, ReadFault, Source};
use std::alloc::Global;
use std::marker::Model;

/// The kind of each page of a file, where the page has a shape.
#[derive(Debug, Drop)]
pub struct PageKinds {
    /// That of page 1 comes first.
    kinds: Vec<Option<Kind>>,
}

impl Model for PageKinds {
    ghost use Rattle.std.specs.Prelude.{List, Option};
    ghost use Rattle.cell_reader.specs.declared.shapes.Kind.{Kind};

    ghost Value = { List (Option Kind) };

    ghost view = { λ s. s.kinds.items };
}

impl PageKinds {
    /// The kind of page `page`, counted from 1, or `None` where it has no shape.
    pub fn kind(&self, page: u32) -> Option<Kind>
        requires low { 1 ≤ page }
        requires high { page ≤ length self.now }
        ensures { result ≡ kind_at self.now page }
    {
        self.kinds[page as usize - 1]
    }
}

// The kind of the page with this number, where it has a shape.
fn kind_of(page: &[u8], number: u32, geo: &Geometry) -> Option<Kind>
    requires { geo.now.usable ≤ length page.now }
    ensures { result ≡ option_map (λ s. s.kind) (shape_of page.now number geo.now.usable) }
{
    shape(page, number, geo).map(|shape| shape.kind)
}

/// The kind of each page. Each page is asked for once; a cache with a slot for each has them all then.
pub fn survey<S: Source>(
    alloc: Global,
    src: &mut S,
    geo: &Geometry,
    cache: &mut PageCache,
) -> Result<PageKinds, ReadFault>
    requires cached { IsCacheOf (S.bytes src.old) geo.now cache.old }
    ensures kinds { IfOk result (λ k. IfSome (S.bytes src.old)
        (λ all. k ≡ kinds_of (file_of all geo.now))) }
    ensures len { IfOk result (λ k. length k ≡ geo.now.pages) }
    ensures cause { HasCauseOf faults.Source (S.faults src.old) (S.faults src.new) result }
    ensures kept { KeepsSource S.bytes S.attached S.faults S.reads src.old src.new }
    ensures reads { IfSome (S.bytes src.old)
        (λ all. IsWhole all geo.now → S.reads src.new ≤ S.reads src.old + geo.now.pages) }
    ensures cached { IsCacheOf (S.bytes src.old) geo.now cache.new }
    ensures has { OnOk result (geo.now.pages ≤ cache.old.slots → HasAll cache.new) }
    ensures full { HasAll cache.old → HasAll cache.new × (src.new ≡ src.old) }
{
    let mut page = vec![in alloc; 0; geo.page_size as usize]?;
    let buffer = page.as_mut_slice();
    let mut kinds = Vec::with_capacity(alloc, geo.pages as usize)?;
    for before in 0..geo.pages {
        read_page(src, geo, cache, before + 1, buffer)?;
        kinds.push(kind_of(buffer, before + 1, geo))?;
    }
    Ok(PageKinds { kinds })
}
