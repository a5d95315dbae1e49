//! Which entries stand on which page of a tree.

ghost use Rattle.std.specs.Prelude.{◌≡◌, ◌≤◌, ◌<◌, ◌+◌, ◌-◌, ◌^◌, ◌++◌, ℕ, List, [], Some, None, true, false, IfOk, OnOk, length, map, take, sum_by, slice_index_or, if◌then◌else◌};
ghost use Rattle.tree_writer.specs.Entry.{AreEntries, Entry, HaveNoRowids, RowidsRise, leaf_item};
ghost use Rattle.tree_writer.specs.Layout.{pages_from, schema_pages, tree_pages};
ghost use Rattle.cell_reader.specs.declared.shapes.Kind.{Kind};
ghost use Rattle.tree_writer.specs.Levels.{pages_in, tree_line};
ghost use Rattle.tree_writer.specs.Numbers.{number_of};
ghost use Rattle.tree_writer.specs.Plan.{need_in, overs_in, size_item};
ghost use Rattle.tree_writer.specs.Planned.{HasRoom, IsHeld, inner_item, leaf_behind, leaf_plans, level_plans, plan_at, shown, span_at, span_pages};
ghost use Rattle.tree_writer.specs.Trees.{IsPlan, IsRaised, IsSchemaPlan, IsTreePlan, IsWritable, first_spans, schema_count, tree_count};

use crate::entries::Entries;
use crate::groups::{Span, cut_spans, leaf_spans};
use crate::numbering::Numbering;
use crate::sheets::Sheet;
use crate::sizes::{Size, size_of};
use cell_reader::Kind;
use std::alloc::{AllocError, Global};

/// A page of a tree: its index in the order of pages, its first entry (of a leaf) or first child (of
/// an interior page), the number of its cells, and the entry that separates it from the next page.
#[derive(Clone, Copy, Debug)]
pub struct PagePlan {
    pub index: u32,
    pub first: u32,
    pub cells: u32,
    pub behind: u32,
}

/// The plan of a tree: which entries stand on which page. It holds no page's bytes.
#[derive(Debug, Drop)]
pub struct TreePlan {
    usable: u32,
    kind: Kind,
    /// The number of leaves, which are the first pages.
    leaves: u32,
    pages: Vec<PagePlan>,
    /// Page 1, where the tree is the schema's: a leaf where there are no other pages.
    first_page: Option<PagePlan>,
    /// The number of pages with all overflow pages.
    count: u32,
    /// The index of the root.
    root: u32,
}

/// The highest pages of a plan: the number of leaves, the first page of the highest level, and the
/// index behind all pages.
#[derive(Clone, Copy, Debug)]
pub struct Top {
    pub leaves: u32,
    pub base: u32,
    pub index: u32,
}

// What each entry takes on a leaf.
fn leaf_sizes<N: Entries>(
    alloc: Global,
    usable: u32,
    kind: Kind,
    entries: &N,
) -> Result<Vec<Size>, AllocError>
    requires least { 512 ≤ usable }
    requires most { usable ≤ 65536 }
    requires entries { AreEntries (N.entries entries.now) }
    ensures { IfOk result (λ v. v.items
        ≡ map (size_item usable kind true) (map leaf_item (N.entries entries.now))) }
{
    let mut sizes = Vec::new(alloc);
    for i in 0..entries.count() {
        sizes.push(size_of(usable, kind, true, entries, i))?;
    }
    Ok(sizes)
}

// What the cells of a level take that name pages of the level below.
fn line_sizes<N: Entries>(
    alloc: Global,
    usable: u32,
    kind: Kind,
    entries: &N,
    below: &[PagePlan],
) -> Result<Vec<Size>, AllocError>
    requires least { 512 ≤ usable }
    requires most { usable ≤ 65536 }
    requires entries { AreEntries (N.entries entries.now) }
    requires there { (i : ℕ) → i < length below.now
        → (plan_at below.now i).behind < length (N.entries entries.now) }
    ensures { IfOk result (λ v. v.items
        ≡ map (size_item usable kind false) (map (inner_item kind (N.entries entries.now)) below.now)) }
{
    let mut sizes = Vec::new(alloc);
    for page in below {
        sizes.push(size_of(usable, kind, false, entries, page.behind))?;
    }
    Ok(sizes)
}

// The bytes that cells take with their pointers.
fn needs_of(sizes: &[Size]) -> u64
    requires { length sizes.now < 2 ^ 31 }
    ensures { result ≡ sum_by need_in sizes.now }
{
    let mut needs = 0;
    for size in sizes {
        needs += u64::from(size.need);
    }
    needs
}

// The overflow pages of cells.
fn overs_in(sizes: &[Size]) -> u32
    requires { sum_by overs_in sizes.now < 2 ^ 32 }
    ensures { result ≡ sum_by overs_in sizes.now }
{
    let mut overs = 0;
    for size in sizes {
        overs += size.overs;
    }
    overs
}

// The entry that separates a leaf whose cells end before entry `end` from the next leaf.
fn leaf_behind(kind: Kind, end: u32) -> u32
    ensures { result ≡ leaf_behind kind end }
{
    match kind {
        Kind::Table => end.saturating_sub(1),
        Kind::Index => end,
    }
}

// Adds the leaves, and gives the index behind them.
fn add_leaves(pages: &mut Vec<PagePlan>, kind: Kind, spans: &[Span]) -> Result<u32, AllocError>
    requires few { sum_by span_pages spans.now < 2 ^ 32 }
    requires ends { (i : ℕ) → i < length spans.now → (span_at spans.now i).first
        + (span_at spans.now i).cells < 2 ^ 32 }
    ensures pages { OnOk result (pages.new.items
        ≡ pages.old.items ++ leaf_plans kind 0 spans.now) }
    ensures index { IfOk result (λ n. n ≡ sum_by span_pages spans.now) }
{
    let mut index = 0;
    for span in spans {
        let end = span.first + span.cells;
        pages.push(PagePlan {
            index,
            first: span.first,
            cells: span.cells,
            behind: leaf_behind(kind, end),
        })?;
        index += span.pages;
    }
    Ok(index)
}

// Adds a level over the pages from `base` on, whose first page has this index, and gives the index
// behind it.
fn add_level(
    pages: &mut Vec<PagePlan>,
    base: u32,
    spans: &[Span],
    index: u32,
) -> Result<u32, AllocError>
    requires few { index + sum_by span_pages spans.now < 2 ^ 32 }
    requires small { length pages.old.items < 2 ^ 32 }
    requires ends { (i : ℕ) → i < length spans.now → base + (span_at spans.now i).first
        + (span_at spans.now i).cells < length pages.old.items }
    ensures pages { OnOk result (pages.new.items
        ≡ pages.old.items ++ level_plans pages.old.items base index spans.now) }
    ensures index { IfOk result (λ n. n ≡ index + sum_by span_pages spans.now) }
{
    let mut index = index;
    for span in spans {
        let first = base + span.first;
        let behind = pages[(first + span.cells) as usize].behind;
        pages.push(PagePlan {
            index,
            first,
            cells: span.cells,
            behind,
        })?;
        index += span.pages;
    }
    Ok(index)
}

// Which entries stand on which leaf.
fn first_spans<N: Entries>(
    alloc: Global,
    usable: u32,
    kind: Kind,
    entries: &N,
    sizes: &[Size],
) -> Result<Vec<Span>, AllocError>
    requires least { 512 ≤ usable }
    requires most { usable ≤ 65536 }
    requires entries { AreEntries (N.entries entries.now) }
    requires sizes { sizes.now
        ≡ map (size_item usable kind true) (map leaf_item (N.entries entries.now)) }
    ensures { IfOk result (λ v. v.items ≡ first_spans usable kind (N.entries entries.now)) }
{
    let _count = entries.count();
    match kind {
        Kind::Table => leaf_spans(alloc, sizes, usable - 8),
        Kind::Index => cut_spans(alloc, sizes, usable - 8),
    }
}

// Plans the pages of a tree whose entries take these sizes on its leaves, up to a level whose line
// takes at most `top` bytes.
fn raise<N: Entries>(
    alloc: Global,
    usable: u32,
    kind: Kind,
    entries: &N,
    sizes: &[Size],
    top: u32,
    pages: &mut Vec<PagePlan>,
) -> Result<Top, AllocError>
    requires least { 512 ≤ usable }
    requires most { usable ≤ 65536 }
    requires entries { AreEntries (N.entries entries.now) }
    requires sizes { sizes.now
        ≡ map (size_item usable kind true) (map leaf_item (N.entries entries.now)) }
    requires none { pages.old.items ≡ [] }
    ensures { IfOk result (IsRaised usable kind top (N.entries entries.now) pages.new.items) }
{
    let spans = first_spans(alloc, usable, kind, entries, sizes)?;
    let mut index = add_leaves(pages, kind, spans.as_slice())?;
    let leaves = pages.len() as u32;
    let mut base = 0;
    'levels: loop {
        let end = pages.len() - 1;
        let below = &pages.as_slice()[base as usize..end];
        let line = line_sizes(alloc, usable, kind, entries, below)?;
        if needs_of(line.as_slice()) <= u64::from(top) {
            break;
        }
        let spans = cut_spans(alloc, line.as_slice(), usable - 12)?;
        index = add_level(pages, base, spans.as_slice(), index)?;
        base = end as u32 + 1;
    }
    Ok(Top {
        leaves,
        base,
        index,
    })
}

impl TreePlan {
    // The plan of a tree that does not begin on page 1.
    fn of_kind<N: Entries>(
        alloc: Global,
        usable: u32,
        kind: Kind,
        entries: &N,
    ) -> Result<TreePlan, AllocError>
        requires least { 512 ≤ usable }
        requires most { usable ≤ 65536 }
        requires entries { AreEntries (N.entries entries.now) }
        ensures { IfOk result (IsTreePlan usable kind (N.entries entries.now)) }
    {
        let sizes = leaf_sizes(alloc, usable, kind, entries)?;
        let mut pages = Vec::new(alloc);
        let top = raise(alloc, usable, kind, entries, &sizes, 0, &mut pages)?;
        let root = pages[pages.len() - 1].index;
        Ok(TreePlan {
            usable,
            kind,
            leaves: top.leaves,
            pages,
            first_page: None,
            count: top.index,
            root,
        })
    }

    /// The plan of a table's tree, on pages of `usable` bytes.
    pub fn table<N: Entries>(
        alloc: Global,
        usable: u32,
        entries: &N,
    ) -> Result<TreePlan, AllocError>
        requires least { 512 ≤ usable }
        requires most { usable ≤ 65536 }
        requires entries { AreEntries (N.entries entries.now) }
        requires rowids { RowidsRise None (N.entries entries.now) }
        ensures { IfOk result (IsTreePlan usable Kind.Table (N.entries entries.now)) }
    {
        TreePlan::of_kind(alloc, usable, Kind::Table, entries)
    }

    /// The plan of an index's tree, on pages of `usable` bytes.
    pub fn index<N: Entries>(
        alloc: Global,
        usable: u32,
        entries: &N,
    ) -> Result<TreePlan, AllocError>
        requires least { 512 ≤ usable }
        requires most { usable ≤ 65536 }
        requires entries { AreEntries (N.entries entries.now) }
        requires rowids { HaveNoRowids (N.entries entries.now) }
        ensures { IfOk result (IsTreePlan usable Kind.Index (N.entries entries.now)) }
    {
        TreePlan::of_kind(alloc, usable, Kind::Index, entries)
    }

    /// The plan of the schema's tree, whose root is page 1.
    pub fn schema<N: Entries>(
        alloc: Global,
        usable: u32,
        entries: &N,
    ) -> Result<TreePlan, AllocError>
        requires least { 512 ≤ usable }
        requires most { usable ≤ 65536 }
        requires entries { AreEntries (N.entries entries.now) }
        requires rowids { RowidsRise None (N.entries entries.now) }
        ensures { IfOk result (IsSchemaPlan usable (N.entries entries.now)) }
    {
        let sizes = leaf_sizes(alloc, usable, Kind::Table, entries)?;
        let mut pages = Vec::new(alloc);
        if needs_of(&sizes) <= u64::from(usable - 108) {
            let page = PagePlan {
                index: 0,
                first: 0,
                cells: sizes.len() as u32,
                behind: 0,
            };
            return Ok(TreePlan {
                usable,
                kind: Kind::Table,
                leaves: 0,
                pages,
                first_page: Some(page),
                count: 1 + overs_in(&sizes),
                root: 0,
            });
        }
        let top = raise(
            alloc,
            usable,
            Kind::Table,
            entries,
            &sizes,
            usable - 112,
            &mut pages,
        )?;
        let page = PagePlan {
            index: top.index,
            first: top.base,
            cells: pages.len() as u32 - top.base - 1,
            behind: 0,
        };
        Ok(TreePlan {
            usable,
            kind: Kind::Table,
            leaves: top.leaves,
            pages,
            first_page: Some(page),
            count: 1 + top.index,
            root: 0,
        })
    }

    /// The number of pages, overflow pages among them.
    pub fn page_count(&self) -> u32
        ensures value { result ≡ self.now.count }
        ensures tree { (usable : ℕ) (kind : Kind) (es : List Entry) → IsTreePlan usable kind es self.now
            → result ≡ tree_count usable kind es }
        ensures schema { (usable : ℕ) (es : List Entry) → IsSchemaPlan usable es self.now
            → result ≡ schema_count usable es }
    {
        self.count
    }

    /// The index of the root, 0 where it is page 1.
    pub fn root(&self) -> u32
        ensures tree { (usable : ℕ) (kind : Kind) (es : List Entry) → IsTreePlan usable kind es self.now
            → result ≡ (tree_line usable kind 0 es).right }
        ensures schema { (usable : ℕ) (es : List Entry) → IsSchemaPlan usable es self.now
            → result ≡ 0 }
    {
        self.root
    }

    /// Fills `to` with the page of index `k`. Of page 1, which has index 0 in the plan of a schema, the
    /// first 100 bytes are left; its other pages are numbered from `numbers.start`. Takes no memory.
    pub fn write_page<N: Entries>(
        &self,
        k: u32,
        numbers: &Numbering,
        entries: &N,
        scratch: &mut [u8],
        to: &mut [u8],
    )
        requires plan { IsPlan (N.entries entries.now) self.now }
        requires there { k < self.now.count }
        requires some { 1 ≤ numbers.now.start }
        requires numbers { numbers.now.start + self.now.count < 2 ^ 32 - 1 }
        requires room { HasRoom (N.entries entries.now) scratch.old }
        requires size { length to.old ≡ self.now.usable }
        ensures tree { (usable : ℕ) (kind : Kind) → IsTreePlan usable kind (N.entries entries.now) self.now
            → to.new ≡ slice_index_or (tree_pages usable kind
            (number_of numbers.now.start numbers.now.lock) (N.entries entries.now)) k [] }
        ensures schema { (usable : ℕ) → IsSchemaPlan usable (N.entries entries.now) self.now
            → to.new ≡ slice_index_or (schema_pages (take 100 to.old) usable
            (number_of numbers.now.start numbers.now.lock) (N.entries entries.now)) k [] }
    {
        let _held = self.write_next(k, numbers, entries, None, scratch, to);
    }

    /// The same where the payload of entry `held` stands at the front of `scratch`; gives the entry whose
    /// payload stands there then. So pages that are written in rising order read each payload no more
    /// than twice.
    pub fn write_next<N: Entries>(
        &self,
        k: u32,
        numbers: &Numbering,
        entries: &N,
        held: Option<u32>,
        scratch: &mut [u8],
        to: &mut [u8],
    ) -> Option<u32>
        requires plan { IsPlan (N.entries entries.now) self.now }
        requires there { k < self.now.count }
        requires some { 1 ≤ numbers.now.start }
        requires numbers { numbers.now.start + self.now.count < 2 ^ 32 - 1 }
        requires held { IsHeld (N.entries entries.now) held scratch.old }
        requires room { HasRoom (N.entries entries.now) scratch.old }
        requires size { length to.old ≡ self.now.usable }
        ensures tree { (usable : ℕ) (kind : Kind) → IsTreePlan usable kind (N.entries entries.now) self.now
            → to.new ≡ slice_index_or (tree_pages usable kind
            (number_of numbers.now.start numbers.now.lock) (N.entries entries.now)) k [] }
        ensures schema { (usable : ℕ) → IsSchemaPlan usable (N.entries entries.now) self.now
            → to.new ≡ slice_index_or (schema_pages (take 100 to.old) usable
            (number_of numbers.now.start numbers.now.lock) (N.entries entries.now)) k [] }
        ensures held { IsHeld (N.entries entries.now) result scratch.new }
    {
        match self.first_page {
            None => self.write_below(k, numbers, entries, held, scratch, to),
            Some(page) => {
                if 0 < k && k <= page.index {
                    self.write_below(k - 1, numbers, entries, held, scratch, to)
                } else {
                    self.write_first(page, k, numbers, entries, held, scratch, to)
                }
            }
        }
    }

    // Fills `to` with page 1, or with one of its overflow pages.
    fn write_first<N: Entries>(
        &self,
        page: PagePlan,
        k: u32,
        numbers: &Numbering,
        entries: &N,
        held: Option<u32>,
        scratch: &mut [u8],
        to: &mut [u8],
    ) -> Option<u32>
        requires plan { IsSchemaPlan self.now.usable (N.entries entries.now) self.now }
        requires page { self.now.first_page ≡ Some page }
        requires there { k < self.now.count }
        requires first { 0 < k → page.index < k }
        requires some { 1 ≤ numbers.now.start }
        requires numbers { numbers.now.start + self.now.count < 2 ^ 32 - 1 }
        requires held { IsHeld (N.entries entries.now) held scratch.old }
        requires room { HasRoom (N.entries entries.now) scratch.old }
        requires size { length to.old ≡ self.now.usable }
        ensures bytes { to.new ≡ slice_index_or (schema_pages (take 100 to.old) self.now.usable
            (number_of numbers.now.start numbers.now.lock) (N.entries entries.now)) k [] }
        ensures held { IsHeld (N.entries entries.now) result scratch.new }
    {
        let sheet = Sheet {
            usable: self.usable,
            kind: self.kind,
            leaf: self.pages.len() == 0,
            page,
            pages: self.pages.as_slice(),
            entries,
        };
        if k == 0 {
            sheet.write(numbers, page.index, held, scratch, 100, to)
        } else {
            sheet.write_over(numbers, page.index, k - 1, held, scratch, to)
        }
    }

    // The last page of the plan whose index is at most `k`.
    fn find(&self, k: u32) -> usize
        requires some { 0 < length self.now.pages.items }
        requires low { (plan_at self.now.pages.items 0).index ≤ k }
        ensures there { result < length self.now.pages.items }
        ensures low { (plan_at self.now.pages.items result).index ≤ k }
        ensures high { result + 1 < length self.now.pages.items
            → k < (plan_at self.now.pages.items (result + 1)).index }
    {
        let mut low = 0;
        let mut high = self.pages.len();
        'halves: while high - low > 1 {
            let middle = low + (high - low) / 2;
            if self.pages[middle].index <= k {
                low = middle;
            } else {
                high = middle;
            }
        }
        low
    }

    // Fills `to` with the page of index `k` among those that are not page 1.
    fn write_below<N: Entries>(
        &self,
        k: u32,
        numbers: &Numbering,
        entries: &N,
        held: Option<u32>,
        scratch: &mut [u8],
        to: &mut [u8],
    ) -> Option<u32>
        requires plan { IsWritable self.now.usable self.now.kind (N.entries entries.now) self.now.leaves
            self.now.pages.items }
        requires there { k < pages_in self.now.usable self.now.kind (shown self.now.kind
            (N.entries entries.now) self.now.leaves self.now.pages.items) }
        requires some { 1 ≤ numbers.now.start }
        requires numbers { numbers.now.start + pages_in self.now.usable self.now.kind (shown
            self.now.kind (N.entries entries.now) self.now.leaves self.now.pages.items) < 2 ^ 32 - 1 }
        requires held { IsHeld (N.entries entries.now) held scratch.old }
        requires room { HasRoom (N.entries entries.now) scratch.old }
        requires size { length to.old ≡ self.now.usable }
        ensures bytes { to.new ≡ slice_index_or (pages_from self.now.usable self.now.kind
            (number_of numbers.now.start numbers.now.lock) 0 (shown self.now.kind
            (N.entries entries.now) self.now.leaves self.now.pages.items)) k [] }
        ensures held { IsHeld (N.entries entries.now) result scratch.new }
    {
        let j = self.find(k);
        let page = self.pages[j];
        let sheet = Sheet {
            usable: self.usable,
            kind: self.kind,
            leaf: j < self.leaves as usize,
            page,
            pages: self.pages.as_slice(),
            entries,
        };
        if k == page.index {
            sheet.write(numbers, page.index + 1, held, scratch, 0, to)
        } else {
            sheet.write_over(numbers, page.index + 1, k, held, scratch, to)
        }
    }
}
