//! A page of a plan, and the bytes of it and of its overflow pages.

ghost use Rattle.std.specs.Prelude.{◌≡◌, ◌≤◌, ◌<◌, ◌+◌, ◌-◌, ◌*◌, ◌==◌, ◌++◌, ◌^◌, if◌then◌else◌, ℕ, [], Some, length, map, take, drop, replicate, slice_index_or};
ghost use Rattle.byteorder.specs.Endian.{big_bytes};
ghost use Rattle.cell_reader.specs.Shape.{header_len};
ghost use Rattle.tree_writer.specs.Cells.{chains_from, chain_pages, need_of, over_count, over_page, overs, overs as overs_of};
ghost use Rattle.tree_writer.specs.Entry.{entry_at, no_item};
ghost use Rattle.tree_writer.specs.Layout.{cells_for, right_part, sheet_page};
ghost use Rattle.tree_writer.specs.Levels.{needs, room_in};
ghost use Rattle.tree_writer.specs.Numbers.{number_of};
ghost use Rattle.tree_writer.specs.Page.{header, pointers, stack, type_byte};
ghost use Rattle.tree_writer.specs.Plan.{part_of, size_item, slot_for};
ghost use Rattle.tree_writer.specs.Planned.{AreThere, HasNumbers, HasRoom, IsChain, IsHeld, IsReady, items_of, right_index, sheet_for};

use crate::bytes::{put, put_u8, put_u16, put_u32, put_zeros};
use crate::cells::{Cell, put_cell};
use crate::entries::Entries;
use crate::numbering::Numbering;
use crate::plans::PagePlan;
use crate::sizes::{Size, payload_size, raw_of, size_of};
use cell_reader::{Kind, local_size};

/// A page of a plan, with what its cells are made of.
#[derive(Drop)]
pub struct Sheet<'a, N: Entries> {
    pub usable: u32,
    pub kind: Kind,
    pub leaf: bool,
    pub page: PagePlan,
    pub pages: &'a [PagePlan],
    pub entries: &'a N,
}

/// The index of a cell's child, 0 on a leaf, and the number of its entry.
#[derive(Clone, Copy, Debug)]
pub struct Place {
    pub child: u32,
    pub entry: u32,
}

/// The overflow pages of an entry: the index of the first one, and how many there are.
#[derive(Clone, Copy, Debug)]
pub struct Chain {
    pub entry: u32,
    pub first: u32,
    pub count: u32,
}

// Puts the payload of entry `i` to the front of `scratch`, where it is not there already.
fn fetch<N: Entries>(entries: &N, i: u32, held: Option<u32>, scratch: &mut [u8])
    requires there { i < length (N.entries entries.now) }
    requires held { IsHeld (N.entries entries.now) held scratch.old }
    requires room { HasRoom (N.entries entries.now) scratch.old }
    ensures held { IsHeld (N.entries entries.now) (Some i) scratch.new }
{
    match held {
        Some(entry) if entry == i => {}
        _ => {
            let len = entries.payload_len(i) as usize;
            entries.payload(i, &mut scratch[..len]);
        }
    }
}

// The first byte of the header of a page.
fn type_byte(kind: Kind, leaf: bool) -> u8
    ensures { result ≡ type_byte kind leaf }
{
    match kind {
        Kind::Index if leaf => 10,
        Kind::Index => 2,
        Kind::Table if leaf => 13,
        Kind::Table => 5,
    }
}

impl<N: Entries> Sheet<'_, N> {
    // Where cell `i` comes from.
    fn place(&self, i: u32) -> Place
        requires some { i < self.now.page.cells }
        requires there { AreThere (N.entries self.now.entries.now) self.now.pages.now self.now.leaf
            self.now.page }
        ensures entry { result.entry < length (N.entries self.now.entries.now) }
        ensures item { slice_index_or (items_of self.now.kind (N.entries self.now.entries.now)
            self.now.pages.now self.now.leaf self.now.page) i no_item
            ≡ record {
              child = result.child;
              entry = part_of self.now.kind self.now.leaf
                  (entry_at (N.entries self.now.entries.now) result.entry);
            } }
    {
        let _count = self.entries.count();
        if self.leaf {
            Place {
                child: 0,
                entry: self.page.first + i,
            }
        } else {
            let below = self.pages[self.page.first as usize + i as usize];
            Place {
                child: below.index,
                entry: below.behind,
            }
        }
    }

    // What cell `i` takes.
    fn size(&self, i: u32) -> Size
        requires some { i < self.now.page.cells }
        requires ready { IsReady self.now.usable self.now.kind (N.entries self.now.entries.now)
            self.now.pages.now self.now.leaf self.now.page }
        ensures { result ≡ size_item self.now.usable self.now.kind self.now.leaf
            (slice_index_or (items_of self.now.kind (N.entries self.now.entries.now)
            self.now.pages.now self.now.leaf self.now.page) i no_item) }
    {
        size_of(
            self.usable,
            self.kind,
            self.leaf,
            self.entries,
            self.place(i).entry,
        )
    }

    // What all cells take.
    fn sizes(&self) -> Size
        requires ready { IsReady self.now.usable self.now.kind (N.entries self.now.entries.now)
            self.now.pages.now self.now.leaf self.now.page }
        ensures need { result.need ≡ needs self.now.usable self.now.kind self.now.leaf
            (items_of self.now.kind (N.entries self.now.entries.now) self.now.pages.now
            self.now.leaf self.now.page) }
        ensures overs { result.overs ≡ overs self.now.usable self.now.kind
            (items_of self.now.kind (N.entries self.now.entries.now) self.now.pages.now
            self.now.leaf self.now.page) }
    {
        let mut all = Size { need: 0, overs: 0 };
        for i in 0..self.page.cells {
            let size = self.size(i);
            all.need += size.need;
            all.overs += size.overs;
        }
        all
    }

    // Puts the pointers of the cells, which stand from the end of the page down.
    fn put_pointers(&self, to: &mut [u8], at: usize) -> usize
        requires ready { IsReady self.now.usable self.now.kind (N.entries self.now.entries.now)
            self.now.pages.now self.now.leaf self.now.page }
        requires room { at + 2 * self.now.page.cells ≤ length to.old }
        ensures end { result ≡ at + 2 * self.now.page.cells }
        ensures front { take result to.new ≡ take at to.old ++ pointers self.now.usable
            (map (slot_for self.now.usable self.now.kind self.now.leaf)
            (items_of self.now.kind (N.entries self.now.entries.now) self.now.pages.now
            self.now.leaf self.now.page)) }
    {
        let mut at = at;
        let mut end = self.usable;
        for i in 0..self.page.cells {
            end -= self.size(i).need - 2;
            at = put_u16(to, at, end as u16);
        }
        at
    }

    // Puts the cells, of which the first stands at the end. Their overflow pages begin at index `first`.
    // Gives the entry whose payload is held then.
    fn put_cells(
        &self,
        numbers: &Numbering,
        first: u32,
        overs: u32,
        held: Option<u32>,
        scratch: &mut [u8],
        to: &mut [u8],
        at: usize,
    ) -> Option<u32>
        requires ready { IsReady self.now.usable self.now.kind (N.entries self.now.entries.now)
            self.now.pages.now self.now.leaf self.now.page }
        requires overs { overs ≡ overs_of self.now.usable self.now.kind (items_of self.now.kind
            (N.entries self.now.entries.now) self.now.pages.now self.now.leaf self.now.page) }
        requires numbers { HasNumbers numbers.now.start (first + overs) (sheet_for self.now.kind
            (N.entries self.now.entries.now) self.now.pages.now self.now.leaf self.now.page) }
        requires held { IsHeld (N.entries self.now.entries.now) held scratch.old }
        requires room { HasRoom (N.entries self.now.entries.now) scratch.old }
        requires page { at + length (stack (cells_for self.now.usable self.now.kind self.now.leaf
            (number_of numbers.now.start numbers.now.lock) first (items_of self.now.kind
            (N.entries self.now.entries.now) self.now.pages.now self.now.leaf self.now.page)))
            ≡ length to.old }
        ensures held { IsHeld (N.entries self.now.entries.now) result scratch.new }
        ensures bytes { to.new ≡ take at to.old ++ stack (cells_for self.now.usable self.now.kind
            self.now.leaf (number_of numbers.now.start numbers.now.lock) first (items_of
            self.now.kind (N.entries self.now.entries.now) self.now.pages.now self.now.leaf
            self.now.page)) }
    {
        let mut at = at;
        let mut next = first + overs;
        let mut held = held;
        let mut i = self.page.cells;
        'cells: while i > 0 {
            i -= 1;
            let place = self.place(i);
            next -= self.size(i).overs;
            let cell = Cell {
                child: numbers.number(place.child),
                rowid: raw_of(self.entries.rowid(place.entry)),
                next: numbers.number(next),
            };
            fetch(self.entries, place.entry, held, scratch);
            held = Some(place.entry);
            let len = payload_size(self.kind, self.leaf, self.entries, place.entry) as usize;
            let body = &scratch[..len];
            at = put_cell(to, at, self.kind, self.leaf, self.usable, cell, body);
        }
        held
    }

    // Puts the header of the page, with the lowest byte of its cells.
    fn put_header(&self, numbers: &Numbering, content: u32, to: &mut [u8], at: usize) -> usize
        requires there { AreThere (N.entries self.now.entries.now) self.now.pages.now self.now.leaf
            self.now.page }
        requires few { self.now.page.cells < 65536 }
        requires some { 1 ≤ numbers.now.start }
        requires right { numbers.now.start + right_index self.now.pages.now self.now.leaf
            self.now.page < 2 ^ 32 - 1 }
        requires room { at + header_len self.now.leaf ≤ length to.old }
        ensures end { result ≡ at + header_len self.now.leaf }
        ensures front { take result to.new ≡ take at to.old
            ++ header (type_byte self.now.kind self.now.leaf) self.now.page.cells content
            (right_part self.now.leaf (number_of numbers.now.start numbers.now.lock)
            (right_index self.now.pages.now self.now.leaf self.now.page)) }
    {
        let kind = put_u8(to, at, type_byte(self.kind, self.leaf));
        let freeblock = put_u16(to, kind, 0);
        let cells = put_u16(to, freeblock, self.page.cells as u16);
        let start = put_u16(to, cells, (content % 65536) as u16);
        let fragmented = put_u8(to, start, 0);
        if self.leaf {
            fragmented
        } else {
            let last = self.pages[self.page.first as usize + self.page.cells as usize];
            put_u32(to, fragmented, numbers.number(last.index))
        }
    }

    /// Fills `to` with the page, behind the first `front` bytes, where its overflow pages begin at
    /// index `first`. Gives the entry whose payload is held then.
    pub(crate) fn write(
        &self,
        numbers: &Numbering,
        first: u32,
        held: Option<u32>,
        scratch: &mut [u8],
        front: usize,
        to: &mut [u8],
    ) -> Option<u32>
        requires ready { IsReady self.now.usable self.now.kind (N.entries self.now.entries.now)
            self.now.pages.now self.now.leaf self.now.page }
        requires numbers { HasNumbers numbers.now.start (first + overs self.now.usable
            self.now.kind (items_of self.now.kind (N.entries self.now.entries.now)
            self.now.pages.now self.now.leaf self.now.page)) (sheet_for self.now.kind
            (N.entries self.now.entries.now) self.now.pages.now self.now.leaf self.now.page) }
        requires held { IsHeld (N.entries self.now.entries.now) held scratch.old }
        requires room { HasRoom (N.entries self.now.entries.now) scratch.old }
        requires size { length to.old ≡ self.now.usable }
        requires fits { front + needs self.now.usable self.now.kind self.now.leaf (items_of
            self.now.kind (N.entries self.now.entries.now) self.now.pages.now self.now.leaf
            self.now.page) ≤ room_in self.now.usable self.now.leaf }
        ensures held { IsHeld (N.entries self.now.entries.now) result scratch.new }
        ensures bytes { to.new ≡ sheet_page (take front to.old) self.now.usable self.now.kind
            (number_of numbers.now.start numbers.now.lock) first (sheet_for self.now.kind
            (N.entries self.now.entries.now) self.now.pages.now self.now.leaf self.now.page) }
    {
        let sizes = self.sizes();
        let content = self.usable + 2 * self.page.cells - sizes.need;
        let header = self.put_header(numbers, content, to, front);
        let top = self.put_pointers(to, header);
        let bottom = put_zeros(to, top, content as usize - top);
        self.put_cells(numbers, first, sizes.overs, held, scratch, to, bottom)
    }

    // The overflow pages among which index `k` is, where the first one of the page has index `first`.
    fn chain(&self, first: u32, k: u32) -> Chain
        requires ready { IsReady self.now.usable self.now.kind (N.entries self.now.entries.now)
            self.now.pages.now self.now.leaf self.now.page }
        requires low { first ≤ k }
        requires high { k < first + overs self.now.usable self.now.kind (items_of self.now.kind
            (N.entries self.now.entries.now) self.now.pages.now self.now.leaf self.now.page) }
        requires end { first + overs self.now.usable self.now.kind (items_of self.now.kind
            (N.entries self.now.entries.now) self.now.pages.now self.now.leaf self.now.page)
            < 2 ^ 32 }
        ensures chain { IsChain self.now.usable self.now.kind (N.entries self.now.entries.now) k
            result }
        ensures end { result.first + result.count ≤ first + overs self.now.usable self.now.kind
            (items_of self.now.kind (N.entries self.now.entries.now) self.now.pages.now
            self.now.leaf self.now.page) }
        ensures pages { (number : ℕ → ℕ) → slice_index_or (chains_from self.now.usable
            self.now.kind number first (items_of self.now.kind (N.entries self.now.entries.now)
            self.now.pages.now self.now.leaf self.now.page)) (k - first) []
            ≡ slice_index_or (chain_pages self.now.usable self.now.kind number result.first
            (entry_at (N.entries self.now.entries.now) result.entry)) (k - result.first) [] }
    {
        let mut at = first;
        for i in 0..self.page.cells {
            let count = self.size(i).overs;
            if k < at + count {
                return Chain {
                    entry: self.place(i).entry,
                    first: at,
                    count,
                };
            }
            at += count;
        }
        unreachable!()
    }

    /// Fills `to` with the overflow page of index `k`, where the first one of the page has index
    /// `first`. Gives the entry whose payload is held then.
    pub(crate) fn write_over(
        &self,
        numbers: &Numbering,
        first: u32,
        k: u32,
        held: Option<u32>,
        scratch: &mut [u8],
        to: &mut [u8],
    ) -> Option<u32>
        requires ready { IsReady self.now.usable self.now.kind (N.entries self.now.entries.now)
            self.now.pages.now self.now.leaf self.now.page }
        requires low { first ≤ k }
        requires high { k < first + overs self.now.usable self.now.kind (items_of self.now.kind
            (N.entries self.now.entries.now) self.now.pages.now self.now.leaf self.now.page) }
        requires some { 1 ≤ numbers.now.start }
        requires numbers { numbers.now.start + (first + overs self.now.usable self.now.kind
            (items_of self.now.kind (N.entries self.now.entries.now) self.now.pages.now
            self.now.leaf self.now.page)) < 2 ^ 32 - 1 }
        requires held { IsHeld (N.entries self.now.entries.now) held scratch.old }
        requires room { HasRoom (N.entries self.now.entries.now) scratch.old }
        requires size { length to.old ≡ self.now.usable }
        ensures held { IsHeld (N.entries self.now.entries.now) result scratch.new }
        ensures bytes { to.new ≡ slice_index_or (chains_from self.now.usable self.now.kind
            (number_of numbers.now.start numbers.now.lock) first (items_of self.now.kind
            (N.entries self.now.entries.now) self.now.pages.now self.now.leaf self.now.page))
            (k - first) [] }
    {
        let chain = self.chain(first, k);
        fetch(self.entries, chain.entry, held, scratch);
        let len = self.entries.payload_len(chain.entry) as usize;
        let kept = local_size(self.kind, self.usable, len as u64) as usize;
        let place = k - chain.first;
        let room = self.usable as usize - 4;
        let from = kept + place as usize * room;
        let content = part_of(&scratch[..len], from, room);
        put_over(
            to,
            next_number(numbers, k, chain.count - 1 - place),
            content,
        );
        Some(chain.entry)
    }
}

// The bytes from a place on, at most `most` of them.
fn part_of(bytes: &[u8], from: usize, most: usize) -> &[u8]
    requires { from ≤ length bytes.now }
    ensures { result.now ≡ take most (drop from bytes.now) }
{
    let rest = &bytes[from..];
    if rest.len() < most {
        rest
    } else {
        &rest[..most]
    }
}

// The number of the page behind that of index `k`, or 0 where none is left.
fn next_number(numbers: &Numbering, k: u32, left: u32) -> u32
    requires some { 1 ≤ numbers.now.start }
    requires most { 0 < left → numbers.now.start + k + 1 < 2 ^ 32 - 1 }
    ensures { result
        ≡ (if left == 0 then 0 else number_of numbers.now.start numbers.now.lock (k + 1)) }
{
    if left == 0 { 0 } else { numbers.number(k + 1) }
}

// Fills `to` with an overflow page: the number of the next one, its content, and zeros.
fn put_over(to: &mut [u8], next: u32, content: &[u8])
    requires { 4 + length content.now ≤ length to.old }
    ensures { to.new ≡ big_bytes 4 next ++ (content.now ++ replicate (length to.old - 4 - length content.now) 0) }
{
    let number = put_u32(to, 0, next);
    let end = put(to, number, content);
    let rest = to.len() - end;
    put_zeros(to, end, rest);
}
