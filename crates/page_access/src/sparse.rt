//! A source in memory that holds few of its pages.
ghost use Rattle.std.specs.Prelude.{◌≡◌, ◌+◌, ◌^◌, ◌<◌, ◌≤◌, ◌↔◌, ℕ, List, length, min, All, Option, Some, None, IsOk, IfOk, string_bytes, slice_index};
ghost use Rattle.page_access.specs.Outside.{ReadsAt};
ghost use Rattle.page_access.specs.Memory.{counted, page_byte, sparse_byte, sparse_bytes};

use crate::sources::counted;
use crate::{Failed, Source};
use std::marker::Model;

/// A source of so many bytes that holds some pages, with their numbers from 1; its other bytes are
/// zeros. No call fails.
#[derive(Drop)]
pub struct SparseSource {
    len: u64,
    page_size: u32,
    pages: Vec<(u32, Vec<u8>)>,
    name: Option<String>,
    reads: u64,
}

impl Model for SparseSource {
    ghost use Rattle.std.specs.Prelude.{◌≡◌, ◌≤◌, All, string_bytes, length};
    ghost use Rattle.std.specs.Option.{option_map};
    ghost use Rattle.page_access.specs.Memory.{SparseState};

    ghost Value = { SparseState };

    ghost view = { λ s. record {
      len = s.len;
      page_size = s.page_size;
      pages = s.pages.items;
      name = option_map string_bytes s.name;
      reads = s.reads;
    } };

    ghost invariant = { λ s. (1 ≤ s.page_size)
        × All (λ page. length page.1.items ≡ s.page_size) s.pages.items };
}

impl SparseSource {
    ghost use Rattle.page_access.specs.Memory.{sparse_source};

    /// A source of `len` bytes with these pages, of `page_size` bytes each. Of two pages with
    /// one number the first counts.
    pub fn new(len: u64, page_size: u32, pages: Vec<(u32, Vec<u8>)>) -> SparseSource
        requires size_least { 1 ≤ page_size }
        requires sizes { All (λ page. length page.1.items ≡ page_size) pages.items }
        ensures { result ≡ sparse_source len page_size pages.items }
    {
        SparseSource {
            len,
            page_size,
            pages,
            name: None,
            reads: 0,
        }
    }

    /// The number of calls of `read_at`.
    pub fn reads(&self) -> u64
        ensures { result ≡ self.now.reads }
    {
        self.reads
    }
}

impl Source for SparseSource {
    ghost bytes = { λ s. Some (sparse_bytes s.page_size s.pages s.len) };

    ghost attached = { λ s. s.name };

    ghost faults = { λ _. 0 };

    ghost reads = { λ s. s.reads };

    fn attach(&mut self, name: String) -> Result<(), Failed>
        ensures succeeds { IsOk result }
        ensures state { self.new ≡ record self.old { name = Some (string_bytes name) } }
    {
        self.name = Some(name);
        Ok(())
    }

    fn length(&mut self) -> Result<u64, Failed>
        ensures succeeds { IsOk result }
        ensures value { let s = self.old in
            IfOk result (λ n. n ≡ length (sparse_bytes s.page_size s.pages s.len)) }
        ensures state { self.new ≡ self.old }
    {
        Ok(self.len)
    }

    fn read_at(&mut self, at: u64, to: &mut [u8]) -> Result<usize, Failed>
        ensures succeeds { IsOk result }
        ensures value { let s = self.old in
            IfOk result (λ n. ReadsAt (sparse_bytes s.page_size s.pages s.len) at n to.new) }
        ensures state { self.new ≡ record self.old { reads = counted self.old.reads } }
    {
        self.reads = counted(self.reads);
        Ok(read_sparse(&self.pages, self.page_size, self.len, at, to))
    }
}

// Reads bytes from `at` on, as far as there is room, and gives how many.
fn read_sparse(pages: &[(u32, Vec<u8>)], page_size: u32, len: u64, at: u64, to: &mut [u8]) -> usize
    requires size_least { 1 ≤ page_size }
    requires sizes { All (λ page. length page.1.items ≡ page_size) pages.now }
    ensures { ReadsAt (sparse_bytes page_size pages.now len) at result to.new }
{
    if at >= len {
        return 0;
    }
    let count = (to.len() as u64).min(len - at) as usize;
    copy_sparse(pages, page_size, at, &mut to[..count]);
    count
}

// Fills `to` with the bytes from `at` on, page by page.
fn copy_sparse(pages: &[(u32, Vec<u8>)], page_size: u32, at: u64, to: &mut [u8])
    requires size_least { 1 ≤ page_size }
    requires sizes { All (λ page. length page.1.items ≡ page_size) pages.now }
    requires end { at + length to.old < 2 ^ 64 }
    ensures { (k : ℕ) → k < length to.new →
        slice_index to.new k ≡ sparse_byte page_size pages.now (at + k) }
{
    let mut done = 0;
    while done < to.len() {
        let place = at + done as u64;
        let offset = (place % u64::from(page_size)) as usize;
        let count = (page_size as usize - offset).min(to.len() - done);
        let number = place / u64::from(page_size) + 1;
        copy_page(
            pages,
            page_size,
            number,
            offset,
            &mut to[done..done + count],
        );
        done += count;
    }
}

// Fills `to` with the bytes of a page from `offset` on.
fn copy_page(pages: &[(u32, Vec<u8>)], page_size: u32, number: u64, offset: usize, to: &mut [u8])
    requires sizes { All (λ page. length page.1.items ≡ page_size) pages.now }
    requires inside { offset + length to.old ≤ page_size }
    ensures { (k : ℕ) → k < length to.new →
        slice_index to.new k ≡ page_byte pages.now number (offset + k) }
{
    for page in pages {
        if u64::from(page.0) == number {
            let bytes = page.1.as_slice();
            to.copy_from_slice(&bytes[offset..offset + to.len()]);
            return;
        }
    }
    to.fill(0);
}
