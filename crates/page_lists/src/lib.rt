//! The uses of a file's pages: numbered lists which together hold each page exactly once.
//!
//! List 0 holds the pages that have no use yet.
#![tactic(auto)]

ghost use Rattle.std.specs.Prelude.{◌≡◌, ◌-◌, ◌^◌, ◌<◌, ◌≤◌, IfOk, IsTrue, length, slice_get};
ghost use Rattle.page_lists.specs.Lists.{after, is_in};
ghost use Rattle.page_lists.specs.Rings.{some_page};
ghost use Rattle.page_lists.specs.Table.{IsPartition, fresh, list_at, moved, owner, unused};

mod rings;

use rings::Rings;
use std::alloc::{AllocError, Global};
use std::marker::Model;

/// The pages of a file, spread over numbered lists that keep their order.
#[derive(Drop)]
pub struct PageTable {
    pages: u32,
    rings: Rings,
}

impl Model for PageTable {
    ghost use Rattle.page_lists.specs.Table.{Table};

    ghost Value = { Table };

    ghost use Rattle.page_lists.specs.Stored.{IsSound, table_of};

    ghost view = { table_of };

    ghost invariant = { IsSound };
}

impl PageTable {
    /// A table of the pages 1 to `pages` and of `lists` lists: list 0 holds all pages, rising.
    pub fn new(alloc: Global, pages: u32, lists: u32) -> Result<PageTable, AllocError>
        requires some { 1 ≤ lists }
        requires few { lists ≤ 16 }
        requires small { pages < 2 ^ 32 - 1 }
        ensures value { IfOk result (λ t. t ≡ fresh pages (lists - 1)) }
        ensures partition { IfOk result (λ t. IsPartition t) }
    {
        let rings = Rings::new(alloc, pages, lists)?;
        Ok(PageTable { pages, rings })
    }

    /// The number of pages.
    pub fn pages(&self) -> u32
        ensures value { result ≡ self.now.pages }
        ensures partition { IsPartition self.now }
    {
        self.pages
    }

    /// The list in which the page is.
    pub fn list_of(&self, page: u32) -> u32
        requires low { 1 ≤ page }
        requires high { page ≤ self.now.pages }
        ensures value { result ≡ owner page self.now.lists }
        ensures partition { IsPartition self.now }
    {
        self.rings.link(page).list
    }

    /// Whether the number is that of an unused page: one of 1 to n that is in list 0.
    pub fn is_unused(&self, page: u32) -> bool
        ensures value { result ≡ is_in page (unused self.now) }
        ensures low { IsTrue result → 1 ≤ page }
        ensures high { IsTrue result → page ≤ self.now.pages }
    {
        if page > self.pages {
            return false;
        }
        if page == 0 {
            return false;
        }
        self.list_of(page) == 0
    }

    /// Takes the page out of its list and makes it the last of `list`. All else stays in order.
    pub fn move_to_back(&mut self, page: u32, list: u32)
        requires low { 1 ≤ page }
        requires high { page ≤ self.old.pages }
        requires list { list < length self.old.lists }
        ensures value { self.new ≡ moved page list self.old }
        ensures partition { IsPartition self.new }
    {
        self.rings.take_out(page);
        self.rings.put_last(page, list);
    }

    /// The first page of the list, or `None` where the list is empty.
    pub fn first(&self, list: u32) -> Option<u32>
        requires { list < length self.now.lists }
        ensures { result ≡ slice_get (list_at list self.now.lists) 0 }
    {
        page_or_none(self.rings.ends(list).first)
    }

    /// The page after this one in its list, or `None` where it is the last.
    pub fn next(&self, page: u32) -> Option<u32>
        requires low { 1 ≤ page }
        requires high { page ≤ self.now.pages }
        ensures { result ≡ after page (list_at (owner page self.now.lists) self.now.lists) }
    {
        page_or_none(self.rings.link(page).after)
    }

    /// The number of pages of the list.
    pub fn len(&self, list: u32) -> u32
        requires { list < length self.now.lists }
        ensures { result ≡ length (list_at list self.now.lists) }
    {
        self.rings.ends(list).len
    }
}

// The page, where its number is not 0.
fn page_or_none(page: u32) -> Option<u32>
    ensures { result ≡ some_page page }
{
    if page == 0 { None } else { Some(page) }
}

#[cfg(test)]
mod tests;
