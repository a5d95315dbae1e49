//! How the lists of a page table are stored: links by page number.
ghost use Rattle.std.specs.Prelude.{◌≡◌, ◌≢◌, ◌+◌, ◌-◌, ◌^◌, ◌<◌, ◌≤◌, [], ◌∷◌, length, map, replicate, IfOk};
ghost use Rattle.std.specs.List.{range_with_len};
ghost use Rattle.page_lists.specs.Rings.{ends_at, ends_of_row, joined, link_at, link_in_row, put_in_last, taken_out, with_after, with_before};

use std::alloc::{AllocError, Global};
use std::marker::Model;

/// Where a page stands: the number of its list, and the pages before and after it there; 0 where there is none.
#[derive(Clone, Copy)]
pub(crate) struct Link {
    pub(crate) list: u32,
    pub(crate) before: u32,
    pub(crate) after: u32,
}

/// The first and the last page of a list, 0 where it is empty, and its number of pages.
#[derive(Clone, Copy)]
pub(crate) struct Ends {
    pub(crate) first: u32,
    pub(crate) last: u32,
    pub(crate) len: u32,
}

/// The link of each page, where that at 0 means nothing, and the ends of each list.
#[derive(Drop)]
pub(crate) struct Rings {
    links: Vec<Link>,
    ends: Vec<Ends>,
}

impl Model for Rings {
    ghost use Rattle.page_lists.specs.Rings.{State};

    ghost Value = { State };

    ghost view = { λ s. record { links = s.links.items; ends = s.ends.items } };
}

impl Rings {
    // All pages in the first list, rising, and the other lists empty.
    pub(crate) fn new(alloc: Global, pages: u32, lists: u32) -> Result<Rings, AllocError>
        requires some { 1 ≤ lists }
        requires small { pages < 2 ^ 32 - 1 }
        ensures links { IfOk result
            (λ r. r.links ≡ map (link_in_row pages) (range_with_len 0 (pages + 1))) }
        ensures ends { IfOk result
            (λ r. r.ends ≡ ends_of_row pages (lists - 1)) }
    {
        let links = row(alloc, pages)?;
        let empty = Ends {
            first: 0,
            last: 0,
            len: 0,
        };
        let mut ends = vec![in alloc; empty; lists as usize]?;
        ends[0] = Ends {
            first: pages.min(1),
            last: pages,
            len: pages,
        };
        Ok(Rings { links, ends })
    }

    // The link of a page.
    pub(crate) fn link(&self, page: u32) -> Link
        requires { page < length self.now.links }
        ensures { result ≡ link_at self.now page }
    {
        self.links[page as usize]
    }

    // The ends of a list.
    pub(crate) fn ends(&self, list: u32) -> Ends
        requires { list < length self.now.ends }
        ensures { result ≡ ends_at self.now list }
    {
        self.ends[list as usize]
    }

    // Makes page b the one after page a in the list; 0 stands for its end.
    fn set_after(&mut self, list: u32, a: u32, b: u32)
        requires page { a < length self.old.links }
        requires list { list < length self.old.ends }
        ensures value { self.new ≡ with_after list a b self.old }
        ensures links { length self.new.links ≡ length self.old.links }
        ensures ends { length self.new.ends ≡ length self.old.ends }
    {
        if a == 0 {
            self.ends[list as usize].first = b;
        } else {
            self.links[a as usize].after = b;
        }
    }

    // Makes page a the one before page b in the list; 0 stands for its end.
    fn set_before(&mut self, list: u32, b: u32, a: u32)
        requires page { b < length self.old.links }
        requires list { list < length self.old.ends }
        ensures value { self.new ≡ with_before list b a self.old }
        ensures links { length self.new.links ≡ length self.old.links }
        ensures ends { length self.new.ends ≡ length self.old.ends }
    {
        if b == 0 {
            self.ends[list as usize].last = a;
        } else {
            self.links[b as usize].before = a;
        }
    }

    // Makes pages a and b neighbours in the list; 0 stands for its end.
    fn join(&mut self, list: u32, a: u32, b: u32)
        requires first { a < length self.old.links }
        requires second { b < length self.old.links }
        requires list { list < length self.old.ends }
        ensures value { self.new ≡ joined list a b self.old }
        ensures links { length self.new.links ≡ length self.old.links }
        ensures ends { length self.new.ends ≡ length self.old.ends }
    {
        self.set_after(list, a, b);
        self.set_before(list, b, a);
    }

    // Takes the page out of its list.
    pub(crate) fn take_out(&mut self, page: u32)
        requires page { page < length self.old.links }
        requires list { (link_at self.old page).list < length self.old.ends }
        requires before { (link_at self.old page).before < length self.old.links }
        requires after { (link_at self.old page).after < length self.old.links }
        requires some { 1 ≤ (ends_at self.old (link_at self.old page).list).len }
        ensures value { self.new ≡ taken_out page (link_at self.old page).list self.old }
        ensures links { length self.new.links ≡ length self.old.links }
        ensures ends { length self.new.ends ≡ length self.old.ends }
    {
        let link = self.link(page);
        self.ends[link.list as usize].len -= 1;
        self.join(link.list, link.before, link.after);
    }

    // Makes the page, which is in no list, the last of this one.
    pub(crate) fn put_last(&mut self, page: u32, list: u32)
        requires page { page < length self.old.links }
        requires list { list < length self.old.ends }
        requires last { (ends_at self.old list).last < length self.old.links }
        requires few { (ends_at self.old list).len + 1 < 2 ^ 32 }
        ensures { self.new ≡ put_in_last page list self.old }
    {
        let last = self.ends[list as usize].last;
        self.ends[list as usize].len += 1;
        self.links[page as usize].list = list;
        self.join(list, last, page);
        self.join(list, page, 0);
    }
}

// The link of a page where the pages 1 to `pages` stand in the first list, rising.
fn link_in_row(pages: u32, page: u32) -> Link
    requires { pages < 2 ^ 32 - 1 }
    ensures { result ≡ link_in_row pages page }
{
    Link {
        list: 0,
        before: page.saturating_sub(1),
        after: if page < pages { page + 1 } else { 0 },
    }
}

// The links of these pages.
fn row(alloc: Global, pages: u32) -> Result<Vec<Link>, AllocError>
    requires { pages < 2 ^ 32 - 1 }
    ensures { IfOk result (λ v. v.items ≡ map (link_in_row pages) (range_with_len 0 (pages + 1))) }
{
    let mut links = Vec::with_capacity(alloc, pages as usize + 1)?;
    for page in 0..pages + 1 {
        links.push(link_in_row(pages, page))?;
    }
    Ok(links)
}
