//! Which bytes of a page stand in accepted cells.
ghost use Rattle.std.specs.Prelude.{◌≡◌, ◌≤◌, ◌<◌, Bool, List, IfOk, false, if◌then◌else◌, length, not, replicate};
ghost use Rattle.std.specs.List.{list_all};
ghost use Rattle.cell_reader.specs.Cover.{IsMarked, is_free, with_range};

use std::alloc::{AllocError, Global};
use std::marker::Model;

/// How many marks a block has.
const BLOCK: usize = 256;

/// Ranges of a page's bytes that share no byte, seen as a mark for each usable byte: whether it stands
/// in a held range.
#[derive(Drop)]
pub struct Accepted {
    marks: Vec<bool>,
    // Whether a block of marks may have one that is set. A block in which none is set is passed over
    // at once, so that no range costs much more than its length in blocks.
    blocks: Vec<bool>,
    // No mark below this one is set. The cells of most pages are laid from the end of the page down, so that
    // each stands below all before it.
    low: usize,
}

impl Model for Accepted {
    ghost Value = { List Bool };

    ghost view = { λ s. s.marks.items };

    ghost invariant = { λ s. IsMarked s.marks.items s.blocks.items s.low };
}

impl Accepted {
    /// No ranges, over that many usable bytes.
    pub fn new(alloc: Global, usable: u32) -> Result<Accepted, AllocError>
        ensures { IfOk result (λ a. a ≡ replicate usable false) }
    {
        Ok(Accepted {
            marks: vec![in alloc; false; usable as usize]?,
            blocks: vec![in alloc; false; usable as usize / BLOCK + 1]?,
            low: usable as usize,
        })
    }

    /// Gives up all ranges.
    pub fn clear(&mut self)
        ensures { self.new ≡ replicate (length self.old) false }
    {
        self.marks.as_mut_slice().fill(false);
        self.blocks.as_mut_slice().fill(false);
        self.low = self.marks.len();
    }

    /// Holds the range from `start` to before `end` where it shares no byte with a held range, and
    /// answers whether it does.
    pub fn offer(&mut self, start: u32, end: u32) -> bool
        requires some { start < end }
        requires within { end ≤ length self.old }
        ensures free { result ≡ is_free self.old start end }
        ensures held { self.new ≡ (if result then with_range self.old start end else self.old) }
        ensures len { length self.new ≡ length self.old }
    {
        let free = self.is_free(start as usize, end as usize);
        if free {
            self.hold(start as usize, end as usize);
        }
        free
    }

    fn is_free(&self, start: usize, end: usize) -> bool
        requires some { start < end }
        requires within { end ≤ length self.now }
        ensures { result ≡ is_free self.now start end }
    {
        if end <= self.low {
            return true;
        }
        let mut at = start;
        while at < end {
            let block = at / BLOCK;
            let stop = end.min((block + 1) * BLOCK);
            if self.blocks[block] && !is_clear(&self.marks[at..stop]) {
                return false;
            }
            at = stop;
        }
        true
    }

    fn hold(&mut self, start: usize, end: usize)
        requires some { start < end }
        requires within { end ≤ length self.old }
        ensures held { self.new ≡ with_range self.old start end }
        ensures len { length self.new ≡ length self.old }
    {
        set_range(self.marks.as_mut_slice(), start, end);
        set_range(
            self.blocks.as_mut_slice(),
            start / BLOCK,
            (end - 1) / BLOCK + 1,
        );
        self.low = self.low.min(start);
    }
}

// Whether no mark is set.
fn is_clear(marks: &[bool]) -> bool
    ensures { result ≡ list_all not marks.now }
{
    marks.iter().all(|mark| !*mark)
}

// Sets the marks from `start` to before `end`.
fn set_range(marks: &mut [bool], start: usize, end: usize)
    requires some { start < end }
    requires within { end ≤ length marks.old }
    ensures { marks.new ≡ with_range marks.old start end }
{
    marks[start..end].fill(true);
}
