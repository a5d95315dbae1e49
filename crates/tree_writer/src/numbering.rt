//! Page numbers in a row.

ghost use Rattle.std.specs.Prelude.{◌≡◌, ◌≤◌, ◌<◌, ◌+◌, ◌-◌, ◌^◌};
ghost use Rattle.tree_writer.specs.Numbers.{number_of};

/// Page numbers from `start` on, without the number `lock` of the lock-byte page; `lock` is 0 where
/// the file has none (fileformat2.html, 1.3).
#[derive(Clone, Copy, Debug, PartialEq, Eq)]
pub struct Numbering {
    pub start: u32,
    pub lock: u32,
}

impl Numbering {
    /// The number with index `k`, counted from 0.
    pub fn number(&self, k: u32) -> u32
        requires some { 1 ≤ self.now.start }
        requires most { self.now.start + k < 2 ^ 32 - 1 }
        ensures { result ≡ number_of self.now.start self.now.lock k }
    {
        let number = self.start + k;
        if self.start <= self.lock && self.lock <= number {
            number + 1
        } else {
            number
        }
    }
}
