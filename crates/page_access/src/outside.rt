//! The outside: where bytes are read from and written to.
ghost use Rattle.std.specs.Prelude.{◌≡◌, ◌≤◌, ℕ, List, length, Option, Some, Bool, true, false, string_bytes, IfOk, IfSome, OnOk, OnErr};
ghost use Rattle.page_access.specs.declared.outside.ReadFault.TheVariants.{Source, Memory};
ghost use Rattle.page_access.specs.Outside.{HasCause, OneMore, KeepsSource, ReadsAt, Writes};

use std::alloc::{AllocError, AllocFailed};
use thiserror::Error;

/// A call of the outside failed.
#[derive(Clone, Copy, Debug, PartialEq, Eq)]
pub struct Failed;

/// Why bytes could not be read.
#[derive(Clone, Copy, Debug, PartialEq, Eq, Error)]
pub enum ReadFault {
    /// A call of the source failed.
    #[error("the source could not be read")]
    Source,
    /// There was no memory.
    #[error("out of memory")]
    Memory,
}

impl From<Failed> for ReadFault {
    ghost from_gives = { λ _ e. e ≡ Source };

    fn from(_: Failed) -> Self {
        ReadFault::Source
    }
}

impl From<AllocError> for ReadFault {
    ghost from_gives = { λ _ e. e ≡ Memory };

    fn from(_: AllocError) -> Self {
        ReadFault::Memory
    }
}

impl<T: Drop> From<AllocFailed<T>> for ReadFault {
    ghost from_gives = { λ _ e. e ≡ Memory };

    fn from(_: AllocFailed<T>) -> Self {
        ReadFault::Memory
    }
}

/// What bytes are read from.
pub trait Source {
    /// All its bytes, where it tells them.
    ghost bytes: { Self → Option (List ℕ) };

    /// The attached name, if there is one.
    ghost attached: { Self → Option (List ℕ) };

    /// How often a call has failed. At 2^64 - 1 it stays there.
    ghost faults: { Self → ℕ };

    /// How often bytes have been read. At 2^64 - 1 it stays there.
    ghost reads: { Self → ℕ };

    /// Takes the bytes of this name.
    fn attach(&mut self, name: String) -> Result<(), Failed>
        ensures attached { OnOk result (attached self.new ≡ Some (string_bytes name)) }
        ensures cause { HasCause (faults self.old) (faults self.new) result }
        ensures bytes { bytes self.new ≡ bytes self.old }
        ensures err { OnErr result (attached self.new ≡ attached self.old) }
        ensures reads { reads self.new ≡ reads self.old };

    /// The number of bytes.
    fn length(&mut self) -> Result<u64, Failed>
        ensures value { IfOk result (λ n. IfSome (bytes self.old) (λ all. n ≡ length all)) }
        ensures cause { HasCause (faults self.old) (faults self.new) result }
        ensures kept { KeepsSource bytes attached faults reads self.old self.new }
        ensures reads { reads self.new ≡ reads self.old };

    /// Reads bytes from `at` on to the front of `to`, and gives how many; 0 at or past the end.
    /// A source that does not tell its bytes may give fewer than there are.
    fn read_at(&mut self, at: u64, to: &mut [u8]) -> Result<usize, Failed>
        ensures value { IfOk result (λ n. IfSome (bytes self.old)
            (λ all. ReadsAt all at n to.new)) }
        ensures cause { HasCause (faults self.old) (faults self.new) result }
        ensures kept { KeepsSource bytes attached faults reads self.old self.new }
        ensures room { IfOk result (λ n. n ≤ length to.new) }
        ensures reads { OneMore (reads self.old) (reads self.new) };
}

/// What bytes are put into, one piece behind the other.
pub trait Sink {
    /// All its bytes, where it tells them.
    ghost bytes: { Self → Option (List ℕ) };

    /// The created name, if there is one.
    ghost created: { Self → Option (List ℕ) };

    /// The last call finished it.
    ghost finished: { Self → Bool };

    /// How often a call has failed. At 2^64 - 1 it stays there.
    ghost faults: { Self → ℕ };

    /// Makes the target of this name.
    fn create(&mut self, name: String) -> Result<(), Failed>
        ensures created { OnOk result (created self.new ≡ Some (string_bytes name)) }
        ensures cause { HasCause (faults self.old) (faults self.new) result }
        ensures bytes { bytes self.new ≡ bytes self.old }
        ensures finished { finished self.new ≡ false };

    /// Puts the piece behind what is there. After an error a prefix of the piece is there.
    fn put(&mut self, piece: &[u8]) -> Result<(), Failed>
        ensures writes { Writes (bytes self.old) (bytes self.new)
            (faults self.old) (faults self.new) piece.now result }
        ensures created { created self.new ≡ created self.old }
        ensures finished { finished self.new ≡ false };

    /// Says that all was put.
    fn finish(&mut self) -> Result<(), Failed>
        ensures finished { OnOk result (finished self.new ≡ true) }
        ensures cause { HasCause (faults self.old) (faults self.new) result }
        ensures bytes { bytes self.new ≡ bytes self.old }
        ensures created { created self.new ≡ created self.old }
        ensures err { OnErr result (finished self.new ≡ false) };
}
