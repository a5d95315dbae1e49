//! Sources in memory.
ghost use Rattle.std.specs.Prelude.{◌≡◌, ◌≤◌, ◌↔◌, ◌==◌, List, length, Option, Some, None, IsTrue, IsErr, IsOk, IfOk, IfSome, OnOk, OnErr, string_bytes};
ghost use Rattle.std.specs.List.{list_any};
ghost use Rattle.page_access.specs.Outside.{HasCause, OneMore, KeepsSource, ReadsAt};
ghost use Rattle.page_access.specs.Memory.{counted};

use crate::{Failed, Source};
use std::marker::Model;

/// A source of bytes in memory. Calls of `Source` are counted from 1, and exactly the named ones
/// fail. A number of calls, reads or faults that stands at 2^64 - 1 stays there.
#[derive(Drop)]
pub struct MemSource {
    bytes: Vec<u8>,
    fails: Vec<u64>,
    name: Option<String>,
    calls: u64,
    reads: u64,
    faults: u64,
}

impl Model for MemSource {
    ghost use Rattle.std.specs.Prelude.{string_bytes};
    ghost use Rattle.std.specs.Option.{option_map};
    ghost use Rattle.page_access.specs.Memory.{SourceState};

    ghost Value = { SourceState };

    ghost view = { λ s. record {
      bytes = s.bytes.items;
      fails = s.fails.items;
      name = option_map string_bytes s.name;
      calls = s.calls;
      reads = s.reads;
      faults = s.faults;
    } };
}

impl MemSource {
    ghost use Rattle.page_access.specs.Memory.{new_source, called, is_named};

    /// A source of these bytes, whose calls with these numbers fail.
    pub fn new(bytes: Vec<u8>, fails: Vec<u64>) -> MemSource
        ensures { result ≡ new_source bytes.items fails.items }
    {
        MemSource {
            bytes,
            fails,
            name: None,
            calls: 0,
            reads: 0,
            faults: 0,
        }
    }

    /// The number of calls of `read_at`.
    pub fn reads(&self) -> u64
        ensures { result ≡ self.now.reads }
    {
        self.reads
    }

    // Counts a call, and tells whether it is to fail.
    fn is_refused(&mut self) -> bool
        ensures named { result ≡ is_named self.old }
        ensures state { self.new ≡ called self.old }
    {
        self.calls = counted(self.calls);
        let is_named = is_among(&self.fails, self.calls);
        if is_named {
            self.faults = counted(self.faults);
        }
        is_named
    }
}

impl Source for MemSource {
    ghost use Rattle.page_access.specs.Memory.{called, is_named};

    ghost bytes = { λ s. Some s.bytes };

    ghost attached = { λ s. s.name };

    ghost faults = { λ s. s.faults };

    ghost reads = { λ s. s.reads };

    fn attach(&mut self, name: String) -> Result<(), Failed>
        ensures exactly { IsErr result ↔ IsTrue (is_named self.old) }
        ensures ok { OnOk result
            (self.new ≡ record (called self.old) { name = Some (string_bytes name) }) }
        ensures err { OnErr result (self.new ≡ called self.old) }
    {
        if self.is_refused() {
            return Err(Failed);
        }
        self.name = Some(name);
        Ok(())
    }

    fn length(&mut self) -> Result<u64, Failed>
        ensures exactly { IsErr result ↔ IsTrue (is_named self.old) }
        ensures value { IfOk result (λ n. n ≡ length self.old.bytes) }
        ensures state { self.new ≡ called self.old }
    {
        if self.is_refused() {
            return Err(Failed);
        }
        Ok(self.bytes.len() as u64)
    }

    fn read_at(&mut self, at: u64, to: &mut [u8]) -> Result<usize, Failed>
        ensures exactly { IsErr result ↔ IsTrue (is_named self.old) }
        ensures value { IfOk result (λ n. ReadsAt self.old.bytes at n to.new) }
        ensures state { self.new ≡ record (called self.old) { reads = counted self.old.reads } }
    {
        self.reads = counted(self.reads);
        if self.is_refused() {
            return Err(Failed);
        }
        Ok(copy_at(&self.bytes, at, to))
    }
}

/// A source of bytes in memory of which no call fails.
#[derive(Drop)]
pub struct SureSource {
    bytes: Vec<u8>,
    name: Option<String>,
    reads: u64,
}

impl Model for SureSource {
    ghost use Rattle.std.specs.Prelude.{string_bytes};
    ghost use Rattle.std.specs.Option.{option_map};
    ghost use Rattle.page_access.specs.Memory.{SureState};

    ghost Value = { SureState };

    ghost view = { λ s. record {
      bytes = s.bytes.items;
      name = option_map string_bytes s.name;
      reads = s.reads;
    } };
}

impl SureSource {
    ghost use Rattle.page_access.specs.Memory.{sure_source};

    /// A source of these bytes.
    pub fn new(bytes: Vec<u8>) -> SureSource
        ensures { result ≡ sure_source bytes.items }
    {
        SureSource {
            bytes,
            name: None,
            reads: 0,
        }
    }

    /// The number of calls of `read_at`.
    pub fn reads(&self) -> u64
        ensures { result ≡ self.now.reads }
    {
        self.reads
    }
}

impl Source for SureSource {
    ghost bytes = { λ s. Some s.bytes };

    ghost attached = { λ s. s.name };

    ghost faults = { λ _. 0 };

    ghost reads = { λ s. s.reads };

    fn attach(&mut self, name: String) -> Result<(), Failed>
        ensures succeeds { IsOk result }
        ensures state { self.new ≡ record self.old { name = Some (string_bytes name) } }
    {
        self.name = Some(name);
        Ok(())
    }

    fn length(&mut self) -> Result<u64, Failed>
        ensures succeeds { IsOk result }
        ensures value { IfOk result (λ n. n ≡ length self.old.bytes) }
        ensures state { self.new ≡ self.old }
    {
        Ok(self.bytes.len() as u64)
    }

    fn read_at(&mut self, at: u64, to: &mut [u8]) -> Result<usize, Failed>
        ensures succeeds { IsOk result }
        ensures value { IfOk result (λ n. ReadsAt self.old.bytes at n to.new) }
        ensures state { self.new ≡ record self.old { reads = counted self.old.reads } }
    {
        self.reads = counted(self.reads);
        Ok(copy_at(&self.bytes, at, to))
    }
}

// Whether the call is one of those that are named.
fn is_among(named: &[u64], call: u64) -> bool
    ensures { result ≡ list_any (λ n. n == call) named.now }
{
    named.iter().any(|n| *n == call)
}

// One more; a count stays at its last value.
pub fn counted(n: u64) -> u64
    ensures { result ≡ counted n }
{
    if n == u64::MAX { n } else { n + 1 }
}

// Copies the bytes from `at` on, as far as there is room, and gives how many.
pub fn copy_at(bytes: &[u8], at: u64, to: &mut [u8]) -> usize
    ensures { ReadsAt bytes.now at result to.new }
{
    let at = at as usize;
    if at >= bytes.len() {
        return 0;
    }
    let count = to.len().min(bytes.len() - at);
    to[..count].copy_from_slice(&bytes[at..at + count]);
    count
}
