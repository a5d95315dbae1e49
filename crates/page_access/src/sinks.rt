//! Sinks in memory.
ghost use Rattle.std.specs.Prelude.{◌≡◌, ◌≤◌, ◌↔◌, ◌==◌, ◌++◌, ◌+◌, ◌<◌, List, length, Option, Some, None, Bool, true, false, IsTrue, IsErr, IsSome, IsOk, IfOk, OnOk, OnErr, string_bytes, is_some, find};
ghost use Rattle.std.specs.Option.{option_map};
ghost use Rattle.page_access.specs.Memory.{counted};
ghost use Rattle.page_access.specs.Outside.{HasCause, Writes};

use crate::sources::counted;
use crate::{Failed, Sink};
use std::alloc::{AllocError, Global};
use std::marker::Model;

/// A call of a sink that is to fail. Where it is a `put`, it keeps the first `keep` bytes of the
/// piece, or the whole of a shorter one.
#[derive(Clone, Copy, Debug, PartialEq, Eq)]
pub struct MemFail {
    /// The number of the call, counted from 1.
    pub call: u64,
    /// How many bytes of the piece are kept.
    pub keep: u64,
}

/// A sink in memory with room for so many bytes. Calls of `Sink` are counted from 1, and the named
/// ones fail; so does a `put` that would pass the room, and it keeps nothing. A number of calls or
/// faults that stands at 2^64 - 1 stays there.
#[derive(Drop)]
pub struct MemSink {
    bytes: Vec<u8>,
    room: u64,
    fails: Vec<MemFail>,
    name: Option<String>,
    finished: bool,
    calls: u64,
    faults: u64,
}

impl Model for MemSink {
    ghost use Rattle.std.specs.Prelude.{◌≤◌, string_bytes, length, vec_capacity};
    ghost use Rattle.std.specs.Option.{option_map};
    ghost use Rattle.page_access.specs.Memory.{SinkState};

    ghost Value = { SinkState };

    ghost view = { λ s. record {
      bytes = s.bytes.items;
      room = s.room;
      fails = s.fails.items;
      name = option_map string_bytes s.name;
      finished = s.finished;
      calls = s.calls;
      faults = s.faults;
    } };

    ghost invariant = { λ s. (length s.bytes.items ≤ s.room) × (s.room ≤ vec_capacity s.bytes) };
}

impl MemSink {
    ghost use Rattle.page_access.specs.Memory.{new_sink, named_keep, stepped};

    /// A sink with room for so many bytes, all of it reserved at once, whose calls with these
    /// numbers fail. Of two that name one call the first counts.
    pub fn new(alloc: Global, room: u64, fails: Vec<MemFail>) -> Result<MemSink, AllocError>
        ensures { IfOk result (λ s. s ≡ new_sink room fails.items) }
    {
        Ok(MemSink {
            bytes: Vec::with_capacity(alloc, room as usize)?,
            room,
            fails,
            name: None,
            finished: false,
            calls: 0,
            faults: 0,
        })
    }

    /// The bytes that it holds.
    pub fn bytes(&self) -> &[u8]
        ensures { result.now ≡ self.now.bytes }
    {
        &self.bytes
    }

    // Counts a call, and gives how many bytes it is to keep where it is to fail.
    fn next_call(&mut self) -> Option<u64>
        ensures named { result ≡ named_keep self.old }
        ensures state { self.new ≡ stepped false self.old }
    {
        self.calls = counted(self.calls);
        self.finished = false;
        keep_of(&self.fails, self.calls)
    }
}

impl Sink for MemSink {
    ghost use Rattle.page_access.specs.Memory.{named_keep, stepped, is_refused, kept};

    ghost bytes = { λ s. Some s.bytes };

    ghost created = { λ s. s.name };

    ghost finished = { λ s. s.finished };

    ghost faults = { λ s. s.faults };

    fn create(&mut self, name: String) -> Result<(), Failed>
        ensures exactly { IsErr result ↔ IsSome (named_keep self.old) }
        ensures ok { OnOk result
            (self.new ≡ record (stepped false self.old) { name = Some (string_bytes name) }) }
        ensures err { OnErr result (self.new ≡ stepped true self.old) }
    {
        if self.next_call().is_some() {
            self.faults = counted(self.faults);
            return Err(Failed);
        }
        self.name = Some(name);
        Ok(())
    }

    fn put(&mut self, piece: &[u8]) -> Result<(), Failed>
        ensures exactly { IsErr result ↔ IsTrue (is_refused self.old piece.now) }
        ensures state { self.new ≡ record (stepped (is_refused self.old piece.now) self.old)
            { bytes = self.old.bytes ++ kept self.old piece.now } }
    {
        let named = self.next_call();
        let space = self.room - self.bytes.len() as u64;
        let keep = if space < piece.len() as u64 {
            Some(0)
        } else {
            named
        };
        let Some(keep) = keep else {
            self.bytes.extend_from_slice(piece).unwrap();
            return Ok(());
        };
        let count = piece.len().min(keep as usize);
        self.bytes.extend_from_slice(&piece[..count]).unwrap();
        self.faults = counted(self.faults);
        Err(Failed)
    }

    fn finish(&mut self) -> Result<(), Failed>
        ensures exactly { IsErr result ↔ IsSome (named_keep self.old) }
        ensures ok { OnOk result (self.new ≡ record (stepped false self.old) { finished = true }) }
        ensures err { OnErr result (self.new ≡ stepped true self.old) }
    {
        if self.next_call().is_some() {
            self.faults = counted(self.faults);
            return Err(Failed);
        }
        self.finished = true;
        Ok(())
    }
}

// How many bytes the call is to keep, where it is one of those that are to fail.
fn keep_of(fails: &[MemFail], call: u64) -> Option<u64>
    ensures { result ≡ option_map (λ (f : MemFail). f.keep)
        (find (λ (f : MemFail). f.call == call) fails.now) }
{
    fails.iter().find(|f| f.call == call).map(|f| f.keep)
}

/// A sink in memory with room for so many bytes. A `put` that would pass the room fails and keeps
/// nothing; no other call fails.
#[derive(Drop)]
pub struct SureSink {
    bytes: Vec<u8>,
    room: u64,
    name: Option<String>,
    finished: bool,
    faults: u64,
}

impl Model for SureSink {
    ghost use Rattle.std.specs.Prelude.{◌≤◌, string_bytes, length, vec_capacity};
    ghost use Rattle.std.specs.Option.{option_map};
    ghost use Rattle.page_access.specs.Memory.{SureSinkState};

    ghost Value = { SureSinkState };

    ghost view = { λ s. record {
      bytes = s.bytes.items;
      room = s.room;
      name = option_map string_bytes s.name;
      finished = s.finished;
      faults = s.faults;
    } };

    ghost invariant = { λ s. (length s.bytes.items ≤ s.room) × (s.room ≤ vec_capacity s.bytes) };
}

impl SureSink {
    ghost use Rattle.page_access.specs.Memory.{sure_sink};

    /// A sink with room for so many bytes, all of it reserved at once.
    pub fn new(alloc: Global, room: u64) -> Result<SureSink, AllocError>
        ensures { IfOk result (λ s. s ≡ sure_sink room) }
    {
        Ok(SureSink {
            bytes: Vec::with_capacity(alloc, room as usize)?,
            room,
            name: None,
            finished: false,
            faults: 0,
        })
    }

    /// The bytes that it holds.
    pub fn bytes(&self) -> &[u8]
        ensures { result.now ≡ self.now.bytes }
    {
        &self.bytes
    }
}

impl Sink for SureSink {
    ghost bytes = { λ s. Some s.bytes };

    ghost created = { λ s. s.name };

    ghost finished = { λ s. s.finished };

    ghost faults = { λ s. s.faults };

    fn create(&mut self, name: String) -> Result<(), Failed>
        ensures succeeds { IsOk result }
        ensures state { self.new
            ≡ record self.old { name = Some (string_bytes name); finished = false } }
    {
        self.finished = false;
        self.name = Some(name);
        Ok(())
    }

    fn put(&mut self, piece: &[u8]) -> Result<(), Failed>
        ensures exactly { IsErr result
            ↔ (self.old.room < length self.old.bytes + length piece.now) }
        ensures ok { OnOk result (self.new ≡ record self.old
            { bytes = self.old.bytes ++ piece.now; finished = false }) }
        ensures err { OnErr result (self.new ≡ record self.old
            { faults = counted self.old.faults; finished = false }) }
    {
        self.finished = false;
        if self.room - (self.bytes.len() as u64) < piece.len() as u64 {
            self.faults = counted(self.faults);
            return Err(Failed);
        }
        self.bytes.extend_from_slice(piece).unwrap();
        Ok(())
    }

    fn finish(&mut self) -> Result<(), Failed>
        ensures succeeds { IsOk result }
        ensures state { self.new ≡ record self.old { finished = true } }
    {
        self.finished = true;
        Ok(())
    }
}
