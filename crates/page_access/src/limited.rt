//! Sources in memory that read less at once than is asked for.
ghost use Rattle.std.specs.Prelude.{◌≡◌, ◌≤◌, ◌<◌, ◌↔◌, ◌-◌, min, length, take, drop, Some, None, IfOk, IsErr, IsOk, OnErr, OnOk, string_bytes};
ghost use Rattle.page_access.specs.Memory.{counted};
ghost use Rattle.page_access.specs.Outside.{ReadsAt};

use crate::sources::{copy_at, counted};
use crate::{Failed, Source};
use std::marker::Model;

/// A source of which a read of more than `widest` bytes fails, and no other call. It tells its bytes. A
/// number of reads or faults that stands at 2^64 - 1 stays there.
#[derive(Drop)]
pub struct NarrowSource {
    bytes: Vec<u8>,
    widest: usize,
    name: Option<String>,
    reads: u64,
    faults: u64,
}

impl Model for NarrowSource {
    ghost use Rattle.std.specs.Prelude.{string_bytes};
    ghost use Rattle.std.specs.Option.{option_map};
    ghost use Rattle.page_access.specs.Memory.{NarrowState};

    ghost Value = { NarrowState };

    ghost view = { λ s. record {
      bytes = s.bytes.items;
      widest = s.widest;
      name = option_map string_bytes s.name;
      reads = s.reads;
      faults = s.faults;
    } };
}

impl NarrowSource {
    ghost use Rattle.page_access.specs.Memory.{narrow_source};

    /// A source of these bytes.
    pub fn new(bytes: Vec<u8>, widest: usize) -> NarrowSource
        ensures { result ≡ narrow_source bytes.items widest }
    {
        NarrowSource {
            bytes,
            widest,
            name: None,
            reads: 0,
            faults: 0,
        }
    }
}

impl Source for NarrowSource {
    ghost bytes = { λ s. Some s.bytes };

    ghost attached = { λ s. s.name };

    ghost faults = { λ s. s.faults };

    ghost reads = { λ s. s.reads };

    fn attach(&mut self, name: String) -> Result<(), Failed>
        ensures succeeds { IsOk result }
        ensures state { self.new ≡ record self.old { name = Some (string_bytes name) } }
    {
        self.name = Some(name);
        Ok(())
    }

    fn length(&mut self) -> Result<u64, Failed>
        ensures succeeds { IsOk result }
        ensures value { IfOk result (λ n. n ≡ length self.old.bytes) }
        ensures state { self.new ≡ self.old }
    {
        Ok(self.bytes.len() as u64)
    }

    fn read_at(&mut self, at: u64, to: &mut [u8]) -> Result<usize, Failed>
        ensures exactly { IsErr result ↔ (self.old.widest < length to.old) }
        ensures value { IfOk result (λ n. ReadsAt self.old.bytes at n to.new) }
        ensures ok { OnOk result (self.new ≡ record self.old { reads = counted self.old.reads }) }
        ensures err { OnErr result (self.new ≡ record self.old {
          reads = counted self.old.reads;
          faults = counted self.old.faults;
        }) }
    {
        self.reads = counted(self.reads);
        if to.len() > self.widest {
            self.faults = counted(self.faults);
            return Err(Failed);
        }
        Ok(copy_at(&self.bytes, at, to))
    }
}

/// A source that gives at most `step` bytes a call, and never fails. It does not tell its bytes. A number
/// of reads that stands at 2^64 - 1 stays there.
#[derive(Drop)]
pub struct SlowSource {
    bytes: Vec<u8>,
    step: usize,
    name: Option<String>,
    reads: u64,
}

impl SlowSource {
    /// A source of these bytes.
    pub fn new(bytes: Vec<u8>, step: usize) -> SlowSource
        requires { 1 ≤ step }
        ensures bytes { result.bytes.items ≡ bytes.items }
        ensures step { result.step ≡ step }
        ensures name { result.name ≡ None }
        ensures reads { result.reads ≡ 0 }
    {
        SlowSource {
            bytes,
            step,
            name: None,
            reads: 0,
        }
    }
}

impl Source for SlowSource {
    ghost use Rattle.std.specs.Option.{option_map};

    ghost bytes = { λ _. None };

    ghost attached = { λ s. option_map string_bytes s.name };

    ghost faults = { λ _. 0 };

    ghost reads = { λ s. s.reads };

    fn attach(&mut self, name: String) -> Result<(), Failed> {
        self.name = Some(name);
        Ok(())
    }

    fn length(&mut self) -> Result<u64, Failed> {
        Ok(self.bytes.len() as u64)
    }

    fn read_at(&mut self, at: u64, to: &mut [u8]) -> Result<usize, Failed> {
        self.reads = counted(self.reads);
        let width = to.len().min(self.step);
        Ok(copy_at(&self.bytes, at, &mut to[..width]))
    }
}
