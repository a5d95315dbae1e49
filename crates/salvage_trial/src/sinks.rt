//! A file in memory.
ghost use Rattle.std.specs.Prelude.{◌≡◌, List, [], Option, Some, Bool, IfOk, string_bytes};
ghost use Rattle.std.specs.Option.{option_map};

use page_access::{Failed, Sink};
use std::alloc::{AllocError, Global};

/// A file in memory. A `put` fails only where memory runs out, and then keeps nothing; no other call fails.
#[derive(Drop)]
pub(crate) struct FileSink {
    pub bytes: Vec<u8>,
    name: Option<String>,
    finished: bool,
    faults: u64,
}

impl FileSink {
    /// A file without bytes, for which so many are reserved.
    pub fn new(alloc: Global, room: usize) -> Result<FileSink, AllocError>
        ensures { IfOk result (λ s. (s.bytes.items ≡ []) × (s.faults ≡ 0)) }
    {
        Ok(FileSink {
            bytes: Vec::with_capacity(alloc, room)?,
            name: None,
            finished: false,
            faults: 0,
        })
    }
}

impl Sink for FileSink {
    ghost bytes = { λ s. Some s.bytes.items };

    ghost created = { λ s. option_map string_bytes s.name };

    ghost finished = { λ s. s.finished };

    ghost faults = { λ s. s.faults };

    fn create(&mut self, name: String) -> Result<(), Failed> {
        self.finished = false;
        self.name = Some(name);
        Ok(())
    }

    fn put(&mut self, piece: &[u8]) -> Result<(), Failed> {
        self.finished = false;
        let Ok(()) = self.bytes.extend_from_slice(piece) else {
            self.faults = self.faults.saturating_add(1);
            return Err(Failed);
        };
        Ok(())
    }

    fn finish(&mut self) -> Result<(), Failed> {
        self.finished = true;
        Ok(())
    }
}
