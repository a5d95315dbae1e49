//! The real objects of the outside: a file, and the standard streams. They tell no bytes, and count
//! each error of the system as a fault.
ghost use Rattle.std.specs.Prelude.{◌≡◌, None, false, string_bytes};
ghost use Rattle.std.specs.Option.{option_map};

use page_access::{Failed, Sink, Source};
use std::fs::{self, File, OpenFile};
use std::io::Write;
use std::os::unix::fs::FileExt;
use std::rt::Files;

/// A regular file that is opened by name and read at any place. A pipe, a device, a folder, or a file
/// that has bytes and tells the length 0, as those of /proc do, cannot be attached: what they hold has no
/// length that could be told before it is read.
#[derive(Drop)]
pub struct FileSource<'a, R: Files>
where
    R::File: Drop,
{
    rt: &'a R,
    file: Option<R::File>,
    name: Option<String>,
    faults: u64,
    reads: u64,
}

impl<'a, R: Files> FileSource<'a, R>
where
    R::File: Drop,
{
    /// No file yet.
    pub fn new(rt: &'a R) -> Self
        ensures name { result.name ≡ None }
        ensures faults { result.faults ≡ 0 }
        ensures reads { result.reads ≡ 0 }
    {
        FileSource {
            rt,
            file: None,
            name: None,
            faults: 0,
            reads: 0,
        }
    }
}

impl<R: Files> Source for FileSource<'_, R>
where
    R::File: FileExt + OpenFile + Drop,
{
    ghost bytes = { λ _. None };

    ghost attached = { λ s. option_map string_bytes s.name };

    ghost faults = { λ s. s.faults };

    ghost reads = { λ s. s.reads };

    fn attach(&mut self, name: String) -> Result<(), Failed> {
        match open_regular(self.rt, name.as_str()) {
            Some(file) => {
                self.file = Some(file);
                self.name = Some(name);
                Ok(())
            }
            None => {
                self.faults = self.faults.saturating_add(1);
                Err(Failed)
            }
        }
    }

    fn length(&mut self) -> Result<u64, Failed> {
        if let Some(file) = &self.file {
            if let Ok(metadata) = file.metadata() {
                return Ok(metadata.len());
            }
        }
        self.faults = self.faults.saturating_add(1);
        Err(Failed)
    }

    fn read_at(&mut self, at: u64, to: &mut [u8]) -> Result<usize, Failed> {
        self.reads = self.reads.saturating_add(1);
        if let Some(file) = &self.file {
            if let Ok(count) = file.read_at(to, at) {
                return Ok(count);
            }
        }
        self.faults = self.faults.saturating_add(1);
        Err(Failed)
    }
}

// Opens a file, where it is a regular one that tells its length; whether it is one is tested first, since
// a pipe that nobody writes to would be waited for.
fn open_regular<R: Files>(rt: &R, path: &str) -> Option<R::File>
where
    R::File: FileExt + OpenFile + Drop,
{
    let Ok(kind) = fs::metadata(rt, path) else {
        return None;
    };
    if !kind.is_file() {
        return None;
    }
    let Ok(file) = fs::open(rt, path) else {
        return None;
    };
    if tells_its_length(&file) {
        Some(file)
    } else {
        None
    }
}

// Whether a file that tells the length 0 has no bytes.
fn tells_its_length<F: FileExt + OpenFile>(file: &F) -> bool {
    let Ok(metadata) = file.metadata() else {
        return false;
    };
    metadata.len() > 0 || matches!(file.read_at(&mut [0], 0), Ok(0))
}

/// A stream that is written to, as standard output behind a buffer. A name that it is given changes
/// nothing but the created name.
#[derive(Drop)]
pub struct StreamSink<W: Write + Drop> {
    writer: W,
    name: Option<String>,
    finished: bool,
    faults: u64,
}

impl<W: Write + Drop> StreamSink<W> {
    /// Nothing is put yet.
    pub fn new(writer: W) -> Self
        ensures name { result.name ≡ None }
        ensures finished { result.finished ≡ false }
        ensures faults { result.faults ≡ 0 }
    {
        StreamSink {
            writer,
            name: None,
            finished: false,
            faults: 0,
        }
    }
}

impl<W: Write + Drop> Sink for StreamSink<W> {
    ghost bytes = { λ _. None };

    ghost created = { λ s. option_map string_bytes s.name };

    ghost finished = { λ s. s.finished };

    ghost faults = { λ s. s.faults };

    fn create(&mut self, name: String) -> Result<(), Failed> {
        self.finished = false;
        self.name = Some(name);
        Ok(())
    }

    fn put(&mut self, piece: &[u8]) -> Result<(), Failed> {
        self.finished = false;
        if self.writer.write_all(piece).is_ok() {
            return Ok(());
        }
        self.faults = self.faults.saturating_add(1);
        Err(Failed)
    }

    fn finish(&mut self) -> Result<(), Failed> {
        if self.writer.flush().is_ok() {
            self.finished = true;
            return Ok(());
        }
        self.finished = false;
        self.faults = self.faults.saturating_add(1);
        Err(Failed)
    }
}

/// A new file that is written from its front. `create` makes it, and fails where the name is there already;
/// `put` and `finish` fail before that. A finished file is on its disk.
#[derive(Drop)]
pub struct FileSink<'a, R: Files>
where
    R::File: Drop,
{
    rt: &'a R,
    file: Option<R::File>,
    name: Option<String>,
    finished: bool,
    faults: u64,
}

impl<'a, R: Files> FileSink<'a, R>
where
    R::File: Drop,
{
    /// No file yet.
    pub fn new(rt: &'a R) -> Self
        ensures name { result.name ≡ None }
        ensures finished { result.finished ≡ false }
        ensures faults { result.faults ≡ 0 }
    {
        FileSink {
            rt,
            file: None,
            name: None,
            finished: false,
            faults: 0,
        }
    }
}

impl<R: Files> Sink for FileSink<'_, R>
where
    R::File: Write + OpenFile + Drop,
{
    ghost bytes = { λ _. None };

    ghost created = { λ s. option_map string_bytes s.name };

    ghost finished = { λ s. s.finished };

    ghost faults = { λ s. s.faults };

    fn create(&mut self, name: String) -> Result<(), Failed> {
        self.finished = false;
        match File::create_new(self.rt, name.as_str()) {
            Ok(file) => {
                self.file = Some(file);
                self.name = Some(name);
                Ok(())
            }
            Err(_) => {
                self.faults = self.faults.saturating_add(1);
                Err(Failed)
            }
        }
    }

    fn put(&mut self, piece: &[u8]) -> Result<(), Failed> {
        self.finished = false;
        if let Some(file) = &mut self.file {
            if file.write_all(piece).is_ok() {
                return Ok(());
            }
        }
        self.faults = self.faults.saturating_add(1);
        Err(Failed)
    }

    fn finish(&mut self) -> Result<(), Failed> {
        self.finished = false;
        if let Some(file) = &mut self.file {
            if file.flush().is_ok() && file.sync_all().is_ok() {
                self.finished = true;
                return Ok(());
            }
        }
        self.faults = self.faults.saturating_add(1);
        Err(Failed)
    }
}

#[cfg(test)]
mod tests;
