//! The real objects, over a writer that can fail and over files that every Linux machine has.
use super::{FileSink, FileSource, StreamSink};
use page_access::{Failed, Sink, Source};
use std::alloc::Global;
use std::fs;
use std::io::{self, ErrorKind, Write};
use std::test::Fail;

// Takes three bytes a call at most, and no more than so many in all; a flush can fail.
#[derive(Drop)]
struct Choppy {
    got: Vec<u8>,
    most: usize,
    flushes: u8,
    fails: bool,
}

impl Write for Choppy {
    fn write(&mut self, bytes: &[u8]) -> io::Result<usize> {
        if self.got.len() >= self.most {
            return Err(io::Error::from(ErrorKind::StorageFull));
        }
        let count = bytes.len().min(3);
        self.got.extend_from_slice(&bytes[..count])?;
        Ok(count)
    }

    fn flush(&mut self) -> io::Result<()> {
        self.flushes = self.flushes.saturating_add(1);
        if self.fails {
            return Err(io::Error::from(ErrorKind::StorageFull));
        }
        Ok(())
    }
}

fn stream(alloc: Global, most: usize, fails: bool) -> StreamSink<Choppy> {
    StreamSink::new(Choppy {
        got: Vec::new(alloc),
        most,
        flushes: 0,
        fails,
    })
}

#[test]
fn a_stream_passes_every_byte_on_and_is_flushed_at_its_end(rt: HostRuntime) -> Result<(), Fail> {
    let mut sink = stream(rt.alloc(), 100, false);
    assert_eq!(rt; sink.put(b"abcdefg"), Ok(()));
    assert_eq!(rt; sink.put(b"h"), Ok(()));
    assert_eq!(rt; sink.finish(), Ok(()));
    assert_eq!(rt; sink.writer.got.as_slice(), b"abcdefgh".as_slice());
    assert_eq!(rt;
        (sink.writer.flushes, sink.finished, sink.faults),
        (1, true, 0)
    );
    Ok(())
}

#[test]
fn a_stream_that_fails_says_so_and_counts_it(rt: HostRuntime) -> Result<(), Fail> {
    let mut sink = stream(rt.alloc(), 6, true);
    assert_eq!(rt; sink.put(b"abcdefg"), Err(Failed));
    assert_eq!(rt; sink.writer.got.as_slice(), b"abcdef".as_slice());
    assert_eq!(rt; sink.faults, 1);
    assert_eq!(rt; sink.finish(), Err(Failed));
    assert_eq!(rt; (sink.finished, sink.faults), (false, 2));
    Ok(())
}

#[test]
fn a_regular_file_is_read_at_any_place(rt: HostRuntime) -> Result<(), Fail> {
    let mut src = FileSource::new(&rt);
    let program = String::from_str(rt.alloc(), "/proc/self/exe")?;
    assert_eq!(rt; src.attach(program), Ok(()));
    let mut front = [0; 4];
    assert_eq!(rt; src.read_at(0, &mut front), Ok(4));
    // the first bytes of each program: 7f and the letters ELF
    assert_eq!(rt; front, [0x7f, 0x45, 0x4c, 0x46]);
    assert_eq!(rt; src.read_at(1, &mut front[..3]), Ok(3));
    assert_eq!(rt; front, [0x45, 0x4c, 0x46, 0x46]);
    let Ok(length) = src.length() else {
        return Err(Fail::from("no length"));
    };
    assert!(rt; length > 4);
    assert_eq!(rt; src.read_at(length, &mut front), Ok(0));
    assert_eq!(rt; (src.faults, src.reads), (0, 3));
    Ok(())
}

#[test]
fn what_is_no_regular_file_is_not_attached(rt: HostRuntime) -> Result<(), Fail> {
    let mut src = FileSource::new(&rt);
    for name in [
        "/dev/zero",
        "/dev/null",
        "/",
        "/proc/self/maps",
        "/no/such/file",
    ] {
        let name = String::from_str(rt.alloc(), name)?;
        assert_eq!(rt; src.attach(name), Err(Failed));
    }
    assert_eq!(rt; src.length(), Err(Failed));
    assert_eq!(rt; src.read_at(0, &mut [0]), Err(Failed));
    assert_eq!(rt; src.faults, 7);
    Ok(())
}

// The name of a file that no other test writes, which is not there.
fn new_name(rt: &HostRuntime, name: &str) -> Result<String, Fail> {
    let _ = fs::remove_file(rt, name);
    Ok(String::from_str(rt.alloc(), name)?)
}

#[test]
fn a_new_file_has_what_is_put(rt: HostRuntime) -> Result<(), Fail> {
    let mut sink = FileSink::new(&rt);
    assert_eq!(rt; sink.create(new_name(&rt, "new_file.tmp")?), Ok(()));
    assert_eq!(rt; sink.put(b"abc"), Ok(()));
    assert_eq!(rt; sink.finish(), Ok(()));
    assert_eq!(rt; (sink.finished, sink.faults), (true, 0));
    let read = fs::read_to_string(&rt, "new_file.tmp");
    fs::remove_file(&rt, "new_file.tmp")?;
    assert_eq!(rt; read?.as_str(), "abc");
    Ok(())
}

#[test]
fn a_file_that_is_there_is_not_made_again(rt: HostRuntime) -> Result<(), Fail> {
    let mut first = FileSink::new(&rt);
    assert_eq!(rt; first.create(new_name(&rt, "old_file.tmp")?), Ok(()));
    let mut sink = FileSink::new(&rt);
    let again = sink.create(String::from_str(rt.alloc(), "old_file.tmp")?);
    fs::remove_file(&rt, "old_file.tmp")?;
    assert_eq!(rt; again, Err(Failed));
    assert_eq!(rt; sink.faults, 1);
    Ok(())
}

#[test]
fn nothing_is_put_before_a_file_is_made(rt: HostRuntime) -> Result<(), Fail> {
    let mut sink = FileSink::new(&rt);
    assert_eq!(rt; sink.put(b"a"), Err(Failed));
    assert_eq!(rt; sink.finish(), Err(Failed));
    assert_eq!(rt; (sink.finished, sink.faults), (false, 2));
    Ok(())
}
