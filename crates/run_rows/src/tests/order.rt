//! The order of the calls of a run, over objects that note it. The source gives one byte a call.
ghost use Rattle.std.specs.Prelude.{None, string_bytes};
ghost use Rattle.std.specs.Option.{option_map};

use crate::tests::runs::words_of;
use page_access::{Failed, MemSink, Sink, Source};
use salvage_cli::run;
use std::alloc::Global;
use std::test::Fail;

// A source that tells nothing and gives one byte a call, and notes how often it was attached, and how many
// calls came before that.
#[derive(Drop)]
struct NotedSource {
    bytes: Vec<u8>,
    name: Option<String>,
    reads: u64,
    attached: u32,
    early: u32,
}

impl Source for NotedSource {
    ghost bytes = { λ _. None };

    ghost attached = { λ s. option_map string_bytes s.name };

    ghost faults = { λ _. 0 };

    ghost reads = { λ s. s.reads };

    fn attach(&mut self, name: String) -> Result<(), Failed> {
        self.attached = self.attached.saturating_add(1);
        self.name = Some(name);
        Ok(())
    }

    fn length(&mut self) -> Result<u64, Failed> {
        if self.attached == 0 {
            self.early = self.early.saturating_add(1);
        }
        Ok(self.bytes.len() as u64)
    }

    fn read_at(&mut self, at: u64, to: &mut [u8]) -> Result<usize, Failed> {
        self.reads = self.reads.saturating_add(1);
        if self.attached == 0 {
            self.early = self.early.saturating_add(1);
        }
        if to.is_empty() || at >= self.bytes.len() as u64 {
            return Ok(0);
        }
        to[0] = self.bytes[at as usize];
        Ok(1)
    }
}

// A sink that takes everything, and notes how often it was finished, and how many puts came after that.
#[derive(Drop)]
struct NotedSink {
    puts: u32,
    ends: u32,
    late: u32,
    finished: bool,
    name: Option<String>,
}

impl Sink for NotedSink {
    ghost bytes = { λ _. None };

    ghost created = { λ s. option_map string_bytes s.name };

    ghost finished = { λ s. s.finished };

    ghost faults = { λ _. 0 };

    fn create(&mut self, name: String) -> Result<(), Failed> {
        self.finished = false;
        self.name = Some(name);
        Ok(())
    }

    fn put(&mut self, _piece: &[u8]) -> Result<(), Failed> {
        self.finished = false;
        self.puts = self.puts.saturating_add(1);
        if self.ends > 0 {
            self.late = self.late.saturating_add(1);
        }
        Ok(())
    }

    fn finish(&mut self) -> Result<(), Failed> {
        self.finished = true;
        self.ends = self.ends.saturating_add(1);
        Ok(())
    }
}

// What the objects have noted of a run of these words over these bytes.
fn noted(alloc: Global, mode: &str, bytes: Vec<u8>) -> Result<(u8, NotedSource, NotedSink), Fail> {
    let words = words_of(alloc, &[mode, "a"])?;
    let mut src = NotedSource {
        bytes,
        name: None,
        reads: 0,
        attached: 0,
        early: 0,
    };
    let mut report = NotedSink {
        puts: 0,
        ends: 0,
        late: 0,
        finished: false,
        name: None,
    };
    let mut out = MemSink::new(alloc, 0, Vec::new(alloc))?;
    let mut script = MemSink::new(alloc, 0, Vec::new(alloc))?;
    let mut errors = MemSink::new(alloc, 256, Vec::new(alloc))?;
    let status = run(
        alloc,
        &words,
        &mut src,
        &mut out,
        &mut script,
        &mut report,
        &mut errors,
    );
    Ok((status, src, report))
}

// A page of 512 bytes that begins as a file does, with an empty schema.
fn empty_schema(alloc: Global) -> Result<Vec<u8>, Fail> {
    let mut bytes = b"SQLite format 3\0\x02\x00".to_vec(alloc)?;
    bytes.resize(100, 0)?;
    bytes.extend_from_slice(b"\x0d\0\0\0\0\x02\0\0")?;
    bytes.resize(512, 0)?;
    Ok(bytes)
}

#[test]
fn the_source_is_attached_first_and_once_and_the_report_finished_last_and_once(
    rt: HostRuntime,
) -> Result<(), Fail> {
    let alloc = rt.alloc();
    for mode in ["dbdata", "dbptr", "schema"] {
        let (status, src, report) = noted(alloc, mode, empty_schema(alloc)?)?;
        assert_eq!(rt; (status, src.attached, src.early), (0, 1, 0));
        assert_eq!(rt; (report.ends, report.late), (1, 0));
    }
    Ok(())
}

#[test]
fn a_report_is_not_finished_where_the_input_is_refused(rt: HostRuntime) -> Result<(), Fail> {
    let alloc = rt.alloc();
    let mut utf16 = empty_schema(alloc)?;
    if let Some(encoding) = utf16.get_mut(59) {
        *encoding = 2;
    }
    let (status, _, report) = noted(alloc, "schema", utf16)?;
    assert_eq!(rt; (status, report.puts, report.ends), (12, 0, 0));
    let (status, _, report) = noted(alloc, "schema", b"no database".to_vec(alloc)?)?;
    assert_eq!(rt; (status, report.puts, report.ends), (4, 0, 0));
    Ok(())
}
