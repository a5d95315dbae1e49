//! The program db_salvage: real objects of the outside, and the one call over them.
#![tactic(auto)]

use page_access::Sink;
use salvage_cli::{FileSink, FileSource, StreamSink, run};
use std::env;
use std::io::{self, BufWriter, ErrorKind};
use std::process::ExitCode;

// Bytes that are kept back before they go to standard output.
const BUFFER: usize = 65536;

// The status where memory ran out before the call.
const OUT_OF_MEMORY: u8 = 11;

fn main(rt: HostRuntime) -> ExitCode {
    match start(&rt) {
        Ok(status) => ExitCode::from(status),
        Err(_) => {
            let _ = StreamSink::new(rt.stderr()).put(b"db_salvage: out of memory\n");
            ExitCode::from(OUT_OF_MEMORY)
        }
    }
}

// Runs the program over the files and the streams of this process.
fn start(rt: &HostRuntime) -> io::Result<u8> {
    let alloc = rt.alloc();
    let words = words(rt)?;
    let mut report = StreamSink::new(BufWriter::with_capacity(alloc, BUFFER, rt.stdout())?);
    let mut errors = StreamSink::new(rt.stderr());
    let mut src = FileSource::new(rt);
    let mut out = FileSink::new(rt);
    let mut script = FileSink::new(rt);
    Ok(run(
        alloc,
        &words,
        &mut src,
        &mut out,
        &mut script,
        &mut report,
        &mut errors,
    ))
}

// The words after the program's name; none where one of them is no UTF-8, which are no command either.
fn words(rt: &HostRuntime) -> io::Result<Vec<String>> {
    let mut words = Vec::new(rt.alloc());
    match env::args(rt) {
        Ok(args) => {
            for word in args.skip(1) {
                words.push(word)?;
            }
        }
        Err(fault) => {
            if fault.kind() != ErrorKind::InvalidData {
                return Err(fault);
            }
        }
    }
    Ok(words)
}
