//! A run over objects in memory, and what it leaves.
use page_access::{MemFail, MemSink, MemSource, Sink, Source};
use salvage_cli::run;
use std::alloc::Global;
use std::test::Fail;

// The most bytes that a sink takes.
const ROOM: u64 = 1 << 16;

// A call that never comes.
const NO_CALL: MemFail = MemFail { call: 0, keep: 0 };

/// The call of each sink that fails.
#[derive(Clone, Copy)]
pub(crate) struct Fails {
    pub out: MemFail,
    pub script: MemFail,
    pub report: MemFail,
    pub errors: MemFail,
}

/// No call of a sink fails.
pub(crate) const NONE: Fails = Fails {
    out: NO_CALL,
    script: NO_CALL,
    report: NO_CALL,
    errors: NO_CALL,
};

/// What a run leaves: its status, and the bytes of the four sinks.
#[derive(Drop)]
pub(crate) struct Left {
    pub status: u8,
    pub output: Vec<u8>,
    pub script: Vec<u8>,
    pub report: Vec<u8>,
    pub errors: Vec<u8>,
}

pub(crate) fn words_of(alloc: Global, words: &[&str]) -> Result<Vec<String>, Fail> {
    let mut owned = Vec::new(alloc);
    for word in words {
        owned.push(String::from_str(alloc, word)?)?;
    }
    Ok(owned)
}

// A sink in memory whose one call fails.
fn sink(alloc: Global, fail: MemFail) -> Result<MemSink, Fail> {
    let mut fails = Vec::new(alloc);
    fails.push(fail)?;
    Ok(MemSink::new(alloc, ROOM, fails)?)
}

/// A run of these words over a source, by sinks of which one call fails.
pub(crate) fn ran_over<S: Source>(
    alloc: Global,
    words: &[&str],
    src: &mut S,
    fails: Fails,
) -> Result<Left, Fail> {
    let words = words_of(alloc, words)?;
    let mut out = sink(alloc, fails.out)?;
    let mut script = sink(alloc, fails.script)?;
    let mut report = sink(alloc, fails.report)?;
    let mut errors = sink(alloc, fails.errors)?;
    let status = run(
        alloc,
        &words,
        src,
        &mut out,
        &mut script,
        &mut report,
        &mut errors,
    );
    Ok(Left {
        status,
        output: Vec::from_slice(alloc, out.bytes())?,
        script: Vec::from_slice(alloc, script.bytes())?,
        report: Vec::from_slice(alloc, report.bytes())?,
        errors: Vec::from_slice(alloc, errors.bytes())?,
    })
}

/// A run of these words over these bytes, in which the source does not fail.
pub(crate) fn ran_by(
    alloc: Global,
    words: &[&str],
    bytes: Vec<u8>,
    fails: Fails,
) -> Result<Left, Fail> {
    let mut src = MemSource::new(bytes, Vec::new(alloc));
    ran_over(alloc, words, &mut src, fails)
}

/// A run of these words over these bytes, in which nothing fails.
pub(crate) fn ran_on(alloc: Global, words: &[&str], bytes: Vec<u8>) -> Result<Left, Fail> {
    ran_by(alloc, words, bytes, NONE)
}

/// A run of these words over these bytes, in which this call of the source fails.
pub(crate) fn ran_without(
    alloc: Global,
    words: &[&str],
    bytes: Vec<u8>,
    call: u64,
) -> Result<Left, Fail> {
    let mut fails = Vec::new(alloc);
    fails.push(call)?;
    let mut src = MemSource::new(bytes, fails);
    ran_over(alloc, words, &mut src, NONE)
}
