//! The line of a refusal.
ghost use Rattle.std.specs.Prelude.{◌≡◌, ◌≤◌, ◌+◌, ◌++◌, length, decimal};
ghost use Rattle.arrayvec.specs.ArrayVec.{array_vec_len};
ghost use Rattle.page_access.specs.Outside.{KeepsSink, Writes};
ghost use Rattle.line_text.specs.Text.{newline};
ghost use Rattle.salvage_cli.specs.Answers.{fault_line, fault_text};

use crate::faults::Fault;
use itoa::Buffer;
use line_text::{Line, add};
use page_access::{Failed, Sink};

/// Puts the line of a refusal.
#[tactic(auto, unfolding(crate::specs::Answers::fault_line))]
pub(crate) fn put_fault<E: Sink>(to: &mut E, fault: &Fault) -> Result<(), Failed>
    ensures writes { Writes (E.bytes to.old) (E.bytes to.new) (E.faults to.old) (E.faults to.new)
        (fault_line fault.now) result }
    ensures kept { KeepsSink E.created E.finished E.faults to.old to.new }
{
    put_named(to, b"db_salvage: ", fault)
}

// Puts the line of a refusal behind the program's name.
fn put_named<E: Sink>(to: &mut E, name: &[u8], fault: &Fault) -> Result<(), Failed>
    requires { length name.now ≤ 12 }
    ensures writes { Writes (E.bytes to.old) (E.bytes to.new) (E.faults to.old) (E.faults to.new)
        (name.now ++ (fault_text fault.now ++ newline)) result }
    ensures kept { KeepsSink E.created E.finished E.faults to.old to.new }
{
    let mut line = Line::new();
    add(&mut line, name);
    add_text(&mut line, fault);
    add(&mut line, b"\n");
    to.put(line.as_slice())
}

// Adds what a refusal says.
#[tactic(auto, unfolding(crate::specs::Answers::fault_text))]
fn add_text(line: &mut Line, fault: &Fault)
    requires { array_vec_len line.old ≤ 12 }
    ensures text { line.new.items ≡ line.old.items ++ fault_text fault.now }
    ensures len { array_vec_len line.new ≤ 120 }
{
    match fault {
        Fault::Usage => add(
            line,
            b"use: recover INPUT OUTPUT SCRIPT, dbdata INPUT, dbptr INPUT, schema INPUT, trial N",
        ),
        Fault::InputFault => add(line, b"input fault"),
        Fault::TooLarge { len } => add_number(line, b"input too large: ", *len, b" bytes"),
        Fault::NoPageSize => add(line, b"no page size found"),
        Fault::NoWholePage { len, size } => add_numbers(
            line,
            b"no whole page: ",
            *len,
            b" bytes, page size ",
            *size,
        ),
        Fault::Utf16 => add(line, b"UTF-16 database"),
        Fault::OutputTooLarge { load } => add_load(line, b"output too large: load ", *load),
        Fault::OutputFault => add(line, b"output fault"),
        Fault::ScriptFault => add(line, b"script fault"),
        Fault::ReportFault => add(line, b"report fault"),
        Fault::Memory => add(line, b"out of memory"),
    }
}

// Adds a load behind a word.
fn add_load(line: &mut Line, before: &[u8], load: u128)
    requires { array_vec_len line.old + length before.now ≤ 80 }
    ensures text { line.new.items ≡ line.old.items ++ (before.now ++ decimal load) }
    ensures len { array_vec_len line.new ≤ array_vec_len line.old + length before.now + 40 }
{
    add(line, before);
    add(line, Buffer::new().format(load).as_bytes());
}

// Adds a number between two words.
fn add_number(line: &mut Line, before: &[u8], number: u64, behind: &[u8])
    requires { array_vec_len line.old + length before.now + length behind.now ≤ 100 }
    ensures text { line.new.items ≡ line.old.items ++
        (before.now ++ (decimal number ++ behind.now)) }
    ensures len { array_vec_len line.new
        ≤ array_vec_len line.old + length before.now + length behind.now + 20 }
{
    add(line, before);
    add(line, Buffer::new().format(number).as_bytes());
    add(line, behind);
}

// Adds two numbers, each behind a word.
fn add_numbers(line: &mut Line, first: &[u8], len: u64, second: &[u8], size: u32)
    requires { array_vec_len line.old + length first.now + length second.now ≤ 80 }
    ensures text { line.new.items ≡ line.old.items ++
        (first.now ++ (decimal len ++ (second.now ++ decimal size))) }
    ensures len { array_vec_len line.new
        ≤ array_vec_len line.old + length first.now + length second.now + 40 }
{
    add_number(line, first, len, second);
    add(line, Buffer::new().format(size).as_bytes());
}
