//! Whole pages from a source that may read in parts.
ghost use Rattle.std.specs.Prelude.{◌≡◌, ◌+◌, ◌*◌, ◌^◌, ◌<◌, ◌≤◌, length, take, drop, IfOk, IfSome, OnOk};
ghost use Rattle.page_access.specs.Outside.{HasCause, KeepsSource, ReadsAt};
ghost use Rattle.page_access.specs.Pages.{page_of, zero_filled};

use crate::{Failed, Geometry, Source};

/// Reads page `page`, counted from 1; bytes past the end of the file are zeros.
#[tactic(auto, unfolding(crate::specs::Pages::page_of))]
pub fn load<S: Source>(src: &mut S, geo: &Geometry, page: u32, to: &mut [u8]) -> Result<(), Failed>
    requires page_least { 1 ≤ page }
    requires page_most { page ≤ geo.now.pages }
    requires size { length to.old ≡ geo.now.page_size }
    ensures page { OnOk result
        (IfSome (S.bytes src.old) (λ all. to.new ≡ page_of all geo.now.page_size page)) }
    ensures cause { HasCause (S.faults src.old) (S.faults src.new) result }
    ensures kept { KeepsSource S.bytes S.attached S.faults S.reads src.old src.new }
    ensures reads { IfSome (S.bytes src.old)
        (λ all. page * geo.now.page_size ≤ length all → S.reads src.new ≤ S.reads src.old + 1) }
{
    let start = u64::from(page - 1) * u64::from(geo.page_size);
    read_filled(src, start, to)
}

/// Reads the first bytes of a source; bytes past its end are zeros.
pub fn read_front<S: Source>(src: &mut S, to: &mut [u8]) -> Result<(), Failed>
    ensures front { OnOk result (IfSome (S.bytes src.old)
        (λ all. to.new ≡ zero_filled (length to.new) (take (length to.new) all))) }
    ensures cause { HasCause (S.faults src.old) (S.faults src.new) result }
    ensures kept { KeepsSource S.bytes S.attached S.faults S.reads src.old src.new }
    ensures reads { IfSome (S.bytes src.old)
        (λ all. length to.old ≤ length all → S.reads src.new ≤ S.reads src.old + 1) }
{
    read_filled(src, 0, to)
}

// Fills `to` with the bytes from `start` on, and with zeros past their end.
fn read_filled<S: Source>(src: &mut S, start: u64, to: &mut [u8]) -> Result<(), Failed>
    requires { start + length to.old < 2 ^ 64 }
    ensures bytes { OnOk result (IfSome (S.bytes src.old)
        (λ all. to.new ≡ zero_filled (length to.new) (take (length to.new) (drop start all)))) }
    ensures cause { HasCause (S.faults src.old) (S.faults src.new) result }
    ensures kept { KeepsSource S.bytes S.attached S.faults S.reads src.old src.new }
    ensures reads { IfSome (S.bytes src.old)
        (λ all. start + length to.old ≤ length all → S.reads src.new ≤ S.reads src.old + 1) }
{
    let done = read_full(src, start, to)?;
    to[done..].fill(0);
    Ok(())
}

// Reads from `start` on until `to` is full or nothing more comes, and gives how much was read.
fn read_full<S: Source>(src: &mut S, start: u64, to: &mut [u8]) -> Result<usize, Failed>
    requires { start + length to.old < 2 ^ 64 }
    ensures value { IfOk result (λ n. IfSome (S.bytes src.old)
        (λ all. ReadsAt all start n to.new)) }
    ensures room { IfOk result (λ n. n ≤ length to.new) }
    ensures cause { HasCause (S.faults src.old) (S.faults src.new) result }
    ensures kept { KeepsSource S.bytes S.attached S.faults S.reads src.old src.new }
    ensures reads { IfSome (S.bytes src.old)
        (λ all. start + length to.old ≤ length all → S.reads src.new ≤ S.reads src.old + 1) }
{
    let mut done = 0;
    while done < to.len() {
        let count = src.read_at(start + done as u64, &mut to[done..])?;
        if count == 0 {
            break;
        }
        done += count;
    }
    Ok(done)
}
