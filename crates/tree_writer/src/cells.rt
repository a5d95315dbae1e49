//! The bytes of a cell.

ghost use Rattle.std.specs.Prelude.{◌≡◌, ◌≤◌, ◌<◌, ◌^◌, ◌+◌, ◌-◌, ◌++◌, length, take};
ghost use Rattle.tree_writer.specs.Cells.{cell_bytes, child_part, head_part, kept_of, number_part, payload_part};
ghost use Rattle.tree_writer.specs.Page.{slot};
ghost use Rattle.tree_writer.specs.Plan.{laid_by};

use crate::bytes::{put, put_u32, put_varint, put_zeros};
use cell_reader::{Kind, local_size};

/// A cell but its payload: the page of its child, the 64 bits of its rowid or key, and the page of the
/// first byte that is not local.
#[derive(Clone, Copy, Debug)]
pub struct Cell {
    pub child: u32,
    pub rowid: u64,
    pub next: u32,
}

// Puts the child's page number, on an interior page.
fn put_child(to: &mut [u8], at: usize, leaf: bool, child: u32) -> usize
    requires { at + length (child_part leaf child) ≤ length to.old }
    ensures end { result ≡ at + length (child_part leaf child) }
    ensures front { take result to.new ≡ take at to.old ++ child_part leaf child }
{
    if leaf { at } else { put_u32(to, at, child) }
}

// Puts the varints of a cell with this payload.
fn put_numbers(to: &mut [u8], at: usize, kind: Kind, leaf: bool, cell: Cell, body: &[u8]) -> usize
    requires { at + length (number_part kind leaf (laid_by cell body.now)) ≤ length to.old }
    ensures end { result ≡ at + length (number_part kind leaf (laid_by cell body.now)) }
    ensures front { take result to.new
        ≡ take at to.old ++ number_part kind leaf (laid_by cell body.now) }
{
    match kind {
        Kind::Index => put_varint(to, at, body.len() as u64),
        Kind::Table if leaf => {
            let rowid = put_varint(to, at, body.len() as u64);
            put_varint(to, rowid, cell.rowid)
        }
        Kind::Table => put_varint(to, at, cell.rowid),
    }
}

// Puts the local bytes of a payload, and the overflow page number where some are not local.
fn put_payload(to: &mut [u8], at: usize, kind: Kind, usable: u32, cell: Cell, body: &[u8]) -> usize
    requires least { 480 ≤ usable }
    requires most { usable ≤ 65536 }
    requires room { at + length (payload_part usable kind (laid_by cell body.now)) ≤ length to.old }
    ensures end { result ≡ at + length (payload_part usable kind (laid_by cell body.now)) }
    ensures front { take result to.new
        ≡ take at to.old ++ payload_part usable kind (laid_by cell body.now) }
{
    let kept = local_size(kind, usable, body.len() as u64) as usize;
    let end = put(to, at, &body[..kept]);
    if kept == body.len() {
        end
    } else {
        put_u32(to, end, cell.next)
    }
}

/// Puts a cell with this payload, four bytes long at least, and gives the place behind it.
#[tactic(auto, unfolding(crate::specs::Cells::cell_bytes))]
pub(crate) fn put_cell(
    to: &mut [u8],
    at: usize,
    kind: Kind,
    leaf: bool,
    usable: u32,
    cell: Cell,
    body: &[u8],
) -> usize
    requires least { 480 ≤ usable }
    requires most { usable ≤ 65536 }
    requires room { at + length (slot (cell_bytes usable kind leaf (laid_by cell body.now))) ≤ length to.old }
    ensures end { result ≡ at + length (slot (cell_bytes usable kind leaf (laid_by cell body.now))) }
    ensures front { take result to.new
        ≡ take at to.old ++ slot (cell_bytes usable kind leaf (laid_by cell body.now)) }
{
    let numbers = put_child(to, at, leaf, cell.child);
    let payload = put_numbers(to, numbers, kind, leaf, cell, body);
    let end = put_payload(to, payload, kind, usable, cell, body);
    let len = end - at;
    put_zeros(to, end, 4usize.saturating_sub(len))
}
