//! Why a cell is not read.
ghost use Rattle.std.specs.Prelude.{◌≡◌};
ghost use Rattle.page_walk.specs.Page.{cause_of};

use cell_reader::CellFault;
use thiserror::Error;

/// Why a cell is not read: the first of these, in this order, that holds but for `Cut` and `Length`,
/// of which `Length` comes first.
#[derive(Clone, Copy, Debug, PartialEq, Eq, Error)]
pub enum CellCause {
    /// Its pointer names no place for a cell.
    #[error("the cell's pointer is bad")]
    Pointer,
    /// It passes the end of the usable bytes.
    #[error("the cell is cut off")]
    Cut,
    /// The length of its payload is 0 or more than all pages have.
    #[error("the payload's length is bad")]
    Length,
    /// It shares a byte with an accepted cell before it.
    #[error("the cell overlaps another")]
    Overlap,
    /// An overflow page that its payload needs is no page of the file, or has a use.
    #[error("the overflow chain is broken")]
    Chain,
    /// Its payload holds no record.
    #[error("the payload holds no record")]
    BadRecord,
}

// The cause that a fault of a cell is.
pub fn cause(fault: CellFault) -> CellCause
    ensures { result ≡ cause_of fault }
{
    match fault {
        CellFault::Pointer => CellCause::Pointer,
        CellFault::Cut => CellCause::Cut,
        CellFault::Length => CellCause::Length,
    }
}
