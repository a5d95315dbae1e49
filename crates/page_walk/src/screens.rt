//! Which cells of a page are accepted.
ghost use Rattle.std.specs.Prelude.{◌≡◌, ◌≤◌, ◌<◌, IfOk, Some, length};
ghost use Rattle.cell_reader.specs.Cell.{cell_of};
ghost use Rattle.cell_reader.specs.Cover.{marked_on, marks_with};
ghost use Rattle.cell_reader.specs.Inside.{IsInside};
ghost use Rattle.cell_reader.specs.Shape.{shape_at};
ghost use Rattle.page_walk.specs.Page.{screened_as};

use crate::causes::{CellCause, cause};
use cell_reader::{Accepted, CellView, PageShape, cell};
use page_access::Geometry;

// Cell i of the page where it is accepted, and then holds its bytes; else why it is not.
pub fn screen(
    page: &[u8],
    shape: &PageShape,
    geo: &Geometry,
    i: u32,
    accepted: &mut Accepted,
) -> Result<CellView, CellCause>
    requires index { i < shape.now.cells }
    requires whole { geo.now.usable ≤ length page.now }
    requires of_page { shape_at page.now shape.now.head geo.now.usable ≡ Some shape.now }
    requires marks { length accepted.old ≡ geo.now.usable }
    ensures verdict { result ≡ screened_as
        (marked_on (cell_of page.now geo.now.usable geo.now.pages shape.now i) accepted.old) }
    ensures marked { accepted.new ≡ marks_with
        (marked_on (cell_of page.now geo.now.usable geo.now.pages shape.now i) accepted.old) accepted.old }
    ensures inside { IfOk result (λ v. IsInside geo.now.usable geo.now.pages shape.now v) }
    ensures len { length accepted.new ≡ length accepted.old }
{
    let view = match cell(page, shape, geo, i) {
        Ok(view) => view,
        Err(fault) => return Err(cause(fault)),
    };
    if accepted.offer(view.start, view.end) {
        Ok(view)
    } else {
        Err(CellCause::Overlap)
    }
}
