//! Which cells of a level stand on which page.

ghost use Rattle.std.specs.Prelude.{◌≡◌, ◌≤◌, ◌<◌, ◌-◌, [], IfOk, length};
ghost use Rattle.tree_writer.specs.Groups.{cuts, leaves};
ghost use Rattle.tree_writer.specs.Plan.{AreSizes, need_in, no_key, no_size, spans_of};

use crate::sizes::Size;
use std::alloc::{AllocError, Global};

/// Cells of a level that stand on one page, and how many pages these are with the cells' overflow
/// pages.
#[derive(Clone, Copy, Debug)]
pub struct Span {
    pub first: u32,
    pub cells: u32,
    pub pages: u32,
}

/// The leaves of a table: each takes cells while they fit.
pub(crate) fn leaf_spans(alloc: Global, sizes: &[Size], room: u32) -> Result<Vec<Span>, AllocError>
    requires { AreSizes room sizes.now }
    ensures { IfOk result (λ v. v.items
        ≡ spans_of 0 0 (leaves need_in no_key no_size room [] room sizes.now)) }
{
    let mut spans = Vec::new(alloc);
    let mut span = Span {
        first: 0,
        cells: 0,
        pages: 1,
    };
    let mut left = room;
    for size in sizes {
        if size.need <= left {
            left -= size.need;
        } else {
            spans.push(span)?;
            span = Span {
                first: span.first + span.cells,
                cells: 0,
                pages: 1,
            };
            left = room - size.need;
        }
        span.cells += 1;
        span.pages += size.overs;
    }
    spans.push(span)?;
    Ok(spans)
}

/// The leaves of an index, and the interior pages of each tree: a cell that does not fit stands
/// between two pages, and no page is left without cells.
pub(crate) fn cut_spans(alloc: Global, sizes: &[Size], room: u32) -> Result<Vec<Span>, AllocError>
    requires { AreSizes room sizes.now }
    ensures { IfOk result (λ v. v.items ≡ spans_of 1 0 (cuts need_in room [] room sizes.now)) }
{
    let mut spans = Vec::new(alloc);
    let mut span = Span {
        first: 0,
        cells: 0,
        pages: 1,
    };
    let mut left = room;
    for (i, size) in sizes.iter().enumerate() {
        if size.need <= left {
            left -= size.need;
            span.cells += 1;
            span.pages += size.overs;
        } else if i + 1 < sizes.len() {
            spans.push(span)?;
            span = Span {
                first: span.first + span.cells + 1,
                cells: 0,
                pages: 1,
            };
            left = room;
        } else {
            let given = sizes[i - 1].overs;
            spans.push(Span {
                cells: span.cells - 1,
                pages: span.pages - given,
                ..span
            })?;
            span = Span {
                first: span.first + span.cells,
                cells: 1,
                pages: 1 + size.overs,
            };
            left = room - size.need;
        }
    }
    spans.push(span)?;
    Ok(spans)
}
