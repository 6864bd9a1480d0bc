//! What the cells of a part of a document point into, and the cells moved to where that begins.

ghost use Rattle.std.specs.Prelude.{◌≡◌, ◌≤◌, map, length, slice_range, IfOk};
ghost use Rattle.sw_tree.specs.Inner.Moved as spec;

use crate::cell::{Cell, Span};
use std::alloc::{AllocError, Global};

/// A range of bytes or of numbers.
#[derive(Clone, Copy)]
pub(crate) struct Stretch {
    pub start: usize,
    pub end: usize,
}

/// The ranges of the input, of the text beside it and of the wide numbers that cells point into.
#[derive(Clone, Copy)]
pub(crate) struct Reach {
    pub input: Stretch,
    pub side: Stretch,
    pub wides: Stretch,
}

/// A range over nothing yet.
const NOTHING: Stretch = Stretch {
    start: 4294967295,
    end: 0,
};

/// The least range over both.
fn joined(range: Stretch, start: usize, end: usize) -> Stretch
    ensures { result ≡ spec.joined range start end }
{
    Stretch {
        start: range.start.min(start),
        end: range.end.max(end),
    }
}

/// The ranges, and what the cell points into.
fn widened(reach: Reach, cell: Cell) -> Reach
    ensures { result ≡ spec.widened reach cell }
{
    match cell {
        Cell::Wide(index) => Reach {
            input: reach.input,
            side: reach.side,
            wides: joined(reach.wides, index as usize, index as usize + 1),
        },
        Cell::Text(span) | Cell::Bytes(span) => Reach {
            input: joined(reach.input, span.start as usize, span.end as usize),
            side: reach.side,
            wides: reach.wides,
        },
        Cell::Copied(span) | Cell::CopiedBytes(span) => Reach {
            input: reach.input,
            side: joined(reach.side, span.start as usize, span.end as usize),
            wides: reach.wides,
        },
        _ => reach,
    }
}

/// The range, which is empty where nothing is in it.
fn settled(range: Stretch) -> Stretch
    ensures { result ≡ spec.settled range }
{
    Stretch {
        start: range.start.min(range.end),
        end: range.end,
    }
}

/// The ranges that the cells point into.
pub(crate) fn reach_of(cells: &[Cell]) -> Reach
    ensures { result ≡ spec.reach_of cells.now }
{
    let mut reach = Reach {
        input: NOTHING,
        side: NOTHING,
        wides: NOTHING,
    };
    for cell in cells {
        reach = widened(reach, *cell);
    }
    Reach {
        input: settled(reach.input),
        side: settled(reach.side),
        wides: settled(reach.wides),
    }
}

/// The span, moved to the front by so many bytes.
fn moved_span(span: Span, by: usize) -> Span
    ensures { result ≡ spec.moved_span by span }
{
    Span {
        start: (span.start as usize).saturating_sub(by) as u32,
        end: (span.end as usize).saturating_sub(by) as u32,
    }
}

/// The cell, moved to where the ranges begin.
fn moved(reach: Reach, cell: Cell) -> Cell
    ensures { result ≡ spec.moved reach cell }
{
    match cell {
        Cell::Wide(index) => Cell::Wide((index as usize).saturating_sub(reach.wides.start) as u32),
        Cell::Text(span) => Cell::Text(moved_span(span, reach.input.start)),
        Cell::Bytes(span) => Cell::Bytes(moved_span(span, reach.input.start)),
        Cell::Copied(span) => Cell::Copied(moved_span(span, reach.side.start)),
        Cell::CopiedBytes(span) => Cell::CopiedBytes(moved_span(span, reach.side.start)),
        _ => cell,
    }
}

/// The cells, moved to where the ranges begin.
pub(crate) fn moved_cells(
    alloc: Global,
    reach: Reach,
    cells: &[Cell],
) -> Result<Vec<Cell>, AllocError>
    ensures { IfOk result (λ v. v.items ≡ map (spec.moved reach) cells.now) }
{
    let mut copied = Vec::with_capacity(alloc, cells.len())?;
    for cell in cells {
        copied.push(moved(reach, *cell))?;
    }
    Ok(copied)
}

/// The cells from `at` to `end`.
pub(crate) fn run_at(cells: &[Cell], at: u32, end: u32) -> &[Cell]
    requires ordered { at ≤ end }
    requires inside { end ≤ length cells.now }
    ensures { result.now ≡ slice_range cells.now at end }
{
    &cells[at as usize..end as usize]
}

/// What stands in that range, copied.
pub(crate) fn copied<T: Copy>(
    alloc: Global,
    source: &[T],
    range: Stretch,
) -> Result<Vec<T>, AllocError>
    requires ordered { range.start ≤ range.end }
    requires inside { range.end ≤ length source.now }
    ensures { IfOk result (λ v. v.items ≡ slice_range source.now range.start range.end) }
{
    Vec::from_slice(alloc, &source[range.start..range.end])
}
