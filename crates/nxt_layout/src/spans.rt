// Rows that share a byte.

ghost use Rattle.std.specs.Prelude.{◌≡◌, ◌<◌, ◌≤◌, ◌^◌, true, length, IfOk, None};
ghost use Rattle.nxt_model.specs.Reading.{row_count};
ghost use Rattle.nxt_layout.specs.Inside.RowPasses.{ground_of, is_full_by, first_span, first_spans, spans_share, spans_of as spans_by, table_span as span_of_table, row_span as span_of_row, follow, SpansRise};

use crate::dataspace::Dataspace;
use nxt_types::NoMemory;
use std::alloc::Global;

/// The bytes of a row's elements in the dataspace, from their place to their end. Row 0 stands for the table of rows.
#[derive(Clone, Copy, PartialEq, Eq, Debug)]
pub struct Span {
    row: u32,
    place: u32,
    end: u32,
}

/// The spans of the table and of the marked rows that have elements.
pub fn spans_of(alloc: Global, space: &Dataspace, marks: &[u8]) -> Result<Vec<Span>, NoMemory>
    requires { length marks.now ≡ row_count (ground_of space.now).memory }
    ensures spans { IfOk result (λ spans. spans.items ≡ spans_by (ground_of space.now) (is_full_by (ground_of space.now) marks.now)) }
    ensures rise { IfOk result (λ spans. SpansRise 0 spans.items) }
{
    let mut spans: Vec<Span> = Vec::new(alloc);
    spans.push(table_span(space))?;
    let rows = space.rows();
    for row in 1..rows {
        if is_full(space, marks, row) {
            spans.push(row_span(space, row))?;
        }
    }
    Ok(spans)
}

/// Whether the row is marked and has elements.
pub fn is_full(space: &Dataspace, marks: &[u8], row: u16) -> bool
    requires { row < length marks.now }
    ensures { result ≡ is_full_by (ground_of space.now) marks.now row }
{
    marks[usize::from(row)] > 0 && space.has_elements(row)
}

fn table_span(space: &Dataspace) -> Span
    ensures { result ≡ span_of_table (ground_of space.now) }
{
    let place = u32::from(space.table);
    Span {
        row: 0,
        place,
        end: place + 10 * u32::from(space.rows()),
    }
}

fn row_span(space: &Dataspace, row: u16) -> Span
    ensures { result ≡ span_of_row (ground_of space.now) row }
{
    Span {
        row: u32::from(row),
        place: u32::from(space.place(row)),
        end: space.end(row),
    }
}

/// The rows of the first span that shares a byte with a later one, and of the first of those.
pub fn overlap_of(alloc: Global, spans: &[Span]) -> Result<Option<(u32, u32)>, NoMemory>
    requires { SpansRise 0 spans.now }
    ensures { IfOk result (λ found. found ≡ first_spans spans.now) }
{
    if lie_apart(alloc, spans)? {
        return Ok(None);
    }
    Ok(first_pair(spans))
}

// Whether each span begins where the one before it ends, or later, once they are in the order of their places.
fn lie_apart(alloc: Global, spans: &[Span]) -> Result<bool, NoMemory>
    requires { SpansRise 0 spans.now }
    ensures { IfOk result (λ apart. apart ≡ true → first_spans spans.now ≡ None) }
{
    let mut sorted: Vec<Span> = Vec::new(alloc);
    sorted.extend_from_slice(spans)?;
    sorted.sort_by_key(|span| span.place)?;
    Ok(are_in_line(sorted.as_slice()))
}

fn are_in_line(spans: &[Span]) -> bool
    ensures { result ≡ follow 0 spans.now }
{
    let mut end: u32 = 0;
    for span in spans {
        if span.place < end {
            return false;
        }
        end = span.end;
    }
    true
}

fn first_pair(spans: &[Span]) -> Option<(u32, u32)>
    ensures { result ≡ first_spans spans.now }
{
    for (i, span) in spans.iter().enumerate() {
        if let Some(other) = first_sharing(span, &spans[i + 1..]) {
            return Some((span.row, other));
        }
    }
    None
}

fn first_sharing(span: &Span, spans: &[Span]) -> Option<u32>
    ensures { result ≡ first_span (spans_share span.now) spans.now }
{
    for other in spans {
        if span.place < other.end && other.place < span.end {
            return Some(other.row);
        }
    }
    None
}
