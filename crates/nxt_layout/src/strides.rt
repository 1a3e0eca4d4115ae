// Which of an array's rows have a stride that holds an element and is that of each lesser row.

ghost use Rattle.std.specs.Prelude.{◌≡◌, ℕ, Bool, not, filter, find, Some, IfOk};
ghost use Rattle.std.specs.Rc.{rc_slice_items};
ghost use Rattle.nxt_table.specs.Inside.Owners.{least_of};
ghost use Rattle.nxt_layout.specs.Rows.{has_elements as row_has_elements, stride_or, is_strided_by, read_by};
ghost use Rattle.nxt_layout.specs.Inside.RowPasses.{ground_of, least as least_among, lead_of, is_odd, odd_of, is_from, is_even};

use crate::dataspace::Dataspace;
use nxt_types::NoMemory;
use std::alloc::Global;
use std::rc::RcSlice;

/// What is read through an array: the rows whose elements are, the stride of its rows, and the least row that has another
/// stride or one below an element's bytes.
#[derive(Drop)]
pub struct Reading {
    pub rows: RcSlice<u16>,
    pub stride: u32,
    pub misstrided: Option<u16>,
}

/// The lesser row.
pub fn least(found: Option<u16>, row: u16) -> u16
    ensures { Some result ≡ least_of found (Some row) }
{
    match found {
        Some(found) => found.min(row),
        None => row,
    }
}

// The least of these rows that has elements.
fn lead(space: &Dataspace, rows: &[u16]) -> Option<u16>
    ensures { result ≡ lead_of (ground_of space.now) rows.now }
{
    let mut lead: Option<u16> = None;
    for row in rows {
        if space.has_elements(*row) {
            lead = Some(least(lead, *row));
        }
    }
    lead
}

// The least row that has elements and another stride.
fn first_odd(space: &Dataspace, rows: &[u16], stride: u16) -> Option<u16>
    ensures { result ≡ least_among (filter (is_odd (ground_of space.now) stride) rows.now) }
{
    let mut odd: Option<u16> = None;
    for row in rows {
        if space.has_elements(*row) && space.stride(*row) != stride {
            odd = Some(least(odd, *row));
        }
    }
    odd
}

// The least of these rows that hasn't the stride of the least. Each from it on differs from a lesser one.
fn odd(space: &Dataspace, rows: &[u16]) -> Option<u16>
    ensures { result ≡ odd_of (ground_of space.now) rows.now }
{
    let stride = lead(space, rows).map_or(0, |row| space.stride(row));
    first_odd(space, rows, stride)
}

fn is_strided(space: &Dataspace, bytes: u32, odd: Option<u16>, row: u16) -> bool
    ensures { result ≡ is_even (ground_of space.now) bytes odd row }
{
    !space.has_elements(row) || (bytes <= u32::from(space.stride(row)) && !reaches(odd, row))
}

fn reaches(odd: Option<u16>, row: u16) -> bool
    ensures { result ≡ is_from odd row }
{
    match odd {
        Some(odd) => odd <= row,
        None => false,
    }
}

/// What is read through an array with these rows, whose element takes `bytes` bytes.
pub fn reading_of(
    alloc: Global,
    space: &Dataspace,
    bytes: u32,
    rows: &RcSlice<u16>,
) -> Result<Reading, NoMemory>
    ensures rows { IfOk result (λ r. rc_slice_items r.rows ≡ read_by (ground_of space.now) bytes (rc_slice_items rows.now)) }
    ensures stride { IfOk result (λ r. r.stride ≡ stride_or (ground_of space.now) bytes (find (row_has_elements (ground_of space.now)) (rc_slice_items rows.now))) }
    ensures misstrided { IfOk result (λ r. r.misstrided ≡ least_among (filter (λ q. not (is_strided_by (ground_of space.now) bytes (rc_slice_items rows.now) q)) (rc_slice_items rows.now))) }
{
    let all = rows.as_slice();
    let odd = odd(space, all);
    let mut read: Vec<u16> = Vec::new(alloc);
    let mut misstrided: Option<u16> = None;
    for row in all {
        if !is_strided(space, bytes, odd, *row) {
            misstrided = Some(least(misstrided, *row));
        } else if space.is_placed(*row) {
            read.push(*row)?;
        }
    }
    Ok(Reading {
        rows: shared(rows, read)?,
        stride: stride_of(space, bytes, all),
        misstrided,
    })
}

// Some of these rows, in their order. Where that is all of them, no memory is taken.
fn shared(rows: &RcSlice<u16>, some: Vec<u16>) -> Result<RcSlice<u16>, NoMemory>
    ensures { (p : ℕ → Bool) → some.items ≡ filter p (rc_slice_items rows.now) → IfOk result (λ r. rc_slice_items r ≡ some.items) }
{
    if some.len() == rows.as_slice().len() {
        Ok(rows.clone()?)
    } else {
        Ok(RcSlice::from_vec(some)?)
    }
}

// The stride of the first row with elements, or the bytes of an element.
fn stride_of(space: &Dataspace, bytes: u32, rows: &[u16]) -> u32
    ensures { result ≡ stride_or (ground_of space.now) bytes (find (row_has_elements (ground_of space.now)) rows.now) }
{
    for row in rows {
        if space.has_elements(*row) {
            return u32::from(space.stride(*row));
        }
    }
    bytes
}
