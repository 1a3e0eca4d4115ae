// One call of `Space`, many times over.

use crate::blocks::{MANY, compacted};
use nxt_images::{ARRAY, EMPTY, Image, SLONG, layout_of};
use nxt_space::Space;
use std::alloc::Global;
use std::test::Fail;

/// Two lists of 1,000 numbers of 32 bits, and such a number.
static VARIABLES: Image<'static> = Image {
    entries: &[
        (ARRAY, 0, 0),
        (SLONG, 0, 0),
        (ARRAY, 0, 2),
        (SLONG, 0, 0),
        (SLONG, 1, 4),
    ],
    static_size: 8,
    defaults: &[1, 0, 2, 0],
    rows: &[(8, 10, 3), (40, 4, 1000), (4040, 4, 1000)],
    lists: &[0, 0],
    zeros: 8000,
    ..EMPTY
};

// One list gets the value of the other.
fn copies(space: &mut Space, times: u32) {
    for _ in 0..times {
        if let Some(to) = space.list_spot(0) {
            if let Some(from) = space.list_spot(2) {
                if from.kind() == to.kind() {
                    let _fits = space.copy_list(to, from);
                }
            }
        }
    }
}

// An element is set.
fn replaced(space: &mut Space, times: u32) {
    for k in 0..times {
        if let Some(list) = space.list_spot(0) {
            space.set_element(list, k % 1000, k);
        }
    }
}

// An element is read.
fn indexed(space: &Space, times: u32) -> u32 {
    let mut sum = 0u32;
    for k in 0..times {
        if let Some(list) = space.list_spot(0) {
            sum = sum.wrapping_add(space.element(list, k % 1000));
        }
    }
    sum
}

// A number is read and stored.
fn added(space: &mut Space, times: u32) {
    for k in 0..times {
        if let Some(spot) = space.spot(4) {
            let w = space.word(spot);
            space.set_word(spot, w.wrapping_add(k));
        }
    }
}

/// Makes the call of this letter, the given number of times over, or compacts.
pub(crate) fn work(alloc: Global, which: u8, times: u32) -> Result<u32, Fail> {
    let layout = layout_of(alloc, &VARIABLES)?;
    let mut space = Space::new(alloc, &layout)?;
    match which {
        b'c' => copies(&mut space, times),
        b'r' => replaced(&mut space, times),
        b'a' => added(&mut space, times),
        b'i' => return Ok(indexed(&space, times)),
        b'm' => return compacted(alloc, MANY, 1_000, 65_535),
        b'n' => return compacted(alloc, MANY, 1_000, 0),
        b'f' => return compacted(alloc, 10, 100_000, 65_535),
        b'g' => return compacted(alloc, 10, 100_000, 0),
        _ => {}
    }
    Ok(space.footprint())
}
