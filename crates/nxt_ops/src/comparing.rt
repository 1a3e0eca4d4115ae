// Comparisons of lists.

ghost use Rattle.std.specs.Prelude.{◌≡◌, ◌||◌, ℕ, true, false, IfOk, IsSome};
ghost use Rattle.nxt_types.specs.Shapes.{is_number};
ghost use Rattle.nxt_types.specs.OperandRules.{is_plain, are_alike};
ghost use Rattle.nxt_types.specs.Arithmetic.{is_signed as signed_kind_of};
ghost use Rattle.nxt_model.specs.Means.Effects.{element};
ghost use Rattle.nxt_model.specs.Means.Numbers.{either_signed, holds as holds_of};
ghost use Rattle.nxt_space.specs.Spots.{IsListSpot, numbers_in_bytes};
ghost use Rattle.nxt_space.specs.Variables.{AreSound, name_of, shape_of, value_of};
ghost use Rattle.nxt_operands.specs.Numbers.{AreNumbers, numbers_in};
ghost use Rattle.nxt_operands.specs.Operands.{given};
ghost use Rattle.nxt_ops.specs.Ops.{deciding_numbers};

use crate::lists::either_has_signed_elements;
use nxt_operands::lists::{count_in, word_in};
use nxt_operands::reading::numbers_of;
use nxt_space::{ListSpot, Space};
use nxt_types::NoMemory;
use nxt_types::kind::{Cmp, Kind};
use nxt_types::numbers::{compares, is_signed, taken};
use std::alloc::Global;

/// Whether a comparison of two lists of numbers holds, wherever their numbers stand: the first place where they differ decides,
/// or else their lengths.
pub fn holds(alloc: Global, space: &Space, cmp: Cmp, x: u16, y: u16) -> Result<bool, NoMemory>
    requires sound { AreSound space.now.vars }
    requires x { IsSome (name_of space.now.vars x) }
    requires y { IsSome (name_of space.now.vars y) }
    requires plain { is_plain (shape_of space.now.vars x) ≡ true }
    requires list { is_number (shape_of space.now.vars x) ≡ false }
    requires fit { are_alike (shape_of space.now.vars x) (shape_of space.now.vars y) ≡ true }
    ensures { IfOk result (λ b. b ≡ holds_of cmp (given space.now.vars x) (given space.now.vars y)) }
{
    let (a, b) = deciding_apart(alloc, space, x, y)?;
    Ok(compares(cmp, a, b))
}

/// Whether a comparison of two lists of numbers holds that stand one behind another. It takes no memory.
pub fn lists_hold(space: &Space, cmp: Cmp, x: ListSpot, y: ListSpot) -> bool
    requires x { (i : ℕ) × IsListSpot space.now.vars i x }
    requires y { (j : ℕ) × IsListSpot space.now.vars j y }
    ensures { (i j : ℕ) → IsListSpot space.now.vars i x → IsListSpot space.now.vars j y → result ≡ holds_of cmp (given space.now.vars i) (given space.now.vars j) }
{
    let signed = either_kind_signed(x.kind(), y.kind());
    let (a, b) = deciding_in_place(signed, x.kind(), space.bytes(x), y.kind(), space.bytes(y));
    compares(cmp, a, b)
}

// Whether one of two kinds is signed.
fn either_kind_signed(k: Kind, l: Kind) -> bool
    ensures { result ≡ (signed_kind_of k || signed_kind_of l) }
{
    is_signed(k) || is_signed(l)
}

// The two numbers that decide a comparison of lists, wherever their numbers stand.
fn deciding_apart(alloc: Global, space: &Space, x: u16, y: u16) -> Result<(i64, i64), NoMemory>
    requires x { IsSome (name_of space.now.vars x) }
    requires y { IsSome (name_of space.now.vars y) }
    requires list_x { AreNumbers (value_of space.now.vars x) }
    requires list_y { AreNumbers (value_of space.now.vars y) }
    ensures { IfOk result (λ pair. pair ≡ deciding_numbers (either_signed (element (shape_of space.now.vars x)) (element (shape_of space.now.vars y))) (numbers_in (value_of space.now.vars x)) (numbers_in (value_of space.now.vars y))) }
{
    let signed = either_has_signed_elements(space, x, y);
    let xs = numbers_of(alloc, space, x)?;
    let ys = numbers_of(alloc, space, y)?;
    Ok(deciding(signed, xs.as_slice(), ys.as_slice()))
}

// The two numbers that decide a comparison of lists whose numbers stand in bytes one behind another.
fn deciding_in_place(signed: bool, k: Kind, xs: &[u8], l: Kind, ys: &[u8]) -> (i64, i64)
    ensures { result ≡ deciding_numbers signed (numbers_in (numbers_in_bytes k xs.now)) (numbers_in (numbers_in_bytes l ys.now)) }
{
    if k == l && xs == ys {
        return (0, 0);
    }
    let (count, other) = (count_in(k, xs), count_in(l, ys));
    let both = count.min(other);
    for i in 0..both {
        let a = taken(signed, i64::from(word_in(k, xs, i)));
        let b = taken(signed, i64::from(word_in(l, ys, i)));
        if a != b {
            return (a, b);
        }
    }
    ((count - both) as i64, (other - both) as i64)
}

// The two numbers that decide a comparison of lists.
fn deciding(signed: bool, xs: &[i64], ys: &[i64]) -> (i64, i64)
    ensures { result ≡ deciding_numbers signed xs.now ys.now }
{
    for (k, x) in xs.iter().enumerate() {
        let Some(y) = ys.get(k) else {
            return ((xs.len() - k) as i64, 0);
        };
        let (a, b) = (taken(signed, *x), taken(signed, *y));
        if a != b {
            return (a, b);
        }
    }
    (0, (ys.len() - xs.len()) as i64)
}
