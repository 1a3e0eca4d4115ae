// Calls that test what they require, on variables with the shapes of a table.

ghost use Rattle.std.specs.Prelude.{◌≡◌, IsSome, IsTrue, IfOk};
ghost use Rattle.nxt_types.specs.Shapes.{Array, Members, Number, is_number};
ghost use Rattle.nxt_types.specs.Names.{name_among};
ghost use Rattle.nxt_types.specs.declared.kind.Kind.TheVariants.{Ubyte};
ghost use Rattle.nxt_values.specs.Sizes.{IsCountable, size_of_filled};
ghost use Rattle.nxt_space.specs.Variables.{HasPart, shape_by};

use super::counting::counted;
use nxt_space::{Flat, Path, PoolPassed, Space};
use nxt_types::kind::Kind;
use nxt_types::shape::Shape;
use nxt_types::toc::Toc;
use std::alloc::Global;
use std::process::Abort;
use std::test::Fail;

fn has_number(toc: &Toc, i: u16) -> bool
    ensures { (s : Members) → toc.now.shapes ≡ s → IsTrue result → IsTrue (is_number (shape_by (name_among s 0 i))) }
{
    matches!(toc.shape(i), Some(Shape::Num(_)))
}

fn has_bytes(toc: &Toc, i: u16) -> bool
    ensures { (s : Members) → toc.now.shapes ≡ s → IsTrue result → shape_by (name_among s 0 i) ≡ Array 1 (Number Ubyte) }
{
    match toc.shape(i) {
        Some(Shape::List(1, element)) => matches!(&**element, Shape::Num(Kind::Ubyte)),
        _ => false,
    }
}

fn has_name(toc: &Toc, i: u16) -> bool
    ensures { (s : Members) → toc.now.shapes ≡ s → IsTrue result → IsSome (name_among s 0 i) }
{
    toc.shape(i).is_some()
}

fn is_storable(toc: &Toc, i: u16, flat: &Flat) -> bool
    ensures named { (s : Members) → toc.now.shapes ≡ s → IsTrue result → IsSome (name_among s 0 i) }
    ensures countable { (s : Members) → toc.now.shapes ≡ s → IsTrue result → IsCountable (size_of_filled (shape_by (name_among s 0 i)) flat.now) }
{
    let Some(shape) = toc.shape(i) else {
        return false;
    };
    match counted(shape, flat.as_slice()) {
        Some((size, _)) => size.lists < 1 << 56 && size.bytes < 3 << 62,
        None => false,
    }
}

// Whether each position is one of the list's to which those before it lead.
fn has_part(alloc: Global, toc: &Toc, space: &Space, path: &Path) -> Result<bool, Fail>
    requires { toc.now.shapes ≡ space.now.vars.shapes }
    ensures { IfOk result (λ yes. IsTrue yes → HasPart space.now.vars path.now) }
{
    let Some(shape) = toc.shape(path.var) else {
        return Ok(false);
    };
    let mut shape = shape;
    let mut front = Path {
        var: path.var,
        steps: Flat::new(alloc),
    };
    for step in path.steps.as_slice() {
        let Shape::List(_, element) = shape else {
            return Ok(false);
        };
        if step.unsigned_abs() >= u64::from(space.length(&front)) {
            return Ok(false);
        }
        front.steps.push(*step)?;
        shape = element;
    }
    Ok(true)
}

pub fn set(rt: &impl Abort, toc: &Toc, space: &mut Space, i: u16, x: i64)
    requires { toc.now.shapes ≡ space.old.vars.shapes }
    ensures { space.new.vars.shapes ≡ space.old.vars.shapes }
{
    let number = has_number(toc, i);
    assert!(rt; number);
    space.set(i, x);
}

pub(crate) fn length(
    rt: &impl Abort,
    alloc: Global,
    toc: &Toc,
    space: &Space,
    path: &Path,
) -> Result<u32, Fail>
    requires { toc.now.shapes ≡ space.now.vars.shapes }
{
    let part = has_part(alloc, toc, space, path)?;
    assert!(rt; part);
    Ok(space.length(path))
}

pub(crate) fn gather(
    rt: &impl Abort,
    alloc: Global,
    toc: &Toc,
    space: &Space,
    path: &Path,
    into: &mut Flat,
) -> Result<(), Fail>
    requires { toc.now.shapes ≡ space.now.vars.shapes }
{
    let part = has_part(alloc, toc, space, path)?;
    assert!(rt; part);
    space.gather(path, into)?;
    Ok(())
}

pub(crate) fn room(
    rt: &impl Abort,
    toc: &Toc,
    space: &Space,
    i: u16,
    bytes: u64,
    lists: u64,
) -> Result<(), PoolPassed>
    requires { toc.now.shapes ≡ space.now.vars.shapes }
{
    let named = has_name(toc, i);
    assert!(rt; named);
    assert!(rt; lists < 1 << 56);
    assert!(rt; bytes < 3 << 62);
    space.room(i, bytes, lists)
}

pub fn store(
    rt: &impl Abort,
    toc: &Toc,
    space: &mut Space,
    i: u16,
    flat: &Flat,
) -> Result<(), PoolPassed>
    requires { toc.now.shapes ≡ space.old.vars.shapes }
    ensures { space.new.vars.shapes ≡ space.old.vars.shapes }
{
    let storable = is_storable(toc, i, flat);
    assert!(rt; storable);
    space.store(i, flat)
}

/// The bytes that a list of bytes lends.
pub(crate) fn lent(
    rt: &impl Abort,
    alloc: Global,
    toc: &Toc,
    space: &Space,
    i: u16,
) -> Result<Vec<u8>, Fail>
    requires { toc.now.shapes ≡ space.now.vars.shapes }
{
    let bytes = has_bytes(toc, i);
    assert!(rt; bytes);
    Ok(space.with_bytes(i, |bytes| bytes.to_vec(alloc))?)
}
