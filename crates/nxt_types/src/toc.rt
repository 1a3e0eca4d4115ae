// The table of a program's variables.

ghost use Rattle.std.specs.Prelude.{◌≡◌, ◌<◌, ◌^◌, map, length, option_map, slice_get, IfOk, OnSome, IsSome};
ghost use Rattle.std.specs.Option.{option_copied};
ghost use Rattle.nxt_types.specs.Shapes.{Array, tree, cluster_of};
ghost use Rattle.nxt_types.specs.Names.{name_among, is_leaf as is_leaf_shape, place as place_of};
ghost use Rattle.nxt_types.specs.Tables.{outside_among, trees_of, variables_of};

use crate::lists::Entries;
use crate::memory::NoMemory;
use crate::shape::{Shape, Shapes, TocEntry};
use std::alloc::Global;
use std::marker::Model;

impl Shape {
    /// A list of such elements, each `stride` bytes behind the one before it.
    pub fn list(alloc: Global, stride: u32, element: Shape) -> Result<Shape, NoMemory>
        ensures { IfOk result (λ s. tree s ≡ Array stride (tree element)) }
    {
        Ok(Shape::List(stride, Box::new(alloc, element)?))
    }

    /// A group of these members.
    pub fn group(members: Vec<Shape>) -> Shape
        ensures { tree result ≡ cluster_of (map tree members.items) }
    {
        Shape::Group(Shapes { items: members })
    }
}

/// The same shape once more.
#[cycle(copy)]
pub fn copy_of(alloc: Global, shape: &Shape) -> Result<Shape, NoMemory>
    ensures { IfOk result (λ s. tree s ≡ tree shape.now) }
{
    match shape {
        Shape::Void => Ok(Shape::Void),
        Shape::Num(kind) => Ok(Shape::Num(*kind)),
        Shape::List(stride, element) => {
            let element = copy_of(alloc, element)?;
            Shape::list(alloc, *stride, element)
        }
        Shape::Group(members) => {
            let members = copies_of(alloc, members.items.as_slice())?;
            Ok(Shape::group(members))
        }
        Shape::Mutex => Ok(Shape::Mutex),
    }
}

#[cycle(copy)]
fn copies_of(alloc: Global, shapes: &[Shape]) -> Result<Vec<Shape>, NoMemory>
    ensures { IfOk result (λ copies. map tree copies.items ≡ map tree shapes.now) }
{
    let mut copies = Vec::new(alloc);
    for shape in shapes {
        copies.push(copy_of(alloc, shape)?)?;
    }
    Ok(copies)
}

// The same shapes by entry once more.
fn outside_copies(alloc: Global, shapes: &[Option<Shape>]) -> Result<Vec<Option<Shape>>, NoMemory>
    ensures { IfOk result (λ copies. trees_of copies.items ≡ trees_of shapes.now) }
{
    let mut copies = Vec::new(alloc);
    for shape in shapes {
        let copy = match shape {
            Some(shape) => Some(copy_of(alloc, shape)?),
            None => None,
        };
        copies.push(copy)?;
    }
    Ok(copies)
}

/// Whether it is a number, a list or a mutex.
pub fn is_leaf(shape: &Shape) -> bool
    ensures { result ≡ is_leaf_shape (tree shape.now) }
{
    matches!(shape, Shape::Num(_) | Shape::List(..) | Shape::Mutex)
}

/// A dataspace table with the shapes that it spells
/// (Executable File Specification, "Dataspace Table of Contents").
#[derive(Drop)]
pub struct Toc {
    entries: Entries,
    shapes: Vec<Option<Shape>>,
}

impl Model for Toc {
    ghost use Rattle.std.specs.Prelude.{◌≡◌, ◌<◌, ◌^◌, length};
    ghost use Rattle.std.specs.Coded.{codes};
    ghost use Rattle.nxt_types.specs.Tables.{Table, outside_among, trees_of, variables_of};
    ghost use Rattle.nxt_types.specs.ShapeCodes.{coded_members};
    ghost use Rattle.nxt_types.specs.contracts.shape.TocEntry as toc_entry;

    ghost Value = { Table };

    ghost coded = { Prim.hlevel (codes, coded_members, toc_entry.the_row.coded) };

    ghost view = { λ t. record { entries = t.entries; shapes = variables_of t.shapes.items } };

    ghost invariant = { λ t. (length t.entries < 2 ^ 16) × (trees_of t.shapes.items ≡ outside_among (variables_of t.shapes.items)) };
}

impl Toc {
    /// The table of these entries, with the shape of each that stands outside of all elements.
    pub fn new(entries: Entries, shapes: Vec<Option<Shape>>) -> Toc
        requires count { length entries < 2 ^ 16 }
        requires shapes { trees_of shapes.items ≡ outside_among (variables_of shapes.items) }
        ensures { result ≡ record { entries = entries; shapes = variables_of shapes.items } }
    {
        Toc { entries, shapes }
    }

    /// How many entries there are.
    pub fn count(&self) -> u16
        ensures { result ≡ length self.now.entries }
    {
        self.entries.len() as u16
    }

    /// The entry of that number, if there is one.
    pub fn entry(&self, i: u16) -> Option<TocEntry>
        ensures { result ≡ slice_get self.now.entries i }
    {
        self.entries.as_slice().get(i as usize).copied()
    }

    /// The shape that begins at an entry outside of all elements.
    pub fn shape(&self, i: u16) -> Option<&Shape>
        ensures { option_map (λ s. tree s.now) result ≡ option_map (λ n. n.shape) (name_among self.now.shapes 0 i) }
    {
        let found = self.shapes.get(i as usize)?;
        found.as_ref()
    }

    /// Where the entry's leaf stands in the dataspace, in bytes, if it is a leaf outside of all elements.
    pub fn place(&self, i: u16) -> Option<u32>
        ensures { result ≡ place_of self.now.entries self.now.shapes i }
    {
        let shape = self.shape(i)?;
        let entry = self.entry(i)?;
        if is_leaf(shape) {
            Some(u32::from(entry.desc))
        } else {
            None
        }
    }

    /// The same table once more.
    pub fn copied(&self, alloc: Global) -> Result<Toc, NoMemory>
        ensures { IfOk result (λ toc. toc ≡ self.now) }
    {
        let mut entries = Entries::new(alloc);
        entries.append(self.entries.as_slice())?;
        let shapes = outside_copies(alloc, self.shapes.as_slice())?;
        Ok(Toc { entries, shapes })
    }

    /// The entries in order.
    pub fn entries(&self) -> &[TocEntry]
        ensures { result.now ≡ self.now.entries }
    {
        self.entries.as_slice()
    }
}
