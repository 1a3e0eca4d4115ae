// The layout of a file's data.

ghost use Rattle.std.specs.Prelude.{◌≡◌, ◌<◌, ◌≤◌, ◌^◌, length, map, slice_index, All, IfOk, IfErr, None, Some, ◌⊎◌};
ghost use Rattle.nxt_types.specs.Shapes.{Members};
ghost use Rattle.nxt_types.specs.Tables.{trees_of, outside_among, variables_of};
ghost use Rattle.nxt_types.specs.Refusals.{IsRefusal};
ghost use Rattle.nxt_rxe.specs.Files.{HasCounts};
ghost use Rattle.nxt_table.specs.Leaves.{AreShapes};
ghost use Rattle.nxt_table.specs.Strides.{all_with_strides};
ghost use Rattle.nxt_table.specs.Inside.Enclosing.{placed_entries as entries_placed};
ghost use Rattle.nxt_table.specs.Inside.Checks.{leaves_of as leaves_in};
ghost use Rattle.nxt_table.specs.KeptTables.{KeepsTable};
ghost use Rattle.nxt_layout.specs.LayoutRules.{rank, Broken};
ghost use Rattle.nxt_layout.specs.Inside.RowPasses.{ground_of, AreTold};
ghost use Rattle.nxt_layout.specs.declared.fault.LayoutFault.TheVariants.{NoMemory as no_memory};
ghost use Rattle.nxt_layout.specs.Layouts.{IsLayout};
ghost use Rattle.nxt_layout.specs.Inside.Passes.{IsFound, row_fault, pool_fault, ground_in, arrays_in, spells_array as has_array_entry, rows_in_file, size_of_start};

use crate::dataspace::Dataspace;
use crate::fault::LayoutFault;
use crate::reach::Arrays;
use crate::rows::{check_rows, found_arrays, full_bytes, has_table, lists_of, strides_of};
use nxt_rxe::parts::{CodeSections, Parts};
use nxt_table::enclosing::NestedEntry;
use nxt_table::leaves::PlacedLeaf;
use nxt_table::shapes::outside_shapes;
use nxt_table::{Table, check_table};
use nxt_types::NoMemory;
use nxt_types::pool::{POOL_BYTES, ROW_BYTES, round4};
use nxt_types::shape::{Shape, TocEntry};
use nxt_types::toc::Toc;
use std::alloc::Global;
use std::marker::Model;

/// The table of an accepted file with its shapes, and the dataspace with which its program starts.
#[derive(Drop)]
pub struct Layout {
    toc: Toc,
    bytes: Vec<u8>,
    static_size: u16,
    dope_at: u16,
    file_rows: u16,
    footprint: u32,
}

impl Model for Layout {
    ghost use Rattle.std.specs.Coded.{codes};
    ghost use Rattle.nxt_types.specs.ShapeCodes.{coded_members};
    ghost use Rattle.nxt_types.specs.contracts.shape.TocEntry as toc_entry;
    ghost use Rattle.nxt_layout.specs.Layouts.{FileLayout};

    ghost Value = { FileLayout };

    ghost coded = { Prim.hlevel (codes, coded_members, toc_entry.the_row.coded) };

    ghost view = { λ l. record { entries = l.toc.entries; shapes = l.toc.shapes; dataspace = l.bytes.items; static_size = l.static_size; dope_at = l.dope_at; rows = l.file_rows; footprint = l.footprint } };
}

/// The layout of a file's variables, with its clumps and its code, or the first broken rule of its table and data at its
/// least place (Executable File Specification, "Dataspace Table of Contents", "Default Values", "Dope Vectors"). Of parts
/// that no file spells nothing is said, and where they aren't as long as their header tells the answer is the table's
/// `TypeOpen(0)`.
pub fn check_layout(alloc: Global, parts: Parts) -> Result<(Layout, CodeSections), LayoutFault>
    ensures found { HasCounts parts → IfOk result (λ found. IsLayout parts found.0) }
    ensures rest { IfOk result (λ found. found.1 ≡ record { clumps = parts.clumps; dependents = parts.dependents; code = parts.code }) }
    ensures refused { HasCounts parts → IfErr result (λ fault. (fault ≡ no_memory) ⊎ IsRefusal (Broken parts) rank fault) }
{
    let Table {
        placed,
        leaves,
        bytes,
    } = check_table(alloc, &parts)?;
    let space = Dataspace {
        bytes,
        table: parts.header.dope_at,
        static_size: parts.header.static_size,
    };
    let arrays = check_arrays(alloc, &parts, &space, leaves.as_slice())?;
    let footprint = check_pool(&parts, &space, &arrays)?;
    let strides = strides_of(alloc, arrays.found.as_slice(), parts.toc.len())?;
    let shapes = shapes_of(alloc, &parts, placed.as_slice(), strides.as_slice())?;
    let file_rows = file_rows(&parts, &space);
    let Parts {
        header,
        toc,
        defaults: _defaults,
        clumps,
        dependents,
        code,
    } = parts;
    let layout = Layout {
        toc: Toc::new(toc, shapes),
        bytes: space.bytes,
        static_size: header.static_size,
        dope_at: header.dope_at,
        file_rows,
        footprint,
    };
    let rest = CodeSections {
        clumps,
        dependents,
        code,
    };
    Ok((layout, rest))
}

impl Layout {
    /// The dataspace table.
    pub fn toc(&self) -> &Toc
        ensures { result.now ≡ record { entries = self.now.entries; shapes = self.now.shapes } }
    {
        &self.toc
    }

    /// The dataspace table alone.
    pub fn into_toc(self) -> Toc
        ensures { result ≡ record { entries = self.entries; shapes = self.shapes } }
    {
        self.toc
    }

    /// The bytes of the pool that the start needs.
    pub fn footprint(&self) -> u32
        ensures { result ≡ self.now.footprint }
    {
        self.footprint
    }

    /// The rows of the file's table of rows; 1 where the file has no arrays.
    pub fn file_rows(&self) -> u16
        ensures { result ≡ self.now.rows }
    {
        self.file_rows
    }

    /// The bytes of the numbers, row numbers and mutexes outside of all elements.
    pub fn static_size(&self) -> u16
        ensures { result ≡ self.now.static_size }
    {
        self.static_size
    }

    /// Where the file's table of rows stands in the dataspace.
    pub fn dope_at(&self) -> u16
        ensures { result ≡ self.now.dope_at }
    {
        self.dope_at
    }

    /// The bytes of the dataspace at the start.
    pub fn dataspace(&self) -> &[u8]
        ensures { result.now ≡ self.now.dataspace }
    {
        self.bytes.as_slice()
    }
}

// The shapes of a table's variables, by the entries' strides.
fn shapes_of(
    alloc: Global,
    parts: &Parts,
    placed: &[NestedEntry],
    strides: &[u32],
) -> Result<Vec<Option<Shape>>, NoMemory>
    requires placed { placed.now ≡ entries_placed parts.now.toc }
    requires strides { length strides.now ≡ length placed.now }
    requires kept { KeepsTable parts.now }
    ensures outside { IfOk result (λ shapes. trees_of shapes.items ≡ outside_among (variables_of shapes.items)) }
    ensures shapes { IfOk result (λ shapes. (ss : Members) → AreShapes parts.now.toc ss → variables_of shapes.items ≡ all_with_strides (slice_index strides.now) 0 ss) }
{
    outside_shapes(alloc, placed, strides)
}

// The arrays of a file that keeps the rules on rows.
fn check_arrays(
    alloc: Global,
    parts: &Parts,
    space: &Dataspace,
    leaves: &[PlacedLeaf],
) -> Result<Arrays, LayoutFault>
    requires leaves { leaves.now ≡ leaves_in parts.now }
    requires places { All (λ l. l.place < 2 ^ 16) leaves.now }
    requires count { length parts.now.toc < 2 ^ 16 }
    requires space { ground_of space.now ≡ ground_in parts.now }
    ensures told { IfOk result (AreTold (ground_in parts.now) (arrays_in parts.now)) }
    ensures count { IfOk result (λ a. length a.found.items ≤ 2 ^ 16) }
    ensures kept { IfOk result (λ _. row_fault parts.now ≡ None) }
    ensures refused { IfErr result (IsFound (row_fault parts.now)) }
{
    if spells_array(parts.toc.as_slice()) && !has_table(&parts.header, space) {
        return Err(LayoutFault::RowZero);
    }
    let arrays = found_arrays(alloc, space, leaves, parts.toc.len())?;
    check_rows(alloc, space, &arrays)?;
    Ok(arrays)
}

// The bytes of the pool that the start needs.
fn check_pool(parts: &Parts, space: &Dataspace, arrays: &Arrays) -> Result<u32, LayoutFault>
    requires space { ground_of space.now ≡ ground_in parts.now }
    requires told { AreTold (ground_in parts.now) (arrays_in parts.now) arrays.now }
    requires count { length arrays.now.found.items ≤ 2 ^ 16 }
    ensures found { IfOk result (λ size. (size ≡ size_of_start parts.now) × (pool_fault parts.now ≡ None)) }
    ensures refused { IfErr result (λ fault. pool_fault parts.now ≡ Some fault) }
{
    let rows = u64::from(file_rows(parts, space));
    let lists = lists_of(arrays.found.as_slice());
    let bytes = full_bytes(space, arrays.marks.as_slice());
    let size = round4(u64::from(parts.header.static_size))
        + round4(ROW_BYTES * rows.max(lists + 1))
        + bytes;
    if size > POOL_BYTES {
        return Err(LayoutFault::PoolPassed(size));
    }
    Ok(size as u32)
}

fn file_rows(parts: &Parts, space: &Dataspace) -> u16
    requires { ground_of space.now ≡ ground_in parts.now }
    ensures { result ≡ rows_in_file parts.now }
{
    if spells_array(parts.toc.as_slice()) {
        space.rows()
    } else {
        1
    }
}

fn spells_array(entries: &[TocEntry]) -> bool
    ensures { result ≡ has_array_entry entries.now }
{
    entries.iter().any(|entry| entry.code == 7)
}
