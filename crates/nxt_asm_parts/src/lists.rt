// The rows and the bytes of a program's lists.

ghost use Rattle.std.specs.Prelude.{◌≡◌, ◌<◌, ◌+◌, ◌*◌, ◌^◌, ◌==◌, if◌then◌else◌, ℕ, pos, [], ◌∷◌, ◌++◌, All, flat_map, length, map, slice_index_or, IfOk, OnOk};
ghost use Rattle.std.specs.Int.{to_le_bytes, w8, w16};
ghost use Rattle.nxt_types.specs.Arithmetic.{width_of, word};
ghost use Rattle.nxt_types.specs.Shapes.{Array, Number, leaf_bytes};
ghost use Rattle.nxt_model.specs.Means.Text.{ended};
ghost use Rattle.nxt_model.specs.Values.{Num, list_of};
ghost use Rattle.nxt_model.specs.TextProgram.{base_shape, constants as constants_of, shape_by, static_size as size_of, text_of, texts as texts_of};
ghost use Rattle.nxt_model.specs.declared.nbc.NbcBase.TheVariants as bases;
ghost use Rattle.nxt_asm_parts.specs.AssembledParts.{arrays_of, dynamic_defaults, element_of, row_bytes, row_count};
ghost use Rattle.nxt_asm_parts.specs.Defaults.{IsNumbers, StartFits, text_leaves, variable_of};
ghost use Rattle.nxt_asm_parts.specs.Lists.{AreSmall, ListsFit, lists_bytes, next_list, var_arrays, with_arrays, zero_arrays};
ghost use Rattle.nxt_asm_parts.specs.Places.{first_shapes};

use crate::constants::Constants;
use crate::defaults::{all_defaults, push_number};
use crate::measure::Measures;
use crate::table::struct_among;
use nxt_model::nbc::{NbcBase, NbcProgram, NbcStart, NbcStruct, NbcType, NbcVar};
use nxt_types::NoMemory;
use nxt_types::kind::Kind;
use nxt_types::lists::Bytes;
use nxt_types::numbers::leaf_size;
use std::alloc::Global;

/// The rows of arrays and the bytes of their lists so far, of which the first stands at a place.
#[derive(Drop)]
pub struct ListsSoFar {
    pub rows: Bytes,
    pub lists: Bytes,
    pub start: u64,
}

// ---- rows

// Adds words, the low bytes first.
fn push_words(bytes: &mut Bytes, words: &[u16]) -> Result<(), NoMemory>
    ensures { OnOk result (bytes.new ≡ bytes.old ++ flat_map (to_le_bytes w16) words.now) }
{
    for word in words {
        bytes.append(&word.to_le_bytes())?;
    }
    Ok(())
}

// Adds the row of an array whose list comes next.
fn write_list_row(lists: &mut ListsSoFar, stride: u64, count: u64) -> Result<(), NoMemory>
    requires place { next_list lists.old < 2 ^ 16 }
    requires stride { stride < 2 ^ 16 }
    requires count { count < 2 ^ 16 }
    ensures { OnOk result (lists.new ≡ record lists.old { rows = lists.old.rows ++ row_bytes (if count == 0 then 65535 else next_list lists.old) stride count }) }
{
    let place = if count == 0 {
        65535
    } else {
        lists.start + lists.lists.len() as u64
    };
    push_words(
        &mut lists.rows,
        &[place as u16, stride as u16, count as u16, 0, 0],
    )
}

// ---- lists

// Adds the bytes of numbers.
fn push_numbers(bytes: &mut Bytes, kind: Kind, numbers: &[i64]) -> Result<(), NoMemory>
    ensures { OnOk result (bytes.new ≡ bytes.old ++ flat_map (λ z. to_le_bytes (width_of kind) (word z)) numbers.now) }
{
    for number in numbers {
        push_number(bytes, kind, *number)?;
    }
    Ok(())
}

// Adds an array with a list of numbers.
fn write_list(lists: &mut ListsSoFar, kind: Kind, numbers: &[i64]) -> Result<(), NoMemory>
    requires { ListsFit lists.old ((Array 0 (Number kind), list_of (map Num numbers.now)) ∷ []) }
    ensures { (n : ℕ) → OnOk result (lists.new ≡ with_arrays lists.old ((Array n (Number kind), list_of (map Num numbers.now)) ∷ [])) }
{
    write_list_row(lists, leaf_size(kind) as u64, numbers.len() as u64)?;
    push_numbers(&mut lists.lists, kind, numbers)
}

// Adds the bytes of a text, and a zero.
fn push_text(bytes: &mut Bytes, text: &[u8]) -> Result<(), NoMemory>
    ensures { OnOk result (bytes.new ≡ bytes.old ++ flat_map (λ b. to_le_bytes w8 (word (pos b))) (ended text.now)) }
{
    for byte in text {
        push_number(bytes, Kind::Ubyte, i64::from(*byte))?;
    }
    push_number(bytes, Kind::Ubyte, 0)
}

// Adds an array with a text.
fn write_text(lists: &mut ListsSoFar, text: &[u8]) -> Result<(), NoMemory>
    requires { ListsFit lists.old (text_leaves text.now) }
    ensures { OnOk result (lists.new ≡ with_arrays lists.old (text_leaves text.now)) }
{
    write_list_row(lists, 1, text.len() as u64 + 1)?;
    push_text(&mut lists.lists, text)
}

// ---- empty arrays

// The bytes that an element takes of a base among the first structs.
fn base_bytes(measures: &Measures, first: usize, base: NbcBase) -> u64
    ensures { let s = base_shape (first_shapes first measures.now) base in leaf_bytes s < 2 ^ 16 → result ≡ leaf_bytes s }
{
    match base {
        NbcBase::Number(kind) => leaf_size(kind) as u64,
        NbcBase::Mutex => 4,
        NbcBase::Struct(position) => {
            if position < first {
                measures.measure(NbcType { base, arrays: 0 }).bytes()
            } else {
                0
            }
        }
    }
}

// The bytes that an element takes of an array of such a base.
fn stride_of(measures: &Measures, first: usize, of: NbcType) -> u64
    requires { 0 < of.arrays }
    ensures { let s = element_of (shape_by (first_shapes first measures.now) of) in leaf_bytes s < 2 ^ 16 → result ≡ leaf_bytes s }
{
    if of.arrays == 1 {
        base_bytes(measures, first, of.base)
    } else {
        2
    }
}

// Adds the empty arrays of a type among the first structs.
#[cycle(empty)]
fn write_empty(
    structs: &[NbcStruct],
    measures: &Measures,
    first: usize,
    of: NbcType,
    lists: &mut ListsSoFar,
) -> Result<(), NoMemory>
    requires measures { measures.now ≡ structs.now }
    requires fits { ListsFit lists.old (zero_arrays (shape_by (first_shapes first structs.now) of)) }
    ensures { OnOk result (lists.new ≡ with_arrays lists.old (zero_arrays (shape_by (first_shapes first structs.now) of))) }
{
    if of.arrays == 0 {
        write_empty_base(structs, measures, first, of.base, lists)
    } else {
        write_list_row(lists, stride_of(measures, first, of), 0)
    }
}

#[cycle(empty)]
fn write_empty_base(
    structs: &[NbcStruct],
    measures: &Measures,
    first: usize,
    base: NbcBase,
    lists: &mut ListsSoFar,
) -> Result<(), NoMemory>
    requires measures { measures.now ≡ structs.now }
    requires fits { ListsFit lists.old (zero_arrays (base_shape (first_shapes first structs.now) base)) }
    ensures { OnOk result (lists.new ≡ with_arrays lists.old (zero_arrays (base_shape (first_shapes first structs.now) base))) }
{
    if let NbcBase::Struct(position) = base {
        if let Some(found) = struct_among(structs, first, position) {
            return write_empty_members(
                structs,
                measures,
                position,
                found.members.as_slice(),
                lists,
            );
        }
    }
    Ok(())
}

// Adds those of types among the first structs.
#[cycle(empty)]
fn write_empty_members(
    structs: &[NbcStruct],
    measures: &Measures,
    first: usize,
    types: &[NbcType],
    lists: &mut ListsSoFar,
) -> Result<(), NoMemory>
    requires measures { measures.now ≡ structs.now }
    requires fits { ListsFit lists.old (flat_map (λ t. zero_arrays (shape_by (first_shapes first structs.now) t)) types.now) }
    ensures { OnOk result (lists.new ≡ with_arrays lists.old (flat_map (λ t. zero_arrays (shape_by (first_shapes first structs.now) t)) types.now)) }
{
    for of in types {
        write_empty(structs, measures, first, *of, lists)?;
    }
    Ok(())
}

// ---- variables

/// The kind of a base of numbers.
pub fn kind_of(base: NbcBase) -> Kind
    requires { IsNumbers base }
    ensures { bases.Number result ≡ base }
{
    match base {
        NbcBase::Number(kind) => kind,
        _ => Kind::Ubyte,
    }
}

// Adds the arrays of a declared variable.
fn write_var_lists(
    structs: &[NbcStruct],
    measures: &Measures,
    var: &NbcVar,
    lists: &mut ListsSoFar,
) -> Result<(), NoMemory>
    requires measures { measures.now ≡ structs.now }
    requires start { StartFits var.now.shape var.now.start }
    requires fits { ListsFit lists.old (var_arrays (variable_of structs.now var.now)) }
    ensures { OnOk result (lists.new ≡ with_arrays lists.old (var_arrays (variable_of structs.now var.now))) }
{
    match &var.start {
        NbcStart::Zero => write_empty(structs, measures, structs.len(), var.shape, lists),
        NbcStart::Num(_) => Ok(()),
        NbcStart::List(numbers) => {
            write_list(lists, kind_of(var.shape.base), numbers.as_slice())
        }
        NbcStart::Text(bytes) => write_text(lists, bytes.as_slice()),
    }
}

// Adds those of the declared variables.
fn write_all_vars(
    structs: &[NbcStruct],
    measures: &Measures,
    vars: &[NbcVar],
    lists: &mut ListsSoFar,
) -> Result<(), NoMemory>
    requires measures { measures.now ≡ structs.now }
    requires starts { All (λ v. StartFits v.shape v.start) vars.now }
    requires fits { ListsFit lists.old (flat_map (λ v. var_arrays (variable_of structs.now v)) vars.now) }
    ensures { OnOk result (lists.new ≡ with_arrays lists.old (flat_map (λ v. var_arrays (variable_of structs.now v)) vars.now)) }
{
    for var in vars {
        write_var_lists(structs, measures, var, lists)?;
    }
    Ok(())
}

// ---- constants

// Adds the text constant at a place.
fn write_text_at(
    constants: &Constants,
    place: usize,
    lists: &mut ListsSoFar,
) -> Result<(), NoMemory>
    requires place { place < length constants.now.texts }
    requires fits { ListsFit lists.old (text_leaves (slice_index_or constants.now.texts place [])) }
    ensures { OnOk result (lists.new ≡ with_arrays lists.old (text_leaves (slice_index_or constants.now.texts place []))) }
{
    match constants.text(place) {
        Some(text) => write_text(lists, text),
        None => Ok(()),
    }
}

// Adds the text constants.
fn write_all_texts(constants: &Constants, lists: &mut ListsSoFar) -> Result<(), NoMemory>
    requires { ListsFit lists.old (flat_map text_leaves constants.now.texts) }
    ensures { OnOk result (lists.new ≡ with_arrays lists.old (flat_map text_leaves constants.now.texts)) }
{
    for place in 0..constants.text_count() {
        write_text_at(constants, place, lists)?;
    }
    Ok(())
}

// ---- the defaults

// The table's own row, then those of arrays, and then the lists.
fn table_of_rows(
    alloc: Global,
    static_size: u64,
    rows: u64,
    lists: &ListsSoFar,
) -> Result<Bytes, NoMemory>
    requires place { static_size < 2 ^ 16 }
    requires rows { rows < 2 ^ 16 }
    ensures { IfOk result (λ bytes. bytes ≡ row_bytes static_size 10 rows ++ lists.now.rows ++ lists.now.lists) }
{
    let mut bytes = Bytes::new(alloc);
    push_words(&mut bytes, &[static_size as u16, 10, rows as u16, 0, 0])?;
    bytes.append(lists.rows.as_slice())?;
    bytes.append(lists.lists.as_slice())?;
    Ok(bytes)
}

/// The dynamic defaults of a program with these measures and constants, behind its static bytes: the table of rows and
/// the lists' bytes, or nothing where there are no arrays.
pub fn dynamic_defaults_of(
    alloc: Global,
    program: &NbcProgram,
    measures: &Measures,
    constants: &Constants,
    static_size: u64,
) -> Result<Bytes, NoMemory>
    requires measures { measures.now ≡ program.now.structs }
    requires numbers { constants.now.numbers ≡ constants_of (text_of program.now) }
    requires texts { constants.now.texts ≡ texts_of (text_of program.now) }
    requires starts { All (λ v. StartFits v.shape v.start) program.now.vars }
    requires size { static_size ≡ size_of (text_of program.now) }
    requires places { static_size + 10 * row_count (text_of program.now) + length (lists_bytes (arrays_of (text_of program.now))) < 2 ^ 16 }
    requires small { AreSmall (arrays_of (text_of program.now)) }
    ensures { IfOk result (λ bytes. bytes ≡ dynamic_defaults (text_of program.now)) }
{
    let defaults = all_defaults(alloc, program, constants)?;
    let rows = defaults.row;
    if rows == 1 {
        return Ok(Bytes::new(alloc));
    }
    let mut lists = ListsSoFar {
        rows: Bytes::new(alloc),
        lists: Bytes::new(alloc),
        start: static_size + 10 * rows,
    };
    write_all_vars(
        program.structs.as_slice(),
        measures,
        program.vars.as_slice(),
        &mut lists,
    )?;
    write_all_texts(constants, &mut lists)?;
    table_of_rows(alloc, static_size, rows, &lists)
}
