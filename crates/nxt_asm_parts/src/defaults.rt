// The default data of a program's variables and constants.

ghost use Rattle.std.specs.Prelude.{◌≡◌, ◌<◌, ◌≤◌, ◌+◌, ◌^◌, ℕ, pos, List, [], ◌∷◌, ◌++◌, All, flat_map, length, slice_index_or, IfOk, OnOk};
ghost use Rattle.std.specs.Int.{to_le_bytes};
ghost use Rattle.nxt_types.specs.Arithmetic.{width_of, word};
ghost use Rattle.nxt_types.specs.Shapes.{Shape, Array, Mutex, Number};
ghost use Rattle.nxt_model.specs.Values.{Value, Num};
ghost use Rattle.nxt_model.specs.TextProgram.{base_shape, constants as constants_of, shape_by, text_of, texts as texts_of};
ghost use Rattle.nxt_asm_parts.specs.AssembledParts.{arrays_of, row_count, static_defaults};
ghost use Rattle.nxt_asm_parts.specs.Defaults.{IsNumbers, RowsFit, StartFits, constant_leaves, return_leaves, text_leaves, var_leaves, variable_of, with_leaves, zero_leaves};
ghost use Rattle.nxt_asm_parts.specs.Places.{first_shapes};

use crate::constants::Constants;
use crate::table::struct_among;
use nxt_model::nbc::{NbcBase, NbcBlock, NbcProgram, NbcStart, NbcStruct, NbcType, NbcVar};
use nxt_types::NoMemory;
use nxt_types::kind::Kind;
use nxt_types::lists::Bytes;
use nxt_types::numbers::wrap;
use std::alloc::Global;

/// The static defaults so far, and the number of the next array's row.
#[derive(Drop)]
pub struct DefaultsSoFar {
    pub bytes: Bytes,
    pub row: u64,
}

// ---- leaves

// Adds the bytes of a number of a kind, the low ones first.
pub(crate) fn push_number(bytes: &mut Bytes, kind: Kind, z: i64) -> Result<(), NoMemory>
    ensures { OnOk result (bytes.new ≡ bytes.old ++ to_le_bytes (width_of kind) (word z)) }
{
    let word = wrap(z).to_le_bytes();
    match kind {
        Kind::Ubyte | Kind::Sbyte => bytes.append(&word[..1]),
        Kind::Uword | Kind::Sword => bytes.append(&word[..2]),
        Kind::Ulong | Kind::Slong => bytes.append(&word),
    }
}

// Adds a number.
fn write_number(defaults: &mut DefaultsSoFar, kind: Kind, z: i64) -> Result<(), NoMemory>
    ensures { OnOk result (defaults.new ≡ with_leaves defaults.old ((Number kind, Num z) ∷ [])) }
{
    push_number(&mut defaults.bytes, kind, z)
}

// Adds the number of an array's row.
fn write_row(defaults: &mut DefaultsSoFar) -> Result<(), NoMemory>
    requires { defaults.old.row < 2 ^ 16 }
    ensures { (n : ℕ) (s : Shape) (v : Value) → OnOk result (defaults.new ≡ with_leaves defaults.old ((Array n s, v) ∷ [])) }
{
    defaults.bytes.append(&(defaults.row as u16).to_le_bytes())?;
    defaults.row += 1;
    Ok(())
}

// Adds a mutex.
fn write_mutex(defaults: &mut DefaultsSoFar) -> Result<(), NoMemory>
    ensures { OnOk result (defaults.new ≡ with_leaves defaults.old ((Mutex, Num (pos 0)) ∷ [])) }
{
    defaults.bytes.append(&[0, 0, 0, 0])
}

// ---- types

// Adds the zeros of a type among the first structs.
#[cycle(defaults)]
fn write_type(
    structs: &[NbcStruct],
    first: usize,
    of: NbcType,
    defaults: &mut DefaultsSoFar,
) -> Result<(), NoMemory>
    requires { RowsFit defaults.old (zero_leaves (shape_by (first_shapes first structs.now) of)) }
    ensures { OnOk result (defaults.new ≡ with_leaves defaults.old (zero_leaves (shape_by (first_shapes first structs.now) of))) }
{
    if of.arrays == 0 {
        write_base(structs, first, of.base, defaults)
    } else {
        write_row(defaults)
    }
}

#[cycle(defaults)]
fn write_base(
    structs: &[NbcStruct],
    first: usize,
    base: NbcBase,
    defaults: &mut DefaultsSoFar,
) -> Result<(), NoMemory>
    requires { RowsFit defaults.old (zero_leaves (base_shape (first_shapes first structs.now) base)) }
    ensures { OnOk result (defaults.new ≡ with_leaves defaults.old (zero_leaves (base_shape (first_shapes first structs.now) base))) }
{
    match base {
        NbcBase::Number(kind) => write_number(defaults, kind, 0),
        NbcBase::Mutex => write_mutex(defaults),
        NbcBase::Struct(position) => match struct_among(structs, first, position) {
            Some(found) => write_members(structs, position, found.members.as_slice(), defaults),
            None => Ok(()),
        },
    }
}

// Adds the zeros of types among the first structs.
#[cycle(defaults)]
fn write_members(
    structs: &[NbcStruct],
    first: usize,
    types: &[NbcType],
    defaults: &mut DefaultsSoFar,
) -> Result<(), NoMemory>
    requires { RowsFit defaults.old (flat_map (λ t. zero_leaves (shape_by (first_shapes first structs.now) t)) types.now) }
    ensures { OnOk result (defaults.new ≡ with_leaves defaults.old (flat_map (λ t. zero_leaves (shape_by (first_shapes first structs.now) t)) types.now)) }
{
    for of in types {
        write_type(structs, first, *of, defaults)?;
    }
    Ok(())
}

// ---- variables

// Adds a number of a base.
fn write_start(base: NbcBase, z: i64, defaults: &mut DefaultsSoFar) -> Result<(), NoMemory>
    requires { IsNumbers base }
    ensures { OnOk result (defaults.new ≡ with_leaves defaults.old ((base_shape [] base, Num z) ∷ [])) }
{
    match base {
        NbcBase::Number(kind) => write_number(defaults, kind, z),
        _ => Ok(()),
    }
}

// Adds a declared variable.
fn write_var(
    structs: &[NbcStruct],
    var: &NbcVar,
    defaults: &mut DefaultsSoFar,
) -> Result<(), NoMemory>
    requires fits { StartFits var.now.shape var.now.start }
    requires rows { RowsFit defaults.old (var_leaves (variable_of structs.now var.now)) }
    ensures { OnOk result (defaults.new ≡ with_leaves defaults.old (var_leaves (variable_of structs.now var.now))) }
{
    match &var.start {
        NbcStart::Zero => write_type(structs, structs.len(), var.shape, defaults),
        NbcStart::Num(z) => write_start(var.shape.base, *z, defaults),
        NbcStart::List(_) => write_row(defaults),
        NbcStart::Text(_) => write_row(defaults),
    }
}

// Adds the declared variables.
fn write_vars(
    structs: &[NbcStruct],
    vars: &[NbcVar],
    defaults: &mut DefaultsSoFar,
) -> Result<(), NoMemory>
    requires fit { All (λ v. StartFits v.shape v.start) vars.now }
    requires rows { RowsFit defaults.old (flat_map (λ v. var_leaves (variable_of structs.now v)) vars.now) }
    ensures { OnOk result (defaults.new ≡ with_leaves defaults.old (flat_map (λ v. var_leaves (variable_of structs.now v)) vars.now)) }
{
    for var in vars {
        write_var(structs, var, defaults)?;
    }
    Ok(())
}

// Adds the return variable of a block, if it is a subroutine.
fn write_return(block: &NbcBlock, defaults: &mut DefaultsSoFar) -> Result<(), NoMemory>
    ensures { OnOk result (defaults.new ≡ with_leaves defaults.old (return_leaves block.now)) }
{
    if block.subroutine {
        write_number(defaults, Kind::Ubyte, 0)
    } else {
        Ok(())
    }
}

// Adds those of blocks.
fn write_returns(blocks: &[NbcBlock], defaults: &mut DefaultsSoFar) -> Result<(), NoMemory>
    ensures { OnOk result (defaults.new ≡ with_leaves defaults.old (flat_map return_leaves blocks.now)) }
{
    for block in blocks {
        write_return(block, defaults)?;
    }
    Ok(())
}

// ---- constants

// The number constant at a place.
fn number_at(constants: &Constants, place: usize) -> i64
    ensures { result ≡ slice_index_or constants.now.numbers place (pos 0) }
{
    constants.number(place).unwrap_or(0)
}

// Adds the number constants.
fn write_numbers(constants: &Constants, defaults: &mut DefaultsSoFar) -> Result<(), NoMemory>
    ensures { OnOk result (defaults.new ≡ with_leaves defaults.old (flat_map constant_leaves constants.now.numbers)) }
{
    for place in 0..constants.number_count() {
        write_number(defaults, Kind::Slong, number_at(constants, place))?;
    }
    Ok(())
}

// Adds the text constants' rows.
fn write_texts(constants: &Constants, defaults: &mut DefaultsSoFar) -> Result<(), NoMemory>
    requires { RowsFit defaults.old (flat_map text_leaves constants.now.texts) }
    ensures { OnOk result (defaults.new ≡ with_leaves defaults.old (flat_map text_leaves constants.now.texts)) }
{
    for _ in 0..constants.text_count() {
        write_row(defaults)?;
    }
    Ok(())
}

// ---- the defaults

// The static defaults of a program with these constants, and how many rows there are with the table's own.
pub(crate) fn all_defaults(
    alloc: Global,
    program: &NbcProgram,
    constants: &Constants,
) -> Result<DefaultsSoFar, NoMemory>
    requires numbers { constants.now.numbers ≡ constants_of (text_of program.now) }
    requires texts { constants.now.texts ≡ texts_of (text_of program.now) }
    requires fit { All (λ v. StartFits v.shape v.start) program.now.vars }
    requires rows { length (arrays_of (text_of program.now)) ≤ 65535 }
    ensures bytes { IfOk result (λ d. d.bytes ≡ static_defaults (text_of program.now)) }
    ensures rows { IfOk result (λ d. d.row ≡ row_count (text_of program.now)) }
{
    let mut defaults = DefaultsSoFar {
        bytes: Bytes::new(alloc),
        row: 1,
    };
    write_vars(
        program.structs.as_slice(),
        program.vars.as_slice(),
        &mut defaults,
    )?;
    write_returns(program.blocks.as_slice(), &mut defaults)?;
    write_numbers(constants, &mut defaults)?;
    write_texts(constants, &mut defaults)?;
    Ok(defaults)
}

/// The static defaults of a program with these constants: its numbers, and the numbers of its arrays' rows.
pub fn static_defaults_of(
    alloc: Global,
    program: &NbcProgram,
    constants: &Constants,
) -> Result<Bytes, NoMemory>
    requires numbers { constants.now.numbers ≡ constants_of (text_of program.now) }
    requires texts { constants.now.texts ≡ texts_of (text_of program.now) }
    requires fit { All (λ v. StartFits v.shape v.start) program.now.vars }
    requires rows { length (arrays_of (text_of program.now)) ≤ 65535 }
    ensures { IfOk result (λ bytes. bytes ≡ static_defaults (text_of program.now)) }
{
    let defaults = all_defaults(alloc, program, constants)?;
    Ok(defaults.bytes)
}
