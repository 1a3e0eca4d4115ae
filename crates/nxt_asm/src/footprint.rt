// The pool's bytes at the start.

ghost use Rattle.std.specs.Prelude.{◌≡◌, ◌<◌, ◌+◌, ◌*◌, [], All, IfOk, length, slice_index_or, sum_by};
ghost use Rattle.nxt_types.specs.Pool.{round4 as rounded};
ghost use Rattle.nxt_model.specs.TextProgram.{text_of};
ghost use Rattle.nxt_asm_parts.specs.Defaults.{StartFits, variable_of};
ghost use Rattle.nxt_asm_rules.specs.AsmRules.{start_footprint};
ghost use Rattle.nxt_asm_rules.specs.StartBytes.{start_bytes};

use crate::draft::Draft;
use nxt_asm_parts::{Constants, kind_of};
use nxt_model::nbc::{NbcStart, NbcStruct, NbcVar};
use nxt_types::NoMemory;
use nxt_types::numbers::leaf_size;
use nxt_types::pool::{ROW_BYTES, round4};

// ---- numbers that may not fit

fn plus(a: u64, b: u64) -> Result<u64, NoMemory>
    ensures { IfOk result (λ n. n ≡ a + b) }
{
    a.checked_add(b).ok_or(NoMemory)
}

fn times(a: u64, b: u64) -> Result<u64, NoMemory>
    ensures { IfOk result (λ n. n ≡ a * b) }
{
    a.checked_mul(b).ok_or(NoMemory)
}

fn rounded(bytes: u64) -> Result<u64, NoMemory>
    ensures { IfOk result (λ n. n ≡ rounded bytes) }
{
    if bytes > u64::MAX - 3 {
        Err(NoMemory)
    } else {
        Ok(round4(bytes))
    }
}

// ---- lists

// The bytes of the list that a declared variable starts with.
fn start_bytes(structs: &[NbcStruct], var: &NbcVar) -> Result<u64, NoMemory>
    requires { StartFits var.now.shape var.now.start }
    ensures { IfOk result (λ n. n ≡ start_bytes (variable_of structs.now var.now)) }
{
    match &var.start {
        NbcStart::Zero | NbcStart::Num(_) => Ok(0),
        NbcStart::List(numbers) => {
            let bytes = leaf_size(kind_of(var.shape.base)) as u64;
            rounded(times(numbers.len() as u64, bytes)?)
        }
        NbcStart::Text(text) => rounded(plus(text.len() as u64, 1)?),
    }
}

// Those of all declared variables.
fn declared_bytes(structs: &[NbcStruct], vars: &[NbcVar]) -> Result<u64, NoMemory>
    requires { All (λ v. StartFits v.shape v.start) vars.now }
    ensures { IfOk result (λ n. n ≡ sum_by (λ v. start_bytes (variable_of structs.now v)) vars.now) }
{
    let mut bytes = 0;
    for var in vars {
        bytes = plus(bytes, start_bytes(structs, var)?)?;
    }
    Ok(bytes)
}

// Those of the text constants.
fn text_bytes(constants: &Constants) -> Result<u64, NoMemory>
    ensures { IfOk result (λ n. n ≡ sum_by (λ text. rounded (length text + 1)) constants.now.texts) }
{
    let mut bytes = 0;
    for place in 0..constants.text_count() {
        bytes = plus(bytes, bytes_of_text(constants, place)?)?;
    }
    Ok(bytes)
}

// Those of the text constant at a place.
fn bytes_of_text(constants: &Constants, place: usize) -> Result<u64, NoMemory>
    requires { place < length constants.now.texts }
    ensures { IfOk result (λ n. n ≡ rounded (length (slice_index_or constants.now.texts place []) + 1)) }
{
    match constants.text(place) {
        Some(text) => rounded(plus(text.len() as u64, 1)?),
        None => Ok(0),
    }
}

// ---- the pool

/// The footprint of a program at the start.
pub fn footprint(draft: &Draft<'_>) -> Result<u64, NoMemory>
    requires { All (λ v. StartFits v.shape v.start) draft.now.vars }
    ensures { IfOk result (λ n. n ≡ start_footprint (text_of draft.now)) }
{
    let static_bytes = rounded(draft.static_bytes)?;
    let rows = rounded(times(ROW_BYTES, plus(draft.arrays, 1)?)?)?;
    let program = draft.program;
    let declared = declared_bytes(program.structs.as_slice(), program.vars.as_slice())?;
    let lists = plus(declared, text_bytes(&draft.constants)?)?;
    plus(plus(static_bytes, rows)?, lists)
}
