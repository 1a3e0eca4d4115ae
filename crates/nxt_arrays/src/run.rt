// Statements on lists and texts.

ghost use Rattle.nxt_model.specs.Devices.{Devices};
ghost use Rattle.nxt_model.specs.SystemCalls.{Clock};
ghost use Rattle.nxt_space.specs.Keeping.{Leaves};
ghost use Rattle.nxt_space.specs.Outcomes.{Does};
ghost use Rattle.nxt_operands.specs.Operands.{Done};
ghost use Rattle.std.specs.Prelude.{◌≡◌, ◌+◌, ◌<◌, ◌^◌, length, slice_range, ◌∷◌, []};
ghost use Rattle.nxt_types.specs.Statements.{IsWhole};
ghost use Rattle.nxt_arrays.specs.Arrays.{CanRun, values_after, runs as does_run};

use nxt_lists::{array_size, build, index, initialize, replace, subset};
use nxt_space::{OpFault, Space};
use nxt_texts::{
    array_to_string, concatenate, flatten, number_to_string, string_to_array, string_to_number,
    substring, unflatten,
};
use nxt_types::instr::{Instr, Op};
use nxt_types::toc::Toc;
use std::alloc::Global;

/// Whether `run_array` runs the statements of an operation.
pub fn runs(op: Op) -> bool
    ensures { result ≡ does_run op }
{
    matches!(
        op,
        Op::Index
            | Op::Replace
            | Op::Arrsize
            | Op::Arrbuild
            | Op::Arrsubset
            | Op::Arrinit
            | Op::Flatten
            | Op::Unflatten
            | Op::Numtostr
            | Op::Strtonum
            | Op::Strcat
            | Op::Strsubset
            | Op::Strtoarr
            | Op::Arrtostr
    )
}

/// Runs a statement on lists or texts (Executable File Specification, "Array" and "String"). Where it is refused nothing has
/// changed.
pub fn run_array(
    alloc: Global,
    i: &Instr,
    words: &[u16],
    toc: &Toc,
    space: &mut Space,
) -> Result<(), OpFault>
    requires { CanRun i.now words.now toc.now space.old.vars }
    ensures does { (d : Devices) (t : Clock) → Does Done (values_after space.old.vars i.now words.now d t) space.old result space.new }
    ensures leaves { Leaves (i.now.a ∷ []) space.old space.new }
{
    match i.op {
        Op::Index => index(alloc, space, i.a, i.b, i.c),
        Op::Replace => replace(alloc, space, i.a, i.b, i.c, i.d),
        Op::Arrsize => {
            array_size(alloc, space, i.a, i.b);
            Ok(())
        }
        Op::Arrbuild => build(alloc, space, i.a, sources_of(i, words)),
        Op::Arrsubset => subset(alloc, space, i.a, i.b, i.c, i.d),
        Op::Arrinit => initialize(alloc, space, i.a, i.b, i.c),
        Op::Flatten => flatten(alloc, space, i.a, i.b),
        Op::Unflatten => unflatten(alloc, space, i.a, i.b, i.c, i.d),
        Op::Numtostr => number_to_string(alloc, space, i.a, i.b),
        Op::Strtonum => string_to_number(alloc, space, i.a, i.b, i.c, i.d, i.e),
        Op::Strcat => concatenate(alloc, space, i.a, sources_of(i, words)),
        Op::Strsubset => substring(alloc, space, i.a, i.b, i.c, i.d),
        Op::Strtoarr => string_to_array(alloc, space, i.a, i.b),
        _ => array_to_string(alloc, space, i.a, i.b),
    }
}

// The operands behind the first one of a statement with any number of them.
fn sources_of<'w>(i: &Instr, words: &'w [u16]) -> &'w [u16]
    requires { IsWhole words.now i.now }
    ensures sources { result.now ≡ slice_range words.now i.now.rest_at (i.now.rest_at + i.now.rest) }
    ensures few { length result.now < 2 ^ 16 }
{
    let first = i.rest_at as usize;
    &words[first..first + usize::from(i.rest)]
}
