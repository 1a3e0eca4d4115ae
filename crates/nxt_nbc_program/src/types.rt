// Structs and variables.

ghost use Rattle.std.specs.Prelude.{◌≡◌, List, map, IfOk};
ghost use Rattle.nxt_model.specs.Nbc.Text.{program_var, start_of};
ghost use Rattle.nxt_model.specs.Nbc.Types.{Struct as TextStruct, plain_struct};
ghost use Rattle.nxt_nbc_lines.specs.Seen.{given_seen};
ghost use Rattle.nxt_nbc_names.specs.MembersSeen.{member_seen};
ghost use Rattle.nxt_nbc_names.specs.StructsSeen.{structs_seen};
ghost use Rattle.nxt_nbc_names.specs.VariablesSeen.{variable_seen};
ghost use Rattle.nxt_nbc_program.specs.TypesSeen.{var_in};

use nxt_model::nbc::{NbcStart, NbcStruct, NbcStructs, NbcTypes, NbcVar, NbcVars};
use nxt_nbc_lines::Given;
use nxt_nbc_names::{Member, Struct, StructTable, Variable};
use nxt_types::NoMemory;
use nxt_types::lists::{Bytes, Nums};
use std::alloc::Global;

/// The structs of a text, by the types of their members.
pub fn structs_of(alloc: Global, structs: &StructTable<'_>) -> Result<NbcStructs, NoMemory>
    ensures { IfOk result (λ ss. ss ≡ map plain_struct structs.now.structs) }
{
    listed_structs(alloc, structs.as_slice())
}

fn listed_structs(alloc: Global, structs: &[Struct<'_>]) -> Result<NbcStructs, NoMemory>
    ensures { IfOk result (λ ss. ss ≡ map plain_struct (structs_seen structs.now)) }
{
    let mut listed = NbcStructs::new(alloc);
    for found in structs {
        let members = types_of(alloc, found.members.as_slice())?;
        listed.push(NbcStruct { members })?;
    }
    Ok(listed)
}

fn types_of(alloc: Global, members: &[Member<'_>]) -> Result<NbcTypes, NoMemory>
    ensures { IfOk result (λ ts. ts ≡ map (λ m. m.type) (map member_seen members.now)) }
{
    let mut types = NbcTypes::new(alloc);
    for member in members {
        types.push(member.shape)?;
    }
    Ok(types)
}

/// The variables of a text.
pub fn vars_of(alloc: Global, variables: &[Variable<'_, '_>]) -> Result<NbcVars, NoMemory>
    ensures { IfOk result (λ vs. (types : List TextStruct) → map (var_in types) vs ≡ map (program_var types) (map variable_seen variables.now)) }
{
    let mut vars = NbcVars::new(alloc);
    for variable in variables {
        let start = start_of(alloc, variable.given)?;
        vars.push(NbcVar {
            shape: variable.shape,
            start,
        })?;
    }
    Ok(vars)
}

// What a variable starts with.
fn start_of(alloc: Global, given: &Given<'_>) -> Result<NbcStart, NoMemory>
    ensures { IfOk result (λ s. s ≡ start_of (given_seen given.now)) }
{
    Ok(match given {
        Given::Nothing => NbcStart::Zero,
        Given::One(z) => NbcStart::Num(*z),
        Given::Many(numbers) => NbcStart::List(copy_of_numbers(alloc, numbers.as_slice())?),
        Given::Bytes(text) => NbcStart::Text(copy_of_bytes(alloc, *text)?),
    })
}

fn copy_of_numbers(alloc: Global, numbers: &[i64]) -> Result<Nums, NoMemory>
    ensures { IfOk result (λ zs. zs ≡ numbers.now) }
{
    let mut copy = Nums::new(alloc);
    copy.append(numbers)?;
    Ok(copy)
}

/// A copy of bytes.
pub fn copy_of_bytes(alloc: Global, bytes: &[u8]) -> Result<Bytes, NoMemory>
    ensures { IfOk result (λ bs. bs ≡ bytes.now) }
{
    let mut copy = Bytes::new(alloc);
    copy.append(bytes)?;
    Ok(copy)
}
