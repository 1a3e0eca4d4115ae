// The types of a program's variables and constants.

ghost use Rattle.std.specs.Prelude.{◌≡◌, ◌++◌, map, replicate, IfOk, OnOk};
ghost use Rattle.nxt_model.specs.Assembled.{all_shapes};
ghost use Rattle.nxt_model.specs.TextProgram.{constants as constants_of, shape_by, struct_shapes, text_of, texts as texts_of};

use crate::constants::Constants;
use crate::firsts::ReturnPlaces;
use nxt_model::nbc::{NbcBase, NbcProgram, NbcType, NbcTypes, NbcVar};
use nxt_types::NoMemory;
use nxt_types::kind::Kind;
use std::alloc::Global;

/// The types of all that the image of a program with these constants keeps in its table, in the table's order: the declared
/// variables, the return variable of each subroutine, the number constants and the text constants.
pub fn types_of(
    alloc: Global,
    program: &NbcProgram,
    constants: &Constants,
) -> Result<NbcTypes, NoMemory>
    requires numbers { constants.now.numbers ≡ constants_of (text_of program.now) }
    requires texts { constants.now.texts ≡ texts_of (text_of program.now) }
    ensures { IfOk result (λ ts. map (shape_by (struct_shapes program.now.structs)) ts ≡ all_shapes (text_of program.now)) }
{
    let mut types = NbcTypes::new(alloc);
    push_declared(&mut types, program.vars.as_slice())?;
    let returned = NbcType {
        base: NbcBase::Number(Kind::Ubyte),
        arrays: 0,
    };
    let places = ReturnPlaces::of(alloc, program.blocks.as_slice())?;
    push_many(&mut types, returned, places.count)?;
    let number = NbcType {
        base: NbcBase::Number(Kind::Slong),
        arrays: 0,
    };
    push_many(&mut types, number, constants.number_count())?;
    let text = NbcType {
        base: NbcBase::Number(Kind::Ubyte),
        arrays: 1,
    };
    push_many(&mut types, text, constants.text_count())?;
    Ok(types)
}

// Adds the types of declared variables.
fn push_declared(types: &mut NbcTypes, vars: &[NbcVar]) -> Result<(), NoMemory>
    ensures { OnOk result (types.new ≡ types.old ++ map (λ v. v.shape) vars.now) }
{
    for var in vars {
        types.push(var.shape)?;
    }
    Ok(())
}

// Adds a type `count` times.
fn push_many(types: &mut NbcTypes, of: NbcType, count: usize) -> Result<(), NoMemory>
    ensures { OnOk result (types.new ≡ types.old ++ replicate count of) }
{
    for _ in 0..count {
        types.push(of)?;
    }
    Ok(())
}
