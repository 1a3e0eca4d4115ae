// From a program to its image.

ghost use Rattle.std.specs.Prelude.{◌≡◌, ℕ, List, IfErr, IfOk, OnOk};
ghost use Rattle.nxt_types.specs.Refusals.{IsAccepted};
ghost use Rattle.nxt_model.specs.TextProgram.{text_of};
ghost use Rattle.nxt_nbc.specs.Checked.{IsParsed};
ghost use Rattle.nxt_asm_parts.specs.AssembledParts.{parts_of};
ghost use Rattle.nxt_asm_parts.specs.Sound.{IsSound};
ghost use Rattle.nxt_rxe.specs.Files.{HasCounts, HasDynamic};
ghost use Rattle.nxt_asm_rules.specs.AsmRules.{Broken, start_footprint};
ghost use Rattle.nxt_asm_rules.specs.Kept.{Refuses};
ghost use Rattle.nxt_asm_laws_runs.specs.Runs.{RunsAs};

use crate::draft::Draft;
use crate::rules::check_rules;
use crate::sections::sections_of;
use nxt_asm_rules::AsmFault;
use nxt_model::nbc::NbcProgram;
use nxt_rxe::Parts;
use std::alloc::Global;

/// The image of a program: the parts of its file, and the bytes of the pool that its variables need at the start.
#[derive(Drop)]
pub struct Assembled {
    pub parts: Parts,
    pub footprint: u64,
}

/// Assembles the program of a text (NBC Programmer's Guide; Executable File Specification). A refusal is the first broken
/// rule at its least place.
pub fn assemble(alloc: Global, program: &NbcProgram) -> Result<Assembled, AsmFault>
    requires { (text : List ℕ) × IsParsed text program.now }

    // The parts are those of the definition, and they can be written.
    ensures parts { IfOk result (λ a. a.parts ≡ parts_of (text_of program.now)) }
    ensures counts { IfOk result (λ a. HasCounts a.parts) }
    ensures dynamic { IfOk result (λ a. HasDynamic a.parts.header) }
    ensures footprint { IfOk result (λ a. a.footprint ≡ start_footprint (text_of program.now)) }

    // No rule is broken, or the first one is told.
    ensures kept { OnOk result (IsAccepted (Broken (text_of program.now))) }
    ensures refused { IfErr result (Refuses (text_of program.now)) }

    // The image runs as the text does: with the same lines and stops, whatever happens.
    ensures runs { IfOk result (λ a. RunsAs (text_of program.now) a.parts) }
{
    assemble_sound(alloc, program)
}

// The same of a program that can be assembled.
fn assemble_sound(alloc: Global, program: &NbcProgram) -> Result<Assembled, AsmFault>
    requires { IsSound program.now }
    ensures parts { IfOk result (λ a. a.parts ≡ parts_of (text_of program.now)) }
    ensures counts { IfOk result (λ a. HasCounts a.parts) }
    ensures dynamic { IfOk result (λ a. HasDynamic a.parts.header) }
    ensures footprint { IfOk result (λ a. a.footprint ≡ start_footprint (text_of program.now)) }
    ensures kept { OnOk result (IsAccepted (Broken (text_of program.now))) }
    ensures refused { IfErr result (Refuses (text_of program.now)) }
{
    let draft = Draft::of(alloc, program)?;
    let footprint = check_rules(&draft)?;
    let parts = sections_of(alloc, &draft)?;
    Ok(Assembled { parts, footprint })
}
