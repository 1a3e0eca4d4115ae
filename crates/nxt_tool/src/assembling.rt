// From a text in NBC to the file of its image.

ghost use Rattle.std.specs.Prelude.{◌≡◌, ◌≤◌, length, IfOk, MatchResult};
ghost use Rattle.nxt_model.specs.Image.{program_of};
ghost use Rattle.nxt_model.specs.Program.{start};
ghost use Rattle.nxt_tool.specs.Assembling.{HasTextCause, IsAssembled, IsTextImage, assembled_line};

use crate::accepting::machine_of;
use crate::fault::AcceptFault;
use nxt_asm::assemble;
use nxt_machine::Machine;
use nxt_model::text::count_line;
use nxt_nbc::parse;
use nxt_rxe::write_rxe;
use nxt_types::{Bytes, NoMemory};
use std::alloc::Global;

/// The file of a text's image, and the line that tells of it.
#[derive(Drop)]
pub struct ImageFile {
    pub file: Bytes,
    pub line: Bytes,
}

/// The file of a text's image, or why there is none.
pub fn assemble_text(alloc: Global, text: &[u8]) -> Result<ImageFile, AcceptFault>
    requires { length text.now ≤ 16777216 }
    ensures { MatchResult result (λ i. IsAssembled text.now i.file i.line) (HasTextCause text.now) }
{
    let program = parse(alloc, text)?;
    let made = assemble(alloc, &program)?;
    let file = write_rxe(alloc, &made.parts)?;
    let line = line_of_image(alloc, file.len(), made.footprint)?;
    Ok(ImageFile { file, line })
}

/// The machine of what a text spells at its start, or why there is none.
pub fn machine_of_text(alloc: Global, text: &[u8], effort: u8) -> Result<Machine, AcceptFault>
    requires { length text.now ≤ 16777216 }
    ensures start { IfOk result (λ m. m.state ≡ start (program_of m.image)) }
    ensures effort { IfOk result (λ m. m.effort ≡ effort) }
    ensures spelled { MatchResult result (λ m. IsTextImage text.now m.image) (HasTextCause text.now) }
{
    let program = parse(alloc, text)?;
    let made = assemble(alloc, &program)?;
    machine_of(alloc, made.parts, effort)
}

// The line of an image: the bytes of its file, and those of the pool that its start needs.
fn line_of_image(alloc: Global, bytes: usize, footprint: u64) -> Result<Bytes, NoMemory>
    ensures { IfOk result (λ line. line ≡ assembled_line bytes footprint) }
{
    if bytes > i64::MAX as usize {
        return Err(NoMemory);
    }
    count_line(alloc, b"assembled", &[bytes as i64], footprint)
}
