// The listing of a file.

ghost use Rattle.std.specs.Prelude.{◌≡◌, IfOk};
ghost use Rattle.nxt_rxe.specs.declared.parts.Parts.{Parts};
ghost use Rattle.nxt_list.specs.Listing.{listing};
ghost use Rattle.nxt_list.specs.Listed.{AreOfParts};

use crate::clumps::push_clumps;
use crate::code::push_statements;
use crate::header::push_header;
use crate::rows::push_rows;
use crate::table::push_entries;
use nxt_code::Code;
use nxt_layout::Layout;
use nxt_rxe::Header;
use nxt_types::{Bytes, NoMemory};
use std::alloc::Global;

/// The listing of an accepted file, by its header, its layout and its code.
pub fn list(alloc: Global, header: &Header, layout: &Layout, code: &Code) -> Result<Bytes, NoMemory>
    requires { (p : Parts) × AreOfParts p header.now layout.now code.now }
    ensures { (p : Parts) → AreOfParts p header.now layout.now code.now → IfOk result (λ text. text ≡ listing p layout.now.shapes) }
{
    let mut text = Bytes::new(alloc);
    push_header(&mut text, header)?;
    push_entries(&mut text, layout.toc().entries())?;
    push_rows(&mut text, layout)?;
    push_clumps(
        &mut text,
        code.clumps().as_slice(),
        code.dependents().as_slice(),
    )?;
    push_statements(&mut text, code.words(), &code.decoded)?;
    Ok(text)
}
