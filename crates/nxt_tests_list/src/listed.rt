// The listing of a file, from its bytes.

ghost use Rattle.std.specs.Prelude.{◌≡◌, IfOk};
ghost use Rattle.nxt_rxe.specs.declared.parts.Parts.{Parts};
ghost use Rattle.nxt_rxe.specs.Files.{IsFile};
ghost use Rattle.nxt_types.specs.Shapes.{Members};
ghost use Rattle.nxt_list.specs.Listing.{listing};

use nxt_code::check_code;
use nxt_layout::check_layout;
use nxt_list::list;
use nxt_rxe::read_rxe;
use nxt_types::Bytes;
use std::alloc::Global;
use std::test::Fail;

/// The listing of a file that is accepted.
pub fn listing_of(alloc: Global, file: &[u8]) -> Result<Bytes, Fail>
    ensures { IfOk result (λ text. (p : Parts) × IsFile file.now p × (ss : Members) × (text ≡ listing p ss)) }
{
    let parts = read_rxe(alloc, file)?;
    let header = parts.header;
    let (layout, rest) = check_layout(alloc, parts)?;
    let code = check_code(alloc, layout.toc(), rest.clumps, rest.dependents, rest.code)?;
    Ok(list(alloc, &header, &layout, &code)?)
}
