// The line of the header.

ghost use Rattle.std.specs.Prelude.{◌≡◌, ◌++◌, OnOk};
ghost use Rattle.nxt_list.specs.Listing.{header_line};

use crate::fields::push_line;
use nxt_rxe::Header;
use nxt_types::{Bytes, NoMemory};

/// Adds the line of a header (Executable File Specification, "Header").
pub fn push_header(into: &mut Bytes, header: &Header) -> Result<(), NoMemory>
    ensures { OnOk result (into.new ≡ into.old ++ header_line header.now) }
{
    let numbers = [
        header.toc_count,
        header.initial,
        header.static_size,
        header.default_size,
        header.dyn_at,
        header.dyn_size,
        header.head,
        header.tail,
        header.dope_at,
        header.clump_count,
        header.word_count,
    ];
    push_line(into, "header", &numbers)
}
