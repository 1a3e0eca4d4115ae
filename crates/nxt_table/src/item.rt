// What the entries of a table declare.

ghost use Rattle.std.specs.Prelude.{◌≡◌};
ghost use Rattle.nxt_types.specs.Shapes.{outline};
ghost use Rattle.nxt_table.specs.Inside.Items.{item};

use nxt_types::kind::Kind;
use nxt_types::shape::TocEntry;

/// What a table entry declares. A cluster tells how many members it has, whose entries follow
/// (Executable File Specification, "Dataspace Table of Contents").
#[derive(Clone, Copy, PartialEq, Eq, Debug)]
pub enum Item {
    Void,
    Number(Kind),
    Array,
    Cluster(u16),
    Mutex,
}

/// What the entry declares, unless its type code is unknown.
pub fn item_of(entry: &TocEntry) -> Option<Item>
    ensures { result ≡ item (outline entry.now) }
{
    match entry.code {
        0 => Some(Item::Void),
        1 => Some(Item::Number(Kind::Ubyte)),
        2 => Some(Item::Number(Kind::Sbyte)),
        3 => Some(Item::Number(Kind::Uword)),
        4 => Some(Item::Number(Kind::Sword)),
        5 => Some(Item::Number(Kind::Ulong)),
        6 => Some(Item::Number(Kind::Slong)),
        7 => Some(Item::Array),
        8 => Some(Item::Cluster(entry.desc)),
        9 => Some(Item::Mutex),
        _ => None,
    }
}
