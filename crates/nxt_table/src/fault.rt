// Why a file's table is refused.

ghost use Rattle.std.specs.Prelude.{◌≡◌};
ghost use Rattle.nxt_table.specs.declared.fault.TableFault.TheVariants.{NoMemory as no_memory};

use nxt_types::NoMemory;
use nxt_types::refusal::BrokenRule;
use std::alloc::{AllocError, AllocFailed};

/// The first broken rule of a file's table, its leaves and their defaults, at its least place. The numbers are what a
/// refusal shows beside the rule (Executable File Specification, "Dataspace Table of Contents", "Default Values"). Entries
/// count from 0.
#[derive(Clone, Copy, PartialEq, Eq, Debug)]
pub enum TableFault {
    /// An entry whose type code is none of 0 to 9.
    TypeCode(u32),
    /// The entry at which a variable begins that is cut off by the table's end, or has an empty cluster or a void inside.
    TypeOpen(u32),
    /// An entry that more than 8 arrays and clusters enclose.
    Depth(u32),
    /// The entry of a mutex in an array or a cluster.
    MutexInside(u32),
    /// The entry of a leaf that ends past the static bytes, or past the greatest element.
    Place(u32),
    /// Two entries whose leaves share a byte, the first of them first.
    Overlap(u32, u32),
    /// The entry of a leaf whose default ends past the default data.
    DefaultsShort(u32),
    /// The host's memory was not there.
    NoMemory,
}

impl From<NoMemory> for TableFault {
    ghost from_gives = { λ _ f. f ≡ no_memory };

    fn from(_: NoMemory) -> Self {
        TableFault::NoMemory
    }
}

impl From<AllocError> for TableFault {
    ghost from_gives = { λ _ f. f ≡ no_memory };

    fn from(_: AllocError) -> Self {
        TableFault::NoMemory
    }
}

impl<T: Drop> From<AllocFailed<T>> for TableFault {
    ghost from_gives = { λ _ f. f ≡ no_memory };

    fn from(_: AllocFailed<T>) -> Self {
        TableFault::NoMemory
    }
}

impl TableFault {
    ghost use Rattle.std.specs.Prelude.{◌≡◌, IfOk, OnErr};
    ghost use Rattle.nxt_types.specs.BrokenRules.{rule_and_place};
    ghost use Rattle.nxt_table.specs.TableRules.{rank};

    /// The broken rule with its place; an `Err` where there was no memory.
    pub fn broken_rule(self) -> Result<BrokenRule, NoMemory>
        ensures rule { IfOk result (λ b. rule_and_place b ≡ rank self) }
        ensures memory { OnErr result (self ≡ TableFault.NoMemory) }
    {
        match self {
            TableFault::TypeCode(entry) => Ok(BrokenRule::at(5, entry)),
            TableFault::TypeOpen(entry) => Ok(BrokenRule::at(6, entry)),
            TableFault::Depth(entry) => Ok(BrokenRule::at(7, entry)),
            TableFault::MutexInside(entry) => Ok(BrokenRule::at(8, entry)),
            TableFault::Place(entry) => Ok(BrokenRule::at(9, entry)),
            TableFault::Overlap(first, second) => Ok(BrokenRule::pair(10, first, second)),
            TableFault::DefaultsShort(entry) => Ok(BrokenRule::at(11, entry)),
            TableFault::NoMemory => Err(NoMemory),
        }
    }
}
