// Why a file's table and data are refused.

ghost use Rattle.std.specs.Prelude.{◌≡◌};
ghost use Rattle.nxt_layout.specs.declared.fault.LayoutFault.TheVariants.{NoMemory as no_memory};

use nxt_table::TableFault;
use nxt_types::NoMemory;
use nxt_types::refusal::BrokenRule;
use std::alloc::{AllocError, AllocFailed};

/// The first broken rule of a file's table and data, at its least place. The numbers are what a refusal shows beside the
/// rule (Executable File Specification, "Dataspace Table of Contents", "Default Values", "Dope Vectors"). Entries count
/// from 0 in the table, rows from 0 in the table of rows.
#[derive(Clone, Copy, PartialEq, Eq, Debug)]
pub enum LayoutFault {
    /// A rule of the table, of its leaves or of their defaults.
    Table(TableFault),
    /// The table of rows doesn't lie behind the static bytes in the dataspace, or row 0 doesn't tell it.
    RowZero,
    /// The entry of an array that names a row past the table of rows.
    RowIndex(u32),
    /// A row that two lists name.
    RowShared(u32),
    /// A row whose stride is less than an element takes, or isn't that of the array's rows before it.
    Stride(u32),
    /// A row whose elements begin in the static bytes, or end past the dataspace.
    RowPlace(u32),
    /// Two rows whose elements share a byte, the lesser first.
    RowOverlap(u32, u32),
    /// The pool that the start needs, in bytes, which is more than 32,768.
    PoolPassed(u64),
    /// The host's memory was not there.
    NoMemory,
}

impl From<TableFault> for LayoutFault {
    ghost use Rattle.nxt_layout.specs.LayoutRules.{of_table};

    ghost from_gives = { λ t f. f ≡ of_table t };

    fn from(fault: TableFault) -> Self {
        match fault {
            TableFault::NoMemory => LayoutFault::NoMemory,
            _ => LayoutFault::Table(fault),
        }
    }
}

impl From<NoMemory> for LayoutFault {
    ghost from_gives = { λ _ f. f ≡ no_memory };

    fn from(_: NoMemory) -> Self {
        LayoutFault::NoMemory
    }
}

impl From<AllocError> for LayoutFault {
    ghost from_gives = { λ _ f. f ≡ no_memory };

    fn from(_: AllocError) -> Self {
        LayoutFault::NoMemory
    }
}

impl<T: Drop> From<AllocFailed<T>> for LayoutFault {
    ghost from_gives = { λ _ f. f ≡ no_memory };

    fn from(_: AllocFailed<T>) -> Self {
        LayoutFault::NoMemory
    }
}

impl LayoutFault {
    ghost use Rattle.std.specs.Prelude.{◌≡◌, [], IfOk, OnErr};
    ghost use Rattle.nxt_types.specs.BrokenRules.{rule_and_place};
    ghost use Rattle.nxt_layout.specs.LayoutRules.{rank};

    /// The broken rule with its place; an `Err` where there was no memory.
    pub fn broken_rule(self) -> Result<BrokenRule, NoMemory>
        ensures rule { IfOk result (λ b. rule_and_place b ≡ rank self) }
        ensures memory { OnErr result (rank self ≡ []) }
    {
        match self {
            LayoutFault::Table(fault) => fault.broken_rule(),
            LayoutFault::RowZero => Ok(BrokenRule::whole(12)),
            LayoutFault::RowIndex(entry) => Ok(BrokenRule::at(13, entry)),
            LayoutFault::RowShared(row) => Ok(BrokenRule::at(14, row)),
            LayoutFault::Stride(row) => Ok(BrokenRule::at(15, row)),
            LayoutFault::RowPlace(row) => Ok(BrokenRule::at(16, row)),
            LayoutFault::RowOverlap(first, second) => Ok(BrokenRule::pair(17, first, second)),
            LayoutFault::PoolPassed(footprint) => Ok(BrokenRule::passed(18, footprint)),
            LayoutFault::NoMemory => Err(NoMemory),
        }
    }
}
