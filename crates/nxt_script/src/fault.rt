// Why a script gives no more rows.

use nxt_edge::ReadFault;
use nxt_types::NoMemory;

/// Why a script gives no more rows. A row's number counts from 1.
#[derive(Clone, Copy, PartialEq, Eq, Debug)]
pub enum ScriptFault {
    /// The row of this number breaks its form.
    Row(u32),
    /// The row of this number has its form and passes a limit.
    TooMany(u32),
    /// The source failed.
    Failed,
    /// The rows that end within the greatest length were given, and the script is longer.
    TooLarge,
    NoMemory,
}

impl From<NoMemory> for ScriptFault {
    ghost use Rattle.std.specs.Prelude.{◌≡◌};
    ghost use Rattle.nxt_script.specs.declared.fault.ScriptFault.TheVariants.{NoMemory};

    ghost from_gives = { λ _ fault. fault ≡ NoMemory };

    fn from(_: NoMemory) -> ScriptFault {
        ScriptFault::NoMemory
    }
}

impl From<ReadFault> for ScriptFault {
    ghost use Rattle.std.specs.Prelude.{◌≡◌};
    ghost use Rattle.nxt_edge.specs.declared.read_write.ReadFault.TheVariants as reads;
    ghost use Rattle.nxt_script.specs.declared.fault.ScriptFault.TheVariants as faults;

    ghost from_gives = { λ e fault. fault ≡ elim e [ reads.Failed ↦ faults.Failed | reads.NoMemory ↦ faults.NoMemory ] };

    fn from(fault: ReadFault) -> ScriptFault {
        match fault {
            ReadFault::Failed => ScriptFault::Failed,
            ReadFault::NoMemory => ScriptFault::NoMemory,
        }
    }
}
