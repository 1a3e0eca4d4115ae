// The script of each generated text.

ghost use Rattle.std.specs.Prelude.{◌≡◌, IfOk};
ghost use Rattle.nxt_gen.specs.Generator.{generated_rows, repeated_rows, rows_of};

use nxt_model::event::{Event, ScriptRow};
use nxt_types::NoMemory;
use std::alloc::Global;

// How often six bytecodes run and a block is moved.
const TIMES: usize = 200;

/// The rows of the script: 200 times six bytecodes and a block that is moved, and then two bytecodes more.
pub fn generated_rows(alloc: Global) -> Result<Vec<ScriptRow>, NoMemory>
    ensures { IfOk result (λ rows. rows.items ≡ generated_rows) }
{
    rows_of(alloc, TIMES)
}

fn rows_of(alloc: Global, times: usize) -> Result<Vec<ScriptRow>, NoMemory>
    ensures { IfOk result (λ rows. rows.items ≡ rows_of times) }
{
    let mut rows = repeated_rows(alloc, times)?;
    rows.push(ScriptRow::Run(2))?;
    Ok(rows)
}

fn repeated_rows(alloc: Global, times: usize) -> Result<Vec<ScriptRow>, NoMemory>
    ensures { IfOk result (λ rows. rows.items ≡ repeated_rows times) }
{
    let mut rows = Vec::new(alloc);
    for _ in 0..times {
        rows.push(ScriptRow::Run(6))?;
        rows.push(ScriptRow::One(Event::Compact(1)))?;
    }
    Ok(rows)
}
