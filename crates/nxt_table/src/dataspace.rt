// The bytes of a file's dataspace at the start.

ghost use Rattle.std.specs.Prelude.{◌≡◌, ◌≤◌, length, IfOk, None};
ghost use Rattle.nxt_table.specs.Dataspace.{dynamic_bytes};
ghost use Rattle.nxt_table.specs.Inside.Checks.{leaf_fault, leaves_of as leaves_in, bytes_of_parts};

use crate::leaves::{PlacedLeaf, fill};
use nxt_rxe::parts::Parts;
use nxt_types::NoMemory;
use std::alloc::Global;

/// The defaults, the dynamic defaults, and zeros (Executable File Specification, "Default Values").
pub fn dataspace_of(
    alloc: Global,
    parts: &Parts,
    leaves: &[PlacedLeaf],
) -> Result<Vec<u8>, NoMemory>
    requires leaves { leaves.now ≡ leaves_in parts.now }
    requires right { leaf_fault parts.now ≡ None }
    requires defaults { parts.now.header.default_size ≤ length parts.now.defaults }
    ensures { IfOk result (λ bytes. bytes.items ≡ bytes_of_parts parts.now) }
{
    let static_size = usize::from(parts.header.static_size);
    let dyn_size = usize::from(parts.header.dyn_size);
    let initial = usize::from(parts.header.initial);
    let mut bytes = vec![in alloc; 0u8; static_size]?;
    fill(leaves, parts.defaults.as_slice(), bytes.as_mut_slice());
    bytes.extend_from_slice(dynamic_defaults(parts))?;
    let end = bytes.len();
    bytes.resize(end + initial.saturating_sub(static_size + dyn_size), 0)?;
    Ok(bytes)
}

// The bytes that stand behind the static bytes.
fn dynamic_defaults(parts: &Parts) -> &[u8]
    ensures { result.now ≡ dynamic_bytes parts.now }
{
    let defaults = parts.defaults.as_slice();
    let start = usize::from(parts.header.dyn_at).min(defaults.len());
    let end = (usize::from(parts.header.dyn_at) + usize::from(parts.header.dyn_size)).min(
        defaults.len(),
    );
    &defaults[start..end]
}
