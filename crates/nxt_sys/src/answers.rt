// What calls store in the members of their clusters.

ghost use Rattle.std.specs.Prelude.{◌≡◌, ◌∷◌, ◌<◌, ◌^◌, [], ℕ, length, Ok};
ghost use Rattle.nxt_types.specs.declared.calls.Call.TheVariants as calls;
ghost use Rattle.nxt_types.specs.declared.calls.Field.TheVariants.{Text};
ghost use Rattle.nxt_model.specs.Values.{Num, byte_list};
ghost use Rattle.nxt_space.specs.Keeping.{TableStays, Leaves};
ghost use Rattle.nxt_space.specs.Outcomes.{Does};
ghost use Rattle.nxt_operands.specs.Operands.{Done};
ghost use Rattle.nxt_sys.specs.Answers.{with_members};
ghost use Rattle.nxt_sys.specs.Fields.{HasCluster, IsMember};

use crate::fields::{entry_of, set};
use nxt_space::{OpFault, Space};
use nxt_texts::store_bytes;
use nxt_types::calls::Call;
use std::alloc::Global;

/// Stores the first member of a call's cluster, which tells how the call went. It takes no memory.
pub fn answer(space: &mut Space, call: Call, cluster: u16, outcome: i64)
    requires { HasCluster space.old.vars call cluster }
    ensures does { Does Done (with_members space.old.vars cluster ((0, Num outcome) ∷ [])) space.old (Ok tt) space.new }
    ensures stays { TableStays space.old space.new }
{
    set(space, call, cluster, 0, outcome);
}

/// Stores the result and the message of a call that reads one. Where it is refused nothing has changed.
pub fn answer_message(
    alloc: Global,
    space: &mut Space,
    cluster: u16,
    outcome: i64,
    message: &[u8],
) -> Result<(), OpFault>
    requires cluster { HasCluster space.old.vars calls.ReadMessage cluster }
    requires few { length message.now < 2 ^ 32 }
    ensures does { Does Done (with_members space.old.vars cluster ((0, Num outcome) ∷ (3, byte_list message.now) ∷ [])) space.old result space.new }
    ensures leaves { (i : ℕ) → IsMember space.old.vars cluster 3 Text i → Leaves (i ∷ []) space.old space.new }
{
    let entry = entry_of(Call::ReadMessage, cluster, 3);
    store_bytes(alloc, space, entry, message)?;
    space.recall_sound();
    set(space, Call::ReadMessage, cluster, 0, outcome);
    Ok(())
}
