// Elements of lists of lists of numbers, which are read and stored in their place.

ghost use Rattle.std.specs.Prelude.{◌≡◌, ℕ, [], length, slice_index_or, slice_set, IfSome, None, ◌∷◌};
ghost use Rattle.nxt_types.specs.Arithmetic.{leaf_size as size_of_leaf};
ghost use Rattle.nxt_types.specs.Shapes.{Array, Number};
ghost use Rattle.nxt_types.specs.declared.kind.Kind.{Kind};
ghost use Rattle.nxt_model.specs.Values.{elements, list_of};
ghost use Rattle.nxt_space.specs.Keeping.{Leaves};
ghost use Rattle.nxt_space.specs.Outcomes.{Does};
ghost use Rattle.nxt_space.specs.Spots.{IsListSpot, IsInnerSpot};
ghost use Rattle.nxt_space.specs.Variables.{AreSound, shape_of, value_of, with_value};
ghost use Rattle.nxt_operands.specs.Operands.{Done};

use nxt_space::{InnerSpot, ListSpot, OpFault, Space};

/// The spots of a list of numbers and of a list of lists of numbers of its kind, where two lists are these.
pub fn list_and_lists(space: &Space, x: u16, y: u16) -> Option<(ListSpot, InnerSpot)>
    ensures found { IfSome result (λ p. IsListSpot space.now.vars x p.0 × IsInnerSpot space.now.vars y p.1 × (p.1.kind ≡ p.0.kind)) }
    ensures none { result ≡ None → (k : Kind) → shape_of space.now.vars x ≡ Array (size_of_leaf k) (Number k) → shape_of space.now.vars y ≡ Array 2 (Array (size_of_leaf k) (Number k)) → ⊥ }
{
    let x = space.list_spot(x)?;
    let y = space.inner_spot(y)?;
    if y.kind() == x.kind() {
        Some((x, y))
    } else {
        None
    }
}

/// Gives a list the value of an element, counted from 0, of a list of lists of its kind; past that list's end no elements. It
/// takes no memory.
pub fn copy_element(
    space: &mut Space,
    to: ListSpot,
    lists: InnerSpot,
    k: u32,
) -> Result<(), OpFault>
    requires to { (i : ℕ) × IsListSpot space.old.vars i to }
    requires lists { (j : ℕ) × IsInnerSpot space.old.vars j lists }
    requires kind { lists.kind ≡ to.kind }
    ensures does { (i j : ℕ) → IsListSpot space.old.vars i to → IsInnerSpot space.old.vars j lists → Does Done (with_value space.old.vars i (slice_index_or (elements (value_of space.old.vars j)) k (list_of []))) space.old result space.new }
    ensures leaves { (i : ℕ) → IsListSpot space.old.vars i to → Leaves (i ∷ []) space.old space.new }
{
    space.copy_from_inner(to, lists, k)?;
    Ok(())
}

/// Gives an element, counted from 0, of a list of lists the value of a list of its kind; past the end nothing. It takes no
/// memory.
pub fn put_element(
    space: &mut Space,
    lists: InnerSpot,
    k: u32,
    new: ListSpot,
) -> Result<(), OpFault>
    requires sound { AreSound space.old.vars }
    requires lists { (i : ℕ) × IsInnerSpot space.old.vars i lists }
    requires new { (j : ℕ) × IsListSpot space.old.vars j new }
    requires kind { new.kind ≡ lists.kind }
    ensures does { (i j : ℕ) → IsInnerSpot space.old.vars i lists → IsListSpot space.old.vars j new → Does Done (with_value space.old.vars i (list_of (slice_set (elements (value_of space.old.vars i)) k (value_of space.old.vars j)))) space.old result space.new }
    ensures leaves { (i : ℕ) → IsInnerSpot space.old.vars i lists → Leaves (i ∷ []) space.old space.new }
{
    space.copy_to_inner(lists, k, new)?;
    Ok(())
}
