// The members of a call's cluster.

ghost use Rattle.std.specs.Prelude.{◌≡◌, ◌≤◌, ℕ, length, IfOk, true};
ghost use Rattle.std.specs.List.{sum_by};
ghost use Rattle.nxt_types.specs.Pool.{pool_size};
ghost use Rattle.nxt_types.specs.Shapes.{is_numbers};
ghost use Rattle.nxt_types.specs.declared.calls.Field.{Field as a_field};
ghost use Rattle.nxt_types.specs.declared.calls.Field.TheVariants.{Number as a_number, Text as a_text, Place as a_place};
ghost use Rattle.nxt_model.specs.SystemCalls.{field_number, field_text, field_word, x_of, y_of};
ghost use Rattle.nxt_model.specs.Values.{Num};
ghost use Rattle.nxt_space.specs.Keeping.{TableStays};
ghost use Rattle.nxt_space.specs.Variables.{Variables, shape_of, value_of};
ghost use Rattle.nxt_texts.specs.Texts.{bytes_in};
ghost use Rattle.nxt_sys.specs.Answers.{with_member};
ghost use Rattle.nxt_sys.specs.Fields.{HasCluster, HasField, IsMember, width as width_of};

use nxt_space::Space;
use nxt_texts::{Text, text_of};
use nxt_types::NoMemory;
use nxt_types::calls::{Call, Field};
use nxt_types::numbers::wrap;
use std::alloc::Global;

// ---- where members stand

// How many entries a member takes: a number's own, a list's and its element's, a group's and those of its two numbers.
fn width(field: Field) -> u16
    ensures { result ≡ width_of field }
{
    match field {
        Field::Number => 1,
        Field::Text => 2,
        Field::Place => 3,
    }
}

// How many entries members take.
fn widths(fields: &[Field]) -> u16
    requires { length fields.now ≤ 5 }
    ensures { result ≡ sum_by width_of fields.now }
{
    fields.iter().map(|field| width(*field)).sum()
}

/// The entry at which member k of a call's cluster begins, counted from 0.
pub fn entry_of(call: Call, cluster: u16, k: usize) -> u16
    requires { (s : Variables) × (f : a_field) × HasField s call cluster k f }
    ensures { (s : Variables) (f : a_field) → HasField s call cluster k f → IsMember s cluster k f result }
{
    let before = widths(&call.fields()[..k]);
    cluster + 1 + before
}

// ---- reading

/// A member that is a number.
pub fn number(space: &Space, call: Call, cluster: u16, k: usize) -> i64
    requires { HasField space.now.vars call cluster k a_number }
    ensures { result ≡ field_number k (value_of space.now.vars cluster) }
{
    space.get(entry_of(call, cluster, k))
}

/// The word of a member that is a number.
pub fn word(space: &Space, call: Call, cluster: u16, k: usize) -> u32
    requires { HasField space.now.vars call cluster k a_number }
    ensures { result ≡ field_word k (value_of space.now.vars cluster) }
{
    wrap(number(space, call, cluster, k))
}

/// The first number of a member that is a place.
pub fn x_at(space: &Space, call: Call, cluster: u16, k: usize) -> i64
    requires { HasField space.now.vars call cluster k a_place }
    ensures { result ≡ x_of k (value_of space.now.vars cluster) }
{
    space.get(entry_of(call, cluster, k) + 1)
}

/// The second number of a member that is a place.
pub fn y_at(space: &Space, call: Call, cluster: u16, k: usize) -> i64
    requires { HasField space.now.vars call cluster k a_place }
    ensures { result ≡ y_of k (value_of space.now.vars cluster) }
{
    space.get(entry_of(call, cluster, k) + 2)
}

/// The bytes of a member that is a text. It takes memory only where the text's bytes stand apart.
pub fn text<'s>(
    alloc: Global,
    space: &'s Space,
    call: Call,
    cluster: u16,
    k: usize,
) -> Result<Text<'s>, NoMemory>
    requires { HasField space.now.vars call cluster k a_text }
    ensures bytes { IfOk result (λ text. bytes_in text ≡ field_text k (value_of space.now.vars cluster)) }
    ensures few { IfOk result (λ text. length (bytes_in text) ≤ pool_size) }
{
    text_of(alloc, space, entry_of(call, cluster, k))
}

// ---- storing

/// Stores a number in a member, cut to its kind. It takes no memory.
pub fn set(space: &mut Space, call: Call, cluster: u16, k: usize, x: i64)
    requires { HasField space.old.vars call cluster k a_number }
    ensures member { space.new.vars ≡ with_member space.old.vars cluster k (Num x) }
    ensures cluster { HasCluster space.new.vars call cluster }
    ensures stays { TableStays space.old space.new }
    ensures lists { (i : ℕ) → is_numbers (shape_of space.old.vars i) ≡ true → value_of space.new.vars i ≡ value_of space.old.vars i }
{
    space.set(entry_of(call, cluster, k), x);
    space.recall_sound();
}
