// Lists of numbers as words, which plain passes read, change and write. A pass has its kind or its operator as a constant.

ghost use Rattle.std.specs.Prelude.{◌≡◌, ◌≤◌, ◌+◌, ◌*◌, length, pos, IfOk, OnOk, ℕ, ◌∷◌, []};
ghost use Rattle.nxt_types.specs.Arithmetic.{leaf_size as size_of_leaf};
ghost use Rattle.nxt_types.specs.Pool.{pool_size};
ghost use Rattle.nxt_model.specs.Values.{elements, stored};
ghost use Rattle.nxt_space.specs.Keeping.{Leaves};
ghost use Rattle.nxt_space.specs.Outcomes.{Does};
ghost use Rattle.nxt_space.specs.Spots.{IsListSpot, numbers_in_bytes};
ghost use Rattle.nxt_space.specs.Variables.{shape_of, with_value};
ghost use Rattle.nxt_values.specs.Writes.{put, bytes_of_number};
ghost use Rattle.nxt_operands.specs.Operands.{Done};
ghost use Rattle.nxt_ops.specs.Ops.{word_of_two, word_of_one};
ghost use Rattle.nxt_ops.specs.Passes.{AreWritten, words_of, list_of_words, two_words, one_words};

use crate::operator::{One, Two};
use nxt_operands::lists::{count_in, word_in};
use nxt_space::{ListSpot, OpFault, Space};
use nxt_types::NoMemory;
use nxt_types::kind::{Arith, Kind};
use nxt_types::numbers::leaf_size;
use std::alloc::Global;

/// The words of the numbers of a kind that stand in bytes.
pub fn words_in(alloc: Global, kind: Kind, bytes: &[u8]) -> Result<Vec<u32>, NoMemory>
    ensures words { IfOk result (λ ws. ws.items ≡ words_of (numbers_in_bytes kind bytes.now)) }
    ensures few { IfOk result (λ ws. length ws.items ≤ length bytes.now) }
{
    let mut words = vec![in alloc; 0u32; count_in(kind, bytes)]?;
    match kind {
        Kind::Ubyte => read_each(Kind::Ubyte, bytes, &mut words),
        Kind::Sbyte => read_each(Kind::Sbyte, bytes, &mut words),
        Kind::Uword => read_each(Kind::Uword, bytes, &mut words),
        Kind::Sword => read_each(Kind::Sword, bytes, &mut words),
        Kind::Ulong => read_each(Kind::Ulong, bytes, &mut words),
        Kind::Slong => read_each(Kind::Slong, bytes, &mut words),
    }
    Ok(words)
}

// Reads the word of each number of a kind.
#[inline(always)]
fn read_each(kind: Kind, bytes: &[u8], into: &mut [u32])
    requires { length into.old ≡ length (elements (numbers_in_bytes kind bytes.now)) }
    ensures { into.new ≡ words_of (numbers_in_bytes kind bytes.now) }
{
    for k in 0..into.len() {
        into[k] = word_in(kind, bytes, k);
    }
}

/// Puts the word that an operator gives for two words in place of the first of them, for each place of the first list.
pub fn combine_words(operator: Two, signed: bool, xs: &mut [u32], ys: &[u32])
    requires { length xs.old ≤ length ys.now }
    ensures { xs.new ≡ two_words operator signed xs.old ys.now }
{
    match operator {
        Two::Calculate(Arith::Add) => combine_each(Two::Calculate(Arith::Add), signed, xs, ys),
        Two::Calculate(Arith::Sub) => combine_each(Two::Calculate(Arith::Sub), signed, xs, ys),
        Two::Calculate(Arith::Mul) => combine_each(Two::Calculate(Arith::Mul), signed, xs, ys),
        Two::Calculate(Arith::And) => combine_each(Two::Calculate(Arith::And), signed, xs, ys),
        Two::Calculate(Arith::Or) => combine_each(Two::Calculate(Arith::Or), signed, xs, ys),
        Two::Calculate(Arith::Xor) => combine_each(Two::Calculate(Arith::Xor), signed, xs, ys),
        _ => combine_each(operator, signed, xs, ys),
    }
}

/// The same for a word and a number of a kind in bytes. Numbers of 32 bits are read where they stand.
pub fn combine_numbers(
    alloc: Global,
    operator: Two,
    signed: bool,
    xs: &mut [u32],
    kind: Kind,
    bytes: &[u8],
) -> Result<(), NoMemory>
    requires { length xs.old ≤ length (elements (numbers_in_bytes kind bytes.now)) }
    ensures { OnOk result (xs.new ≡ two_words operator signed xs.old (words_of (numbers_in_bytes kind bytes.now))) }
{
    match kind {
        Kind::Ulong => combine_longs(operator, signed, xs, Kind::Ulong, bytes),
        Kind::Slong => combine_longs(operator, signed, xs, Kind::Slong, bytes),
        _ => {
            let ys = words_in(alloc, kind, bytes)?;
            combine_words(operator, signed, xs, &ys);
        }
    }
    Ok(())
}

#[inline(always)]
fn combine_longs(operator: Two, signed: bool, xs: &mut [u32], kind: Kind, bytes: &[u8])
    requires { length xs.old ≤ length (elements (numbers_in_bytes kind bytes.now)) }
    ensures { xs.new ≡ two_words operator signed xs.old (words_of (numbers_in_bytes kind bytes.now)) }
{
    match operator {
        Two::Calculate(Arith::Add) => {
            combine_beside(Two::Calculate(Arith::Add), signed, xs, kind, bytes);
        }
        Two::Calculate(Arith::Sub) => {
            combine_beside(Two::Calculate(Arith::Sub), signed, xs, kind, bytes);
        }
        Two::Calculate(Arith::Mul) => {
            combine_beside(Two::Calculate(Arith::Mul), signed, xs, kind, bytes);
        }
        Two::Calculate(Arith::And) => {
            combine_beside(Two::Calculate(Arith::And), signed, xs, kind, bytes);
        }
        Two::Calculate(Arith::Or) => {
            combine_beside(Two::Calculate(Arith::Or), signed, xs, kind, bytes);
        }
        Two::Calculate(Arith::Xor) => {
            combine_beside(Two::Calculate(Arith::Xor), signed, xs, kind, bytes);
        }
        _ => combine_beside(operator, signed, xs, kind, bytes),
    }
}

#[inline(always)]
fn combine_beside(operator: Two, signed: bool, xs: &mut [u32], kind: Kind, bytes: &[u8])
    requires { length xs.old ≤ length (elements (numbers_in_bytes kind bytes.now)) }
    ensures { xs.new ≡ two_words operator signed xs.old (words_of (numbers_in_bytes kind bytes.now)) }
{
    for k in 0..xs.len() {
        let x = xs[k];
        xs[k] = two_word(operator, signed, x, word_in(kind, bytes, k));
    }
}

#[inline(always)]
fn combine_each(operator: Two, signed: bool, xs: &mut [u32], ys: &[u32])
    requires { length xs.old ≤ length ys.now }
    ensures { xs.new ≡ two_words operator signed xs.old ys.now }
{
    for k in 0..xs.len() {
        let x = xs[k];
        xs[k] = two_word(operator, signed, x, ys[k]);
    }
}

// The word that an operator gives for two words. Six operators need no signs.
#[inline(always)]
fn two_word(operator: Two, signed: bool, x: u32, y: u32) -> u32
    ensures { result ≡ word_of_two operator signed (pos x) (pos y) }
{
    match operator {
        Two::Calculate(Arith::Add) => x.wrapping_add(y),
        Two::Calculate(Arith::Sub) => x.wrapping_sub(y),
        Two::Calculate(Arith::Mul) => x.wrapping_mul(y),
        Two::Calculate(Arith::And) => x & y,
        Two::Calculate(Arith::Or) => x | y,
        Two::Calculate(Arith::Xor) => x ^ y,
        _ => operator.word(signed, i64::from(x), i64::from(y)),
    }
}

/// Puts the word that an operator gives for each word in its place.
pub fn change_words(operator: One, signed: bool, xs: &mut [u32])
    ensures { xs.new ≡ one_words operator signed xs.old }
{
    match operator {
        One::Neg => change_each(One::Neg, signed, xs),
        _ => change_each(operator, signed, xs),
    }
}

#[inline(always)]
fn change_each(operator: One, signed: bool, xs: &mut [u32])
    ensures { xs.new ≡ one_words operator signed xs.old }
{
    for k in 0..xs.len() {
        let x = xs[k];
        xs[k] = one_word(operator, signed, x);
    }
}

// The word that an operator gives for a word.
#[inline(always)]
fn one_word(operator: One, signed: bool, x: u32) -> u32
    ensures { result ≡ word_of_one operator signed (pos x) }
{
    match operator {
        One::Neg => 0u32.wrapping_sub(x),
        _ => operator.word(signed, i64::from(x)),
    }
}

/// Stores a list of words in a list of numbers, whose kind they are cut to.
pub fn store_words(
    alloc: Global,
    space: &mut Space,
    to: ListSpot,
    words: &[u32],
) -> Result<(), OpFault>
    requires to { (i : ℕ) × IsListSpot space.old.vars i to }
    requires few { length words.now ≤ pool_size }
    ensures does { (i : ℕ) → IsListSpot space.old.vars i to → Does Done (with_value space.old.vars i (stored (shape_of space.old.vars i) (list_of_words words.now))) space.old result space.new }
    ensures leaves { (i : ℕ) → IsListSpot space.old.vars i to → Leaves (i ∷ []) space.old space.new }
{
    let bytes = bytes_of(alloc, to.kind(), words)?;
    space.set_list(to, bytes.as_slice())?;
    Ok(())
}

// The bytes of words that are cut to a kind.
fn bytes_of(alloc: Global, kind: Kind, words: &[u32]) -> Result<Vec<u8>, NoMemory>
    requires { length words.now ≤ pool_size }
    ensures { IfOk result (λ bytes. AreWritten kind bytes.items words.now) }
{
    let mut bytes = vec![in alloc; 0u8; words.len() * leaf_size(kind) as usize]?;
    match kind {
        Kind::Ubyte => write_each(Kind::Ubyte, words, &mut bytes),
        Kind::Sbyte => write_each(Kind::Sbyte, words, &mut bytes),
        Kind::Uword => write_each(Kind::Uword, words, &mut bytes),
        Kind::Sword => write_each(Kind::Sword, words, &mut bytes),
        Kind::Ulong => write_each(Kind::Ulong, words, &mut bytes),
        Kind::Slong => write_each(Kind::Slong, words, &mut bytes),
    }
    Ok(bytes)
}

// Writes the bytes of each word that is cut to a kind.
#[inline(always)]
fn write_each(kind: Kind, words: &[u32], into: &mut [u8])
    requires long { length into.old ≡ length words.now * size_of_leaf kind }
    ensures { AreWritten kind into.new words.now }
{
    for k in 0..words.len() {
        write_number(kind, into, k, words[k]);
    }
}

// Writes the low bytes of a word in place of the k-th number of a kind.
#[inline(always)]
fn write_number(kind: Kind, into: &mut [u8], k: usize, word: u32)
    requires { k * size_of_leaf kind + size_of_leaf kind ≤ length into.old }
    ensures { into.new ≡ put (bytes_of_number kind (pos word)) (k * size_of_leaf kind) into.old }
{
    let bytes = word.to_le_bytes();
    match kind {
        Kind::Ubyte | Kind::Sbyte => into[k] = bytes[0],
        Kind::Uword | Kind::Sword => {
            into[2 * k] = bytes[0];
            into[2 * k + 1] = bytes[1];
        }
        Kind::Ulong | Kind::Slong => {
            into[4 * k] = bytes[0];
            into[4 * k + 1] = bytes[1];
            into[4 * k + 2] = bytes[2];
            into[4 * k + 3] = bytes[3];
        }
    }
}
