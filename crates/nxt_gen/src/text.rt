// The text that a number gives. A private function adds to the end of a text.

ghost use Rattle.std.specs.Prelude.{◌≡◌, ◌++◌, ℕ, decimal, OnOk, IfOk};
ghost use Rattle.nxt_gen.specs.Generator.{drawn, drawn_statements, generated_text, list_statement, next_seed, on_lists, seed_behind, statements_from, text_head, text_of, three_statements};

use itoa::Buffer;
use nxt_types::{Bytes, NoMemory};
use std::alloc::Global;

// How often three statements are drawn.
const TIMES: usize = 400;

/// The text that a number gives: eight lists of bytes, and 400 times a statement that makes one of them anew, one that
/// takes its length, and one that gives motor A this length as its power.
pub fn generated_text(alloc: Global, number: u32) -> Result<Bytes, NoMemory>
    ensures { IfOk result (λ text. text ≡ generated_text number) }
{
    text_of(alloc, TIMES, number)
}

// The text with three statements `times` times over.
fn text_of(alloc: Global, times: usize, number: u32) -> Result<Bytes, NoMemory>
    ensures { IfOk result (λ text. text ≡ text_of times number) }
{
    let mut text = head(alloc)?;
    push_statements(&mut text, times, number)?;
    text.append(b"endt\n")?;
    Ok(text)
}

// What every text begins with.
fn head(alloc: Global) -> Result<Bytes, NoMemory>
    ensures { IfOk result (λ text. text ≡ text_head) }
{
    let mut text = Bytes::new(alloc);
    text.append(
        b"#include \"NXTDefs.h\"\ndseg segment\n\
        a0 byte[]\na1 byte[]\na2 byte[]\na3 byte[]\na4 byte[]\na5 byte[]\na6 byte[]\na7 byte[]\nn long\n\
        dseg ends\nthread main\n",
    )?;
    Ok(text)
}

// Three drawn statements, `times` times over.
fn push_statements(text: &mut Bytes, times: usize, number: u32) -> Result<(), NoMemory>
    ensures { OnOk result (text.new ≡ text.old ++ statements_from times number) }
{
    let mut seed = number;
    for _ in 0..times {
        seed = push_drawn(text, seed)?;
    }
    Ok(())
}

// Three statements from four draws, and the number behind these.
fn push_drawn(text: &mut Bytes, seed: u32) -> Result<u32, NoMemory>
    ensures text { OnOk result (text.new ≡ text.old ++ drawn_statements seed) }
    ensures next { IfOk result (λ next. next ≡ seed_behind seed) }
{
    let first = next_seed(seed);
    let second = next_seed(first);
    let third = next_seed(second);
    let fourth = next_seed(third);
    let of = drawn(first) % 8;
    let from = drawn(second) % 8;
    push_three(text, of, from, drawn(third) % 2048, drawn(fourth) % 4)?;
    Ok(fourth)
}

// The number behind a number, modulo 2^32.
fn next_seed(seed: u32) -> u32
    ensures { result ≡ next_seed seed }
{
    ((u64::from(seed) * 1_664_525 + 1_013_904_223) % 4_294_967_296) as u32
}

// What a number gives for a draw.
fn drawn(seed: u32) -> u32
    ensures { result ≡ drawn seed }
{
    seed / 65536
}

// The statement of a kind, which makes a list of another one or of a number; and the two behind it.
fn push_three(text: &mut Bytes, of: u32, from: u32, number: u32, kind: u32) -> Result<(), NoMemory>
    ensures { OnOk result (text.new ≡ text.old ++ three_statements of from number kind) }
{
    push_list_statement(text, of, from, number, kind)?;
    push_numbered(text, b"\narrsize n, a", of)?;
    text.append(b"\nsetout OUT_A, Power, n, UpdateFlags, UF_UPDATE_SPEED\n")
}

fn push_list_statement(
    text: &mut Bytes,
    of: u32,
    from: u32,
    number: u32,
    kind: u32,
) -> Result<(), NoMemory>
    ensures { OnOk result (text.new ≡ text.old ++ list_statement of from number kind) }
{
    match kind {
        0 => {
            push_numbered(text, b"arrinit a", of)?;
            push_numbered(text, b", ", number % 256)?;
            push_numbered(text, b", ", number)
        }
        1 => {
            push_lists(text, b"arrsubset a", of, from)?;
            push_numbered(text, b", 0, ", number)
        }
        2 => {
            push_lists(text, b"arrbuild a", of, from)?;
            push_numbered(text, b", ", number % 256)
        }
        _ => push_lists(text, b"mov a", of, from),
    }
}

// The name of a statement, and two lists.
fn push_lists(text: &mut Bytes, name: &[u8], of: u32, from: u32) -> Result<(), NoMemory>
    ensures { OnOk result (text.new ≡ text.old ++ on_lists name.now of from) }
{
    push_numbered(text, name, of)?;
    push_numbered(text, b", a", from)
}

// A piece of text, and a number behind it.
fn push_numbered(text: &mut Bytes, piece: &[u8], number: u32) -> Result<(), NoMemory>
    ensures { OnOk result (text.new ≡ text.old ++ (piece.now ++ decimal number)) }
{
    let mut buffer = Buffer::new();
    text.append(piece)?;
    text.append(buffer.format(number).as_bytes())
}
