// The threads and subroutines of a text.

ghost use Rattle.std.specs.Prelude.{◌≡◌, [], ◌∷◌, ◌++◌, bytes_eq, map, option_map, option_to_list, position, IfOk};
ghost use Rattle.nxt_model.specs.Nbc.Text.{blocks_in, is_main, items_of};
ghost use Rattle.nxt_nbc_lines.specs.Seen.{form_seen, line_form_seen};
ghost use Rattle.nxt_nbc_names.specs.BlocksSeen.{block_seen};
ghost use Rattle.nxt_nbc_names.specs.Blocks.{main_first};
ghost use Rattle.nxt_nbc_names.specs.Inside.Blocks.{closes_block};

use crate::name_table::NameTable;
use nxt_nbc_lines::{Form, LineForm};
use nxt_types::NoMemory;
use std::alloc::Global;
use std::marker::Model;

/// A thread or a subroutine: its name, the line that opens it, and its lines up to the one that closes it.
#[derive(Clone, Copy)]
pub struct Block<'f, 'a> {
    pub name: &'a [u8],
    pub subroutine: bool,
    pub line: u32,
    pub lines: &'f [LineForm<'a>],
}

impl<'f, 'a> Block<'f, 'a> {
    /// Whether it is the thread with which a program starts.
    pub fn is_main(&self) -> bool
        ensures { result ≡ is_main (block_seen self.now) }
    {
        !self.subroutine && self.name == b"main".as_slice()
    }
}

/// The threads and subroutines of a text.
#[derive(Drop)]
pub struct Blocks<'f, 'a> {
    in_text: Vec<Block<'f, 'a>>,
    numbered: Vec<Block<'f, 'a>>,
    names: NameTable<'a>,
}

impl<'f, 'a> Model for Blocks<'f, 'a> {
    ghost use Rattle.std.specs.Prelude.{◌≡◌, List, map};
    ghost use Rattle.nxt_model.specs.Nbc.Text.{Block as TextBlock};
    ghost use Rattle.nxt_nbc_names.specs.Inside.Blocks.{AreBlocks};
    ghost use Rattle.nxt_nbc_names.specs.BlocksSeen.{block_seen};

    ghost Value = { List TextBlock };

    ghost view = { λ b. map block_seen b.in_text.items };

    ghost invariant = { λ b. AreBlocks (map block_seen b.in_text.items) (map block_seen b.numbered.items) b.names };
}

impl<'f, 'a> Blocks<'f, 'a> {
    /// The threads and subroutines that lines open.
    pub fn of(alloc: Global, lines: &'f [LineForm<'a>]) -> Result<Blocks<'f, 'a>, NoMemory>
        ensures { IfOk result (λ bs. bs ≡ blocks_in (map line_form_seen lines.now)) }
    {
        let in_text = blocks_in(alloc, lines)?;
        let numbered = main_first(alloc, in_text.as_slice())?;
        let names = names_of(alloc, numbered.as_slice())?;
        Ok(Blocks {
            in_text,
            numbered,
            names,
        })
    }

    /// The blocks in the order of the text.
    pub fn in_text(&self) -> &[Block<'f, 'a>]
        ensures { map block_seen result.now ≡ self.now }
    {
        self.in_text.as_slice()
    }

    /// The blocks in the order of their numbers: main first, and then the others.
    pub fn numbered(&self) -> &[Block<'f, 'a>]
        ensures { map block_seen result.now ≡ main_first self.now }
    {
        self.numbered.as_slice()
    }

    /// The number of the first block of a name.
    pub fn number(&self, name: &'a [u8]) -> Option<usize>
        ensures { result ≡ position (λ b. bytes_eq b.name name.now) (main_first self.now) }
    {
        self.names.position(name)
    }
}

// Whether a line closes a block.
fn closes_block(form: &Form<'_>) -> bool
    ensures { result ≡ closes_block (form_seen form.now) }
{
    matches!(form, Form::CloseBlock)
}

// The position of the line that closes a block.
fn closing_line(lines: &[LineForm<'_>]) -> Option<usize>
    ensures { result ≡ position (λ l. closes_block (form_seen l.form)) lines.now }
{
    lines.iter().position(|line| closes_block(&line.form))
}

// The lines up to the one that closes a block.
fn items_of<'f, 'a>(lines: &'f [LineForm<'a>]) -> &'f [LineForm<'a>]
    ensures { map line_form_seen result.now ≡ items_of (map line_form_seen lines.now) }
{
    match closing_line(lines) {
        Some(end) => &lines[..=end],
        None => lines,
    }
}

// The blocks that lines open, in the order of the text.
fn blocks_in<'f, 'a>(
    alloc: Global,
    lines: &'f [LineForm<'a>],
) -> Result<Vec<Block<'f, 'a>>, NoMemory>
    ensures { IfOk result (λ bs. map block_seen bs.items ≡ blocks_in (map line_form_seen lines.now)) }
{
    let mut found = Vec::new(alloc);
    for (i, line) in lines.iter().enumerate() {
        if let Some(block) = block_at(line, &lines[i + 1..]) {
            found.push(block)?;
        }
    }
    Ok(found)
}

// The block that a line opens, if it opens one.
fn block_at<'f, 'a>(line: &'f LineForm<'a>, behind: &'f [LineForm<'a>]) -> Option<Block<'f, 'a>>
    ensures { blocks_in (line_form_seen line.now ∷ map line_form_seen behind.now) ≡ option_to_list (option_map block_seen result) ++ blocks_in (map line_form_seen behind.now) }
{
    let (name, subroutine) = match &line.form {
        Form::OpenThread(name) => (*name, false),
        Form::OpenSubroutine(name) => (*name, true),
        _ => return None,
    };
    Some(Block {
        name,
        subroutine,
        line: line.line,
        lines: items_of(behind),
    })
}

// Main first, and then the others.
fn main_first<'f, 'a>(
    alloc: Global,
    blocks: &[Block<'f, 'a>],
) -> Result<Vec<Block<'f, 'a>>, NoMemory>
    ensures { IfOk result (λ bs. map block_seen bs.items ≡ main_first (map block_seen blocks.now)) }
{
    let mut ordered = Vec::new(alloc);
    for block in blocks {
        if block.is_main() {
            ordered.push(*block)?;
        }
    }
    for block in blocks {
        if !block.is_main() {
            ordered.push(*block)?;
        }
    }
    Ok(ordered)
}

fn names_of<'a>(alloc: Global, blocks: &[Block<'_, 'a>]) -> Result<NameTable<'a>, NoMemory>
    ensures { IfOk result (λ ns. ns ≡ map (λ b. b.name) (map block_seen blocks.now)) }
{
    let mut names = NameTable::new(alloc);
    for block in blocks {
        names.push(block.name)?;
    }
    Ok(names)
}
