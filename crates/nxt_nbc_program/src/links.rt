// Which threads lower which.

ghost use Rattle.std.specs.Prelude.{◌≡◌, ◌≤◌, ◌++◌, [], count_by, filter_map, flat_map, length, map, option_to_list, IfOk, OnOk};
ghost use Rattle.nxt_model.specs.Nbc.Text.{block_named, blocks_named, dependents_of, exited_by, fire_of, followed_by, holds_number, named_block, once, preceded_by};
ghost use Rattle.nxt_nbc_lines.specs.Seen.{line_form_seen, term_seen, terms_seen};
ghost use Rattle.nxt_nbc_names.specs.BlocksSeen.{block_seen};
ghost use Rattle.nxt_nbc_names.specs.SourceSeen.{source_seen};
ghost use Rattle.nxt_nbc_program.specs.Links.{follower_of, follows, links_of as links_in_source, lowers};
ghost use Rattle.nxt_nbc_program.specs.LinksSeen.{follower_seen, links_seen};

use nxt_nbc_lines::{Form, LineForm, Term};
use nxt_nbc_names::{Block, Source};
use nxt_types::NoMemory;
use nxt_types::lists::Bytes;
use std::alloc::Global;

/// The threads that a thread lowers when it ends, and those that it exits to, by their numbers.
#[derive(Drop)]
pub struct Links {
    pub dependents: Bytes,
    exits: Bytes,
}

// A thread by its number, with the numbers of those that it follows.
#[derive(Drop)]
struct Follower {
    number: Option<u8>,
    follows: Bytes,
}

// ---- names

// The number of a name's thread or subroutine.
fn number_of<'a>(source: &Source<'_, 'a>, name: &'a [u8]) -> Option<u8>
    requires { length source.now.blocks ≤ 255 }
    ensures { result ≡ block_named (source_seen source.now) name.now }
{
    match source.blocks.number(name) {
        Some(number) => Some(number as u8),
        None => None,
    }
}

/// The number of the thread or subroutine that an operand names.
pub fn named<'a>(source: &Source<'_, 'a>, term: &Term<'a>) -> Option<u8>
    requires { length source.now.blocks ≤ 255 }
    ensures { option_to_list result ≡ named_block (source_seen source.now) (term_seen term.now) }
{
    number_of(source, term.single_name()?)
}

// Adds the numbers of the threads that operands name.
fn push_named<'a>(
    numbers: &mut Bytes,
    source: &Source<'_, 'a>,
    terms: &[Term<'a>],
) -> Result<(), NoMemory>
    requires { length source.now.blocks ≤ 255 }
    ensures { OnOk result (numbers.new ≡ numbers.old ++ blocks_named (source_seen source.now) (terms_seen terms.now)) }
{
    for term in terms {
        if let Some(number) = named(source, term) {
            numbers.push(number)?;
        }
    }
    Ok(())
}

// The threads that the lines of a thread precede.
fn preceded<'a>(
    alloc: Global,
    source: &Source<'_, 'a>,
    lines: &[LineForm<'a>],
) -> Result<Bytes, NoMemory>
    requires { length source.now.blocks ≤ 255 }
    ensures { IfOk result (λ ks. ks ≡ flat_map (preceded_by (source_seen source.now)) (map line_form_seen lines.now)) }
{
    let mut numbers = Bytes::new(alloc);
    for line in lines {
        if let Form::Precedes(terms) = &line.form {
            push_named(&mut numbers, source, terms.as_slice())?;
        }
    }
    Ok(numbers)
}

// Those that they follow.
fn followed<'a>(
    alloc: Global,
    source: &Source<'_, 'a>,
    lines: &[LineForm<'a>],
) -> Result<Bytes, NoMemory>
    requires { length source.now.blocks ≤ 255 }
    ensures { IfOk result (λ ks. ks ≡ flat_map (followed_by (source_seen source.now)) (map line_form_seen lines.now)) }
{
    let mut numbers = Bytes::new(alloc);
    for line in lines {
        if let Form::Follows(terms) = &line.form {
            push_named(&mut numbers, source, terms.as_slice())?;
        }
    }
    Ok(numbers)
}

// Those that they exit to.
fn exited<'a>(
    alloc: Global,
    source: &Source<'_, 'a>,
    lines: &[LineForm<'a>],
) -> Result<Bytes, NoMemory>
    requires { length source.now.blocks ≤ 255 }
    ensures { IfOk result (λ ks. ks ≡ flat_map (exited_by (source_seen source.now)) (map line_form_seen lines.now)) }
{
    let mut numbers = Bytes::new(alloc);
    for line in lines {
        if let Form::ExitTo(term) = &line.form {
            if let Some(number) = named(source, term) {
                numbers.push(number)?;
            }
        }
    }
    Ok(numbers)
}

// Whether a number is among numbers.
fn holds(numbers: &Bytes, number: usize) -> bool
    ensures { result ≡ holds_number numbers.now number }
{
    numbers
        .as_slice()
        .iter()
        .any(|other| usize::from(*other) == number)
}

// Each number once, in the order in which they first come.
fn once(alloc: Global, numbers: &[u8]) -> Result<Bytes, NoMemory>
    ensures { IfOk result (λ ks. ks ≡ once [] numbers.now) }
{
    let mut firsts = Bytes::new(alloc);
    for number in numbers {
        if !holds(&firsts, usize::from(*number)) {
            firsts.push(*number)?;
        }
    }
    Ok(firsts)
}

// ---- links

// The threads of a text, with those that they follow.
fn followers<'a>(
    alloc: Global,
    source: &Source<'_, 'a>,
    blocks: &[Block<'_, 'a>],
) -> Result<Vec<Follower>, NoMemory>
    requires { length source.now.blocks ≤ 255 }
    ensures { IfOk result (λ fs. map follower_seen fs.items ≡ map (follower_of (source_seen source.now)) (map block_seen blocks.now)) }
{
    let mut found = Vec::new(alloc);
    for block in blocks {
        let follows = followed(alloc, source, block.lines)?;
        found.push(Follower {
            number: number_of(source, block.name),
            follows,
        })?;
    }
    Ok(found)
}

// Adds the threads that follow a thread.
fn push_followers(
    numbers: &mut Bytes,
    followers: &[Follower],
    number: usize,
) -> Result<(), NoMemory>
    ensures { OnOk result (numbers.new ≡ numbers.old ++ filter_map (follows number) (map follower_seen followers.now)) }
{
    for follower in followers {
        if holds(&follower.follows, number) {
            if let Some(own) = follower.number {
                numbers.push(own)?;
            }
        }
    }
    Ok(())
}

// The threads that are lowered when a block ends.
fn dependents<'a>(
    alloc: Global,
    source: &Source<'_, 'a>,
    followers: &[Follower],
    number: usize,
    block: &Block<'_, 'a>,
) -> Result<Bytes, NoMemory>
    requires few { length source.now.blocks ≤ 255 }
    requires followers { map follower_seen followers.now ≡ map (follower_of (source_seen source.now)) source.now.blocks }
    ensures { IfOk result (λ ks. ks ≡ dependents_of (source_seen source.now) number (block_seen block.now)) }
{
    if block.subroutine {
        return Ok(Bytes::new(alloc));
    }
    let mut numbers = preceded(alloc, source, block.lines)?;
    push_followers(&mut numbers, followers, number)?;
    once(alloc, numbers.as_slice())
}

/// The links of the blocks of a text, in the order of their numbers.
pub fn links_of<'a>(alloc: Global, source: &Source<'_, 'a>) -> Result<Vec<Links>, NoMemory>
    requires { length source.now.blocks ≤ 255 }
    ensures { IfOk result (λ ls. map links_seen ls.items ≡ links_in_source (source_seen source.now)) }
{
    let followers = followers(alloc, source, source.blocks.in_text())?;
    let mut links = Vec::new(alloc);
    for (number, block) in source.blocks.numbered().iter().enumerate() {
        let dependents = dependents(alloc, source, followers.as_slice(), number, block)?;
        let exits = exited(alloc, source, block.lines)?;
        links.push(Links { dependents, exits })?;
    }
    Ok(links)
}

impl Links {
    // Whether a thread with these links lowers another.
    fn lowers(&self, number: usize) -> bool
        ensures { result ≡ lowers number (links_seen self.now) }
    {
        holds(&self.dependents, number) || holds(&self.exits, number)
    }
}

/// How often a block is lowered before it is queued.
pub fn fire<'a>(
    source: &Source<'_, 'a>,
    links: &[Links],
    number: usize,
    block: &Block<'_, 'a>,
) -> u8
    requires few { length source.now.blocks ≤ 255 }
    requires links { map links_seen links.now ≡ links_in_source (source_seen source.now) }
    ensures { result ≡ fire_of (source_seen source.now) number (block_seen block.now) }
{
    if block.subroutine {
        1
    } else if block.is_main() {
        0
    } else {
        lowering(links, number) as u8
    }
}

// How many of some links lower a block.
fn lowering(links: &[Links], number: usize) -> usize
    ensures { result ≡ count_by (λ l. lowers number (links_seen l)) links.now }
{
    links.iter().filter(|link| link.lowers(number)).count()
}
