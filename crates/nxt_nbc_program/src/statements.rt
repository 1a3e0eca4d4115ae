// The statements of threads and subroutines.

ghost use Rattle.std.specs.Prelude.{◌≡◌, ◌≤◌, ◌+◌, ◌%◌, if◌then◌else◌, [], ◌∷◌, flat_map, length, option_to_list, IfOk};
ghost use Rattle.nxt_types.specs.declared.instr.Op.TheVariants.{Finclumpimmed, Subcall};
ghost use Rattle.nxt_types.specs.declared.kind.Cmp.TheVariants.{Lt};
ghost use Rattle.nxt_model.specs.Nbc.Text.{ending, labels_from, returning, statement, statements_in};
ghost use Rattle.nxt_model.specs.declared.nbc.NbcArg.TheVariants.{Back, Block as a_block};
ghost use Rattle.nxt_nbc_lines.specs.Seen.{line_form_seen};
ghost use Rattle.nxt_nbc_lines.specs.Whole.{AreWhole, IsWhole, most_in_text};
ghost use Rattle.nxt_nbc_names.specs.BlocksSeen.{block_seen};
ghost use Rattle.nxt_nbc_names.specs.SourceSeen.{source_seen};
ghost use Rattle.nxt_nbc_program.specs.Fits.{LabelsFit, SourceFits};

use crate::args::args_of;
use crate::links::named;
use nxt_model::nbc::{NbcArg, NbcArgs, NbcStatement, NbcStatements};
use nxt_nbc_lines::{Form, LineForm};
use nxt_nbc_names::{Block, Labels, Source};
use nxt_types::NoMemory;
use nxt_types::instr::Op;
use nxt_types::kind::Cmp;
use std::alloc::Global;

/// A block whose statements are written: its number, whether it is a subroutine, and how many threads it lowers.
#[derive(Clone, Copy)]
struct Place {
    number: u8,
    subroutine: bool,
    dependents: usize,
}

/// The statements of a block with this number, which lowers `dependents` threads when it ends.
pub fn body_of<'a>(
    alloc: Global,
    source: &Source<'_, 'a>,
    number: u8,
    block: &Block<'_, 'a>,
    dependents: usize,
) -> Result<NbcStatements, NoMemory>
    requires source { SourceFits (source_seen source.now) }
    requires whole { AreWhole (block_seen block.now).items }
    requires few { length (block_seen block.now).items ≤ most_in_text }
    ensures { let items = (block_seen block.now).items in
        IfOk result (λ ss. ss ≡ flat_map (statements_in (source_seen source.now) (labels_from 0 items) number block.now.subroutine dependents) items) }
{
    let labels = Labels::of(alloc, block.lines)?;
    let place = Place {
        number,
        subroutine: block.subroutine,
        dependents,
    };
    let mut statements = NbcStatements::new(alloc);
    for line in block.lines {
        if let Some(statement) = statement_of(alloc, source, &labels, place, line)? {
            statements.push(statement)?;
        }
    }
    Ok(statements)
}

// The statement that a line of a block is, if it is one.
fn statement_of<'a>(
    alloc: Global,
    source: &Source<'_, 'a>,
    labels: &Labels<'a>,
    place: Place,
    line: &LineForm<'a>,
) -> Result<Option<NbcStatement>, NoMemory>
    requires source { SourceFits (source_seen source.now) }
    requires labels { LabelsFit labels.now }
    requires whole { IsWhole (line_form_seen line.now).1 }
    ensures { IfOk result (λ o. option_to_list o ≡ statements_in (source_seen source.now) labels.now place.number place.subroutine place.dependents (line_form_seen line.now)) }
{
    let line_number = line.line;
    match &line.form {
        Form::Do(_, op, cmp, terms) => {
            let args = args_of(alloc, source, labels, line_number, *op, terms.as_slice())?;
            Ok(Some(NbcStatement {
                op: *op,
                cmp: *cmp,
                args,
                line: line_number,
            }))
        }
        Form::Call(term) => match named(source, term) {
            Some(called) => Ok(Some(calling(alloc, line_number, called)?)),
            None => Ok(None),
        },
        Form::ExitTo(term) => match named(source, term) {
            Some(next) => Ok(Some(exiting(alloc, line_number, next)?)),
            None => Ok(None),
        },
        Form::Return => Ok(Some(returning(alloc, line_number, place.number)?)),
        Form::Exit => Ok(Some(ending(alloc, line_number, place.dependents)?)),
        Form::CloseBlock => Ok(Some(closing(alloc, line_number, place)?)),
        _ => Ok(None),
    }
}

// A statement that compares nothing.
fn plain(line: u32, op: Op, args: NbcArgs) -> NbcStatement
    ensures { result ≡ statement line op Lt args }
{
    NbcStatement {
        op,
        cmp: Cmp::Lt,
        args,
        line,
    }
}

fn calling(alloc: Global, line: u32, called: u8) -> Result<NbcStatement, NoMemory>
    ensures { IfOk result (λ s. s ≡ statement line Subcall Lt (a_block called ∷ Back called ∷ [])) }
{
    let mut args = NbcArgs::new(alloc);
    args.push(NbcArg::Block(called))?;
    args.push(NbcArg::Back(called))?;
    Ok(plain(line, Op::Subcall, args))
}

fn exiting(alloc: Global, line: u32, next: u8) -> Result<NbcStatement, NoMemory>
    ensures { IfOk result (λ s. s ≡ statement line Finclumpimmed Lt (a_block next ∷ [])) }
{
    let mut args = NbcArgs::new(alloc);
    args.push(NbcArg::Block(next))?;
    Ok(plain(line, Op::Finclumpimmed, args))
}

fn returning(alloc: Global, line: u32, number: u8) -> Result<NbcStatement, NoMemory>
    ensures { IfOk result (λ s. s ≡ returning line number) }
{
    let mut args = NbcArgs::new(alloc);
    args.push(NbcArg::Back(number))?;
    Ok(plain(line, Op::Subret, args))
}

// The end of a thread: the first and the last of its dependents, where none is written as 65535.
fn ending(alloc: Global, line: u32, dependents: usize) -> Result<NbcStatement, NoMemory>
    ensures { IfOk result (λ s. s ≡ ending line dependents) }
{
    let mut args = NbcArgs::new(alloc);
    args.push(NbcArg::Imm(0))?;
    args.push(NbcArg::Imm(last_of(dependents)))?;
    Ok(plain(line, Op::Finclump, args))
}

// The position of the last of `count`, in 16 bits.
fn last_of(count: usize) -> u16
    ensures { result ≡ (count + 65535) % 65536 }
{
    ((count % 65536 + 65535) % 65536) as u16
}

// What the line that closes a block adds.
fn closing(alloc: Global, line: u32, place: Place) -> Result<NbcStatement, NoMemory>
    ensures { IfOk result (λ s. s ≡ (if place.subroutine then returning line place.number else ending line place.dependents)) }
{
    if place.subroutine {
        returning(alloc, line, place.number)
    } else {
        ending(alloc, line, place.dependents)
    }
}
