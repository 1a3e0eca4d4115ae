// The rule of names that are declared twice, and the count of names.

ghost use Rattle.std.specs.Prelude.{◌≡◌, ℕ, ◌+◌, [], ◌∷◌, ◌++◌, ◌||◌, Option, None, filter_map, length, map, nat_lt, option_map, sum_by, IfOk, OnOk};
ghost use Rattle.nxt_model.specs.Nbc.Text.{source_of};
ghost use Rattle.nxt_model.specs.Nbc.NbcRules.{TooMany, TwiceNamed, is_taken, label_space, member_spaces, members_in, shared_name, tells};
ghost use Rattle.nxt_nbc_lines.specs.Firsts.{IsLeast, lesser as lesser_of};
ghost use Rattle.nxt_nbc_lines.specs.Seen.{form_seen, formed_seen, line_form_seen};
ghost use Rattle.nxt_nbc_names.specs.BlocksSeen.{block_seen};
ghost use Rattle.nxt_nbc_names.specs.SourceSeen.{source_seen};
ghost use Rattle.nxt_nbc.specs.Spaces.{again, is_among, least_again, least_in_spaces};
ghost use Rattle.nxt_nbc.specs.SpacesSeen.{Tells};

use crate::lines::lesser;
use nxt_nbc_lines::{Form, Formed, LineForm};
use nxt_nbc_names::{Block, Labels, NameTable, Source, is_header_name};
use nxt_types::NoMemory;
use std::alloc::Global;

/// What names tell: the least line that declares one again, or one that is taken, and how many they are.
#[derive(Clone, Copy, PartialEq, Eq, Debug)]
pub struct Declarations {
    pub twice: Option<u32>,
    pub count: usize,
}

impl Declarations {
    fn none() -> Declarations
        ensures { Tells result None 0 }
    {
        Declarations {
            twice: None,
            count: 0,
        }
    }

    // Those of two spaces.
    fn and(self, other: Declarations) -> Declarations
        ensures { (a b : Option ℕ) (n m : ℕ) → Tells self a n → Tells other b m → Tells result (lesser_of a b) (n + m) }
    {
        Declarations {
            twice: lesser(self.twice, other.twice),
            count: self.count.saturating_add(other.count),
        }
    }
}

// ---- one space

// The names of a space so far.
#[derive(Drop)]
struct Space<'a> {
    names: NameTable<'a>,
    twice: Option<u32>,
}

impl<'a> Space<'a> {
    fn new(alloc: Global) -> Space<'a>
        ensures names { result.names ≡ [] }
        ensures twice { result.twice ≡ None }
    {
        Space {
            names: NameTable::new(alloc),
            twice: None,
        }
    }

    fn declare(
        &mut self,
        source: &Source<'_, 'a>,
        line: u32,
        name: &'a [u8],
    ) -> Result<(), NoMemory>
        ensures names { OnOk result (self.new.names ≡ self.old.names ++ name.now ∷ []) }
        ensures twice { OnOk result ((later : Option ℕ) → lesser_of self.new.twice later
            ≡ lesser_of self.old.twice (again (is_among self.old.names name.now || is_taken (source_seen source.now) line name.now) line later)) }
    {
        if self.names.position(name).is_some() || is_taken(source, line, name) {
            self.twice = lesser(self.twice, Some(line));
        }
        self.names.push(name)
    }

    fn declarations(&self) -> Declarations
        ensures { Tells result self.now.twice (length self.now.names) }
    {
        Declarations {
            twice: self.twice,
            count: self.names.len(),
        }
    }
}

// Whether a name is that of a type, or one of a header that the text includes.
fn is_taken<'a>(source: &Source<'_, 'a>, line: u32, name: &'a [u8]) -> bool
    ensures { result ≡ is_taken (source_seen source.now) line name.now }
{
    source.structs.is_type(name, line) || (source.structs.includes_header() && is_header_name(name))
}

// ---- the spaces

// The names that share one space.
fn shared_space<'a>(
    alloc: Global,
    source: &Source<'_, 'a>,
    lines: &[LineForm<'a>],
) -> Result<Declarations, NoMemory>
    ensures { let ds = filter_map shared_name (map line_form_seen lines.now) in
        IfOk result (λ d. Tells d (least_again (is_taken (source_seen source.now)) [] ds) (length ds)) }
{
    let mut space = Space::new(alloc);
    for line in lines {
        if let Some(name) = shared_name(&line.form) {
            space.declare(source, line.line, name)?;
        }
    }
    Ok(space.declarations())
}

fn shared_name<'a>(form: &Form<'a>) -> Option<&'a [u8]>
    ensures { (line : ℕ) → option_map (λ n. (line, n.now)) result ≡ shared_name (line, form_seen form.now) }
{
    match form {
        Form::Declare(name, ..) => Some(*name),
        Form::OpenStruct(name) => Some(*name),
        Form::OpenThread(name) => Some(*name),
        Form::OpenSubroutine(name) => Some(*name),
        _ => None,
    }
}

// The names of a struct's members, which stand behind the line that opens it.
fn member_space<'a>(
    alloc: Global,
    source: &Source<'_, 'a>,
    behind: &[LineForm<'a>],
) -> Result<Declarations, NoMemory>
    ensures { let ds = members_in (map line_form_seen behind.now) in
        IfOk result (λ d. Tells d (least_again (is_taken (source_seen source.now)) [] ds) (length ds)) }
{
    let mut space = Space::new(alloc);
    for line in behind {
        match &line.form {
            Form::Member(name, _) => space.declare(source, line.line, *name)?,
            Form::CloseStruct => break,
            _ => {}
        }
    }
    Ok(space.declarations())
}

// The names of the members of all structs.
fn member_spaces<'a>(
    alloc: Global,
    source: &Source<'_, 'a>,
    lines: &[LineForm<'a>],
) -> Result<Declarations, NoMemory>
    ensures { let all = member_spaces (map line_form_seen lines.now) in
        IfOk result (λ d. Tells d (least_in_spaces (is_taken (source_seen source.now)) all) (sum_by (λ ds. length ds) all)) }
{
    let mut declared = Declarations::none();
    for (i, line) in lines.iter().enumerate() {
        if let Form::OpenStruct(_) = line.form {
            declared = declared.and(member_space(alloc, source, &lines[i + 1..])?);
        }
    }
    Ok(declared)
}

// The labels of a block.
fn label_space<'a>(
    alloc: Global,
    source: &Source<'_, 'a>,
    block: &Block<'_, 'a>,
) -> Result<Declarations, NoMemory>
    ensures { let ds = label_space (block_seen block.now) in
        IfOk result (λ d. Tells d (least_again (is_taken (source_seen source.now)) [] ds) (length ds)) }
{
    let labels = Labels::of(alloc, block.lines)?;
    let mut space = Space::new(alloc);
    for label in labels.as_slice() {
        space.declare(source, label.line, label.name)?;
    }
    Ok(space.declarations())
}

// The labels of all blocks.
fn label_spaces<'a>(
    alloc: Global,
    source: &Source<'_, 'a>,
    blocks: &[Block<'_, 'a>],
) -> Result<Declarations, NoMemory>
    ensures { let all = map label_space (map block_seen blocks.now) in
        IfOk result (λ d. Tells d (least_in_spaces (is_taken (source_seen source.now)) all) (sum_by (λ ds. length ds) all)) }
{
    let mut declared = Declarations::none();
    for block in blocks {
        declared = declared.and(label_space(alloc, source, block)?);
    }
    Ok(declared)
}

/// What the names of a text tell: those that share one space, the members of each struct, and the labels of each thread
/// and subroutine.
pub fn declarations_of<'a>(
    alloc: Global,
    formed: &Formed<'a>,
    source: &Source<'_, 'a>,
) -> Result<Declarations, NoMemory>
    requires of { source_seen source.now ≡ source_of (formed_seen formed.now).forms }
    ensures twice { IfOk result (λ d. IsLeast (λ l. tells (formed_seen formed.now) (TwiceNamed l)) d.twice) }
    ensures count { IfOk result (λ d. nat_lt 10000 d.count ≡ tells (formed_seen formed.now) (TooMany 1)) }
{
    let lines = formed.forms.as_slice();
    let shared = shared_space(alloc, source, lines)?;
    let members = member_spaces(alloc, source, lines)?;
    let labels = label_spaces(alloc, source, source.blocks.in_text())?;
    Ok(shared.and(members).and(labels))
}
