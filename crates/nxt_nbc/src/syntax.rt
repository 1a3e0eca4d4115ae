// The rule of syntax: each line has a form of its place, and no type is too large.

ghost use Rattle.std.specs.Prelude.{◌≡◌, ◌&&◌, map, not};
ghost use Rattle.nxt_model.specs.Nbc.Forms.{is_byte_name};
ghost use Rattle.nxt_model.specs.Nbc.Text.{source_of};
ghost use Rattle.nxt_model.specs.Nbc.Types.{is_type_at, shape_at};
ghost use Rattle.nxt_model.specs.Nbc.NbcRules.{Syntax, is_too_large, tells};
ghost use Rattle.nxt_nbc_lines.specs.Firsts.{IsLeast, first_line};
ghost use Rattle.nxt_nbc_lines.specs.Seen.{form_seen, formed_seen, line_form_seen, type_seen};
ghost use Rattle.nxt_nbc_lines.specs.Whole.{AreLines};
ghost use Rattle.nxt_nbc_names.specs.SourceSeen.{source_seen};
ghost use Rattle.nxt_nbc.specs.Syntax.{is_bad_form};

use crate::lines::lesser;
use nxt_nbc_lines::{Form, Formed, Given, LineForm, TypeName};
use nxt_nbc_names::{Source, StructTable};

/// The first line that has none of the forms of its place, that opens what isn't closed, that ends a struct without
/// members, that declares too large a type, or that gives a text to a list of numbers that aren't bytes.
pub fn bad_line<'a>(formed: &Formed<'a>, source: &Source<'_, 'a>) -> Option<u32>
    requires of { source_seen source.now ≡ source_of (formed_seen formed.now).forms }
    requires lines { AreLines (formed_seen formed.now).forms }
    ensures { IsLeast (λ l. tells (formed_seen formed.now) (Syntax l)) result }
{
    lesser(
        formed.bad,
        first_bad_form(formed.forms.as_slice(), &source.structs),
    )
}

fn first_bad_form<'a>(lines: &[LineForm<'a>], structs: &StructTable<'a>) -> Option<u32>
    ensures { result ≡ first_line (is_bad_form structs.now.structs) (map line_form_seen lines.now) }
{
    for line in lines {
        if is_bad_form(line, structs) {
            return Some(line.line);
        }
    }
    None
}

fn is_bad_form<'a>(line: &LineForm<'a>, structs: &StructTable<'a>) -> bool
    ensures { result ≡ is_bad_form structs.now.structs line.now.line (form_seen line.now.form) }
{
    match &line.form {
        Form::Declare(_, of, Given::Bytes(_)) => {
            has_large_type(*of, line.line, structs) || is_no_text(*of, line.line, structs)
        }
        Form::Declare(_, of, _) | Form::Member(_, of) => has_large_type(*of, line.line, structs),
        _ => false,
    }
}

fn has_large_type<'a>(of: TypeName<'a>, line: u32, structs: &StructTable<'a>) -> bool
    ensures { result ≡ is_too_large (shape_at structs.now.structs line (type_seen of.entry)) }
{
    structs.extent(structs.shape(of, line)).is_too_large()
}

// Whether a type's name is one that no text is given to.
fn is_no_text<'a>(of: TypeName<'a>, line: u32, structs: &StructTable<'a>) -> bool
    ensures { result ≡ (is_type_at structs.now.structs line of.entry.name.now && not (is_byte_name of.entry.name.now)) }
{
    structs.is_type(of.name, line) && !is_byte_name(of.name)
}

fn is_byte_name(name: &[u8]) -> bool
    ensures { result ≡ is_byte_name name.now }
{
    matches!(name, b"byte" | b"ubyte" | b"db")
}
