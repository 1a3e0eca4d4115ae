// The texts of lines, as a reader sees them.

use nxt_model::line::{Line, Lines, Stop};
use nxt_model::text::line_text;
use nxt_types::Bytes;
use std::alloc::Global;
use std::test::Fail;

const DUE: &[u8] =
    b"motor,0,7,-100,32,0,0,4294967295\ntone,200,1,0,4\ntext,0,56,-1,676f\nreply,0255be\nstop,memory,32772\ndump,24,4,1,30064\n";

fn bytes_of(alloc: Global, bytes: &[u8]) -> Result<Bytes, Fail> {
    Ok(Bytes::from_vec(bytes.to_vec(alloc)?))
}

// A line of each kind.
fn push_lines(alloc: Global, lines: &mut Lines) -> Result<(), Fail> {
    lines.push(Line::Motor(0, 7, -100, 32, 0, 0, 4_294_967_295))?;
    lines.push(Line::Tone(200, 1, 0, 4))?;
    lines.push(Line::Text(0, 56, -1, bytes_of(alloc, b"go")?))?;
    lines.push(Line::Reply(bytes_of(alloc, &[0x02, 0x55, 0xbe])?))?;
    lines.push(Line::Stop(Stop::Memory(32_772)))?;
    lines.push(Line::Dump(24, 4, 1, 30_064))?;
    Ok(())
}

fn push_texts(lines: &[Line], text: &mut Bytes) -> Result<(), Fail> {
    for line in lines {
        line_text(line, text)?;
    }
    Ok(())
}

fn text_of(alloc: Global, lines: &[Line]) -> Result<Bytes, Fail> {
    let mut text = Bytes::new(alloc);
    push_texts(lines, &mut text)?;
    Ok(text)
}

fn text_of_lines(alloc: Global) -> Result<Bytes, Fail> {
    let mut lines = Lines::new(alloc);
    push_lines(alloc, &mut lines)?;
    text_of(alloc, lines.as_slice())
}

#[test]
fn texts_of_lines(rt: HostRuntime) -> Result<(), Fail> {
    let text = text_of_lines(rt.alloc())?;
    assert_eq!(rt; text.as_slice(), DUE);
    Ok(())
}
