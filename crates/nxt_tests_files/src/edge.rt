// Objects over the runtime, of whose bytes no clause speaks.

use crate::found::same;
use nxt_edge::{Failed, FileSink, FileSource, OutSink, Sink, Source};
use std::alloc::Global;
use std::fs;
use std::process::Abort;
use std::rt::Files;
use std::test::Fail;

fn path(alloc: Global, name: &str) -> Result<Option<String>, Fail> {
    Ok(Some(String::from_str(alloc, name)?))
}

fn write_pieces(rt: &impl Abort, sink: &mut impl Sink) {
    same(rt, sink.write(b"ab"), Ok(2), "two bytes");
    same(rt, sink.write(b""), Ok(0), "none");
    same(rt, sink.write(b"c"), Ok(1), "a byte more");
}

fn read_pieces(rt: &impl Abort, source: &mut impl Source) {
    let mut buffer = [0u8; 8];
    same(rt, source.read(&mut buffer), Ok(3), "all bytes");
    same(rt, &buffer[..3], b"abc".as_slice(), "the bytes");
    same(rt, source.read(&mut buffer), Ok(0), "the end");
}

fn write_file<R: Files + Drop>(rt: &impl Abort, host: R, path: Option<String>) {
    let mut sink = FileSink::new(host, path);
    write_pieces(rt, &mut sink);
}

fn read_file<R: Files + Drop>(rt: &impl Abort, host: R, path: Option<String>) {
    let mut source = FileSource::new(host, path);
    read_pieces(rt, &mut source);
}

#[test]
fn a_file_is_written_and_read(rt: HostRuntime) -> Result<(), Fail> {
    let name = "a_file_is_written_and_read.tmp";
    write_file(&rt, rt.clone()?, path(rt.alloc(), name)?);
    read_file(&rt, rt.clone()?, path(rt.alloc(), name)?);
    fs::remove_file(&rt, name)?;
    Ok(())
}

fn read_nothing(rt: &impl Abort, source: &mut impl Source) {
    let mut buffer = [0u8; 8];
    same(rt, source.read(&mut []), Ok(0), "no room");
    same(rt, source.read(&mut buffer), Err(Failed), "no file");
    same(rt, source.read(&mut buffer), Err(Failed), "no file again");
}

fn write_nothing(rt: &impl Abort, sink: &mut impl Sink) {
    same(rt, sink.write(b""), Ok(0), "no bytes");
    same(rt, sink.write(b"a"), Err(Failed), "no file");
}

fn read_without_file<R: Files + Drop>(rt: &impl Abort, host: R, path: Option<String>) {
    let mut source = FileSource::new(host, path);
    read_nothing(rt, &mut source);
}

fn write_without_file<R: Files + Drop>(rt: &impl Abort, host: R, path: Option<String>) {
    let mut sink = FileSink::new(host, path);
    write_nothing(rt, &mut sink);
}

#[test]
fn no_path_and_no_file_are_faults(rt: HostRuntime) -> Result<(), Fail> {
    let missing = "no_such_folder/no_such_file";
    read_without_file(&rt, rt.clone()?, None);
    read_without_file(&rt, rt.clone()?, path(rt.alloc(), missing)?);
    write_without_file(&rt, rt.clone()?, None);
    write_without_file(&rt, rt.clone()?, path(rt.alloc(), missing)?);
    let mut out = OutSink::new(rt.clone()?);
    same(&rt, out.write(b""), Ok(0), "no bytes");
    same(&rt, out.write(b"\n"), Ok(1), "a byte");
    Ok(())
}
