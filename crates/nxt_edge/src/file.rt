// Sources and sinks over the runtime. They tell no content: what a file or standard output gave or took no clause says.

ghost use Rattle.std.specs.Prelude.{None, ◌≡◌, ◌≤◌, ◌<◌, [], length, take, IfSome, IsNone, IsErr, IfOk, Ok};
ghost use Rattle.std.specs.Io.{ReadsAtMost, WritesAtMost};
ghost use Rattle.std.specs.Io.KnownBytes.{ReadConsumes, WriteAppends};
ghost use Rattle.nxt_edge.specs.Edge.{HasCause};

use crate::source::{Failed, Sink, Source};
use std::fs;
use std::io::{self, Read, Write};
use std::rt::Files;

/// A source over a file, which is opened at the first call. Each error raises its count of faults by one.
#[derive(Drop)]
pub struct FileSource<R: Files + Drop> {
    rt: R,
    path: Option<String>,
    file: Option<R::File>,
    faults: u64,
}

impl<R: Files + Drop> FileSource<R> {
    pub fn new(rt: R, path: Option<String>) -> FileSource<R>
        ensures path { result.path ≡ path }
        ensures faults { result.faults ≡ 0 }
    {
        FileSource {
            rt,
            path,
            file: None,
            faults: 0,
        }
    }

    fn take(&mut self, into: &mut [u8]) -> Option<usize>
        ensures count { IfSome result (λ n. (n ≤ length into.new) × (n ≡ length (take n into.new))) }
        ensures faults { self.new.faults ≡ self.old.faults }
    {
        if self.file.is_none() {
            let path = self.path.as_ref()?;
            self.file = Some(fs::open(&self.rt, path.as_str()).ok()?);
        }
        self.file.as_mut()?.read(into).ok()
    }
}

impl<R: Files + Drop> Source for FileSource<R> {
    ghost left = { λ _. None };

    ghost faults = { λ s. s.faults };

    fn read(&mut self, into: &mut [u8]) -> Result<usize, Failed> {
        if into.is_empty() {
            return Ok(0);
        }
        match self.take(into) {
            Some(count) => Ok(count),
            None => {
                self.faults = self.faults.saturating_add(1);
                Err(Failed)
            }
        }
    }
}

/// A sink over a file, which is made at the first call. Each error raises its count of faults by one.
#[derive(Drop)]
pub struct FileSink<R: Files + Drop> {
    rt: R,
    path: Option<String>,
    file: Option<R::File>,
    faults: u64,
}

impl<R: Files + Drop> FileSink<R> {
    pub fn new(rt: R, path: Option<String>) -> FileSink<R>
        ensures path { result.path ≡ path }
        ensures faults { result.faults ≡ 0 }
    {
        FileSink {
            rt,
            path,
            file: None,
            faults: 0,
        }
    }

    // Writes once. A write that takes nothing is an error.
    fn put(&mut self, piece: &[u8]) -> Option<usize>
        ensures count { IfSome result (λ n. (n ≤ length piece.now) × (0 < n)) }
        ensures faults { self.new.faults ≡ self.old.faults }
    {
        if self.file.is_none() {
            let path = self.path.as_ref()?;
            self.file = Some(fs::create(&self.rt, path.as_str()).ok()?);
        }
        match self.file.as_mut()?.write(piece) {
            Ok(count) if count > 0 => Some(count),
            _ => None,
        }
    }
}

impl<R: Files + Drop> Sink for FileSink<R> {
    ghost written = { λ _. None };

    ghost faults = { λ s. s.faults };

    fn write(&mut self, piece: &[u8]) -> Result<usize, Failed> {
        if piece.is_empty() {
            return Ok(0);
        }
        match self.put(piece) {
            Some(count) => Ok(count),
            None => {
                self.faults = self.faults.saturating_add(1);
                Err(Failed)
            }
        }
    }
}

/// A sink over standard output. Each error, and each write that takes nothing, raises its count of faults by one.
#[derive(Drop)]
pub struct OutSink<R: Print + Drop> {
    rt: R,
    faults: u64,
}

impl<R: Print + Drop> OutSink<R> {
    pub fn new(rt: R) -> OutSink<R>
        ensures { result.faults ≡ 0 }
    {
        OutSink { rt, faults: 0 }
    }
}

impl<R: Print + Drop> Sink for OutSink<R> {
    ghost written = { λ _. None };

    ghost faults = { λ s. s.faults };

    fn write(&mut self, piece: &[u8]) -> Result<usize, Failed> {
        if piece.is_empty() {
            return Ok(0);
        }
        match io::writer(&self.rt).write(piece) {
            Ok(count) if count > 0 => Ok(count),
            _ => {
                self.faults = self.faults.saturating_add(1);
                Err(Failed)
            }
        }
    }
}
