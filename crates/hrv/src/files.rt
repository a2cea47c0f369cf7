//! The system as the place where devices come from: the files that are read, and standard input and output.
//!
//! What a file or a terminal gives and takes is outside of what a proof can know, so the facts of bytes
//! of these devices hold of any bytes. That each failure is counted is proved.

ghost use Rattle.std.specs.Prelude.{◌≡◌, ◌≤◌, length, codes, IfOk};

use crate::dispatch::Devices;
use crate::file_sinks::FileSink;
use crate::limits::{self, Stream};
use hrv_engines::{Sink, Source};
use std::alloc::Global;
use std::io::{Read, Write};
use std::rt::Files;
use std::{fs, io};

/// The system's files, and standard input and output.
#[derive(Drop)]
pub struct System<'a, R: Files> {
    rt: &'a R,
    alloc: Global,
}

impl<'a, R: Files> System<'a, R> {
    /// The system that a program runs in.
    pub fn new(rt: &'a R, alloc: Global) -> System<'a, R> {
        System { rt, alloc }
    }
}

impl<'a, R: Files + Input + Print> Devices<'a> for System<'a, R> {
    type Read = FileSource<'a, R>;

    type Written = FileSink<'a, R>;

    type Typed = StandardInput<R>;

    type Printed = StandardOutput<'a, R>;

    fn read(&self, path: &'a str) -> FileSource<'a, R> {
        FileSource::new(self.rt, path)
    }

    fn written(&self, path: &'a str) -> FileSink<'a, R> {
        FileSink::new(self.rt, self.alloc, path)
    }

    fn typed(&self) -> StandardInput<R> {
        StandardInput::new(self.rt)
    }

    fn printed(&self) -> StandardOutput<'a, R> {
        StandardOutput::new(self.rt)
    }
}

/// A file to be read. It is opened at its first read, so that files are refused in the order in which they are read,
/// and closed at its end, so that no more than one is open where many are read one after the other.
#[derive(Drop)]
pub struct FileSource<'a, R: Files> {
    rt: &'a R,
    path: &'a str,
    file: Option<R::File>,
    has_ended: bool,
    failures: u64,
}

impl<'a, R: Files> FileSource<'a, R> {
    /// The file at a path, not yet opened.
    pub fn new(rt: &'a R, path: &'a str) -> FileSource<'a, R>
        ensures path { result.path.now ≡ path.entry.now }
        ensures failures { result.failures ≡ 0 }
    {
        FileSource {
            rt,
            path,
            file: None,
            has_ended: false,
            failures: 0,
        }
    }

    /// How many bytes the file gave; it is opened first where it isn't open, and closed where it gave none.
    fn try_read(&mut self, buffer: &mut [u8]) -> io::Result<usize>
        ensures count { IfOk result (λ n. n ≤ length buffer.old) }
        ensures path { self.new.path.now ≡ self.old.path.now }
        ensures failures { self.new.failures ≡ self.old.failures }
    {
        if self.has_ended {
            return Ok(0);
        }
        let mut file = match self.file.take() {
            Some(file) => file,
            None => fs::open(self.rt, self.path)?,
        };
        let count = file.read(buffer)?;
        if count == 0 && !buffer.is_empty() {
            self.has_ended = true;
        } else {
            self.file = Some(file);
        }
        Ok(count)
    }
}

impl<'a, R: Files> Source for FileSource<'a, R> {
    ghost place = { λ s. s.path.now };

    ghost failed = { λ s. s.failures };

    ghost gave = { λ _ _ _. Unit {0} };

    ghost ended = { λ _. Unit {0} };

    ghost gave_nothing = { λ _. tt };

    ghost gave_more = { λ _ _ _ _ _ _ _. tt };

    fn path(&self) -> &str {
        self.path
    }

    fn failures(&self) -> u64 {
        self.failures
    }

    fn read(&mut self, buffer: &mut [u8]) -> io::Result<usize> {
        let count = self.try_read(buffer);
        if count.is_err() {
            self.failures += 1;
        }
        count
    }
}

/// Standard input. Its path is `-`. A read gives what there is, so that a terminal's lines come one by one.
#[derive(Drop)]
pub struct StandardInput<R: Input> {
    reader: R::Reader,
    failures: u64,
}

impl<R: Input> StandardInput<R> {
    /// Standard input before any read.
    pub fn new(rt: &R) -> StandardInput<R>
        ensures { result.failures ≡ 0 }
    {
        StandardInput {
            reader: rt.reader(),
            failures: 0,
        }
    }
}

impl<R: Input> Source for StandardInput<R> {
    ghost place = { λ _. codes "-" };

    ghost failed = { λ s. s.failures };

    ghost gave = { λ _ _ _. Unit {0} };

    ghost ended = { λ _. Unit {0} };

    ghost gave_nothing = { λ _. tt };

    ghost gave_more = { λ _ _ _ _ _ _ _. tt };

    fn path(&self) -> &str {
        "-"
    }

    fn failures(&self) -> u64 {
        self.failures
    }

    fn read(&mut self, buffer: &mut [u8]) -> io::Result<usize> {
        let count = self.reader.read(buffer);
        if count.is_err() {
            self.failures += 1;
        }
        count
    }
}

/// Standard output. Its path is `-`.
#[derive(Drop)]
pub struct StandardOutput<'a, R: Files + Print> {
    rt: &'a R,
    failures: u64,
}

impl<'a, R: Files + Print> StandardOutput<'a, R> {
    /// Standard output before any write.
    pub fn new(rt: &'a R) -> StandardOutput<'a, R>
        ensures { result.failures ≡ 0 }
    {
        StandardOutput { rt, failures: 0 }
    }

    /// How many bytes standard output took.
    fn try_write(&self, bytes: &[u8]) -> io::Result<usize>
        ensures { IfOk result (λ n. n ≤ length bytes.now) }
    {
        limits::admit_standard(self.rt, Stream::Output, bytes.len() as u64)?;
        io::writer(self.rt).write(bytes)
    }
}

impl<'a, R: Files + Print> Sink for StandardOutput<'a, R> {
    ghost place = { λ _. codes "-" };

    ghost failed = { λ s. s.failures };

    ghost took = { λ _ _ _. Unit {0} };

    ghost took_nothing = { λ _. tt };

    ghost took_more = { λ _ _ _ _ _ _ _. tt };

    fn path(&self) -> &str {
        "-"
    }

    fn failures(&self) -> u64 {
        self.failures
    }

    fn write(&mut self, bytes: &[u8]) -> io::Result<usize> {
        let count = self.try_write(bytes);
        match count {
            Ok(0) if !bytes.is_empty() => self.failures += 1,
            Ok(_) => {}
            Err(_) => self.failures += 1,
        }
        count
    }

    /// What standard output took is where it is.
    fn finish(&mut self) -> io::Result<()> {
        Ok(())
    }
}
