//! The limit on the size of files (`ulimit -f`).
//!
//! The system ends a program that writes past it by a signal, and no call here can have a signal ignored. So before a
//! write to a regular file the limit is read where the system tells it, below `/proc`, and a write that would go past
//! it fails, as on a full disk. Where `/proc` can't be read, no limit is known.

ghost use Rattle.std.specs.Prelude.{◌+◌, ◌≤◌, ◌↔◌, IsOk};

use std::fmt::Write;
use std::fs::OpenFile;
use std::io::{Read, Seek};
use std::rt::Files;
use std::{fmt, fs, io, str};

/// Where the limits of the program stand, a line each, and how that on the size of files begins.
const LIMITS: &str = "/proc/self/limits";

const FILE_SIZE: &str = "Max file size";

/// How the line begins on where a stream is.
const POSITION: &str = "pos:";

/// As many bytes of these files are read at most: the lines that are looked for stand among them.
const MOST: usize = 4096;

/// A standard stream to which a text is written.
#[derive(Clone, Copy)]
pub enum Stream {
    /// Standard output.
    Output,
    /// Standard error.
    Errors,
}

impl Stream {
    /// The path of what is there.
    fn path(self) -> &'static str {
        match self {
            Stream::Output => "/proc/self/fd/1",
            Stream::Errors => "/proc/self/fd/2",
        }
    }

    /// The path of what is known of it.
    fn facts(self) -> &'static str {
        match self {
            Stream::Output => "/proc/self/fdinfo/1",
            Stream::Errors => "/proc/self/fdinfo/2",
        }
    }
}

/// Lets a file take this many bytes at its position.
///
/// # Errors
///
/// They would go past the limit; the system doesn't say what the file is, or its position.
pub fn admit<R: Files, F: OpenFile + Seek>(rt: &R, file: &mut F, count: u64) -> io::Result<()> {
    match number_behind(rt, LIMITS, FILE_SIZE) {
        Some(most) if file.metadata()?.is_file() => admit_at(most, file.stream_position()?, count),
        _ => Ok(()),
    }
}

/// Lets a standard stream take this many bytes. Those of a regular file are taken to stand after all that it has, as
/// they do where the stream appends.
///
/// # Errors
///
/// They would go past the limit.
pub fn admit_standard<R: Files>(rt: &R, stream: Stream, count: u64) -> io::Result<()> {
    let Some(most) = number_behind(rt, LIMITS, FILE_SIZE) else {
        return Ok(());
    };
    match fs::metadata(rt, stream.path()) {
        Ok(metadata) if metadata.is_file() => {
            let position = number_behind(rt, stream.facts(), POSITION).unwrap_or(0);
            admit_at(most, metadata.len().max(position), count)
        }
        _ => Ok(()),
    }
}

/// How many bytes a value's line has, with its end.
pub fn line_length<D: fmt::Display>(value: &D) -> u64 {
    let mut length = TextLength(0);
    // It takes any text.
    let _ = length.writeln(value);
    length.0
}

/// The number after these words in a short file, at a line's beginning: none for a limit that there isn't, and where
/// the file can't be read.
fn number_behind<R: Files>(rt: &R, path: &str, words: &str) -> Option<u64> {
    let mut bytes = [0; MOST];
    let text = str::from_utf8(front(rt, path, &mut bytes)?).ok()?;
    let line = text.lines().find_map(|line| line.strip_prefix(words))?;
    line.split_ascii_whitespace().next()?.parse().ok()
}

/// What a file begins with, as far as there is room.
fn front<'a, R: Files>(rt: &R, path: &str, bytes: &'a mut [u8; MOST]) -> Option<&'a [u8]> {
    let mut file = fs::open(rt, path).ok()?;
    let mut length = 0;
    for _ in 0..MOST {
        match file.read(bytes.get_mut(length..)?).ok()? {
            0 => break,
            count => length += count,
        }
    }
    bytes.get(..length)
}

/// Fails where this many bytes at a position would go past a limit.
fn admit_at(most: u64, position: u64, count: u64) -> io::Result<()>
    ensures { IsOk result ↔ position + count ≤ most }
{
    if position <= most && count <= most - position {
        Ok(())
    } else {
        Err(io::Error::from(io::ErrorKind::FileTooLarge))
    }
}

/// Counts the bytes of a text.
#[derive(Drop)]
struct TextLength(u64);

impl fmt::Write for TextLength {
    fn write_str(&mut self, text: &str) -> fmt::Result {
        self.0 = self.0.saturating_add(text.len() as u64);
        Ok(())
    }
}
