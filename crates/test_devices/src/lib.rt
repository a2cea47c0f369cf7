//! Devices in memory, for tests: a [`Tape`] that is read from and a [`Page`] that is written to. Each gives or takes a
//! few bytes at a time, and fails where a test wants it.
//!
//! Tests over them read images, logs and texts that are too long, and run commands with all memory taken but a little:
//!
//! - [`exhaustion`]: all memory that the system gives a process.
//! - [`commands`]: commands, each with its files.
//! - [`want_of_memory`]: what each of them answers with nothing left, and with more and more.
//!
//! There an allocation is refused that takes memory to a new peak of its command;
//! `bench/checks/fail_each_allocation` refuses each single one, on many more rows.
//!
//! The allocator of `rt try` has memory of its own for each size, so that not all can be taken: there that test fails,
//! and says so. A system that promises no more memory than it has (`vm.overcommit_memory=2`) refuses other programs
//! memory too while the test runs.
#![tactic(auto)]

ghost use Rattle.std.specs.Prelude.{◌≡◌, ◌≤◌, ◌<◌, ◌++◌, [], length, IfOk};

use hrv_engines::{Fault, Sink, Source};
use std::alloc::{AllocError, Global};
use std::io;

#[cfg(test)]
mod commands;
#[cfg(test)]
mod exhaustion;
#[cfg(test)]
mod long_images;
#[cfg(test)]
mod long_logs;
#[cfg(test)]
mod long_texts;
#[cfg(test)]
mod want_of_memory;

/// Bytes that are read a few at a time. The read of a number fails, where there is one.
#[derive(Drop)]
pub struct Tape<'a> {
    name: &'a str,
    bytes: &'a [u8],
    /// At most this many bytes a read.
    pub step: usize,
    /// How many reads succeed before one fails; None where all do.
    pub reads_left: Option<u32>,
    /// How many reads have failed.
    pub failures: u64,
}

impl Source for Tape<'_> {
    ghost use Rattle.std.specs.Prelude.{◌≡◌, ◌++◌, [], refl};
    ghost use Rattle.std.proofs.Common.{◌∙◌, ap, sym};
    ghost use Rattle.std.proofs.lemmas.List.{append_assoc};

    ghost place = { λ s. s.name.now };

    ghost failed = { λ s. s.failures };

    ghost gave = { λ s bytes t. s.bytes.now ≡ bytes ++ t.bytes.now };

    ghost ended = { λ s. s.bytes.now ≡ [] };

    ghost gave_nothing = { λ _. refl };

    ghost gave_more = { λ s t u xs ys a b. a ∙ ap (λ rest. xs ++ rest) b ∙ sym (append_assoc xs ys u.bytes.now) };

    fn path(&self) -> &str {
        self.name
    }

    fn failures(&self) -> u64 {
        self.failures
    }

    fn read(&mut self, buffer: &mut [u8]) -> io::Result<usize> {
        if self.reads_left == Some(0) {
            self.failures += 1;
            return Err(io::Error::from(io::ErrorKind::Other));
        }
        self.reads_left = self.reads_left.map(|left| left.saturating_sub(1));
        let count = self.bytes.len().min(buffer.len()).min(self.step.max(1));
        let (front, rest) = self.bytes.split_at(count);
        let (room, _) = buffer.split_at_mut(count);
        room.copy_from_slice(front);
        self.bytes = rest;
        Ok(count)
    }
}

/// Bytes that are written a few at a time. The write of a number fails, where there is one, or takes
/// nothing. Finishing fails where the next write would.
#[derive(Drop)]
pub struct Page {
    /// What was taken so far.
    pub bytes: Vec<u8>,
    /// At most this many bytes a write.
    pub step: usize,
    /// How many writes succeed before one fails; None where all do.
    pub writes_left: Option<u32>,
    /// How many writes have failed.
    pub failures: u64,
}

impl Sink for Page {
    ghost use Rattle.std.specs.Prelude.{◌≡◌, ◌++◌, [], codes};
    ghost use Rattle.std.proofs.Common.{◌∙◌, ap, sym};
    ghost use Rattle.std.proofs.lemmas.List.{append_assoc, append-nil};

    ghost place = { λ _. codes "page" };

    ghost failed = { λ s. s.failures };

    ghost took = { λ s bytes t. t.bytes.items ≡ s.bytes.items ++ bytes };

    ghost took_nothing = { λ s. sym (append-nil s.bytes.items) };

    ghost took_more = { λ s t u xs ys a b. b ∙ ap (λ front. front ++ ys) a ∙ append_assoc s.bytes.items xs ys };

    fn path(&self) -> &str {
        "page"
    }

    fn failures(&self) -> u64 {
        self.failures
    }

    fn write(&mut self, bytes: &[u8]) -> io::Result<usize> {
        if self.writes_left == Some(0) {
            self.failures += 1;
            return Err(io::Error::from(io::ErrorKind::Other));
        }
        self.writes_left = self.writes_left.map(|left| left.saturating_sub(1));
        let count = bytes.len().min(self.step);
        let (front, _) = bytes.split_at(count);
        if self.bytes.extend_from_slice(front).is_err() || (count == 0 && !bytes.is_empty()) {
            self.failures += 1;
            return Err(io::Error::from(io::ErrorKind::Other));
        }
        Ok(count)
    }

    fn finish(&mut self) -> io::Result<()> {
        if self.writes_left == Some(0) {
            self.failures += 1;
            return Err(io::Error::from(io::ErrorKind::Other));
        }
        Ok(())
    }
}

/// A tape with these bytes, 7 a read, whose path is the name.
pub fn tape_of<'a>(name: &'a str, bytes: &'a [u8]) -> Tape<'a>
    ensures { result.failures ≡ 0 }
{
    Tape {
        name,
        bytes,
        step: 7,
        reads_left: None,
        failures: 0,
    }
}

/// A page without bytes, which takes 9 a write and whose path is `page`.
pub fn empty_page(alloc: Global) -> Page
    ensures { result.failures ≡ 0 }
{
    Page {
        bytes: Vec::new(alloc),
        step: 9,
        writes_left: None,
        failures: 0,
    }
}

/// The line of a refusal; empty where there is none.
pub fn line_of(alloc: Global, answered: Result<(), Fault>) -> Result<String, AllocError> {
    match answered {
        Ok(()) => Ok(String::new(alloc)),
        Err(fault) => format!(in alloc; "{fault}"),
    }
}
