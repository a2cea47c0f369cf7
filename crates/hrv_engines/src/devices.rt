//! What the engines read from and write to.
//!
//! An engine is generic over both traits, so that its contract names the bytes that were read and written, and a test
//! can hand in devices that fail.

ghost use Rattle.std.specs.Prelude.{◌≡◌, ℕ, ◌+◌, ◌<◌, ◌≤◌, ◌^◌, true, List};
ghost use Rattle.std.specs.Prelude.{[], ◌++◌, length, take, OnOk, OnErr, IfErr, IfOk};
ghost use Rattle.hrv_engines.specs.Devices.{IsNoLog, front_of, image_bytes_of, log_bytes_of, most_image_bytes, sink_of};
ghost use Rattle.hrv_engines.specs.declared.faults.Fault.TheVariants.{Memory};
ghost use Rattle.hrv_engines.specs.Engine.{Reads, Writes, WritesEach};

use crate::faults::Fault;
use memory::{MOST_BYTES, MOST_WORDS};
use std::alloc::Global;
use std::io;
use turn_log::{LogFault, TurnLog};

/// Bytes to be read, from a file or from memory.
pub trait Source {
    /// Its path, as the user gave it.
    ghost place: { Self → List ℕ };

    /// How many of its reads have failed.
    ghost failed: { Self → ℕ };

    /// From one state to a later one it gave these bytes.
    ghost gave: { Self → List ℕ → Self → Type 0 };

    /// It has no more bytes.
    ghost ended: { Self → Type 0 };

    /// The path that a refusal names.
    fn path(&self) -> &str
        ensures { result.now ≡ place self.now };

    /// How many reads have failed.
    fn failures(&self) -> u64
        ensures { result ≡ failed self.now };

    /// Reads some bytes to the front of a buffer, and says how many; 0 at the end, or for an empty
    /// buffer.
    fn read(&mut self, buffer: &mut [u8]) -> io::Result<usize>
        requires { failed self.old + 1 < 2 ^ 64 }
        ensures count { IfOk result (λ n. n ≤ length buffer.old) }
        ensures given { IfOk result (λ n. gave self.old (take n buffer.new) self.new) }
        ensures at_end { IfOk result (λ n. n ≡ 0 → 0 < length buffer.old → ended self.new) }
        ensures well { OnOk result (failed self.new ≡ failed self.old) }
        ensures nothing { OnErr result (gave self.old [] self.new) }
        ensures grew { OnErr result (failed self.old < failed self.new) }
        ensures path { place self.new ≡ place self.old };

    /// Without a read it gives nothing.
    ghost gave_nothing: { (s : Self) → gave s [] s };

    /// Reads one after the other give their bytes one after the other.
    ghost gave_more: { (s t u : Self) (xs ys : List ℕ) → gave s xs t → gave t ys u → gave s (xs ++ ys) u };
}

/// A place for bytes to be written to.
pub trait Sink {
    /// Its path, or `-` for standard output.
    ghost place: { Self → List ℕ };

    /// How many of its writes have failed.
    ghost failed: { Self → ℕ };

    /// From one state to a later one it took these bytes.
    ghost took: { Self → List ℕ → Self → Type 0 };

    /// The path that a refusal names.
    fn path(&self) -> &str
        ensures { result.now ≡ place self.now };

    /// How many writes have failed, and how often it couldn't finish. A write that took no byte of some counts.
    fn failures(&self) -> u64
        ensures { result ≡ failed self.now };

    /// Writes a front of the bytes, and says how many.
    fn write(&mut self, bytes: &[u8]) -> io::Result<usize>
        requires { failed self.old + 1 < 2 ^ 64 }
        ensures count { IfOk result (λ n. n ≤ length bytes.now) }
        ensures taken { IfOk result (λ n. took self.old (take n bytes.now) self.new) }
        ensures nothing { OnErr result (took self.old [] self.new) }
        ensures well { IfOk result (λ n. 0 < n → failed self.new ≡ failed self.old) }
        ensures stuck { IfOk result (λ n. n ≡ 0 → 0 < length bytes.now → failed self.old < failed self.new) }
        ensures grew { OnErr result (failed self.old < failed self.new) }
        ensures path { place self.new ≡ place self.old };

    /// Makes whole what was written so far, so that it is at the path. Where that fails, it counts as a write that
    /// failed.
    fn finish(&mut self) -> io::Result<()>
        requires { failed self.old + 1 < 2 ^ 64 }
        ensures nothing { took self.old [] self.new }
        ensures well { OnOk result (failed self.new ≡ failed self.old) }
        ensures grew { OnErr result (failed self.old < failed self.new) }
        ensures path { place self.new ≡ place self.old };

    /// Without a write it takes nothing.
    ghost took_nothing: { (s : Self) → took s [] s };

    /// Writes one after the other are taken one after the other.
    ghost took_more: { (s t u : Self) (xs ys : List ℕ) → took s xs t → took t ys u → took s (xs ++ ys) u };
}

/// Reads what a source has left, or more than this many bytes of it, but no more than one more piece. What was read
/// is in memory once.
fn read_past<S: Source>(alloc: Global, source: &mut S, most: usize) -> Result<Vec<u8>, Fault>
    requires { S.failed source.old + 1 < 2 ^ 64 }
    ensures reads { Reads (λ bytes. bytes.items)
        (front_of most S.place S.failed S.gave S.ended source.old source.new) result }
    ensures few { IfOk result (λ bytes. length bytes.items ≤ most + 65536) }
{
    // Made before the first read, so that a read that fails needs no memory.
    let path = String::from_str(alloc, source.path())?;
    let mut all = Vec::new(alloc);
    let mut buffer = [0; CHUNK];
    while all.len() <= most {
        let Ok(count) = source.read(&mut buffer) else {
            return Err(Fault::File(path));
        };
        if count == 0 {
            return Ok(all);
        }
        all.extend_from_slice(&buffer[..count])?;
    }
    Ok(all)
}

/// Reads all that a source has left, or more of it than any image has, which is enough to refuse it, but no more than
/// one more piece.
pub fn read_image_bytes<S: Source>(alloc: Global, source: &mut S) -> Result<Vec<u8>, Fault>
    requires { S.failed source.old + 1 < 2 ^ 64 }
    ensures reads { Reads (λ bytes. bytes.items)
        (image_bytes_of S.place S.failed S.gave S.ended source.old source.new) result }
    ensures few { IfOk result (λ bytes. length bytes.items ≤ most_image_bytes + 65536) }
{
    read_past(alloc, source, MOST_IMAGE_BYTES)
}

/// How many bytes are read at a time.
pub const CHUNK: usize = 16_384;

/// How many bytes an image that loads has at most: those of the longer header, of all words and of all data.
pub const MOST_IMAGE_BYTES: usize = 36 + 4 * MOST_WORDS + MOST_BYTES;

/// How many bytes an algorithm that is accepted has at most.
pub const MOST_ALGORITHM_BYTES: usize = 65_536;

/// How many lines a schedule that is accepted has at most.
pub const MOST_SCHEDULE_LINES: usize = 256;

/// How many bytes a picture that is read has at most: those of a heading, of 1,048,576 numbers, and of a byte after
/// each.
pub const MOST_PICTURE_BYTES: usize = 32 + 12 * 1_048_576;

/// Whether bytes are no log, whatever is after them.
fn is_no_log(alloc: Global, bytes: &[u8]) -> Result<bool, Fault>
    ensures ok { IfOk result (λ is. is ≡ true → IsNoLog bytes.now) }
    ensures err { IfErr result (λ fault. fault ≡ Memory) }
{
    match TurnLog::read(alloc, bytes) {
        Ok(_) | Err(LogFault::Truncated) => Ok(false),
        Err(LogFault::OutOfMemory) => Err(Fault::Memory),
        Err(_) => Ok(true),
    }
}

/// Reads all that a source has left, or a front of it that is no log, whatever is after: it is looked at whenever
/// it has become twice as long.
pub fn read_log_bytes<S: Source>(alloc: Global, source: &mut S) -> Result<Vec<u8>, Fault>
    requires { S.failed source.old + 1 < 2 ^ 64 }
    ensures { Reads (λ bytes. bytes.items) (log_bytes_of S.place S.failed S.gave S.ended source.old source.new) result }
{
    // Made before the first read, so that a read that fails needs no memory.
    let path = String::from_str(alloc, source.path())?;
    let mut all = Vec::new(alloc);
    let mut buffer = [0; CHUNK];
    let mut next = CHUNK;
    'pieces: for _ in 0..u64::MAX {
        let Ok(count) = source.read(&mut buffer) else {
            return Err(Fault::File(path));
        };
        if count == 0 {
            return Ok(all);
        }
        all.extend_from_slice(&buffer[..count])?;
        if all.len() >= next {
            if is_no_log(alloc, &all)? {
                return Ok(all);
            }
            next = all.len().saturating_mul(2);
        }
    }
    // No source gives this many pieces.
    Err(Fault::Memory)
}

/// Writes all the bytes, and makes them whole.
pub fn write_all<S: Sink>(alloc: Global, sink: &mut S, bytes: &[u8]) -> Result<(), Fault>
    requires { S.failed sink.old + 1 < 2 ^ 64 }
    ensures writes { Writes (sink_of S.place S.failed S.took sink.old sink.new) bytes.now result }
    ensures path { S.place sink.new ≡ S.place sink.old }
{
    // Made before the first write, so that a write that fails needs no memory.
    let path = String::from_str(alloc, sink.path())?;
    if !write_each(sink, bytes) {
        return Err(Fault::File(path));
    }
    Ok(())
}

/// Writes the bytes up to a write that fails, and makes them whole: whether all are written and whole. It takes no
/// memory but what the sink takes.
pub fn write_each<S: Sink>(sink: &mut S, bytes: &[u8]) -> bool
    requires { S.failed sink.old + 1 < 2 ^ 64 }
    ensures writes { WritesEach (sink_of S.place S.failed S.took sink.old sink.new) (S.place sink.old) bytes.now
        result }
    ensures path { S.place sink.new ≡ S.place sink.old }
{
    let mut written = 0;
    while written < bytes.len() {
        let (_, rest) = bytes.split_at(written);
        match sink.write(rest) {
            Ok(count) if count > 0 => written += count,
            _ => return false,
        }
    }
    let Ok(()) = sink.finish() else {
        return false;
    };
    true
}
