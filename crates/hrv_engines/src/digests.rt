//! Digests of files: the command `digest`.

ghost use Rattle.std.specs.Prelude.{◌≡◌, ◌+◌, ◌<◌, ◌^◌, ◌++◌, map, IfOk, OnOk};
ghost use Rattle.std.specs.List.{All};
ghost use Rattle.sha2.specs.Sha256.{sha256};
ghost use Rattle.hrv_engines.specs.Devices.{sink_of};
ghost use Rattle.hrv_engines.specs.Digests.{IsDigestText, IsRefusedDigest, digests_of};
ghost use Rattle.hrv_engines.specs.Digests as spec;
ghost use Rattle.hrv_engines.specs.Engine.{Performs, Reads};

use crate::devices::{CHUNK, Sink, Source, write_all};
use crate::faults::Fault;
use run_records::digits_of;
use sha2::{Digest, Sha256};
use std::alloc::{AllocError, Global};

/// Reads files to their ends, piece by piece, and writes a line for each: its digest, two spaces, and its path. All
/// files are read before a line is written. It takes memory by the file, and not by their bytes.
pub fn digest_bytes<S: Source, O: Sink>(
    alloc: Global,
    paths: &[&str],
    files: &mut [S],
    out: &mut O,
) -> Result<(), Fault>
    requires files { All (λ file. S.failed file + 1 < 2 ^ 64) files.old }
    requires out { O.failed out.old + 1 < 2 ^ 64 }
    ensures { Performs (IsDigestText (map (λ path. path.now) paths.now)) IsRefusedDigest
        (digests_of S.place S.failed S.gave S.ended files.old files.new)
        (sink_of O.place O.failed O.took out.old out.new) result }
{
    let digests = read_digests(alloc, files)?;
    let text = digest_lines(alloc, paths, &digests)?;
    write_all(alloc, out, &text)
}

/// The SHA-256 digest of bytes.
pub(crate) fn digest_of(bytes: &[u8]) -> [u8; 32]
    ensures { result ≡ sha256 bytes.now }
{
    Sha256::digest(bytes)
}

/// Reads all that each file has left, in their order, for its digest.
fn read_digests<S: Source>(alloc: Global, files: &mut [S]) -> Result<Vec<[u8; 32]>, Fault>
    requires { All (λ file. S.failed file + 1 < 2 ^ 64) files.old }
    ensures { Reads (λ digests. digests.items)
        (digests_of S.place S.failed S.gave S.ended files.old files.new) result }
{
    let mut digests = Vec::new(alloc);
    for file in files.iter_mut() {
        let digest = read_digest(alloc, file)?;
        digests.push(digest)?;
    }
    Ok(digests)
}

/// Reads all that a file has left, for its digest.
fn read_digest<S: Source>(alloc: Global, file: &mut S) -> Result<[u8; 32], Fault>
    requires { S.failed file.old + 1 < 2 ^ 64 }
    ensures { Reads (λ digest. digest) (spec.digest_of S.place S.failed S.gave S.ended file.old file.new) result }
{
    // Made before the first read, so that a read that fails needs no memory.
    let path = String::from_str(alloc, file.path())?;
    let mut hasher = Sha256::new();
    let mut buffer = [0; CHUNK];
    'pieces: for _ in 0..u64::MAX {
        let Ok(count) = file.read(&mut buffer) else {
            return Err(Fault::File(path));
        };
        if count == 0 {
            return Ok(hasher.finalize());
        }
        hasher.update(&buffer[..count]);
    }
    // No file gives this many pieces.
    Err(Fault::Memory)
}

/// A line for each path, with its digest.
fn digest_lines(alloc: Global, paths: &[&str], digests: &[[u8; 32]]) -> Result<Vec<u8>, AllocError>
    ensures { IfOk result (λ text. text.items ≡ spec.digest_lines (map (λ path. path.now) paths.now) digests.now) }
{
    let mut text = Vec::new(alloc);
    let mut rest = paths;
    let mut left = digests;
    while let [path, others @ ..] = rest {
        let [digest, more @ ..] = left else {
            return Ok(text);
        };
        push_line(&mut text, path, digest)?;
        rest = others;
        left = more;
    }
    Ok(text)
}

/// Appends the line of a path with its digest.
fn push_line(text: &mut Vec<u8>, path: &str, digest: &[u8; 32]) -> Result<(), AllocError>
    ensures { OnOk result (text.new.items ≡ text.old.items ++ spec.digest_line path.now digest.now) }
{
    text.extend_from_slice(&digits_of(digest))?;
    text.extend_from_slice(b"  ")?;
    text.extend_from_slice(path.as_bytes())?;
    text.push(b'\n')?;
    Ok(())
}
