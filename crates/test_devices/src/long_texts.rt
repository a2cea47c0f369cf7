//! Algorithms and pictures that are longer than any that is accepted.

ghost use Rattle.std.specs.Prelude.{◌≡◌};

use crate::{Tape, empty_page, line_of, tape_of};
use hrv_engines::devices::{CHUNK, MOST_ALGORITHM_BYTES, MOST_PICTURE_BYTES};
use hrv_engines::{map_bytes, picture_bytes};
use std::alloc::{AllocError, Global};
use std::test::Fail;
use std::thread::Threads;

/// How many bytes stand after the most.
const REST: usize = 400_000;

/// A front, then letters up to this many bytes in all.
fn long_text(alloc: Global, front: &[u8], length: usize) -> Result<Vec<u8>, AllocError> {
    let mut bytes = Vec::new(alloc);
    bytes.extend_from_slice(front)?;
    bytes.resize(length, b'a')?;
    Ok(bytes)
}

/// A tape that gives a piece a read.
fn long_tape<'a>(bytes: &'a [u8]) -> Tape<'a>
    ensures { result.failures ≡ 0 }
{
    Tape {
        name: "long",
        bytes,
        step: CHUNK,
        reads_left: None,
        failures: 0,
    }
}

/// Draws where an algorithm's program lies: the line of the refusal, and how many bytes of the algorithm aren't read.
fn mapped(alloc: Global, algorithm: &[u8]) -> Result<(String, usize), AllocError> {
    let mut source = long_tape(algorithm);
    let mut schedule = tape_of("schedule", b"");
    let mut page = empty_page(alloc);
    let answered = map_bytes(alloc, &mut source, &mut schedule, &mut page);
    Ok((line_of(alloc, answered)?, source.bytes.len()))
}

/// Draws a picture: the line of the refusal, and how many bytes of the picture aren't read.
fn drawn(
    rt: &(impl Threads + Sync),
    alloc: Global,
    picture: &[u8],
) -> Result<(String, usize), AllocError> {
    let mut algorithm = tape_of("algorithm", b"input in 1\nfunc b(x) = in(x)\noutput b 1\n");
    let mut inputs = [long_tape(picture)];
    let mut page = empty_page(alloc);
    let answered = picture_bytes(rt, alloc, &mut algorithm, &mut inputs, &mut page);
    Ok((line_of(alloc, answered)?, inputs[0].bytes.len()))
}

/// An algorithm that is too long is read to its end, and refused in line 1.
#[test]
fn a_long_algorithm_is_looked_at_as_a_whole(rt: HostRuntime) -> Result<(), Fail> {
    let alloc = rt.alloc();
    let bytes = long_text(alloc, b"# ", MOST_ALGORITHM_BYTES + REST)?;
    let (line, left) = mapped(alloc, &bytes)?;
    assert_eq!(rt; line.as_str(), "refused parse 8 line 1");
    assert_eq!(rt; left, 0);
    Ok(())
}

/// A bad byte after the most that an algorithm may have.
#[test]
fn a_long_algorithm_may_be_no_text(rt: HostRuntime) -> Result<(), Fail> {
    let alloc = rt.alloc();
    let mut bytes = long_text(alloc, b"# ", MOST_ALGORITHM_BYTES + REST)?;
    bytes.push(0xff)?;
    let (line, _) = mapped(alloc, &bytes)?;
    assert_eq!(rt; line.as_str(), "refused file long");
    Ok(())
}

/// A character of which the end alone is wanting.
#[test]
fn a_long_algorithm_may_end_within_a_character(rt: HostRuntime) -> Result<(), Fail> {
    let alloc = rt.alloc();
    let mut bytes = long_text(alloc, b"# ", MOST_ALGORITHM_BYTES + REST)?;
    bytes.extend_from_slice(&[0xf0, 0x9f, 0x98])?;
    let (line, _) = mapped(alloc, &bytes)?;
    assert_eq!(rt; line.as_str(), "refused file long");
    bytes.push(0x80)?;
    let (line, _) = mapped(alloc, &bytes)?;
    assert_eq!(rt; line.as_str(), "refused parse 8 line 1");
    Ok(())
}

/// A first line without a fault but its length, and one with a fault of its own at its end.
#[test]
fn a_long_first_line_is_judged_as_a_whole(rt: HostRuntime) -> Result<(), Fail> {
    let alloc = rt.alloc();
    let mut bytes = Vec::new(alloc);
    bytes.extend_from_slice(b"func f(x) = x")?;
    bytes.resize(MOST_ALGORITHM_BYTES + REST, b' ')?;
    let (line, _) = mapped(alloc, &bytes)?;
    assert_eq!(rt; line.as_str(), "refused parse 8 line 1");
    bytes.push(b')')?;
    let (line, _) = mapped(alloc, &bytes)?;
    assert_eq!(rt; line.as_str(), "refused parse 1 line 1");
    Ok(())
}

/// A picture that is too long is read to its end.
#[test]
fn a_long_picture_is_looked_at_as_a_whole(rt: HostRuntime) -> Result<(), Fail> {
    let alloc = rt.alloc();
    let mut bytes = long_text(alloc, b"picture 1 1\n1\n", MOST_PICTURE_BYTES + REST)?;
    let (line, left) = drawn(&rt, alloc, &bytes)?;
    assert_eq!(rt; line.as_str(), "refused picture 1");
    assert_eq!(rt; left, 0);
    bytes.push(0xff)?;
    let (line, _) = drawn(&rt, alloc, &bytes)?;
    assert_eq!(rt; line.as_str(), "refused file long");
    Ok(())
}
