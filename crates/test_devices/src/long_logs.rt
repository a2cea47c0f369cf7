//! Logs that are refused before their end.

use crate::{Tape, empty_page, line_of, tape_of};
use hrv_engines::devices::CHUNK;
use hrv_engines::replay_bytes;
use std::test::Fail;

/// An image of one instruction, `ecall`, without data.
const IMAGE: [u8; 36] = [
    0x48, 0x52, 0x56, 0x31, 0x00, 0x00, 0x01, 0x00, 0x01, 0x00, 0x00, 0x00, 0x00, 0x00, 0x00, 0x00,
    0x00, 0x00, 0x00, 0x00, 0x00, 0x00, 0x00, 0x00, 0x00, 0x00, 0x00, 0x00, 0x00, 0x00, 0x00, 0x00,
    0x73, 0x00, 0x00, 0x00,
];

/// How many bytes stand after the first piece.
const REST: usize = 1_000_000;

/// The first run of a log is bad, and what is after it isn't read.
#[test]
fn a_log_is_read_up_to_a_bad_run(rt: HostRuntime) -> Result<(), Fail> {
    let alloc = rt.alloc();
    let mut bytes = Vec::new(alloc);
    bytes.extend_from_slice(b"HRL1\x01\x00\x00\x00\xff\xff\xff\xff\xff\xff\xff\x0f")?;
    bytes.resize(CHUNK + REST, 0)?;
    let mut image = tape_of("image", &IMAGE);
    let mut log = Tape {
        name: "long",
        bytes: &bytes,
        step: CHUNK,
        reads_left: None,
        failures: 0,
    };
    let mut page = empty_page(alloc);
    let answered = replay_bytes(alloc, &mut image, &mut log, &mut page);
    assert_eq!(rt; line_of(alloc, answered)?.as_str(), "refused log 4");
    assert_eq!(rt; log.bytes.len(), REST);
    Ok(())
}
