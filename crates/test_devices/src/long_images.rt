//! Images that are longer than any that loads.

use crate::{Tape, empty_page, line_of};
use hrv_engines::devices::{CHUNK, MOST_IMAGE_BYTES};
use hrv_engines::dis_bytes;
use std::test::Fail;

/// How many bytes stand after those that are read.
const REST: usize = 1_000_000;

/// More bytes than an image has are refused, and what is after them isn't read.
#[test]
fn a_long_image_is_read_as_far_as_it_takes(rt: HostRuntime) -> Result<(), Fail> {
    let alloc = rt.alloc();
    let read = (MOST_IMAGE_BYTES / CHUNK + 1) * CHUNK;
    let mut bytes = Vec::new(alloc);
    bytes.extend_from_slice(b"HRV1")?;
    bytes.resize(read + REST, 0)?;
    let mut image = Tape {
        name: "long",
        bytes: &bytes,
        step: CHUNK,
        reads_left: None,
        failures: 0,
    };
    let mut page = empty_page(alloc);
    let answered = dis_bytes(alloc, &mut image, &mut page);
    assert_eq!(rt; line_of(alloc, answered)?.as_str(), "refused load 3");
    assert_eq!(rt; image.bytes.len(), REST);
    Ok(())
}
