//! The record of a run.

ghost use Rattle.std.specs.Prelude.{◌≡◌, IfOk};
ghost use Rattle.run_records.specs.RecordText.{record_text};
ghost use Rattle.sha2.specs.Sha256.{sha256};
ghost use Rattle.hrv_engines.specs.Records.{contents};

use crate::digests::digest_of;
use crate::endings::RunEnd;
use crate::explain::{LOGIC, RELEASE};
use run_records::{RunRecord, push_record};
use std::alloc::{AllocError, Global};

/// The text of the record of a run of an image with this digest, which left the bytes of a log and ended so.
pub(crate) fn record_of(
    alloc: Global,
    image: &[u8; 32],
    log: &[u8],
    limit: u64,
    end: RunEnd,
) -> Result<Vec<u8>, AllocError>
    ensures { IfOk result (λ text. text.items
        ≡ record_text (contents image.now (sha256 log.now) end.harts limit end.ending)) }
{
    let record = RunRecord {
        version: RELEASE.as_slice(),
        logic: LOGIC.as_slice(),
        image: *image,
        log: digest_of(log),
        harts: end.harts as u64,
        limit,
        ending: end.ending,
    };
    let mut text = Vec::new(alloc);
    push_record(&mut text, &record)?;
    Ok(text)
}
