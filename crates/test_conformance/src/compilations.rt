//! Compiled images: what the rules say of their bytes, and the pictures that they leave.

ghost use Rattle.std.specs.Prelude.{◌≡◌};

use crate::algorithms::push_bytes;
use crate::commands::{pictures_of, push_digits, push_stored, texts_of};
use crate::devices::{devices_of, failing_page};
use crate::failures::CaseFailure;
use disassembler::write_lines;
use hrv_engines::{Fault, compile_bytes, map_bytes, replay_bytes};
use loader::{Image, read_image};
use std::alloc::{AllocError, Global};
use test_cases::Part;
use test_devices::{Page, empty_page, tape_of};

/// What compiling the texts of a case stores, and how it ended.
pub fn compiled(alloc: Global, parts: &[Part]) -> Result<(Page, Result<(), Fault>), CaseFailure> {
    let (_, devices) = devices_of(parts);
    let mut page = devices.page(alloc)?;
    let answered = compile_onto(alloc, parts, &mut page)?;
    Ok((page, answered))
}

/// Compiles the texts of a case onto a page, and says how it ended.
fn compile_onto(
    alloc: Global,
    parts: &[Part],
    page: &mut Page,
) -> Result<Result<(), Fault>, CaseFailure>
    requires { page.old.failures ≡ 0 }
{
    let (parts, devices) = devices_of(parts);
    let [algorithm, schedule, inputs @ ..] = parts else {
        return Err(CaseFailure::Malformed("not two parts"));
    };
    let algorithm = algorithm.bytes(alloc, "algorithm")?;
    let schedule = schedule.bytes(alloc, "schedule")?;
    let texts = texts_of(alloc, inputs)?;
    let mut pictures = pictures_of(alloc, &devices, &texts)?;
    let answered = compile_bytes(
        alloc,
        &mut devices.tape("algorithm", &algorithm)?,
        &mut devices.tape("schedule", &schedule)?,
        pictures.as_mut_slice(),
        page,
    );
    Ok(answered)
}

/// How many bytes a page takes in one write, where each write of an image fails in turn.
const STEP: usize = 16;

/// Whether each write of an image that fails leaves what was written before it, and so a page that isn't made whole.
pub fn push_cuts(alloc: Global, parts: &[Part], out: &mut String) -> Result<(), CaseFailure> {
    let (whole, answered) = compiled(alloc, parts)?;
    answered?;
    let mut calls = 0_u32;
    for _ in whole.bytes.chunks(STEP) {
        push_wrong_cut(alloc, parts, &whole.bytes, calls, out)?;
        calls = calls.saturating_add(1);
    }
    push_wrong_cut(alloc, parts, &whole.bytes, calls, out)?;
    Ok(out.push_str("each failing write leaves what was written\n")?)
}

/// A line where a page whose write after this many fails isn't left with what these wrote.
fn push_wrong_cut(
    alloc: Global,
    parts: &[Part],
    whole: &[u8],
    calls: u32,
    out: &mut String,
) -> Result<(), CaseFailure> {
    let mut page = failing_page(alloc, STEP, calls);
    let answered = compile_onto(alloc, parts, &mut page)?;
    let (written, _) = whole.split_at(STEP.wrapping_mul(calls as usize).min(whole.len()));
    let is_refused = matches!(answered, Err(Fault::File(_)));
    if !is_refused || page.bytes.as_slice() != written {
        writeln!(out, "write {calls} is another")?;
    }
    Ok(())
}

/// An image that is stored without its words, and the picture that one hart leaves; or the bytes up to a refusal.
pub fn push_compilation(
    alloc: Global,
    parts: &[Part],
    out: &mut String,
) -> Result<(), CaseFailure> {
    let (page, answered) = compiled(alloc, parts)?;
    if answered.is_err() {
        return push_stored(answered, &page, out);
    }
    let image = read_image(alloc, &page.bytes)?;
    push_data(&page.bytes, &image, out)?;
    push_left(alloc, &page.bytes, out)
}

/// The vector loads and stores of compiled images.
const ACCESSES: [&str; 7] = [
    "vle8.v",
    "vle32.v",
    "vlse32.v",
    "vluxei32.v",
    "vse32.v",
    "vsse32.v",
    "vsuxei32.v",
];

/// How many lines of a compiled image's listing are vector loads and stores, of each kind, and how the lanes of one
/// hart are configured once it has finished.
pub fn push_accesses(alloc: Global, parts: &[Part], out: &mut String) -> Result<(), CaseFailure> {
    let (page, answered) = compiled(alloc, parts)?;
    if answered.is_err() {
        return push_stored(answered, &page, out);
    }
    let image = read_image(alloc, &page.bytes)?;
    let mut lines = Vec::new(alloc);
    write_lines(image.words(), &mut lines)?;
    let Ok(listing) = str::from_utf8(&lines) else {
        return Err(CaseFailure::Malformed("the listing is no text"));
    };
    for mnemonic in ACCESSES {
        push_count(listing, mnemonic, out)?;
    }
    push_lanes(alloc, &page.bytes, out)
}

/// The map of an algorithm under a schedule, but for where code lies, or what was written of it before a refusal.
pub fn push_map(alloc: Global, parts: &[Part], out: &mut String) -> Result<(), CaseFailure> {
    let (parts, devices) = devices_of(parts);
    let [algorithm, schedule] = parts else {
        return Err(CaseFailure::Malformed("not two parts"));
    };
    let algorithm = algorithm.bytes(alloc, "algorithm")?;
    let schedule = schedule.bytes(alloc, "schedule")?;
    let mut page = devices.page(alloc)?;
    let answered = map_bytes(
        alloc,
        &mut devices.tape("algorithm", &algorithm)?,
        &mut devices.tape("schedule", &schedule)?,
        &mut page,
    );
    let Ok(map) = str::from_utf8(&page.bytes) else {
        return Err(CaseFailure::Malformed("the map is no text"));
    };
    let (lines, rest) = match map.rsplit_once('\n') {
        Some((lines, rest)) => (lines, rest),
        None => ("", map),
    };
    for line in lines.lines() {
        if !line.starts_with("code ") {
            writeln!(out, "{}", without_code(line))?;
        }
    }
    if !rest.is_empty() {
        writeln!(out, "{}\\", without_code(rest))?;
    }
    Ok(answered?)
}

/// A line up to where it says code lies.
fn without_code(line: &str) -> &str {
    match line.split_once(" code ") {
        Some((front, _)) => front,
        None => line,
    }
}

/// A mnemonic, and how many lines begin with it.
fn push_count(listing: &str, mnemonic: &str, out: &mut String) -> Result<(), AllocError> {
    let mut count = 0_usize;
    for line in listing.lines() {
        if line.trim_start().starts_with(mnemonic) {
            count = count.wrapping_add(1);
        }
    }
    writeln!(out, "{mnemonic} {count}")
}

/// How many bytes the data have, those that are stored, and where the output lies.
fn push_data(bytes: &[u8], image: &Image, out: &mut String) -> Result<(), AllocError> {
    let size = image.data().len();
    writeln!(out, "data {size}")?;
    let words = 4_usize.wrapping_mul(image.words().len());
    let (_, stored) = bytes.split_at(words.wrapping_add(36).min(bytes.len()));
    for line in stored.chunks(32) {
        push_digits(line, out)?;
    }
    match image.output() {
        Some(output) => {
            let (address, stride) = (output.address, output.stride);
            let (width, height) = (output.width, output.height);
            writeln!(out, "output 0x{address:08x} {width} {height} {stride}")
        }
        None => Ok(()),
    }
}

/// A log of 2^40 turns of one hart.
static LONGEST: [u8; 25] = *b"HRL1\x01\0\0\0\x01\0\0\0\0\0\0\0\0\0\0\0\0\0\x01\0\0";

/// The dump after all turns of one hart.
fn dumped(alloc: Global, image: &[u8]) -> Result<Page, CaseFailure> {
    let mut page = empty_page(alloc);
    let log = LONGEST.as_slice();
    replay_bytes(
        alloc,
        &mut tape_of("image", image),
        &mut tape_of("log", log),
        &mut page,
    )?;
    Ok(page)
}

/// The dump's line on how lanes are configured.
fn push_lanes(alloc: Global, image: &[u8], out: &mut String) -> Result<(), CaseFailure> {
    let page = dumped(alloc, image)?;
    let Ok(dump) = str::from_utf8(&page.bytes) else {
        return Err(CaseFailure::Malformed("the answer is no text"));
    };
    for line in dump.lines() {
        if line.starts_with("  vl ") {
            writeln!(out, "{}", line.trim_start())?;
        }
    }
    Ok(())
}

/// The picture after all turns of one hart.
fn push_left(alloc: Global, image: &[u8], out: &mut String) -> Result<(), CaseFailure> {
    let page = dumped(alloc, image)?;
    let Ok(dump) = str::from_utf8(&page.bytes) else {
        return Err(CaseFailure::Malformed("the answer is no text"));
    };
    match dump.split_once("picture ") {
        Some((_, picture)) => {
            out.push_str("picture ")?;
            push_bytes(picture.as_bytes(), out)
        }
        None => Err(CaseFailure::Malformed("the image leaves no picture")),
    }
}
