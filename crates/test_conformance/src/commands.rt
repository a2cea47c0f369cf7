//! What the commands write, each by its engine over files in memory.

ghost use Rattle.std.specs.Prelude.{◌≡◌, IfOk};
ghost use Rattle.std.specs.List.{All};

use crate::algorithms::push_bytes;
use crate::devices::{Devices, devices_of};
use crate::failures::CaseFailure;
use crate::invocations::words_of;
use hrv_command_line::{Invocation, command};
use hrv_engines::{
    Fault, Question, TraceQuestion, asm_bytes, blame_bytes, debug_bytes, dis_addresses_bytes,
    dis_bytes, explain_bytes, make_log_bytes, picture_bytes, print_log_bytes, profile_bytes,
    races_bytes, renew_bytes, replay_bytes, trace_bytes, version_bytes,
};
use std::alloc::{AllocError, Global};
use std::thread::Threads;
use test_cases::{Part, bytes_of};
use test_devices::{Page, Tape};

/// The image that a source becomes.
pub fn push_image(alloc: Global, parts: &[Part], out: &mut String) -> Result<(), CaseFailure> {
    let (parts, devices) = devices_of(parts);
    let [source] = parts else {
        return Err(CaseFailure::Malformed("not one part"));
    };
    let source = source.bytes(alloc, "source")?;
    let mut page = devices.page(alloc)?;
    let answered = asm_bytes(alloc, &mut devices.tape("source", &source)?, &mut page);
    push_stored(answered, &page, out)
}

/// The listing of an image.
pub fn push_lines(alloc: Global, parts: &[Part], out: &mut String) -> Result<(), CaseFailure> {
    let (parts, devices) = devices_of(parts);
    let [image] = parts else {
        return Err(CaseFailure::Malformed("not one part"));
    };
    let image = bytes_of(alloc, image.named("image")?)?;
    let mut page = devices.page(alloc)?;
    let answered = dis_bytes(alloc, &mut devices.tape("image", &image)?, &mut page);
    push_answer(answered, &page, out)
}

/// The listing of an image with the addresses of its words.
pub fn push_addresses(alloc: Global, parts: &[Part], out: &mut String) -> Result<(), CaseFailure> {
    let (parts, devices) = devices_of(parts);
    let [image] = parts else {
        return Err(CaseFailure::Malformed("not one part"));
    };
    let image = bytes_of(alloc, image.named("image")?)?;
    let mut page = devices.page(alloc)?;
    let answered = dis_addresses_bytes(alloc, &mut devices.tape("image", &image)?, &mut page);
    push_answer(answered, &page, out)
}

/// What a refusal means. Where none is asked about, the version.
pub fn push_explained(alloc: Global, parts: &[Part], out: &mut String) -> Result<(), CaseFailure> {
    let (parts, devices) = devices_of(parts);
    let [words] = parts else {
        return push_version(alloc, &devices, out);
    };
    let mut words = words.named("words")?.lines();
    let family = words.next().unwrap_or("");
    let code = words.next().unwrap_or("");
    let mut page = devices.page(alloc)?;
    let answered = explain_bytes(alloc, family, code, &mut page);
    push_answer(answered, &page, out)
}

/// The version, and the logic.
fn push_version(alloc: Global, devices: &Devices, out: &mut String) -> Result<(), CaseFailure> {
    let mut page = devices.page(alloc)?;
    let answered = version_bytes(alloc, &mut page);
    push_answer(answered, &page, out)
}

/// An image in the newest format.
pub fn push_renewal(alloc: Global, parts: &[Part], out: &mut String) -> Result<(), CaseFailure> {
    let (parts, devices) = devices_of(parts);
    let [image] = parts else {
        return Err(CaseFailure::Malformed("not one part"));
    };
    let image = bytes_of(alloc, image.named("image")?)?;
    let mut page = devices.page(alloc)?;
    let answered = renew_bytes(alloc, &mut devices.tape("image", &image)?, &mut page);
    push_stored(answered, &page, out)
}

/// The runs of a log as a text.
pub fn push_runs(alloc: Global, parts: &[Part], out: &mut String) -> Result<(), CaseFailure> {
    let (parts, devices) = devices_of(parts);
    let [log] = parts else {
        return Err(CaseFailure::Malformed("not one part"));
    };
    let log = bytes_of(alloc, log.named("log")?)?;
    let mut page = devices.page(alloc)?;
    let answered = print_log_bytes(alloc, &mut devices.tape("log", &log)?, &mut page);
    push_answer(answered, &page, out)
}

/// The log that a text of runs becomes.
pub fn push_log(alloc: Global, parts: &[Part], out: &mut String) -> Result<(), CaseFailure> {
    let (parts, devices) = devices_of(parts);
    let [text] = parts else {
        return Err(CaseFailure::Malformed("not one part"));
    };
    let text = text.bytes(alloc, "text")?;
    let mut page = devices.page(alloc)?;
    let answered = make_log_bytes(alloc, &mut devices.tape("text", &text)?, &mut page);
    push_stored(answered, &page, out)
}

/// The dump of a machine after a log's turns.
pub fn push_replay(alloc: Global, parts: &[Part], out: &mut String) -> Result<(), CaseFailure> {
    let (parts, devices) = devices_of(parts);
    let [image, log] = parts else {
        return Err(CaseFailure::Malformed("not two parts"));
    };
    let image = bytes_of(alloc, image.named("image")?)?;
    let log = bytes_of(alloc, log.named("log")?)?;
    let mut page = devices.page(alloc)?;
    let answered = replay_bytes(
        alloc,
        &mut devices.tape("image", &image)?,
        &mut devices.tape("log", &log)?,
        &mut page,
    );
    push_answer(answered, &page, out)
}

/// Where the turns of a log go.
pub fn push_profile(alloc: Global, parts: &[Part], out: &mut String) -> Result<(), CaseFailure> {
    let (parts, devices) = devices_of(parts);
    let [image, log] = parts else {
        return Err(CaseFailure::Malformed("not two parts"));
    };
    let image = bytes_of(alloc, image.named("image")?)?;
    let log = bytes_of(alloc, log.named("log")?)?;
    let mut page = devices.page(alloc)?;
    let answered = profile_bytes(
        alloc,
        &mut devices.tape("image", &image)?,
        &mut devices.tape("log", &log)?,
        &mut page,
    );
    push_answer(answered, &page, out)
}

/// What turns of a log did, those that words after an image and a log ask for, one each line.
pub fn push_trace(alloc: Global, parts: &[Part], out: &mut String) -> Result<(), CaseFailure> {
    let (parts, devices) = devices_of(parts);
    let (image, log, words) = match parts {
        [image, log] => (image, log, ""),
        [image, log, words] => (image, log, words.named("words")?),
        _ => return Err(CaseFailure::Malformed("not two or three parts")),
    };
    let image = bytes_of(alloc, image.named("image")?)?;
    let log = bytes_of(alloc, log.named("log")?)?;
    let words = words_of(alloc, "trace\nimage\nlog", words)?;
    let question = traced_by(alloc, &words)?;
    let mut page = devices.page(alloc)?;
    let answered = trace_bytes(
        alloc,
        &mut devices.tape("image", &image)?,
        &mut devices.tape("log", &log)?,
        question,
        &mut page,
    );
    push_answer(answered, &page, out)
}

/// Which turns the words of a command line ask for.
fn traced_by<'a>(alloc: Global, words: &'a [&'a str]) -> Result<TraceQuestion<'a>, CaseFailure> {
    match command(alloc, words) {
        Ok(Invocation::Trace { words: asked, .. }) => Ok(TraceQuestion {
            from: asked.from,
            to: asked.to,
            hart: asked.hart,
            address: asked.address,
        }),
        _ => Err(CaseFailure::Malformed("other words")),
    }
}

/// At which place of a log two harts race first, outside words, one each line.
pub fn push_races(alloc: Global, parts: &[Part], out: &mut String) -> Result<(), CaseFailure> {
    let (parts, devices) = devices_of(parts);
    let (image, log, words) = match parts {
        [image, log] => (image, log, ""),
        [image, log, words] => (image, log, words.named("words")?),
        _ => return Err(CaseFailure::Malformed("not two or three parts")),
    };
    let image = bytes_of(alloc, image.named("image")?)?;
    let log = bytes_of(alloc, log.named("log")?)?;
    let words = words_of(alloc, "", words)?;
    let mut page = devices.page(alloc)?;
    let answered = races_bytes(
        alloc,
        &mut devices.tape("image", &image)?,
        &mut devices.tape("log", &log)?,
        &words,
        &mut page,
    );
    push_answer(answered, &page, out)
}

/// What is answered to lines about an image and a log.
pub fn push_talk(alloc: Global, parts: &[Part], out: &mut String) -> Result<(), CaseFailure> {
    let (parts, devices) = devices_of(parts);
    let [image, log, lines] = parts else {
        return Err(CaseFailure::Malformed("not three parts"));
    };
    let image = bytes_of(alloc, image.named("image")?)?;
    let log = bytes_of(alloc, log.named("log")?)?;
    let lines = lines.bytes(alloc, "lines")?;
    let mut page = devices.page(alloc)?;
    let answered = debug_bytes(
        alloc,
        &mut devices.tape("image", &image)?,
        &mut devices.tape("log", &log)?,
        &mut devices.tape("lines", &lines)?,
        &mut page,
    );
    push_answer(answered, &page, out)
}

/// Who wrote what words after an image and a log ask about.
pub fn push_blame(alloc: Global, parts: &[Part], out: &mut String) -> Result<(), CaseFailure> {
    let (parts, devices) = devices_of(parts);
    let [image, log, words] = parts else {
        return Err(CaseFailure::Malformed("not three parts"));
    };
    let image = bytes_of(alloc, image.named("image")?)?;
    let log = bytes_of(alloc, log.named("log")?)?;
    let words = words_of(alloc, "blame\nimage\nlog", words.named("words")?)?;
    let question = question_of(alloc, &words)?;
    let mut page = devices.page(alloc)?;
    let answered = blame_bytes(
        alloc,
        &mut devices.tape("image", &image)?,
        &mut devices.tape("log", &log)?,
        question,
        &mut page,
    );
    push_answer(answered, &page, out)
}

/// What the words of a command line ask about.
fn question_of<'a>(alloc: Global, words: &'a [&'a str]) -> Result<Question<'a>, CaseFailure> {
    match command(alloc, words) {
        Ok(Invocation::Blame { words: asked, .. }) => Ok(Question {
            x: asked.x,
            y: asked.y,
            address: asked.address,
            with_turns: asked.with_turns,
        }),
        _ => Err(CaseFailure::Malformed("other words")),
    }
}

/// The picture that an algorithm draws from pictures.
pub fn push_drawing(
    rt: &(impl Threads + Sync),
    alloc: Global,
    parts: &[Part],
    out: &mut String,
) -> Result<(), CaseFailure> {
    let (parts, devices) = devices_of(parts);
    let [algorithm, inputs @ ..] = parts else {
        return Err(CaseFailure::Malformed("no parts"));
    };
    let algorithm = algorithm.bytes(alloc, "algorithm")?;
    let texts = texts_of(alloc, inputs)?;
    let mut pictures = pictures_of(alloc, &devices, &texts)?;
    let mut page = devices.page(alloc)?;
    let answered = picture_bytes(
        rt,
        alloc,
        &mut devices.tape("algorithm", &algorithm)?,
        pictures.as_mut_slice(),
        &mut page,
    );
    push_answer(answered, &page, out)
}

/// The bytes of each picture.
pub fn texts_of(alloc: Global, inputs: &[Part]) -> Result<Vec<Vec<u8>>, CaseFailure> {
    let mut texts = Vec::new(alloc);
    for input in inputs {
        texts.push(input.bytes(alloc, "picture")?)?;
    }
    Ok(texts)
}

/// Each input in memory.
pub fn pictures_of<'a>(
    alloc: Global,
    devices: &Devices,
    texts: &'a [Vec<u8>],
) -> Result<Vec<Tape<'a>>, CaseFailure>
    ensures { IfOk result (λ tapes. All (λ tape. tape.failures ≡ 0) tapes.items) }
{
    let mut tapes = Vec::new(alloc);
    let mut rest = texts;
    while let [text, others @ ..] = rest {
        tapes.push(devices.tape("picture", text)?)?;
        rest = others;
    }
    Ok(tapes)
}

/// What the command wrote, or why it refused. A backslash ends a text whose last line has no line feed.
pub fn push_answer(
    answered: Result<(), Fault>,
    page: &Page,
    out: &mut String,
) -> Result<(), CaseFailure> {
    push_bytes(&page.bytes, out)?;
    if !matches!(page.bytes.last(), None | Some(b'\n')) {
        out.push_str("\\\n")?;
    }
    Ok(answered?)
}

/// The bytes that the command wrote, 32 a line, or why it refused.
pub fn push_stored(
    answered: Result<(), Fault>,
    page: &Page,
    out: &mut String,
) -> Result<(), CaseFailure> {
    for line in page.bytes.chunks(32) {
        push_digits(line, out)?;
    }
    Ok(answered?)
}

/// A line with the digits of bytes.
pub fn push_digits(bytes: &[u8], out: &mut String) -> Result<(), AllocError> {
    for byte in bytes {
        write!(out, "{byte:02x}")?;
    }
    out.push_str("\n")
}
