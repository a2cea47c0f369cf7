//! What each command is asked for by its values and options.
ghost use Rattle.std.specs.Prelude.{◌≡◌, ◌∷◌, ℕ, map, option_map, IfOk, None, Some};
ghost use Rattle.clap.specs.Walk.{texts};
ghost use Rattle.hrv_command_line.specs.CommandLine.{asked_by, asked_of, blame_of, compile_of, dis_of, explain_of};
ghost use Rattle.hrv_command_line.specs.CommandLine.{family_in, files_of, listing_of, number_or, picture_of};
ghost use Rattle.hrv_command_line.specs.CommandLine as spec;
ghost use Rattle.hrv_command_line.specs.CommandLine.{printed_in, refusal_in, run_from, run_of};
ghost use Rattle.hrv_command_line.specs.inner.Readings.{chosen_of};

use crate::command_lines::{BlameArguments, DrawArguments, Invocation};
use crate::reading::{Chosen, text_of};
use crate::tracing::trace_asked;
use hrv_refusals::is_explained;
use std::alloc::{AllocError, Global};

/// What a command is asked for by values and options: which ones each has, in the order of the table.
#[inline(never)]
pub(crate) fn asked_for<'a>(
    alloc: Global,
    name: &str,
    values: &[&'a str],
    choices: &[Chosen<'a>],
) -> Result<Option<Invocation<'a>>, AllocError>
    ensures { IfOk result (λ found. option_map asked_by found
        ≡ asked_of name.now (record { values = texts values.now; choices = map chosen_of choices.now })) }
{
    match name {
        "picture" => picture_asked(alloc, values),
        "compile" => compile_asked(alloc, values),
        "map" => Ok(map_asked(values)),
        "run" => Ok(run_asked(values, choices)),
        "replay" => Ok(replay_asked(values)),
        "debug" => Ok(debug_asked(values)),
        "blame" => Ok(blame_asked(values, choices)),
        "profile" => Ok(profile_asked(values)),
        "trace" => Ok(trace_asked(values, choices)),
        "races" => races_asked(alloc, values),
        "log" => Ok(log_asked(values)),
        "digest" => digest_asked(alloc, values),
        "verify" => Ok(verify_asked(values)),
        "asm" => Ok(asm_asked(values)),
        "dis" => Ok(dis_asked(values, choices)),
        "renew" => Ok(renew_asked(values)),
        "explain" => Ok(explain_asked(values)),
        "version" => Ok(version_asked(values)),
        _ => Ok(None),
    }
}

// What `picture` is asked for.
fn picture_asked<'a>(
    alloc: Global,
    values: &[&'a str],
) -> Result<Option<Invocation<'a>>, AllocError>
    ensures { IfOk result (λ found. option_map asked_by found ≡ picture_of (texts values.now)) }
{
    match values {
        [algorithm, inputs @ ..] => {
            let inputs = Vec::from_slice(alloc, inputs)?;
            Ok(Some(Invocation::Picture { algorithm, inputs }))
        }
        _ => Ok(None),
    }
}

// What `compile` is asked for.
fn compile_asked<'a>(
    alloc: Global,
    values: &[&'a str],
) -> Result<Option<Invocation<'a>>, AllocError>
    ensures { IfOk result (λ found. option_map asked_by found ≡ compile_of (texts values.now)) }
{
    match values {
        [algorithm, schedule, image, inputs @ ..] => {
            let inputs = Vec::from_slice(alloc, inputs)?;
            Ok(Some(Invocation::Compile {
                algorithm,
                schedule,
                image,
                inputs,
            }))
        }
        _ => Ok(None),
    }
}

// What `map` is asked for.
fn map_asked<'a>(values: &[&'a str]) -> Option<Invocation<'a>>
    ensures { option_map asked_by result ≡ files_of spec.Maps (texts values.now) }
{
    match values {
        [algorithm, schedule] => Some(Invocation::Map {
            algorithm,
            schedule,
        }),
        _ => None,
    }
}

// What `run` is asked for.
fn run_asked<'a>(values: &[&'a str], choices: &[Chosen<'a>]) -> Option<Invocation<'a>>
    ensures { option_map asked_by result ≡ run_of (map chosen_of choices.now) (texts values.now) }
{
    match values {
        [image, log] => {
            let harts = number_of("harts", choices, 1, MOST_HARTS)?;
            let turns = number_of("turns", choices, MOST_TURNS, MOST_TURNS)?;
            match text_of("seed", choices) {
                None => threaded_asked(choices, image, log, harts, turns),
                Some(seed) => drawn_asked(seed, choices, image, log, harts, turns),
            }
        }
        _ => None,
    }
}

// A run whose threads say which turns come next, and how many at once.
fn threaded_asked<'a>(
    choices: &[Chosen<'a>],
    image: &'a str,
    log: &'a str,
    harts: u64,
    turns: u64,
) -> Option<Invocation<'a>>
    ensures { option_map asked_by result
        ≡ spec.run_by None (map chosen_of choices.now) image.entry.now log.entry.now harts turns }
{
    if text_of("every", choices).is_some() {
        return None;
    }
    let record = text_of("record", choices);
    let from = text_of("from", choices);
    Some(run_from(from, image, log, record, harts, turns))
}

// A run whose turns are drawn, from the image's start.
fn drawn_asked<'a>(
    seed: &str,
    choices: &[Chosen<'a>],
    image: &'a str,
    log: &'a str,
    harts: u64,
    turns: u64,
) -> Option<Invocation<'a>>
    ensures { option_map asked_by result
        ≡ spec.run_by (Some seed.now) (map chosen_of choices.now) image.entry.now log.entry.now harts turns }
{
    if text_of("from", choices).is_some() {
        return None;
    }
    let seed = number_in(seed)?;
    let every = number_of("every", choices, 1, MOST_EVERY)?;
    let draws = DrawArguments {
        harts,
        turns,
        seed,
        every,
    };
    let record = text_of("record", choices);
    Some(Invocation::RunDrawn {
        image,
        log,
        record,
        draws,
    })
}

// The number that a text means.
pub(crate) fn number_in(text: &str) -> Option<u64>
    ensures { result ≡ spec.number_in text.now }
{
    match text.parse::<u64>() {
        Ok(number) => Some(number),
        Err(_) => None,
    }
}

// A run, or one that goes on from a log, with as many harts as that one has.
fn run_from<'a>(
    from: Option<&'a str>,
    image: &'a str,
    log: &'a str,
    record: Option<&'a str>,
    harts: u64,
    turns: u64,
) -> Invocation<'a>
    ensures { asked_by result ≡ run_from (option_map (λ s. s.now) from.entry) image.now log.now
        (option_map (λ s. s.now) «record».entry) harts turns }
{
    match from {
        None => Invocation::Run {
            image,
            log,
            record,
            harts,
            turns,
        },
        Some(old) => Invocation::Resume {
            image,
            log,
            record,
            old,
            turns,
        },
    }
}

// How many harts there are at most.
const MOST_HARTS: u64 = 8;

// How many turns a hart has at most in a log.
const MOST_TURNS: u64 = 1 << 40;

// How many turns a hart makes at most each time it is drawn.
const MOST_EVERY: u64 = 4096;

// The number of an option, from 1 to the greatest one; or the one that stands for none.
fn number_of(name: &str, choices: &[Chosen<'_>], none: u64, most: u64) -> Option<u64>
    ensures { result ≡ number_or none most (spec.text_of name.now (map chosen_of choices.now)) }
{
    match text_of(name, choices) {
        None => Some(none),
        Some(text) => number_up_to(text, most),
    }
}

// The number that a text means, from 1 to the greatest one.
fn number_up_to(text: &str, most: u64) -> Option<u64>
    ensures { (none : ℕ) → result ≡ number_or none most (Some text.now) }
{
    match text.parse::<u64>() {
        Ok(number) => {
            if 1 <= number && number <= most {
                Some(number)
            } else {
                None
            }
        }
        Err(_) => None,
    }
}

// What `replay` is asked for.
fn replay_asked<'a>(values: &[&'a str]) -> Option<Invocation<'a>>
    ensures { option_map asked_by result ≡ files_of spec.Replays (texts values.now) }
{
    match values {
        [image, log] => Some(Invocation::Replay { image, log }),
        _ => None,
    }
}

// What `debug` is asked for.
fn debug_asked<'a>(values: &[&'a str]) -> Option<Invocation<'a>>
    ensures { option_map asked_by result ≡ files_of spec.Debugs (texts values.now) }
{
    match values {
        [image, log] => Some(Invocation::Debug { image, log }),
        _ => None,
    }
}

// What `blame` is asked for.
fn blame_asked<'a>(values: &[&'a str], choices: &[Chosen<'a>]) -> Option<Invocation<'a>>
    ensures { option_map asked_by result ≡ blame_of (map chosen_of choices.now) (texts values.now) }
{
    let address = text_of("address", choices);
    let with_turns = text_of("turns", choices).is_some();
    let (image, log, x, y) = match values {
        [image, log] => (*image, *log, None, None),
        [image, log, x] => (*image, *log, Some(*x), None),
        [image, log, x, y] => (*image, *log, Some(*x), Some(*y)),
        _ => return None,
    };
    let words = BlameArguments {
        x,
        y,
        address,
        with_turns,
    };
    Some(Invocation::Blame { image, log, words })
}

// What `profile` is asked for.
fn profile_asked<'a>(values: &[&'a str]) -> Option<Invocation<'a>>
    ensures { option_map asked_by result ≡ files_of spec.Profiles (texts values.now) }
{
    match values {
        [image, log] => Some(Invocation::Profile { image, log }),
        _ => None,
    }
}

// What `races` is asked for.
fn races_asked<'a>(alloc: Global, values: &[&'a str]) -> Result<Option<Invocation<'a>>, AllocError>
    ensures { IfOk result (λ found. option_map asked_by found ≡ spec.races_of (texts values.now)) }
{
    match values {
        [image, log, but @ ..] => {
            let but = Vec::from_slice(alloc, but)?;
            Ok(Some(Invocation::Races { image, log, but }))
        }
        _ => Ok(None),
    }
}

// What `log` is asked for.
fn log_asked<'a>(values: &[&'a str]) -> Option<Invocation<'a>>
    ensures { option_map asked_by result ≡ spec.log_of (texts values.now) }
{
    match values {
        [log] => Some(Invocation::PrintLog { log }),
        [text, log] => Some(Invocation::MakeLog { text, log }),
        _ => None,
    }
}

// What `digest` is asked for.
fn digest_asked<'a>(alloc: Global, values: &[&'a str]) -> Result<Option<Invocation<'a>>, AllocError>
    ensures { IfOk result (λ found. option_map asked_by found ≡ spec.digest_of (texts values.now)) }
{
    match values {
        [] => Ok(None),
        _ => {
            let files = Vec::from_slice(alloc, values)?;
            Ok(Some(Invocation::Digest { files }))
        }
    }
}

// What `verify` is asked for.
fn verify_asked<'a>(values: &[&'a str]) -> Option<Invocation<'a>>
    ensures { option_map asked_by result ≡ spec.verify_of (texts values.now) }
{
    match values {
        [record, image, log] => Some(Invocation::Verify { record, image, log }),
        _ => None,
    }
}

// What `asm` is asked for.
fn asm_asked<'a>(values: &[&'a str]) -> Option<Invocation<'a>>
    ensures { option_map asked_by result ≡ files_of spec.Assembles (texts values.now) }
{
    match values {
        [source, image] => Some(Invocation::Asm { source, image }),
        _ => None,
    }
}

// What `dis` is asked for.
fn dis_asked<'a>(values: &[&'a str], choices: &[Chosen<'a>]) -> Option<Invocation<'a>>
    ensures { option_map asked_by result ≡ dis_of (map chosen_of choices.now) (texts values.now) }
{
    match values {
        [image] => Some(listing(image, text_of("addresses", choices).is_some())),
        _ => None,
    }
}

// The listing of an image, with addresses or without.
fn listing<'a>(image: &'a str, has_addresses: bool) -> Invocation<'a>
    ensures { asked_by result ≡ listing_of image.now has_addresses }
{
    if has_addresses {
        Invocation::DisAddresses { image }
    } else {
        Invocation::Dis { image }
    }
}

// What `renew` is asked for.
fn renew_asked<'a>(values: &[&'a str]) -> Option<Invocation<'a>>
    ensures { option_map asked_by result ≡ files_of spec.Renews (texts values.now) }
{
    match values {
        [old, new] => Some(Invocation::Renew { old, new }),
        _ => None,
    }
}

// What `explain` is asked for.
fn explain_asked<'a>(values: &[&'a str]) -> Option<Invocation<'a>>
    ensures { option_map asked_by result ≡ explain_of (texts values.now) }
{
    match values {
        [] => Some(Invocation::Explain {
            family: "",
            code: "",
        }),
        [word, others @ ..] => {
            let (family, code) = refusal_in(word, others)?;
            explained(family, code)
        }
    }
}

// The explanation of a family and a code, if there is a refusal of them.
fn explained<'a>(family: &'a str, code: &'a str) -> Option<Invocation<'a>>
    ensures { option_map asked_by result ≡ spec.if_known (family.now, code.now) }
{
    if is_explained(family, code) {
        Some(Invocation::Explain { family, code })
    } else {
        None
    }
}

// The family and the code of a refusal, that may be as it is printed.
fn refusal_in<'a>(word: &'a str, others: &[&'a str]) -> Option<(&'a str, &'a str)>
    ensures { option_map (λ r. (r.0.now, r.1.now)) result ≡ refusal_in (word.now ∷ texts others.now) }
{
    if word == "refused" {
        printed_in(others)
    } else {
        family_in(word, others)
    }
}

// The family and the code after `refused`: after `file` is a path, whatever words it is of.
fn printed_in<'a>(words: &[&'a str]) -> Option<(&'a str, &'a str)>
    ensures { option_map (λ r. (r.0.now, r.1.now)) result ≡ printed_in (texts words.now) }
{
    match words {
        [] => None,
        [family, others @ ..] => {
            if *family == "file" {
                Some((family, ""))
            } else {
                family_in(family, others)
            }
        }
    }
}

// A family and a code, or a family alone; where in a text the fault is doesn't matter.
fn family_in<'a>(family: &'a str, others: &[&'a str]) -> Option<(&'a str, &'a str)>
    ensures { option_map (λ r. (r.0.now, r.1.now)) result ≡ family_in family.now (texts others.now) }
{
    match others {
        [] => Some((family, "")),
        [code] => Some((family, code)),
        [code, line, _] => {
            if *line == "line" {
                Some((family, code))
            } else {
                None
            }
        }
        _ => None,
    }
}

// What `version` is asked for.
fn version_asked<'a>(values: &[&'a str]) -> Option<Invocation<'a>>
    ensures { option_map asked_by result ≡ spec.version_of (texts values.now) }
{
    match values {
        [] => Some(Invocation::Version),
        _ => None,
    }
}
