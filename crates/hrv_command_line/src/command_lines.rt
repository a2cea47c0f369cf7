//! What a command line asks of the program.
ghost use Rattle.std.specs.Prelude.{◌≡◌, ◌∷◌, map, option_map, IfOk, IfErr, Some, IsSome};
ghost use Rattle.clap.specs.Walk.{texts};
ghost use Rattle.hrv_command_line.specs.CommandLine.{IsRefusal, IsSpelled, IsWithinLimits, asked_by, asked_of, named};
ghost use Rattle.hrv_command_line.specs.CommandLine as spec;
ghost use Rattle.hrv_command_line.specs.Commands.{choice_of, commands, shape_of};
ghost use Rattle.hrv_command_line.specs.inner.Readings.{given_of};

use crate::asked::asked_for;
use crate::faults::CommandLineFault;
use crate::programs::program;
use crate::reading::{Given, read_all};
use crate::table::{Choice, CommandRow, rows};
use std::alloc::{AllocError, Global};

/// The words that ask who wrote data: the numbers of a pixel, the address of a word, and whether turns are told of in
/// place of harts.
#[derive(Clone, Copy, Debug)]
pub struct BlameArguments<'a> {
    pub x: Option<&'a str>,
    pub y: Option<&'a str>,
    pub address: Option<&'a str>,
    pub with_turns: bool,
}

/// Which turns of a log are told of: from one number to another one, of one hart or all, and those alone that touch a
/// word, by its address.
#[derive(Clone, Copy, Debug)]
pub struct TraceArguments<'a> {
    pub from: u64,
    pub to: u64,
    pub hart: Option<u64>,
    pub address: Option<&'a str>,
}

/// How many harts make at most how many turns each, and how turns are drawn: from a seed, this many at once at most.
#[derive(Clone, Copy, Debug)]
pub struct DrawArguments {
    pub harts: u64,
    pub turns: u64,
    pub seed: u64,
    pub every: u64,
}

/// What the words of a command line ask for.
#[derive(Debug, Drop)]
pub enum Invocation<'a> {
    /// `asm SOURCE IMAGE`
    Asm {
        source: &'a str,
        image: &'a str,
    },
    /// `dis IMAGE`
    Dis {
        image: &'a str,
    },
    /// `dis IMAGE --addresses`
    DisAddresses {
        image: &'a str,
    },
    /// `renew OLD NEW`
    Renew {
        old: &'a str,
        new: &'a str,
    },
    /// `replay IMAGE LOG`
    Replay {
        image: &'a str,
        log: &'a str,
    },
    /// `debug IMAGE LOG`
    Debug {
        image: &'a str,
        log: &'a str,
    },
    /// `blame IMAGE LOG [X Y] --address A --turns`; which of them go together, the command judges.
    Blame {
        image: &'a str,
        log: &'a str,
        words: BlameArguments<'a>,
    },
    /// `profile IMAGE LOG`
    Profile {
        image: &'a str,
        log: &'a str,
    },
    /// `trace IMAGE LOG --from K --to K --hart H --address A`
    Trace {
        image: &'a str,
        log: &'a str,
        words: TraceArguments<'a>,
    },
    /// `races IMAGE LOG [BUT..]`
    Races {
        image: &'a str,
        log: &'a str,
        but: Vec<&'a str>,
    },
    /// `log LOG`
    PrintLog {
        log: &'a str,
    },
    /// `log TEXT LOG`
    MakeLog {
        text: &'a str,
        log: &'a str,
    },
    /// `digest FILE..`
    Digest {
        files: Vec<&'a str>,
    },
    /// `verify RECORD IMAGE LOG`
    Verify {
        record: &'a str,
        image: &'a str,
        log: &'a str,
    },
    /// `picture ALGORITHM [INPUT..]`
    Picture {
        algorithm: &'a str,
        inputs: Vec<&'a str>,
    },
    /// `compile ALGORITHM SCHEDULE IMAGE [INPUT..]`
    Compile {
        algorithm: &'a str,
        schedule: &'a str,
        image: &'a str,
        inputs: Vec<&'a str>,
    },
    /// `map ALGORITHM SCHEDULE`
    Map {
        algorithm: &'a str,
        schedule: &'a str,
    },
    /// `run IMAGE LOG --harts N --turns L --record RECORD`
    Run {
        image: &'a str,
        log: &'a str,
        record: Option<&'a str>,
        harts: u64,
        turns: u64,
    },
    /// `run IMAGE LOG --turns L --from OLD --record RECORD`
    Resume {
        image: &'a str,
        log: &'a str,
        record: Option<&'a str>,
        old: &'a str,
        turns: u64,
    },
    /// `run IMAGE LOG --harts N --turns L --seed S --every K --record RECORD`
    RunDrawn {
        image: &'a str,
        log: &'a str,
        record: Option<&'a str>,
        draws: DrawArguments,
    },
    /// `explain FAMILY [CODE]`; a code that isn't given is empty.
    Explain {
        family: &'a str,
        code: &'a str,
    },
    /// `version`, or `--version`
    Version,
}

/// Reads the words of a command line, the program's own name left out.
pub fn command<'a>(alloc: Global, words: &'a [&'a str]) -> Result<Invocation<'a>, CommandLineFault>
    ensures named { IfOk result (λ invocation.
        named (texts words.now) ≡ Some (asked_by invocation)) }
    ensures spelled { IfOk result (λ invocation.
        IsSpelled (texts words.now) (asked_by invocation)) }
    ensures limits { IfOk result (λ invocation. IsWithinLimits (asked_by invocation)) }
    ensures refused { IfErr result (IsRefusal (texts words.now)) }
    ensures memory { IfErr result (λ fault.
        IsSome (named (texts words.now)) → fault ≡ CommandLineFault.Memory) }
{
    match named_by(alloc, words)? {
        Some(invocation) => Ok(invocation),
        None => Err(refusal(alloc, words)),
    }
}

// What these words name.
fn named_by<'a>(alloc: Global, words: &'a [&'a str]) -> Result<Option<Invocation<'a>>, AllocError>
    ensures { IfOk result (λ found. option_map asked_by found ≡ named (texts words.now)) }
{
    if is_version_flag(words) {
        return Ok(Some(Invocation::Version));
    }
    match words {
        [] => Ok(None),
        [name, words @ ..] => named_in(alloc, name, words),
    }
}

// Whether the only word is `--version`, which `clap` would take for a refusal.
fn is_version_flag(words: &[&str]) -> bool
    ensures { result ≡ spec.is_version_flag (texts words.now) }
{
    match words {
        [word] => *word == "--version",
        _ => false,
    }
}

// Why these words name nothing, as `clap` says it, where it has a word against them.
#[inline(never)]
fn refusal(alloc: Global, words: &[&str]) -> CommandLineFault
    ensures { IsRefusal (texts words.now) result }
{
    match program(alloc) {
        Err(fault) => CommandLineFault::from(fault),
        Ok(program) => match program.try_get_matches_from(words) {
            Err(error) => CommandLineFault::from(error),
            Ok(_) => fault_beyond(words),
        },
    }
}

// Why words name nothing that `clap` has no word against.
fn fault_beyond(words: &[&str]) -> CommandLineFault
    ensures { result ≡ spec.fault_beyond (texts words.now) }
{
    match words {
        [] => CommandLineFault::Unexplained,
        [name, ..] => {
            if *name == "run" {
                CommandLineFault::Uncombined
            } else {
                CommandLineFault::Unexplained
            }
        }
    }
}

// What the command of a name is asked for by the words after it.
fn named_in<'a>(
    alloc: Global,
    name: &'a str,
    words: &'a [&'a str],
) -> Result<Option<Invocation<'a>>, AllocError>
    ensures { IfOk result (λ found. option_map asked_by found ≡ spec.named_in (name.now ∷ texts words.now)) }
{
    let Some(choices) = options_of(name) else {
        return Ok(None);
    };
    match read_all(alloc, choices, words)? {
        None => Ok(None),
        Some(given) => asked_by(alloc, name, &given),
    }
}

// What a command is asked for by what it is given.
fn asked_by<'a>(
    alloc: Global,
    name: &str,
    given: &Given<'a>,
) -> Result<Option<Invocation<'a>>, AllocError>
    ensures { IfOk result (λ found. option_map asked_by found ≡ asked_of name.now (given_of given.now)) }
{
    asked_for(
        alloc,
        name,
        given.values.as_slice(),
        given.choices.as_slice(),
    )
}

// The options of the command of a name.
fn options_of(name: &str) -> Option<&'static [Choice<'static>]>
    ensures { option_map (λ c. map choice_of c.now) result
        ≡ option_map (λ s. s.choices) (spec.command_named name.now commands) }
{
    choices_of(name, rows())
}

// The options of the command of a name in a table.
fn choices_of(
    name: &str,
    rows: &'static [CommandRow<'static>],
) -> Option<&'static [Choice<'static>]>
    ensures { option_map (λ c. map choice_of c.now) result
        ≡ option_map (λ s. s.choices) (spec.command_named name.now (map shape_of rows.now)) }
{
    match rows {
        [] => None,
        [row, rows @ ..] => {
            if row.name == name {
                Some(row.choices)
            } else {
                choices_of(name, rows)
            }
        }
    }
}
