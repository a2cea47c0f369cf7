//! Saying what each turn of a log did: the command `trace`.

ghost use Rattle.std.specs.Prelude.{◌≡◌, ◌+◌, ◌<◌, ◌≤◌, ◌^◌, Ok, length, IfOk, IfErr};
ghost use Rattle.memory.specs.Access.{most_bytes};
ghost use Rattle.turn_traces.specs.TraceText.{trace_text};
ghost use Rattle.hrv_engines.specs.Devices.{both, image_bytes_of, log_bytes_of, sink_of};
ghost use Rattle.hrv_engines.specs.Engine.{Unmeant};
ghost use Rattle.hrv_engines.specs.Trace.{IsRefusedTrace, Traces, WritesPieces, answer, asked_by, turns_wanted};

use crate::devices::{Sink, Source, read_image_bytes, read_log_bytes, write_all};
use crate::faults::Fault;
use crate::questions::{BlameFault, data_word};
use loader::read_image;
use multi_hart::Machine;
use std::alloc::Global;
use turn_log::TurnLog;
use turn_traces::{TracedText, TurnsWanted, trace_piece};

/// Which turns are asked for: from one number to another one, of one hart or of all, and where the address of a word of
/// data is given, those alone that load or store a byte of it.
#[derive(Clone, Copy, Debug)]
pub struct TraceQuestion<'a> {
    pub from: u64,
    pub to: u64,
    pub hart: Option<u64>,
    pub address: Option<&'a str>,
}

/// Reads an image and a log of turns, and writes the lines of those turns that are asked for. Both files are read
/// first, the image before the log, and judged before the address. The lines are written while the turns are made, so
/// that few of them stand in memory.
pub fn trace_bytes<I: Source, L: Source, O: Sink>(
    alloc: Global,
    image: &mut I,
    log: &mut L,
    question: TraceQuestion<'_>,
    out: &mut O,
) -> Result<(), Fault>
    requires image { I.failed image.old + 1 < 2 ^ 64 }
    requires log { L.failed log.old + 1 < 2 ^ 64 }
    requires out { O.failed out.old + 1 < 2 ^ 64 }
    ensures { Traces (asked_by question.entry)
        (both (image_bytes_of I.place I.failed I.gave I.ended image.old image.new)
        (log_bytes_of L.place L.failed L.gave L.ended log.old log.new))
        (sink_of O.place O.failed O.took out.old out.new) result }
{
    let image_bytes = read_image_bytes(alloc, image)?;
    let log_bytes = read_log_bytes(alloc, log)?;
    let mut turns = open(alloc, image_bytes, log_bytes, question)?;
    write_lines(
        alloc,
        &mut turns.machine,
        &turns.text,
        &turns.log,
        &turns.wanted,
        out,
    )
}

/// A machine, its text, the log of turns that it is to make, and which of them are told of.
#[derive(Drop)]
struct TurnsToTrace {
    machine: Machine,
    text: TracedText,
    log: TurnLog,
    wanted: TurnsWanted,
}

/// The turns of the bytes of an image and of a log, or the first refusal: the image is judged first. The image's bytes
/// are let go as soon as they are read.
#[tactic(auto, unfolding(crate::specs::Trace::answer))]
fn open(
    alloc: Global,
    image: Vec<u8>,
    log: Vec<u8>,
    question: TraceQuestion<'_>,
) -> Result<TurnsToTrace, Fault>
    ensures ok { IfOk result (λ turns. answer (asked_by question.entry) image.items log.items
        ≡ Ok (trace_text turns.wanted turns.machine turns.log.turns)) }
    ensures text { IfOk result (λ turns. turns.text ≡ turns.machine.text) }
    ensures harts { IfOk result (λ turns. length turns.machine.harts ≡ turns.log.harts) }
    ensures err { IfErr result (Unmeant (IsRefusedTrace (asked_by question.entry)) (image.items, log.items)) }
{
    let read = read_image(alloc, &image)?;
    drop(image);
    let log = TurnLog::read(alloc, &log)?;
    let wanted = turns_wanted(read.data().len(), question)?;
    let machine = read.machine(alloc, log.harts())?;
    let text = TracedText::of(alloc, read.words())?;
    Ok(TurnsToTrace {
        machine,
        text,
        log,
        wanted,
    })
}

/// The turns that are asked for, where there are this many bytes of data.
fn turns_wanted(bytes: usize, question: TraceQuestion<'_>) -> Result<TurnsWanted, BlameFault>
    requires { bytes ≤ most_bytes }
    ensures { result ≡ turns_wanted bytes (asked_by question.entry) }
{
    let address = match question.address {
        None => None,
        Some(text) => Some(data_word(bytes, text)?),
    };
    let hart = match question.hart {
        None => None,
        Some(hart) => Some(hart as usize),
    };
    Ok(TurnsWanted {
        from: question.from,
        to: question.to,
        hart,
        address,
    })
}

/// Makes the turns of a log, and writes the lines of those that are wanted, piece by piece.
fn write_lines<O: Sink>(
    alloc: Global,
    machine: &mut Machine,
    text: &TracedText,
    log: &TurnLog,
    wanted: &TurnsWanted,
    out: &mut O,
) -> Result<(), Fault>
    requires text { text.now ≡ machine.old.text }
    requires harts { length machine.old.harts ≡ log.now.harts }
    requires out { O.failed out.old + 1 < 2 ^ 64 }
    ensures { WritesPieces (sink_of O.place O.failed O.took out.old out.new)
        (trace_text wanted.now machine.old log.now.turns) result }
{
    let mut place = 0;
    'pieces: while place < log.len() && place <= wanted.to {
        let piece = trace_piece(alloc, machine, text, log, wanted, place)?;
        write_all(alloc, out, &piece.text)?;
        place = piece.next;
    }
    Ok(())
}
