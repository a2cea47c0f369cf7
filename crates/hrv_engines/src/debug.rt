//! Debugging: a talk over an image and a log of turns.

ghost use Rattle.std.specs.Prelude.{◌≡◌, ◌+◌, ◌<◌, ◌^◌, [], Err, Ok, IfOk, IfErr};
ghost use Rattle.hrv_engines.specs.Debug.{IsRefusedSession, Talks, session_of};
ghost use Rattle.hrv_engines.specs.Devices.{both, image_bytes_of, log_bytes_of, pieces_of, sink_of};
ghost use Rattle.hrv_engines.specs.Engine.{Unmeant};
ghost use Rattle.hrv_engines.specs.TalkSoFar.{HoldsTalk};

use crate::devices::{CHUNK, Sink, Source, read_image_bytes, read_log_bytes, write_all};
use crate::faults::Fault;
use crate::talks::Talk;
use debugger::Session;
use loader::read_image;
use std::alloc::Global;
use turn_log::TurnLog;

/// Reads an image and a log of turns, and then answers lines of commands, up to their end or to `quit`.
///
/// Both files are read first, the image before the log. The lines are read piece by piece: the lines that ended are
/// answered before more is read, and nothing is read after one that ends the talk.
pub fn debug_bytes<I: Source, L: Source, C: Source, O: Sink>(
    alloc: Global,
    image: &mut I,
    log: &mut L,
    lines: &mut C,
    out: &mut O,
) -> Result<(), Fault>
    requires image { I.failed image.old + 1 < 2 ^ 64 }
    requires log { L.failed log.old + 1 < 2 ^ 64 }
    requires lines { C.failed lines.old + 1 < 2 ^ 64 }
    requires out { O.failed out.old + 1 < 2 ^ 64 }
    ensures { Talks
        (both (image_bytes_of I.place I.failed I.gave I.ended image.old image.new)
        (log_bytes_of L.place L.failed L.gave L.ended log.old log.new))
        (pieces_of C.place C.failed C.gave lines.old lines.new) (C.ended lines.new)
        (sink_of O.place O.failed O.took out.old out.new) result }
{
    let image_bytes = read_image_bytes(alloc, image)?;
    let log_bytes = read_log_bytes(alloc, log)?;
    let session = open(alloc, image_bytes, log_bytes)?;
    hold_talk(alloc, &mut Talk::new(alloc, session), lines, out)
}

/// The session of the bytes of an image and of a log, or the first refusal: the image is judged first. The image's
/// bytes are let go as soon as they are read.
#[tactic(auto, unfolding(crate::specs::Debug::session_of))]
fn open(alloc: Global, image: Vec<u8>, log: Vec<u8>) -> Result<Session, Fault>
    ensures ok { IfOk result (λ session. session_of image.items log.items ≡ Ok session.state) }
    ensures err { IfErr result (λ fault. Unmeant IsRefusedSession (image.items, log.items) fault) }
{
    let read = read_image(alloc, &image)?;
    drop(image);
    let log = TurnLog::read(alloc, &log)?;
    Ok(Session::open(alloc, read, log)?)
}

/// Answers lines, up to their end or to one that ends the talk. The answers to the lines that end in a piece are
/// written before the next piece is read.
fn hold_talk<C: Source, O: Sink>(
    alloc: Global,
    talk: &mut Talk,
    lines: &mut C,
    out: &mut O,
) -> Result<(), Fault>
    requires fresh { talk.old.unended.items ≡ [] }
    requires lines { C.failed lines.old + 1 < 2 ^ 64 }
    requires out { O.failed out.old + 1 < 2 ^ 64 }
    ensures { HoldsTalk talk.old.session.state (pieces_of C.place C.failed C.gave lines.old lines.new)
        (C.ended lines.new) (sink_of O.place O.failed O.took out.old out.new) result }
{
    // Made before the first read, so that a read that fails needs no memory.
    let path = String::from_str(alloc, lines.path())?;
    let mut buffer = [0; CHUNK];
    'pieces: for _ in 0..u64::MAX {
        let Ok(count) = lines.read(&mut buffer) else {
            return Err(Fault::File(path));
        };
        let mut text = String::new(alloc);
        if count == 0 {
            talk.end(alloc, &mut text)?;
            return write_all(alloc, out, text.as_bytes());
        }
        let is_over = talk.take(alloc, &buffer[..count], &mut text)?;
        write_all(alloc, out, text.as_bytes())?;
        if is_over {
            return Ok(());
        }
    }
    // No source gives this many pieces.
    Err(Fault::Memory)
}
