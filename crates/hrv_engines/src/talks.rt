//! The talk with the debugger: what is answered to lines of commands, over a session.

ghost use Rattle.std.specs.Prelude.{◌≡◌, ◌++◌, ◌<◌, [], IsSome, OnOk, IfOk};
ghost use Rattle.std.specs.String.{string_bytes};
ghost use Rattle.line_text.specs.Lines.{IsLine};
ghost use Rattle.debugger.specs.Refusals.{number_of};
ghost use Rattle.debugger.specs.Places.{state_here};
ghost use Rattle.multi_hart.specs.Run.{hart_at};
ghost use Rattle.hrv_engines.specs.Talk as spec;
ghost use Rattle.hrv_engines.specs.TalkSoFar.{Took};

use crate::commands::{Command, read_command};
use crate::cuts::cut_at;
use crate::dumps::{integer_register, push_hex, push_hex_word, push_status, vector_register};
use crate::keeping::keep;
use debugger::{Session, SessionRefusal};
use std::alloc::{AllocError, Global};

/// A talk over a session, with what is kept of a line that has not ended.
#[derive(Drop)]
pub struct Talk {
    pub session: Session,
    pub unended: Vec<u8>,
}

impl Talk {
    /// A talk of which nothing is said yet.
    pub fn new(alloc: Global, session: Session) -> Talk
        ensures session { result.session ≡ session }
        ensures empty { result.unended.items ≡ [] }
    {
        Talk {
            session,
            unended: Vec::new(alloc),
        }
    }

    /// Takes more bytes, appends the answers to the lines that end in them, and says whether one of these lines ends
    /// the talk. What follows that line is left out.
    pub fn take(
        &mut self,
        alloc: Global,
        bytes: &[u8],
        text: &mut String,
    ) -> Result<bool, AllocError>
        requires { IsLine self.old.unended.items }
        ensures { IfOk result (λ is_last. Took is_last self.old.session.state self.old.unended.items bytes.now
            self.new.session.state self.new.unended.items (string_bytes text.old) (string_bytes text.new)) }
    {
        let mut rest = bytes;
        'lines: while let Some((line, others)) = cut_at(rest, b'\n') {
            keep(&mut self.unended, line)?;
            if answer_line(alloc, &mut self.session, &self.unended, text)? {
                return Ok(true);
            }
            self.unended.clear();
            rest = others;
        }
        keep(&mut self.unended, rest)?;
        Ok(false)
    }

    /// Appends the answer to a last line that no line feed ends, if there is one.
    pub fn end(&mut self, alloc: Global, text: &mut String) -> Result<(), AllocError>
        requires { IsLine self.old.unended.items }
        ensures { OnOk result (string_bytes text.new ≡ string_bytes text.old
            ++ spec.talk self.old.session.state self.old.unended.items) }
    {
        if !self.unended.is_empty() {
            answer_line(alloc, &mut self.session, &self.unended, text)?;
        }
        Ok(())
    }
}

/// Appends the answer to a line, which comes without its line feed, and says whether the line ends the talk.
#[tactic(auto, unfolding(crate::specs::Talk::answer, crate::specs::Talk::unknown_text))]
fn answer_line(
    alloc: Global,
    session: &mut Session,
    line: &[u8],
    text: &mut String,
) -> Result<bool, AllocError>
    ensures text { OnOk result (string_bytes text.new ≡ string_bytes text.old
        ++ (spec.answer session.old.state line.now).text) }
    ensures next { OnOk result (session.new.state ≡ (spec.answer session.old.state line.now).next) }
    ensures last { IfOk result (λ is_last. is_last ≡ (spec.answer session.old.state line.now).is_last) }
{
    match read_command(line) {
        Some(Command::Quit) => return Ok(true),
        Some(command) => answer_command(alloc, session, command, text)?,
        None => push_unknown(text)?,
    }
    Ok(false)
}

/// Appends the answer to a command that doesn't end the talk.
fn answer_command(
    alloc: Global,
    session: &mut Session,
    command: Command,
    text: &mut String,
) -> Result<(), AllocError>
    ensures text { OnOk result (string_bytes text.new ≡ string_bytes text.old
        ++ (spec.answer_to session.old.state command).text) }
    ensures next { OnOk result (session.new.state ≡ (spec.answer_to session.old.state command).next) }
{
    match command {
        Command::Goto(place) => go_to(alloc, session, place, text),
        Command::Next => go_on(alloc, session, text),
        Command::Back => go_back(alloc, session, text),
        Command::Forward => go_to_next_stop(alloc, session, text),
        Command::Reverse => go_to_previous_stop(alloc, session, text),
        Command::Break(address) => set_break(session, address, text),
        Command::Watch(address) => set_watch(session, address, text),
        Command::Register(hart, number) => push_register(text, session, hart, number),
        Command::Vector(hart, number) => push_vector(text, session, hart, number),
        Command::Word(address) => push_word(text, session, address),
        Command::Status => push_session(text, session),
        Command::Quit => Ok(()),
    }
}

/// `goto K`
fn go_to(
    alloc: Global,
    session: &mut Session,
    place: u64,
    text: &mut String,
) -> Result<(), AllocError>
    ensures text { OnOk result (string_bytes text.new ≡ string_bytes text.old
        ++ (spec.answer_to session.old.state (Command.Goto place)).text) }
    ensures next { OnOk result (session.new.state ≡ (spec.answer_to session.old.state (Command.Goto place)).next) }
{
    match session.goto(alloc, place) {
        Ok(()) => push_place(text, session.place()),
        Err(refusal) => push_refusal(text, refusal),
    }
}

/// `next`
fn go_on(alloc: Global, session: &mut Session, text: &mut String) -> Result<(), AllocError>
    ensures text { OnOk result (string_bytes text.new ≡ string_bytes text.old
        ++ (spec.answer_to session.old.state Command.Next).text) }
    ensures next { OnOk result (session.new.state ≡ (spec.answer_to session.old.state Command.Next).next) }
{
    match session.next(alloc) {
        Ok(()) => push_place(text, session.place()),
        Err(refusal) => push_refusal(text, refusal),
    }
}

/// `back`
fn go_back(alloc: Global, session: &mut Session, text: &mut String) -> Result<(), AllocError>
    ensures text { OnOk result (string_bytes text.new ≡ string_bytes text.old
        ++ (spec.answer_to session.old.state Command.Back).text) }
    ensures next { OnOk result (session.new.state ≡ (spec.answer_to session.old.state Command.Back).next) }
{
    match session.back(alloc) {
        Ok(()) => push_place(text, session.place()),
        Err(refusal) => push_refusal(text, refusal),
    }
}

/// `forward`
fn go_to_next_stop(
    alloc: Global,
    session: &mut Session,
    text: &mut String,
) -> Result<(), AllocError>
    ensures text { OnOk result (string_bytes text.new ≡ string_bytes text.old
        ++ (spec.answer_to session.old.state Command.Forward).text) }
    ensures next { OnOk result (session.new.state ≡ (spec.answer_to session.old.state Command.Forward).next) }
{
    match session.forward(alloc) {
        Ok(()) => push_place(text, session.place()),
        Err(refusal) => push_refusal(text, refusal),
    }
}

/// `reverse`
fn go_to_previous_stop(
    alloc: Global,
    session: &mut Session,
    text: &mut String,
) -> Result<(), AllocError>
    ensures text { OnOk result (string_bytes text.new ≡ string_bytes text.old
        ++ (spec.answer_to session.old.state Command.Reverse).text) }
    ensures next { OnOk result (session.new.state ≡ (spec.answer_to session.old.state Command.Reverse).next) }
{
    match session.reverse(alloc) {
        Ok(()) => push_place(text, session.place()),
        Err(refusal) => push_refusal(text, refusal),
    }
}

/// `break A`
fn set_break(session: &mut Session, address: u64, text: &mut String) -> Result<(), AllocError>
    ensures text { OnOk result (string_bytes text.new ≡ string_bytes text.old
        ++ (spec.answer_to session.old.state (Command.Break address)).text) }
    ensures next { OnOk result (session.new.state ≡ (spec.answer_to session.old.state (Command.Break address)).next) }
{
    let Ok(pc) = u32::try_from(address) else {
        return push_refusal(text, SessionRefusal::Address);
    };
    match session.set_break(pc) {
        Ok(()) => push_ok(text),
        Err(refusal) => push_refusal(text, refusal),
    }
}

/// `watch A`
fn set_watch(session: &mut Session, address: u64, text: &mut String) -> Result<(), AllocError>
    ensures text { OnOk result (string_bytes text.new ≡ string_bytes text.old
        ++ (spec.answer_to session.old.state (Command.Watch address)).text) }
    ensures next { OnOk result (session.new.state ≡ (spec.answer_to session.old.state (Command.Watch address)).next) }
{
    let Ok(address) = u32::try_from(address) else {
        return push_refusal(text, SessionRefusal::Address);
    };
    match session.set_watch(address) {
        Ok(()) => push_ok(text),
        Err(refusal) => push_refusal(text, refusal),
    }
}

/// `reg H R`
fn push_register(
    text: &mut String,
    session: &Session,
    hart: u64,
    number: u64,
) -> Result<(), AllocError>
    ensures { OnOk result (string_bytes text.new ≡ string_bytes text.old
        ++ spec.register_text session.now.state hart number) }
{
    if hart >= session.harts() as u64 || number >= 32 {
        return push_unknown(text);
    }
    let value = session.register(hart as usize, integer_register(number as u8));
    push_hex_word(text, value)?;
    text.push_str("\n")?;
    Ok(())
}

/// `vec H V`
fn push_vector(
    text: &mut String,
    session: &Session,
    hart: u64,
    number: u64,
) -> Result<(), AllocError>
    ensures { OnOk result (string_bytes text.new ≡ string_bytes text.old
        ++ spec.vector_text session.now.state hart number) }
{
    if hart >= session.harts() as u64 || number >= 32 {
        return push_unknown(text);
    }
    let bytes = session.vector(hart as usize, vector_register(number as u8));
    push_hex(text, &bytes)?;
    text.push_str("\n")?;
    Ok(())
}

/// `word A`
fn push_word(text: &mut String, session: &Session, address: u64) -> Result<(), AllocError>
    ensures { OnOk result (string_bytes text.new ≡ string_bytes text.old
        ++ (spec.answer_to session.now.state (Command.Word address)).text) }
{
    let Ok(address) = u32::try_from(address) else {
        return push_refusal(text, SessionRefusal::Address);
    };
    match session.word(address) {
        Ok(word) => {
            push_hex_word(text, word)?;
            text.push_str("\n")?;
            Ok(())
        }
        Err(refusal) => push_refusal(text, refusal),
    }
}

/// `status`
#[tactic(auto, unfolding(crate::specs::Talk::session_text))]
fn push_session(text: &mut String, session: &Session) -> Result<(), AllocError>
    ensures { OnOk result (string_bytes text.new ≡ string_bytes text.old ++ spec.session_text session.now.state) }
{
    writeln!(text, "at {} of {}", session.place(), session.length())?;
    push_hart_lines(text, session)?;
    Ok(())
}

/// All harts, a line each.
fn push_hart_lines(text: &mut String, session: &Session) -> Result<(), AllocError>
    ensures { OnOk result (string_bytes text.new ≡ string_bytes text.old
        ++ spec.hart_lines (state_here session.now.state) session.now.state.log.harts) }
{
    for hart in 0..session.harts() {
        push_hart_line(text, session, hart)?;
    }
    Ok(())
}

/// `hart H STATUS pc 0xPPPPPPPP`
#[tactic(auto, unfolding(crate::specs::Talk::hart_line))]
fn push_hart_line(text: &mut String, session: &Session, hart: usize) -> Result<(), AllocError>
    requires { hart < session.now.state.log.harts }
    ensures { OnOk result (string_bytes text.new ≡ string_bytes text.old
        ++ spec.hart_line hart (hart_at (state_here session.now.state) hart)) }
{
    write!(text, "hart {hart} ")?;
    push_status(text, session.status(hart))?;
    text.push_str(" pc ")?;
    push_hex_word(text, session.pc(hart))?;
    text.push_str("\n")?;
    Ok(())
}

/// `at K`
#[tactic(auto, unfolding(crate::specs::Talk::place_text))]
fn push_place(text: &mut String, place: u64) -> Result<(), AllocError>
    ensures { OnOk result (string_bytes text.new ≡ string_bytes text.old ++ spec.place_text place) }
{
    writeln!(text, "at {place}")?;
    Ok(())
}

/// `refused K`. A refusal for want of memory is no answer, but a lack of memory here too.
#[tactic(auto, unfolding(crate::specs::Talk::refusal_text))]
fn push_refusal(text: &mut String, refusal: SessionRefusal) -> Result<(), AllocError>
    ensures text { OnOk result (string_bytes text.new ≡ string_bytes text.old ++ spec.refusal_text refusal) }
    ensures known { OnOk result (IsSome (number_of refusal)) }
{
    let Some(number) = refusal.number() else {
        return Err(AllocError);
    };
    writeln!(text, "refused {number}")?;
    Ok(())
}

#[tactic(auto, unfolding(crate::specs::Talk::ok_text))]
fn push_ok(text: &mut String) -> Result<(), AllocError>
    ensures { OnOk result (string_bytes text.new ≡ string_bytes text.old ++ spec.ok_text) }
{
    text.push_str("ok\n")?;
    Ok(())
}

#[tactic(auto, unfolding(crate::specs::Talk::unknown_text))]
fn push_unknown(text: &mut String) -> Result<(), AllocError>
    ensures { OnOk result (string_bytes text.new ≡ string_bytes text.old ++ spec.unknown_text) }
{
    text.push_str("unknown\n")?;
    Ok(())
}
