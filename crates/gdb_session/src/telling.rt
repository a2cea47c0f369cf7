//! Answers to requests that leave the session as it is.

ghost use Rattle.std.specs.Prelude.{◌≡◌, ◌++◌, ◌<◌, OnOk};
ghost use Rattle.std.specs.String.{string_bytes};
ghost use Rattle.debugger.specs.Places.{state_here};
ghost use Rattle.multi_hart.specs.Run.{hart_at};
ghost use Rattle.gdb_texts.specs.Texts.{description, piece_of};
ghost use Rattle.gdb_session.specs.Answers.{hart_text, map_text};
ghost use Rattle.gdb_session.specs.Texts as spec;

use crate::texts::push_hex;
use debugger::Session;
use gdb_texts::{push_description, push_memory_map, push_piece};
use hart_core::Status;
use std::alloc::{AllocError, Global};

/// Appends a piece of the target description.
pub fn push_description_piece(
    out: &mut Vec<u8>,
    alloc: Global,
    offset: u32,
    count: u32,
) -> Result<(), AllocError>
    ensures { OnOk result (out.new.items ≡ out.old.items ++ piece_of description offset count) }
{
    let mut text = String::new(alloc);
    push_description(&mut text)?;
    push_piece(out, text.as_bytes(), offset, count)
}

/// Appends a piece of the memory map.
pub fn push_map_piece(
    out: &mut Vec<u8>,
    alloc: Global,
    session: &Session,
    offset: u32,
    count: u32,
) -> Result<(), AllocError>
    ensures { OnOk result (out.new.items ≡ out.old.items
        ++ piece_of (map_text (state_here session.now.state)) offset count) }
{
    let mut text = String::new(alloc);
    push_map(&mut text, session)?;
    push_piece(out, text.as_bytes(), offset, count)
}

fn push_map(text: &mut String, session: &Session) -> Result<(), AllocError>
    ensures { OnOk result (string_bytes text.new ≡ string_bytes text.old ++ map_text (state_here session.now.state)) }
{
    let text_bytes = 4 * session.words().len() as u64;
    push_memory_map(text, text_bytes, session.machine().data().len() as u64)
}

/// Appends the digits of a hart's status.
#[tactic(auto, unfolding(crate::specs::Answers::hart_text))]
pub fn push_hart(
    out: &mut Vec<u8>,
    alloc: Global,
    session: &Session,
    hart: usize,
) -> Result<(), AllocError>
    requires { hart < session.now.state.log.harts }
    ensures { OnOk result (out.new.items ≡ out.old.items
        ++ hart_text (hart_at (state_here session.now.state) hart)) }
{
    let mut text = String::new(alloc);
    push_status(&mut text, session.status(hart))?;
    push_hex(out, text.as_bytes())
}

/// `running`, `finished` or `trap K`.
#[tactic(auto, unfolding(crate::specs::Texts::status_text))]
fn push_status(text: &mut String, status: Status) -> Result<(), AllocError>
    ensures { OnOk result (string_bytes text.new ≡ string_bytes text.old ++ spec.status_text status) }
{
    match status {
        Status::Running => text.push_str("running"),
        Status::Finished => text.push_str("finished"),
        Status::Trapped(trap) => {
            let number = trap.number();
            write!(text, "trap {number}")
        }
    }
}
