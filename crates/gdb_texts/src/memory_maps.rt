//! The memory map.

ghost use Rattle.std.specs.Prelude.{◌≡◌, ◌++◌, OnOk};
ghost use Rattle.std.specs.String.{string_bytes};
ghost use Rattle.gdb_texts.specs.Texts as spec;

use crate::elements::{push_attribute, push_end, push_number, push_tag};
use memory::{DATA_START, TEXT_START};
use std::alloc::AllocError;

/// Appends the memory map of a machine with this many bytes of text and of data.
#[tactic(auto, unfolding(crate::specs::Texts::memory_map))]
pub fn push_memory_map(
    text: &mut String,
    text_bytes: u64,
    data_bytes: u64,
) -> Result<(), AllocError>
    ensures { OnOk result (string_bytes text.new ≡ string_bytes text.old ++ spec.memory_map text_bytes data_bytes) }
{
    push_tag(text, "memory-map")?;
    push_region(text, "rom", u64::from(TEXT_START), text_bytes)?;
    push_region(text, "ram", u64::from(DATA_START), data_bytes)?;
    push_tag(text, "/memory-map")?;
    Ok(())
}

/// Appends a region, unless it is empty.
#[tactic(auto, unfolding(crate::specs::Texts::region))]
fn push_region(text: &mut String, kind: &str, start: u64, bytes: u64) -> Result<(), AllocError>
    ensures { OnOk result (string_bytes text.new ≡ string_bytes text.old ++ spec.region kind.now start bytes) }
{
    if bytes == 0 {
        return Ok(());
    }
    text.push_str("<memory")?;
    push_attribute(text, "type", kind)?;
    push_number(text, "start", start)?;
    push_number(text, "length", bytes)?;
    push_end(text)?;
    Ok(())
}
