//! Which words of text store.

ghost use Rattle.std.specs.Prelude.{◌≡◌, ◌≤◌, ℕ, List, length, map, option_and_then, IfOk};
ghost use Rattle.std.specs.Option.{option_copied};
ghost use Rattle.memory.specs.Access.{fetched, most_words};
ghost use Rattle.debugger_writes.specs.Stored.{store_in};

use crate::stores::store_of;
use memory::TEXT_START;
use rv_insn::Insn;
use std::alloc::{AllocError, Global};

/// The instruction that each of the words means, if that stores.
pub fn stores_of(alloc: Global, words: &[u32]) -> Result<Vec<Option<Insn>>, AllocError>
    ensures { IfOk result (λ insns. insns.items ≡ map store_in words.now) }
{
    words.iter().map(|word| store_of(*word)).collect(alloc)
}

/// The instruction at an address, if that stores.
pub fn store_at(insns: &[Option<Insn>], pc: u32) -> Option<&Insn>
    requires { length insns.now ≤ most_words }
    ensures { (text : List ℕ) → insns.now ≡ map store_in text → option_copied result
        ≡ option_and_then store_in (fetched text pc) }
{
    if pc < TEXT_START || pc % 4 != 0 {
        return None;
    }
    match insns.get(((pc - TEXT_START) / 4) as usize) {
        Some(Some(insn)) => Some(insn),
        _ => None,
    }
}
