//! Which words of text touch memory.

ghost use Rattle.std.specs.Prelude.{◌≡◌, ◌≤◌, ℕ, List, length, map, option_and_then, IfOk};
ghost use Rattle.std.specs.Option.{option_copied};
ghost use Rattle.memory.specs.Access.{fetched, most_words};
ghost use Rattle.turn_accesses.specs.Accesses.{access_in, is_access};

use memory::TEXT_START;
use rv_encoding::decode;
use rv_insn::{Insn, VectorInsn};
use std::alloc::{AllocError, Global};

/// The instruction that each of the words means, if that touches memory.
pub fn accesses_of(alloc: Global, words: &[u32]) -> Result<Vec<Option<Insn>>, AllocError>
    ensures { IfOk result (λ insns. insns.items ≡ map access_in words.now) }
{
    words.iter().map(|word| access_of(*word)).collect(alloc)
}

/// The instruction that a word means, if that touches memory.
pub(crate) fn access_of(word: u32) -> Option<Insn>
    ensures { result ≡ access_in word }
{
    match decode(word) {
        Some(insn) if is_access(&insn) => Some(insn),
        _ => None,
    }
}

/// Whether an instruction touches memory.
fn is_access(insn: &Insn) -> bool
    ensures { result ≡ is_access insn.now }
{
    match insn {
        Insn::Load { .. } | Insn::Store { .. } | Insn::AmoaddW { .. } => true,
        Insn::Vector(VectorInsn::LoadElements { .. } | VectorInsn::StoreElements { .. }) => true,
        _ => false,
    }
}

/// The instruction at an address, if that touches memory.
#[inline(always)]
pub fn access_at(insns: &[Option<Insn>], pc: u32) -> Option<&Insn>
    requires { length insns.now ≤ most_words }
    ensures { (text : List ℕ) → insns.now ≡ map access_in text → option_copied result
        ≡ option_and_then access_in (fetched text pc) }
{
    if pc < TEXT_START || pc % 4 != 0 {
        return None;
    }
    match insns.get(((pc - TEXT_START) / 4) as usize) {
        Some(Some(insn)) => Some(insn),
        _ => None,
    }
}
