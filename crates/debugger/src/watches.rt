//! Which words an instruction may store to, known before its turn.

ghost use Rattle.std.specs.Prelude.{◌≡◌, ◌<◌, ◌≤◌, ◌∷◌, ◌==◌, [], false, length, map, All};
ghost use Rattle.std.specs.List.{list_any};
ghost use Rattle.memory.specs.Access.{bytes_in, most_words, touched};
ghost use Rattle.hart_core.specs.VectorRows.{accesses_at, size_of};
ghost use Rattle.hart_core.specs.Scalar.{illegal_fault};
ghost use Rattle.multi_hart.specs.Run.{turn};
ghost use Rattle.debugger_writes.specs.Stored.{places_stored, store_in};
ghost use Rattle.debugger.specs.Stops.{differs};
ghost use Rattle.debugger.specs.inner.Watching.{LeavesWord};

use debugger_writes::{StoredNumber, number_stored, store_at};
use hart_core::Hart;
use multi_hart::Machine;
use rv_insn::{ElementWidth, Insn};

/// Whether a turn of a hart may change a word at one of the addresses. Each is compared with the one that the turn
/// stores to, whatever it has; only a vector store may change any.
#[inline(always)]
pub(crate) fn may_write(
    machine: &Machine,
    insns: &[Option<Insn>],
    hart: usize,
    watches: &[u32],
) -> bool
    requires there { hart < length machine.now.harts }
    requires meant { insns.now ≡ map store_in machine.now.text }
    requires few { length insns.now ≤ most_words }
    ensures { result ≡ false → list_any (differs machine.now (turn machine.now hart)) watches.now ≡ false }
{
    if watches.is_empty() {
        return false;
    }
    match store_at(insns, machine.pc(hart)) {
        Some(insn) => stores_to(machine.hart(hart), insn, watches),
        None => false,
    }
}

/// Whether an instruction that is legal in the hart's state, and makes no other trap, may store to a word at one of the
/// addresses.
fn stores_to(hart: &Hart, insn: &Insn, watches: &[u32]) -> bool
    ensures { result ≡ false → illegal_fault insn.now hart.now ≡ None
        → All (LeavesWord (places_stored insn.now hart.now)) watches.now }
{
    match number_stored(hart, insn) {
        Some(number) => lies_in(number, watches),
        None => true,
    }
}

/// Whether a number may lie in a word at one of the addresses: one that isn't aligned may.
#[tactic(auto, using(crate::proofs::Watching::none_is_its_word))]
fn lies_in(number: StoredNumber, watches: &[u32]) -> bool
    ensures { result ≡ false
        → All (LeavesWord (touched (accesses_at number.width (number.address ∷ [])))) watches.now }
{
    let StoredNumber { address, width } = number;
    address % bytes_of(width) != 0 || is_one_of(watches, address - address % 4)
}

/// Whether an address is one of these. All of them are compared, since that takes less than to stop at the first.
fn is_one_of(addresses: &[u32], address: u32) -> bool
    ensures { result ≡ list_any (λ other. other == address) addresses.now }
{
    let mut found = false;
    let mut left = addresses;
    while let [other, others @ ..] = left {
        found |= *other == address;
        left = others;
    }
    found
}

/// How many bytes a number of a width has.
fn bytes_of(width: ElementWidth) -> u32
    ensures { result ≡ bytes_in (size_of width) }
{
    match width {
        ElementWidth::Bits8 => 1,
        ElementWidth::Bits16 => 2,
        ElementWidth::Bits32 => 4,
    }
}
