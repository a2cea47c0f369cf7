//! Which turns may race, known for each hart from its last turn on: a turn changes what its own hart touches next, and
//! what no other one does.

ghost use Rattle.std.specs.Prelude.{◌≡◌, ◌≢◌, ◌≤◌, ◌<◌, true, length, map, IfOk};
ghost use Rattle.memory.specs.Access.{most_words};
ghost use Rattle.multi_hart.specs.Run.{hart_at};
ghost use Rattle.turn_accesses.specs.Accesses.{access_in};
ghost use Rattle.race_reports.specs.inner.Watching.{AreApart, AreSpans, IsApartFrom, IsSpan};

use crate::pairs::shared_by;
use multi_hart::Machine;
use rv_insn::Insn;
use std::alloc::{AllocError, Global};
use turn_accesses::{Span, next_accesses, next_span};

/// Between which bytes the next turn of each hart touches memory.
pub(crate) fn spans_of(
    alloc: Global,
    machine: &Machine,
    insns: &[Option<Insn>],
) -> Result<Vec<Span>, AllocError>
    requires meant { insns.now ≡ map access_in machine.now.text }
    requires few { length insns.now ≤ most_words }
    ensures { IfOk result (λ spans. AreSpans machine.now spans.items) }
{
    let mut spans = Vec::new(alloc);
    for hart in 0..machine.harts() {
        spans.push(span_at(machine, insns, hart))?;
    }
    Ok(spans)
}

/// Between which bytes the next turn of a hart touches memory.
#[inline(always)]
pub(crate) fn span_at(machine: &Machine, insns: &[Option<Insn>], hart: usize) -> Span
    requires there { hart < length machine.now.harts }
    requires meant { insns.now ≡ map access_in machine.now.text }
    requires few { length insns.now ≤ most_words }
    ensures { IsSpan machine.now (hart_at machine.now hart) result }
{
    next_span(machine.hart(hart), insns, machine.data().len())
}

/// Whether the next turn of a hart races with that of no other hart from a number on, outside these words.
pub(crate) fn is_apart(
    machine: &Machine,
    insns: &[Option<Insn>],
    but: &[u32],
    spans: &[Span],
    hart: usize,
    number: usize,
) -> bool
    requires there { hart < length machine.now.harts }
    requires meant { insns.now ≡ map access_in machine.now.text }
    requires few { length insns.now ≤ most_words }
    requires spans { AreSpans machine.now spans.now }
    ensures { result ≡ true → IsApartFrom but.now machine.now hart number }
{
    if number >= machine.harts() {
        return true;
    }
    if !is_apart_from(machine, insns, but, spans, hart, number) {
        return false;
    }
    is_apart(machine, insns, but, spans, hart, number + 1)
}

/// Whether the next turn of a hart doesn't race with that of another one, outside these words.
#[inline(always)]
fn is_apart_from(
    machine: &Machine,
    insns: &[Option<Insn>],
    but: &[u32],
    spans: &[Span],
    hart: usize,
    number: usize,
) -> bool
    requires there { hart < length machine.now.harts }
    requires other { number < length machine.now.harts }
    requires meant { insns.now ≡ map access_in machine.now.text }
    requires few { length insns.now ≤ most_words }
    requires spans { AreSpans machine.now spans.now }
    ensures { result ≡ true → hart ≢ number → AreApart but.now machine.now (hart_at machine.now hart)
        (hart_at machine.now number) }
{
    if hart == number {
        return true;
    }
    let one = spans[hart];
    let other = spans[number];
    if !one.meets(&other) {
        return true;
    }
    are_apart(machine, insns, but, hart, number)
}

/// Whether the next turns of two harts don't race, outside these words.
fn are_apart(
    machine: &Machine,
    insns: &[Option<Insn>],
    but: &[u32],
    hart: usize,
    number: usize,
) -> bool
    requires there { hart < length machine.now.harts }
    requires other { number < length machine.now.harts }
    requires meant { insns.now ≡ map access_in machine.now.text }
    requires few { length insns.now ≤ most_words }
    ensures { result ≡ true → AreApart but.now machine.now (hart_at machine.now hart) (hart_at machine.now number) }
{
    let bytes = machine.data().len();
    let one = next_accesses(machine.hart(hart), insns, bytes);
    let other = next_accesses(machine.hart(number), insns, bytes);
    shared_by(but, &one, &other).is_none() && shared_by(but, &other, &one).is_none()
}
