//! What the next turn of a hart touches.

ghost use Rattle.std.specs.Prelude.{◌≡◌, ◌≤◌, ℕ, Bool, List, length, map, None, false, true, IfSome, OnSome};
ghost use Rattle.memory.specs.Access.{most_words, read_by, touched, written_by};
ghost use Rattle.vector_unit.specs.Accesses.{addresses_by, spacing_of};
ghost use Rattle.vector_unit.specs.Vector.{is_refused};
ghost use Rattle.hart_core.specs.HartState.{register, vectors_of};
ghost use Rattle.hart_core.specs.Scalar.{load_size, store_size};
ghost use Rattle.hart_core.specs.Turn.{fault, judged, next_of};
ghost use Rattle.hart_core.specs.VectorRows.{accesses_at, size_of};
ghost use Rattle.vector_unit.specs.declared.accesses.Spacing.TheVariants.{UnitStride};
ghost use Rattle.multi_hart.specs.Run.{reads, writes};
ghost use Rattle.rv_insn.specs.declared.instructions.Insn.TheVariants as insns;
ghost use Rattle.turn_accesses.specs.Accesses.{Covers, access_in, kind_in, reads_in, writes_in};

use crate::numbers::{Sizes, bytes_of, elements_touched, number_touched};
use crate::spans::{Span, nowhere, number_span, span_from, span_of};
use crate::tables::access_at;
use crate::values::{AccessKind, Accesses};
use hart_core::{Hart, Status};
use rv_insn::{Addressing, ElementWidth, Insn, LoadOp, Reg, StoreOp, VectorInsn};
use vector_unit::Numbers;

/// What the next turn of a hart touches, over this many bytes of data and a text of which it is known which words touch
/// memory.
#[inline(always)]
pub fn next_accesses(hart: &Hart, insns: &[Option<Insn>], bytes: usize) -> Accesses
    requires { length insns.now ≤ most_words }
    ensures reads { (text : List ℕ) → insns.now ≡ map access_in text → reads_in result
        ≡ reads (next_of text bytes hart.now) hart.now }
    ensures writes { (text : List ℕ) → insns.now ≡ map access_in text → writes_in result
        ≡ writes (next_of text bytes hart.now) hart.now }
{
    let Status::Running = hart.status() else {
        return Accesses::Nothing;
    };
    let sizes = Sizes {
        words: insns.len(),
        bytes,
    };
    match access_at(insns, hart.pc()) {
        Some(insn) => touched_by(hart, insn, sizes),
        None => Accesses::Nothing,
    }
}

/// What an instruction touches that is due in the hart's state: nothing where it traps.
#[inline(always)]
fn touched_by(hart: &Hart, insn: &Insn, sizes: Sizes) -> Accesses
    requires { sizes.words ≤ most_words }
    ensures reads { reads_in result
        ≡ reads (judged insn.now (fault sizes.words sizes.bytes insn.now hart.now)) hart.now }
    ensures writes { writes_in result
        ≡ writes (judged insn.now (fault sizes.words sizes.bytes insn.now hart.now)) hart.now }
{
    match *insn {
        Insn::Load { op, rs1, imm, .. } => {
            let address = hart.address(rs1, imm);
            number_touched(AccessKind::Loads, address, width_loaded(op), sizes)
        }
        Insn::Store { op, rs1, imm, .. } => {
            let address = hart.address(rs1, imm);
            number_touched(AccessKind::Stores, address, width_stored(op), sizes)
        }
        Insn::AmoaddW { rs1, .. } => {
            let address = hart.register(rs1);
            number_touched(AccessKind::Adds, address, ElementWidth::Bits32, sizes)
        }
        Insn::Vector(ref vector) => touched_by_vector(hart, vector, sizes),
        _ => Accesses::Nothing,
    }
}

/// The same of a vector instruction.
fn touched_by_vector(hart: &Hart, insn: &VectorInsn, sizes: Sizes) -> Accesses
    requires { sizes.words ≤ most_words }
    ensures reads { reads_in result ≡ reads (judged (insns.Vector insn.now)
        (fault sizes.words sizes.bytes (insns.Vector insn.now) hart.now)) hart.now }
    ensures writes { writes_in result ≡ writes (judged (insns.Vector insn.now)
        (fault sizes.words sizes.bytes (insns.Vector insn.now) hart.now)) hart.now }
{
    match *insn {
        VectorInsn::LoadElements {
            width,
            rs1,
            addressing,
            vm,
            ..
        } => match addresses_of(hart, insn, width, addressing, vm, rs1) {
            Some(addresses) => elements_touched(AccessKind::Loads, addresses, width, sizes),
            None => Accesses::Nothing,
        },
        VectorInsn::StoreElements {
            width,
            rs1,
            addressing,
            vm,
            ..
        } => match addresses_of(hart, insn, width, addressing, vm, rs1) {
            Some(addresses) => elements_touched(AccessKind::Stores, addresses, width, sizes),
            None => Accesses::Nothing,
        },
        _ => Accesses::Nothing,
    }
}

/// The addresses of the active elements that lie so, where the instruction is legal in the hart's state.
fn addresses_of(
    hart: &Hart,
    insn: &VectorInsn,
    width: ElementWidth,
    addressing: Addressing,
    vm: bool,
    rs1: Reg,
) -> Option<Numbers>
    ensures some { IfSome result (λ addresses. addresses ≡ addresses_by (vectors_of hart.now)
        (spacing_of width addressing (register hart.now)) vm (register hart.now rs1)) }
    ensures legal { OnSome result (is_refused insn.now (vectors_of hart.now) ≡ false) }
    ensures none { result ≡ None → is_refused insn.now (vectors_of hart.now) ≡ true }
{
    if hart.vectors().refuses(insn) {
        return None;
    }
    let spacing = hart.spacing(width, addressing);
    Some(hart.addresses(spacing, vm, rs1))
}

/// How wide a load's number is.
#[inline(always)]
fn width_loaded(op: LoadOp) -> ElementWidth
    ensures { size_of result ≡ load_size op }
{
    match op {
        LoadOp::Lb | LoadOp::Lbu => ElementWidth::Bits8,
        LoadOp::Lh | LoadOp::Lhu => ElementWidth::Bits16,
        LoadOp::Lw => ElementWidth::Bits32,
    }
}

/// How wide a store's number is.
#[inline(always)]
fn width_stored(op: StoreOp) -> ElementWidth
    ensures { size_of result ≡ store_size op }
{
    match op {
        StoreOp::Sb => ElementWidth::Bits8,
        StoreOp::Sh => ElementWidth::Bits16,
        StoreOp::Sw => ElementWidth::Bits32,
    }
}

/// Between which bytes the next turn of a hart touches memory, over this many bytes of data and a text of which it is
/// known which words touch memory. No list is made where it touches one number.
#[inline(always)]
pub fn next_span(hart: &Hart, insns: &[Option<Insn>], bytes: usize) -> Span
    requires { length insns.now ≤ most_words }
    ensures { (text : List ℕ) → insns.now ≡ map access_in text → Covers result (reads (next_of text bytes hart.now)
        hart.now) (writes (next_of text bytes hart.now) hart.now) }
{
    let Status::Running = hart.status() else {
        return nowhere();
    };
    let sizes = Sizes {
        words: insns.len(),
        bytes,
    };
    match access_at(insns, hart.pc()) {
        Some(insn) => span_touched(hart, insn, sizes),
        None => nowhere(),
    }
}

/// Between which bytes an instruction touches memory that is due in the hart's state.
#[inline(always)]
fn span_touched(hart: &Hart, insn: &Insn, sizes: Sizes) -> Span
    requires { sizes.words ≤ most_words }
    ensures { Covers result (reads (judged insn.now (fault sizes.words sizes.bytes insn.now hart.now)) hart.now)
        (writes (judged insn.now (fault sizes.words sizes.bytes insn.now hart.now)) hart.now) }
{
    match *insn {
        Insn::Load { op, rs1, imm, .. } => {
            number_span(AccessKind::Loads, hart.address(rs1, imm), width_loaded(op))
        }
        Insn::Store { op, rs1, imm, .. } => {
            number_span(AccessKind::Stores, hart.address(rs1, imm), width_stored(op))
        }
        Insn::AmoaddW { rs1, .. } => {
            number_span(AccessKind::Adds, hart.register(rs1), ElementWidth::Bits32)
        }
        Insn::Vector(ref vector) => vector_span(hart, vector, sizes),
        _ => nowhere(),
    }
}

/// The same of a vector instruction.
#[inline(never)]
fn vector_span(hart: &Hart, insn: &VectorInsn, sizes: Sizes) -> Span
    requires { sizes.words ≤ most_words }
    ensures { Covers result (reads (judged (insns.Vector insn.now)
        (fault sizes.words sizes.bytes (insns.Vector insn.now) hart.now)) hart.now)
        (writes (judged (insns.Vector insn.now)
        (fault sizes.words sizes.bytes (insns.Vector insn.now) hart.now)) hart.now) }
{
    if let VectorInsn::LoadElements {
        width,
        rs1,
        addressing: Addressing::UnitStride,
        ..
    } = *insn
        && let Some(span) = run_span(hart, AccessKind::Loads, width, rs1)
    {
        return span;
    }
    if let VectorInsn::StoreElements {
        width,
        rs1,
        addressing: Addressing::UnitStride,
        ..
    } = *insn
        && let Some(span) = run_span(hart, AccessKind::Stores, width, rs1)
    {
        return span;
    }
    span_of(&touched_by_vector(hart, insn, sizes))
}

/// Between which bytes elements lie that stand one after the other, where they don't pass the last address.
#[inline(always)]
fn run_span(hart: &Hart, kind: AccessKind, width: ElementWidth, rs1: Reg) -> Option<Span>
    ensures { IfSome result (λ span. (vm : Bool) → Covers span
        (touched (read_by (kind_in kind) (accesses_at width (addresses_by (vectors_of hart.now) (UnitStride width) vm
        (register hart.now rs1)))))
        (touched (written_by (kind_in kind) (accesses_at width (addresses_by (vectors_of hart.now) (UnitStride width) vm
        (register hart.now rs1)))))) }
{
    let first = u64::from(hart.register(rs1));
    let end = first + u64::from(hart.vectors().count()) * u64::from(bytes_of(width));
    if end > 1 << 32 {
        return None;
    }
    Some(span_from(first, end, kind))
}
