//! Which vectorized loops are vector code.
//!
//! Code of a vectorized loop configures lanes once, by a register or a literal, and no other code does. That of a loop
//! which collects its pixels configures no lanes first, by the literal 0, and lanes by a register in each iteration. So
//! an image has at least as many instructions of the one kind as there are vectorized loops, and as many of the other
//! as collect their pixels: a loop has code for each copy of an unrolled one around it, and for each part of one that
//! is made in parts, but where it is known to do nothing. Where all stores are those of vectorized loops, no
//! instruction stores a scalar.

ghost use Rattle.schedule.specs.Accepted.{IsAccepted};

use crate::failures::TrialFailure;
use bounds::infer;
use halide_parser::parse;
use halide_pipeline::Pipeline;
use loader::Image;
use loop_ir::statements::{LoopKind, Stmt};
use lowering::phases::lower;
use rv_encoding::decode;
use rv_insn::{Insn, VectorInsn};
use schedule::{Schedule, read};
use std::alloc::Global;

/// Appends a line where a schedule vectorizes loops: whether all of them are vector code, or how many of how many, how
/// many scalar stores there are where there should be none, and how many loops collect their pixels.
pub fn push_vectors(
    alloc: Global,
    algorithm: &str,
    schedule: &str,
    image: &Image,
    out: &mut String,
) -> Result<(), TrialFailure> {
    let pipeline = parse(algorithm, alloc)?;
    let schedule = read(schedule, &pipeline, alloc)?;
    let marked = marked_loops(alloc, &pipeline, &schedule)?;
    let (configured, collected) = configurations(image);
    let made = configured.wrapping_sub(collected);
    if marked.loops == 0 && configured == 0 {
        return Ok(());
    }
    let scalar = if marked.is_all {
        scalar_stores(image)
    } else {
        0
    };
    out.push_str("vectorized loops: ")?;
    if marked.loops <= made && scalar == 0 {
        out.push_str("all vector code\n")?;
    } else {
        let loops = marked.loops;
        writeln!(
            out,
            "{made} of {loops} vector code, {scalar} scalar stores, {collected} collected"
        )?;
    }
    Ok(())
}

/// How many vectorized loops there are, and whether all stores are theirs.
#[derive(Clone, Copy)]
struct Marked {
    loops: u64,
    is_all: bool,
}

/// Those of the phases.
fn marked_loops(
    alloc: Global,
    pipeline: &Pipeline,
    schedule: &Schedule,
) -> Result<Marked, TrialFailure>
    requires { IsAccepted pipeline.now schedule.now }
{
    let boxes = infer(pipeline, schedule, alloc)?;
    let mut marked = Marked {
        loops: 0,
        is_all: true,
    };
    for phase in &lower(alloc, pipeline, schedule, &boxes)? {
        marked = both(marked, marked_in(&phase.body));
    }
    Ok(marked)
}

/// Those of two statements.
fn both(one: Marked, other: Marked) -> Marked {
    Marked {
        loops: one.loops.wrapping_add(other.loops),
        is_all: one.is_all && other.is_all,
    }
}

/// Those of a statement.
fn marked_in(statement: &Stmt) -> Marked {
    match statement {
        Stmt::Store(_) => Marked {
            loops: 0,
            is_all: false,
        },
        Stmt::Sequence(first, second) => both(marked_in(first.get()), marked_in(second.get())),
        Stmt::For(_, _, LoopKind::Vectorized, _) => Marked {
            loops: 1,
            is_all: true,
        },
        Stmt::For(_, _, _, body) => marked_in(body.get()),
        Stmt::Bind(_, _, _, body) => marked_in(body.get()),
    }
}

/// How many words of an image store a scalar.
fn scalar_stores(image: &Image) -> u64 {
    let mut count: u64 = 0;
    for word in image.words() {
        if let Some(Insn::Store { .. }) = decode(*word) {
            count = count.wrapping_add(1);
        }
    }
    count
}

/// How many lanes an instruction configures, if it configures some or none; by a register it counts as one.
fn lanes_of(insn: VectorInsn) -> Option<u32> {
    match insn {
        VectorInsn::Vsetvli { .. } => Some(1),
        VectorInsn::Vsetivli { length, .. } => Some(length.value()),
        _ => None,
    }
}

/// The same of a word.
fn lanes_by(word: u32) -> Option<u32> {
    match decode(word) {
        Some(Insn::Vector(insn)) => lanes_of(insn),
        _ => None,
    }
}

/// How many words of an image configure lanes, and how many configure none.
fn configurations(image: &Image) -> (u64, u64) {
    let mut lanes: u64 = 0;
    let mut none: u64 = 0;
    for word in image.words() {
        match lanes_by(*word) {
            Some(0) => none = none.wrapping_add(1),
            Some(_) => lanes = lanes.wrapping_add(1),
            None => {}
        }
    }
    (lanes, none)
}
