//! The lines of phases' words of control, of inputs, of Funcs and of frames.

ghost use Rattle.std.specs.Prelude.{◌≡◌, ◌+◌, ◌*◌, ◌<◌, ◌≤◌, ◌^◌, ◌++◌, IfOk, IfSome, OnOk, length, slice_get};
ghost use Rattle.std.specs.String.{string_bytes};
ghost use Rattle.bounds.specs.Boxes.{AreBoxes, IsBox};
ghost use Rattle.bounds.specs.Extents.{box_in};
ghost use Rattle.hrv_map.specs.Lines as spec;

use crate::areas::{area_text, func_area, input_area};
use crate::names::name_at;
use bounds::boxes::points;
use bounds::layout::{DATA_START, FRAME};
use bounds::{Boxes, Layout, Plan, SourceBox};
use disassembler::push_hexadecimal;
use halide_pipeline::{Func, Input};
use schedule::{ComputeLevel, LoopPosition, Schedule};
use schedule_lines::stages::{Loop, LoopId, same_id};
use sqlite_items::Items;
use std::alloc::{AllocError, Global};

/// `control PHASE ticket A gate A`
#[tactic(auto, unfolding(crate::specs::Lines::control_line))]
pub(crate) fn control_line(alloc: Global, phase: u64) -> Result<String, AllocError>
    requires { phase < 2 ^ 32 }
    ensures { IfOk result (λ text. string_bytes text ≡ spec.control_line phase) }
{
    let ticket = DATA_START + 8 * phase;
    let mut text = String::new(alloc);
    write!(text, "control {phase} ticket ")?;
    push_hexadecimal(&mut text, 8, ticket)?;
    text.push_str(" gate ")?;
    push_hexadecimal(&mut text, 8, ticket + 4)?;
    text.push_str("\n")?;
    Ok(text)
}

/// Appends how an input holds its pixels.
fn push_kind(out: &mut Vec<u8>, is_bytes: bool) -> Result<(), AllocError>
    ensures { OnOk result (out.new.items ≡ out.old.items ++ spec.kind_text is_bytes) }
{
    if is_bytes {
        out.extend_from_slice(b" bytes")?;
    } else {
        out.extend_from_slice(b" words")?;
    }
    Ok(())
}

/// `input NAME words` or `input NAME bytes`, and where it lies.
#[tactic(auto, unfolding(crate::specs::Lines::input_line))]
fn push_input_line(
    alloc: Global,
    out: &mut Vec<u8>,
    name: &[u8],
    at: u64,
    input: &Input,
) -> Result<(), AllocError>
    ensures { OnOk result (out.new.items ≡ out.old.items ++ spec.input_line name.now at input.now) }
{
    let area = area_text(alloc, input_area(at, input))?;
    out.extend_from_slice(b"input ")?;
    out.extend_from_slice(name)?;
    push_kind(out, input.is_bytes)?;
    out.extend_from_slice(area.as_bytes())?;
    out.extend_from_slice(b"\n")?;
    Ok(())
}

/// The address at a place.
fn address_at(ats: &Items<u64>, index: usize) -> u64
    ensures { result ≡ spec.address_at ats.now index }
{
    match ats.get(index) {
        Some(at) => *at,
        None => 0,
    }
}

/// The lines of the inputs from a place on.
#[tactic(auto, unfolding(crate::specs::Lines::input_lines))]
pub(crate) fn push_input_lines(
    alloc: Global,
    out: &mut Vec<u8>,
    names: &Items<Items<u8>>,
    ats: &Items<u64>,
    index: usize,
    inputs: &[Input],
) -> Result<(), AllocError>
    requires { index + length inputs.now < 2 ^ 64 }
    ensures { OnOk result (out.new.items ≡ out.old.items ++ spec.input_lines names.now ats.now index inputs.now) }
{
    let [input, others @ ..] = inputs else {
        return Ok(());
    };
    push_input_line(
        alloc,
        out,
        name_at(names, index),
        address_at(ats, index),
        input,
    )?;
    push_input_lines(alloc, out, names, ats, index + 1, others)?;
    Ok(())
}

/// The name of a loop among those of a stage.
fn loop_name(id: LoopId, loops: &[Loop]) -> &[u8]
    ensures { result.now ≡ spec.loop_name id loops.now }
{
    match loops {
        [] => &[],
        [own, others @ ..] => {
            if same_id(own.id, id) {
                own.name.as_slice()
            } else {
                loop_name(id, others)
            }
        }
    }
}

/// The name of a loop of the pure definition of a Func.
fn loop_name_in(id: LoopId, schedule: &Schedule, func: usize) -> &[u8]
    ensures { result.now ≡ spec.loop_name_in id (slice_get schedule.now.funcs func) }
{
    match schedule.funcs.get(func) {
        None => &[],
        Some(plan) => loop_name(id, plan.pure.loops.as_slice()),
    }
}

/// `func NAME root`, and where its box lies.
#[tactic(auto, unfolding(crate::specs::Lines::root_line))]
fn push_root_line(
    alloc: Global,
    out: &mut Vec<u8>,
    name: &[u8],
    at: u64,
    source_box: &SourceBox,
) -> Result<(), AllocError>
    requires { IsBox source_box.now }
    ensures { OnOk result (out.new.items ≡ out.old.items ++ spec.root_line name.now at source_box.now) }
{
    let area = area_text(alloc, func_area(at, source_box))?;
    out.extend_from_slice(b"func ")?;
    out.extend_from_slice(name)?;
    out.extend_from_slice(b" root")?;
    out.extend_from_slice(area.as_bytes())?;
    out.extend_from_slice(b"\n")?;
    Ok(())
}

/// ` copies 8 distance BYTES`
#[tactic(auto, unfolding(crate::specs::Lines::copies_text))]
fn copies_text(alloc: Global, distance: u64) -> Result<String, AllocError>
    ensures { IfOk result (λ text. string_bytes text ≡ spec.copies_text distance) }
{
    let mut text = String::new(alloc);
    write!(text, " copies 8 distance {distance}\n")?;
    Ok(text)
}

/// A loop that a Func is computed at, by names.
#[derive(Clone, Copy)]
struct NamedLoop<'a> {
    consumer: &'a [u8],
    name: &'a [u8],
}

/// `func NAME at CONSUMER LOOP`, where the box of hart 0 lies, and how far the others'.
#[tactic(auto, unfolding(crate::specs::Lines::copies_line))]
fn push_copies_line(
    alloc: Global,
    out: &mut Vec<u8>,
    name: &[u8],
    around: &NamedLoop<'_>,
    at: u64,
    source_box: &SourceBox,
) -> Result<(), AllocError>
    requires { IsBox source_box.now }
    ensures { OnOk result (out.new.items ≡ out.old.items ++ spec.copies_line name.now around.now.consumer.now
        around.now.name.now at source_box.now) }
{
    let area = area_text(alloc, func_area(at, source_box))?;
    let copies = copies_text(alloc, 4 * points(source_box))?;
    out.extend_from_slice(b"func ")?;
    out.extend_from_slice(name)?;
    out.extend_from_slice(b" at ")?;
    out.extend_from_slice(around.consumer)?;
    out.extend_from_slice(b" ")?;
    out.extend_from_slice(around.name)?;
    out.extend_from_slice(area.as_bytes())?;
    out.extend_from_slice(copies.as_bytes())?;
    Ok(())
}

/// The box at a place.
pub(crate) fn box_at(boxes: &[Option<SourceBox>], index: usize) -> Option<SourceBox>
    requires { AreBoxes boxes.now }
    ensures is { result ≡ box_in (slice_get boxes.now index) }
    ensures near { IfSome result IsBox }
{
    match boxes.get(index) {
        None => None,
        Some(own) => *own,
    }
}

/// The line of a Func that is computed at root.
fn push_root(
    alloc: Global,
    out: &mut Vec<u8>,
    names: &Items<Items<u8>>,
    boxes: &Boxes,
    index: usize,
) -> Result<(), AllocError>
    ensures { OnOk result (out.new.items ≡ out.old.items ++ spec.root_if names.now boxes.now index
        (box_in (slice_get boxes.now.funcs index))) }
{
    let Some(own) = box_at(boxes.funcs.as_slice(), index) else {
        return Ok(());
    };
    let address = address_at(&boxes.layout.roots, index);
    push_root_line(alloc, out, name_at(names, index), address, &own)?;
    Ok(())
}

/// The line of a Func that is computed at a loop.
fn push_copies(
    alloc: Global,
    out: &mut Vec<u8>,
    names: &Items<Items<u8>>,
    plan: &Plan<'_>,
    index: usize,
    at: LoopPosition,
) -> Result<(), AllocError>
    ensures { OnOk result (out.new.items ≡ out.old.items ++ spec.copies_if names.now plan.now.schedule
        plan.now.boxes index at (box_in (slice_get plan.now.boxes.funcs index))) }
{
    let boxes = plan.boxes();
    let Some(own) = box_at(boxes.funcs.as_slice(), index) else {
        return Ok(());
    };
    let around = NamedLoop {
        consumer: name_at(names, at.func),
        name: loop_name_in(at.inside, plan.schedule(), at.func),
    };
    let address = address_at(&boxes.layout.privates, index);
    push_copies_line(alloc, out, name_at(names, index), &around, address, &own)?;
    Ok(())
}

/// The line of the Func at a place.
#[tactic(auto, unfolding(crate::specs::Lines::func_line))]
fn push_func_line(
    alloc: Global,
    out: &mut Vec<u8>,
    names: &Items<Items<u8>>,
    plan: &Plan<'_>,
    index: usize,
) -> Result<(), AllocError>
    ensures { OnOk result (out.new.items ≡ out.old.items ++ spec.func_line names.now plan.now.schedule
        plan.now.boxes index) }
{
    let Some(standing) = plan.schedule().standing(index) else {
        return Ok(());
    };
    match standing.place {
        ComputeLevel::Root => push_root(alloc, out, names, plan.boxes(), index)?,
        ComputeLevel::At(at) => push_copies(alloc, out, names, plan, index, at)?,
        ComputeLevel::Inlined | ComputeLevel::Nowhere => {}
    }
    Ok(())
}

/// The lines of the Funcs from a place on.
#[tactic(auto, unfolding(crate::specs::Lines::func_lines))]
pub(crate) fn push_func_lines(
    alloc: Global,
    out: &mut Vec<u8>,
    names: &Items<Items<u8>>,
    plan: &Plan<'_>,
    index: usize,
    funcs: &[Func],
) -> Result<(), AllocError>
    requires { index + length funcs.now < 2 ^ 64 }
    ensures { OnOk result (out.new.items ≡ out.old.items ++ spec.func_lines names.now plan.now.schedule
        plan.now.boxes index
        funcs.now) }
{
    let [_, others @ ..] = funcs else {
        return Ok(());
    };
    push_func_line(alloc, out, names, plan, index)?;
    push_func_lines(alloc, out, names, plan, index + 1, others)?;
    Ok(())
}

/// `frames address A copies 8 distance 4096`, where there are any.
#[tactic(auto, unfolding(crate::specs::Lines::frames_line))]
pub(crate) fn push_frames_line(
    alloc: Global,
    out: &mut Vec<u8>,
    layout: &Layout,
) -> Result<(), AllocError>
    ensures { OnOk result (out.new.items ≡ out.old.items ++ spec.frames_line layout.now) }
{
    if !layout.has_frames {
        return Ok(());
    }
    let mut text = String::new(alloc);
    text.push_str("frames address ")?;
    push_hexadecimal(&mut text, 8, layout.frames)?;
    let copies = copies_text(alloc, FRAME)?;
    out.extend_from_slice(text.as_bytes())?;
    out.extend_from_slice(copies.as_bytes())?;
    Ok(())
}
