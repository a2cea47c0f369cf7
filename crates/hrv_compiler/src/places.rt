//! Where the buffers of a pipeline lie, for the code of its tasks.

ghost use Rattle.std.specs.Prelude.{◌≡◌, ◌≤◌, ◌*◌, IfOk};
ghost use Rattle.halide_pipeline.specs.WellFormed.{most_points};
ghost use Rattle.bounds.specs.Boxes.{AreBoxes, IsBox, IsBoxOrNone};
ghost use Rattle.bounds.specs.Extents.{extent, points};
ghost use Rattle.task_code_scalar.specs.Code as code;
ghost use Rattle.vector_codegen_laws.specs.Places as spec;
ghost use Rattle.hrv_compiler.specs.Addresses.{AreAddresses, HasFewPoints, HaveFewPoints, IsAddress};

use bounds::boxes::{extents_of, points};
use bounds::{Plan, SourceBox};
use halide_pipeline::Input;
use schedule::{ComputeLevel, FuncPlacement};
use sqlite_items::Items;
use std::alloc::{AllocError, Global};
use task_code_scalar::layouts::{BufferLayout, Pixels, Places};

fn input_place(at: u64, input: &Input) -> BufferLayout
    requires { IsAddress at }
    ensures { result ≡ spec.input_place at input.now }
{
    BufferLayout {
        start: at as u32,
        width: input.width,
        distance: 0,
        pixels: if input.is_bytes {
            Pixels::Bytes
        } else {
            Pixels::Words
        },
    }
}

#[tactic(auto, unfolding(crate::specs::Addresses::AreAddresses))]
fn input_places(
    alloc: Global,
    ats: &[u64],
    inputs: &[Input],
) -> Result<Vec<BufferLayout>, AllocError>
    requires { AreAddresses ats.now }
    ensures { IfOk result (λ places. places.items ≡ spec.input_places ats.now inputs.now) }
{
    match ats {
        [] => Ok(Vec::new(alloc)),
        [at, others @ ..] => match inputs {
            [] => Ok(Vec::new(alloc)),
            [input, behind @ ..] => {
                let mut places = input_places(alloc, others, behind)?;
                places.insert(0, input_place(*at, input))?;
                Ok(places)
            }
        },
    }
}

/// A place where nothing lies.
fn nowhere() -> BufferLayout
    ensures { result ≡ code.nowhere }
{
    BufferLayout {
        start: 0,
        width: 0,
        distance: 0,
        pixels: Pixels::Words,
    }
}

/// How many bytes a copy of a box has.
fn copy_bytes(source_box: &SourceBox) -> u32
    requires rules { IsBox source_box.now }
    requires few { points source_box.now ≤ most_points }
    ensures { result ≡ 4 * points source_box.now }
{
    4 * points(source_box) as u32
}

fn func_place(
    level: ComputeLevel,
    source_box: &Option<SourceBox>,
    root: u64,
    private: u64,
) -> BufferLayout
    requires rules { IsBoxOrNone source_box.now }
    requires few { HasFewPoints source_box.now }
    requires root { IsAddress root }
    requires private { IsAddress private }
    ensures { result ≡ spec.func_place level source_box.now root private }
{
    let Some(source_box) = source_box else {
        return nowhere();
    };
    let width = extents_of(source_box).first_argument;
    match level {
        ComputeLevel::Root => BufferLayout {
            start: root as u32,
            width,
            distance: 0,
            pixels: Pixels::Words,
        },
        ComputeLevel::At(_) => BufferLayout {
            start: private as u32,
            width,
            distance: copy_bytes(source_box),
            pixels: Pixels::Words,
        },
        ComputeLevel::Inlined | ComputeLevel::Nowhere => nowhere(),
    }
}

#[tactic(auto, unfolding(crate::specs::Addresses::AreAddresses, crate::specs::Addresses::HaveFewPoints))]
fn func_places(
    alloc: Global,
    standings: &[FuncPlacement],
    boxes: &[Option<SourceBox>],
    roots: &[u64],
    privates: &[u64],
) -> Result<Vec<BufferLayout>, AllocError>
    requires rules { AreBoxes boxes.now }
    requires few { HaveFewPoints boxes.now }
    requires roots { AreAddresses roots.now }
    requires privates { AreAddresses privates.now }
    ensures { IfOk result (λ places. places.items ≡ spec.func_places standings.now boxes.now roots.now privates.now) }
{
    let [standing, standings @ ..] = standings else {
        return Ok(Vec::new(alloc));
    };
    let [own, boxes @ ..] = boxes else {
        return Ok(Vec::new(alloc));
    };
    let [root, roots @ ..] = roots else {
        return Ok(Vec::new(alloc));
    };
    let [private, privates @ ..] = privates else {
        return Ok(Vec::new(alloc));
    };
    let mut places = func_places(alloc, standings, boxes, roots, privates)?;
    places.insert(0, func_place(standing.place, own, *root, *private))?;
    Ok(places)
}

/// Where the buffers of a plan lie: at the layout's addresses.
///
/// # Errors
///
/// Memory ran out.
#[tactic(auto, using(crate::proofs::Low::have_few, crate::proofs::Low::inputs_low))]
pub fn places(alloc: Global, plan: &Plan<'_>) -> Result<Places, AllocError>
    ensures { IfOk result (λ places. places ≡ spec.places_of plan.now.pipeline plan.now.schedule
        plan.now.boxes.funcs plan.now.boxes.layout) }
{
    let boxes = plan.boxes();
    let layout = &boxes.layout;
    let inputs = input_places(alloc, layout.inputs.as_slice(), plan.pipeline().inputs())?;
    let funcs = func_places(
        alloc,
        plan.schedule().standings.as_slice(),
        boxes.funcs.as_slice(),
        layout.roots.as_slice(),
        layout.privates.as_slice(),
    )?;
    let frames = if layout.has_frames {
        Some(layout.frames as u32)
    } else {
        None
    };
    Ok(Places {
        inputs: Items::from_vec(inputs),
        funcs: Items::from_vec(funcs),
        frames,
    })
}
