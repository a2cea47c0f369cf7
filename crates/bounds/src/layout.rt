//! Where the data of a compiled image lie.

ghost use Rattle.std.specs.Prelude.{◌≡◌, ◌≤◌, ◌+◌, ◌*◌, ◌^◌, IfOk, length, map};
ghost use Rattle.bounds.specs.Boxes.{AreBoxes, IsBoxOrNone};
ghost use Rattle.bounds.specs.Layout as spec;

use crate::boxes::{SourceBox, points};
use bounds_weights::needs;
use halide_pipeline::{Func, Input, Pipeline};
use schedule::{ComputeLevel, FuncPlacement, Schedule};
use sqlite_items::Items;
use std::alloc::{AllocError, Global};

/// Where the data begin.
pub const DATA_START: u64 = 0x0020_0000;

/// The most bytes that the data may have.
pub const MOST_DATA: u64 = 33_554_432;

/// How many copies there are of what each hart has for itself.
pub const COPIES: u64 = 8;

/// The bytes of a frame.
pub const FRAME: u64 = 4096;

/// Where each part of the data lies, by addresses.
pub struct Layout {
    /// How many phases there are, each with two words at the data's start.
    pub phases: u64,
    /// The address of each input.
    pub inputs: Items<u64>,
    /// The address of each Func's box, if it is computed at root.
    pub roots: Items<u64>,
    /// The address of the first hart's box of each Func, if it is computed at a loop. Those of the other harts follow.
    pub privates: Items<u64>,
    /// The address of the first hart's frame, if there are frames. Those of the other harts follow.
    pub frames: u64,
    pub has_frames: bool,
    /// How many bytes there are in all.
    pub size: u64,
}

impl Drop for Layout {
    fn drop(self) {
        let Layout {
            inputs,
            roots,
            privates,
            phases: _,
            frames: _,
            has_frames: _,
            size: _,
        } = self;
        drop(inputs);
        drop(roots);
        drop(privates);
    }
}

/// The bytes of an input: one a pixel up to a multiple of 4, or four.
#[tactic(auto, using(crate::proofs::Inputs::few_pixels))]
fn input_bytes(input: &Input) -> u64
    requires { spec.IsInput input.now }
    ensures is { result ≡ spec.input_bytes input.now }
    ensures small { spec.IsSize result }
{
    let pixels = u64::from(input.width) * u64::from(input.height);
    if input.is_bytes {
        (pixels + 3) / 4 * 4
    } else {
        pixels * 4
    }
}

/// The bytes of each input.
#[tactic(auto, unfolding(crate::specs::Layout::AreSizes))]
fn input_sizes(alloc: Global, inputs: &[Input]) -> Result<Vec<u64>, AllocError>
    requires { spec.AreInputs inputs.now }
    ensures is { IfOk result (λ sizes. sizes.items ≡ map spec.input_bytes inputs.now) }
    ensures small { IfOk result (λ sizes. spec.AreSizes sizes.items) }
    ensures count { IfOk result (λ sizes. length sizes.items ≤ length inputs.now) }
{
    match inputs {
        [] => Ok(Vec::new(alloc)),
        [input, others @ ..] => {
            let mut sizes = input_sizes(alloc, others)?;
            sizes.insert(0, input_bytes(input))?;
            Ok(sizes)
        }
    }
}

/// The bytes of a Func's box, if it is computed at root.
fn root_bytes(level: ComputeLevel, source_box: &Option<SourceBox>) -> u64
    requires { IsBoxOrNone source_box.now }
    ensures is { result ≡ spec.root_bytes level source_box.now }
    ensures small { spec.IsSize result }
{
    match level {
        ComputeLevel::Root => match source_box {
            Some(source_box) => points(source_box) * 4,
            None => 0,
        },
        ComputeLevel::Inlined | ComputeLevel::At(_) | ComputeLevel::Nowhere => 0,
    }
}

/// The bytes of all copies of a Func's box, if it is computed at a loop.
fn private_bytes(level: ComputeLevel, source_box: &Option<SourceBox>) -> u64
    requires { IsBoxOrNone source_box.now }
    ensures is { result ≡ spec.private_bytes level source_box.now }
    ensures small { spec.IsSize result }
{
    match level {
        ComputeLevel::At(_) => match source_box {
            Some(source_box) => points(source_box) * 4 * COPIES,
            None => 0,
        },
        ComputeLevel::Inlined | ComputeLevel::Root | ComputeLevel::Nowhere => 0,
    }
}

/// The bytes of each Func's box, of those computed at root.
#[tactic(auto, unfolding(crate::specs::Layout::AreSizes))]
fn root_sizes(
    alloc: Global,
    standings: &[FuncPlacement],
    boxes: &[Option<SourceBox>],
) -> Result<Vec<u64>, AllocError>
    requires { AreBoxes boxes.now }
    ensures is { IfOk result (λ sizes. sizes.items ≡ spec.root_sizes standings.now boxes.now) }
    ensures small { IfOk result (λ sizes. spec.AreSizes sizes.items) }
    ensures count { IfOk result (λ sizes. length sizes.items ≤ length boxes.now) }
{
    match standings {
        [] => Ok(Vec::new(alloc)),
        [standing, others @ ..] => match boxes {
            [] => Ok(Vec::new(alloc)),
            [own, behind @ ..] => {
                let mut sizes = root_sizes(alloc, others, behind)?;
                sizes.insert(0, root_bytes(standing.place, own))?;
                Ok(sizes)
            }
        },
    }
}

/// The bytes of all copies of each Func's box, of those computed at a loop.
#[tactic(auto, unfolding(crate::specs::Layout::AreSizes))]
fn private_sizes(
    alloc: Global,
    standings: &[FuncPlacement],
    boxes: &[Option<SourceBox>],
) -> Result<Vec<u64>, AllocError>
    requires { AreBoxes boxes.now }
    ensures is { IfOk result (λ sizes. sizes.items ≡ spec.private_sizes standings.now boxes.now) }
    ensures small { IfOk result (λ sizes. spec.AreSizes sizes.items) }
    ensures count { IfOk result (λ sizes. length sizes.items ≤ length boxes.now) }
{
    match standings {
        [] => Ok(Vec::new(alloc)),
        [standing, others @ ..] => match boxes {
            [] => Ok(Vec::new(alloc)),
            [own, behind @ ..] => {
                let mut sizes = private_sizes(alloc, others, behind)?;
                sizes.insert(0, private_bytes(standing.place, own))?;
                Ok(sizes)
            }
        },
    }
}

/// The sum of sizes.
#[tactic(auto, unfolding(crate::specs::Layout::AreSizes))]
fn total(sizes: &[u64]) -> u64
    requires small { spec.AreSizes sizes.now }
    requires few { length sizes.now ≤ 16 }
    ensures is { result ≡ spec.total sizes.now }
    ensures small { result ≤ length sizes.now * 2 ^ 56 }
{
    match sizes {
        [] => 0,
        [size, others @ ..] => *size + total(others),
    }
}

/// The places of parts of these sizes, one after the other.
#[tactic(auto, unfolding(crate::specs::Layout::AreSizes))]
fn placed(alloc: Global, start: u64, sizes: &[u64]) -> Result<Vec<u64>, AllocError>
    requires small { spec.AreSizes sizes.now }
    requires few { start + length sizes.now * 2 ^ 56 ≤ 2 ^ 63 }
    ensures { IfOk result (λ places. places.items ≡ spec.placed start sizes.now) }
{
    match sizes {
        [] => Ok(Vec::new(alloc)),
        [size, others @ ..] => {
            let mut places = placed(alloc, start + *size, others)?;
            places.insert(0, start)?;
            Ok(places)
        }
    }
}

/// How many phases a Func has.
fn phases_of(level: ComputeLevel, func: &Func, source_box: &Option<SourceBox>) -> u64
    requires { spec.HasFewUpdates func.now }
    ensures few { result ≤ 5 }
    ensures is { result ≡ spec.phases_of level func.now source_box.now }
{
    match level {
        ComputeLevel::Root => match source_box {
            Some(_) => func.updates.len() as u64 + 1,
            None => 0,
        },
        ComputeLevel::Inlined | ComputeLevel::At(_) | ComputeLevel::Nowhere => 0,
    }
}

/// How many phases there are.
fn phases(standings: &[FuncPlacement], funcs: &[Func], boxes: &[Option<SourceBox>]) -> u64
    requires updates { spec.HaveFewUpdates funcs.now }
    requires few { length funcs.now ≤ 12 }
    ensures is { result ≡ spec.phases standings.now funcs.now boxes.now }
    ensures few { result ≤ length funcs.now * 5 }
{
    match standings {
        [] => 0,
        [standing, others @ ..] => match funcs {
            [] => 0,
            [func, rest @ ..] => match boxes {
                [] => 0,
                [own, behind @ ..] => {
                    phases_of(standing.place, func, own) + phases(others, rest, behind)
                }
            },
        },
    }
}

/// Where parts of these sizes lie.
#[tactic(auto, unfolding(crate::specs::Layout::laid_in))]
fn laid_in(
    alloc: Global,
    phases: u64,
    inputs: &[u64],
    roots: &[u64],
    privates: &[u64],
    has_frames: bool,
) -> Result<Layout, AllocError>
    requires phases { phases ≤ 60 }
    requires few_inputs { length inputs.now ≤ 4 }
    requires few_roots { length roots.now ≤ 12 }
    requires few_privates { length privates.now ≤ 12 }
    requires inputs { spec.AreSizes inputs.now }
    requires roots { spec.AreSizes roots.now }
    requires privates { spec.AreSizes privates.now }
    ensures { IfOk result (λ layout. layout ≡ spec.laid_in phases inputs.now roots.now privates.now has_frames) }
{
    let inputs_at = DATA_START + 8 * phases;
    let roots_at = inputs_at + total(inputs);
    let privates_at = roots_at + total(roots);
    let frames = privates_at + total(privates);
    let frame_bytes = if has_frames { COPIES * FRAME } else { 0 };
    Ok(Layout {
        phases,
        inputs: Items::from_vec(placed(alloc, inputs_at, inputs)?),
        roots: Items::from_vec(placed(alloc, roots_at, roots)?),
        privates: Items::from_vec(placed(alloc, privates_at, privates)?),
        frames,
        has_frames,
        size: frames - DATA_START + frame_bytes,
    })
}

/// Where the data lie, for Funcs with these boxes.
pub fn laid_out(
    pipeline: &Pipeline,
    schedule: &Schedule,
    boxes: &[Option<SourceBox>],
    alloc: Global,
) -> Result<Layout, AllocError>
    requires boxes { AreBoxes boxes.now }
    requires few { length boxes.now ≤ 12 }
    requires inputs { spec.AreInputs pipeline.now.inputs }
    requires updates { spec.HaveFewUpdates pipeline.now.funcs }
    ensures { IfOk result (λ layout. layout ≡ spec.laid_out pipeline.now schedule.now boxes.now) }
{
    let standings = schedule.standings.as_slice();
    let count = phases(standings, pipeline.funcs(), boxes);
    let inputs = input_sizes(alloc, pipeline.inputs())?;
    let roots = root_sizes(alloc, standings, boxes)?;
    let privates = private_sizes(alloc, standings, boxes)?;
    let has_frames = needs(pipeline, schedule, alloc)?.has_frames();
    let layout = laid_in(
        alloc,
        count,
        inputs.as_slice(),
        roots.as_slice(),
        privates.as_slice(),
        has_frames,
    )?;
    Ok(layout)
}
