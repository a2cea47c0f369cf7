//! Updates that are run before the table of their Func is filled, by as many threads as there are processors.

ghost use Rattle.std.specs.Prelude.{◌≡◌, ◌+◌, Some, slice_get, IfOk, OnOk, true};
ghost use Rattle.picture.specs.Slices.{is_forward};
ghost use Rattle.picture.specs.inner.Evaluation.{stage_in, AreBoxes, AreKnownOf, AreSlicesOf, AreTables, AreTablesOf};
ghost use Rattle.picture.specs.inner.Evaluation.{IsKnown, IsMemo, IsPass, IsSliceOf, IsTable};
ghost use Rattle.picture.specs.inner.Together.{IsSide};

use crate::asking::prepare_slices;
use crate::boxes::{NO_BOUNDS, NO_SLICES, Slices, TableBounds, WantedPoints, box_of, slices_of};
use crate::keeping::needs_kept;
use crate::lines::Along;
use crate::lookups::func_at;
use crate::memos::Memo;
use crate::points::is_forward;
use crate::scenes::{Pass, Scene, Slice, Table, UpdatedPixels};
use crate::together::{run_box, side_of};
use crate::update_runs::run_rows;
use halide_pipeline::{Func, words};
use rayon::prelude::*;
use std::alloc::AllocError;
use std::thread::Threads;

/// What an update comes to on the slice with this number.
fn numbered_slice(
    scene: &Scene,
    pass: Pass,
    wanted: Slices,
    number: usize,
) -> Result<Slice, AllocError>
    requires tables { AreTables scene.now }
    requires pass { IsPass scene.now pass }
    requires forward { is_forward pass.update.now ≡ true }
    ensures { IfOk result (IsSliceOf scene.now.funcs.now scene.now.pictures.now pass.entry.own pass.entry.updates) }
{
    let step = (number % (1 << 32)) as u32;
    let x = words::add(wanted.left, step);
    let y = words::add(wanted.top, step);
    let slice = run_rows(scene, pass, x, y)?;
    Ok(slice)
}

/// What an update comes to on slices, each one further than the one before it.
fn run_slices(
    rt: &(impl Threads + Sync),
    scene: &Scene,
    pass: Pass,
    wanted: Slices,
) -> Result<Vec<Slice>, AllocError>
    requires tables { AreTables scene.now }
    requires pass { IsPass scene.now pass }
    requires forward { is_forward pass.update.now ≡ true }
    ensures { IfOk result (λ slices. AreSlicesOf scene.now.funcs.now scene.now.pictures.now pass.entry.own
        pass.entry.updates slices.items) }
{
    let scene = *scene;
    let slices: Result<Vec<Slice>, AllocError> = (0..wanted.count as usize)
        .into_par_iter()
        .map(
            move |number: usize| -> Result<Slice, AllocError>
                requires { AreTables scene × IsPass scene pass × (is_forward pass.update.now ≡ true) }
                ensures { IfOk result (IsSliceOf scene.entry.funcs.now scene.entry.pictures.now pass.entry.own
                    pass.entry.updates) }
            { numbered_slice(&scene, pass, wanted, number) },
        )
        .collect(rt, scene.alloc)?;
    slices
}

/// What an update comes to in the part with this number of a box.
fn numbered_box(
    scene: &Scene,
    pass: Pass,
    along: Along,
    area: TableBounds,
    number: usize,
) -> Result<Table, AllocError>
    requires tables { AreTables scene.now }
    requires pass { IsPass scene.now pass }
    requires side { IsSide pass.update.now along }
    ensures { IfOk result (IsTable (stage_in scene.now.funcs.now scene.now.pictures.now pass.entry.own
        (pass.entry.updates + 1))) }
{
    let part = area.part(along, (number % (1 << 32)) as u32);
    let table = run_box(scene, pass, along, part)?;
    Ok(table)
}

/// What an update comes to in the parts of a box, each one after the one before it.
fn run_boxes(
    rt: &(impl Threads + Sync),
    scene: &Scene,
    pass: Pass,
    along: Along,
    area: TableBounds,
) -> Result<Vec<Table>, AllocError>
    requires tables { AreTables scene.now }
    requires pass { IsPass scene.now pass }
    requires side { IsSide pass.update.now along }
    ensures { IfOk result (λ boxes. AreBoxes (stage_in scene.now.funcs.now scene.now.pictures.now pass.entry.own
        (pass.entry.updates + 1)) boxes.items) }
{
    let scene = *scene;
    let boxes: Result<Vec<Table>, AllocError> = (0..area.parts(along) as usize)
        .into_par_iter()
        .map(
            move |number: usize| -> Result<Table, AllocError>
                requires { AreTables scene × IsPass scene pass × IsSide pass.update.now along }
                ensures { IfOk result (IsTable (stage_in scene.entry.funcs.now scene.entry.pictures.now pass.entry.own
                    (pass.entry.updates + 1))) }
            { numbered_box(&scene, pass, along, area, number) },
        )
        .collect(rt, scene.alloc)?;
    boxes
}

/// What an update comes to in a box, where its slices are run together; else nothing.
fn boxes_of(
    rt: &(impl Threads + Sync),
    scene: &Scene,
    pass: Pass,
    area: TableBounds,
) -> Result<Vec<Table>, AllocError>
    requires tables { AreTables scene.now }
    requires pass { IsPass scene.now pass }
    ensures { IfOk result (λ boxes. AreBoxes (stage_in scene.now.funcs.now scene.now.pictures.now pass.entry.own
        (pass.entry.updates + 1)) boxes.items) }
{
    if area.height > 0
        && let Some(along) = side_of(pass.update)
    {
        let boxes = run_boxes(rt, scene, pass, along, area)?;
        return Ok(boxes);
    }
    Ok(Vec::new(scene.alloc))
}

/// Whether an update has run in each part of a box.
fn are_whole(boxes: &[Table]) -> bool {
    !boxes.is_empty() && boxes.iter().all(|own_box: &Table| own_box.height > 0)
}

/// What an update comes to in a box, or on slices where it can't be run there.
fn known_pass(
    rt: &(impl Threads + Sync),
    scene: &Scene,
    pass: Pass,
    area: TableBounds,
    wanted: Slices,
) -> Result<UpdatedPixels, AllocError>
    requires tables { AreTables scene.now }
    requires pass { IsPass scene.now pass }
    requires forward { is_forward pass.update.now ≡ true }
    ensures known { IfOk result (λ one. IsKnown scene.now.funcs.now scene.now.pictures.now one.own one.updates one) }
{
    let boxes = boxes_of(rt, scene, pass, area)?;
    let left = if are_whole(&boxes) { NO_SLICES } else { wanted };
    let slices = run_slices(rt, scene, pass, left)?;
    Ok(UpdatedPixels {
        own: pass.own,
        updates: pass.updates,
        slices,
        boxes,
    })
}

/// Adds what an update comes to where that is wanted.
fn know_update(
    rt: &(impl Threads + Sync),
    scene: &Scene,
    pass: Pass,
    wanted: WantedPoints,
    known: &mut Vec<UpdatedPixels>,
    memo: &mut Memo,
) -> Result<(), AllocError>
    requires tables { AreTablesOf scene.now.funcs.now scene.now.pictures.now scene.now.tables.now }
    requires known { AreKnownOf scene.now.funcs.now scene.now.pictures.now known.old.items }
    requires memo { IsMemo scene.now.funcs.now scene.now.pictures.now memo.old }
    requires pass { IsPass scene.now pass }
    requires forward { is_forward pass.update.now ≡ true }
    ensures known { OnOk result (AreKnownOf scene.now.funcs.now scene.now.pictures.now known.new.items) }
    ensures memo { OnOk result (IsMemo scene.now.funcs.now scene.now.pictures.now memo.new) }
{
    let slices = slices_of(wanted, pass.func, pass.updates, pass.update);
    let before = Scene {
        known: known.as_slice(),
        ..*scene
    };
    prepare_slices(&before, pass.own, pass.func, slices, memo)?;
    let area = if needs_kept(scene.costs, pass.own) {
        NO_BOUNDS
    } else {
        box_of(wanted, pass.func, pass.updates, pass.update)
    };
    let now = Scene {
        known: known.as_slice(),
        memo,
        ..*scene
    };
    let one = known_pass(rt, &now, pass, area, slices)?;
    known.push(one)?;
    Ok(())
}

/// Adds what the updates of the Func at a place come to where that is wanted.
pub(crate) fn know_wanted(
    rt: &(impl Threads + Sync),
    scene: &Scene,
    func_index: usize,
    wanted: WantedPoints,
    known: &mut Vec<UpdatedPixels>,
    memo: &mut Memo,
) -> Result<(), AllocError>
    requires tables { AreTablesOf scene.now.funcs.now scene.now.pictures.now scene.now.tables.now }
    requires known { AreKnownOf scene.now.funcs.now scene.now.pictures.now known.old.items }
    requires memo { IsMemo scene.now.funcs.now scene.now.pictures.now memo.old }
    ensures known { OnOk result (AreKnownOf scene.now.funcs.now scene.now.pictures.now known.new.items) }
    ensures memo { OnOk result (IsMemo scene.now.funcs.now scene.now.pictures.now memo.new) }
{
    let Some(func) = func_at(scene.funcs, func_index) else {
        return Ok(());
    };
    if !wanted.is_wanted() {
        return Ok(());
    }
    for (updates, update) in func.updates.as_slice().iter().enumerate() {
        let pass = Pass {
            own: func_index,
            func,
            updates,
            update,
        };
        if is_forward(update) {
            know_update(rt, scene, pass, wanted, known, memo)?;
        }
    }
    Ok(())
}
