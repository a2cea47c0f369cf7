//! Updates, run on a slice row by row of their reduction boxes.

ghost use Rattle.std.specs.Prelude.{◌≡◌, ◌+◌, ◌*◌, ◌<◌, ◌^◌, ℕ, Some, IfOk, IfSome, OnOk, slice_get, true};
ghost use Rattle.halide_pipeline.specs.Pixel as spec;
ghost use Rattle.picture.specs.Slices.{is_forward};
ghost use Rattle.picture.specs.inner.Evaluation.{after_of, inputs_of, earlier_of, AreTables, IsForward, IsPass};
ghost use Rattle.picture.specs.inner.Evaluation.{IsSliceOf};
ghost use Rattle.picture.specs.inner.Lines.{row_point};
ghost use Rattle.picture.specs.inner.UpdateRows.{right_long, right_says, IsOfUpdate, IsStore, IsUpdateRow};
ghost use Rattle.picture.specs.inner.UpdateRows.{Puts};

use crate::plain::{begun, forward_pixel, index_value, value};
use crate::points::{at_reduction, product};
use crate::scenes::{FuncState, Pass, Progress, Scene, Slice};
use crate::update_rows::{Right, UpdateRow, update_row};
use halide_pipeline::{Environment, Update};
use std::alloc::AllocError;

/// What a point of an update stores, and where.
#[derive(Clone, Copy)]
pub(crate) struct UpdateStore {
    x: u32,
    y: u32,
    value: u32,
}

/// The right side at a point of a row.
fn right_value(
    scene: &Scene,
    pass: Pass,
    progress: Progress,
    right: &Right,
    at: usize,
) -> Result<u32, AllocError>
    requires tables { AreTables scene.now }
    requires slice { IsForward scene.now pass.own pass.updates progress.points progress.slice.now }
    requires long { right_long pass.update.now.first.extent right.now }
    requires within { at < pass.update.now.first.extent }
    ensures { IfOk result (λ v. v ≡ right_says right.now (after_of pass.entry.own
        (slice_get scene.now.funcs.now pass.entry.own) (inputs_of scene.now) (earlier_of scene.now pass.entry.own)
        pass.entry.updates progress.entry.points) at) }
{
    let Pass { own, updates, .. } = pass;
    let width = pass.update.first.extent as usize;
    match right {
        Right::Alone(row) => Ok(row.value_at(at, width)),
        Right::First(operation, indices, row) => {
            let (x, y) = indices.point(at, width);
            let own = forward_pixel(scene, own, updates, progress, x, y)?;
            Ok(operation.apply(own, row.value_at(at, width)))
        }
        Right::Second(operation, row, indices) => {
            let (x, y) = indices.point(at, width);
            let own = forward_pixel(scene, own, updates, progress, x, y)?;
            Ok(operation.apply(row.value_at(at, width), own))
        }
    }
}

/// What a point of a row stores.
fn row_store(
    scene: &Scene,
    pass: Pass,
    start: &Environment,
    row: &UpdateRow,
    at: usize,
    progress: Progress,
) -> Result<UpdateStore, AllocError>
    requires tables { AreTables scene.now }
    requires slice { IsForward scene.now pass.own pass.updates progress.points progress.slice.now }
    requires row { IsUpdateRow scene.now pass.own pass.update.now.first.extent start.now pass.update.now row.now }
    requires within { at < pass.update.now.first.extent }
    requires point { spec.at_reduction pass.update.now progress.points progress.slice.now.x progress.slice.now.y
        ≡ row_point start.now at }
    ensures { IfOk result (IsStore scene.now pass.entry.own pass.entry.updates progress.entry.points
        pass.entry.update.now progress.entry.slice.now) }
{
    let width = pass.update.first.extent as usize;
    let value = right_value(scene, pass, progress, &row.right, at)?;
    Ok(UpdateStore {
        x: row.left_x.value_at(at, width),
        y: row.left_y.value_at(at, width),
        value,
    })
}

/// What a point stores.
fn point_store(scene: &Scene, pass: Pass, progress: Progress) -> Result<UpdateStore, AllocError>
    requires tables { AreTables scene.now }
    requires pass { IsPass scene.now pass }
    requires slice { IsForward scene.now pass.own pass.updates progress.points progress.slice.now }
    ensures { IfOk result (IsStore scene.now pass.entry.own pass.entry.updates progress.entry.points
        pass.entry.update.now progress.entry.slice.now) }
{
    let Pass {
        own,
        updates,
        update,
        ..
    } = pass;
    let point = at_reduction(update, progress.points, progress.slice.x, progress.slice.y);
    let x = value(scene, own, FuncState::Earlier, &point, &update.left_x)?;
    let y = index_value(scene, own, &point, &update.left_y)?;
    let state = FuncState::Forward(updates, progress.points, progress.slice);
    let value = value(scene, own, state, &point, &update.right)?;
    Ok(UpdateStore { x, y, value })
}

/// Stores.
fn put(slice: &mut Slice, store: UpdateStore) -> Result<(), AllocError>
    ensures { OnOk result (Puts slice.old slice.new store) }
{
    slice.writes.set(store.x, store.y, store.value)?;
    Ok(())
}

/// What a point stores, from its row where that is known.
fn store_at(
    scene: &Scene,
    pass: Pass,
    start: &Environment,
    row: &Option<UpdateRow>,
    at: usize,
    progress: Progress,
) -> Result<UpdateStore, AllocError>
    requires tables { AreTables scene.now }
    requires pass { IsPass scene.now pass }
    requires slice { IsForward scene.now pass.own pass.updates progress.points progress.slice.now }
    requires row { IfSome row.now (IsUpdateRow scene.now pass.own pass.update.now.first.extent start.now
        pass.update.now) }
    requires within { at < pass.update.now.first.extent }
    requires point { spec.at_reduction pass.update.now progress.points progress.slice.now.x progress.slice.now.y
        ≡ row_point start.now at }
    ensures { IfOk result (IsStore scene.now pass.entry.own pass.entry.updates progress.entry.points
        pass.entry.update.now progress.entry.slice.now) }
{
    match row {
        Some(row) => {
            let store = row_store(scene, pass, start, row, at, progress)?;
            Ok(store)
        }
        None => {
            let store = point_store(scene, pass, progress)?;
            Ok(store)
        }
    }
}

/// Runs the points of a row on a slice, one after the other.
fn apply_row(
    scene: &Scene,
    pass: Pass,
    first: u64,
    start: &Environment,
    values: &Option<UpdateRow>,
    slice: &mut Slice,
) -> Result<(), AllocError>
    requires tables { AreTables scene.now }
    requires pass { IsPass scene.now pass }
    requires forward { is_forward pass.update.now ≡ true }
    requires few { first + 2 ^ 32 < 2 ^ 64 }
    requires values { IfSome values.now (IsUpdateRow scene.now pass.own pass.update.now.first.extent start.now
        pass.update.now) }
    requires points { (at : ℕ) → at < pass.update.now.first.extent
        → spec.at_reduction pass.update.now (first + at) slice.old.x slice.old.y ≡ row_point start.now at }
    requires of { IsOfUpdate pass.update.now slice.old }
    requires run { IsForward scene.now pass.own pass.updates first slice.old }
    ensures of { OnOk result (IsOfUpdate pass.entry.update.now slice.new) }
    ensures run { OnOk result (IsForward scene.now pass.entry.own pass.entry.updates
        (first + pass.entry.update.now.first.extent) slice.new) }
{
    for at in 0..pass.update.first.extent {
        let progress = Progress {
            slice,
            points: first + u64::from(at),
        };
        let store = store_at(scene, pass, start, values, at as usize, progress)?;
        put(slice, store)?;
    }
    Ok(())
}

/// Runs a row of the reduction box on a slice.
fn run_row(scene: &Scene, pass: Pass, row: u32, slice: &mut Slice) -> Result<(), AllocError>
    requires tables { AreTables scene.now }
    requires pass { IsPass scene.now pass }
    requires forward { is_forward pass.update.now ≡ true }
    requires of { IsOfUpdate pass.update.now slice.old }
    requires run { IsForward scene.now pass.own pass.updates (row * pass.update.now.first.extent) slice.old }
    ensures of { OnOk result (IsOfUpdate pass.entry.update.now slice.new) }
    ensures run { OnOk result (IsForward scene.now pass.entry.own pass.entry.updates
        ((row + 1) * pass.entry.update.now.first.extent) slice.new) }
{
    let first = product(row, pass.update.first.extent);
    let start = at_reduction(pass.update, first, slice.x, slice.y);
    let width = pass.update.first.extent as usize;
    let values = update_row(scene, pass.own, &start, width, pass.update)?;
    apply_row(scene, pass, first, &start, &values, slice)?;
    Ok(())
}

/// How many rows a reduction box has.
fn rows(update: &Update) -> u32
    ensures { result ≡ spec.second_extent update.now.second }
{
    match &update.second {
        None => 1,
        Some(reduction) => reduction.extent,
    }
}

/// The slice of a point, when an update has run on it.
pub(crate) fn run_rows(scene: &Scene, pass: Pass, x: u32, y: u32) -> Result<Slice, AllocError>
    requires tables { AreTables scene.now }
    requires pass { IsPass scene.now pass }
    requires forward { is_forward pass.update.now ≡ true }
    ensures { IfOk result (IsSliceOf scene.now.funcs.now scene.now.pictures.now pass.entry.own pass.entry.updates) }
{
    let mut slice = begun(scene, pass, x, y)?;
    for row in 0..rows(pass.update) {
        run_row(scene, pass, row, &mut slice)?;
    }
    Ok(slice)
}
