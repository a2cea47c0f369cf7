//! The pixels of Funcs, one by one, as they are defined.

ghost use Rattle.std.specs.Prelude.{◌≡◌, ◌≤◌, ◌+◌, ◌^◌, IfOk, Some, slice_get, true};
ghost use Rattle.halide_pipeline.specs.Expressions.{nodes};
ghost use Rattle.halide_pipeline.specs.Pixel as spec;
ghost use Rattle.picture.specs.inner.Evaluation.{after_of, all_nodes, earlier_of, index_nodes, inputs_of, plane_of};
ghost use Rattle.picture.specs.inner.Evaluation.{reads_in, stage_in, stage_of, update_nodes};
ghost use Rattle.picture.specs.inner.Evaluation.{AreTables, IsBegun, IsForward, IsPass, IsSliceOf, IsState};
ghost use Rattle.picture.specs.Slices.{is_on, is_forward};
ghost use Rattle.picture.specs.declared.scenes.FuncState.TheVariants as states;

use crate::lookups::{boxed_pixel, func_at, input_pixel, known_pixel, known_slice};
use crate::points::{at_point, at_reduction, is_forward, points, variable};
use crate::scenes::{FuncState, Pass, Progress, Scene, Slice};
use halide_pipeline::{Environment, Expr, Func, Source, Update, words};
use std::alloc::AllocError;

/// The value of an expression in a definition of the Func at a place.
#[cycle(pixel)]
#[tactic(auto, unfolding(halide_pipeline::specs::Pixel::value, halide_pipeline::specs::Expressions::nodes))]
pub(crate) fn value(
    scene: &Scene,
    func_index: usize,
    state: FuncState,
    environment: &Environment,
    expr: &Expr,
) -> Result<u32, AllocError>
    requires tables { AreTables scene.now }
    requires state { IsState scene.now func_index state }
    requires short { nodes expr.now ≤ all_nodes scene.now.funcs.now }
    ensures { IfOk result (λ v. v ≡ spec.value (reads_in scene.now func_index state.entry) environment.now expr.now) }
{
    match expr {
        Expr::Number(number) => Ok(*number),
        Expr::Variable(own_variable) => Ok(variable(environment, *own_variable)),
        Expr::Binary(operation, a, b) => {
            let a = value(scene, func_index, state, environment, a.get())?;
            let b = value(scene, func_index, state, environment, b.get())?;
            Ok(operation.apply(a, b))
        }
        Expr::Divide(a, divisor) => {
            let a = value(scene, func_index, state, environment, a.get())?;
            Ok(words::divide(a, *divisor))
        }
        Expr::Remainder(a, divisor) => {
            let a = value(scene, func_index, state, environment, a.get())?;
            Ok(words::remainder(a, *divisor))
        }
        Expr::Select(condition, a, b) => {
            let condition = value(scene, func_index, state, environment, condition.get())?;
            let chosen = if condition == 0 { b } else { a };
            let chosen = value(scene, func_index, state, environment, chosen.get())?;
            Ok(chosen)
        }
        Expr::Call1(source, x) => {
            let x = value(scene, func_index, state, environment, x.get())?;
            let read = read(scene, func_index, state, *source, x, 0)?;
            Ok(read)
        }
        Expr::Call2(source, x, y) => {
            let x = value(scene, func_index, state, environment, x.get())?;
            let y = value(scene, func_index, state, environment, y.get())?;
            let read = read(scene, func_index, state, *source, x, y)?;
            Ok(read)
        }
    }
}

/// What a read answers in a definition of the Func at a place.
#[cycle(pixel)]
pub(crate) fn read(
    scene: &Scene,
    func_index: usize,
    state: FuncState,
    source: Source,
    x: u32,
    y: u32,
) -> Result<u32, AllocError>
    requires tables { AreTables scene.now }
    requires state { IsState scene.now func_index state }
    ensures { IfOk result (λ v. v ≡ reads_in scene.now func_index state.entry source x y) }
{
    match source {
        Source::Input(source_index) => Ok(input_pixel(scene.pictures, source_index, x, y)),
        Source::Func(source_index) => match state {
            FuncState::Earlier => {
                let pixel = earlier_pixel(scene, func_index, source_index, x, y)?;
                Ok(pixel)
            }
            FuncState::After(updates, number) => {
                if source_index != func_index {
                    let pixel = earlier_pixel(scene, func_index, source_index, x, y)?;
                    return Ok(pixel);
                }
                let pixel = after_of(scene, func_index, updates, number, x, y)?;
                Ok(pixel)
            }
            FuncState::Forward(updates, number, slice) => {
                if source_index != func_index {
                    let pixel = earlier_pixel(scene, func_index, source_index, x, y)?;
                    return Ok(pixel);
                }
                let progress = Progress {
                    slice,
                    points: number,
                };
                let pixel = forward_pixel(scene, func_index, updates, progress, x, y)?;
                Ok(pixel)
            }
        },
    }
}

/// A pixel of the Func at a place after this many whole updates and this many points of the next one, of
/// which a slice is known.
#[cycle(pixel)]
pub(crate) fn forward_pixel(
    scene: &Scene,
    func_index: usize,
    updates: usize,
    progress: Progress,
    x: u32,
    y: u32,
) -> Result<u32, AllocError>
    requires tables { AreTables scene.now }
    requires slice { IsForward scene.now func_index updates progress.points progress.slice.now }
    ensures { IfOk result (λ v. v ≡ after_of func_index (slice_get scene.now.funcs.now func_index) (inputs_of scene.now)
        (earlier_of scene.now func_index) updates progress.entry.points x y) }
{
    if !progress.slice.is_on(x, y) {
        let pixel = after_of(scene, func_index, updates, progress.points, x, y)?;
        return Ok(pixel);
    }
    match progress.slice.writes.get(x, y) {
        Some(pixel) => Ok(pixel),
        None => {
            let pixel = stage_of(scene, func_index, updates, x, y)?;
            Ok(pixel)
        }
    }
}

/// A pixel of the Func at a place after this many whole updates.
#[cycle(pixel)]
fn stage_of(
    scene: &Scene,
    func_index: usize,
    updates: usize,
    x: u32,
    y: u32,
) -> Result<u32, AllocError>
    requires tables { AreTables scene.now }
    ensures { IfOk result (λ v. v ≡ stage_of scene.now func_index updates x y) }
{
    match func_at(scene.funcs, func_index) {
        None => Ok(0),
        Some(func) => {
            let pixel = stage(scene, func_index, func, updates, x, y)?;
            Ok(pixel)
        }
    }
}

/// A pixel of a Func before this place, 0 for all others.
#[cycle(pixel)]
fn earlier_pixel(
    scene: &Scene,
    func_index: usize,
    source_index: usize,
    x: u32,
    y: u32,
) -> Result<u32, AllocError>
    requires tables { AreTables scene.now }
    ensures { IfOk result (λ v. v ≡ earlier_of scene.now func_index source_index x y) }
{
    if source_index >= func_index {
        return Ok(0);
    }
    let pixel = pixel(scene, source_index, x, y)?;
    Ok(pixel)
}

/// A pixel of the Func at a place.
#[cycle(pixel)]
pub(crate) fn pixel(scene: &Scene, func_index: usize, x: u32, y: u32) -> Result<u32, AllocError>
    requires tables { AreTables scene.now }
    ensures { IfOk result (λ v. v ≡ plane_of scene.now func_index x y) }
{
    if let Some(pixel) = known_pixel(scene, func_index, x, y) {
        return Ok(pixel);
    }
    match func_at(scene.funcs, func_index) {
        None => Ok(0),
        Some(func) => {
            let pixel = stage(scene, func_index, func, func.updates.len(), x, y)?;
            Ok(pixel)
        }
    }
}

/// A pixel of a Func after this many whole updates.
#[cycle(pixel)]
#[tactic(auto, unfolding(halide_pipeline::specs::Pixel::stage))]
pub(crate) fn stage(
    scene: &Scene,
    func_index: usize,
    func: &Func,
    updates: usize,
    x: u32,
    y: u32,
) -> Result<u32, AllocError>
    requires tables { AreTables scene.now }
    requires is { slice_get scene.now.funcs.now func_index ≡ Some func.now }
    ensures { IfOk result (λ v. v ≡ spec.stage func_index func.now (inputs_of scene.now)
        (earlier_of scene.now func_index) updates x
        y) }
{
    if updates == 0 {
        let pixel = value(
            scene,
            func_index,
            FuncState::Earlier,
            &at_point(x, y),
            &func.pure,
        )?;
        return Ok(pixel);
    }
    if let Some(pixel) = boxed_pixel(scene.known, func_index, updates - 1, x, y) {
        return Ok(pixel);
    }
    let Some(update) = func.updates.get(updates - 1) else {
        let pixel = stage(scene, func_index, func, updates - 1, x, y)?;
        return Ok(pixel);
    };
    let pass = Pass {
        own: func_index,
        func,
        updates: updates - 1,
        update,
    };
    if is_forward(update) {
        let pixel = over_forward(scene, pass, x, y)?;
        return Ok(pixel);
    }
    let pixel = after(scene, pass, points(update), x, y)?;
    Ok(pixel)
}

/// A pixel of a Func after an update that can be run forward.
#[cycle(pixel)]
fn over_forward(scene: &Scene, pass: Pass, x: u32, y: u32) -> Result<u32, AllocError>
    requires tables { AreTables scene.now }
    requires pass { IsPass scene.now pass }
    requires forward { is_forward pass.update.now ≡ true }
    ensures { IfOk result (λ v. v ≡ stage_in scene.now.funcs.now scene.now.pictures.now pass.entry.own
        (pass.entry.updates + 1) x y) }
{
    if let Some(slice) = known_slice(scene.known, pass.own, pass.updates, x, y) {
        let pixel = over_slice(scene, pass, slice, x, y)?;
        return Ok(pixel);
    }
    let slice = run_forward(scene, pass, x, y)?;
    let pixel = over_slice(scene, pass, &slice, x, y)?;
    Ok(pixel)
}

/// A pixel of a Func after an update, where the update has run on a slice with its point.
#[cycle(pixel)]
fn over_slice(scene: &Scene, pass: Pass, slice: &Slice, x: u32, y: u32) -> Result<u32, AllocError>
    requires tables { AreTables scene.now }
    requires pass { IsPass scene.now pass }
    requires run { IsSliceOf scene.now.funcs.now scene.now.pictures.now pass.own pass.updates slice.now }
    requires on { is_on slice.now x y ≡ true }
    ensures { IfOk result (λ v. v ≡ stage_in scene.now.funcs.now scene.now.pictures.now pass.entry.own
        (pass.entry.updates + 1) x y) }
{
    match slice.writes.get(x, y) {
        Some(pixel) => Ok(pixel),
        None => {
            let pixel = stage(scene, pass.own, pass.func, pass.updates, x, y)?;
            Ok(pixel)
        }
    }
}

/// The slice of a point, when an update begins to run on it. Where both arguments are in place its one pixel is written
/// down, since each read of the own Func is one of it.
#[cycle(pixel)]
pub(crate) fn begun(scene: &Scene, pass: Pass, x: u32, y: u32) -> Result<Slice, AllocError>
    requires tables { AreTables scene.now }
    requires pass { IsPass scene.now pass }
    ensures run { IfOk result (IsForward scene.now pass.entry.own pass.entry.updates 0) }
    ensures place { IfOk result (IsBegun pass.entry.update.now x y) }
{
    let mut slice = Slice::blank(scene.alloc, pass.update, x, y);
    if !slice.is_first_in_place || !slice.is_second_in_place {
        return Ok(slice);
    }
    let pixel = stage(scene, pass.own, pass.func, pass.updates, x, y)?;
    slice.writes.set(x, y, pixel)?;
    Ok(slice)
}

/// The slice of a point, when an update has run on it.
#[cycle(pixel)]
fn run_forward(scene: &Scene, pass: Pass, x: u32, y: u32) -> Result<Slice, AllocError>
    requires tables { AreTables scene.now }
    requires pass { IsPass scene.now pass }
    requires forward { is_forward pass.update.now ≡ true }
    ensures run { IfOk result (IsSliceOf scene.now.funcs.now scene.now.pictures.now pass.entry.own pass.entry.updates) }
    ensures on { IfOk result (λ slice. is_on slice x y ≡ true) }
{
    let mut slice = begun(scene, pass, x, y)?;
    let Pass {
        own,
        updates,
        update,
        ..
    } = pass;
    for number in 0..points(update) {
        let point = at_reduction(update, number, x, y);
        let left_x = value(scene, own, FuncState::Earlier, &point, &update.left_x)?;
        let left_y = index_value(scene, own, &point, &update.left_y)?;
        let state = FuncState::Forward(updates, number, &slice);
        let right = value(scene, own, state, &point, &update.right)?;
        slice.writes.set(left_x, left_y, right)?;
    }
    Ok(slice)
}

/// The value of an index on the left of an update, 0 where it isn't written.
#[cycle(pixel)]
pub(crate) fn index_value(
    scene: &Scene,
    func_index: usize,
    point: &Environment,
    index: &Option<Expr>,
) -> Result<u32, AllocError>
    requires tables { AreTables scene.now }
    requires short { index_nodes index.now ≤ all_nodes scene.now.funcs.now }
    ensures { IfOk result (λ v. v ≡ spec.index_value (reads_in scene.now func_index states.Earlier) point.now index.now) }
{
    match index {
        None => Ok(0),
        Some(index) => {
            let index = value(scene, func_index, FuncState::Earlier, point, index)?;
            Ok(index)
        }
    }
}

/// A pixel of the Func at a place after this many whole updates and this many points of the next one.
#[cycle(pixel)]
fn after_of(
    scene: &Scene,
    func_index: usize,
    updates: usize,
    number: u64,
    x: u32,
    y: u32,
) -> Result<u32, AllocError>
    requires tables { AreTables scene.now }
    ensures { IfOk result (λ v. v ≡ after_of func_index (slice_get scene.now.funcs.now func_index) (inputs_of scene.now)
        (earlier_of scene.now func_index) updates number x y) }
{
    match func_at(scene.funcs, func_index) {
        None => Ok(0),
        Some(func) => match func.updates.get(updates) {
            None => {
                let pixel = stage(scene, func_index, func, updates, x, y)?;
                Ok(pixel)
            }
            Some(update) => {
                let pass = Pass {
                    own: func_index,
                    func,
                    updates,
                    update,
                };
                let pixel = after(scene, pass, number, x, y)?;
                Ok(pixel)
            }
        },
    }
}

/// A pixel of a Func after this many whole updates and this many points of this next one.
#[cycle(pixel)]
#[tactic(auto, unfolding(halide_pipeline::specs::Pixel::after))]
fn after(scene: &Scene, pass: Pass, number: u64, x: u32, y: u32) -> Result<u32, AllocError>
    requires tables { AreTables scene.now }
    requires pass { IsPass scene.now pass }
    ensures { IfOk result (λ v. v ≡ spec.after pass.entry.own pass.entry.update.now (inputs_of scene.now)
        (earlier_of scene.now pass.entry.own) (spec.stage pass.entry.own pass.entry.func.now (inputs_of scene.now)
        (earlier_of scene.now pass.entry.own) pass.entry.updates) number x y) }
{
    if number == 0 {
        let pixel = stage(scene, pass.own, pass.func, pass.updates, x, y)?;
        return Ok(pixel);
    }
    let point = at_reduction(pass.update, number - 1, x, y);
    if is_hit(scene, pass.own, pass.update, &point)? {
        let state = FuncState::After(pass.updates, number - 1);
        let pixel = value(scene, pass.own, state, &point, &pass.update.right)?;
        return Ok(pixel);
    }
    let pixel = after(scene, pass, number - 1, x, y)?;
    Ok(pixel)
}

/// Whether the left side of an update at a point is the wanted point.
#[cycle(pixel)]
fn is_hit(
    scene: &Scene,
    func_index: usize,
    update: &Update,
    point: &Environment,
) -> Result<bool, AllocError>
    requires tables { AreTables scene.now }
    requires short { update_nodes update.now ≤ all_nodes scene.now.funcs.now }
    ensures { IfOk result (λ hit. hit ≡ spec.is_hit (reads_in scene.now func_index states.Earlier) update.now point.now) }
{
    let left_x = value(scene, func_index, FuncState::Earlier, point, &update.left_x)?;
    if left_x != point.first_argument {
        return Ok(false);
    }
    match &update.left_y {
        None => Ok(point.second_argument == 0),
        Some(left_y) => {
            let left_y = value(scene, func_index, FuncState::Earlier, point, left_y)?;
            Ok(left_y == point.second_argument)
        }
    }
}
