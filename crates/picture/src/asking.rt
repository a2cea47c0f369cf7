//! Pixels that are kept one by one, found before they are needed: a definition is computed as far as what it reads is
//! known; what isn't is asked for, and computed so before it. Each pixel is computed once, however often it is read.

ghost use Rattle.std.specs.Prelude.{◌≡◌, ℕ, [], Some, IfOk, IfSome, OnOk, slice_get};
ghost use Rattle.halide_pipeline.specs.Pixel as spec;
ghost use Rattle.halide_pipeline.specs.Words as word;
ghost use Rattle.picture.specs.inner.Evaluation.{plane_of, reads_in, AreTables, AreTablesOf, AreKnownOf, IsMemo};
ghost use Rattle.picture.specs.declared.scenes.FuncState.TheVariants as states;

use crate::boxes::{Slices, TableBounds};
use crate::keeping::{is_kept, needs_kept};
use crate::lookups::{func_at, has_run, known_pixel};
use crate::memos::Memo;
use crate::plain::{pixel, read};
use crate::points::{at_point, at_reduction, points, variable};
use crate::scenes::{FuncState, Scene};
use halide_pipeline::{Environment, Expr, Func, Operation, Source, Update, words};
use std::alloc::AllocError;

/// A pixel that is asked for.
#[derive(Clone, Copy)]
struct AskedPixel {
    place: usize,
    x: u32,
    y: u32,
}

/// Reads stand in the indices of others at most so deep.
const MOST_DEPTH: usize = 512;

/// Whether a pixel has to be kept before it is read.
fn is_missing(scene: &Scene, func_index: usize, x: u32, y: u32) -> bool
    requires tables { AreTables scene.now }
{
    is_kept(scene.costs, func_index) && known_pixel(scene, func_index, x, y).is_none()
}

/// What a read answers in the pure definition of the Func at a place; none where that is asked for.
fn ask(
    scene: &Scene,
    func_index: usize,
    source: Source,
    x: u32,
    y: u32,
    asked: &mut Vec<AskedPixel>,
) -> Result<Option<u32>, AllocError>
    requires tables { AreTables scene.now }
    ensures { IfOk result (λ found. IfSome found (λ pixel. pixel ≡ reads_in scene.now func_index states.Earlier source x
        y)) }
{
    if let Source::Func(source_index) = source {
        if source_index >= func_index {
            return Ok(None);
        }
        if is_missing(scene, source_index, x, y) {
            asked.push(AskedPixel {
                place: source_index,
                x,
                y,
            })?;
            return Ok(None);
        }
    }
    let pixel = read(scene, func_index, FuncState::Earlier, source, x, y)?;
    Ok(Some(pixel))
}

/// The same where the indices are known.
fn ask_at(
    scene: &Scene,
    func_index: usize,
    source: Source,
    x: Option<u32>,
    y: Option<u32>,
    asked: &mut Vec<AskedPixel>,
) -> Result<Option<u32>, AllocError>
    requires tables { AreTables scene.now }
    ensures { (column row : ℕ) → IfSome x (λ v. v ≡ column) → IfSome y (λ v. v ≡ row)
        → IfOk result (λ found. IfSome found (λ pixel. pixel ≡ reads_in scene.now func_index states.Earlier source
        column
        row)) }
{
    let Some(x) = x else {
        return Ok(None);
    };
    let Some(y) = y else {
        return Ok(None);
    };
    let pixel = ask(scene, func_index, source, x, y, asked)?;
    Ok(pixel)
}

/// What an operation makes of two sides, where both are known.
fn both(operation: Operation, a: Option<u32>, b: Option<u32>) -> Option<u32>
    ensures { (first second : ℕ) → IfSome a (λ v. v ≡ first) → IfSome b (λ v. v ≡ second)
        → IfSome result (λ v. v ≡ word.applied operation first second) }
{
    let Some(a) = a else {
        return None;
    };
    let Some(b) = b else {
        return None;
    };
    Some(operation.apply(a, b))
}

/// A quotient, where the number is known.
fn quotient(a: Option<u32>, divisor: u32) -> Option<u32>
    ensures { (first : ℕ) → IfSome a (λ v. v ≡ first) → IfSome result (λ v. v ≡ word.divide first divisor) }
{
    let Some(a) = a else {
        return None;
    };
    Some(words::divide(a, divisor))
}

/// A remainder, where the number is known.
fn remainder(a: Option<u32>, divisor: u32) -> Option<u32>
    ensures { (first : ℕ) → IfSome a (λ v. v ≡ first) → IfSome result (λ v. v ≡ word.remainder first divisor) }
{
    let Some(a) = a else {
        return None;
    };
    Some(words::remainder(a, divisor))
}

/// The value of an expression in the pure definition of the Func at a place; none where it reads what isn't known, all
/// of which is asked for, as far as it can be told.
#[tactic(auto, unfolding(halide_pipeline::specs::Pixel::value))]
fn attempt(
    scene: &Scene,
    func_index: usize,
    environment: &Environment,
    expr: &Expr,
    asked: &mut Vec<AskedPixel>,
) -> Result<Option<u32>, AllocError>
    requires tables { AreTables scene.now }
    ensures { IfOk result (λ found. IfSome found (λ v. v ≡ spec.value (reads_in scene.now func_index states.Earlier)
        environment.now expr.now)) }
{
    match expr {
        Expr::Number(number) => Ok(Some(*number)),
        Expr::Variable(own_variable) => Ok(Some(variable(environment, *own_variable))),
        Expr::Binary(operation, a, b) => {
            let a = attempt(scene, func_index, environment, a.get(), asked)?;
            let b = attempt(scene, func_index, environment, b.get(), asked)?;
            Ok(both(*operation, a, b))
        }
        Expr::Divide(a, divisor) => {
            let a = attempt(scene, func_index, environment, a.get(), asked)?;
            Ok(quotient(a, *divisor))
        }
        Expr::Remainder(a, divisor) => {
            let a = attempt(scene, func_index, environment, a.get(), asked)?;
            Ok(remainder(a, *divisor))
        }
        Expr::Select(condition, a, b) => {
            let condition = attempt(scene, func_index, environment, condition.get(), asked)?;
            let Some(condition) = condition else {
                return Ok(None);
            };
            let chosen = if condition == 0 { b } else { a };
            let chosen = attempt(scene, func_index, environment, chosen.get(), asked)?;
            Ok(chosen)
        }
        Expr::Call1(source, x) => {
            let x = attempt(scene, func_index, environment, x.get(), asked)?;
            let pixel = ask_at(scene, func_index, *source, x, Some(0), asked)?;
            Ok(pixel)
        }
        Expr::Call2(source, x, y) => {
            let x = attempt(scene, func_index, environment, x.get(), asked)?;
            let y = attempt(scene, func_index, environment, y.get(), asked)?;
            let pixel = ask_at(scene, func_index, *source, x, y, asked)?;
            Ok(pixel)
        }
    }
}

/// Asks for what a point of an update reads.
fn ask_point(
    scene: &Scene,
    func_index: usize,
    update: &Update,
    point: &Environment,
    asked: &mut Vec<AskedPixel>,
) -> Result<(), AllocError>
    requires tables { AreTables scene.now }
{
    attempt(scene, func_index, point, &update.left_x, asked)?;
    if let Some(left_y) = &update.left_y {
        attempt(scene, func_index, point, left_y, asked)?;
    }
    attempt(scene, func_index, point, &update.right, asked)?;
    Ok(())
}

/// Asks for what an update reads where it runs for a point, unless it has run there.
fn ask_update(
    scene: &Scene,
    updates: usize,
    update: &Update,
    top: AskedPixel,
    asked: &mut Vec<AskedPixel>,
) -> Result<(), AllocError>
    requires tables { AreTables scene.now }
{
    if has_run(scene.known, top.place, updates, top.x, top.y) {
        return Ok(());
    }
    for number in 0..points(update) {
        let point = at_reduction(update, number, top.x, top.y);
        ask_point(scene, top.place, update, &point, asked)?;
    }
    Ok(())
}

/// Asks for what the updates of a Func read where they run for a point.
fn ask_updates(
    scene: &Scene,
    func: &Func,
    top: AskedPixel,
    asked: &mut Vec<AskedPixel>,
) -> Result<(), AllocError>
    requires tables { AreTables scene.now }
{
    for (updates, update) in func.updates.as_slice().iter().enumerate() {
        ask_update(scene, updates, update, top, asked)?;
    }
    Ok(())
}

/// Asks for all that a pixel of a Func depends on.
fn ask_all(
    scene: &Scene,
    func: &Func,
    top: AskedPixel,
    asked: &mut Vec<AskedPixel>,
) -> Result<(), AllocError>
    requires tables { AreTables scene.now }
{
    let point = at_point(top.x, top.y);
    attempt(scene, top.place, &point, &func.pure, asked)?;
    ask_updates(scene, func, top, asked)?;
    Ok(())
}

/// A pixel of a Func without updates; none where it reads what isn't known, which is asked for.
#[tactic(auto, unfolding(halide_pipeline::specs::Pixel::stage))]
fn attempt_pixel(
    scene: &Scene,
    func: &Func,
    top: AskedPixel,
    asked: &mut Vec<AskedPixel>,
) -> Result<Option<u32>, AllocError>
    requires tables { AreTables scene.now }
    requires is { slice_get scene.now.funcs.now top.place ≡ Some func.now }
    requires pure { func.now.updates ≡ [] }
    ensures { IfOk result (λ found. IfSome found (λ v. v ≡ plane_of scene.now top.place top.x top.y)) }
{
    let point = at_point(top.x, top.y);
    let pixel = attempt(scene, top.place, &point, &func.pure, asked)?;
    Ok(pixel)
}

/// A pixel that is asked for; none where it depends on what isn't known, which is asked for.
fn computed(
    scene: &Scene,
    top: AskedPixel,
    asked: &mut Vec<AskedPixel>,
) -> Result<Option<u32>, AllocError>
    requires tables { AreTables scene.now }
    ensures { IfOk result (λ found. IfSome found (λ v. v ≡ plane_of scene.now top.place top.x top.y)) }
{
    let Some(func) = func_at(scene.funcs, top.place) else {
        return Ok(None);
    };
    if func.updates.is_empty() {
        let pixel = attempt_pixel(scene, func, top, asked)?;
        return Ok(pixel);
    }
    let before = asked.len();
    ask_all(scene, func, top, asked)?;
    if asked.len() > before {
        return Ok(None);
    }
    let pixel = pixel(scene, top.place, top.x, top.y)?;
    Ok(Some(pixel))
}

/// Goes on with the pixel that was asked for last: it is kept, or what it depends on is asked for.
#[tactic(auto, using(crate::proofs::Kept::one_more_kept))]
fn settle_one(
    scene: &Scene,
    top: AskedPixel,
    asked: &mut Vec<AskedPixel>,
    memo: &mut Memo,
) -> Result<(), AllocError>
    requires tables { AreTablesOf scene.now.funcs.now scene.now.pictures.now scene.now.tables.now }
    requires known { AreKnownOf scene.now.funcs.now scene.now.pictures.now scene.now.known.now }
    requires memo { IsMemo scene.now.funcs.now scene.now.pictures.now memo.old }
    ensures { OnOk result (IsMemo scene.now.funcs.now scene.now.pictures.now memo.new) }
{
    let now = Scene { memo, ..*scene };
    if !is_missing(&now, top.place, top.x, top.y) {
        asked.pop();
        return Ok(());
    }
    let before = asked.len();
    match computed(&now, top, asked)? {
        Some(pixel) => {
            asked.pop();
            memo.set(top.place, top.x, top.y, pixel)?;
            Ok(())
        }
        None => {
            if asked.len() == before {
                asked.pop();
            }
            Ok(())
        }
    }
}

/// Keeps all pixels that are asked for, as far as they can be kept.
fn settle(scene: &Scene, asked: &mut Vec<AskedPixel>, memo: &mut Memo) -> Result<(), AllocError>
    requires tables { AreTablesOf scene.now.funcs.now scene.now.pictures.now scene.now.tables.now }
    requires known { AreKnownOf scene.now.funcs.now scene.now.pictures.now scene.now.known.now }
    requires memo { IsMemo scene.now.funcs.now scene.now.pictures.now memo.old }
    ensures { OnOk result (IsMemo scene.now.funcs.now scene.now.pictures.now memo.new) }
{
    for _ in 0..u64::MAX {
        match asked.last().copied() {
            Some(top) if !memo.is_full() => {
                settle_one(scene, top, asked, memo)?;
            }
            _ => break,
        }
    }
    asked.clear();
    Ok(())
}

/// Keeps what a pixel of a Func depends on. Reads that stand in indices of others are asked for one after the other.
fn prepare_point(
    scene: &Scene,
    func: &Func,
    top: AskedPixel,
    memo: &mut Memo,
) -> Result<(), AllocError>
    requires tables { AreTablesOf scene.now.funcs.now scene.now.pictures.now scene.now.tables.now }
    requires known { AreKnownOf scene.now.funcs.now scene.now.pictures.now scene.now.known.now }
    requires memo { IsMemo scene.now.funcs.now scene.now.pictures.now memo.old }
    ensures { OnOk result (IsMemo scene.now.funcs.now scene.now.pictures.now memo.new) }
{
    let mut asked = Vec::new(scene.alloc);
    for _ in 0..MOST_DEPTH {
        let now = Scene { memo, ..*scene };
        ask_all(&now, func, top, &mut asked)?;
        if asked.is_empty() || memo.is_full() {
            break;
        }
        settle(scene, &mut asked, memo)?;
    }
    Ok(())
}

/// Keeps what the pixels of a Func in a row depend on.
fn prepare_row(
    scene: &Scene,
    func: &Func,
    first: AskedPixel,
    width: u32,
    memo: &mut Memo,
) -> Result<(), AllocError>
    requires tables { AreTablesOf scene.now.funcs.now scene.now.pictures.now scene.now.tables.now }
    requires known { AreKnownOf scene.now.funcs.now scene.now.pictures.now scene.now.known.now }
    requires memo { IsMemo scene.now.funcs.now scene.now.pictures.now memo.old }
    ensures { OnOk result (IsMemo scene.now.funcs.now scene.now.pictures.now memo.new) }
{
    for at in 0..width {
        let x = words::add(first.x, at);
        let top = AskedPixel { x, ..first };
        prepare_point(scene, func, top, memo)?;
    }
    Ok(())
}

/// Keeps what the pixels of the Func at a place in a box depend on.
pub(crate) fn prepare_box(
    scene: &Scene,
    func_index: usize,
    bounds: TableBounds,
    memo: &mut Memo,
) -> Result<(), AllocError>
    requires tables { AreTablesOf scene.now.funcs.now scene.now.pictures.now scene.now.tables.now }
    requires known { AreKnownOf scene.now.funcs.now scene.now.pictures.now scene.now.known.now }
    requires memo { IsMemo scene.now.funcs.now scene.now.pictures.now memo.old }
    ensures { OnOk result (IsMemo scene.now.funcs.now scene.now.pictures.now memo.new) }
{
    let Some(func) = func_at(scene.funcs, func_index) else {
        return Ok(());
    };
    if !needs_kept(scene.costs, func_index) {
        return Ok(());
    }
    for row in 0..bounds.height {
        let y = words::add(bounds.top, row);
        let first = AskedPixel {
            place: func_index,
            x: bounds.left,
            y,
        };
        prepare_row(scene, func, first, bounds.width, memo)?;
    }
    Ok(())
}

/// Keeps what an update of the Func at a place reads on the slices on which it is to run.
pub(crate) fn prepare_slices(
    scene: &Scene,
    func_index: usize,
    func: &Func,
    wanted: Slices,
    memo: &mut Memo,
) -> Result<(), AllocError>
    requires tables { AreTablesOf scene.now.funcs.now scene.now.pictures.now scene.now.tables.now }
    requires known { AreKnownOf scene.now.funcs.now scene.now.pictures.now scene.now.known.now }
    requires memo { IsMemo scene.now.funcs.now scene.now.pictures.now memo.old }
    ensures { OnOk result (IsMemo scene.now.funcs.now scene.now.pictures.now memo.new) }
{
    if !needs_kept(scene.costs, func_index) {
        return Ok(());
    }
    for number in 0..wanted.count {
        let top = AskedPixel {
            place: func_index,
            x: words::add(wanted.left, number),
            y: words::add(wanted.top, number),
        };
        prepare_point(scene, func, top, memo)?;
    }
    Ok(())
}
