//! Updates that hold for each pixel of a row, run along rows of pixels: at each point of the reduction box what is there
//! there is computed for all pixels at once, from what was there before.

ghost use Rattle.std.specs.Prelude.{◌≡◌, ◌+◌, ◌<◌, ◌^◌, IfOk, IfSome, Some, length, slice_get, true};
ghost use Rattle.halide_pipeline.specs.Pixel as spec;
ghost use Rattle.halide_pipeline.specs.declared.environments.Environment.{Environment as EnvironmentState};
ghost use Rattle.picture.specs.inner.Evaluation.{inputs_of, earlier_of, stage_in, AreTables};
ghost use Rattle.picture.specs.inner.PixelRows.{one_more, IsRowOf, StoresEverywhere};

use crate::line_values::shared_row;
use crate::lines::{Along, KnownPixels, PointLine};
use crate::lookups::{has_boxes, known_box};
use crate::plain::stage;
use crate::points::{at_point, at_reduction, points};
use crate::row_reads::table_window;
use crate::scenes::{Scene, Table};
use halide_pipeline::{Expr, Func, Source, Update, Variable, words};
use std::alloc::AllocError;

/// Whether there is a table of each Func but this one that an expression reads. Where there isn't, only what a point
/// needs is to be computed: of a choice one side alone, and each pixel once.
fn reads_tables(tables: &[Table], func_index: usize, expr: &Expr) -> bool {
    match expr {
        Expr::Number(_) => true,
        Expr::Variable(_) => true,
        Expr::Binary(_, a, b) => reads_tables(tables, func_index, a.get())
            && reads_tables(tables, func_index, b.get()),
        Expr::Divide(a, _) => reads_tables(tables, func_index, a.get()),
        Expr::Remainder(a, _) => reads_tables(tables, func_index, a.get()),
        Expr::Select(condition, a, b) => {
            reads_tables(tables, func_index, condition.get())
                && reads_tables(tables, func_index, a.get())
                && reads_tables(tables, func_index, b.get())
        }
        Expr::Call1(source, x) => has_table(tables, func_index, *source)
            && reads_tables(tables, func_index, x.get()),
        Expr::Call2(source, x, y) => {
            has_table(tables, func_index, *source)
                && reads_tables(tables, func_index, x.get())
                && reads_tables(tables, func_index, y.get())
        }
    }
}

/// Whether the pixels that are wanted of a source are known, or it is this Func.
fn has_table(tables: &[Table], func_index: usize, source: Source) -> bool {
    match source {
        Source::Input(_) => true,
        Source::Func(source_index) => match tables.get(source_index) {
            None => source_index == func_index,
            Some(table) => table.height > 0,
        },
    }
}

/// Pixels one beside the other, from this one on.
#[derive(Clone, Copy)]
pub(crate) struct PixelSpan {
    pub left: u32,
    pub y: u32,
    pub width: usize,
}

/// Whether a variable is the first argument.
fn is_first_argument(variable: Variable) -> bool
    ensures { result ≡ true → variable ≡ Variable.FirstArgument }
{
    match variable {
        Variable::FirstArgument => true,
        _ => false,
    }
}

/// Whether a variable is the second argument.
fn is_second_argument(variable: Variable) -> bool
    ensures { result ≡ true → variable ≡ Variable.SecondArgument }
{
    match variable {
        Variable::SecondArgument => true,
        _ => false,
    }
}

/// Whether an expression is the first argument.
pub(crate) fn is_first(expr: &Expr) -> bool
    ensures { result ≡ true → (reads : spec.Reads) (point : EnvironmentState) → spec.value reads point expr.now
        ≡ point.first_argument }
{
    match expr {
        Expr::Variable(variable) => is_first_argument(*variable),
        _ => false,
    }
}

/// Whether an expression is the second argument.
pub(crate) fn is_second(expr: &Expr) -> bool
    ensures { result ≡ true → (reads : spec.Reads) (point : EnvironmentState) → spec.value reads point expr.now
        ≡ point.second_argument }
{
    match expr {
        Expr::Variable(variable) => is_second_argument(*variable),
        _ => false,
    }
}

/// Whether an index that may be written is this row's wherever the second argument is.
fn is_in_row(index: &Option<Expr>, y: u32) -> bool
    ensures { result ≡ true → (reads : spec.Reads) (point : EnvironmentState) → point.second_argument ≡ y
        → spec.index_value reads point index.now ≡ y }
{
    match index {
        None => y == 0,
        Some(index) => is_second(index),
    }
}

/// Whether an update stores at each pixel of a row, at each point of its reduction box.
fn stores_everywhere(update: &Update, y: u32) -> bool
    ensures { result ≡ true → StoresEverywhere update.now y }
{
    is_first(&update.left_x) && is_in_row(&update.left_y, y)
}

/// Whether an update is run along rows of pixels.
fn is_quick(tables: &[Table], func_index: usize, update: &Update, y: u32) -> bool
    ensures { result ≡ true → StoresEverywhere update.now y }
{
    reads_tables(tables, func_index, &update.right) && stores_everywhere(update, y)
}

/// Whether the last update of a Func is run along rows of pixels, or is known of boxes. That is done once: after it a
/// table has the pixels.
fn is_last_quick(scene: &Scene, func_index: usize, func: &Func, y: u32) -> bool {
    match func.updates.as_slice().last() {
        None => false,
        Some(update) => {
            scene.tables.len() <= func_index
                && (is_quick(scene.tables, func_index, update, y)
                    || has_boxes(scene.known, func_index, func.updates.len()))
        }
    }
}

/// What is at pixels after one more point of an update's reduction box; none where it reads the own Func
/// elsewhere.
fn next_row(
    scene: &Scene,
    func_index: usize,
    update: &Update,
    number: u64,
    stretch: PixelSpan,
    before: &[u32],
) -> Result<Option<Vec<u32>>, AllocError>
    requires tables { AreTables scene.now }
    requires narrow { stretch.width < 2 ^ 32 }
    requires long { length before.now ≡ stretch.width }
    ensures len { IfOk result (λ found. IfSome found (λ pixels. length pixels.items ≡ stretch.width)) }
    ensures values { (plane : spec.Plane) → IsRowOf plane stretch before.now
        → IfOk result (λ found. IfSome found (λ pixels. IsRowOf (one_more scene.now func_index update.now number plane)
        stretch
        pixels.items)) }
{
    let line = PointLine {
        start: at_reduction(update, number, stretch.left, stretch.y),
        along: Along::Columns,
        width: stretch.width,
        own: KnownPixels::Pixels(before),
    };
    let Some(row) = shared_row(scene, func_index, line, &update.right)? else {
        return Ok(None);
    };
    let pixels = row.into_values(scene.alloc, stretch.width)?;
    Ok(Some(pixels))
}

/// What is at pixels after an update, from what was there before; none where it reads the own Func elsewhere.
fn over_pixels(
    scene: &Scene,
    func_index: usize,
    update: &Update,
    stretch: PixelSpan,
    before: Vec<u32>,
) -> Result<Option<Vec<u32>>, AllocError>
    requires tables { AreTables scene.now }
    requires everywhere { StoresEverywhere update.now stretch.y }
    requires narrow { stretch.width < 2 ^ 32 }
    requires long { length before.items ≡ stretch.width }
    ensures { (plane : spec.Plane) → IsRowOf plane stretch before.items
        → IfOk result (λ found. IfSome found
        (λ pixels. IsRowOf (spec.after func_index update.now (inputs_of scene.now) (earlier_of scene.now func_index)
        plane
        (spec.points update.now)) stretch pixels.items)) }
{
    let mut pixels = before;
    for number in 0..points(update) {
        let Some(next) = next_row(scene, func_index, update, number, stretch, &pixels)? else {
            return Ok(None);
        };
        pixels = next;
    }
    Ok(Some(pixels))
}

/// Pixels of a Func after this many whole updates, one by one.
fn stages_one_by_one(
    scene: &Scene,
    func_index: usize,
    func: &Func,
    updates: usize,
    stretch: PixelSpan,
) -> Result<Vec<u32>, AllocError>
    requires tables { AreTables scene.now }
    requires is { slice_get scene.now.funcs.now func_index ≡ Some func.now }
    requires narrow { stretch.width < 2 ^ 32 }
    ensures { IfOk result (λ pixels. IsRowOf (spec.stage func_index func.now (inputs_of scene.now)
        (earlier_of scene.now func_index)
        updates) stretch pixels.items) }
{
    let PixelSpan { left, y, width } = stretch;
    let mut pixels = vec![in scene.alloc; 0; width]?;
    for at in 0..width {
        let x = words::add(left, at as u32);
        pixels[at] = stage(scene, func_index, func, updates, x, y)?;
    }
    Ok(pixels)
}

/// Pixels of a Func's pure definition, at once; none where it reads the own Func.
#[tactic(auto, unfolding(halide_pipeline::specs::Pixel::stage))]
fn pure_pixels(
    scene: &Scene,
    func_index: usize,
    func: &Func,
    stretch: PixelSpan,
) -> Result<Option<Vec<u32>>, AllocError>
    requires tables { AreTables scene.now }
    requires narrow { stretch.width < 2 ^ 32 }
    ensures { IfOk result (λ found. IfSome found (λ pixels. IsRowOf
        (spec.stage func_index func.now (inputs_of scene.now)
        (earlier_of scene.now func_index) 0) stretch pixels.items)) }
{
    let line = PointLine {
        start: at_point(stretch.left, stretch.y),
        along: Along::Columns,
        width: stretch.width,
        own: KnownPixels::Nothing,
    };
    let Some(row) = shared_row(scene, func_index, line, &func.pure)? else {
        return Ok(None);
    };
    let pixels = row.into_values(scene.alloc, stretch.width)?;
    Ok(Some(pixels))
}

/// Pixels of a Func after an update, where that has run in a box with all of them.
fn boxed_pixels(
    scene: &Scene,
    func_index: usize,
    updates: usize,
    stretch: PixelSpan,
) -> Result<Option<Vec<u32>>, AllocError>
    requires tables { AreTables scene.now }
    requires narrow { stretch.width < 2 ^ 32 }
    ensures { IfOk result (λ found. IfSome found (λ pixels. IsRowOf (stage_in scene.now.funcs.now
        scene.now.pictures.now func_index (updates + 1)) stretch pixels.items)) }
{
    let PixelSpan { left, y, width } = stretch;
    let Some(own_box) = known_box(scene.known, func_index, updates, left, y) else {
        return Ok(None);
    };
    let Some(pixels) = table_window(own_box, y).columns(left, width) else {
        return Ok(None);
    };
    let pixels = Vec::from_slice(scene.alloc, pixels)?;
    Ok(Some(pixels))
}

/// Pixels of a Func after this many whole updates, at once as far back as each update is run along rows.
pub(crate) fn stage_pixels(
    scene: &Scene,
    func_index: usize,
    func: &Func,
    updates: usize,
    stretch: PixelSpan,
) -> Result<Vec<u32>, AllocError>
    requires tables { AreTables scene.now }
    requires is { slice_get scene.now.funcs.now func_index ≡ Some func.now }
    requires narrow { stretch.width < 2 ^ 32 }
    ensures { IfOk result (λ pixels. IsRowOf (spec.stage func_index func.now (inputs_of scene.now)
        (earlier_of scene.now func_index)
        updates) stretch pixels.items) }
{
    if updates == 0
        && reads_tables(scene.tables, func_index, &func.pure)
        && let Some(pixels) = pure_pixels(scene, func_index, func, stretch)?
    {
        return Ok(pixels);
    }
    if updates > 0
        && let Some(pixels) = boxed_pixels(scene, func_index, updates - 1, stretch)?
    {
        return Ok(pixels);
    }
    if updates > 0
        && let Some(update) = func.updates.get(updates - 1)
        && is_quick(scene.tables, func_index, update, stretch.y)
    {
        let before = stage_pixels(scene, func_index, func, updates - 1, stretch)?;
        if let Some(pixels) = over_pixels(scene, func_index, update, stretch, before)? {
            return Ok(pixels);
        }
    }
    let pixels = stages_one_by_one(scene, func_index, func, updates, stretch)?;
    Ok(pixels)
}

/// Pixels of a Func, where the last part of its definition is computed for all of them at once.
pub(crate) fn pixels_at_once(
    scene: &Scene,
    func_index: usize,
    func: &Func,
    stretch: PixelSpan,
) -> Result<Option<Vec<u32>>, AllocError>
    requires tables { AreTables scene.now }
    requires is { slice_get scene.now.funcs.now func_index ≡ Some func.now }
    requires narrow { stretch.width < 2 ^ 32 }
    ensures { IfOk result (λ found. IfSome found (λ pixels. IsRowOf
        (spec.stage func_index func.now (inputs_of scene.now)
        (earlier_of scene.now func_index) (length func.now.updates)) stretch pixels.items)) }
{
    if func.updates.is_empty() {
        if !reads_tables(scene.tables, func_index, &func.pure) {
            return Ok(None);
        }
        let pixels = pure_pixels(scene, func_index, func, stretch)?;
        return Ok(pixels);
    }
    if !is_last_quick(scene, func_index, func, stretch.y) {
        return Ok(None);
    }
    let pixels = stage_pixels(scene, func_index, func, func.updates.len(), stretch)?;
    Ok(Some(pixels))
}
