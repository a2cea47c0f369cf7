//! The output of a pipeline.

ghost use Rattle.std.specs.Prelude.{◌≡◌, ◌<◌, ◌≤◌, ◌+◌, ◌*◌, ◌/◌, ◌%◌, ◌^◌, ◌==◌, ◌&&◌, ℕ, Ok, Some, None, IfSome};
ghost use Rattle.std.specs.Prelude.{OnOk, slice_get, IfOk, IfErr, true, length, nat_lt, slice_index, ℕ};
ghost use Rattle.std.specs.List.{AllZip, list_all, range_with_len};
ghost use Rattle.halide_pipeline.specs.Pixel.{Plane};
ghost use Rattle.picture.specs.Slices.{is_forward};
ghost use Rattle.picture.specs.Evaluated.{is_size, are_sizes, holds_bytes, hold_bytes, judged, Evaluates};
ghost use Rattle.picture.specs.inner.Evaluation.{plane_of, IsNumberedRow, AreNumberedRows, AreNumbered, AreTables};
ghost use Rattle.picture.specs.inner.Evaluation.{AreTablesOf, AreKnownOf, AreSlicesOf, IsMemo, IsSliceOf, IsTable};
ghost use Rattle.picture.specs.inner.Evaluation.{IsAt};

use crate::asking::prepare_box;
use crate::beforehand::know_wanted;
use crate::boxes::{TableBounds, WantedPoints, bounds_of, find};
use crate::faults::EvalError;
use crate::keeping::costs_of;
use crate::memos::Memo;
use crate::pictures::Picture;
use crate::row_values::pixel_row;
use crate::scenes::{Scene, Table, UpdatedPixels};
use halide_pipeline::{Func, Input, Pipeline, words};
use rayon::prelude::*;
use std::alloc::{AllocError, Global};
use std::thread::Threads;

/// Whether a picture has the size that an input asks for.
fn is_size(input: &Input, picture: &Picture) -> bool
    ensures { result ≡ is_size input.now picture.now }
{
    picture.width() == input.width && picture.height() == input.height
}

/// Whether each picture has.
fn are_sizes(inputs: &[Input], pictures: &[Picture]) -> bool
    ensures { result ≡ are_sizes inputs.now pictures.now }
{
    match inputs {
        [] => true,
        [input, inputs @ ..] => match pictures {
            [] => true,
            [picture, pictures @ ..] => is_size(input, picture) && are_sizes(inputs, pictures),
        },
    }
}

/// Whether each pixel is a byte.
fn are_bytes(pixels: &[u32]) -> bool
    ensures { result ≡ list_all (λ pixel. nat_lt pixel 256) pixels.now }
{
    pixels.iter().all(|pixel| *pixel < 256)
}

/// The same where the input is one of bytes.
fn holds_bytes(input: &Input, picture: &Picture) -> bool
    ensures { result ≡ holds_bytes input.now picture.now }
{
    !input.is_bytes || are_bytes(picture.pixels())
}

/// Whether each picture holds what its input asks for.
fn hold_bytes(inputs: &[Input], pictures: &[Picture]) -> bool
    ensures { result ≡ hold_bytes inputs.now pictures.now }
{
    match inputs {
        [] => true,
        [input, inputs @ ..] => match pictures {
            [] => true,
            [picture, pictures @ ..] => {
                holds_bytes(input, picture) && hold_bytes(inputs, pictures)
            }
        },
    }
}

/// Why pictures aren't those that inputs ask for, if they aren't: their count is judged first, their pixels last.
pub fn judge(inputs: &[Input], pictures: &[Picture]) -> Option<EvalError>
    ensures { result ≡ judged inputs.now pictures.now }
{
    if pictures.len() != inputs.len() {
        return Some(EvalError::InputCount);
    }
    if !are_sizes(inputs, pictures) {
        return Some(EvalError::InputSize);
    }
    if !hold_bytes(inputs, pictures) {
        return Some(EvalError::InputByte);
    }
    None
}

/// The pixels in the row with this number of a box of the Func at a place.
fn numbered_row(
    scene: &Scene,
    func_index: usize,
    bounds: TableBounds,
    number: usize,
) -> Result<Vec<u32>, AllocError>
    requires tables { AreTables scene.now }
    ensures { IfOk result (λ row. IsNumberedRow (plane_of scene.now func_index) bounds.left bounds.top bounds.width
        number
        row.items) }
{
    let y = words::add(bounds.top, (number % (1 << 32)) as u32);
    let row = pixel_row(scene, func_index, bounds.left, y, bounds.width as usize)?;
    Ok(row)
}

/// The rows of the Func at a place in a box, from as many threads as there are processors.
fn fill(
    rt: &(impl Threads + Sync),
    scene: &Scene,
    func_index: usize,
    bounds: TableBounds,
) -> Result<Vec<Vec<u32>>, AllocError>
    requires tables { AreTables scene.now }
    ensures { IfOk result (λ rows. AllZip (λ number row. IsNumberedRow (plane_of scene.now func_index) bounds.left
        bounds.top
        bounds.width number row.items) (range_with_len 0 bounds.height) rows.items) }
{
    let scene = *scene;
    let rows: Result<Vec<Vec<u32>>, AllocError> = (0..bounds.height as usize)
        .into_par_iter()
        .map(
            move |number: usize| -> Result<Vec<u32>, AllocError>
                requires { AreTables scene }
                ensures { IfOk result (λ row. IsNumberedRow (plane_of scene.entry func_index) bounds.left bounds.top
                    bounds.width number row.items) }
            { numbered_row(&scene, func_index, bounds, number) },
        )
        .collect(rt, scene.alloc)?;
    rows
}

/// Rows one after the other.
fn joined(alloc: Global, rows: &[Vec<u32>]) -> Result<Vec<u32>, AllocError>
    ensures { (plane : Plane) (left top width : ℕ) → AreNumberedRows plane left top width rows.now
        → IfOk result (λ pixels. AreNumbered plane left top width (length rows.now) pixels.items) }
{
    let mut pixels = Vec::new(alloc);
    for row in rows {
        pixels.extend_from_slice(row)?;
    }
    Ok(pixels)
}

/// The table of the Func at a place in a box.
fn tabulate(
    rt: &(impl Threads + Sync),
    scene: &Scene,
    func_index: usize,
    bounds: TableBounds,
) -> Result<Table, AllocError>
    requires tables { AreTables scene.now }
    requires wide { 0 < bounds.width }
    ensures table { IfOk result (IsTable (plane_of scene.now func_index)) }
    ensures bounds { IfOk result (IsAt bounds.left bounds.top bounds.width bounds.height) }
    ensures close { IfOk result (λ table. table.pitch ≡ bounds.width) }
{
    let rows = fill(rt, scene, func_index, bounds)?;
    let pixels = joined(scene.alloc, &rows)?;
    Ok(Table {
        left: bounds.left,
        top: bounds.top,
        width: bounds.width,
        pitch: bounds.width,
        height: bounds.height,
        pixels,
    })
}

/// The table of the next Func where its pixels are wanted; what its updates come to and what it reads is known before.
fn tabulate_next(
    rt: &(impl Threads + Sync),
    scene: &Scene,
    func_index: usize,
    wanted: WantedPoints,
    known: &mut Vec<UpdatedPixels>,
    memo: &mut Memo,
) -> Result<Table, AllocError>
    requires tables { AreTablesOf scene.now.funcs.now scene.now.pictures.now scene.now.tables.now }
    requires known { AreKnownOf scene.now.funcs.now scene.now.pictures.now known.old.items }
    requires memo { IsMemo scene.now.funcs.now scene.now.pictures.now memo.old }
    ensures table { IfOk result (IsTable (plane_of scene.now func_index)) }
    ensures known { OnOk result (AreKnownOf scene.now.funcs.now scene.now.pictures.now known.new.items) }
    ensures memo { OnOk result (IsMemo scene.now.funcs.now scene.now.pictures.now memo.new) }
{
    know_wanted(rt, scene, func_index, wanted, known, memo)?;
    let bounds = bounds_of(wanted);
    let before = Scene {
        known: known.as_slice(),
        ..*scene
    };
    prepare_box(&before, func_index, bounds, memo)?;
    let now = Scene {
        known: known.as_slice(),
        memo,
        ..*scene
    };
    let table = tabulate(rt, &now, func_index, bounds)?;
    Ok(table)
}

/// What was made of the Funcs before the output is drawn.
struct MadeFuncs {
    tables: Vec<Table>,
    known: Vec<UpdatedPixels>,
    memo: Memo,
}

impl Drop for MadeFuncs {
    fn drop(self) {
        let MadeFuncs {
            tables,
            known,
            memo,
        } = self;
        drop(tables);
        drop(known);
        drop(memo);
    }
}

/// The tables of the Funcs, one after the other, each where its pixels are wanted, what updates come to on the whole
/// plane, and the pixels that no table has.
fn tabulate_all(
    rt: &(impl Threads + Sync),
    alloc: Global,
    funcs: &[Func],
    pictures: &[Picture],
    wanted: &[WantedPoints],
) -> Result<MadeFuncs, AllocError>
    ensures tables { IfOk result (λ made. AreTablesOf funcs.now pictures.now made.tables.items) }
    ensures known { IfOk result (λ made. AreKnownOf funcs.now pictures.now made.known.items) }
    ensures memo { IfOk result (λ made. IsMemo funcs.now pictures.now made.memo) }
{
    let costs = costs_of(alloc, funcs, wanted)?;
    let nothing = Memo::new(alloc);
    let mut tables = Vec::new(alloc);
    let mut known = Vec::new(alloc);
    let mut memo = Memo::new(alloc);
    for own in wanted {
        let func_index = tables.len();
        let scene = Scene {
            alloc,
            funcs,
            pictures,
            tables: &tables,
            known: &[],
            memo: &nothing,
            costs: &costs,
        };
        let table = tabulate_next(rt, &scene, func_index, *own, &mut known, &mut memo)?;
        tables.push(table)?;
    }
    Ok(MadeFuncs {
        tables,
        known,
        memo,
    })
}

/// The picture of a pipeline's output, from the pictures that its inputs ask for. Each pixel is the
/// value that the definition of a pixel has there, in arithmetic on words (`halide_pipeline`); an
/// input is 0 outside its picture. Refused where there aren't as many pictures as inputs, else where
/// a picture hasn't its input's size; and where memory runs out.
pub fn evaluate(
    rt: &(impl Threads + Sync),
    alloc: Global,
    pipeline: &Pipeline,
    pictures: &[Picture],
) -> Result<Picture, EvalError>
    ensures { Evaluates pipeline.now pictures.now result }
{
    if let Some(error) = judge(pipeline.inputs(), pictures) {
        return Err(error);
    }
    let output = pipeline.output();
    let funcs = pipeline.funcs();
    let wanted = find(alloc, funcs, pictures, output)?;
    let made = tabulate_all(rt, alloc, funcs, pictures, &wanted)?;
    let scene = Scene {
        alloc,
        funcs,
        pictures,
        tables: &made.tables,
        known: &made.known,
        memo: &made.memo,
        costs: &[],
    };
    let bounds = TableBounds {
        left: 0,
        top: 0,
        width: output.width,
        height: output.height,
    };
    let table = tabulate(rt, &scene, output.func, bounds)?;
    let picture = Picture::new(output.width, output.height, table.pixels).unwrap();
    Ok(picture)
}
