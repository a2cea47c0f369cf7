//! Expressions along lines. Each kind of them has a function of its own, since one for all would begin each call by
//! clearing what the largest kind needs.

ghost use Rattle.std.specs.Prelude.{◌==◌, ◌<◌, ◌^◌, IfOk, IfSome, cond};
ghost use Rattle.halide_pipeline.specs.Pixel as spec;
ghost use Rattle.halide_pipeline.specs.Words as word;
ghost use Rattle.picture.specs.inner.Evaluation.{AreTables};
ghost use Rattle.picture.specs.inner.Lines.{line_point, reads_with, value_along, IsLine, IsShared};
ghost use Rattle.picture_rows.specs.Rows.{HasLength};

use crate::lines::{
    PointLine, shared_both, shared_choice, shared_quotients, shared_read, shared_remainders,
    variable_along,
};
use crate::scenes::Scene;
use halide_pipeline::{Expr, Operation, Source};
use picture_rows::Row;
use std::alloc::AllocError;

/// The values of an expression along a line; none where it reads the own Func and that isn't known there.
#[cycle(shared_row)]
#[tactic(auto, unfolding(halide_pipeline::specs::Pixel::value))]
pub(crate) fn shared_row(
    scene: &Scene,
    func_index: usize,
    line: PointLine,
    expr: &Expr,
) -> Result<Option<Row>, AllocError>
    requires tables { AreTables scene.now }
    requires line { IsLine line }
    requires narrow { line.width < 2 ^ 32 }
    ensures len { IfOk result (λ found. IfSome found (HasLength line.entry.width)) }
    ensures values { IfOk result (λ found. IfSome found (IsShared line.entry
        (λ plane at. spec.value (reads_with scene.now func_index plane)
        (line_point line.entry.along line.entry.start at)
        expr.now))) }
{
    match expr {
        Expr::Number(number) => Ok(Some(Row::Same(*number))),
        Expr::Variable(own_variable) => {
            Ok(Some(variable_along(*own_variable, line.start, line.along)))
        }
        Expr::Binary(operation, a, b) => shared_binary(
            scene,
            func_index,
            line,
            *operation,
            a.get(),
            b.get(),
        ),
        Expr::Divide(a, divisor) => shared_divide(scene, func_index, line, a.get(), *divisor),
        Expr::Remainder(a, divisor) => shared_remainder(scene, func_index, line, a.get(), *divisor),
        Expr::Select(condition, a, b) => shared_select(
            scene,
            func_index,
            line,
            condition.get(),
            a.get(),
            b.get(),
        ),
        Expr::Call1(source, x) => shared_call1(scene, func_index, line, *source, x.get()),
        Expr::Call2(source, x, y) => shared_call2(
            scene,
            func_index,
            line,
            *source,
            x.get(),
            y.get(),
        ),
    }
}

/// What an operation makes of two expressions along a line.
#[cycle(shared_row)]
#[inline(never)]
fn shared_binary(
    scene: &Scene,
    func_index: usize,
    line: PointLine,
    operation: Operation,
    a: &Expr,
    b: &Expr,
) -> Result<Option<Row>, AllocError>
    requires tables { AreTables scene.now }
    requires line { IsLine line }
    requires narrow { line.width < 2 ^ 32 }
    ensures len { IfOk result (λ found. IfSome found (HasLength line.entry.width)) }
    ensures values { IfOk result (λ found. IfSome found (IsShared line.entry (λ plane at. word.applied operation
        (value_along scene.now func_index line.entry a.now plane at)
        (value_along scene.now func_index line.entry b.now plane at)))) }
{
    let a = shared_row(scene, func_index, line, a)?;
    let b = shared_row(scene, func_index, line, b)?;
    shared_both(scene.alloc, line, operation, a, b)
}

/// An expression's quotients along a line.
#[cycle(shared_row)]
#[inline(never)]
fn shared_divide(
    scene: &Scene,
    func_index: usize,
    line: PointLine,
    a: &Expr,
    divisor: u32,
) -> Result<Option<Row>, AllocError>
    requires tables { AreTables scene.now }
    requires line { IsLine line }
    requires narrow { line.width < 2 ^ 32 }
    ensures len { IfOk result (λ found. IfSome found (HasLength line.entry.width)) }
    ensures values { IfOk result (λ found. IfSome found (IsShared line.entry (λ plane at. word.divide
        (value_along scene.now func_index line.entry a.now plane at) divisor))) }
{
    let a = shared_row(scene, func_index, line, a)?;
    shared_quotients(scene.alloc, line, a, divisor)
}

/// An expression's remainders along a line.
#[cycle(shared_row)]
#[inline(never)]
fn shared_remainder(
    scene: &Scene,
    func_index: usize,
    line: PointLine,
    a: &Expr,
    divisor: u32,
) -> Result<Option<Row>, AllocError>
    requires tables { AreTables scene.now }
    requires line { IsLine line }
    requires narrow { line.width < 2 ^ 32 }
    ensures len { IfOk result (λ found. IfSome found (HasLength line.entry.width)) }
    ensures values { IfOk result (λ found. IfSome found (IsShared line.entry (λ plane at. word.remainder
        (value_along scene.now func_index line.entry a.now plane at) divisor))) }
{
    let a = shared_row(scene, func_index, line, a)?;
    shared_remainders(scene.alloc, line, a, divisor)
}

/// One of two expressions at each point of a line.
#[cycle(shared_row)]
#[inline(never)]
fn shared_select(
    scene: &Scene,
    func_index: usize,
    line: PointLine,
    condition: &Expr,
    a: &Expr,
    b: &Expr,
) -> Result<Option<Row>, AllocError>
    requires tables { AreTables scene.now }
    requires line { IsLine line }
    requires narrow { line.width < 2 ^ 32 }
    ensures len { IfOk result (λ found. IfSome found (HasLength line.entry.width)) }
    ensures values { IfOk result (λ found. IfSome found (IsShared line.entry (λ plane at. cond
        (value_along scene.now func_index line.entry condition.now plane at == 0)
        (value_along scene.now func_index line.entry b.now plane at)
        (value_along scene.now func_index line.entry a.now plane at)))) }
{
    let condition = shared_row(scene, func_index, line, condition)?;
    let a = shared_row(scene, func_index, line, a)?;
    let b = shared_row(scene, func_index, line, b)?;
    shared_choice(scene.alloc, line, condition, a, b)
}

/// Reads of a source of one dimension along a line.
#[cycle(shared_row)]
#[inline(never)]
fn shared_call1(
    scene: &Scene,
    func_index: usize,
    line: PointLine,
    source: Source,
    x: &Expr,
) -> Result<Option<Row>, AllocError>
    requires tables { AreTables scene.now }
    requires line { IsLine line }
    requires narrow { line.width < 2 ^ 32 }
    ensures len { IfOk result (λ found. IfSome found (HasLength line.entry.width)) }
    ensures values { IfOk result (λ found. IfSome found (IsShared line.entry
        (λ plane at. reads_with scene.now func_index plane
        source (value_along scene.now func_index line.entry x.now plane at) 0))) }
{
    let x = shared_row(scene, func_index, line, x)?;
    shared_read(scene, func_index, line, source, x, Some(Row::Same(0)))
}

/// Reads of a source of two dimensions along a line.
#[cycle(shared_row)]
#[inline(never)]
fn shared_call2(
    scene: &Scene,
    func_index: usize,
    line: PointLine,
    source: Source,
    x: &Expr,
    y: &Expr,
) -> Result<Option<Row>, AllocError>
    requires tables { AreTables scene.now }
    requires line { IsLine line }
    requires narrow { line.width < 2 ^ 32 }
    ensures len { IfOk result (λ found. IfSome found (HasLength line.entry.width)) }
    ensures values { IfOk result (λ found. IfSome found (IsShared line.entry
        (λ plane at. reads_with scene.now func_index plane
        source (value_along scene.now func_index line.entry x.now plane at)
        (value_along scene.now func_index line.entry y.now plane at)))) }
{
    let x = shared_row(scene, func_index, line, x)?;
    let y = shared_row(scene, func_index, line, y)?;
    shared_read(scene, func_index, line, source, x, y)
}

/// The values along a line of an index that may not be written, which is 0 then.
pub(crate) fn index_row(
    scene: &Scene,
    func_index: usize,
    line: PointLine,
    index: &Option<Expr>,
) -> Result<Option<Row>, AllocError>
    requires tables { AreTables scene.now }
    requires line { IsLine line }
    requires narrow { line.width < 2 ^ 32 }
    ensures { IfOk result (λ found. IfSome found (IsShared line.entry (λ plane at. spec.index_value
        (reads_with scene.now func_index plane) (line_point line.entry.along line.entry.start at) index.now))) }
{
    match index {
        None => Ok(Some(Row::Same(0))),
        Some(index) => {
            let row = shared_row(scene, func_index, line, index)?;
            Ok(row)
        }
    }
}
