//! The values of an expression in all iterations of a vectorized loop at once.

ghost use Rattle.std.specs.Prelude.{◌<◌, ◌≡◌, ◌+◌, IfOk, OnOk};
ghost use Rattle.task_code_lanes.specs.Groups.{slots};
ghost use Rattle.task_code_lane_values.specs.Leaving.{MakesDistances, MakesLanes};

use crate::needs::{First, first_of_choice, is_swapped};
use crate::operations::{
    emit_by, emit_choice, emit_masked, emit_quotient, emit_remainder, emit_shifted, emit_swapped,
    emit_two, emit_two_swapped, takes_first, takes_second,
};
use crate::points::{
    BufferRow, both_sums, dense_column, emit_distances, emit_gather, emit_point, emit_row,
    emit_scattered,
};
use crate::scalars::{emit_invariant, emit_literal, first_varying, is_invariant_scalar};
use crate::sums::emit_sum;
use crate::vectorized::LaneSite;
use loop_ir::expressions::Expr;
use std::alloc::Global;
use task_code_lanes::groups::LaneGroup;
use task_code_lanes::vectors::spread;
use task_code_registers::numbers::power_of_two;
use task_code_scalar::CodeFault;
use task_code_scalar::layouts::BufferLayout;

/// A group of the stack for an expression's values, and of how many, the expression itself, its first operand and so
/// on, it is known that iterations differ: they are not asked again.
#[derive(Clone, Copy, Debug)]
struct Spot {
    k: u8,
    varying: u32,
}

/// The next group, for an expression of which nothing is known, if there is one.
fn above(group: LaneGroup, k: u8) -> Result<Spot, CodeFault>
    requires { k < slots group }
    ensures { IfOk result (λ next. (next.k ≡ k + 1) × (k + 1 < slots group)) }
{
    if k + 1 < group.slots() {
        Ok(Spot {
            k: k + 1,
            varying: 0,
        })
    } else {
        Err(CodeFault::TooDeep)
    }
}

/// Appends an operation's values. One operand may be the same in all iterations, in a register alone.
#[cycle(values)]
fn emit_results(
    alloc: Global,
    code: &mut Vec<u32>,
    site: &LaneSite<'_>,
    e: &Expr,
    spot: Spot,
) -> Result<(), CodeFault>
    requires { spot.k < slots site.now.lanes.group }
    ensures { OnOk result (MakesLanes code.old.items code.new.items site.now.places.now site.now.scope.now
        site.now.lanes spot.k e.now) }
{
    let Expr::Binary(operation, a, b) = e else {
        return Err(CodeFault::TooDeep);
    };
    let k = spot.k;
    let first = a.get();
    let second = b.get();
    let first_stays = is_invariant_scalar(first, site.lanes.counter, spot.varying);
    let varying = u32::from(first_stays);
    if takes_second(*operation) && is_invariant_scalar(second, site.lanes.counter, varying) {
        emit_at(alloc, code, site, first, spot)?;
        let s = emit_invariant(alloc, code, site, second)?;
        emit_by(code, site.lanes.group, *operation, k, s)?;
        return Ok(());
    }
    if takes_first(*operation) && first_stays {
        let beside = Spot { k, varying };
        emit_at(alloc, code, site, second, beside)?;
        let s = emit_invariant(alloc, code, site, first)?;
        emit_swapped(code, site.lanes.group, *operation, k, s)?;
        return Ok(());
    }
    emit_both(alloc, code, site, e, spot)?;
    Ok(())
}

/// Appends an operation's values, of both operands in groups. The second one comes first where it takes all groups.
#[cycle(values)]
fn emit_both(
    alloc: Global,
    code: &mut Vec<u32>,
    site: &LaneSite<'_>,
    e: &Expr,
    spot: Spot,
) -> Result<(), CodeFault>
    requires { spot.k < slots site.now.lanes.group }
    ensures { OnOk result (MakesLanes code.old.items code.new.items site.now.places.now site.now.scope.now
        site.now.lanes spot.k e.now) }
{
    let Expr::Binary(operation, a, b) = e else {
        return Err(CodeFault::TooDeep);
    };
    let k = spot.k;
    let first = a.get();
    let second = b.get();
    let next = above(site.lanes.group, k)?;
    if is_swapped(first, second, site.lanes, k) {
        let beside = Spot {
            k: next.k,
            varying: spot.varying,
        };
        emit_at(alloc, code, site, second, Spot { k, varying: 0 })?;
        emit_at(alloc, code, site, first, beside)?;
        emit_two_swapped(code, site.lanes.group, *operation, k)?;
        return Ok(());
    }
    emit_at(alloc, code, site, first, spot)?;
    emit_at(alloc, code, site, second, next)?;
    emit_two(code, site.lanes.group, *operation, k)?;
    Ok(())
}

/// Appends quotients' values.
#[cycle(values)]
fn emit_quotients(
    alloc: Global,
    code: &mut Vec<u32>,
    site: &LaneSite<'_>,
    e: &Expr,
    spot: Spot,
) -> Result<(), CodeFault>
    requires { spot.k < slots site.now.lanes.group }
    ensures { OnOk result (MakesLanes code.old.items code.new.items site.now.places.now site.now.scope.now
        site.now.lanes spot.k e.now) }
{
    let Expr::Divide(a, divisor) = e else {
        return Err(CodeFault::TooDeep);
    };
    if *divisor == 0 {
        return Err(CodeFault::TooDeep);
    }
    let k = spot.k;
    emit_at(alloc, code, site, a.get(), spot)?;
    if let Some(bits) = power_of_two(*divisor) {
        emit_shifted(code, site.lanes.group, *divisor, bits, k)?;
        return Ok(());
    }
    let s = emit_literal(alloc, code, site.scope, site.lanes, *divisor)?;
    emit_quotient(code, site.lanes.group, *divisor, k, s)?;
    Ok(())
}

/// Appends remainders' values.
#[cycle(values)]
fn emit_remainders(
    alloc: Global,
    code: &mut Vec<u32>,
    site: &LaneSite<'_>,
    e: &Expr,
    spot: Spot,
) -> Result<(), CodeFault>
    requires { spot.k < slots site.now.lanes.group }
    ensures { OnOk result (MakesLanes code.old.items code.new.items site.now.places.now site.now.scope.now
        site.now.lanes spot.k e.now) }
{
    let Expr::Remainder(a, divisor) = e else {
        return Err(CodeFault::TooDeep);
    };
    if *divisor == 0 {
        return Err(CodeFault::TooDeep);
    }
    let k = spot.k;
    emit_at(alloc, code, site, a.get(), spot)?;
    if let Some(bits) = power_of_two(*divisor) {
        let s = emit_literal(alloc, code, site.scope, site.lanes, *divisor - 1)?;
        emit_masked(code, site.lanes.group, *divisor, bits, k, s)?;
        return Ok(());
    }
    let s = emit_literal(alloc, code, site.scope, site.lanes, *divisor)?;
    emit_remainder(code, site.lanes.group, *divisor, k, s)?;
    Ok(())
}

/// Appends choices' values: the condition, then those between which it chooses.
#[cycle(values)]
fn emit_condition_first(
    alloc: Global,
    code: &mut Vec<u32>,
    site: &LaneSite<'_>,
    e: &Expr,
    spot: Spot,
) -> Result<(), CodeFault>
    requires { spot.k < slots site.now.lanes.group }
    ensures { OnOk result (MakesLanes code.old.items code.new.items site.now.places.now site.now.scope.now
        site.now.lanes spot.k e.now) }
{
    let Expr::Select(condition, a, b) = e else {
        return Err(CodeFault::TooDeep);
    };
    let k = spot.k;
    let next = above(site.lanes.group, k)?;
    let last = above(site.lanes.group, next.k)?;
    emit_at(alloc, code, site, condition.get(), spot)?;
    emit_at(alloc, code, site, a.get(), next)?;
    emit_at(alloc, code, site, b.get(), last)?;
    emit_choice(code, site.lanes.group, k, k, next.k, last.k)?;
    Ok(())
}

/// The same, where what a condition chooses comes first.
#[cycle(values)]
fn emit_one_first(
    alloc: Global,
    code: &mut Vec<u32>,
    site: &LaneSite<'_>,
    e: &Expr,
    spot: Spot,
) -> Result<(), CodeFault>
    requires { spot.k < slots site.now.lanes.group }
    ensures { OnOk result (MakesLanes code.old.items code.new.items site.now.places.now site.now.scope.now
        site.now.lanes spot.k e.now) }
{
    let Expr::Select(condition, a, b) = e else {
        return Err(CodeFault::TooDeep);
    };
    let k = spot.k;
    let next = above(site.lanes.group, k)?;
    let last = above(site.lanes.group, next.k)?;
    let beside = Spot {
        k: next.k,
        varying: spot.varying,
    };
    emit_at(alloc, code, site, a.get(), Spot { k, varying: 0 })?;
    emit_at(alloc, code, site, condition.get(), beside)?;
    emit_at(alloc, code, site, b.get(), last)?;
    emit_choice(code, site.lanes.group, k, next.k, k, last.k)?;
    Ok(())
}

/// Or what is chosen without it.
#[cycle(values)]
fn emit_other_first(
    alloc: Global,
    code: &mut Vec<u32>,
    site: &LaneSite<'_>,
    e: &Expr,
    spot: Spot,
) -> Result<(), CodeFault>
    requires { spot.k < slots site.now.lanes.group }
    ensures { OnOk result (MakesLanes code.old.items code.new.items site.now.places.now site.now.scope.now
        site.now.lanes spot.k e.now) }
{
    let Expr::Select(condition, a, b) = e else {
        return Err(CodeFault::TooDeep);
    };
    let k = spot.k;
    let next = above(site.lanes.group, k)?;
    let last = above(site.lanes.group, next.k)?;
    let beside = Spot {
        k: next.k,
        varying: spot.varying,
    };
    emit_at(alloc, code, site, b.get(), Spot { k, varying: 0 })?;
    emit_at(alloc, code, site, condition.get(), beside)?;
    emit_at(alloc, code, site, a.get(), last)?;
    emit_choice(code, site.lanes.group, k, next.k, last.k, k)?;
    Ok(())
}

/// Appends choices' values.
#[cycle(values)]
fn emit_choices(
    alloc: Global,
    code: &mut Vec<u32>,
    site: &LaneSite<'_>,
    e: &Expr,
    spot: Spot,
) -> Result<(), CodeFault>
    requires { spot.k < slots site.now.lanes.group }
    ensures { OnOk result (MakesLanes code.old.items code.new.items site.now.places.now site.now.scope.now
        site.now.lanes spot.k e.now) }
{
    let Expr::Select(condition, a, b) = e else {
        return Err(CodeFault::TooDeep);
    };
    match first_of_choice(condition.get(), a.get(), b.get(), site.lanes, spot.k) {
        First::Condition => emit_condition_first(alloc, code, site, e, spot)?,
        First::One => emit_one_first(alloc, code, site, e, spot)?,
        First::Other => emit_other_first(alloc, code, site, e, spot)?,
    }
    Ok(())
}

/// Appends what loads pixels: of points by sums, of a row that is the same in all iterations, or anywhere.
#[cycle(values)]
fn emit_pixels(
    alloc: Global,
    code: &mut Vec<u32>,
    site: &LaneSite<'_>,
    e: &Expr,
    spot: Spot,
) -> Result<(), CodeFault>
    requires { spot.k < slots site.now.lanes.group }
    ensures { OnOk result (MakesLanes code.old.items code.new.items site.now.places.now site.now.scope.now
        site.now.lanes spot.k e.now) }
{
    let Expr::Load(source, x, y) = e else {
        return Err(CodeFault::TooDeep);
    };
    let k = spot.k;
    let at = *source;
    if let Some(sums) = both_sums(alloc, x.get(), y.get())? {
        emit_point(alloc, code, site, at, &sums, k)?;
        return Ok(());
    }
    if is_invariant_scalar(y.get(), site.lanes.counter, 0) {
        let row = BufferRow {
            source: at,
            y: y.get(),
        };
        if let Some(column) = dense_column(alloc, x.get(), site.lanes.counter)? {
            emit_row(alloc, code, site, &row, &column, k)?;
            return Ok(());
        }
        emit_at(alloc, code, site, x.get(), spot)?;
        emit_gather(alloc, code, site, &row, k)?;
        return Ok(());
    }
    let next = above(site.lanes.group, k)?;
    emit_at(alloc, code, site, x.get(), spot)?;
    emit_at(alloc, code, site, y.get(), next)?;
    emit_scattered(alloc, code, site, at, k)?;
    Ok(())
}

/// The same, where something is known of it.
#[cycle(values)]
fn emit_at(
    alloc: Global,
    code: &mut Vec<u32>,
    site: &LaneSite<'_>,
    e: &Expr,
    spot: Spot,
) -> Result<(), CodeFault>
    requires { spot.k < slots site.now.lanes.group }
    ensures { OnOk result (MakesLanes code.old.items code.new.items site.now.places.now site.now.scope.now
        site.now.lanes spot.k e.now) }
{
    let k = spot.k;
    if is_invariant_scalar(e, site.lanes.counter, spot.varying) {
        let s = emit_invariant(alloc, code, site, e)?;
        spread(code, site.lanes.group.slot(k), s)?;
        return Ok(());
    }
    let varying = first_varying(e, site.lanes.counter, spot.varying);
    let within = Spot { k, varying };
    match e {
        Expr::Number(_) => Err(CodeFault::TooDeep),
        Expr::Linear(sum) => {
            emit_sum(alloc, code, site.scope, site.lanes, sum, k)?;
            Ok(())
        }
        Expr::Binary(_, _, _) => {
            emit_results(alloc, code, site, e, within)?;
            Ok(())
        }
        Expr::Divide(_, _) => {
            emit_quotients(alloc, code, site, e, within)?;
            Ok(())
        }
        Expr::Remainder(_, _) => {
            emit_remainders(alloc, code, site, e, within)?;
            Ok(())
        }
        Expr::Select(_, _, _) => {
            emit_choices(alloc, code, site, e, within)?;
            Ok(())
        }
        Expr::Load(_, _, _) => {
            emit_pixels(alloc, code, site, e, within)?;
            Ok(())
        }
    }
}

/// Appends what leaves an expression's values in group k of the stack, with those above it free.
///
/// # Errors
///
/// Memory ran out, or groups and registers do not suffice for this way of making code.
pub fn emit_lanes(
    alloc: Global,
    code: &mut Vec<u32>,
    site: &LaneSite<'_>,
    e: &Expr,
    k: u8,
) -> Result<(), CodeFault>
    requires { k < slots site.now.lanes.group }
    ensures { OnOk result (MakesLanes code.old.items code.new.items site.now.places.now site.now.scope.now
        site.now.lanes k e.now) }
{
    emit_at(alloc, code, site, e, Spot { k, varying: 0 })?;
    Ok(())
}

/// A point of a buffer, at two expressions.
#[derive(Clone, Copy)]
pub struct BufferPoint<'a> {
    /// Where the buffer lies.
    pub place: &'a BufferLayout,
    pub x: &'a Expr,
    pub y: &'a Expr,
}

/// Appends what leaves in group k of the stack how many bytes after a buffer's first pixel each iteration's point
/// lies, with the groups above it free.
///
/// # Errors
///
/// As of [`emit_lanes`].
pub fn emit_point_distances(
    alloc: Global,
    code: &mut Vec<u32>,
    site: &LaneSite<'_>,
    point: &BufferPoint<'_>,
    k: u8,
) -> Result<(), CodeFault>
    requires { k < slots site.now.lanes.group }
    ensures { OnOk result (MakesDistances code.old.items code.new.items site.now.places.now site.now.scope.now
        site.now.lanes k point.now.place.now point.now.x.now point.now.y.now) }
{
    let next = above(site.lanes.group, k)?;
    emit_lanes(alloc, code, site, point.x, k)?;
    emit_lanes(alloc, code, site, point.y, next.k)?;
    emit_distances(alloc, code, site.scope, site.lanes, point.place, k)?;
    Ok(())
}
