//! Values of an expression of which parts stay in groups, once they are made.

ghost use Rattle.std.specs.Prelude.{◌<◌, ◌≤◌, [], IfOk, IfSome, OnOk};
ghost use Rattle.task_code_lanes.specs.Groups.{slots};
ghost use Rattle.task_code_lane_values.specs.Leaving.{MakesLanes};
ghost use Rattle.task_code_lane_values.specs.inner.Sharing.{AreBelow, MakesMask, MakesOperand};

use crate::kept::{Kept, Sharing, common_part, slot_of, with_kept};
use crate::operations::{
    comparison_by, comparison_of, comparison_with, copy_lanes, emit_by, emit_masked,
    emit_operation, emit_quotient, emit_remainder, emit_shifted, emit_swapped, takes_first,
    takes_second,
};
use crate::scalars::{emit_invariant, emit_literal, is_invariant_scalar};
use crate::values::emit_lanes;
use crate::vectorized::LaneSite;
use loop_ir::expressions::Expr;
use std::alloc::Global;
use task_code_lanes::groups::LaneGroup;
use task_code_lanes::vectors::{comparison, merge, test_nonzero};
use task_code_registers::numbers::power_of_two;
use task_code_scalar::CodeFault;

/// How many parts may stay at once: as many as groups suffice for.
const MOST_KEPT: [usize; 5] = [6, 4, 2, 1, 0];

/// In which group values are left, and from which one on groups are free. The group may be one in which a part stays,
/// up to the last instruction.
#[derive(Clone, Copy, Debug)]
struct Room {
    target: u8,
    free: u8,
}

/// The group after that of an operand, where that isn't the first free one itself.
fn free_behind(group: LaneGroup, s: u8, k: u8) -> Result<u8, CodeFault>
    requires { (s ≤ k) × (k < slots group) }
    ensures { IfOk result (λ next. (s < next) × (k ≤ next) × (next < slots group)) }
{
    if s < k {
        return Ok(k);
    }
    if k + 1 < group.slots() {
        return Ok(k + 1);
    }
    Err(CodeFault::TooDeep)
}

// ---- operands

/// Appends what leaves an expression's values in group k, unless they stay in a lower one; which group it is.
#[cycle(sharing)]
fn emit_operand(
    alloc: Global,
    code: &mut Vec<u32>,
    sharing: &Sharing<'_>,
    e: &Expr,
    k: u8,
) -> Result<u8, CodeFault>
    requires { AreBelow sharing.now.kept.now k × (k < slots sharing.now.site.lanes.group) }
    ensures { IfOk result (λ s. MakesOperand code.old.items code.new.items sharing.now.site sharing.now.kept.now k s
        e.now) }
{
    if let Some(slot) = slot_of(sharing.kept, e) {
        return Ok(slot);
    }
    if is_invariant_scalar(e, sharing.site.lanes.counter, 0) {
        emit_lanes(alloc, code, &sharing.site, e, k)?;
        return Ok(k);
    }
    let room = Room { target: k, free: k };
    match e {
        Expr::Binary(_, _, _) => emit_combined(alloc, code, sharing, e, room)?,
        Expr::Select(_, _, _) => emit_combined(alloc, code, sharing, e, room)?,
        Expr::Divide(_, _) => emit_quotients(alloc, code, sharing, e, k)?,
        Expr::Remainder(_, _) => emit_remainders(alloc, code, sharing, e, k)?,
        _ => emit_lanes(alloc, code, &sharing.site, e, k)?,
    }
    Ok(k)
}

/// Appends what leaves an expression's values in group k.
#[cycle(sharing)]
fn emit_into(
    alloc: Global,
    code: &mut Vec<u32>,
    sharing: &Sharing<'_>,
    e: &Expr,
    k: u8,
) -> Result<(), CodeFault>
    requires { AreBelow sharing.now.kept.now k × (k < slots sharing.now.site.lanes.group) }
    ensures { OnOk result (MakesOperand code.old.items code.new.items sharing.now.site sharing.now.kept.now k k e.now) }
{
    let s = emit_operand(alloc, code, sharing, e, k)?;
    if s == k {
        return Ok(());
    }
    let group = sharing.site.lanes.group;
    copy_lanes(code, group.slot(k), group.slot(s))?;
    Ok(())
}

/// Appends quotients' values.
#[cycle(sharing)]
fn emit_quotients(
    alloc: Global,
    code: &mut Vec<u32>,
    sharing: &Sharing<'_>,
    e: &Expr,
    k: u8,
) -> Result<(), CodeFault>
    requires { AreBelow sharing.now.kept.now k × (k < slots sharing.now.site.lanes.group) }
    ensures { OnOk result (MakesOperand code.old.items code.new.items sharing.now.site sharing.now.kept.now k k e.now) }
{
    let Expr::Divide(a, divisor) = e else {
        return Err(CodeFault::TooDeep);
    };
    if *divisor == 0 {
        return Err(CodeFault::TooDeep);
    }
    let lanes = sharing.site.lanes;
    emit_into(alloc, code, sharing, a.get(), k)?;
    if let Some(bits) = power_of_two(*divisor) {
        emit_shifted(code, lanes.group, *divisor, bits, k)?;
        return Ok(());
    }
    let s = emit_literal(alloc, code, sharing.site.scope, lanes, *divisor)?;
    emit_quotient(code, lanes.group, *divisor, k, s)?;
    Ok(())
}

/// Appends remainders' values.
#[cycle(sharing)]
fn emit_remainders(
    alloc: Global,
    code: &mut Vec<u32>,
    sharing: &Sharing<'_>,
    e: &Expr,
    k: u8,
) -> Result<(), CodeFault>
    requires { AreBelow sharing.now.kept.now k × (k < slots sharing.now.site.lanes.group) }
    ensures { OnOk result (MakesOperand code.old.items code.new.items sharing.now.site sharing.now.kept.now k k e.now) }
{
    let Expr::Remainder(a, divisor) = e else {
        return Err(CodeFault::TooDeep);
    };
    if *divisor == 0 {
        return Err(CodeFault::TooDeep);
    }
    let lanes = sharing.site.lanes;
    emit_into(alloc, code, sharing, a.get(), k)?;
    if let Some(bits) = power_of_two(*divisor) {
        let s = emit_literal(alloc, code, sharing.site.scope, lanes, *divisor - 1)?;
        emit_masked(code, lanes.group, *divisor, bits, k, s)?;
        return Ok(());
    }
    let s = emit_literal(alloc, code, sharing.site.scope, lanes, *divisor)?;
    emit_remainder(code, lanes.group, *divisor, k, s)?;
    Ok(())
}

// ---- operations and choices

/// Appends an operation's or a choice's values, with parts that several operands have made first.
#[cycle(sharing)]
fn emit_combined(
    alloc: Global,
    code: &mut Vec<u32>,
    sharing: &Sharing<'_>,
    e: &Expr,
    room: Room,
) -> Result<(), CodeFault>
    requires { AreBelow sharing.now.kept.now room.free × (room.target ≤ room.free)
        × (room.free < slots sharing.now.site.lanes.group) }
    ensures { OnOk result (MakesOperand code.old.items code.new.items sharing.now.site sharing.now.kept.now room.target
        room.target e.now) }
{
    match common_part(sharing, e) {
        None => {
            match e {
                Expr::Select(_, _, _) => emit_choice_of(alloc, code, sharing, e, room)?,
                _ => emit_operation_of(alloc, code, sharing, e, room)?,
            }
            Ok(())
        }
        Some(part) => {
            let k = room.free;
            if k + 1 >= sharing.site.lanes.group.slots() {
                return Err(CodeFault::TooDeep);
            }
            emit_into(alloc, code, sharing, part, k)?;
            let kept = with_kept(alloc, sharing.kept, Kept { e: part, slot: k })?;
            let inner = Sharing {
                site: sharing.site,
                kept: kept.as_slice(),
                most: sharing.most,
            };
            let left = Room {
                target: room.target,
                free: k + 1,
            };
            emit_combined(alloc, code, &inner, e, left)?;
            Ok(())
        }
    }
}

/// Appends an operation's values. One operand may be the same in all iterations, in a register alone.
#[cycle(sharing)]
fn emit_operation_of(
    alloc: Global,
    code: &mut Vec<u32>,
    sharing: &Sharing<'_>,
    e: &Expr,
    room: Room,
) -> Result<(), CodeFault>
    requires { AreBelow sharing.now.kept.now room.free × (room.target ≤ room.free)
        × (room.free < slots sharing.now.site.lanes.group) }
    ensures { OnOk result (MakesOperand code.old.items code.new.items sharing.now.site sharing.now.kept.now room.target
        room.target e.now) }
{
    let Expr::Binary(operation, a, b) = e else {
        return Err(CodeFault::TooDeep);
    };
    let lanes = sharing.site.lanes;
    let k = room.free;
    let first = a.get();
    let second = b.get();
    if takes_second(*operation)
        && is_invariant_scalar(second, lanes.counter, 0)
        && room.target == k
    {
        emit_into(alloc, code, sharing, first, k)?;
        let c = emit_invariant(alloc, code, &sharing.site, second)?;
        emit_by(code, lanes.group, *operation, k, c)?;
        return Ok(());
    }
    if takes_first(*operation) && is_invariant_scalar(first, lanes.counter, 0) && room.target == k {
        emit_into(alloc, code, sharing, second, k)?;
        let c = emit_invariant(alloc, code, &sharing.site, first)?;
        emit_swapped(code, lanes.group, *operation, k, c)?;
        return Ok(());
    }
    let s = emit_operand(alloc, code, sharing, first, k)?;
    let next = free_behind(lanes.group, s, k)?;
    let t = emit_operand(alloc, code, sharing, second, next)?;
    let target = lanes.group.slot(room.target);
    emit_operation(
        code,
        *operation,
        target,
        lanes.group.slot(s),
        lanes.group.slot(t),
    )?;
    Ok(())
}

/// Appends choices' values: those between which a condition chooses, and then the condition, in the mask.
#[cycle(sharing)]
fn emit_choice_of(
    alloc: Global,
    code: &mut Vec<u32>,
    sharing: &Sharing<'_>,
    e: &Expr,
    room: Room,
) -> Result<(), CodeFault>
    requires { AreBelow sharing.now.kept.now room.free × (room.target ≤ room.free)
        × (room.free < slots sharing.now.site.lanes.group) }
    ensures { OnOk result (MakesOperand code.old.items code.new.items sharing.now.site sharing.now.kept.now room.target
        room.target e.now) }
{
    let Expr::Select(condition, a, b) = e else {
        return Err(CodeFault::TooDeep);
    };
    let group = sharing.site.lanes.group;
    let first = a.get();
    let second = b.get();
    let test = condition.get();
    let s = emit_operand(alloc, code, sharing, first, room.free)?;
    let next = free_behind(group, s, room.free)?;
    let t = emit_operand(alloc, code, sharing, second, next)?;
    let last = free_behind(group, t, next)?;
    emit_mask(alloc, code, sharing, test, last)?;
    let target = group.slot(room.target);
    merge(code, target, group.slot(t), group.slot(s))?;
    Ok(())
}

// ---- conditions

/// Appends what leaves in the mask where a condition isn't 0.
#[cycle(sharing)]
fn emit_mask(
    alloc: Global,
    code: &mut Vec<u32>,
    sharing: &Sharing<'_>,
    e: &Expr,
    k: u8,
) -> Result<(), CodeFault>
    requires { AreBelow sharing.now.kept.now k × (k < slots sharing.now.site.lanes.group) }
    ensures { OnOk result (MakesMask code.old.items code.new.items sharing.now.site sharing.now.kept.now k e.now) }
{
    if slot_of(sharing.kept, e).is_some() {
        emit_nonzero(alloc, code, sharing, e, k)?;
        return Ok(());
    }
    match e {
        Expr::Binary(operation, _, b) => {
            if comparison_with(*operation).is_some()
                && is_invariant_scalar(b.get(), sharing.site.lanes.counter, 0)
            {
                emit_compared_with(alloc, code, sharing, e, k)?;
                return Ok(());
            }
            if comparison_of(*operation).is_some() {
                emit_compared(alloc, code, sharing, e, k)?;
                return Ok(());
            }
            emit_nonzero(alloc, code, sharing, e, k)?;
            Ok(())
        }
        _ => {
            emit_nonzero(alloc, code, sharing, e, k)?;
            Ok(())
        }
    }
}

/// The same, of any expression.
#[cycle(sharing)]
fn emit_nonzero(
    alloc: Global,
    code: &mut Vec<u32>,
    sharing: &Sharing<'_>,
    e: &Expr,
    k: u8,
) -> Result<(), CodeFault>
    requires { AreBelow sharing.now.kept.now k × (k < slots sharing.now.site.lanes.group) }
    ensures { OnOk result (MakesMask code.old.items code.new.items sharing.now.site sharing.now.kept.now k e.now) }
{
    let s = emit_operand(alloc, code, sharing, e, k)?;
    test_nonzero(code, sharing.site.lanes.group.slot(s))?;
    Ok(())
}

/// Of a comparison with what all iterations have in common.
#[cycle(sharing)]
fn emit_compared_with(
    alloc: Global,
    code: &mut Vec<u32>,
    sharing: &Sharing<'_>,
    e: &Expr,
    k: u8,
) -> Result<(), CodeFault>
    requires { AreBelow sharing.now.kept.now k × (k < slots sharing.now.site.lanes.group) }
    ensures { OnOk result (MakesMask code.old.items code.new.items sharing.now.site sharing.now.kept.now k e.now) }
{
    let Expr::Binary(operation, a, b) = e else {
        return Err(CodeFault::TooDeep);
    };
    let Some(by) = comparison_with(*operation) else {
        return Err(CodeFault::TooDeep);
    };
    let second = b.get();
    if !is_invariant_scalar(second, sharing.site.lanes.counter, 0) {
        return Err(CodeFault::TooDeep);
    }
    let first = a.get();
    let s = emit_operand(alloc, code, sharing, first, k)?;
    let r = emit_invariant(alloc, code, &sharing.site, second)?;
    comparison_by(code, by, sharing.site.lanes.group.slot(s), r)?;
    Ok(())
}

/// Of a comparison of lanes.
#[cycle(sharing)]
fn emit_compared(
    alloc: Global,
    code: &mut Vec<u32>,
    sharing: &Sharing<'_>,
    e: &Expr,
    k: u8,
) -> Result<(), CodeFault>
    requires { AreBelow sharing.now.kept.now k × (k < slots sharing.now.site.lanes.group) }
    ensures { OnOk result (MakesMask code.old.items code.new.items sharing.now.site sharing.now.kept.now k e.now) }
{
    let Expr::Binary(operation, a, b) = e else {
        return Err(CodeFault::TooDeep);
    };
    let Some(by) = comparison_of(*operation) else {
        return Err(CodeFault::TooDeep);
    };
    let group = sharing.site.lanes.group;
    let first = a.get();
    let second = b.get();
    let s = emit_operand(alloc, code, sharing, first, k)?;
    let next = free_behind(group, s, k)?;
    let t = emit_operand(alloc, code, sharing, second, next)?;
    let one = group.slot(s);
    let other = group.slot(t);
    if by.is_swapped {
        comparison(code, by.instruction, other, one)?;
        return Ok(());
    }
    comparison(code, by.instruction, one, other)?;
    Ok(())
}

// ---- whole expressions

/// The words that leave an expression's values in the first group, where groups suffice for this many parts that stay.
fn words_keeping(
    alloc: Global,
    site: &LaneSite<'_>,
    e: &Expr,
    most: usize,
) -> Result<Option<Vec<u32>>, CodeFault>
    ensures { IfOk result (λ found. IfSome found (λ words. MakesOperand [] words.items site.now [] 0 0 e.now)) }
{
    let own = Sharing {
        site: *site,
        kept: &[],
        most,
    };
    let mut words = Vec::new(alloc);
    match emit_into(alloc, &mut words, &own, e, 0) {
        Ok(()) => Ok(Some(words)),
        Err(CodeFault::OutOfMemory(error)) => Err(CodeFault::OutOfMemory(error)),
        Err(CodeFault::TooLong) => Ok(None),
        Err(CodeFault::TooDeep) => Ok(None),
    }
}

/// The words of the first of these ways for which groups suffice, if there is one.
fn first_words(
    alloc: Global,
    site: &LaneSite<'_>,
    e: &Expr,
    ways: &[usize],
) -> Result<Option<Vec<u32>>, CodeFault>
    ensures { IfOk result (λ new_words. IfSome new_words (λ words. MakesOperand [] words.items site.now [] 0 0 e.now)) }
{
    match ways {
        [] => Ok(None),
        [most, others @ ..] => match words_keeping(alloc, site, e, *most)? {
            Some(words) => Ok(Some(words)),
            None => {
                let new_words = first_words(alloc, site, e, others)?;
                Ok(new_words)
            }
        },
    }
}

/// Appends what leaves an expression's values in the first group. Parts that several of its operands have stay in
/// groups while there are enough.
///
/// # Errors
///
/// Memory ran out, or groups and registers do not suffice for this way of making code.
pub fn emit_values(
    alloc: Global,
    code: &mut Vec<u32>,
    site: &LaneSite<'_>,
    e: &Expr,
) -> Result<(), CodeFault>
    ensures { OnOk result (MakesLanes code.old.items code.new.items site.now.places.now site.now.scope.now
        site.now.lanes 0 e.now) }
{
    match first_words(alloc, site, e, &MOST_KEPT)? {
        None => {
            emit_lanes(alloc, code, site, e, 0)?;
            Ok(())
        }
        Some(made) => {
            code.extend_from_slice(made.as_slice())?;
            Ok(())
        }
    }
}
