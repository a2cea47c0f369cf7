//! Values over lanes that are made part by part, in smaller groups, where they take more groups than there are.

ghost use Rattle.std.specs.Prelude.{◌≡◌, ◌+◌, ◌<◌, ◌≤◌, IfSome, OnOk, true};
ghost use Rattle.task_code_registers.specs.Scopes.{are_registers};
ghost use Rattle.task_code_lanes.specs.Groups as groups;
ghost use Rattle.task_code_vector_loops.specs.Runs.{all_lanes, left_lanes};
ghost use Rattle.task_code_vector_loops.specs.inner.Parting.{ConfiguresPart, IsReady, MakesPart, MakesRun, part_lanes};

use crate::configuring::{emit_least, emit_left_lanes, put_all};
use crate::further::{Further, further_on};
use crate::left::Left;
use crate::terms::{NAMES, mentions};
use loop_ir::expressions::{Counter, Expr, same_counter};
use rv_insn::AluOp;
use schedule_lines::stages::LoopId;
use std::alloc::Global;
use task_code_lane_values::values::emit_lanes;
use task_code_lane_values::vectorized::{LaneSite, VectorLanes};
use task_code_lanes::groups::LaneGroup;
use task_code_lanes::vectors::configure;
use task_code_loops::tests::variable;
use task_code_registers::numbers::{emit_number, emit_times};
use task_code_registers::registers::{ADDRESS, FIRST_VALUE};
use task_code_registers::scopes::{Held, free_register, with_held};
use task_code_scalar::CodeFault;
use task_code_scalar::instructions::alu;
use task_code_scalar::layouts::Places;

/// The iteration at which a part begins: a name. That no held form has it is tested.
const BEGINNING: Counter = Counter {
    func: NAMES,
    id: LoopId::Inner(0),
};

/// What the parts of a run's lanes are made of.
#[derive(Clone, Copy)]
pub struct LaneParts<'a> {
    pub places: &'a Places,
    /// What registers hold around the run.
    pub scope: &'a [Held],
    /// The same with the register that holds where a part begins.
    pub inner: &'a [Held],
    pub register: u8,
    /// The variable that it holds.
    pub by: Counter,
    /// The lanes of the whole run.
    pub lanes: VectorLanes,
    /// The sums that say how many iterations there are.
    pub left: &'a [Left],
    /// The groups of a part.
    pub group: LaneGroup,
    /// What is made, where the loop's variable is further by that variable's value.
    pub made: &'a Expr,
}

/// One part: the first of its iterations, and the group that gets their values.
#[derive(Clone, Copy, Debug)]
pub struct LanePart {
    pub slot: u8,
    pub from: u32,
}

/// Appends what configures as many lanes of a part as there are iterations from this one on, and leaves that one in the
/// register. Where there are none, they are the first iterations once more.
fn emit_part_lanes(
    alloc: Global,
    code: &mut Vec<u32>,
    lane_parts: &LaneParts<'_>,
    from: u32,
) -> Result<(), CodeFault>
    requires ready { IsReady lane_parts.now }
    requires inside { from + part_lanes lane_parts.now ≤ all_lanes lane_parts.now.lanes }
    ensures { OnOk result (ConfiguresPart code.old.items code.new.items lane_parts.now from) }
{
    emit_number(code, lane_parts.register, from)?;
    match lane_parts.left {
        [] => {
            put_all(code, lane_parts.group)?;
            Ok(())
        }
        [first, others @ ..] => {
            emit_least(
                alloc,
                code,
                lane_parts.scope,
                lane_parts.lanes.counter,
                first,
                others,
            )?;
            alu(code, AluOp::Sltu, ADDRESS, lane_parts.register, FIRST_VALUE)?;
            emit_times(code, lane_parts.register, ADDRESS, from)?;
            alu(
                code,
                AluOp::Sub,
                FIRST_VALUE,
                FIRST_VALUE,
                lane_parts.register,
            )?;
            configure(code, lane_parts.group, FIRST_VALUE)?;
            Ok(())
        }
    }
}

/// Appends what leaves the values of a part.
fn emit_part(
    alloc: Global,
    code: &mut Vec<u32>,
    lane_parts: &LaneParts<'_>,
    part: LanePart,
) -> Result<(), CodeFault>
    requires ready { IsReady lane_parts.now }
    requires stack { part.slot < groups.slots lane_parts.now.group }
    requires inside { part.from + part_lanes lane_parts.now ≤ all_lanes lane_parts.now.lanes }
    ensures { OnOk result (MakesPart code.old.items code.new.items lane_parts.now part.slot part.from
        (part.from + part_lanes lane_parts.now)) }
{
    let site = LaneSite {
        places: lane_parts.places,
        scope: lane_parts.inner,
        lanes: VectorLanes {
            counter: lane_parts.lanes.counter,
            group: lane_parts.group,
        },
    };
    emit_part_lanes(alloc, code, lane_parts, part.from)?;
    emit_lanes(alloc, code, &site, lane_parts.made, part.slot)?;
    Ok(())
}

/// Appends what leaves the values of a part and of all parts after it.
fn emit_parts(
    alloc: Global,
    code: &mut Vec<u32>,
    lane_parts: &LaneParts<'_>,
    part: LanePart,
) -> Result<(), CodeFault>
    requires ready { IsReady lane_parts.now }
    requires stack { part.slot < groups.slots lane_parts.now.group }
    requires inside { part.from + part_lanes lane_parts.now ≤ all_lanes lane_parts.now.lanes }
    ensures { OnOk result (MakesPart code.old.items code.new.items lane_parts.now part.slot part.from
        (all_lanes lane_parts.now.lanes)) }
{
    emit_part(alloc, code, lane_parts, part)?;
    let all = lane_parts.lanes.group.lanes();
    let from = part.from + lane_parts.group.lanes();
    if from == all {
        return Ok(());
    }
    let slot = part.slot + 1;
    if slot >= lane_parts.group.slots() || from + lane_parts.group.lanes() > all {
        return Err(CodeFault::TooDeep);
    }
    emit_parts(alloc, code, lane_parts, LanePart { slot, from })?;
    Ok(())
}

/// The group of the stack that begins with a register.
fn slot_at(group: LaneGroup, register: u8) -> Option<u8>
    ensures { IfSome result (λ k. (k < groups.slots group) × (groups.slot group k ≡ register)) }
{
    let slot = match group {
        LaneGroup::One => register.saturating_sub(2),
        LaneGroup::Two => (register / 2).saturating_sub(2),
        LaneGroup::Four => (register / 4).saturating_sub(1),
    };
    if slot < group.slots() && group.slot(slot) == register {
        Some(slot)
    } else {
        None
    }
}

/// The group of the stack that values go to, and the smaller groups of parts.
#[derive(Clone, Copy, Debug)]
pub(crate) struct TargetGroup {
    pub k: u8,
    pub group: LaneGroup,
}

/// Appends what configures a lane for each iteration that stores, and leaves an expression's values in a group: part by
/// part, in groups of fewer registers.
///
/// # Errors
///
/// Memory ran out, or groups and registers do not suffice for this way of making code.
pub(crate) fn emit_in_parts(
    alloc: Global,
    code: &mut Vec<u32>,
    site: &LaneSite<'_>,
    left: &[Left],
    target: TargetGroup,
    e: &Expr,
) -> Result<(), CodeFault>
    requires registers { are_registers site.now.scope.now ≡ true }
    requires stack { target.k < groups.slots site.now.lanes.group }
    ensures { OnOk result (MakesRun code.old.items code.new.items site.now.places.now site.now.scope.now
        site.now.lanes (left_lanes site.now.lanes left.now) target.k e.now) }
{
    let by = BEGINNING;
    let VectorLanes {
        counter,
        group: whole,
    } = site.lanes;
    let group = target.group;
    if same_counter(by, counter) || mentions(site.scope, by) || mentions(site.scope, counter) {
        return Err(CodeFault::TooDeep);
    }
    if group.lanes() > whole.lanes() || group.slot(0) > whole.slot(0) {
        return Err(CodeFault::TooDeep);
    }
    let Some(slot) = slot_at(group, whole.slot(target.k)) else {
        return Err(CodeFault::TooDeep);
    };
    let Some(register) = free_register(site.scope, 0) else {
        return Err(CodeFault::TooDeep);
    };
    let form = variable(alloc, by)?;
    let inner = with_held(alloc, site.scope, register, &form)?;
    let made = further_on(alloc, e, Further { counter, by })?;
    let own = LaneParts {
        places: site.places,
        scope: site.scope,
        inner: inner.as_slice(),
        register,
        by,
        lanes: site.lanes,
        left,
        group,
        made: &made,
    };
    let done = emit_parts(alloc, code, &own, LanePart { slot, from: 0 });
    drop(made);
    done?;
    emit_left_lanes(alloc, code, site.scope, site.lanes, left)?;
    Ok(())
}
