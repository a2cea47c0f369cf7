//! The code of a vectorized loop of one store.

ghost use Rattle.std.specs.Prelude.{◌≡◌, OnOk, true};
ghost use Rattle.task_code_registers.specs.Scopes.{are_registers};
ghost use Rattle.task_code_values.specs.Operands.{IsSum};
ghost use Rattle.task_code_vector_loops.specs.Runs.{EmitsRun, left_lanes};
ghost use Rattle.task_code_vector_loops.specs.inner.Far.{MakesFar};
ghost use Rattle.task_code_vector_loops.specs.inner.Parting.{MakesRun};

use crate::configuring::emit_left_lanes;
use crate::distances::distance_of;
use crate::left::Left;
use crate::parts::{TargetGroup, emit_in_parts};
use crate::pointers::emit_pointer;
use halide_pipeline::Source;
use loop_ir::expressions::{Expr, Linear};
use loop_ir::statements::Store;
use std::alloc::Global;
use task_code_lane_values::needs::groups_needed;
use task_code_lane_values::sharing::emit_values;
use task_code_lane_values::values::{BufferPoint, emit_point_distances};
use task_code_lane_values::vectorized::{LaneSite, VectorLanes};
use task_code_lanes::groups::LaneGroup;
use task_code_lanes::vectors::{store_at, store_row, store_strided};
use task_code_registers::holding::stride_of;
use task_code_registers::numbers::emit_number;
use task_code_registers::points::point_form;
use task_code_registers::registers::FIRST_VALUE;
use task_code_registers::scopes::are_registers;
use task_code_scalar::CodeFault;
use task_code_scalar::layouts::place_of;
use task_code_values::expressions::sum_of;
use task_code_values::sites::Site;

/// How far points lie apart whose words lie one after the other.
const WORD_BYTES: u32 = 4;

/// The group of the stack for the values that are stored.
const VALUES: u8 = 0;

/// The group of the stack for distances of the points at which they are.
const DISTANCES: u8 = 1;

/// The sums that the indexes of a point are.
#[derive(Debug)]
struct Point {
    column: Linear,
    row: Linear,
}

impl Drop for Point {
    fn drop(self) {
        let Point { column, row } = self;
        drop(column);
        drop(row);
    }
}

/// The smaller groups in which values that need this many groups from group k on are made, where there are fewer; none
/// where there are enough, or no smaller ones.
fn part_group(whole: LaneGroup, k: u8, needed: u8) -> Option<LaneGroup> {
    if k.saturating_add(needed) <= whole.slots() {
        return None;
    }
    match whole {
        LaneGroup::One => None,
        LaneGroup::Two => Some(LaneGroup::One),
        LaneGroup::Four => {
            // the second half of group k is group 2k + 1
            if k.saturating_add(k).saturating_add(needed) < LaneGroup::Two.slots() {
                Some(LaneGroup::Two)
            } else {
                Some(LaneGroup::One)
            }
        }
    }
}

/// Appends what configures a lane for each iteration that stores, and leaves an expression's values in the first group.
fn emit_made(
    alloc: Global,
    code: &mut Vec<u32>,
    site: &LaneSite<'_>,
    left: &[Left],
    e: &Expr,
) -> Result<(), CodeFault>
    requires { are_registers site.now.scope.now ≡ true }
    ensures { OnOk result (MakesRun code.old.items code.new.items site.now.places.now site.now.scope.now
        site.now.lanes (left_lanes site.now.lanes left.now) 0 e.now) }
{
    let needed = groups_needed(e, site.lanes.counter);
    match part_group(site.lanes.group, VALUES, needed) {
        None => {
            emit_left_lanes(alloc, code, site.scope, site.lanes, left)?;
            emit_values(alloc, code, site, e)?;
            Ok(())
        }
        Some(group) => {
            emit_in_parts(alloc, code, site, left, TargetGroup { k: VALUES, group }, e)?;
            Ok(())
        }
    }
}

/// Appends what leaves in the second group how far each iteration's point lies after its buffer's first pixel, where
/// lanes are configured, and are so after it too.
fn emit_far(
    alloc: Global,
    code: &mut Vec<u32>,
    site: &LaneSite<'_>,
    left: &[Left],
    point: &BufferPoint<'_>,
) -> Result<(), CodeFault>
    requires { are_registers site.now.scope.now ≡ true }
    ensures { OnOk result (MakesFar code.old.items code.new.items site.now.places.now site.now.scope.now
        site.now.lanes (left_lanes site.now.lanes left.now) point.now.place.now point.now.x.now point.now.y.now) }
{
    let k = DISTANCES;
    let column = groups_needed(point.x, site.lanes.counter);
    let row = groups_needed(point.y, site.lanes.counter).saturating_add(1);
    let needed = if column < row { row } else { column };
    match part_group(site.lanes.group, k, needed) {
        None => {
            emit_point_distances(alloc, code, site, point, k)?;
            Ok(())
        }
        Some(group) => {
            let made = distance_of(alloc, point)?;
            let done = emit_in_parts(alloc, code, site, left, TargetGroup { k, group }, &made);
            drop(made);
            done?;
            Ok(())
        }
    }
}

/// Appends what makes a store's values in all lanes, and stores them: one after the other, or at another stride.
fn emit_row(
    alloc: Global,
    code: &mut Vec<u32>,
    site: &LaneSite<'_>,
    left: &[Left],
    store: &Store,
    point: &Point,
) -> Result<(), CodeFault>
    requires registers { are_registers site.now.scope.now ≡ true }
    requires sums { IsSum store.now.x point.now.column × IsSum store.now.y point.now.row }
    ensures { OnOk result (EmitsRun code.old.items code.new.items site.now.places.now site.now.scope.now
        site.now.lanes (left_lanes site.now.lanes left.now) store.now) }
{
    let place = place_of(site.places, Source::Func(store.func));
    let form = point_form(alloc, &place, &point.column, &point.row)?;
    let stride = stride_of(form.sum.terms.as_slice(), site.lanes.counter);
    let values = site.lanes.group.slot(VALUES);
    emit_made(alloc, code, site, left, &store.value)?;
    if stride == WORD_BYTES {
        let pointer = emit_pointer(alloc, code, site.scope, site.lanes.counter, &form)?;
        store_row(code, values, pointer)?;
        return Ok(());
    }
    emit_number(code, FIRST_VALUE, stride)?;
    let pointer = emit_pointer(alloc, code, site.scope, site.lanes.counter, &form)?;
    store_strided(code, values, pointer, FIRST_VALUE)?;
    Ok(())
}

/// Appends what makes a store's values in all lanes, and stores them wherever its indexes say.
fn emit_scattered(
    alloc: Global,
    code: &mut Vec<u32>,
    site: &LaneSite<'_>,
    left: &[Left],
    store: &Store,
) -> Result<(), CodeFault>
    requires { are_registers site.now.scope.now ≡ true }
    ensures { OnOk result (EmitsRun code.old.items code.new.items site.now.places.now site.now.scope.now
        site.now.lanes (left_lanes site.now.lanes left.now) store.now) }
{
    let place = place_of(site.places, Source::Func(store.func));
    let zero = Linear::of_number(alloc, 0);
    let form = point_form(alloc, &place, &zero, &zero)?;
    let point = BufferPoint {
        place: &place,
        x: &store.x,
        y: &store.y,
    };
    let group = site.lanes.group;
    emit_made(alloc, code, site, left, &store.value)?;
    emit_far(alloc, code, site, left, &point)?;
    let pointer = emit_pointer(alloc, code, site.scope, site.lanes.counter, &form)?;
    store_at(code, group.slot(VALUES), pointer, group.slot(DISTANCES))?;
    Ok(())
}

/// Appends the code of a vectorized loop that does a store in as many of its first iterations as the least that one of
/// the sums leaves, or in each where there is no sum: all at once.
///
/// # Errors
///
/// Memory ran out, or groups and registers do not suffice for this way of making code, as where a stride is 0, the
/// scope holds `vl` or `vtype`, or, of values in parts, a held form has the loop's variable.
pub fn emit_run(
    alloc: Global,
    code: &mut Vec<u32>,
    site: &Site<'_>,
    vector_lanes: VectorLanes,
    left: &[Left],
    store: &Store,
) -> Result<(), CodeFault>
    ensures { OnOk result (EmitsRun code.old.items code.new.items site.now.places.now site.now.scope.now vector_lanes
        (left_lanes vector_lanes left.now) store.now) }
{
    if !are_registers(site.scope) {
        return Err(CodeFault::TooDeep);
    }
    let along = LaneSite {
        places: site.places,
        scope: site.scope,
        lanes: vector_lanes,
    };
    if let Some(column) = sum_of(alloc, &store.x)? {
        if let Some(row) = sum_of(alloc, &store.y)? {
            let point = Point { column, row };
            emit_row(alloc, code, &along, left, store, &point)?;
            return Ok(());
        }
    }
    emit_scattered(alloc, code, &along, left, store)?;
    Ok(())
}
