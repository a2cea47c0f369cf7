//! Vectorized loops that collect their pixels: each iteration puts one into a lane, one after the other, and one
//! instruction stores them all.

ghost use Rattle.std.specs.Prelude.{◌≡◌, ◌<◌, ◌*◌, OnOk, IfErr, true};
ghost use Rattle.loop_ir.specs.declared.statements.LoopKind.TheVariants.{Vectorized as vectorized};
ghost use Rattle.loop_ir.specs.declared.statements.Stmt.TheVariants as stmts;
ghost use Rattle.task_code_lanes.specs.Groups.{registers};
ghost use Rattle.task_code_variables.specs.Collecting as spec;
ghost use Rattle.task_code_variables.specs.Collecting.{Collects, PutsIntoLane};
ghost use Rattle.task_code_variables.specs.Renaming.{HoldsAround};
ghost use Rattle.task_code_variables.specs.Statements.{AppendsStatement, IsStatementFault};

use crate::renaming::{numbered, renamed_store};
use crate::splits::enter_split;
use crate::statements::depth;
use loop_ir::expressions::Counter;
use loop_ir::statements::{LoopKind, Stmt, Store};
use rv_insn::AluImmOp;
use std::alloc::{AllocError, Global};
use task_code_lanes::groups::LaneGroup;
use task_code_lanes::marks::{configure_none, mark_lane, put_marked};
use task_code_lanes::vectors::{configure, lane_numbers, store_at};
use task_code_loops::beginning::begin_loop;
use task_code_loops::bounds::Bound;
use task_code_loops::ending::end_loop;
use task_code_loops::guards::emit_guarded;
use task_code_loops::tests::variable;
use task_code_registers::registers::{ADDRESS, SECOND_SCRATCH, ZERO};
use task_code_registers::sums::register_of;
use task_code_scalar::CodeFault;
use task_code_scalar::instructions::alu_small;
use task_code_scalar::loops::with_counter;
use task_code_values::sites::Site;
use task_code_values::stores::prepare_store;

/// A vectorized loop, taken apart: it has as many iterations as its groups have lanes.
#[derive(Clone, Copy)]
pub(crate) struct VectorLoop<'a> {
    pub counter: Counter,
    pub group: LaneGroup,
    pub body: &'a Stmt,
}

/// Whether a statement is one store, under the values of split loops.
#[tactic(auto, unfolding(crate::specs::Collecting::is_one_store))]
fn is_one_store(statement: &Stmt) -> bool
    ensures { result ≡ spec.is_one_store statement.now }
{
    match statement {
        Stmt::Store(_) => true,
        Stmt::Sequence(_, _) => false,
        Stmt::For(_, _, _, _) => false,
        Stmt::Bind(_, _, _, body) => is_one_store(body.get()),
    }
}

/// The groups in which a loop collects its pixels, if it does.
pub(crate) fn group_collected(count: u32, kind: LoopKind, body: &Stmt) -> Option<LaneGroup>
    ensures { result ≡ spec.group_collected count kind body.now }
{
    match kind {
        LoopKind::Serial => None,
        LoopKind::Unrolled => None,
        LoopKind::Vectorized => {
            if is_one_store(body) {
                LaneGroup::of_lanes(count)
            } else {
                None
            }
        }
    }
}

/// The lane of these groups whose number, the iteration's, a register holds.
#[derive(Clone, Copy)]
struct Lane {
    group: LaneGroup,
    r: u8,
}

/// Appends what puts a register's number, and the address beside it, into the iteration's lane.
fn put_into_lane(code: &mut Vec<u32>, lane: Lane, s: u8) -> Result<(), AllocError>
    requires { (lane.r < 32) × (s < 32) }
    ensures { OnOk result (PutsIntoLane code.old.items code.new.items lane.group lane.r s) }
{
    let Lane { group, r } = lane;
    alu_small(code, AluImmOp::Addi, SECOND_SCRATCH, r, 1)?;
    configure(code, group, SECOND_SCRATCH)?;
    let numbers = group.slot(2);
    lane_numbers(code, numbers)?;
    mark_lane(code, numbers, r)?;
    put_marked(code, group.slot(0), s)?;
    put_marked(code, group.slot(1), ADDRESS)?;
    Ok(())
}

/// Appends what collects a store's pixel.
fn collect_store(
    alloc: Global,
    code: &mut Vec<u32>,
    site: &Site<'_>,
    around: &[Counter],
    lane: Lane,
    store: &Store,
) -> Result<(), CodeFault>
    requires holds { HoldsAround around.now site.now.scope.now }
    requires low { lane.r < 32 }
    ensures ok { OnOk result (Collects code.old.items code.new.items site.now.places.now site.now.scope.now around.now
        lane.group lane.r (stmts.Store store.now)) }
    ensures err { IfErr result (IsStatementFault site.now.places.now site.now.scope.now (stmts.Store store.now)) }
{
    let made = renamed_store(alloc, around, store)?;
    let prepared = prepare_store(alloc, code, site.places, site.scope, &made);
    drop(made);
    let s = prepared?;
    put_into_lane(code, lane, s)?;
    Ok(())
}

/// Appends what collects the pixel of an iteration, whose number is in a register.
fn collect_pixel(
    alloc: Global,
    code: &mut Vec<u32>,
    site: &Site<'_>,
    around: &[Counter],
    lane: Lane,
    statement: &Stmt,
) -> Result<(), CodeFault>
    requires holds { HoldsAround around.now site.now.scope.now }
    requires low { lane.r < 32 }
    requires one { spec.is_one_store statement.now ≡ true }
    ensures ok { OnOk result (Collects code.old.items code.new.items site.now.places.now site.now.scope.now around.now
        lane.group lane.r statement.now) }
    ensures err { IfErr result (IsStatementFault site.now.places.now site.now.scope.now statement.now) }
{
    match statement {
        Stmt::Store(store) => {
            collect_store(alloc, code, site, around, lane, store)?;
            Ok(())
        }
        Stmt::Sequence(_, _) => Err(CodeFault::TooDeep),
        Stmt::For(_, _, _, _) => Err(CodeFault::TooDeep),
        Stmt::Bind(counter, whole, extent, body) => {
            let scope = enter_split(alloc, code, site.scope, around, whole)?;
            let within = Site {
                places: site.places,
                scope: scope.as_slice(),
            };
            let inner = with_counter(alloc, around, *counter)?;
            let mut words = Vec::new(alloc);
            collect_pixel(
                alloc,
                &mut words,
                &within,
                inner.as_slice(),
                lane,
                body.get(),
            )?;
            let form = variable(alloc, numbered(around.len()))?;
            let made = words.as_slice();
            emit_guarded(code, within.scope, &form, *extent, made)?;
            Ok(())
        }
    }
}

/// Appends a loop whose iterations collect their pixels.
pub(crate) fn emit_collected(
    alloc: Global,
    code: &mut Vec<u32>,
    site: &Site<'_>,
    around: &[Counter],
    vector_loop: &VectorLoop<'_>,
) -> Result<(), CodeFault>
    requires holds { HoldsAround around.now site.now.scope.now }
    requires one { spec.is_one_store vector_loop.now.body.now ≡ true }
    ensures ok { OnOk result (AppendsStatement code.old.items code.new.items site.now.places.now site.now.scope.now
        around.now (stmts.For vector_loop.now.counter (4 * registers vector_loop.now.group) vectorized
        vector_loop.now.body.now)) }
    ensures err { IfErr result (IsStatementFault site.now.places.now site.now.scope.now
        (stmts.For vector_loop.now.counter (4 * registers vector_loop.now.group) vectorized vector_loop.now.body.now)) }
{
    let VectorLoop {
        counter,
        group,
        body,
    } = *vector_loop;
    let number = numbered(around.len());
    let numbers = Bound {
        counter: number,
        count: group.lanes(),
    };
    let begun = begin_loop(alloc, code, site.scope, numbers, &[], depth(body))?;
    configure_none(code, group)?;
    let start = code.len();
    let within = Site {
        places: site.places,
        scope: begun.inner.as_slice(),
    };
    let inner = with_counter(alloc, around, counter)?;
    let r = register_of(within.scope, number);
    let lane = Lane { group, r };
    collect_pixel(alloc, code, &within, inner.as_slice(), lane, body)?;
    end_loop(code, &begun, start)?;
    store_at(code, group.slot(0), ZERO, group.slot(1))?;
    Ok(())
}
