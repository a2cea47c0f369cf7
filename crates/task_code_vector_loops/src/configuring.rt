//! How many lanes a run has.

ghost use Rattle.std.specs.Prelude.{◌≡◌, [], ◌∷◌, OnOk, true};
ghost use Rattle.rv_insn.specs.declared.instructions.Insn.TheVariants.{Vector as vector_row};
ghost use Rattle.rv_insn.specs.declared.vector_instructions.VectorInsn.TheVariants as v;
ghost use Rattle.task_code_lanes.specs.Groups as groups;
ghost use Rattle.task_code_scalar.specs.Words.{Emits};
ghost use Rattle.task_code_registers.specs.Scopes.{are_registers};
ghost use Rattle.task_code_vector_loops.specs.Runs.{group_lanes, left_lanes};
ghost use Rattle.task_code_vector_loops.specs.inner.Making.{Configures, MakesLeast};

use crate::left::{Left, emit_first_left, emit_left};
use halide_pipeline::Operation;
use loop_ir::expressions::Counter;
use rv_insn::{Insn, Length5, VectorInsn, Vtype10};
use std::alloc::{AllocError, Global};
use task_code_lane_values::vectorized::VectorLanes;
use task_code_lanes::groups::LaneGroup;
use task_code_lanes::vectors::configure;
use task_code_registers::registers::FIRST_VALUE;
use task_code_registers::scopes::Held;
use task_code_scalar::CodeFault;
use task_code_scalar::instructions::{put, register};
use task_code_values::operations::emit_operation;

/// The configuration of lanes of 32 bits in such groups.
fn vtype(group: LaneGroup) -> Vtype10
    ensures { result ≡ groups.vtype_of group }
{
    let bits = match group {
        LaneGroup::One => 16,
        LaneGroup::Two => 17,
        LaneGroup::Four => 18,
    };
    Vtype10::new(bits).unwrap()
}

/// As many lanes as groups have.
fn lane_count(group: LaneGroup) -> Length5
    ensures { result ≡ group_lanes group }
{
    let count = match group {
        LaneGroup::One => 4,
        LaneGroup::Two => 8,
        LaneGroup::Four => 16,
    };
    Length5::new(count).unwrap()
}

/// Appends the instruction that configures as many lanes as groups have.
pub(crate) fn put_all(code: &mut Vec<u32>, group: LaneGroup) -> Result<(), AllocError>
    ensures { OnOk result (Emits code.old.items code.new.items
        (vector_row (v.Vsetivli 0 (group_lanes group) (groups.vtype_of group)) ∷ [])) }
{
    let insn = VectorInsn::Vsetivli {
        rd: register(0),
        length: lane_count(group),
        vtype: vtype(group),
    };
    put(code, &Insn::Vector(insn))?;
    Ok(())
}

/// Appends what leaves the least number of iterations that one of some sums leaves, as numbers with a sign, where
/// values are made.
pub(crate) fn emit_least(
    alloc: Global,
    code: &mut Vec<u32>,
    scope: &[Held],
    counter: Counter,
    first: &Left,
    others: &[Left],
) -> Result<(), CodeFault>
    ensures { OnOk result (MakesLeast code.old.items code.new.items scope.now counter first.now others.now) }
{
    match others {
        [] => {
            emit_first_left(alloc, code, scope, counter, first)?;
            Ok(())
        }
        [next, rest @ ..] => {
            emit_least(alloc, code, scope, counter, next, rest)?;
            let register = emit_left(alloc, code, scope, counter, first)?;
            emit_operation(code, Operation::Minimum, FIRST_VALUE, FIRST_VALUE, register)?;
            Ok(())
        }
    }
}

/// Appends what configures a lane for each of as many iterations as the least that one of the sums leaves, but no more
/// than there are lanes for; for this many where there is no sum.
pub fn emit_left_lanes(
    alloc: Global,
    code: &mut Vec<u32>,
    scope: &[Held],
    lanes: VectorLanes,
    left: &[Left],
) -> Result<(), CodeFault>
    requires { are_registers scope.now ≡ true }
    ensures { OnOk result (Configures code.old.items code.new.items scope.now lanes (left_lanes lanes left.now)) }
{
    match left {
        [] => {
            put_all(code, lanes.group)?;
            Ok(())
        }
        [only] => {
            let register = emit_left(alloc, code, scope, lanes.counter, only)?;
            configure(code, lanes.group, register)?;
            Ok(())
        }
        [first, others @ ..] => {
            emit_least(alloc, code, scope, lanes.counter, first, others)?;
            configure(code, lanes.group, FIRST_VALUE)?;
            Ok(())
        }
    }
}
