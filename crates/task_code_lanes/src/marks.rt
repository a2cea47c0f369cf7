//! Single vector instructions that mark an iteration's lane and put numbers into it.

ghost use Rattle.std.specs.Prelude.{◌≡◌, ◌<◌, [], ◌∷◌, OnOk, true};
ghost use Rattle.rv_insn.specs.declared.instructions.Insn.TheVariants.{Vector};
ghost use Rattle.rv_insn.specs.declared.vector_instructions.VectorInsn.TheVariants as v;
ghost use Rattle.rv_insn.specs.declared.vector_operations.CompareVxOp.TheVariants.{Vmseq as equal};
ghost use Rattle.task_code_lanes.specs.Groups as spec;
ghost use Rattle.task_code_scalar.specs.Words.{Emits};

use crate::groups::LaneGroup;
use crate::vectors::{put_vector, vector};
use rv_insn::{CompareVxOp, Length5, VectorInsn, Vtype10};
use std::alloc::AllocError;
use task_code_scalar::instructions::register;

/// The configuration of lanes of 32 bits in such groups, as `vsetivli` carries it.
fn vtype(group: LaneGroup) -> Vtype10
    ensures { result ≡ spec.vtype_of group }
{
    let bits = match group {
        LaneGroup::One => 16,
        LaneGroup::Two => 17,
        LaneGroup::Four => 18,
    };
    Vtype10::new(bits).unwrap()
}

/// Appends a configuration of no lanes.
pub fn configure_none(code: &mut Vec<u32>, group: LaneGroup) -> Result<(), AllocError>
    ensures { OnOk result (Emits code.old.items code.new.items (Vector (v.Vsetivli 0 0 (spec.vtype_of group)) ∷ [])) }
{
    let insn = VectorInsn::Vsetivli {
        rd: register(0),
        length: Length5::new(0).unwrap(),
        vtype: vtype(group),
    };
    put_vector(code, insn)?;
    Ok(())
}

/// Appends a test of which lanes are a register's number, into the mask.
pub fn mark_lane(code: &mut Vec<u32>, a: u8, r: u8) -> Result<(), AllocError>
    requires { (a < 32) × (r < 32) }
    ensures { OnOk result (Emits code.old.items code.new.items (Vector (v.CompareVx equal 0 a r true) ∷ [])) }
{
    let insn = VectorInsn::CompareVx {
        op: CompareVxOp::Vmseq,
        vd: vector(0),
        vs2: vector(a),
        rs1: register(r),
        vm: true,
    };
    put_vector(code, insn)?;
    Ok(())
}

/// Appends what sets lanes to a register's number where the mask has a 1.
pub fn put_marked(code: &mut Vec<u32>, d: u8, r: u8) -> Result<(), AllocError>
    requires { (d < 32) × (r < 32) }
    ensures { OnOk result (Emits code.old.items code.new.items (Vector (v.MergeVx d d r) ∷ [])) }
{
    let insn = VectorInsn::MergeVx {
        vd: vector(d),
        vs2: vector(d),
        rs1: register(r),
    };
    put_vector(code, insn)?;
    Ok(())
}
