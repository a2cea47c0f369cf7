//! Vector instructions as words, some in pairs, on whole groups (of bytes: on one register); none but merges goes by a
//! mask.

ghost use Rattle.std.specs.Prelude.{◌≡◌, ◌<◌, ◌≤ℤ◌, [], ◌∷◌, OnOk, pos, negsuc, true};
ghost use Rattle.rv_insn.specs.declared.instructions.Insn.TheVariants.{Vector};
ghost use Rattle.rv_insn.specs.declared.vector_instructions.VectorInsn.TheVariants as v;
ghost use Rattle.rv_insn.specs.declared.vector_instructions.Addressing.TheVariants as addressings;
ghost use Rattle.rv_insn.specs.declared.vector_operations.ElementWidth.TheVariants.{Bits8 as bytes, Bits32 as words};
ghost use Rattle.rv_insn.specs.declared.vector_operations.ShiftViOp.TheVariants.{Vsll as shift_left};
ghost use Rattle.rv_insn.specs.declared.vector_operations.ShiftViOp.TheVariants.{Vsra as shift_right};
ghost use Rattle.rv_insn.specs.declared.vector_operations.CompareViOp.TheVariants.{Vmsne as not_equal};
ghost use Rattle.rv_insn.specs.declared.vector_operations.ArithmeticViOp.TheVariants.{Vadd as plus_number};
ghost use Rattle.rv_insn.specs.declared.vector_operations.ArithmeticViOp.TheVariants.{Vand as both_bits};
ghost use Rattle.task_code_lanes.specs.Groups as spec;
ghost use Rattle.task_code_lanes.specs.declared.groups.LaneGroup.TheVariants as groups;
ghost use Rattle.task_code_scalar.specs.Words.{Emits};

use crate::groups::LaneGroup;
use rv_insn::{
    Addressing, ArithmeticViOp, ArithmeticVvOp, ArithmeticVxOp, CompareViOp, CompareVvOp,
    ElementWidth, Imm5, Insn, Length5, MultiplyOp, ShiftAmount, ShiftViOp, VReg, VectorInsn,
    Vtype10,
};
use std::alloc::AllocError;
use task_code_scalar::instructions::{put, register};

/// The vector register with this number.
pub(crate) fn vector(number: u8) -> VReg
    requires { number < 32 }
    ensures { result ≡ number }
{
    VReg::new(number).unwrap()
}

pub(crate) fn put_vector(code: &mut Vec<u32>, insn: VectorInsn) -> Result<(), AllocError>
    ensures { OnOk result (Emits code.old.items code.new.items (Vector insn ∷ [])) }
{
    put(code, &Insn::Vector(insn))?;
    Ok(())
}

/// Appends an operation on the lanes of two groups.
pub fn arithmetic(
    code: &mut Vec<u32>,
    op: ArithmeticVvOp,
    d: u8,
    a: u8,
    b: u8,
) -> Result<(), AllocError>
    requires { (d < 32) × (a < 32) × (b < 32) }
    ensures { OnOk result (Emits code.old.items code.new.items (Vector (v.ArithmeticVv op d a b true) ∷ [])) }
{
    let insn = VectorInsn::ArithmeticVv {
        op,
        vd: vector(d),
        vs2: vector(a),
        vs1: vector(b),
        vm: true,
    };
    put_vector(code, insn)?;
    Ok(())
}

/// Appends an operation on the lanes of a group and a register.
pub fn arithmetic_by(
    code: &mut Vec<u32>,
    op: ArithmeticVxOp,
    d: u8,
    a: u8,
    r: u8,
) -> Result<(), AllocError>
    requires { (d < 32) × (a < 32) × (r < 32) }
    ensures { OnOk result (Emits code.old.items code.new.items (Vector (v.ArithmeticVx op d a r true) ∷ [])) }
{
    let insn = VectorInsn::ArithmeticVx {
        op,
        vd: vector(d),
        vs2: vector(a),
        rs1: register(r),
        vm: true,
    };
    put_vector(code, insn)?;
    Ok(())
}

/// Appends a product, a quotient or a remainder of the lanes of two groups.
pub fn multiplication(
    code: &mut Vec<u32>,
    op: MultiplyOp,
    d: u8,
    a: u8,
    b: u8,
) -> Result<(), AllocError>
    requires { (d < 32) × (a < 32) × (b < 32) }
    ensures { OnOk result (Emits code.old.items code.new.items (Vector (v.MultiplyVv op d a b true) ∷ [])) }
{
    let insn = VectorInsn::MultiplyVv {
        op,
        vd: vector(d),
        vs2: vector(a),
        vs1: vector(b),
        vm: true,
    };
    put_vector(code, insn)?;
    Ok(())
}

/// Appends a product, a quotient or a remainder of the lanes of a group by a register.
pub fn multiplication_by(
    code: &mut Vec<u32>,
    op: MultiplyOp,
    d: u8,
    a: u8,
    r: u8,
) -> Result<(), AllocError>
    requires { (d < 32) × (a < 32) × (r < 32) }
    ensures { OnOk result (Emits code.old.items code.new.items (Vector (v.MultiplyVx op d a r true) ∷ [])) }
{
    let insn = VectorInsn::MultiplyVx {
        op,
        vd: vector(d),
        vs2: vector(a),
        rs1: register(r),
        vm: true,
    };
    put_vector(code, insn)?;
    Ok(())
}

/// Appends what sets lanes to all ones where those of a group are negative, and else to 0.
pub fn signs(code: &mut Vec<u32>, d: u8, a: u8) -> Result<(), AllocError>
    requires { (d < 32) × (a < 32) }
    ensures { OnOk result (Emits code.old.items code.new.items (Vector (v.ShiftVi shift_right d a 31 true) ∷ [])) }
{
    let insn = VectorInsn::ShiftVi {
        op: ShiftViOp::Vsra,
        vd: vector(d),
        vs2: vector(a),
        amount: ShiftAmount::new(31).unwrap(),
        vm: true,
    };
    put_vector(code, insn)?;
    Ok(())
}

/// Appends what makes eight times each lane of a group.
pub fn times_eight(code: &mut Vec<u32>, d: u8, a: u8) -> Result<(), AllocError>
    requires { (d < 32) × (a < 32) }
    ensures { OnOk result (Emits code.old.items code.new.items (Vector (v.ShiftVi shift_left d a 3 true) ∷ [])) }
{
    let insn = VectorInsn::ShiftVi {
        op: ShiftViOp::Vsll,
        vd: vector(d),
        vs2: vector(a),
        amount: ShiftAmount::new(3).unwrap(),
        vm: true,
    };
    put_vector(code, insn)?;
    Ok(())
}

/// Appends what clears the two lowest bits of each lane.
pub fn clear_low_bits(code: &mut Vec<u32>, d: u8) -> Result<(), AllocError>
    requires { d < 32 }
    ensures { OnOk result (Emits code.old.items code.new.items (Vector (v.ArithmeticVi both_bits d d (negsuc 3) true)
        ∷ [])) }
{
    let insn = VectorInsn::ArithmeticVi {
        op: ArithmeticViOp::Vand,
        vd: vector(d),
        vs2: vector(d),
        imm: Imm5::new(-4).unwrap(),
        vm: true,
    };
    put_vector(code, insn)?;
    Ok(())
}

/// Appends what makes four times each lane.
pub fn times_four(code: &mut Vec<u32>, d: u8) -> Result<(), AllocError>
    requires { d < 32 }
    ensures { OnOk result (Emits code.old.items code.new.items (Vector (v.ShiftVi shift_left d d 2 true) ∷ [])) }
{
    let insn = VectorInsn::ShiftVi {
        op: ShiftViOp::Vsll,
        vd: vector(d),
        vs2: vector(d),
        amount: ShiftAmount::new(2).unwrap(),
        vm: true,
    };
    put_vector(code, insn)?;
    Ok(())
}

/// Appends a comparison of the lanes of two groups, into the mask.
pub fn comparison(code: &mut Vec<u32>, op: CompareVvOp, a: u8, b: u8) -> Result<(), AllocError>
    requires { (a < 32) × (b < 32) }
    ensures { OnOk result (Emits code.old.items code.new.items (Vector (v.CompareVv op 0 a b true) ∷ [])) }
{
    let insn = VectorInsn::CompareVv {
        op,
        vd: vector(0),
        vs2: vector(a),
        vs1: vector(b),
        vm: true,
    };
    put_vector(code, insn)?;
    Ok(())
}

/// Appends a test of which lanes are not 0, into the mask.
pub fn test_nonzero(code: &mut Vec<u32>, a: u8) -> Result<(), AllocError>
    requires { a < 32 }
    ensures { OnOk result (Emits code.old.items code.new.items (Vector (v.CompareVi not_equal 0 a (pos 0) true) ∷ [])) }
{
    let insn = VectorInsn::CompareVi {
        op: CompareViOp::Vmsne,
        vd: vector(0),
        vs2: vector(a),
        imm: Imm5::new(0).unwrap(),
        vm: true,
    };
    put_vector(code, insn)?;
    Ok(())
}

/// Appends a choice of lanes by the mask: of `b` where it has a 1, else of `a`.
pub fn merge(code: &mut Vec<u32>, d: u8, a: u8, b: u8) -> Result<(), AllocError>
    requires { (d < 32) × (a < 32) × (b < 32) }
    ensures { OnOk result (Emits code.old.items code.new.items (Vector (v.MergeVv d a b) ∷ [])) }
{
    let insn = VectorInsn::MergeVv {
        vd: vector(d),
        vs2: vector(a),
        vs1: vector(b),
    };
    put_vector(code, insn)?;
    Ok(())
}

/// Appends what sets lanes to 1 where the mask has a 1.
pub fn merge_one(code: &mut Vec<u32>, d: u8) -> Result<(), AllocError>
    requires { d < 32 }
    ensures { OnOk result (Emits code.old.items code.new.items (Vector (v.MergeVi d d (pos 1)) ∷ [])) }
{
    let insn = VectorInsn::MergeVi {
        vd: vector(d),
        vs2: vector(d),
        imm: Imm5::new(1).unwrap(),
    };
    put_vector(code, insn)?;
    Ok(())
}

/// Appends what sets all lanes to 0.
pub fn clear(code: &mut Vec<u32>, d: u8) -> Result<(), AllocError>
    requires { d < 32 }
    ensures { OnOk result (Emits code.old.items code.new.items (Vector (v.MoveVi d (pos 0)) ∷ [])) }
{
    let insn = VectorInsn::MoveVi {
        vd: vector(d),
        imm: Imm5::new(0).unwrap(),
    };
    put_vector(code, insn)?;
    Ok(())
}

/// Appends what sets all lanes to a register's number.
pub fn spread(code: &mut Vec<u32>, d: u8, r: u8) -> Result<(), AllocError>
    requires { (d < 32) × (r < 32) }
    ensures { OnOk result (Emits code.old.items code.new.items (Vector (v.MoveVx d r) ∷ [])) }
{
    let insn = VectorInsn::MoveVx {
        vd: vector(d),
        rs1: register(r),
    };
    put_vector(code, insn)?;
    Ok(())
}

/// Appends what sets each lane to its number.
pub fn lane_numbers(code: &mut Vec<u32>, d: u8) -> Result<(), AllocError>
    requires { d < 32 }
    ensures { OnOk result (Emits code.old.items code.new.items (Vector (v.ElementNumbers d true) ∷ [])) }
{
    let insn = VectorInsn::ElementNumbers {
        vd: vector(d),
        vm: true,
    };
    put_vector(code, insn)?;
    Ok(())
}

/// Appends what gives a register the first lane.
pub fn read_first(code: &mut Vec<u32>, r: u8, s: u8) -> Result<(), AllocError>
    requires { (r < 32) × (s < 32) }
    ensures { OnOk result (Emits code.old.items code.new.items (Vector (v.MoveToScalar r s) ∷ [])) }
{
    let insn = VectorInsn::MoveToScalar {
        rd: register(r),
        vs2: vector(s),
    };
    put_vector(code, insn)?;
    Ok(())
}

/// Appends a load of words one after the other.
pub fn load_row(code: &mut Vec<u32>, d: u8, r: u8) -> Result<(), AllocError>
    requires { (d < 32) × (r < 32) }
    ensures { OnOk result (Emits code.old.items code.new.items
        (Vector (v.LoadElements words d r addressings.UnitStride true) ∷ [])) }
{
    let insn = VectorInsn::LoadElements {
        width: ElementWidth::Bits32,
        vd: vector(d),
        rs1: register(r),
        addressing: Addressing::UnitStride,
        vm: true,
    };
    put_vector(code, insn)?;
    Ok(())
}

/// Appends a load of bytes one after the other, into one register.
fn load_bytes(code: &mut Vec<u32>, d: u8, r: u8) -> Result<(), AllocError>
    requires { (d < 32) × (r < 32) }
    ensures { OnOk result (Emits code.old.items code.new.items
        (Vector (v.LoadElements bytes d r addressings.UnitStride true) ∷ [])) }
{
    let insn = VectorInsn::LoadElements {
        width: ElementWidth::Bits8,
        vd: vector(d),
        rs1: register(r),
        addressing: Addressing::UnitStride,
        vm: true,
    };
    put_vector(code, insn)?;
    Ok(())
}

/// Appends what makes lanes of a register's bytes.
fn extend_bytes(code: &mut Vec<u32>, d: u8, a: u8) -> Result<(), AllocError>
    requires { (d < 32) × (a < 32) }
    ensures { OnOk result (Emits code.old.items code.new.items (Vector (v.ExtendBytes d a true) ∷ [])) }
{
    let insn = VectorInsn::ExtendBytes {
        vd: vector(d),
        vs2: vector(a),
        vm: true,
    };
    put_vector(code, insn)?;
    Ok(())
}

/// Appends a load of bytes one after the other as lanes, by way of a register.
pub fn load_byte_row(code: &mut Vec<u32>, d: u8, r: u8, by: u8) -> Result<(), AllocError>
    requires { (d < 32) × ((r < 32) × (by < 32)) }
    ensures { OnOk result (Emits code.old.items code.new.items
        (Vector (v.LoadElements bytes by r addressings.UnitStride true) ∷ Vector (v.ExtendBytes d by true) ∷ [])) }
{
    load_bytes(code, by, r)?;
    extend_bytes(code, d, by)?;
    Ok(())
}

/// Appends a load of words that lie as many bytes apart as a register holds.
pub fn load_strided(code: &mut Vec<u32>, d: u8, r: u8, by: u8) -> Result<(), AllocError>
    requires { (d < 32) × (r < 32) × (by < 32) }
    ensures { OnOk result (Emits code.old.items code.new.items
        (Vector (v.LoadElements words d r (addressings.Strided by) true) ∷ [])) }
{
    let insn = VectorInsn::LoadElements {
        width: ElementWidth::Bits32,
        vd: vector(d),
        rs1: register(r),
        addressing: Addressing::Strided { rs2: register(by) },
        vm: true,
    };
    put_vector(code, insn)?;
    Ok(())
}

/// Appends a load of words at the distances in the lanes, which then hold them.
pub fn load_at(code: &mut Vec<u32>, d: u8, r: u8) -> Result<(), AllocError>
    requires { (d < 32) × (r < 32) }
    ensures { OnOk result (Emits code.old.items code.new.items
        (Vector (v.LoadElements words d r (addressings.Indexed d) true) ∷ [])) }
{
    let insn = VectorInsn::LoadElements {
        width: ElementWidth::Bits32,
        vd: vector(d),
        rs1: register(r),
        addressing: Addressing::Indexed { vs2: vector(d) },
        vm: true,
    };
    put_vector(code, insn)?;
    Ok(())
}

/// Appends a store of words one after the other (`vse32.v`).
pub fn store_row(code: &mut Vec<u32>, s: u8, r: u8) -> Result<(), AllocError>
    requires { (s < 32) × (r < 32) }
    ensures { OnOk result (Emits code.old.items code.new.items
        (Vector (v.StoreElements words s r addressings.UnitStride true) ∷ [])) }
{
    let insn = VectorInsn::StoreElements {
        width: ElementWidth::Bits32,
        vs3: vector(s),
        rs1: register(r),
        addressing: Addressing::UnitStride,
        vm: true,
    };
    put_vector(code, insn)?;
    Ok(())
}

/// Appends a store of words that are to lie as many bytes apart as a register holds.
pub fn store_strided(code: &mut Vec<u32>, s: u8, r: u8, by: u8) -> Result<(), AllocError>
    requires { (s < 32) × (r < 32) × (by < 32) }
    ensures { OnOk result (Emits code.old.items code.new.items
        (Vector (v.StoreElements words s r (addressings.Strided by) true) ∷ [])) }
{
    let insn = VectorInsn::StoreElements {
        width: ElementWidth::Bits32,
        vs3: vector(s),
        rs1: register(r),
        addressing: Addressing::Strided { rs2: register(by) },
        vm: true,
    };
    put_vector(code, insn)?;
    Ok(())
}

/// Appends a store of words at the distances in the lanes of another group.
pub fn store_at(code: &mut Vec<u32>, s: u8, r: u8, offsets: u8) -> Result<(), AllocError>
    requires { (s < 32) × (r < 32) × (offsets < 32) }
    ensures { OnOk result (Emits code.old.items code.new.items
        (Vector (v.StoreElements words s r (addressings.Indexed offsets) true) ∷ [])) }
{
    let insn = VectorInsn::StoreElements {
        width: ElementWidth::Bits32,
        vs3: vector(s),
        rs1: register(r),
        addressing: Addressing::Indexed {
            vs2: vector(offsets),
        },
        vm: true,
    };
    put_vector(code, insn)?;
    Ok(())
}

/// Appends a configuration of one lane.
pub fn configure_one(code: &mut Vec<u32>) -> Result<(), AllocError>
    ensures { OnOk result (Emits code.old.items code.new.items
        (Vector (v.Vsetivli 0 1 (spec.vtype_of groups.One)) ∷ [])) }
{
    let insn = VectorInsn::Vsetivli {
        rd: register(0),
        length: Length5::new(1).unwrap(),
        vtype: Vtype10::new(16).unwrap(),
    };
    put_vector(code, insn)?;
    Ok(())
}

/// Appends a configuration of this many lanes as a register says, at most as many as a group has.
pub fn configure(code: &mut Vec<u32>, group: LaneGroup, r: u8) -> Result<(), AllocError>
    requires { r < 32 }
    ensures { OnOk result (Emits code.old.items code.new.items (Vector (v.Vsetvli 0 r (spec.vtype_of group)) ∷ [])) }
{
    let insn = VectorInsn::Vsetvli {
        rd: register(0),
        rs1: register(r),
        vtype: group.vtype(),
    };
    put_vector(code, insn)?;
    Ok(())
}
