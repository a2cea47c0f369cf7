//! What operations make of lanes, in the group of the first operand.

ghost use Rattle.std.specs.Prelude.{◌≡◌, ◌+◌, ◌-◌, ◌<◌, ◌^◌, [], ◌∷◌, IfSome, OnOk, false, true};
ghost use Rattle.rv_insn.specs.declared.instructions.Insn.TheVariants.{Vector};
ghost use Rattle.rv_insn.specs.declared.vector_instructions.VectorInsn.TheVariants as v;
ghost use Rattle.rv_insn.specs.declared.vector_operations.ShiftViOp.TheVariants.{Vsra as shift_right};
ghost use Rattle.halide_pipeline.specs.Words as word;
ghost use Rattle.task_code_scalar.specs.Words.{Emits};
ghost use Rattle.task_code_lanes.specs.Groups.{slots};
ghost use Rattle.task_code_lanes.specs.Lanes.{compared, flagged};
ghost use Rattle.task_code_lane_values.specs.inner.Parts.{AnyWord, Chooses, IsBy, IsComparedBy};
ghost use Rattle.task_code_lane_values.specs.inner.Parts.{IsComputedBy, ComputesBy, ComputesOne, ComputesTwo};
ghost use Rattle.task_code_lane_values.specs.inner.Parts.{IsVectorComparison, operation_rows};

use halide_pipeline::Operation;
use rv_insn::{
    ArithmeticVvOp, ArithmeticVxOp, CompareVvOp, CompareVxOp, Insn, MultiplyOp, ShiftAmount,
    ShiftViOp, VReg, VectorInsn,
};
use std::alloc::AllocError;
use task_code_lanes::groups::LaneGroup;
use task_code_lanes::vectors::{
    arithmetic, arithmetic_by, clear, comparison, merge, merge_one, multiplication,
    multiplication_by, signs, test_nonzero,
};
use task_code_scalar::CodeFault;
use task_code_scalar::instructions::{put, register};

// ---- two groups

/// Appends what makes lanes of the mask's bits.
fn emit_flagged(code: &mut Vec<u32>, r: u8) -> Result<(), AllocError>
    requires { r < 32 }
    ensures { OnOk result (Emits code.old.items code.new.items (flagged r)) }
{
    clear(code, r)?;
    merge_one(code, r)?;
    Ok(())
}

fn emit_compared(
    code: &mut Vec<u32>,
    op: CompareVvOp,
    r: u8,
    a: u8,
    b: u8,
) -> Result<(), AllocError>
    requires { (r < 32) × (a < 32) × (b < 32) }
    ensures { OnOk result (Emits code.old.items code.new.items (compared op r a b)) }
{
    comparison(code, op, a, b)?;
    emit_flagged(code, r)?;
    Ok(())
}

/// Appends an operation on the lanes of two groups.
pub(crate) fn emit_operation(
    code: &mut Vec<u32>,
    op: Operation,
    d: u8,
    a: u8,
    b: u8,
) -> Result<(), AllocError>
    requires { (d < 32) × (a < 32) × (b < 32) }
    ensures { OnOk result (Emits code.old.items code.new.items (operation_rows op d a b)) }
{
    match op {
        Operation::Add => arithmetic(code, ArithmeticVvOp::Vadd, d, a, b)?,
        Operation::Subtract => arithmetic(code, ArithmeticVvOp::Vsub, d, a, b)?,
        Operation::Multiply => multiplication(code, MultiplyOp::Vmul, d, a, b)?,
        Operation::Minimum => arithmetic(code, ArithmeticVvOp::Vmin, d, a, b)?,
        Operation::Maximum => arithmetic(code, ArithmeticVvOp::Vmax, d, a, b)?,
        Operation::Less => emit_compared(code, CompareVvOp::Vmslt, d, a, b)?,
        Operation::LessOrEqual => emit_compared(code, CompareVvOp::Vmsle, d, a, b)?,
        Operation::Greater => emit_compared(code, CompareVvOp::Vmslt, d, b, a)?,
        Operation::GreaterOrEqual => emit_compared(code, CompareVvOp::Vmsle, d, b, a)?,
        Operation::Equal => emit_compared(code, CompareVvOp::Vmseq, d, a, b)?,
        Operation::NotEqual => emit_compared(code, CompareVvOp::Vmsne, d, a, b)?,
    }
    Ok(())
}

/// A comparison of lanes that does an operation, of the second operand and the first where they are swapped.
#[derive(Clone, Copy)]
pub(crate) struct VectorComparison {
    pub instruction: CompareVvOp,
    pub is_swapped: bool,
}

fn in_order(instruction: CompareVvOp) -> VectorComparison
    ensures { result ≡ record { instruction = instruction; is_swapped = false } }
{
    VectorComparison {
        instruction,
        is_swapped: false,
    }
}

fn swapped(instruction: CompareVvOp) -> VectorComparison
    ensures { result ≡ record { instruction = instruction; is_swapped = true } }
{
    VectorComparison {
        instruction,
        is_swapped: true,
    }
}

/// The comparison of lanes that does an operation.
pub(crate) fn comparison_of(op: Operation) -> Option<VectorComparison>
    ensures { IfSome result (IsVectorComparison op) }
{
    match op {
        Operation::Less => Some(in_order(CompareVvOp::Vmslt)),
        Operation::LessOrEqual => Some(in_order(CompareVvOp::Vmsle)),
        Operation::Greater => Some(swapped(CompareVvOp::Vmslt)),
        Operation::GreaterOrEqual => Some(swapped(CompareVvOp::Vmsle)),
        Operation::Equal => Some(in_order(CompareVvOp::Vmseq)),
        Operation::NotEqual => Some(in_order(CompareVvOp::Vmsne)),
        _ => None,
    }
}

/// Appends a copy of a group's lanes.
pub(crate) fn copy_lanes(code: &mut Vec<u32>, d: u8, a: u8) -> Result<(), AllocError>
    requires { (d < 32) × (a < 32) }
    ensures { OnOk result (Emits code.old.items code.new.items (Vector (v.MoveVv d a) ∷ [])) }
{
    put(
        code,
        &Insn::Vector(VectorInsn::MoveVv {
            vd: VReg::new(d).unwrap(),
            vs1: VReg::new(a).unwrap(),
        }),
    )?;
    Ok(())
}

/// Appends what an operation makes of the lanes of a group and those of the next one.
pub(crate) fn emit_two(
    code: &mut Vec<u32>,
    group: LaneGroup,
    op: Operation,
    k: u8,
) -> Result<(), AllocError>
    requires { k + 1 < slots group }
    ensures { OnOk result (ComputesTwo code.old.items code.new.items group k (word.applied op)) }
{
    let r = group.slot(k);
    emit_operation(code, op, r, r, group.slot(k + 1))?;
    Ok(())
}

/// The same, where the lanes of the next group are the first operands.
pub(crate) fn emit_two_swapped(
    code: &mut Vec<u32>,
    group: LaneGroup,
    op: Operation,
    k: u8,
) -> Result<(), AllocError>
    requires { k + 1 < slots group }
    ensures { OnOk result (ComputesTwo code.old.items code.new.items group k (λ x y. word.applied op y x)) }
{
    let r = group.slot(k);
    emit_operation(code, op, r, group.slot(k + 1), r)?;
    Ok(())
}

// ---- a group and a register

/// The instruction that does an operation with a register as the second operand.
fn instruction_by(op: Operation) -> Option<ArithmeticVxOp>
    ensures { IfSome result (IsBy op) }
{
    match op {
        Operation::Add => Some(ArithmeticVxOp::Vadd),
        Operation::Subtract => Some(ArithmeticVxOp::Vsub),
        Operation::Minimum => Some(ArithmeticVxOp::Vmin),
        Operation::Maximum => Some(ArithmeticVxOp::Vmax),
        _ => None,
    }
}

/// Or as the first one.
fn instruction_swapped(op: Operation) -> Option<ArithmeticVxOp>
    ensures { IfSome result (IsComputedBy op) }
{
    match op {
        Operation::Add => Some(ArithmeticVxOp::Vadd),
        Operation::Subtract => Some(ArithmeticVxOp::Vrsub),
        _ => None,
    }
}

/// The comparison that does an operation with a register as the second operand.
pub(crate) fn comparison_with(op: Operation) -> Option<CompareVxOp>
    ensures { IfSome result (IsComparedBy op) }
{
    match op {
        Operation::Less => Some(CompareVxOp::Vmslt),
        Operation::LessOrEqual => Some(CompareVxOp::Vmsle),
        Operation::Greater => Some(CompareVxOp::Vmsgt),
        Operation::Equal => Some(CompareVxOp::Vmseq),
        Operation::NotEqual => Some(CompareVxOp::Vmsne),
        _ => None,
    }
}

/// Appends a comparison of lanes and a register, into the mask.
pub(crate) fn comparison_by(
    code: &mut Vec<u32>,
    op: CompareVxOp,
    a: u8,
    s: u8,
) -> Result<(), AllocError>
    requires { (a < 32) × (s < 32) }
    ensures { OnOk result (Emits code.old.items code.new.items (Vector (v.CompareVx op 0 a s true) ∷ [])) }
{
    put(
        code,
        &Insn::Vector(VectorInsn::CompareVx {
            op,
            vd: VReg::new(0).unwrap(),
            vs2: VReg::new(a).unwrap(),
            rs1: register(s),
            vm: true,
        }),
    )?;
    Ok(())
}

/// Appends what such a comparison makes of lanes.
fn emit_compared_by(
    code: &mut Vec<u32>,
    group: LaneGroup,
    op: Operation,
    k: u8,
    s: u8,
) -> Result<(), CodeFault>
    requires { (k < slots group) × (s < 32) }
    ensures { OnOk result (ComputesBy code.old.items code.new.items group k s AnyWord (word.applied op)) }
{
    let r = group.slot(k);
    match comparison_with(op) {
        None => Err(CodeFault::TooDeep),
        Some(own) => {
            comparison_by(code, own, r, s)?;
            emit_flagged(code, r)?;
            Ok(())
        }
    }
}

/// Whether an operation's second operand may stand in a register.
pub(crate) fn takes_second(op: Operation) -> bool {
    match op {
        Operation::Multiply => true,
        _ => instruction_by(op).is_some() || comparison_with(op).is_some(),
    }
}

/// Whether its first one may.
pub(crate) fn takes_first(op: Operation) -> bool {
    match op {
        Operation::Multiply => true,
        _ => instruction_swapped(op).is_some(),
    }
}

/// Appends what an operation makes of lanes and a register.
pub(crate) fn emit_by(
    code: &mut Vec<u32>,
    group: LaneGroup,
    op: Operation,
    k: u8,
    s: u8,
) -> Result<(), CodeFault>
    requires { (k < slots group) × (s < 32) }
    ensures { OnOk result (ComputesBy code.old.items code.new.items group k s AnyWord (word.applied op)) }
{
    let r = group.slot(k);
    match op {
        Operation::Multiply => {
            multiplication_by(code, MultiplyOp::Vmul, r, r, s)?;
            Ok(())
        }
        _ => match instruction_by(op) {
            None => emit_compared_by(code, group, op, k, s),
            Some(own) => {
                arithmetic_by(code, own, r, r, s)?;
                Ok(())
            }
        },
    }
}

/// Appends what an operation makes of a register and lanes.
pub(crate) fn emit_swapped(
    code: &mut Vec<u32>,
    group: LaneGroup,
    op: Operation,
    k: u8,
    s: u8,
) -> Result<(), CodeFault>
    requires { (k < slots group) × (s < 32) }
    ensures { OnOk result (ComputesBy code.old.items code.new.items group k s AnyWord (λ x c. word.applied op c x)) }
{
    let r = group.slot(k);
    match op {
        Operation::Multiply => {
            multiplication_by(code, MultiplyOp::Vmul, r, r, s)?;
            Ok(())
        }
        _ => match instruction_swapped(op) {
            None => Err(CodeFault::TooDeep),
            Some(own) => {
                arithmetic_by(code, own, r, r, s)?;
                Ok(())
            }
        },
    }
}

// ---- quotients

/// Appends what leaves quotients by the literal in a register, rounded to minus infinity: a negative lane's
/// complement is divided, and the quotient's complement taken.
pub(crate) fn emit_quotient(
    code: &mut Vec<u32>,
    group: LaneGroup,
    divisor: u32,
    k: u8,
    s: u8,
) -> Result<(), AllocError>
    requires { (k < slots group) × ((s < 32) × (0 < divisor)) }
    ensures { OnOk result (ComputesBy code.old.items code.new.items group k s (λ c. c ≡ divisor)
        (λ x c. word.divide x divisor)) }
{
    let r = group.slot(k);
    let u = group.spare();
    signs(code, u, r)?;
    arithmetic(code, ArithmeticVvOp::Vxor, r, r, u)?;
    multiplication_by(code, MultiplyOp::Vdivu, r, r, s)?;
    arithmetic(code, ArithmeticVvOp::Vxor, r, r, u)?;
    Ok(())
}

/// Appends a shift of each lane to the right, which keeps its sign.
fn shift_lanes_right(code: &mut Vec<u32>, r: u8, bits: u8) -> Result<(), AllocError>
    requires { (r < 32) × (bits < 32) }
    ensures { OnOk result (Emits code.old.items code.new.items (Vector (v.ShiftVi shift_right r r bits true) ∷ [])) }
{
    let lanes = VReg::new(r).unwrap();
    put(
        code,
        &Insn::Vector(VectorInsn::ShiftVi {
            op: ShiftViOp::Vsra,
            vd: lanes,
            vs2: lanes,
            amount: ShiftAmount::new(bits).unwrap(),
            vm: true,
        }),
    )?;
    Ok(())
}

/// Appends what leaves quotients by a power of two, rounded to minus infinity.
pub(crate) fn emit_shifted(
    code: &mut Vec<u32>,
    group: LaneGroup,
    divisor: u32,
    bits: u8,
    k: u8,
) -> Result<(), AllocError>
    requires { (k < slots group) × ((bits < 32) × (divisor ≡ 2 ^ bits)) }
    ensures { OnOk result (ComputesOne code.old.items code.new.items group k (λ x. word.divide x divisor)) }
{
    shift_lanes_right(code, group.slot(k), bits)?;
    Ok(())
}

// ---- remainders

/// Appends what leaves remainders by a power of two, whose predecessor a register holds.
pub(crate) fn emit_masked(
    code: &mut Vec<u32>,
    group: LaneGroup,
    divisor: u32,
    bits: u8,
    k: u8,
    s: u8,
) -> Result<(), AllocError>
    requires { (k < slots group) × ((s < 32) × ((bits < 32) × (divisor ≡ 2 ^ bits))) }
    ensures { OnOk result (ComputesBy code.old.items code.new.items group k s (λ c. c ≡ divisor - 1)
        (λ x c. word.remainder x divisor)) }
{
    let r = group.slot(k);
    arithmetic_by(code, ArithmeticVxOp::Vand, r, r, s)?;
    Ok(())
}

/// Appends what leaves remainders by the literal in a register, which are not negative: of a negative lane's
/// complement the remainder is taken away from the divisor less 1.
pub(crate) fn emit_remainder(
    code: &mut Vec<u32>,
    group: LaneGroup,
    divisor: u32,
    k: u8,
    s: u8,
) -> Result<(), AllocError>
    requires { (k < slots group) × ((s < 32) × (0 < divisor)) }
    ensures { OnOk result (ComputesBy code.old.items code.new.items group k s (λ c. c ≡ divisor)
        (λ x c. word.remainder x divisor)) }
{
    let r = group.slot(k);
    let u = group.spare();
    signs(code, u, r)?;
    arithmetic(code, ArithmeticVvOp::Vxor, r, r, u)?;
    multiplication_by(code, MultiplyOp::Vremu, r, r, s)?;
    arithmetic(code, ArithmeticVvOp::Vxor, r, r, u)?;
    arithmetic_by(code, ArithmeticVxOp::Vand, u, u, s)?;
    arithmetic(code, ArithmeticVvOp::Vadd, r, r, u)?;
    Ok(())
}

// ---- choices

/// Appends a choice by the lanes of group c, into group k: of those of group a where they are not 0, else of those of
/// group b.
pub(crate) fn emit_choice(
    code: &mut Vec<u32>,
    group: LaneGroup,
    k: u8,
    c: u8,
    a: u8,
    b: u8,
) -> Result<(), AllocError>
    requires { (k < slots group) × ((c < slots group) × ((a < slots group) × (b < slots group))) }
    ensures { OnOk result (Chooses code.old.items code.new.items group k c a b) }
{
    test_nonzero(code, group.slot(c))?;
    merge(code, group.slot(k), group.slot(b), group.slot(a))?;
    Ok(())
}
