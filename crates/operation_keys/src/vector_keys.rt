//! The keys that tell the operations of a group of vector instructions apart: the field funct6 of their
//! rows, or the width of a load or store.

ghost use Rattle.std.specs.Prelude.{◌≡◌, ◌<◌, ◌^◌};
ghost use Rattle.operation_keys.specs.Operations as keys;

use rv_insn::{
    ArithmeticViOp, ArithmeticVvOp, ArithmeticVxOp, CompareViOp, CompareVvOp, CompareVxOp,
    ElementWidth, MultiplyOp, ReductionOp, ShiftViOp,
};

/// The field funct6 of an operation on two vector registers.
#[tactic(auto, unfolding(crate::specs::Operations::key_in, rv_insn::specs::VectorTable::vector_table, rv_insn::specs::Encoding::in_parts, rv_insn::specs::Encoding::fixed, rv_insn::specs::Encoding::span))]
pub fn arithmetic_vv_funct6(op: ArithmeticVvOp) -> u32
    ensures value { result ≡ keys.arithmetic_vv_funct6 op }
    ensures in_range { result < 2 ^ 6 }
{
    match op {
        ArithmeticVvOp::Vadd => 0b00_0000,
        ArithmeticVvOp::Vsub => 0b00_0010,
        ArithmeticVvOp::Vminu => 0b00_0100,
        ArithmeticVvOp::Vmin => 0b00_0101,
        ArithmeticVvOp::Vmaxu => 0b00_0110,
        ArithmeticVvOp::Vmax => 0b00_0111,
        ArithmeticVvOp::Vand => 0b00_1001,
        ArithmeticVvOp::Vor => 0b00_1010,
        ArithmeticVvOp::Vxor => 0b00_1011,
        ArithmeticVvOp::Vsll => 0b10_0101,
        ArithmeticVvOp::Vsrl => 0b10_1000,
        ArithmeticVvOp::Vsra => 0b10_1001,
    }
}

/// What is an operation on two vector registers by this funct6.
#[tactic(auto, unfolding(crate::specs::Operations::key_in, rv_insn::specs::VectorTable::vector_table, rv_insn::specs::Encoding::in_parts, rv_insn::specs::Encoding::fixed, rv_insn::specs::Encoding::span))]
pub fn arithmetic_vv_op(funct6: u32) -> Option<ArithmeticVvOp>
    ensures { result ≡ keys.arithmetic_vv_of funct6 }
{
    match funct6 {
        0b00_0000 => Some(ArithmeticVvOp::Vadd),
        0b00_0010 => Some(ArithmeticVvOp::Vsub),
        0b00_0100 => Some(ArithmeticVvOp::Vminu),
        0b00_0101 => Some(ArithmeticVvOp::Vmin),
        0b00_0110 => Some(ArithmeticVvOp::Vmaxu),
        0b00_0111 => Some(ArithmeticVvOp::Vmax),
        0b00_1001 => Some(ArithmeticVvOp::Vand),
        0b00_1010 => Some(ArithmeticVvOp::Vor),
        0b00_1011 => Some(ArithmeticVvOp::Vxor),
        0b10_0101 => Some(ArithmeticVvOp::Vsll),
        0b10_1000 => Some(ArithmeticVvOp::Vsrl),
        0b10_1001 => Some(ArithmeticVvOp::Vsra),
        _ => None,
    }
}

/// The field funct6 of an operation on a vector and an integer register.
#[tactic(auto, unfolding(crate::specs::Operations::key_in, rv_insn::specs::VectorTable::vector_table, rv_insn::specs::Encoding::in_parts, rv_insn::specs::Encoding::fixed, rv_insn::specs::Encoding::span))]
pub fn arithmetic_vx_funct6(op: ArithmeticVxOp) -> u32
    ensures value { result ≡ keys.arithmetic_vx_funct6 op }
    ensures in_range { result < 2 ^ 6 }
{
    match op {
        ArithmeticVxOp::Vadd => 0b00_0000,
        ArithmeticVxOp::Vsub => 0b00_0010,
        ArithmeticVxOp::Vrsub => 0b00_0011,
        ArithmeticVxOp::Vminu => 0b00_0100,
        ArithmeticVxOp::Vmin => 0b00_0101,
        ArithmeticVxOp::Vmaxu => 0b00_0110,
        ArithmeticVxOp::Vmax => 0b00_0111,
        ArithmeticVxOp::Vand => 0b00_1001,
        ArithmeticVxOp::Vor => 0b00_1010,
        ArithmeticVxOp::Vxor => 0b00_1011,
        ArithmeticVxOp::Vsll => 0b10_0101,
        ArithmeticVxOp::Vsrl => 0b10_1000,
        ArithmeticVxOp::Vsra => 0b10_1001,
    }
}

/// What is an operation on a vector and an integer register by this funct6.
#[tactic(auto, unfolding(crate::specs::Operations::key_in, rv_insn::specs::VectorTable::vector_table, rv_insn::specs::Encoding::in_parts, rv_insn::specs::Encoding::fixed, rv_insn::specs::Encoding::span))]
pub fn arithmetic_vx_op(funct6: u32) -> Option<ArithmeticVxOp>
    ensures { result ≡ keys.arithmetic_vx_of funct6 }
{
    match funct6 {
        0b00_0000 => Some(ArithmeticVxOp::Vadd),
        0b00_0010 => Some(ArithmeticVxOp::Vsub),
        0b00_0011 => Some(ArithmeticVxOp::Vrsub),
        0b00_0100 => Some(ArithmeticVxOp::Vminu),
        0b00_0101 => Some(ArithmeticVxOp::Vmin),
        0b00_0110 => Some(ArithmeticVxOp::Vmaxu),
        0b00_0111 => Some(ArithmeticVxOp::Vmax),
        0b00_1001 => Some(ArithmeticVxOp::Vand),
        0b00_1010 => Some(ArithmeticVxOp::Vor),
        0b00_1011 => Some(ArithmeticVxOp::Vxor),
        0b10_0101 => Some(ArithmeticVxOp::Vsll),
        0b10_1000 => Some(ArithmeticVxOp::Vsrl),
        0b10_1001 => Some(ArithmeticVxOp::Vsra),
        _ => None,
    }
}

/// The field funct6 of an operation on a vector register and an immediate.
#[tactic(auto, unfolding(crate::specs::Operations::key_in, rv_insn::specs::VectorTable::vector_table, rv_insn::specs::Encoding::in_parts, rv_insn::specs::Encoding::fixed, rv_insn::specs::Encoding::span))]
pub fn arithmetic_vi_funct6(op: ArithmeticViOp) -> u32
    ensures value { result ≡ keys.arithmetic_vi_funct6 op }
    ensures in_range { result < 2 ^ 6 }
{
    match op {
        ArithmeticViOp::Vadd => 0b00_0000,
        ArithmeticViOp::Vrsub => 0b00_0011,
        ArithmeticViOp::Vand => 0b00_1001,
        ArithmeticViOp::Vor => 0b00_1010,
        ArithmeticViOp::Vxor => 0b00_1011,
    }
}

/// What is an operation on a vector register and an immediate by this funct6.
#[tactic(auto, unfolding(crate::specs::Operations::key_in, rv_insn::specs::VectorTable::vector_table, rv_insn::specs::Encoding::in_parts, rv_insn::specs::Encoding::fixed, rv_insn::specs::Encoding::span))]
pub fn arithmetic_vi_op(funct6: u32) -> Option<ArithmeticViOp>
    ensures { result ≡ keys.arithmetic_vi_of funct6 }
{
    match funct6 {
        0b00_0000 => Some(ArithmeticViOp::Vadd),
        0b00_0011 => Some(ArithmeticViOp::Vrsub),
        0b00_1001 => Some(ArithmeticViOp::Vand),
        0b00_1010 => Some(ArithmeticViOp::Vor),
        0b00_1011 => Some(ArithmeticViOp::Vxor),
        _ => None,
    }
}

/// The field funct6 of a shift by an amount in the word.
#[tactic(auto, unfolding(crate::specs::Operations::key_in, rv_insn::specs::VectorTable::vector_table, rv_insn::specs::Encoding::in_parts, rv_insn::specs::Encoding::fixed, rv_insn::specs::Encoding::span))]
pub fn shift_vi_funct6(op: ShiftViOp) -> u32
    ensures value { result ≡ keys.shift_vi_funct6 op }
    ensures in_range { result < 2 ^ 6 }
{
    match op {
        ShiftViOp::Vsll => 0b10_0101,
        ShiftViOp::Vsrl => 0b10_1000,
        ShiftViOp::Vsra => 0b10_1001,
    }
}

/// What is a shift by an amount in the word by this funct6.
#[tactic(auto, unfolding(crate::specs::Operations::key_in, rv_insn::specs::VectorTable::vector_table, rv_insn::specs::Encoding::in_parts, rv_insn::specs::Encoding::fixed, rv_insn::specs::Encoding::span))]
pub fn shift_vi_op(funct6: u32) -> Option<ShiftViOp>
    ensures { result ≡ keys.shift_vi_of funct6 }
{
    match funct6 {
        0b10_0101 => Some(ShiftViOp::Vsll),
        0b10_1000 => Some(ShiftViOp::Vsrl),
        0b10_1001 => Some(ShiftViOp::Vsra),
        _ => None,
    }
}

/// The field funct6 of a comparison of two vector registers.
#[tactic(auto, unfolding(crate::specs::Operations::key_in, rv_insn::specs::VectorTable::vector_table, rv_insn::specs::Encoding::in_parts, rv_insn::specs::Encoding::fixed, rv_insn::specs::Encoding::span))]
pub fn compare_vv_funct6(op: CompareVvOp) -> u32
    ensures value { result ≡ keys.compare_vv_funct6 op }
    ensures in_range { result < 2 ^ 6 }
{
    match op {
        CompareVvOp::Vmseq => 0b01_1000,
        CompareVvOp::Vmsne => 0b01_1001,
        CompareVvOp::Vmsltu => 0b01_1010,
        CompareVvOp::Vmslt => 0b01_1011,
        CompareVvOp::Vmsleu => 0b01_1100,
        CompareVvOp::Vmsle => 0b01_1101,
    }
}

/// What is a comparison of two vector registers by this funct6.
#[tactic(auto, unfolding(crate::specs::Operations::key_in, rv_insn::specs::VectorTable::vector_table, rv_insn::specs::Encoding::in_parts, rv_insn::specs::Encoding::fixed, rv_insn::specs::Encoding::span))]
pub fn compare_vv_op(funct6: u32) -> Option<CompareVvOp>
    ensures { result ≡ keys.compare_vv_of funct6 }
{
    match funct6 {
        0b01_1000 => Some(CompareVvOp::Vmseq),
        0b01_1001 => Some(CompareVvOp::Vmsne),
        0b01_1010 => Some(CompareVvOp::Vmsltu),
        0b01_1011 => Some(CompareVvOp::Vmslt),
        0b01_1100 => Some(CompareVvOp::Vmsleu),
        0b01_1101 => Some(CompareVvOp::Vmsle),
        _ => None,
    }
}

/// The field funct6 of a comparison with an integer register.
#[tactic(auto, unfolding(crate::specs::Operations::key_in, rv_insn::specs::VectorTable::vector_table, rv_insn::specs::Encoding::in_parts, rv_insn::specs::Encoding::fixed, rv_insn::specs::Encoding::span))]
pub fn compare_vx_funct6(op: CompareVxOp) -> u32
    ensures value { result ≡ keys.compare_vx_funct6 op }
    ensures in_range { result < 2 ^ 6 }
{
    match op {
        CompareVxOp::Vmseq => 0b01_1000,
        CompareVxOp::Vmsne => 0b01_1001,
        CompareVxOp::Vmsltu => 0b01_1010,
        CompareVxOp::Vmslt => 0b01_1011,
        CompareVxOp::Vmsleu => 0b01_1100,
        CompareVxOp::Vmsle => 0b01_1101,
        CompareVxOp::Vmsgtu => 0b01_1110,
        CompareVxOp::Vmsgt => 0b01_1111,
    }
}

/// What is a comparison with an integer register by this funct6.
#[tactic(auto, unfolding(crate::specs::Operations::key_in, rv_insn::specs::VectorTable::vector_table, rv_insn::specs::Encoding::in_parts, rv_insn::specs::Encoding::fixed, rv_insn::specs::Encoding::span))]
pub fn compare_vx_op(funct6: u32) -> Option<CompareVxOp>
    ensures { result ≡ keys.compare_vx_of funct6 }
{
    match funct6 {
        0b01_1000 => Some(CompareVxOp::Vmseq),
        0b01_1001 => Some(CompareVxOp::Vmsne),
        0b01_1010 => Some(CompareVxOp::Vmsltu),
        0b01_1011 => Some(CompareVxOp::Vmslt),
        0b01_1100 => Some(CompareVxOp::Vmsleu),
        0b01_1101 => Some(CompareVxOp::Vmsle),
        0b01_1110 => Some(CompareVxOp::Vmsgtu),
        0b01_1111 => Some(CompareVxOp::Vmsgt),
        _ => None,
    }
}

/// The field funct6 of a comparison with an immediate.
#[tactic(auto, unfolding(crate::specs::Operations::key_in, rv_insn::specs::VectorTable::vector_table, rv_insn::specs::Encoding::in_parts, rv_insn::specs::Encoding::fixed, rv_insn::specs::Encoding::span))]
pub fn compare_vi_funct6(op: CompareViOp) -> u32
    ensures value { result ≡ keys.compare_vi_funct6 op }
    ensures in_range { result < 2 ^ 6 }
{
    match op {
        CompareViOp::Vmseq => 0b01_1000,
        CompareViOp::Vmsne => 0b01_1001,
        CompareViOp::Vmsleu => 0b01_1100,
        CompareViOp::Vmsle => 0b01_1101,
        CompareViOp::Vmsgtu => 0b01_1110,
        CompareViOp::Vmsgt => 0b01_1111,
    }
}

/// What is a comparison with an immediate by this funct6.
#[tactic(auto, unfolding(crate::specs::Operations::key_in, rv_insn::specs::VectorTable::vector_table, rv_insn::specs::Encoding::in_parts, rv_insn::specs::Encoding::fixed, rv_insn::specs::Encoding::span))]
pub fn compare_vi_op(funct6: u32) -> Option<CompareViOp>
    ensures { result ≡ keys.compare_vi_of funct6 }
{
    match funct6 {
        0b01_1000 => Some(CompareViOp::Vmseq),
        0b01_1001 => Some(CompareViOp::Vmsne),
        0b01_1100 => Some(CompareViOp::Vmsleu),
        0b01_1101 => Some(CompareViOp::Vmsle),
        0b01_1110 => Some(CompareViOp::Vmsgtu),
        0b01_1111 => Some(CompareViOp::Vmsgt),
        _ => None,
    }
}

/// The field funct6 of a multiplication or division.
#[tactic(auto, unfolding(crate::specs::Operations::key_in, rv_insn::specs::VectorTable::vector_table, rv_insn::specs::Encoding::in_parts, rv_insn::specs::Encoding::fixed, rv_insn::specs::Encoding::span))]
pub fn multiply_funct6(op: MultiplyOp) -> u32
    ensures value { result ≡ keys.multiply_funct6 op }
    ensures in_range { result < 2 ^ 6 }
{
    match op {
        MultiplyOp::Vdivu => 0b10_0000,
        MultiplyOp::Vdiv => 0b10_0001,
        MultiplyOp::Vremu => 0b10_0010,
        MultiplyOp::Vrem => 0b10_0011,
        MultiplyOp::Vmulhu => 0b10_0100,
        MultiplyOp::Vmul => 0b10_0101,
        MultiplyOp::Vmulhsu => 0b10_0110,
        MultiplyOp::Vmulh => 0b10_0111,
    }
}

/// What is a multiplication or division by this funct6.
#[tactic(auto, unfolding(crate::specs::Operations::key_in, rv_insn::specs::VectorTable::vector_table, rv_insn::specs::Encoding::in_parts, rv_insn::specs::Encoding::fixed, rv_insn::specs::Encoding::span))]
pub fn multiply_op(funct6: u32) -> Option<MultiplyOp>
    ensures { result ≡ keys.multiply_of funct6 }
{
    match funct6 {
        0b10_0000 => Some(MultiplyOp::Vdivu),
        0b10_0001 => Some(MultiplyOp::Vdiv),
        0b10_0010 => Some(MultiplyOp::Vremu),
        0b10_0011 => Some(MultiplyOp::Vrem),
        0b10_0100 => Some(MultiplyOp::Vmulhu),
        0b10_0101 => Some(MultiplyOp::Vmul),
        0b10_0110 => Some(MultiplyOp::Vmulhsu),
        0b10_0111 => Some(MultiplyOp::Vmulh),
        _ => None,
    }
}

/// The field funct6 of a reduction.
#[tactic(auto, unfolding(crate::specs::Operations::key_in, rv_insn::specs::VectorTable::vector_table, rv_insn::specs::Encoding::in_parts, rv_insn::specs::Encoding::fixed, rv_insn::specs::Encoding::span))]
pub fn reduction_funct6(op: ReductionOp) -> u32
    ensures value { result ≡ keys.reduction_funct6 op }
    ensures in_range { result < 2 ^ 6 }
{
    match op {
        ReductionOp::Vredsum => 0b00_0000,
        ReductionOp::Vredminu => 0b00_0100,
        ReductionOp::Vredmin => 0b00_0101,
        ReductionOp::Vredmaxu => 0b00_0110,
        ReductionOp::Vredmax => 0b00_0111,
    }
}

/// What is a reduction by this funct6.
#[tactic(auto, unfolding(crate::specs::Operations::key_in, rv_insn::specs::VectorTable::vector_table, rv_insn::specs::Encoding::in_parts, rv_insn::specs::Encoding::fixed, rv_insn::specs::Encoding::span))]
pub fn reduction_op(funct6: u32) -> Option<ReductionOp>
    ensures { result ≡ keys.reduction_of funct6 }
{
    match funct6 {
        0b00_0000 => Some(ReductionOp::Vredsum),
        0b00_0100 => Some(ReductionOp::Vredminu),
        0b00_0101 => Some(ReductionOp::Vredmin),
        0b00_0110 => Some(ReductionOp::Vredmaxu),
        0b00_0111 => Some(ReductionOp::Vredmax),
        _ => None,
    }
}

/// The field of a width, where funct3 is.
#[tactic(auto, unfolding(crate::specs::Operations::key_in, rv_insn::specs::VectorTable::vector_table, rv_insn::specs::Encoding::in_parts, rv_insn::specs::Encoding::fixed, rv_insn::specs::Encoding::span))]
pub fn width_funct3(width: ElementWidth) -> u32
    ensures value { result ≡ keys.width_funct3 width }
    ensures in_range { result < 2 ^ 3 }
{
    match width {
        ElementWidth::Bits8 => 0b000,
        ElementWidth::Bits16 => 0b101,
        ElementWidth::Bits32 => 0b110,
    }
}

/// The width that has this field.
#[tactic(auto, unfolding(crate::specs::Operations::key_in, rv_insn::specs::VectorTable::vector_table, rv_insn::specs::Encoding::in_parts, rv_insn::specs::Encoding::fixed, rv_insn::specs::Encoding::span))]
pub fn width_of(funct3: u32) -> Option<ElementWidth>
    ensures { result ≡ keys.width_of funct3 }
{
    match funct3 {
        0b000 => Some(ElementWidth::Bits8),
        0b101 => Some(ElementWidth::Bits16),
        0b110 => Some(ElementWidth::Bits32),
        _ => None,
    }
}
