//! The mnemonics of each group of vector operations.

ghost use Rattle.std.specs.Prelude.{◌≡◌};
ghost use Rattle.rv_insn.specs.VectorTable.{arithmetic_vv_name, arithmetic_vx_name, arithmetic_vi_name};
ghost use Rattle.rv_insn.specs.VectorTable.{shift_vi_name, compare_vv_name, compare_vx_name, compare_vi_name};
ghost use Rattle.rv_insn.specs.VectorTable.{multiply_vv_name, multiply_vx_name, reduction_name, load_elements_name};
ghost use Rattle.rv_insn.specs.VectorTable.{store_elements_name};

use rv_insn::{
    AddressMode, ArithmeticViOp, ArithmeticVvOp, ArithmeticVxOp, CompareViOp, CompareVvOp,
    CompareVxOp, ElementWidth, MultiplyOp, ReductionOp, ShiftViOp,
};

/// The mnemonic of an operation on two vector registers.
pub fn arithmetic_vv_mnemonic(op: ArithmeticVvOp) -> &'static str
    ensures { result.now ≡ arithmetic_vv_name op }
{
    match op {
        ArithmeticVvOp::Vadd => "vadd.vv",
        ArithmeticVvOp::Vsub => "vsub.vv",
        ArithmeticVvOp::Vminu => "vminu.vv",
        ArithmeticVvOp::Vmin => "vmin.vv",
        ArithmeticVvOp::Vmaxu => "vmaxu.vv",
        ArithmeticVvOp::Vmax => "vmax.vv",
        ArithmeticVvOp::Vand => "vand.vv",
        ArithmeticVvOp::Vor => "vor.vv",
        ArithmeticVvOp::Vxor => "vxor.vv",
        ArithmeticVvOp::Vsll => "vsll.vv",
        ArithmeticVvOp::Vsrl => "vsrl.vv",
        ArithmeticVvOp::Vsra => "vsra.vv",
    }
}

/// The mnemonic of an operation on a vector register and an integer register.
pub fn arithmetic_vx_mnemonic(op: ArithmeticVxOp) -> &'static str
    ensures { result.now ≡ arithmetic_vx_name op }
{
    match op {
        ArithmeticVxOp::Vadd => "vadd.vx",
        ArithmeticVxOp::Vsub => "vsub.vx",
        ArithmeticVxOp::Vrsub => "vrsub.vx",
        ArithmeticVxOp::Vminu => "vminu.vx",
        ArithmeticVxOp::Vmin => "vmin.vx",
        ArithmeticVxOp::Vmaxu => "vmaxu.vx",
        ArithmeticVxOp::Vmax => "vmax.vx",
        ArithmeticVxOp::Vand => "vand.vx",
        ArithmeticVxOp::Vor => "vor.vx",
        ArithmeticVxOp::Vxor => "vxor.vx",
        ArithmeticVxOp::Vsll => "vsll.vx",
        ArithmeticVxOp::Vsrl => "vsrl.vx",
        ArithmeticVxOp::Vsra => "vsra.vx",
    }
}

/// The mnemonic of an operation on a vector register and an immediate.
pub fn arithmetic_vi_mnemonic(op: ArithmeticViOp) -> &'static str
    ensures { result.now ≡ arithmetic_vi_name op }
{
    match op {
        ArithmeticViOp::Vadd => "vadd.vi",
        ArithmeticViOp::Vrsub => "vrsub.vi",
        ArithmeticViOp::Vand => "vand.vi",
        ArithmeticViOp::Vor => "vor.vi",
        ArithmeticViOp::Vxor => "vxor.vi",
    }
}

/// The mnemonic of a vector shift by an amount in the word.
pub fn shift_vi_mnemonic(op: ShiftViOp) -> &'static str
    ensures { result.now ≡ shift_vi_name op }
{
    match op {
        ShiftViOp::Vsll => "vsll.vi",
        ShiftViOp::Vsrl => "vsrl.vi",
        ShiftViOp::Vsra => "vsra.vi",
    }
}

/// The mnemonic of a comparison of two vector registers.
pub fn compare_vv_mnemonic(op: CompareVvOp) -> &'static str
    ensures { result.now ≡ compare_vv_name op }
{
    match op {
        CompareVvOp::Vmseq => "vmseq.vv",
        CompareVvOp::Vmsne => "vmsne.vv",
        CompareVvOp::Vmsltu => "vmsltu.vv",
        CompareVvOp::Vmslt => "vmslt.vv",
        CompareVvOp::Vmsleu => "vmsleu.vv",
        CompareVvOp::Vmsle => "vmsle.vv",
    }
}

/// The mnemonic of a comparison of a vector register and an integer register.
pub fn compare_vx_mnemonic(op: CompareVxOp) -> &'static str
    ensures { result.now ≡ compare_vx_name op }
{
    match op {
        CompareVxOp::Vmseq => "vmseq.vx",
        CompareVxOp::Vmsne => "vmsne.vx",
        CompareVxOp::Vmsltu => "vmsltu.vx",
        CompareVxOp::Vmslt => "vmslt.vx",
        CompareVxOp::Vmsleu => "vmsleu.vx",
        CompareVxOp::Vmsle => "vmsle.vx",
        CompareVxOp::Vmsgtu => "vmsgtu.vx",
        CompareVxOp::Vmsgt => "vmsgt.vx",
    }
}

/// The mnemonic of a comparison of a vector register and an immediate.
pub fn compare_vi_mnemonic(op: CompareViOp) -> &'static str
    ensures { result.now ≡ compare_vi_name op }
{
    match op {
        CompareViOp::Vmseq => "vmseq.vi",
        CompareViOp::Vmsne => "vmsne.vi",
        CompareViOp::Vmsleu => "vmsleu.vi",
        CompareViOp::Vmsle => "vmsle.vi",
        CompareViOp::Vmsgtu => "vmsgtu.vi",
        CompareViOp::Vmsgt => "vmsgt.vi",
    }
}

/// The mnemonic of a multiplication or division by a vector register.
pub fn multiply_vv_mnemonic(op: MultiplyOp) -> &'static str
    ensures { result.now ≡ multiply_vv_name op }
{
    match op {
        MultiplyOp::Vdivu => "vdivu.vv",
        MultiplyOp::Vdiv => "vdiv.vv",
        MultiplyOp::Vremu => "vremu.vv",
        MultiplyOp::Vrem => "vrem.vv",
        MultiplyOp::Vmulhu => "vmulhu.vv",
        MultiplyOp::Vmul => "vmul.vv",
        MultiplyOp::Vmulhsu => "vmulhsu.vv",
        MultiplyOp::Vmulh => "vmulh.vv",
    }
}

/// The mnemonic of a multiplication or division by an integer register.
pub fn multiply_vx_mnemonic(op: MultiplyOp) -> &'static str
    ensures { result.now ≡ multiply_vx_name op }
{
    match op {
        MultiplyOp::Vdivu => "vdivu.vx",
        MultiplyOp::Vdiv => "vdiv.vx",
        MultiplyOp::Vremu => "vremu.vx",
        MultiplyOp::Vrem => "vrem.vx",
        MultiplyOp::Vmulhu => "vmulhu.vx",
        MultiplyOp::Vmul => "vmul.vx",
        MultiplyOp::Vmulhsu => "vmulhsu.vx",
        MultiplyOp::Vmulh => "vmulh.vx",
    }
}

/// The mnemonic of a reduction.
pub fn reduction_mnemonic(op: ReductionOp) -> &'static str
    ensures { result.now ≡ reduction_name op }
{
    match op {
        ReductionOp::Vredsum => "vredsum.vs",
        ReductionOp::Vredminu => "vredminu.vs",
        ReductionOp::Vredmin => "vredmin.vs",
        ReductionOp::Vredmaxu => "vredmaxu.vs",
        ReductionOp::Vredmax => "vredmax.vs",
    }
}

/// The mnemonic of a load of elements.
pub fn load_elements_mnemonic(mode: AddressMode, width: ElementWidth) -> &'static str
    ensures { result.now ≡ load_elements_name mode width }
{
    match (mode, width) {
        (AddressMode::UnitStride, ElementWidth::Bits8) => "vle8.v",
        (AddressMode::UnitStride, ElementWidth::Bits16) => "vle16.v",
        (AddressMode::UnitStride, ElementWidth::Bits32) => "vle32.v",
        (AddressMode::Strided, ElementWidth::Bits8) => "vlse8.v",
        (AddressMode::Strided, ElementWidth::Bits16) => "vlse16.v",
        (AddressMode::Strided, ElementWidth::Bits32) => "vlse32.v",
        (AddressMode::Indexed, ElementWidth::Bits8) => "vluxei8.v",
        (AddressMode::Indexed, ElementWidth::Bits16) => "vluxei16.v",
        (AddressMode::Indexed, ElementWidth::Bits32) => "vluxei32.v",
    }
}

/// The mnemonic of a store of elements.
pub fn store_elements_mnemonic(mode: AddressMode, width: ElementWidth) -> &'static str
    ensures { result.now ≡ store_elements_name mode width }
{
    match (mode, width) {
        (AddressMode::UnitStride, ElementWidth::Bits8) => "vse8.v",
        (AddressMode::UnitStride, ElementWidth::Bits16) => "vse16.v",
        (AddressMode::UnitStride, ElementWidth::Bits32) => "vse32.v",
        (AddressMode::Strided, ElementWidth::Bits8) => "vsse8.v",
        (AddressMode::Strided, ElementWidth::Bits16) => "vsse16.v",
        (AddressMode::Strided, ElementWidth::Bits32) => "vsse32.v",
        (AddressMode::Indexed, ElementWidth::Bits8) => "vsuxei8.v",
        (AddressMode::Indexed, ElementWidth::Bits16) => "vsuxei16.v",
        (AddressMode::Indexed, ElementWidth::Bits32) => "vsuxei32.v",
    }
}
