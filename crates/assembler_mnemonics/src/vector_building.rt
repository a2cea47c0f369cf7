//! Vector instructions from forms and the numbers in their fields.

ghost use Rattle.std.specs.Prelude.{◌≡◌, pos, length, [], ◌∷◌, ◌++◌};
ghost use Rattle.rv_insn.specs.Encoding.{bit_of};
ghost use Rattle.rv_insn.specs.Encoding.{mode_of, offset_fields};
ghost use Rattle.rv_insn.specs.VectorTable.{vector_fields_of};
ghost use Rattle.rv_insn.specs.declared.vector_instructions.VectorInsn.TheVariants as insns;
ghost use Rattle.assembler_mnemonics.specs.Forms.{vector_form_of};
ghost use Rattle.assembler_mnemonics.specs.Slots.{vector_blank, vector_shape, access_blank, access_operands, FitsSlots};
ghost use Rattle.assembler_mnemonics.specs.Slots.{vector_operands, imm5};
ghost use Rattle.assembler_mnemonics.specs.declared.slots.Slot.TheVariants.{Integer, Vector};
ghost use Rattle.assembler_mnemonics.specs.inner.Groups.{TakesVector, TakesInteger, TakesImmediate};
ghost use Rattle.assembler_mnemonics.specs.inner.Groups.{IsMerge, IsMove, IsConfiguration};

use crate::fields::Fields;
use crate::forms::VectorForm;
use crate::values::{
    amount_at, flag_at, immediate_5_at, integer_at, length_at, vector_at, vtype_10_at, vtype_11_at,
};
use rv_insn::{AddressMode, Addressing, ElementWidth, Reg, VReg, VectorInsn};

impl VectorForm {
    /// The vector instruction of the form with these numbers in its fields.
    #[tactic(auto, using(crate::proofs::Fronts::two_fields, crate::proofs::Fronts::three_fields, crate::proofs::Fronts::four_fields), unfolding(crate::specs::Slots::vector_blank, crate::specs::Slots::vector_shape))]
    pub(crate) fn instruction(self, fields: &Fields) -> VectorInsn
        requires count { length fields.now ≡ length (vector_blank self) }
        requires fits { FitsSlots fields.now (vector_shape self) }
        ensures form { vector_form_of result ≡ self }
        ensures fields { vector_fields_of result ≡ fields.now }
    {
        match self {
            VectorForm::ArithmeticVv(_) | VectorForm::CompareVv(_) => self.with_vector(fields),
            VectorForm::MultiplyVv(_) | VectorForm::Reduce(_) => self.with_vector(fields),
            VectorForm::ArithmeticVx(_) | VectorForm::CompareVx(_) => self.with_integer(fields),
            VectorForm::MultiplyVx(_) => self.with_integer(fields),
            VectorForm::ArithmeticVi(_) | VectorForm::CompareVi(_) => self.with_immediate(fields),
            VectorForm::ShiftVi(op) => VectorInsn::ShiftVi {
                op,
                vd: vector_at(fields, 0),
                vs2: vector_at(fields, 1),
                amount: amount_at(fields, 2),
                vm: flag_at(fields, 3),
            },
            VectorForm::MergeVv | VectorForm::MergeVx | VectorForm::MergeVi => self.merge(fields),
            VectorForm::MoveVv | VectorForm::MoveVx | VectorForm::MoveVi => self.moved(fields),
            VectorForm::MoveToScalar | VectorForm::MoveFromScalar => self.moved(fields),
            VectorForm::ElementNumbers => VectorInsn::ElementNumbers {
                vd: vector_at(fields, 0),
                vm: flag_at(fields, 1),
            },
            VectorForm::ExtendBytes => VectorInsn::ExtendBytes {
                vd: vector_at(fields, 0),
                vs2: vector_at(fields, 1),
                vm: flag_at(fields, 2),
            },
            VectorForm::Vsetvli | VectorForm::Vsetivli | VectorForm::Vsetvl => {
                self.configuration(fields)
            }
            VectorForm::LoadElements(mode, width) => access_in(mode, fields).load(width),
            VectorForm::StoreElements(mode, width) => access_in(mode, fields).store(width),
        }
    }

    // The instruction of an operation on elements whose other operand is a vector register.
    #[tactic(auto, using(crate::proofs::Fronts::four_fields))]
    fn with_vector(self, fields: &Fields) -> VectorInsn
        requires group { TakesVector self }
        requires count { length fields.now ≡ 4 }
        requires fits { FitsSlots fields.now (vector_operands (Vector 2)) }
        ensures form { vector_form_of result ≡ self }
        ensures fields { vector_fields_of result ≡ fields.now }
    {
        let vd = vector_at(fields, 0);
        let vs2 = vector_at(fields, 1);
        let vs1 = vector_at(fields, 2);
        let vm = flag_at(fields, 3);
        match self {
            VectorForm::ArithmeticVv(op) => VectorInsn::ArithmeticVv {
                op,
                vd,
                vs2,
                vs1,
                vm,
            },
            VectorForm::CompareVv(op) => VectorInsn::CompareVv {
                op,
                vd,
                vs2,
                vs1,
                vm,
            },
            VectorForm::MultiplyVv(op) => VectorInsn::MultiplyVv {
                op,
                vd,
                vs2,
                vs1,
                vm,
            },
            VectorForm::Reduce(op) => VectorInsn::Reduce {
                op,
                vd,
                vs2,
                vs1,
                vm,
            },
            _ => unreachable!(),
        }
    }

    // The instruction of an operation on elements whose other operand is an integer register.
    #[tactic(auto, using(crate::proofs::Fronts::four_fields))]
    fn with_integer(self, fields: &Fields) -> VectorInsn
        requires group { TakesInteger self }
        requires count { length fields.now ≡ 4 }
        requires fits { FitsSlots fields.now (vector_operands (Integer 2)) }
        ensures form { vector_form_of result ≡ self }
        ensures fields { vector_fields_of result ≡ fields.now }
    {
        let vd = vector_at(fields, 0);
        let vs2 = vector_at(fields, 1);
        let rs1 = integer_at(fields, 2);
        let vm = flag_at(fields, 3);
        match self {
            VectorForm::ArithmeticVx(op) => VectorInsn::ArithmeticVx {
                op,
                vd,
                vs2,
                rs1,
                vm,
            },
            VectorForm::CompareVx(op) => VectorInsn::CompareVx {
                op,
                vd,
                vs2,
                rs1,
                vm,
            },
            VectorForm::MultiplyVx(op) => VectorInsn::MultiplyVx {
                op,
                vd,
                vs2,
                rs1,
                vm,
            },
            _ => unreachable!(),
        }
    }

    // The instruction of an operation on elements whose other operand is a signed immediate.
    #[tactic(auto, using(crate::proofs::Fronts::four_fields))]
    fn with_immediate(self, fields: &Fields) -> VectorInsn
        requires group { TakesImmediate self }
        requires count { length fields.now ≡ 4 }
        requires fits { FitsSlots fields.now (vector_operands (imm5 2)) }
        ensures form { vector_form_of result ≡ self }
        ensures fields { vector_fields_of result ≡ fields.now }
    {
        let vd = vector_at(fields, 0);
        let vs2 = vector_at(fields, 1);
        let imm = immediate_5_at(fields, 2);
        let vm = flag_at(fields, 3);
        match self {
            VectorForm::ArithmeticVi(op) => VectorInsn::ArithmeticVi {
                op,
                vd,
                vs2,
                imm,
                vm,
            },
            VectorForm::CompareVi(op) => VectorInsn::CompareVi {
                op,
                vd,
                vs2,
                imm,
                vm,
            },
            _ => unreachable!(),
        }
    }

    // The instruction of a merge.
    #[tactic(auto, using(crate::proofs::Fronts::three_fields), unfolding(crate::specs::Slots::vector_blank, crate::specs::Slots::vector_shape))]
    fn merge(self, fields: &Fields) -> VectorInsn
        requires group { IsMerge self }
        requires count { length fields.now ≡ length (vector_blank self) }
        requires fits { FitsSlots fields.now (vector_shape self) }
        ensures form { vector_form_of result ≡ self }
        ensures fields { vector_fields_of result ≡ fields.now }
    {
        match self {
            VectorForm::MergeVv => VectorInsn::MergeVv {
                vd: vector_at(fields, 0),
                vs2: vector_at(fields, 1),
                vs1: vector_at(fields, 2),
            },
            VectorForm::MergeVx => VectorInsn::MergeVx {
                vd: vector_at(fields, 0),
                vs2: vector_at(fields, 1),
                rs1: integer_at(fields, 2),
            },
            VectorForm::MergeVi => VectorInsn::MergeVi {
                vd: vector_at(fields, 0),
                vs2: vector_at(fields, 1),
                imm: immediate_5_at(fields, 2),
            },
            _ => unreachable!(),
        }
    }

    // The instruction of a move.
    #[tactic(auto, using(crate::proofs::Fronts::two_fields), unfolding(crate::specs::Slots::vector_blank, crate::specs::Slots::vector_shape))]
    fn moved(self, fields: &Fields) -> VectorInsn
        requires group { IsMove self }
        requires count { length fields.now ≡ length (vector_blank self) }
        requires fits { FitsSlots fields.now (vector_shape self) }
        ensures form { vector_form_of result ≡ self }
        ensures fields { vector_fields_of result ≡ fields.now }
    {
        match self {
            VectorForm::MoveVv => VectorInsn::MoveVv {
                vd: vector_at(fields, 0),
                vs1: vector_at(fields, 1),
            },
            VectorForm::MoveVx => VectorInsn::MoveVx {
                vd: vector_at(fields, 0),
                rs1: integer_at(fields, 1),
            },
            VectorForm::MoveVi => VectorInsn::MoveVi {
                vd: vector_at(fields, 0),
                imm: immediate_5_at(fields, 1),
            },
            VectorForm::MoveToScalar => VectorInsn::MoveToScalar {
                rd: integer_at(fields, 0),
                vs2: vector_at(fields, 1),
            },
            VectorForm::MoveFromScalar => VectorInsn::MoveFromScalar {
                vd: vector_at(fields, 0),
                rs1: integer_at(fields, 1),
            },
            _ => unreachable!(),
        }
    }

    // The instruction of a configuration.
    #[tactic(auto, using(crate::proofs::Fronts::three_fields), unfolding(crate::specs::Slots::vector_blank, crate::specs::Slots::vector_shape))]
    fn configuration(self, fields: &Fields) -> VectorInsn
        requires group { IsConfiguration self }
        requires count { length fields.now ≡ length (vector_blank self) }
        requires fits { FitsSlots fields.now (vector_shape self) }
        ensures form { vector_form_of result ≡ self }
        ensures fields { vector_fields_of result ≡ fields.now }
    {
        match self {
            VectorForm::Vsetvli => VectorInsn::Vsetvli {
                rd: integer_at(fields, 0),
                rs1: integer_at(fields, 1),
                vtype: vtype_11_at(fields, 2),
            },
            VectorForm::Vsetivli => VectorInsn::Vsetivli {
                rd: integer_at(fields, 0),
                length: length_at(fields, 1),
                vtype: vtype_10_at(fields, 2),
            },
            VectorForm::Vsetvl => VectorInsn::Vsetvl {
                rd: integer_at(fields, 0),
                rs1: integer_at(fields, 1),
                rs2: integer_at(fields, 2),
            },
            _ => unreachable!(),
        }
    }
}

// What a load or store of elements has beside its width.
#[derive(Clone, Copy)]
struct AccessOperands {
    v: VReg,
    rs1: Reg,
    addressing: Addressing,
    vm: bool,
}

impl AccessOperands {
    fn load(self, width: ElementWidth) -> VectorInsn
        ensures { result ≡ insns.LoadElements width self.v self.rs1 self.addressing self.vm }
    {
        VectorInsn::LoadElements {
            width,
            vd: self.v,
            rs1: self.rs1,
            addressing: self.addressing,
            vm: self.vm,
        }
    }

    fn store(self, width: ElementWidth) -> VectorInsn
        ensures { result ≡ insns.StoreElements width self.v self.rs1 self.addressing self.vm }
    {
        VectorInsn::StoreElements {
            width,
            vs3: self.v,
            rs1: self.rs1,
            addressing: self.addressing,
            vm: self.vm,
        }
    }
}

// The load or store of a mode with these numbers in its fields.
#[tactic(auto, using(crate::proofs::Fronts::three_fields, crate::proofs::Fronts::four_fields))]
fn access_in(mode: AddressMode, fields: &Fields) -> AccessOperands
    requires count { length fields.now ≡ length (access_blank mode) }
    requires fits { FitsSlots fields.now (access_operands mode) }
    ensures mode { mode_of result.addressing ≡ mode }
    ensures fields { pos result.v ∷ pos result.rs1 ∷ (offset_fields result.addressing ++ (pos (bit_of result.vm) ∷ []))
        ≡ fields.now }
{
    match mode {
        AddressMode::UnitStride => AccessOperands {
            v: vector_at(fields, 0),
            rs1: integer_at(fields, 1),
            addressing: Addressing::UnitStride,
            vm: flag_at(fields, 2),
        },
        AddressMode::Strided => AccessOperands {
            v: vector_at(fields, 0),
            rs1: integer_at(fields, 1),
            addressing: Addressing::Strided {
                rs2: integer_at(fields, 2),
            },
            vm: flag_at(fields, 3),
        },
        AddressMode::Indexed => AccessOperands {
            v: vector_at(fields, 0),
            rs1: integer_at(fields, 1),
            addressing: Addressing::Indexed {
                vs2: vector_at(fields, 2),
            },
            vm: flag_at(fields, 3),
        },
    }
}
