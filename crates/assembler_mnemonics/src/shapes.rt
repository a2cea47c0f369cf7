//! The slots of each form.

ghost use Rattle.std.specs.Prelude.{◌≡◌};
ghost use Rattle.assembler_mnemonics.specs.Slots as spec;

use crate::forms::{MnemonicForm, VectorForm};
use crate::slots::Slot;
use rv_insn::AddressMode;

// A signed immediate of 5 bits, and a shift's amount.
const IMMEDIATE: Slot = Slot::Number {
    field: 2,
    least: -16,
    greatest: 15,
};

const AMOUNT: Slot = Slot::Number {
    field: 2,
    least: 0,
    greatest: 31,
};

// Operations on elements: the destination, a source, another operand, a mask.
const VV: [Slot; 4] = [
    Slot::Vector(0),
    Slot::Vector(1),
    Slot::Vector(2),
    Slot::Mask(3),
];

const VX: [Slot; 4] = [
    Slot::Vector(0),
    Slot::Vector(1),
    Slot::Integer(2),
    Slot::Mask(3),
];

const VI: [Slot; 4] = [Slot::Vector(0), Slot::Vector(1), IMMEDIATE, Slot::Mask(3)];

const SHIFT_VI: [Slot; 4] = [Slot::Vector(0), Slot::Vector(1), AMOUNT, Slot::Mask(3)];

// Merges: the same with `v0` as a fourth operand.
const MERGE_VV: [Slot; 4] = [
    Slot::Vector(0),
    Slot::Vector(1),
    Slot::Vector(2),
    Slot::MaskRegister,
];

const MERGE_VX: [Slot; 4] = [
    Slot::Vector(0),
    Slot::Vector(1),
    Slot::Integer(2),
    Slot::MaskRegister,
];

const MERGE_VI: [Slot; 4] = [
    Slot::Vector(0),
    Slot::Vector(1),
    IMMEDIATE,
    Slot::MaskRegister,
];

// Moves.
const MOVE_VV: [Slot; 2] = [Slot::Vector(0), Slot::Vector(1)];

const MOVE_VX: [Slot; 2] = [Slot::Vector(0), Slot::Integer(1)];

const MOVE_XV: [Slot; 2] = [Slot::Integer(0), Slot::Vector(1)];

const MOVE_VI: [Slot; 2] = [
    Slot::Vector(0),
    Slot::Number {
        field: 1,
        least: -16,
        greatest: 15,
    },
];

const ELEMENT_NUMBERS: [Slot; 2] = [Slot::Vector(0), Slot::Mask(1)];

const EXTEND_BYTES: [Slot; 3] = [Slot::Vector(0), Slot::Vector(1), Slot::Mask(2)];

// Configurations.
const VSETVLI: [Slot; 3] = [
    Slot::Integer(0),
    Slot::Integer(1),
    Slot::Configuration {
        field: 2,
        greatest: 2047,
    },
];

const VSETIVLI: [Slot; 3] = [
    Slot::Integer(0),
    Slot::Number {
        field: 1,
        least: 0,
        greatest: 31,
    },
    Slot::Configuration {
        field: 2,
        greatest: 1023,
    },
];

const VSETVL: [Slot; 3] = [Slot::Integer(0), Slot::Integer(1), Slot::Integer(2)];

// Loads and stores: what is loaded or stored, the address, an offset, a mask.
const UNIT: [Slot; 3] = [Slot::Vector(0), Slot::Address(1), Slot::Mask(2)];

const STRIDED: [Slot; 4] = [
    Slot::Vector(0),
    Slot::Address(1),
    Slot::Integer(2),
    Slot::Mask(3),
];

const INDEXED: [Slot; 4] = [
    Slot::Vector(0),
    Slot::Address(1),
    Slot::Vector(2),
    Slot::Mask(3),
];

impl MnemonicForm {
    /// How the form's operands are written, in the order of the text.
    #[tactic(auto, unfolding(crate::specs::Slots::shape))]
    pub fn shape(self) -> &'static [Slot]
        ensures { result.now ≡ spec.shape self }
    {
        match self {
            MnemonicForm::Lui | MnemonicForm::Auipc => &[Slot::Integer(0), Slot::Upper(1)],
            MnemonicForm::Jal => &[
                Slot::Integer(0),
                Slot::Target {
                    field: 1,
                    reach: 524_288,
                },
            ],
            MnemonicForm::Jalr | MnemonicForm::Load(_) => &[
                Slot::Integer(0),
                Slot::Based { offset: 2, base: 1 },
            ],
            MnemonicForm::Branch(_) => &[
                Slot::Integer(0),
                Slot::Integer(1),
                Slot::Target {
                    field: 2,
                    reach: 2048,
                },
            ],
            MnemonicForm::Store(_) => &[Slot::Integer(1), Slot::Based { offset: 2, base: 0 }],
            MnemonicForm::AluImm(_) => &[
                Slot::Integer(0),
                Slot::Integer(1),
                Slot::Number {
                    field: 2,
                    least: -2048,
                    greatest: 2047,
                },
            ],
            MnemonicForm::Shift(_) => &[Slot::Integer(0), Slot::Integer(1), AMOUNT],
            MnemonicForm::Alu(_) => &[Slot::Integer(0), Slot::Integer(1), Slot::Integer(2)],
            MnemonicForm::AmoaddW { .. } => &[Slot::Integer(0), Slot::Integer(2), Slot::Address(1)],
            MnemonicForm::Fence | MnemonicForm::Ecall | MnemonicForm::Ebreak => &[],
            MnemonicForm::Vector(form) => form.shape(),
        }
    }
}

impl VectorForm {
    /// How the form's operands are written, in the order of the text.
    #[tactic(auto, unfolding(crate::specs::Slots::vector_shape))]
    pub fn shape(self) -> &'static [Slot]
        ensures { result.now ≡ spec.vector_shape self }
    {
        match self {
            VectorForm::ArithmeticVv(_) | VectorForm::CompareVv(_) => &VV,
            VectorForm::MultiplyVv(_) | VectorForm::Reduce(_) => &VV,
            VectorForm::ArithmeticVx(_) | VectorForm::CompareVx(_) => &VX,
            VectorForm::MultiplyVx(_) => &VX,
            VectorForm::ArithmeticVi(_) | VectorForm::CompareVi(_) => &VI,
            VectorForm::ShiftVi(_) => &SHIFT_VI,
            VectorForm::MergeVv => &MERGE_VV,
            VectorForm::MergeVx => &MERGE_VX,
            VectorForm::MergeVi => &MERGE_VI,
            VectorForm::MoveVv => &MOVE_VV,
            VectorForm::MoveVx | VectorForm::MoveFromScalar => &MOVE_VX,
            VectorForm::MoveVi => &MOVE_VI,
            VectorForm::MoveToScalar => &MOVE_XV,
            VectorForm::ElementNumbers => &ELEMENT_NUMBERS,
            VectorForm::ExtendBytes => &EXTEND_BYTES,
            VectorForm::Vsetvli => &VSETVLI,
            VectorForm::Vsetivli => &VSETIVLI,
            VectorForm::Vsetvl => &VSETVL,
            VectorForm::LoadElements(mode, _) | VectorForm::StoreElements(mode, _) => {
                access_shape(mode)
            }
        }
    }
}

// How the operands of a load or store are written.
fn access_shape(mode: AddressMode) -> &'static [Slot]
    ensures { result.now ≡ spec.access_operands mode }
{
    match mode {
        AddressMode::UnitStride => &UNIT,
        AddressMode::Strided => &STRIDED,
        AddressMode::Indexed => &INDEXED,
    }
}
