//! Instructions from forms and the numbers in their fields.

ghost use Rattle.std.specs.Prelude.{◌≡◌, ◌<◌, pos, length};
ghost use Rattle.rv_insn.specs.Table.{fields_of};
ghost use Rattle.assembler_mnemonics.specs.Forms.{form_of};
ghost use Rattle.assembler_mnemonics.specs.Slots.{blank, shape, field_at, IsWithin, FitsSlots, Keeps};
ghost use Rattle.assembler_mnemonics.specs.inner.Groups.{IsOperation, IsAccess};

use crate::fields::Fields;
use crate::forms::MnemonicForm;
use crate::values::{amount_at, branch_at, immediate_12_at, integer_at, jump_at, upper_at};
use rv_insn::{Insn, Reg};

impl MnemonicForm {
    /// The instruction of the form with these numbers in its fields, which are as many as the form
    /// has, and each a number that its slot can give.
    #[tactic(auto, using(crate::proofs::Fronts::no_fields, crate::proofs::Fronts::two_fields, crate::proofs::Fronts::three_fields), unfolding(crate::specs::Slots::blank, crate::specs::Slots::shape))]
    pub fn instruction(self, fields: &Fields) -> Insn
        requires count { length fields.now ≡ length (blank self) }
        requires fits { FitsSlots fields.now (shape self) }
        requires kept { Keeps self fields.now }
        ensures form { form_of result ≡ self }
        ensures fields { fields_of result ≡ fields.now }
    {
        match self {
            MnemonicForm::Lui => Insn::Lui {
                rd: integer_at(fields, 0),
                imm: upper_at(fields, 1),
            },
            MnemonicForm::Auipc => Insn::Auipc {
                rd: integer_at(fields, 0),
                imm: upper_at(fields, 1),
            },
            MnemonicForm::Jal => Insn::Jal {
                rd: integer_at(fields, 0),
                offset: jump_at(fields, 1),
            },
            MnemonicForm::Jalr => Insn::Jalr {
                rd: integer_at(fields, 0),
                rs1: integer_at(fields, 1),
                imm: immediate_12_at(fields, 2),
            },
            MnemonicForm::Branch(op) => {
                let (rs1, rs2) = sources(fields);
                let offset = branch_at(fields, 2);
                Insn::Branch {
                    op,
                    rs1,
                    rs2,
                    offset,
                }
            }
            MnemonicForm::AluImm(_) | MnemonicForm::Shift(_) | MnemonicForm::Alu(_) =>
                self.operation(fields),
            MnemonicForm::Load(_) | MnemonicForm::Store(_) | MnemonicForm::AmoaddW { .. } =>
                self.access(fields),
            MnemonicForm::Fence => Insn::Fence,
            MnemonicForm::Ecall => Insn::Ecall,
            MnemonicForm::Ebreak => Insn::Ebreak,
            MnemonicForm::Vector(form) => Insn::Vector(form.instruction(fields)),
        }
    }

    // The instruction of an operation on integer registers.
    #[tactic(auto, using(crate::proofs::Fronts::three_fields), unfolding(crate::specs::Slots::blank, crate::specs::Slots::shape))]
    fn operation(self, fields: &Fields) -> Insn
        requires group { IsOperation self }
        requires count { length fields.now ≡ length (blank self) }
        requires fits { FitsSlots fields.now (shape self) }
        ensures form { form_of result ≡ self }
        ensures fields { fields_of result ≡ fields.now }
    {
        match self {
            MnemonicForm::AluImm(op) => Insn::AluImm {
                op,
                rd: integer_at(fields, 0),
                rs1: integer_at(fields, 1),
                imm: immediate_12_at(fields, 2),
            },
            MnemonicForm::Shift(op) => Insn::Shift {
                op,
                rd: integer_at(fields, 0),
                rs1: integer_at(fields, 1),
                amount: amount_at(fields, 2),
            },
            MnemonicForm::Alu(op) => Insn::Alu {
                op,
                rd: integer_at(fields, 0),
                rs1: integer_at(fields, 1),
                rs2: integer_at(fields, 2),
            },
            _ => unreachable!(),
        }
    }

    // The instruction of a load or store of an integer register.
    #[tactic(auto, using(crate::proofs::Fronts::three_fields, crate::proofs::Fronts::five_fields), unfolding(crate::specs::Slots::blank, crate::specs::Slots::shape))]
    fn access(self, fields: &Fields) -> Insn
        requires group { IsAccess self }
        requires count { length fields.now ≡ length (blank self) }
        requires fits { FitsSlots fields.now (shape self) }
        requires kept { Keeps self fields.now }
        ensures form { form_of result ≡ self }
        ensures fields { fields_of result ≡ fields.now }
    {
        match self {
            MnemonicForm::Load(op) => Insn::Load {
                op,
                rd: integer_at(fields, 0),
                rs1: integer_at(fields, 1),
                imm: immediate_12_at(fields, 2),
            },
            MnemonicForm::Store(op) => {
                let (rs1, rs2) = sources(fields);
                let imm = immediate_12_at(fields, 2);
                Insn::Store { op, rs1, rs2, imm }
            }
            MnemonicForm::AmoaddW { aq, rl } => Insn::AmoaddW {
                rd: integer_at(fields, 0),
                rs1: integer_at(fields, 1),
                rs2: integer_at(fields, 2),
                aq,
                rl,
            },
            _ => unreachable!(),
        }
    }
}

// The registers rs1 and rs2 of a branch or a store.
fn sources(fields: &Fields) -> (Reg, Reg)
    requires places { 1 < length fields.now }
    requires first { IsWithin fields.now 0 (pos 0) (pos 31) }
    requires second { IsWithin fields.now 1 (pos 0) (pos 31) }
    ensures first { pos result.0 ≡ field_at fields.now 0 }
    ensures second { pos result.1 ≡ field_at fields.now 1 }
{
    (integer_at(fields, 0), integer_at(fields, 1))
}
