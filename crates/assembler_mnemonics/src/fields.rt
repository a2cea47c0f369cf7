//! The numbers in an instruction's fields.

ghost use Rattle.std.specs.Prelude.{◌≡◌, ◌<◌, ◌≤◌, pos, length, slice_set, [], ◌∷◌, ◌++◌};
ghost use Rattle.rv_insn.specs.Encoding.{bit_of};
ghost use Rattle.rv_insn.specs.Encoding.{offset_fields};
ghost use Rattle.rv_insn.specs.Table.{fields_of};
ghost use Rattle.rv_insn.specs.VectorTable.{vector_fields_of};
ghost use Rattle.assembler_mnemonics.specs.Forms.{vector_form_of};
ghost use Rattle.assembler_mnemonics.specs.Slots as spec;
ghost use Rattle.assembler_mnemonics.specs.inner.Groups.{HasOther, IsConfiguration, IsElementAccess};

use crate::forms::{MnemonicForm, VectorForm};
use rv_insn::{AddressMode, Addressing, Insn, Reg, VReg, VectorInsn};
use std::marker::Model;

/// The numbers in the fields of a row of the instruction table, in the row's order: at most 5. A
/// contract sees the list of them.
#[derive(Drop)]
pub struct Fields {
    numbers: [i64; 5],
    count: usize,
}

impl Model for Fields {
    ghost use Rattle.std.specs.Prelude.{List, ℤ, take, ◌≤◌};

    ghost Value = { List ℤ };

    ghost view = { λ fields. take fields.count fields.numbers };

    ghost invariant = { λ fields. fields.count ≤ 5 };
}

impl Fields {
    fn none() -> Fields
        ensures { result ≡ [] }
    {
        Fields {
            numbers: [0; 5],
            count: 0,
        }
    }

    fn two(first: i64, second: i64) -> Fields
        ensures { result ≡ first ∷ second ∷ [] }
    {
        Fields {
            numbers: [first, second, 0, 0, 0],
            count: 2,
        }
    }

    fn three(first: i64, second: i64, third: i64) -> Fields
        ensures { result ≡ first ∷ second ∷ third ∷ [] }
    {
        Fields {
            numbers: [first, second, third, 0, 0],
            count: 3,
        }
    }

    fn four(first: i64, second: i64, third: i64, fourth: i64) -> Fields
        ensures { result ≡ first ∷ second ∷ third ∷ fourth ∷ [] }
    {
        Fields {
            numbers: [first, second, third, fourth, 0],
            count: 4,
        }
    }

    fn five(first: i64, second: i64, third: i64, fourth: i64, fifth: i64) -> Fields
        ensures { result ≡ first ∷ second ∷ third ∷ fourth ∷ fifth ∷ [] }
    {
        Fields {
            numbers: [first, second, third, fourth, fifth],
            count: 5,
        }
    }

    /// How many fields there are, at most 5.
    pub fn len(&self) -> usize
        ensures count { result ≡ length self.now }
        ensures most { result ≤ 5 }
    {
        self.count
    }

    /// The number in a field, counted from 0.
    #[tactic(auto, using(crate::proofs::Fronts::read_of_front))]
    pub fn get(&self, field: usize) -> i64
        requires { field < length self.now }
        ensures { result ≡ spec.field_at self.now field }
    {
        let numbers = &self.numbers;
        numbers[field]
    }

    /// Puts a number into a field, counted from 0.
    #[tactic(auto, using(crate::proofs::Fronts::set_in_front))]
    pub fn set(&mut self, field: usize, number: i64)
        requires { field < length self.old }
        ensures { self.new ≡ slice_set self.old field number }
    {
        let numbers = &mut self.numbers;
        numbers[field] = number;
    }

    /// The numbers in an instruction's fields.
    pub fn of(insn: &Insn) -> Fields
        ensures { result ≡ fields_of insn.now }
    {
        match *insn {
            Insn::Lui { rd, imm } | Insn::Auipc { rd, imm } => {
                Fields::two(integer(rd), imm.value() as i64)
            }
            Insn::Jal { rd, offset } => Fields::two(integer(rd), offset.halves() as i64),
            Insn::Branch {
                rs1,
                rs2,
                offset,
                ..
            } => Fields::three(integer(rs1), integer(rs2), offset.halves() as i64),
            Insn::Store { rs1, rs2, imm, .. } => {
                Fields::three(integer(rs1), integer(rs2), imm.value() as i64)
            }
            Insn::Jalr { rd, rs1, imm } => {
                Fields::three(integer(rd), integer(rs1), imm.value() as i64)
            }
            Insn::Load { rd, rs1, imm, .. } | Insn::AluImm { rd, rs1, imm, .. } => {
                Fields::three(integer(rd), integer(rs1), imm.value() as i64)
            }
            Insn::Shift {
                rd,
                rs1,
                amount,
                ..
            } => Fields::three(integer(rd), integer(rs1), amount.value() as i64),
            Insn::Alu { rd, rs1, rs2, .. } => {
                Fields::three(integer(rd), integer(rs1), integer(rs2))
            }
            Insn::AmoaddW {
                rd,
                rs1,
                rs2,
                aq,
                rl,
            } => Fields::five(integer(rd), integer(rs1), integer(rs2), bit(aq), bit(rl)),
            Insn::Fence | Insn::Ecall | Insn::Ebreak => Fields::none(),
            Insn::Vector(insn) => Fields::of_vector(&insn),
        }
    }

    fn of_vector(insn: &VectorInsn) -> Fields
        ensures { result ≡ vector_fields_of insn.now }
    {
        match *insn {
            VectorInsn::ArithmeticVv { vd, vs2, vm, .. }
            | VectorInsn::ArithmeticVx { vd, vs2, vm, .. }
            | VectorInsn::ArithmeticVi { vd, vs2, vm, .. }
            | VectorInsn::ShiftVi { vd, vs2, vm, .. }
            | VectorInsn::CompareVv { vd, vs2, vm, .. }
            | VectorInsn::CompareVx { vd, vs2, vm, .. }
            | VectorInsn::CompareVi { vd, vs2, vm, .. }
            | VectorInsn::MultiplyVv { vd, vs2, vm, .. }
            | VectorInsn::MultiplyVx { vd, vs2, vm, .. }
            | VectorInsn::Reduce { vd, vs2, vm, .. } => {
                Fields::four(vector(vd), vector(vs2), other_operand(insn), bit(vm))
            }
            VectorInsn::MergeVv { vd, vs2, .. }
            | VectorInsn::MergeVx { vd, vs2, .. }
            | VectorInsn::MergeVi { vd, vs2, .. } => {
                Fields::three(vector(vd), vector(vs2), other_operand(insn))
            }
            VectorInsn::MoveVv { vd, vs1 } => Fields::two(vector(vd), vector(vs1)),
            VectorInsn::MoveVx { vd, rs1 } | VectorInsn::MoveFromScalar { vd, rs1 } => {
                Fields::two(vector(vd), integer(rs1))
            }
            VectorInsn::MoveVi { vd, imm } => Fields::two(vector(vd), imm.value() as i64),
            VectorInsn::MoveToScalar { rd, vs2 } => Fields::two(integer(rd), vector(vs2)),
            VectorInsn::ElementNumbers { vd, vm } => Fields::two(vector(vd), bit(vm)),
            VectorInsn::ExtendBytes { vd, vs2, vm } => {
                Fields::three(vector(vd), vector(vs2), bit(vm))
            }
            VectorInsn::Vsetvli { .. } | VectorInsn::Vsetivli { .. } | VectorInsn::Vsetvl { .. } =>
                { of_configuration(insn) }
            VectorInsn::LoadElements { .. } | VectorInsn::StoreElements { .. } => of_access(insn),
        }
    }
}

// The other operand of an operation on elements or of a merge, beside vd and vs2.
fn other_operand(insn: &VectorInsn) -> i64
    requires { HasOther (vector_form_of insn.now) }
    ensures { result ≡ spec.field_at (vector_fields_of insn.now) 2 }
{
    match *insn {
        VectorInsn::ArithmeticVv { vs1, .. } | VectorInsn::CompareVv { vs1, .. } => vector(vs1),
        VectorInsn::MultiplyVv { vs1, .. } | VectorInsn::Reduce { vs1, .. } => vector(vs1),
        VectorInsn::MergeVv { vs1, .. } => vector(vs1),
        VectorInsn::ArithmeticVx { rs1, .. } | VectorInsn::CompareVx { rs1, .. } => integer(rs1),
        VectorInsn::MultiplyVx { rs1, .. } | VectorInsn::MergeVx { rs1, .. } => integer(rs1),
        VectorInsn::ArithmeticVi { imm, .. } | VectorInsn::CompareVi { imm, .. } => {
            imm.value() as i64
        }
        VectorInsn::MergeVi { imm, .. } => imm.value() as i64,
        VectorInsn::ShiftVi { amount, .. } => amount.value() as i64,
        _ => unreachable!(),
    }
}

// The numbers in the fields of a configuration.
fn of_configuration(insn: &VectorInsn) -> Fields
    requires { IsConfiguration (vector_form_of insn.now) }
    ensures { result ≡ vector_fields_of insn.now }
{
    match *insn {
        VectorInsn::Vsetvli { rd, rs1, vtype } => {
            Fields::three(integer(rd), integer(rs1), vtype.value() as i64)
        }
        VectorInsn::Vsetivli { rd, length, vtype } => {
            Fields::three(integer(rd), length.value() as i64, vtype.value() as i64)
        }
        VectorInsn::Vsetvl { rd, rs1, rs2 } => {
            Fields::three(integer(rd), integer(rs1), integer(rs2))
        }
        _ => unreachable!(),
    }
}

// The numbers in the fields of a load or store of elements.
fn of_access(insn: &VectorInsn) -> Fields
    requires { IsElementAccess (vector_form_of insn.now) }
    ensures { result ≡ vector_fields_of insn.now }
{
    match *insn {
        VectorInsn::LoadElements {
            vd: v,
            rs1,
            addressing,
            vm,
            ..
        }
        | VectorInsn::StoreElements {
            vs3: v,
            rs1,
            addressing,
            vm,
            ..
        } => access_fields(v, rs1, addressing, vm),
        _ => unreachable!(),
    }
}

// The same from the parts that loads and stores share.
fn access_fields(v: VReg, rs1: Reg, addressing: Addressing, vm: bool) -> Fields
    ensures { result ≡ pos v ∷ pos rs1 ∷ (offset_fields addressing ++ (pos (bit_of vm) ∷ [])) }
{
    match addressing {
        Addressing::UnitStride => Fields::three(vector(v), integer(rs1), bit(vm)),
        Addressing::Strided { rs2 } => {
            Fields::four(vector(v), integer(rs1), integer(rs2), bit(vm))
        }
        Addressing::Indexed { vs2 } => {
            Fields::four(vector(v), integer(rs1), vector(vs2), bit(vm))
        }
    }
}

fn integer(register: Reg) -> i64
    ensures { result ≡ pos register }
{
    register.number() as i64
}

fn vector(register: VReg) -> i64
    ensures { result ≡ pos register }
{
    register.number() as i64
}

// A flag as a digit.
fn bit(flag: bool) -> i64
    ensures { result ≡ pos (bit_of flag) }
{
    if flag { 1 } else { 0 }
}

impl MnemonicForm {
    /// The fields before any operand is read: a mask that isn't written is 1, the bits of `amoadd.w`
    /// are the form's, and all else is 0.
    #[tactic(auto, unfolding(crate::specs::Slots::blank))]
    pub fn blank(self) -> Fields
        ensures { result ≡ spec.blank self }
    {
        match self {
            MnemonicForm::Lui | MnemonicForm::Auipc | MnemonicForm::Jal => Fields::two(0, 0),
            MnemonicForm::Jalr
            | MnemonicForm::Branch(_)
            | MnemonicForm::Load(_)
            | MnemonicForm::Store(_) => { Fields::three(0, 0, 0) }
            MnemonicForm::AluImm(_) | MnemonicForm::Shift(_) | MnemonicForm::Alu(_) =>
                Fields::three(0, 0, 0),
            MnemonicForm::AmoaddW { aq, rl } => Fields::five(0, 0, 0, bit(aq), bit(rl)),
            MnemonicForm::Fence | MnemonicForm::Ecall | MnemonicForm::Ebreak => Fields::none(),
            MnemonicForm::Vector(form) => form.blank(),
        }
    }
}

impl VectorForm {
    /// The fields before any operand is read: a mask that isn't written is 1, and all else is 0.
    #[tactic(auto, unfolding(crate::specs::Slots::vector_blank))]
    pub fn blank(self) -> Fields
        ensures { result ≡ spec.vector_blank self }
    {
        match self {
            VectorForm::MergeVv | VectorForm::MergeVx | VectorForm::MergeVi => {
                Fields::three(0, 0, 0)
            }
            VectorForm::MoveVv
            | VectorForm::MoveVx
            | VectorForm::MoveVi
            | VectorForm::MoveToScalar
            | VectorForm::MoveFromScalar => Fields::two(0, 0),
            VectorForm::ElementNumbers => Fields::two(0, 1),
            VectorForm::Vsetvli | VectorForm::Vsetivli | VectorForm::Vsetvl => {
                Fields::three(0, 0, 0)
            }
            VectorForm::ExtendBytes => Fields::three(0, 0, 1),
            VectorForm::LoadElements(mode, _) | VectorForm::StoreElements(mode, _) => {
                access_blank(mode)
            }
            _ => Fields::four(0, 0, 0, 1),
        }
    }
}

// The fields of a load or store of elements before any operand is read.
fn access_blank(mode: AddressMode) -> Fields
    ensures { result ≡ spec.access_blank mode }
{
    match mode {
        AddressMode::UnitStride => Fields::three(0, 0, 1),
        AddressMode::Strided | AddressMode::Indexed => Fields::four(0, 0, 0, 1),
    }
}
