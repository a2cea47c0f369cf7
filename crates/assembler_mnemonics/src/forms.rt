//! Instructions without their operands, and their mnemonics.

ghost use Rattle.std.specs.Prelude.{◌≡◌, ◌++◌, codes};
ghost use Rattle.assembler_mnemonics.specs.Forms.{form_of, vector_form_of, vector_row_name, mnemonic, order_suffix};

use crate::names::{
    alu_imm_mnemonic, alu_mnemonic, branch_mnemonic, load_mnemonic, shift_mnemonic, store_mnemonic,
};
use crate::vector_names::{
    arithmetic_vi_mnemonic, arithmetic_vv_mnemonic, arithmetic_vx_mnemonic, compare_vi_mnemonic,
    compare_vv_mnemonic, compare_vx_mnemonic, load_elements_mnemonic, multiply_vv_mnemonic,
    multiply_vx_mnemonic, reduction_mnemonic, shift_vi_mnemonic, store_elements_mnemonic,
};
use rv_insn::{
    AddressMode, AluImmOp, AluOp, ArithmeticViOp, ArithmeticVvOp, ArithmeticVxOp, BranchOp,
    CompareViOp, CompareVvOp, CompareVxOp, ElementWidth, Insn, LoadOp, MultiplyOp, ReductionOp,
    ShiftOp, ShiftViOp, StoreOp, VectorInsn,
};

/// An instruction without its operands: what a mnemonic names. Each is a row of the instruction table,
/// but that `amoadd.w` has one for each setting of its bits `aq` and `rl`.
#[derive(Clone, Copy)]
pub enum MnemonicForm {
    Lui,
    Auipc,
    Jal,
    Jalr,
    Branch(BranchOp),
    Load(LoadOp),
    Store(StoreOp),
    AluImm(AluImmOp),
    Shift(ShiftOp),
    Alu(AluOp),
    AmoaddW { aq: bool, rl: bool },
    Fence,
    Ecall,
    Ebreak,
    Vector(VectorForm),
}

/// A vector instruction without its operands.
#[derive(Clone, Copy)]
pub enum VectorForm {
    ArithmeticVv(ArithmeticVvOp),
    ArithmeticVx(ArithmeticVxOp),
    ArithmeticVi(ArithmeticViOp),
    ShiftVi(ShiftViOp),
    CompareVv(CompareVvOp),
    CompareVx(CompareVxOp),
    CompareVi(CompareViOp),
    MultiplyVv(MultiplyOp),
    MultiplyVx(MultiplyOp),
    Reduce(ReductionOp),
    MergeVv,
    MergeVx,
    MergeVi,
    MoveVv,
    MoveVx,
    MoveVi,
    MoveToScalar,
    MoveFromScalar,
    ElementNumbers,
    ExtendBytes,
    Vsetvli,
    Vsetivli,
    Vsetvl,
    LoadElements(AddressMode, ElementWidth),
    StoreElements(AddressMode, ElementWidth),
}

impl MnemonicForm {
    /// The form of an instruction.
    pub fn of(insn: &Insn) -> MnemonicForm
        ensures { result ≡ form_of insn.now }
    {
        match *insn {
            Insn::Lui { .. } => MnemonicForm::Lui,
            Insn::Auipc { .. } => MnemonicForm::Auipc,
            Insn::Jal { .. } => MnemonicForm::Jal,
            Insn::Jalr { .. } => MnemonicForm::Jalr,
            Insn::Branch { op, .. } => MnemonicForm::Branch(op),
            Insn::Load { op, .. } => MnemonicForm::Load(op),
            Insn::Store { op, .. } => MnemonicForm::Store(op),
            Insn::AluImm { op, .. } => MnemonicForm::AluImm(op),
            Insn::Shift { op, .. } => MnemonicForm::Shift(op),
            Insn::Alu { op, .. } => MnemonicForm::Alu(op),
            Insn::AmoaddW { aq, rl, .. } => MnemonicForm::AmoaddW { aq, rl },
            Insn::Fence => MnemonicForm::Fence,
            Insn::Ecall => MnemonicForm::Ecall,
            Insn::Ebreak => MnemonicForm::Ebreak,
            Insn::Vector(insn) => MnemonicForm::Vector(VectorForm::of(&insn)),
        }
    }

    /// The form's mnemonic: its row's name, and for `amoadd.w` after it the bits that are 1.
    pub fn mnemonic(self) -> &'static str
        ensures { result.now ≡ mnemonic self }
    {
        match self {
            MnemonicForm::Lui => "lui",
            MnemonicForm::Auipc => "auipc",
            MnemonicForm::Jal => "jal",
            MnemonicForm::Jalr => "jalr",
            MnemonicForm::Branch(op) => branch_mnemonic(op),
            MnemonicForm::Load(op) => load_mnemonic(op),
            MnemonicForm::Store(op) => store_mnemonic(op),
            MnemonicForm::AluImm(op) => alu_imm_mnemonic(op),
            MnemonicForm::Shift(op) => shift_mnemonic(op),
            MnemonicForm::Alu(op) => alu_mnemonic(op),
            MnemonicForm::AmoaddW { aq, rl } => amoadd_mnemonic(aq, rl),
            MnemonicForm::Fence => "fence",
            MnemonicForm::Ecall => "ecall",
            MnemonicForm::Ebreak => "ebreak",
            MnemonicForm::Vector(form) => form.mnemonic(),
        }
    }
}

// The mnemonic of the atomic addition with its bits.
fn amoadd_mnemonic(aq: bool, rl: bool) -> &'static str
    ensures { result.now ≡ codes "amoadd.w" ++ order_suffix aq rl }
{
    match (aq, rl) {
        (false, false) => "amoadd.w",
        (true, false) => "amoadd.w.aq",
        (false, true) => "amoadd.w.rl",
        (true, true) => "amoadd.w.aqrl",
    }
}

impl VectorForm {
    /// The form of a vector instruction.
    pub fn of(insn: &VectorInsn) -> VectorForm
        ensures { result ≡ vector_form_of insn.now }
    {
        match *insn {
            VectorInsn::ArithmeticVv { op, .. } => VectorForm::ArithmeticVv(op),
            VectorInsn::ArithmeticVx { op, .. } => VectorForm::ArithmeticVx(op),
            VectorInsn::ArithmeticVi { op, .. } => VectorForm::ArithmeticVi(op),
            VectorInsn::ShiftVi { op, .. } => VectorForm::ShiftVi(op),
            VectorInsn::CompareVv { op, .. } => VectorForm::CompareVv(op),
            VectorInsn::CompareVx { op, .. } => VectorForm::CompareVx(op),
            VectorInsn::CompareVi { op, .. } => VectorForm::CompareVi(op),
            VectorInsn::MultiplyVv { op, .. } => VectorForm::MultiplyVv(op),
            VectorInsn::MultiplyVx { op, .. } => VectorForm::MultiplyVx(op),
            VectorInsn::Reduce { op, .. } => VectorForm::Reduce(op),
            VectorInsn::MergeVv { .. } => VectorForm::MergeVv,
            VectorInsn::MergeVx { .. } => VectorForm::MergeVx,
            VectorInsn::MergeVi { .. } => VectorForm::MergeVi,
            VectorInsn::MoveVv { .. } => VectorForm::MoveVv,
            VectorInsn::MoveVx { .. } => VectorForm::MoveVx,
            VectorInsn::MoveVi { .. } => VectorForm::MoveVi,
            VectorInsn::MoveToScalar { .. } => VectorForm::MoveToScalar,
            VectorInsn::MoveFromScalar { .. } => VectorForm::MoveFromScalar,
            VectorInsn::ElementNumbers { .. } => VectorForm::ElementNumbers,
            VectorInsn::ExtendBytes { .. } => VectorForm::ExtendBytes,
            VectorInsn::Vsetvli { .. } => VectorForm::Vsetvli,
            VectorInsn::Vsetivli { .. } => VectorForm::Vsetivli,
            VectorInsn::Vsetvl { .. } => VectorForm::Vsetvl,
            VectorInsn::LoadElements {
                width,
                addressing,
                ..
            } => VectorForm::LoadElements(addressing.mode(), width),
            VectorInsn::StoreElements {
                width,
                addressing,
                ..
            } => VectorForm::StoreElements(addressing.mode(), width),
        }
    }

    /// The form's mnemonic, which is its row's name.
    pub fn mnemonic(self) -> &'static str
        ensures { result.now ≡ vector_row_name self }
    {
        match self {
            VectorForm::ArithmeticVv(op) => arithmetic_vv_mnemonic(op),
            VectorForm::ArithmeticVx(op) => arithmetic_vx_mnemonic(op),
            VectorForm::ArithmeticVi(op) => arithmetic_vi_mnemonic(op),
            VectorForm::ShiftVi(op) => shift_vi_mnemonic(op),
            VectorForm::CompareVv(op) => compare_vv_mnemonic(op),
            VectorForm::CompareVx(op) => compare_vx_mnemonic(op),
            VectorForm::CompareVi(op) => compare_vi_mnemonic(op),
            VectorForm::MultiplyVv(op) => multiply_vv_mnemonic(op),
            VectorForm::MultiplyVx(op) => multiply_vx_mnemonic(op),
            VectorForm::Reduce(op) => reduction_mnemonic(op),
            VectorForm::MergeVv => "vmerge.vvm",
            VectorForm::MergeVx => "vmerge.vxm",
            VectorForm::MergeVi => "vmerge.vim",
            VectorForm::MoveVv => "vmv.v.v",
            VectorForm::MoveVx => "vmv.v.x",
            VectorForm::MoveVi => "vmv.v.i",
            VectorForm::MoveToScalar => "vmv.x.s",
            VectorForm::MoveFromScalar => "vmv.s.x",
            VectorForm::ElementNumbers => "vid.v",
            VectorForm::ExtendBytes => "vzext.vf4",
            VectorForm::Vsetvli => "vsetvli",
            VectorForm::Vsetivli => "vsetivli",
            VectorForm::Vsetvl => "vsetvl",
            VectorForm::LoadElements(mode, width) => load_elements_mnemonic(mode, width),
            VectorForm::StoreElements(mode, width) => store_elements_mnemonic(mode, width),
        }
    }
}
