//! The form that a mnemonic names.

ghost use Rattle.std.specs.Prelude.{◌≡◌};
ghost use Rattle.assembler_mnemonics.specs.Named as spec;

use crate::forms::{MnemonicForm, VectorForm};
use rv_insn::{
    AddressMode, AluImmOp, AluOp, ArithmeticViOp, ArithmeticVvOp, ArithmeticVxOp, BranchOp,
    CompareViOp, CompareVvOp, CompareVxOp, ElementWidth, LoadOp, MultiplyOp, ReductionOp, ShiftOp,
    ShiftViOp, StoreOp,
};

// Where the forms are to be looked for: groups by the mnemonic's first letter, and those that begin
// with `v` by the last two.
#[derive(Clone, Copy)]
enum MnemonicGroup {
    BeginsA,
    BeginsB,
    BeginsL,
    BeginsS,
    BeginsOther,
    EndsVv,
    EndsVx,
    EndsVi,
    EndsV,
    EndsOther,
}

// Mnemonics that begin with `a`.
const A_FORMS: [MnemonicForm; 9] = [
    MnemonicForm::Auipc,
    MnemonicForm::AmoaddW {
        aq: false,
        rl: false,
    },
    MnemonicForm::AmoaddW {
        aq: true,
        rl: false,
    },
    MnemonicForm::AmoaddW {
        aq: false,
        rl: true,
    },
    MnemonicForm::AmoaddW { aq: true, rl: true },
    MnemonicForm::AluImm(AluImmOp::Addi),
    MnemonicForm::AluImm(AluImmOp::Andi),
    MnemonicForm::Alu(AluOp::Add),
    MnemonicForm::Alu(AluOp::And),
];

// Mnemonics that begin with `b`.
const B_FORMS: [MnemonicForm; 6] = [
    MnemonicForm::Branch(BranchOp::Beq),
    MnemonicForm::Branch(BranchOp::Bne),
    MnemonicForm::Branch(BranchOp::Blt),
    MnemonicForm::Branch(BranchOp::Bge),
    MnemonicForm::Branch(BranchOp::Bltu),
    MnemonicForm::Branch(BranchOp::Bgeu),
];

// Mnemonics that begin with `l`.
const L_FORMS: [MnemonicForm; 6] = [
    MnemonicForm::Lui,
    MnemonicForm::Load(LoadOp::Lb),
    MnemonicForm::Load(LoadOp::Lh),
    MnemonicForm::Load(LoadOp::Lw),
    MnemonicForm::Load(LoadOp::Lbu),
    MnemonicForm::Load(LoadOp::Lhu),
];

// Mnemonics that begin with `s`.
const S_FORMS: [MnemonicForm; 14] = [
    MnemonicForm::Store(StoreOp::Sb),
    MnemonicForm::Store(StoreOp::Sh),
    MnemonicForm::Store(StoreOp::Sw),
    MnemonicForm::AluImm(AluImmOp::Slti),
    MnemonicForm::AluImm(AluImmOp::Sltiu),
    MnemonicForm::Shift(ShiftOp::Slli),
    MnemonicForm::Shift(ShiftOp::Srli),
    MnemonicForm::Shift(ShiftOp::Srai),
    MnemonicForm::Alu(AluOp::Sub),
    MnemonicForm::Alu(AluOp::Sll),
    MnemonicForm::Alu(AluOp::Slt),
    MnemonicForm::Alu(AluOp::Sltu),
    MnemonicForm::Alu(AluOp::Srl),
    MnemonicForm::Alu(AluOp::Sra),
];

// Mnemonics that begin with other letters than `v`.
const OTHER_FORMS: [MnemonicForm; 17] = [
    MnemonicForm::Jal,
    MnemonicForm::Jalr,
    MnemonicForm::Fence,
    MnemonicForm::Ecall,
    MnemonicForm::Ebreak,
    MnemonicForm::AluImm(AluImmOp::Xori),
    MnemonicForm::AluImm(AluImmOp::Ori),
    MnemonicForm::Alu(AluOp::Xor),
    MnemonicForm::Alu(AluOp::Or),
    MnemonicForm::Alu(AluOp::Mul),
    MnemonicForm::Alu(AluOp::Mulh),
    MnemonicForm::Alu(AluOp::Mulhsu),
    MnemonicForm::Alu(AluOp::Mulhu),
    MnemonicForm::Alu(AluOp::Div),
    MnemonicForm::Alu(AluOp::Divu),
    MnemonicForm::Alu(AluOp::Rem),
    MnemonicForm::Alu(AluOp::Remu),
];

// Mnemonics that begin with `v`, and end with `vv`.
const VV_FORMS: [MnemonicForm; 26] = [
    MnemonicForm::Vector(VectorForm::ArithmeticVv(ArithmeticVvOp::Vadd)),
    MnemonicForm::Vector(VectorForm::ArithmeticVv(ArithmeticVvOp::Vsub)),
    MnemonicForm::Vector(VectorForm::ArithmeticVv(ArithmeticVvOp::Vminu)),
    MnemonicForm::Vector(VectorForm::ArithmeticVv(ArithmeticVvOp::Vmin)),
    MnemonicForm::Vector(VectorForm::ArithmeticVv(ArithmeticVvOp::Vmaxu)),
    MnemonicForm::Vector(VectorForm::ArithmeticVv(ArithmeticVvOp::Vmax)),
    MnemonicForm::Vector(VectorForm::ArithmeticVv(ArithmeticVvOp::Vand)),
    MnemonicForm::Vector(VectorForm::ArithmeticVv(ArithmeticVvOp::Vor)),
    MnemonicForm::Vector(VectorForm::ArithmeticVv(ArithmeticVvOp::Vxor)),
    MnemonicForm::Vector(VectorForm::ArithmeticVv(ArithmeticVvOp::Vsll)),
    MnemonicForm::Vector(VectorForm::ArithmeticVv(ArithmeticVvOp::Vsrl)),
    MnemonicForm::Vector(VectorForm::ArithmeticVv(ArithmeticVvOp::Vsra)),
    MnemonicForm::Vector(VectorForm::CompareVv(CompareVvOp::Vmseq)),
    MnemonicForm::Vector(VectorForm::CompareVv(CompareVvOp::Vmsne)),
    MnemonicForm::Vector(VectorForm::CompareVv(CompareVvOp::Vmsltu)),
    MnemonicForm::Vector(VectorForm::CompareVv(CompareVvOp::Vmslt)),
    MnemonicForm::Vector(VectorForm::CompareVv(CompareVvOp::Vmsleu)),
    MnemonicForm::Vector(VectorForm::CompareVv(CompareVvOp::Vmsle)),
    MnemonicForm::Vector(VectorForm::MultiplyVv(MultiplyOp::Vdivu)),
    MnemonicForm::Vector(VectorForm::MultiplyVv(MultiplyOp::Vdiv)),
    MnemonicForm::Vector(VectorForm::MultiplyVv(MultiplyOp::Vremu)),
    MnemonicForm::Vector(VectorForm::MultiplyVv(MultiplyOp::Vrem)),
    MnemonicForm::Vector(VectorForm::MultiplyVv(MultiplyOp::Vmulhu)),
    MnemonicForm::Vector(VectorForm::MultiplyVv(MultiplyOp::Vmul)),
    MnemonicForm::Vector(VectorForm::MultiplyVv(MultiplyOp::Vmulhsu)),
    MnemonicForm::Vector(VectorForm::MultiplyVv(MultiplyOp::Vmulh)),
];

// Mnemonics that begin with `v`, and end with `vx`.
const VX_FORMS: [MnemonicForm; 29] = [
    MnemonicForm::Vector(VectorForm::ArithmeticVx(ArithmeticVxOp::Vadd)),
    MnemonicForm::Vector(VectorForm::ArithmeticVx(ArithmeticVxOp::Vsub)),
    MnemonicForm::Vector(VectorForm::ArithmeticVx(ArithmeticVxOp::Vrsub)),
    MnemonicForm::Vector(VectorForm::ArithmeticVx(ArithmeticVxOp::Vminu)),
    MnemonicForm::Vector(VectorForm::ArithmeticVx(ArithmeticVxOp::Vmin)),
    MnemonicForm::Vector(VectorForm::ArithmeticVx(ArithmeticVxOp::Vmaxu)),
    MnemonicForm::Vector(VectorForm::ArithmeticVx(ArithmeticVxOp::Vmax)),
    MnemonicForm::Vector(VectorForm::ArithmeticVx(ArithmeticVxOp::Vand)),
    MnemonicForm::Vector(VectorForm::ArithmeticVx(ArithmeticVxOp::Vor)),
    MnemonicForm::Vector(VectorForm::ArithmeticVx(ArithmeticVxOp::Vxor)),
    MnemonicForm::Vector(VectorForm::ArithmeticVx(ArithmeticVxOp::Vsll)),
    MnemonicForm::Vector(VectorForm::ArithmeticVx(ArithmeticVxOp::Vsrl)),
    MnemonicForm::Vector(VectorForm::ArithmeticVx(ArithmeticVxOp::Vsra)),
    MnemonicForm::Vector(VectorForm::CompareVx(CompareVxOp::Vmseq)),
    MnemonicForm::Vector(VectorForm::CompareVx(CompareVxOp::Vmsne)),
    MnemonicForm::Vector(VectorForm::CompareVx(CompareVxOp::Vmsltu)),
    MnemonicForm::Vector(VectorForm::CompareVx(CompareVxOp::Vmslt)),
    MnemonicForm::Vector(VectorForm::CompareVx(CompareVxOp::Vmsleu)),
    MnemonicForm::Vector(VectorForm::CompareVx(CompareVxOp::Vmsle)),
    MnemonicForm::Vector(VectorForm::CompareVx(CompareVxOp::Vmsgtu)),
    MnemonicForm::Vector(VectorForm::CompareVx(CompareVxOp::Vmsgt)),
    MnemonicForm::Vector(VectorForm::MultiplyVx(MultiplyOp::Vdivu)),
    MnemonicForm::Vector(VectorForm::MultiplyVx(MultiplyOp::Vdiv)),
    MnemonicForm::Vector(VectorForm::MultiplyVx(MultiplyOp::Vremu)),
    MnemonicForm::Vector(VectorForm::MultiplyVx(MultiplyOp::Vrem)),
    MnemonicForm::Vector(VectorForm::MultiplyVx(MultiplyOp::Vmulhu)),
    MnemonicForm::Vector(VectorForm::MultiplyVx(MultiplyOp::Vmul)),
    MnemonicForm::Vector(VectorForm::MultiplyVx(MultiplyOp::Vmulhsu)),
    MnemonicForm::Vector(VectorForm::MultiplyVx(MultiplyOp::Vmulh)),
];

// Mnemonics that begin with `v`, and end with `vi`.
const VI_FORMS: [MnemonicForm; 14] = [
    MnemonicForm::Vector(VectorForm::ArithmeticVi(ArithmeticViOp::Vadd)),
    MnemonicForm::Vector(VectorForm::ArithmeticVi(ArithmeticViOp::Vrsub)),
    MnemonicForm::Vector(VectorForm::ArithmeticVi(ArithmeticViOp::Vand)),
    MnemonicForm::Vector(VectorForm::ArithmeticVi(ArithmeticViOp::Vor)),
    MnemonicForm::Vector(VectorForm::ArithmeticVi(ArithmeticViOp::Vxor)),
    MnemonicForm::Vector(VectorForm::ShiftVi(ShiftViOp::Vsll)),
    MnemonicForm::Vector(VectorForm::ShiftVi(ShiftViOp::Vsrl)),
    MnemonicForm::Vector(VectorForm::ShiftVi(ShiftViOp::Vsra)),
    MnemonicForm::Vector(VectorForm::CompareVi(CompareViOp::Vmseq)),
    MnemonicForm::Vector(VectorForm::CompareVi(CompareViOp::Vmsne)),
    MnemonicForm::Vector(VectorForm::CompareVi(CompareViOp::Vmsleu)),
    MnemonicForm::Vector(VectorForm::CompareVi(CompareViOp::Vmsle)),
    MnemonicForm::Vector(VectorForm::CompareVi(CompareViOp::Vmsgtu)),
    MnemonicForm::Vector(VectorForm::CompareVi(CompareViOp::Vmsgt)),
];

// Mnemonics that begin with `v`, and end with `.v`.
const V_FORMS: [MnemonicForm; 20] = [
    MnemonicForm::Vector(VectorForm::LoadElements(AddressMode::UnitStride, ElementWidth::Bits8)),
    MnemonicForm::Vector(VectorForm::LoadElements(AddressMode::UnitStride, ElementWidth::Bits16)),
    MnemonicForm::Vector(VectorForm::LoadElements(AddressMode::UnitStride, ElementWidth::Bits32)),
    MnemonicForm::Vector(VectorForm::LoadElements(AddressMode::Strided, ElementWidth::Bits8)),
    MnemonicForm::Vector(VectorForm::LoadElements(AddressMode::Strided, ElementWidth::Bits16)),
    MnemonicForm::Vector(VectorForm::LoadElements(AddressMode::Strided, ElementWidth::Bits32)),
    MnemonicForm::Vector(VectorForm::LoadElements(AddressMode::Indexed, ElementWidth::Bits8)),
    MnemonicForm::Vector(VectorForm::LoadElements(AddressMode::Indexed, ElementWidth::Bits16)),
    MnemonicForm::Vector(VectorForm::LoadElements(AddressMode::Indexed, ElementWidth::Bits32)),
    MnemonicForm::Vector(VectorForm::StoreElements(AddressMode::UnitStride, ElementWidth::Bits8)),
    MnemonicForm::Vector(VectorForm::StoreElements(AddressMode::UnitStride, ElementWidth::Bits16)),
    MnemonicForm::Vector(VectorForm::StoreElements(AddressMode::UnitStride, ElementWidth::Bits32)),
    MnemonicForm::Vector(VectorForm::StoreElements(AddressMode::Strided, ElementWidth::Bits8)),
    MnemonicForm::Vector(VectorForm::StoreElements(AddressMode::Strided, ElementWidth::Bits16)),
    MnemonicForm::Vector(VectorForm::StoreElements(AddressMode::Strided, ElementWidth::Bits32)),
    MnemonicForm::Vector(VectorForm::StoreElements(AddressMode::Indexed, ElementWidth::Bits8)),
    MnemonicForm::Vector(VectorForm::StoreElements(AddressMode::Indexed, ElementWidth::Bits16)),
    MnemonicForm::Vector(VectorForm::StoreElements(AddressMode::Indexed, ElementWidth::Bits32)),
    MnemonicForm::Vector(VectorForm::MoveVv),
    MnemonicForm::Vector(VectorForm::ElementNumbers),
];

// The other mnemonics that begin with `v`.
const OTHER_VECTOR_FORMS: [MnemonicForm; 16] = [
    MnemonicForm::Vector(VectorForm::Reduce(ReductionOp::Vredsum)),
    MnemonicForm::Vector(VectorForm::Reduce(ReductionOp::Vredminu)),
    MnemonicForm::Vector(VectorForm::Reduce(ReductionOp::Vredmin)),
    MnemonicForm::Vector(VectorForm::Reduce(ReductionOp::Vredmaxu)),
    MnemonicForm::Vector(VectorForm::Reduce(ReductionOp::Vredmax)),
    MnemonicForm::Vector(VectorForm::MergeVv),
    MnemonicForm::Vector(VectorForm::MergeVx),
    MnemonicForm::Vector(VectorForm::MergeVi),
    MnemonicForm::Vector(VectorForm::MoveVx),
    MnemonicForm::Vector(VectorForm::MoveVi),
    MnemonicForm::Vector(VectorForm::MoveToScalar),
    MnemonicForm::Vector(VectorForm::MoveFromScalar),
    MnemonicForm::Vector(VectorForm::ExtendBytes),
    MnemonicForm::Vector(VectorForm::Vsetvli),
    MnemonicForm::Vector(VectorForm::Vsetivli),
    MnemonicForm::Vector(VectorForm::Vsetvl),
];

impl MnemonicForm {
    /// The form that a mnemonic names, or `None` where it names none.
    #[tactic(auto, using(crate::proofs::Named::among_candidates))]
    pub fn named(mnemonic: &[u8]) -> Option<MnemonicForm>
        ensures { result ≡ spec.form_named mnemonic.now }
    {
        named_among(likely_group(mnemonic).forms(), mnemonic)
    }
}

// The first of some forms that has a mnemonic.
#[tactic(auto, unfolding(crate::specs::Named::form_among))]
fn named_among(forms: &[MnemonicForm], mnemonic: &[u8]) -> Option<MnemonicForm>
    ensures { result ≡ spec.form_among forms.now mnemonic.now }
{
    let mut rest = forms;
    while let [form, others @ ..] = rest {
        if form.mnemonic().as_bytes() == mnemonic {
            return Some(*form);
        }
        rest = others;
    }
    None
}

// The group in which a form with this mnemonic is, if there is one.
#[tactic(auto, unfolding(crate::specs::Named::group_of))]
fn likely_group(mnemonic: &[u8]) -> MnemonicGroup
    ensures { result ≡ spec.group_of mnemonic.now }
{
    match mnemonic {
        [b'a', ..] => MnemonicGroup::BeginsA,
        [b'b', ..] => MnemonicGroup::BeginsB,
        [b'l', ..] => MnemonicGroup::BeginsL,
        [b's', ..] => MnemonicGroup::BeginsS,
        [b'v', .., before, last] => group_by_ending(*before, *last),
        _ => MnemonicGroup::BeginsOther,
    }
}

// The same for a mnemonic that begins with `v`, by its last two bytes.
#[tactic(auto, unfolding(crate::specs::Named::group_by_ending))]
fn group_by_ending(before: u8, last: u8) -> MnemonicGroup
    ensures { result ≡ spec.group_by_ending before last }
{
    match (before, last) {
        (b'v', b'v') => MnemonicGroup::EndsVv,
        (b'v', b'x') => MnemonicGroup::EndsVx,
        (b'v', b'i') => MnemonicGroup::EndsVi,
        (b'.', b'v') => MnemonicGroup::EndsV,
        _ => MnemonicGroup::EndsOther,
    }
}

impl MnemonicGroup {
    #[tactic(auto, unfolding(crate::specs::Named::forms_in, crate::specs::Named::is_in, crate::specs::Named::forms, crate::specs::Named::vector_forms, crate::specs::Named::group_of, crate::specs::Named::group_by_ending))]
    fn forms(self) -> &'static [MnemonicForm]
        ensures { result.now ≡ spec.forms_in self }
    {
        match self {
            MnemonicGroup::BeginsA => &A_FORMS,
            MnemonicGroup::BeginsB => &B_FORMS,
            MnemonicGroup::BeginsL => &L_FORMS,
            MnemonicGroup::BeginsS => &S_FORMS,
            MnemonicGroup::BeginsOther => &OTHER_FORMS,
            MnemonicGroup::EndsVv => &VV_FORMS,
            MnemonicGroup::EndsVx => &VX_FORMS,
            MnemonicGroup::EndsVi => &VI_FORMS,
            MnemonicGroup::EndsV => &V_FORMS,
            MnemonicGroup::EndsOther => &OTHER_VECTOR_FORMS,
        }
    }
}
