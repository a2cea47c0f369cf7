//! What words mean, as turns take it: the operation of a group is told apart once, where a word is decoded, and not in
//! each turn.

ghost use Rattle.std.specs.Prelude.{◌≡◌, IfOk, Some, map};
ghost use Rattle.hart_core.specs.Meanings.{branch_of, load_of, store_of, immediate_of, shift_of, operation_of};
ghost use Rattle.hart_core.specs.Meanings.{meaning_of, word_meaning};

use rv_encoding::decode;
use rv_insn::{
    AluImmOp, AluOp, BranchOffset, BranchOp, Imm12, Imm20, Insn, JumpOffset, LoadOp, Reg,
    ShiftAmount, ShiftOp, StoreOp, VectorInsn,
};
use std::alloc::{AllocError, Global};

/// What a word means: an instruction with its operation as a variant of its own, or nothing.
#[derive(Clone, Copy)]
pub enum Meaning {
    /// The word means no instruction.
    Nothing,
    /// `lui rd,imm`.
    Lui {
        rd: Reg,
        imm: Imm20,
    },
    /// `auipc rd,imm`.
    Auipc {
        rd: Reg,
        imm: Imm20,
    },
    /// `jal rd,offset`.
    Jal {
        rd: Reg,
        offset: JumpOffset,
    },
    /// `jalr rd,imm(rs1)`.
    Jalr {
        rd: Reg,
        rs1: Reg,
        imm: Imm12,
    },
    /// `beq rs1,rs2,offset`.
    Beq {
        rs1: Reg,
        rs2: Reg,
        offset: BranchOffset,
    },
    /// `bne rs1,rs2,offset`.
    Bne {
        rs1: Reg,
        rs2: Reg,
        offset: BranchOffset,
    },
    /// `blt rs1,rs2,offset`.
    Blt {
        rs1: Reg,
        rs2: Reg,
        offset: BranchOffset,
    },
    /// `bge rs1,rs2,offset`.
    Bge {
        rs1: Reg,
        rs2: Reg,
        offset: BranchOffset,
    },
    /// `bltu rs1,rs2,offset`.
    Bltu {
        rs1: Reg,
        rs2: Reg,
        offset: BranchOffset,
    },
    /// `bgeu rs1,rs2,offset`.
    Bgeu {
        rs1: Reg,
        rs2: Reg,
        offset: BranchOffset,
    },
    /// `lb rd,imm(rs1)`.
    Lb {
        rd: Reg,
        rs1: Reg,
        imm: Imm12,
    },
    /// `lh rd,imm(rs1)`.
    Lh {
        rd: Reg,
        rs1: Reg,
        imm: Imm12,
    },
    /// `lw rd,imm(rs1)`.
    Lw {
        rd: Reg,
        rs1: Reg,
        imm: Imm12,
    },
    /// `lbu rd,imm(rs1)`.
    Lbu {
        rd: Reg,
        rs1: Reg,
        imm: Imm12,
    },
    /// `lhu rd,imm(rs1)`.
    Lhu {
        rd: Reg,
        rs1: Reg,
        imm: Imm12,
    },
    /// `sb rs2,imm(rs1)`.
    Sb {
        rs1: Reg,
        rs2: Reg,
        imm: Imm12,
    },
    /// `sh rs2,imm(rs1)`.
    Sh {
        rs1: Reg,
        rs2: Reg,
        imm: Imm12,
    },
    /// `sw rs2,imm(rs1)`.
    Sw {
        rs1: Reg,
        rs2: Reg,
        imm: Imm12,
    },
    /// `addi rd,rs1,imm`.
    Addi {
        rd: Reg,
        rs1: Reg,
        imm: Imm12,
    },
    /// `slti rd,rs1,imm`.
    Slti {
        rd: Reg,
        rs1: Reg,
        imm: Imm12,
    },
    /// `sltiu rd,rs1,imm`.
    Sltiu {
        rd: Reg,
        rs1: Reg,
        imm: Imm12,
    },
    /// `xori rd,rs1,imm`.
    Xori {
        rd: Reg,
        rs1: Reg,
        imm: Imm12,
    },
    /// `ori rd,rs1,imm`.
    Ori {
        rd: Reg,
        rs1: Reg,
        imm: Imm12,
    },
    /// `andi rd,rs1,imm`.
    Andi {
        rd: Reg,
        rs1: Reg,
        imm: Imm12,
    },
    /// `slli rd,rs1,amount`.
    Slli {
        rd: Reg,
        rs1: Reg,
        amount: ShiftAmount,
    },
    /// `srli rd,rs1,amount`.
    Srli {
        rd: Reg,
        rs1: Reg,
        amount: ShiftAmount,
    },
    /// `srai rd,rs1,amount`.
    Srai {
        rd: Reg,
        rs1: Reg,
        amount: ShiftAmount,
    },
    /// `add rd,rs1,rs2`.
    Add {
        rd: Reg,
        rs1: Reg,
        rs2: Reg,
    },
    /// `sub rd,rs1,rs2`.
    Sub {
        rd: Reg,
        rs1: Reg,
        rs2: Reg,
    },
    /// `sll rd,rs1,rs2`.
    Sll {
        rd: Reg,
        rs1: Reg,
        rs2: Reg,
    },
    /// `slt rd,rs1,rs2`.
    Slt {
        rd: Reg,
        rs1: Reg,
        rs2: Reg,
    },
    /// `sltu rd,rs1,rs2`.
    Sltu {
        rd: Reg,
        rs1: Reg,
        rs2: Reg,
    },
    /// `xor rd,rs1,rs2`.
    Xor {
        rd: Reg,
        rs1: Reg,
        rs2: Reg,
    },
    /// `srl rd,rs1,rs2`.
    Srl {
        rd: Reg,
        rs1: Reg,
        rs2: Reg,
    },
    /// `sra rd,rs1,rs2`.
    Sra {
        rd: Reg,
        rs1: Reg,
        rs2: Reg,
    },
    /// `or rd,rs1,rs2`.
    Or {
        rd: Reg,
        rs1: Reg,
        rs2: Reg,
    },
    /// `and rd,rs1,rs2`.
    And {
        rd: Reg,
        rs1: Reg,
        rs2: Reg,
    },
    /// `mul rd,rs1,rs2`.
    Mul {
        rd: Reg,
        rs1: Reg,
        rs2: Reg,
    },
    /// `mulh rd,rs1,rs2`.
    Mulh {
        rd: Reg,
        rs1: Reg,
        rs2: Reg,
    },
    /// `mulhsu rd,rs1,rs2`.
    Mulhsu {
        rd: Reg,
        rs1: Reg,
        rs2: Reg,
    },
    /// `mulhu rd,rs1,rs2`.
    Mulhu {
        rd: Reg,
        rs1: Reg,
        rs2: Reg,
    },
    /// `div rd,rs1,rs2`.
    Div {
        rd: Reg,
        rs1: Reg,
        rs2: Reg,
    },
    /// `divu rd,rs1,rs2`.
    Divu {
        rd: Reg,
        rs1: Reg,
        rs2: Reg,
    },
    /// `rem rd,rs1,rs2`.
    Rem {
        rd: Reg,
        rs1: Reg,
        rs2: Reg,
    },
    /// `remu rd,rs1,rs2`.
    Remu {
        rd: Reg,
        rs1: Reg,
        rs2: Reg,
    },
    /// `amoadd.w rd,rs2,(rs1)`.
    AmoaddW {
        rd: Reg,
        rs1: Reg,
        rs2: Reg,
        aq: bool,
        rl: bool,
    },
    /// `fence`.
    Fence,
    /// `ecall`.
    Ecall,
    /// `ebreak`.
    Ebreak,
    /// A vector instruction.
    Vector(VectorInsn),
}

fn of_branch(op: BranchOp, rs1: Reg, rs2: Reg, offset: BranchOffset) -> Meaning
    ensures { result ≡ branch_of op rs1 rs2 offset }
{
    match op {
        BranchOp::Beq => Meaning::Beq { rs1, rs2, offset },
        BranchOp::Bne => Meaning::Bne { rs1, rs2, offset },
        BranchOp::Blt => Meaning::Blt { rs1, rs2, offset },
        BranchOp::Bge => Meaning::Bge { rs1, rs2, offset },
        BranchOp::Bltu => Meaning::Bltu { rs1, rs2, offset },
        BranchOp::Bgeu => Meaning::Bgeu { rs1, rs2, offset },
    }
}

fn of_load(op: LoadOp, rd: Reg, rs1: Reg, imm: Imm12) -> Meaning
    ensures { result ≡ load_of op rd rs1 imm }
{
    match op {
        LoadOp::Lb => Meaning::Lb { rd, rs1, imm },
        LoadOp::Lh => Meaning::Lh { rd, rs1, imm },
        LoadOp::Lw => Meaning::Lw { rd, rs1, imm },
        LoadOp::Lbu => Meaning::Lbu { rd, rs1, imm },
        LoadOp::Lhu => Meaning::Lhu { rd, rs1, imm },
    }
}

fn of_store(op: StoreOp, rs1: Reg, rs2: Reg, imm: Imm12) -> Meaning
    ensures { result ≡ store_of op rs1 rs2 imm }
{
    match op {
        StoreOp::Sb => Meaning::Sb { rs1, rs2, imm },
        StoreOp::Sh => Meaning::Sh { rs1, rs2, imm },
        StoreOp::Sw => Meaning::Sw { rs1, rs2, imm },
    }
}

fn of_immediate(op: AluImmOp, rd: Reg, rs1: Reg, imm: Imm12) -> Meaning
    ensures { result ≡ immediate_of op rd rs1 imm }
{
    match op {
        AluImmOp::Addi => Meaning::Addi { rd, rs1, imm },
        AluImmOp::Slti => Meaning::Slti { rd, rs1, imm },
        AluImmOp::Sltiu => Meaning::Sltiu { rd, rs1, imm },
        AluImmOp::Xori => Meaning::Xori { rd, rs1, imm },
        AluImmOp::Ori => Meaning::Ori { rd, rs1, imm },
        AluImmOp::Andi => Meaning::Andi { rd, rs1, imm },
    }
}

fn of_shift(op: ShiftOp, rd: Reg, rs1: Reg, amount: ShiftAmount) -> Meaning
    ensures { result ≡ shift_of op rd rs1 amount }
{
    match op {
        ShiftOp::Slli => Meaning::Slli { rd, rs1, amount },
        ShiftOp::Srli => Meaning::Srli { rd, rs1, amount },
        ShiftOp::Srai => Meaning::Srai { rd, rs1, amount },
    }
}

fn of_operation(op: AluOp, rd: Reg, rs1: Reg, rs2: Reg) -> Meaning
    ensures { result ≡ operation_of op rd rs1 rs2 }
{
    match op {
        AluOp::Add => Meaning::Add { rd, rs1, rs2 },
        AluOp::Sub => Meaning::Sub { rd, rs1, rs2 },
        AluOp::Sll => Meaning::Sll { rd, rs1, rs2 },
        AluOp::Slt => Meaning::Slt { rd, rs1, rs2 },
        AluOp::Sltu => Meaning::Sltu { rd, rs1, rs2 },
        AluOp::Xor => Meaning::Xor { rd, rs1, rs2 },
        AluOp::Srl => Meaning::Srl { rd, rs1, rs2 },
        AluOp::Sra => Meaning::Sra { rd, rs1, rs2 },
        AluOp::Or => Meaning::Or { rd, rs1, rs2 },
        AluOp::And => Meaning::And { rd, rs1, rs2 },
        AluOp::Mul => Meaning::Mul { rd, rs1, rs2 },
        AluOp::Mulh => Meaning::Mulh { rd, rs1, rs2 },
        AluOp::Mulhsu => Meaning::Mulhsu { rd, rs1, rs2 },
        AluOp::Mulhu => Meaning::Mulhu { rd, rs1, rs2 },
        AluOp::Div => Meaning::Div { rd, rs1, rs2 },
        AluOp::Divu => Meaning::Divu { rd, rs1, rs2 },
        AluOp::Rem => Meaning::Rem { rd, rs1, rs2 },
        AluOp::Remu => Meaning::Remu { rd, rs1, rs2 },
    }
}

impl Meaning {
    /// What each of the words means.
    ///
    /// # Errors
    ///
    /// Memory ran out.
    pub fn of_words(alloc: Global, words: &[u32]) -> Result<Vec<Meaning>, AllocError>
        ensures { IfOk result (λ meanings. meanings.items ≡ map word_meaning words.now) }
    {
        words
            .iter()
            .map(|word| Meaning::of(decode(*word)))
            .collect(alloc)
    }

    /// The meaning of a word that means this instruction, or none.
    pub fn of(insn: Option<Insn>) -> Meaning
        ensures { result ≡ meaning_of insn }
    {
        match insn {
            Some(insn) => Meaning::of_insn(insn),
            None => Meaning::Nothing,
        }
    }

    fn of_insn(insn: Insn) -> Meaning
        ensures { result ≡ meaning_of (Some insn) }
    {
        match insn {
            Insn::Lui { rd, imm } => Meaning::Lui { rd, imm },
            Insn::Auipc { rd, imm } => Meaning::Auipc { rd, imm },
            Insn::Jal { rd, offset } => Meaning::Jal { rd, offset },
            Insn::Jalr { rd, rs1, imm } => Meaning::Jalr { rd, rs1, imm },
            Insn::Branch {
                op,
                rs1,
                rs2,
                offset,
            } => of_branch(op, rs1, rs2, offset),
            Insn::Load { op, rd, rs1, imm } => of_load(op, rd, rs1, imm),
            Insn::Store { op, rs1, rs2, imm } => of_store(op, rs1, rs2, imm),
            Insn::AluImm { op, rd, rs1, imm } => of_immediate(op, rd, rs1, imm),
            Insn::Shift {
                op,
                rd,
                rs1,
                amount,
            } => of_shift(op, rd, rs1, amount),
            Insn::Alu { op, rd, rs1, rs2 } => of_operation(op, rd, rs1, rs2),
            Insn::AmoaddW {
                rd,
                rs1,
                rs2,
                aq,
                rl,
            } => Meaning::AmoaddW {
                rd,
                rs1,
                rs2,
                aq,
                rl,
            },
            Insn::Fence => Meaning::Fence,
            Insn::Ecall => Meaning::Ecall,
            Insn::Ebreak => Meaning::Ebreak,
            Insn::Vector(insn) => Meaning::Vector(insn),
        }
    }
}
