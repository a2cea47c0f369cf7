//! The mnemonics of each group of operations.

ghost use Rattle.std.specs.Prelude.{◌≡◌};
ghost use Rattle.rv_insn.specs.Table.{branch_name, load_name, store_name, alu_imm_name, shift_name, alu_name};

use rv_insn::{AluImmOp, AluOp, BranchOp, LoadOp, ShiftOp, StoreOp};

/// The mnemonic of a branch.
pub fn branch_mnemonic(op: BranchOp) -> &'static str
    ensures { result.now ≡ branch_name op }
{
    match op {
        BranchOp::Beq => "beq",
        BranchOp::Bne => "bne",
        BranchOp::Blt => "blt",
        BranchOp::Bge => "bge",
        BranchOp::Bltu => "bltu",
        BranchOp::Bgeu => "bgeu",
    }
}

/// The mnemonic of a load.
pub fn load_mnemonic(op: LoadOp) -> &'static str
    ensures { result.now ≡ load_name op }
{
    match op {
        LoadOp::Lb => "lb",
        LoadOp::Lh => "lh",
        LoadOp::Lw => "lw",
        LoadOp::Lbu => "lbu",
        LoadOp::Lhu => "lhu",
    }
}

/// The mnemonic of a store.
pub fn store_mnemonic(op: StoreOp) -> &'static str
    ensures { result.now ≡ store_name op }
{
    match op {
        StoreOp::Sb => "sb",
        StoreOp::Sh => "sh",
        StoreOp::Sw => "sw",
    }
}

/// The mnemonic of an operation on a register and an immediate.
pub fn alu_imm_mnemonic(op: AluImmOp) -> &'static str
    ensures { result.now ≡ alu_imm_name op }
{
    match op {
        AluImmOp::Addi => "addi",
        AluImmOp::Slti => "slti",
        AluImmOp::Sltiu => "sltiu",
        AluImmOp::Xori => "xori",
        AluImmOp::Ori => "ori",
        AluImmOp::Andi => "andi",
    }
}

/// The mnemonic of a shift by an amount in the word.
pub fn shift_mnemonic(op: ShiftOp) -> &'static str
    ensures { result.now ≡ shift_name op }
{
    match op {
        ShiftOp::Slli => "slli",
        ShiftOp::Srli => "srli",
        ShiftOp::Srai => "srai",
    }
}

/// The mnemonic of an operation on two registers.
pub fn alu_mnemonic(op: AluOp) -> &'static str
    ensures { result.now ≡ alu_name op }
{
    match op {
        AluOp::Add => "add",
        AluOp::Sub => "sub",
        AluOp::Sll => "sll",
        AluOp::Slt => "slt",
        AluOp::Sltu => "sltu",
        AluOp::Xor => "xor",
        AluOp::Srl => "srl",
        AluOp::Sra => "sra",
        AluOp::Or => "or",
        AluOp::And => "and",
        AluOp::Mul => "mul",
        AluOp::Mulh => "mulh",
        AluOp::Mulhsu => "mulhsu",
        AluOp::Mulhu => "mulhu",
        AluOp::Div => "div",
        AluOp::Divu => "divu",
        AluOp::Rem => "rem",
        AluOp::Remu => "remu",
    }
}
