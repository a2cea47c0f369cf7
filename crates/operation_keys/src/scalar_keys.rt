//! The keys that tell the operations of a group apart: the fields funct3 and funct7 of their rows.

ghost use Rattle.std.specs.Prelude.{◌≡◌, ◌<◌, ◌^◌};
ghost use Rattle.operation_keys.specs.Operations.{branch_funct3 as branch_key, branch_of, load_funct3 as load_key};
ghost use Rattle.operation_keys.specs.Operations.{load_of, store_funct3 as store_key, store_of};
ghost use Rattle.operation_keys.specs.Operations.{alu_imm_funct3 as alu_imm_key, alu_imm_of, shift_funct3 as shift_key};
ghost use Rattle.operation_keys.specs.Operations.{shift_funct7 as shift_second_key, shift_of, alu_funct3 as alu_key};
ghost use Rattle.operation_keys.specs.Operations.{alu_funct7 as alu_second_key, alu_of};

use rv_insn::{AluImmOp, AluOp, BranchOp, LoadOp, ShiftOp, StoreOp};

/// The field funct3 of a branch.
#[tactic(auto, unfolding(crate::specs::Operations::key_in, rv_insn::specs::Table::scalar_table, rv_insn::specs::Table::r_type, rv_insn::specs::Table::i_type, rv_insn::specs::Table::s_type, rv_insn::specs::Table::b_type, rv_insn::specs::Table::u_type, rv_insn::specs::Table::j_type, rv_insn::specs::Table::amo_type, rv_insn::specs::Table::whole_word, rv_insn::specs::Encoding::fixed, rv_insn::specs::Encoding::span))]
pub fn branch_funct3(op: BranchOp) -> u32
    ensures value { result ≡ branch_key op }
    ensures in_range { result < 2 ^ 3 }
{
    match op {
        BranchOp::Beq => 0b000,
        BranchOp::Bne => 0b001,
        BranchOp::Blt => 0b100,
        BranchOp::Bge => 0b101,
        BranchOp::Bltu => 0b110,
        BranchOp::Bgeu => 0b111,
    }
}

/// The branch that has this funct3.
#[tactic(auto, unfolding(crate::specs::Operations::key_in, rv_insn::specs::Table::scalar_table, rv_insn::specs::Table::r_type, rv_insn::specs::Table::i_type, rv_insn::specs::Table::s_type, rv_insn::specs::Table::b_type, rv_insn::specs::Table::u_type, rv_insn::specs::Table::j_type, rv_insn::specs::Table::amo_type, rv_insn::specs::Table::whole_word, rv_insn::specs::Encoding::fixed, rv_insn::specs::Encoding::span))]
pub fn branch_op(funct3: u32) -> Option<BranchOp>
    ensures { result ≡ branch_of funct3 }
{
    match funct3 {
        0b000 => Some(BranchOp::Beq),
        0b001 => Some(BranchOp::Bne),
        0b100 => Some(BranchOp::Blt),
        0b101 => Some(BranchOp::Bge),
        0b110 => Some(BranchOp::Bltu),
        0b111 => Some(BranchOp::Bgeu),
        _ => None,
    }
}

/// The field funct3 of a load.
#[tactic(auto, unfolding(crate::specs::Operations::key_in, rv_insn::specs::Table::scalar_table, rv_insn::specs::Table::r_type, rv_insn::specs::Table::i_type, rv_insn::specs::Table::s_type, rv_insn::specs::Table::b_type, rv_insn::specs::Table::u_type, rv_insn::specs::Table::j_type, rv_insn::specs::Table::amo_type, rv_insn::specs::Table::whole_word, rv_insn::specs::Encoding::fixed, rv_insn::specs::Encoding::span))]
pub fn load_funct3(op: LoadOp) -> u32
    ensures value { result ≡ load_key op }
    ensures in_range { result < 2 ^ 3 }
{
    match op {
        LoadOp::Lb => 0b000,
        LoadOp::Lh => 0b001,
        LoadOp::Lw => 0b010,
        LoadOp::Lbu => 0b100,
        LoadOp::Lhu => 0b101,
    }
}

/// The load that has this funct3.
#[tactic(auto, unfolding(crate::specs::Operations::key_in, rv_insn::specs::Table::scalar_table, rv_insn::specs::Table::r_type, rv_insn::specs::Table::i_type, rv_insn::specs::Table::s_type, rv_insn::specs::Table::b_type, rv_insn::specs::Table::u_type, rv_insn::specs::Table::j_type, rv_insn::specs::Table::amo_type, rv_insn::specs::Table::whole_word, rv_insn::specs::Encoding::fixed, rv_insn::specs::Encoding::span))]
pub fn load_op(funct3: u32) -> Option<LoadOp>
    ensures { result ≡ load_of funct3 }
{
    match funct3 {
        0b000 => Some(LoadOp::Lb),
        0b001 => Some(LoadOp::Lh),
        0b010 => Some(LoadOp::Lw),
        0b100 => Some(LoadOp::Lbu),
        0b101 => Some(LoadOp::Lhu),
        _ => None,
    }
}

/// The field funct3 of a store.
#[tactic(auto, unfolding(crate::specs::Operations::key_in, rv_insn::specs::Table::scalar_table, rv_insn::specs::Table::r_type, rv_insn::specs::Table::i_type, rv_insn::specs::Table::s_type, rv_insn::specs::Table::b_type, rv_insn::specs::Table::u_type, rv_insn::specs::Table::j_type, rv_insn::specs::Table::amo_type, rv_insn::specs::Table::whole_word, rv_insn::specs::Encoding::fixed, rv_insn::specs::Encoding::span))]
pub fn store_funct3(op: StoreOp) -> u32
    ensures value { result ≡ store_key op }
    ensures in_range { result < 2 ^ 3 }
{
    match op {
        StoreOp::Sb => 0b000,
        StoreOp::Sh => 0b001,
        StoreOp::Sw => 0b010,
    }
}

/// The store that has this funct3.
#[tactic(auto, unfolding(crate::specs::Operations::key_in, rv_insn::specs::Table::scalar_table, rv_insn::specs::Table::r_type, rv_insn::specs::Table::i_type, rv_insn::specs::Table::s_type, rv_insn::specs::Table::b_type, rv_insn::specs::Table::u_type, rv_insn::specs::Table::j_type, rv_insn::specs::Table::amo_type, rv_insn::specs::Table::whole_word, rv_insn::specs::Encoding::fixed, rv_insn::specs::Encoding::span))]
pub fn store_op(funct3: u32) -> Option<StoreOp>
    ensures { result ≡ store_of funct3 }
{
    match funct3 {
        0b000 => Some(StoreOp::Sb),
        0b001 => Some(StoreOp::Sh),
        0b010 => Some(StoreOp::Sw),
        _ => None,
    }
}

/// The field funct3 of an operation on a register and an immediate.
#[tactic(auto, unfolding(crate::specs::Operations::key_in, rv_insn::specs::Table::scalar_table, rv_insn::specs::Table::r_type, rv_insn::specs::Table::i_type, rv_insn::specs::Table::s_type, rv_insn::specs::Table::b_type, rv_insn::specs::Table::u_type, rv_insn::specs::Table::j_type, rv_insn::specs::Table::amo_type, rv_insn::specs::Table::whole_word, rv_insn::specs::Encoding::fixed, rv_insn::specs::Encoding::span))]
pub fn alu_imm_funct3(op: AluImmOp) -> u32
    ensures value { result ≡ alu_imm_key op }
    ensures in_range { result < 2 ^ 3 }
{
    match op {
        AluImmOp::Addi => 0b000,
        AluImmOp::Slti => 0b010,
        AluImmOp::Sltiu => 0b011,
        AluImmOp::Xori => 0b100,
        AluImmOp::Ori => 0b110,
        AluImmOp::Andi => 0b111,
    }
}

/// The operation on a register and an immediate that has this funct3.
#[tactic(auto, unfolding(crate::specs::Operations::key_in, rv_insn::specs::Table::scalar_table, rv_insn::specs::Table::r_type, rv_insn::specs::Table::i_type, rv_insn::specs::Table::s_type, rv_insn::specs::Table::b_type, rv_insn::specs::Table::u_type, rv_insn::specs::Table::j_type, rv_insn::specs::Table::amo_type, rv_insn::specs::Table::whole_word, rv_insn::specs::Encoding::fixed, rv_insn::specs::Encoding::span))]
pub fn alu_imm_op(funct3: u32) -> Option<AluImmOp>
    ensures { result ≡ alu_imm_of funct3 }
{
    match funct3 {
        0b000 => Some(AluImmOp::Addi),
        0b010 => Some(AluImmOp::Slti),
        0b011 => Some(AluImmOp::Sltiu),
        0b100 => Some(AluImmOp::Xori),
        0b110 => Some(AluImmOp::Ori),
        0b111 => Some(AluImmOp::Andi),
        _ => None,
    }
}

/// The field funct3 of a shift by an amount in the word.
#[tactic(auto, unfolding(crate::specs::Operations::key_in, rv_insn::specs::Table::scalar_table, rv_insn::specs::Table::r_type, rv_insn::specs::Table::i_type, rv_insn::specs::Table::s_type, rv_insn::specs::Table::b_type, rv_insn::specs::Table::u_type, rv_insn::specs::Table::j_type, rv_insn::specs::Table::amo_type, rv_insn::specs::Table::whole_word, rv_insn::specs::Encoding::fixed, rv_insn::specs::Encoding::span))]
pub fn shift_funct3(op: ShiftOp) -> u32
    ensures value { result ≡ shift_key op }
    ensures in_range { result < 2 ^ 3 }
{
    match op {
        ShiftOp::Slli => 0b001,
        ShiftOp::Srli => 0b101,
        ShiftOp::Srai => 0b101,
    }
}

/// The field funct7 of a shift by an amount in the word.
#[tactic(auto, unfolding(crate::specs::Operations::key_in, rv_insn::specs::Table::scalar_table, rv_insn::specs::Table::r_type, rv_insn::specs::Table::i_type, rv_insn::specs::Table::s_type, rv_insn::specs::Table::b_type, rv_insn::specs::Table::u_type, rv_insn::specs::Table::j_type, rv_insn::specs::Table::amo_type, rv_insn::specs::Table::whole_word, rv_insn::specs::Encoding::fixed, rv_insn::specs::Encoding::span))]
pub fn shift_funct7(op: ShiftOp) -> u32
    ensures value { result ≡ shift_second_key op }
    ensures in_range { result < 2 ^ 7 }
{
    match op {
        ShiftOp::Slli => 0b000_0000,
        ShiftOp::Srli => 0b000_0000,
        ShiftOp::Srai => 0b010_0000,
    }
}

/// The shift by an amount in the word that has this funct3 and this funct7.
#[tactic(auto, unfolding(crate::specs::Operations::key_in, rv_insn::specs::Table::scalar_table, rv_insn::specs::Table::r_type, rv_insn::specs::Table::i_type, rv_insn::specs::Table::s_type, rv_insn::specs::Table::b_type, rv_insn::specs::Table::u_type, rv_insn::specs::Table::j_type, rv_insn::specs::Table::amo_type, rv_insn::specs::Table::whole_word, rv_insn::specs::Encoding::fixed, rv_insn::specs::Encoding::span))]
pub fn shift_op(funct3: u32, funct7: u32) -> Option<ShiftOp>
    ensures { result ≡ shift_of funct3 funct7 }
{
    match (funct3, funct7) {
        (0b001, 0b000_0000) => Some(ShiftOp::Slli),
        (0b101, 0b000_0000) => Some(ShiftOp::Srli),
        (0b101, 0b010_0000) => Some(ShiftOp::Srai),
        _ => None,
    }
}

/// The field funct3 of an operation on two registers.
#[tactic(auto, unfolding(crate::specs::Operations::key_in, rv_insn::specs::Table::scalar_table, rv_insn::specs::Table::r_type, rv_insn::specs::Table::i_type, rv_insn::specs::Table::s_type, rv_insn::specs::Table::b_type, rv_insn::specs::Table::u_type, rv_insn::specs::Table::j_type, rv_insn::specs::Table::amo_type, rv_insn::specs::Table::whole_word, rv_insn::specs::Encoding::fixed, rv_insn::specs::Encoding::span))]
pub fn alu_funct3(op: AluOp) -> u32
    ensures value { result ≡ alu_key op }
    ensures in_range { result < 2 ^ 3 }
{
    match op {
        AluOp::Add => 0b000,
        AluOp::Sub => 0b000,
        AluOp::Sll => 0b001,
        AluOp::Slt => 0b010,
        AluOp::Sltu => 0b011,
        AluOp::Xor => 0b100,
        AluOp::Srl => 0b101,
        AluOp::Sra => 0b101,
        AluOp::Or => 0b110,
        AluOp::And => 0b111,
        AluOp::Mul => 0b000,
        AluOp::Mulh => 0b001,
        AluOp::Mulhsu => 0b010,
        AluOp::Mulhu => 0b011,
        AluOp::Div => 0b100,
        AluOp::Divu => 0b101,
        AluOp::Rem => 0b110,
        AluOp::Remu => 0b111,
    }
}

/// The field funct7 of an operation on two registers.
#[tactic(auto, unfolding(crate::specs::Operations::key_in, rv_insn::specs::Table::scalar_table, rv_insn::specs::Table::r_type, rv_insn::specs::Table::i_type, rv_insn::specs::Table::s_type, rv_insn::specs::Table::b_type, rv_insn::specs::Table::u_type, rv_insn::specs::Table::j_type, rv_insn::specs::Table::amo_type, rv_insn::specs::Table::whole_word, rv_insn::specs::Encoding::fixed, rv_insn::specs::Encoding::span))]
pub fn alu_funct7(op: AluOp) -> u32
    ensures value { result ≡ alu_second_key op }
    ensures in_range { result < 2 ^ 7 }
{
    match op {
        AluOp::Add => 0b000_0000,
        AluOp::Sub => 0b010_0000,
        AluOp::Sll => 0b000_0000,
        AluOp::Slt => 0b000_0000,
        AluOp::Sltu => 0b000_0000,
        AluOp::Xor => 0b000_0000,
        AluOp::Srl => 0b000_0000,
        AluOp::Sra => 0b010_0000,
        AluOp::Or => 0b000_0000,
        AluOp::And => 0b000_0000,
        AluOp::Mul => 0b000_0001,
        AluOp::Mulh => 0b000_0001,
        AluOp::Mulhsu => 0b000_0001,
        AluOp::Mulhu => 0b000_0001,
        AluOp::Div => 0b000_0001,
        AluOp::Divu => 0b000_0001,
        AluOp::Rem => 0b000_0001,
        AluOp::Remu => 0b000_0001,
    }
}

/// The operation on two registers that has this funct3 and this funct7.
#[tactic(auto, unfolding(crate::specs::Operations::key_in, rv_insn::specs::Table::scalar_table, rv_insn::specs::Table::r_type, rv_insn::specs::Table::i_type, rv_insn::specs::Table::s_type, rv_insn::specs::Table::b_type, rv_insn::specs::Table::u_type, rv_insn::specs::Table::j_type, rv_insn::specs::Table::amo_type, rv_insn::specs::Table::whole_word, rv_insn::specs::Encoding::fixed, rv_insn::specs::Encoding::span))]
pub fn alu_op(funct3: u32, funct7: u32) -> Option<AluOp>
    ensures { result ≡ alu_of funct3 funct7 }
{
    match (funct3, funct7) {
        (0b000, 0b000_0000) => Some(AluOp::Add),
        (0b000, 0b010_0000) => Some(AluOp::Sub),
        (0b001, 0b000_0000) => Some(AluOp::Sll),
        (0b010, 0b000_0000) => Some(AluOp::Slt),
        (0b011, 0b000_0000) => Some(AluOp::Sltu),
        (0b100, 0b000_0000) => Some(AluOp::Xor),
        (0b101, 0b000_0000) => Some(AluOp::Srl),
        (0b101, 0b010_0000) => Some(AluOp::Sra),
        (0b110, 0b000_0000) => Some(AluOp::Or),
        (0b111, 0b000_0000) => Some(AluOp::And),
        (0b000, 0b000_0001) => Some(AluOp::Mul),
        (0b001, 0b000_0001) => Some(AluOp::Mulh),
        (0b010, 0b000_0001) => Some(AluOp::Mulhsu),
        (0b011, 0b000_0001) => Some(AluOp::Mulhu),
        (0b100, 0b000_0001) => Some(AluOp::Div),
        (0b101, 0b000_0001) => Some(AluOp::Divu),
        (0b110, 0b000_0001) => Some(AluOp::Rem),
        (0b111, 0b000_0001) => Some(AluOp::Remu),
        _ => None,
    }
}
