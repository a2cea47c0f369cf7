//! Encoding: the word that means an instruction.

ghost use Rattle.std.specs.Prelude.{◌≡◌, ℕ, pos, ◌^◌, ◌<◌, [], ◌∷◌};
ghost use Rattle.rv_insn.specs.Table.{Means};
ghost use Rattle.rv_insn.specs.Encoding.{bit_of};
ghost use Rattle.rv_insn.specs.Table.{r_type, i_type, s_type, b_type, u_type, j_type, amo_type, whole_word};
ghost use Rattle.rv_encoding.specs.Formats.{Stands, StandsFor};
ghost use Rattle.operation_keys.specs.Operations.{store_funct3 as store_key, shift_funct3 as shift_key};
ghost use Rattle.operation_keys.specs.Operations.{shift_funct7 as shift_second_key, alu_funct3 as alu_key};
ghost use Rattle.operation_keys.specs.Operations.{alu_funct7 as alu_second_key};

use crate::opcodes;
use crate::packing::{digits_12, digits_20, pack_b, pack_i, pack_j, pack_r, pack_s, pack_u};
use crate::vector_encoding::vector_word;
use operation_keys::{
    alu_funct3, alu_funct7, alu_imm_funct3, branch_funct3, load_funct3, shift_funct3, shift_funct7,
    store_funct3,
};
use rv_insn::{
    AluOp, BranchOffset, Imm12, Imm20, Insn, JumpOffset, Reg, ShiftAmount, ShiftOp, StoreOp,
};

#[tactic(auto, using(crate::proofs::Formats::r_made), unfolding(crate::specs::Decoding::rd_of, crate::specs::Decoding::rs1_of, crate::specs::Decoding::rs2_of))]
fn alu_word(op: AluOp, rd: Reg, rs1: Reg, rs2: Reg) -> u32
    ensures { Stands result (r_type [] 0b0110011 (alu_key op) (alu_second_key op)) (pos rd ∷ pos rs1 ∷ pos rs2 ∷ []) }
{
    pack_r(
        opcodes::OP,
        rd.number() as u32,
        alu_funct3(op),
        rs1.number() as u32,
        rs2.number() as u32,
        alu_funct7(op),
    )
}

// The amount of a shift is where the R format has its second source.
#[tactic(auto, using(crate::proofs::Formats::r_made), unfolding(crate::specs::Decoding::rd_of, crate::specs::Decoding::rs1_of, crate::specs::Decoding::rs2_of))]
fn shift_word(op: ShiftOp, rd: Reg, rs1: Reg, amount: ShiftAmount) -> u32
    ensures { Stands result (r_type [] 0b0010011 (shift_key op) (shift_second_key op)) (pos rd ∷ pos rs1 ∷ pos amount
        ∷ []) }
{
    pack_r(
        opcodes::OP_IMM,
        rd.number() as u32,
        shift_funct3(op),
        rs1.number() as u32,
        amount.value() as u32,
        shift_funct7(op),
    )
}

#[tactic(auto, using(crate::proofs::Formats::i_made), unfolding(crate::specs::Decoding::rd_of, crate::specs::Decoding::rs1_of, crate::specs::Decoding::i_immediate_of))]
fn i_word(opcode: u32, funct3: u32, rd: Reg, rs1: Reg, imm: Imm12) -> u32
    requires opcode { opcode < 2 ^ 7 }
    requires funct3 { funct3 < 2 ^ 3 }
    ensures { Stands result (i_type [] opcode funct3) (pos rd ∷ pos rs1 ∷ imm ∷ []) }
{
    pack_i(
        opcode,
        rd.number() as u32,
        funct3,
        rs1.number() as u32,
        digits_12(imm.value()),
    )
}

#[tactic(auto, using(crate::proofs::Formats::s_made), unfolding(crate::specs::Decoding::s_immediate_of, crate::specs::Decoding::rs1_of, crate::specs::Decoding::rs2_of))]
fn store_word(op: StoreOp, rs1: Reg, rs2: Reg, imm: Imm12) -> u32
    ensures { Stands result (s_type [] 0b0100011 (store_key op)) (pos rs1 ∷ pos rs2 ∷ imm ∷ []) }
{
    pack_s(
        opcodes::STORE,
        store_funct3(op),
        rs1.number() as u32,
        rs2.number() as u32,
        digits_12(imm.value()),
    )
}

#[tactic(auto, using(crate::proofs::Formats::b_made), unfolding(crate::specs::Decoding::b_offset_of, crate::specs::Decoding::rs1_of, crate::specs::Decoding::rs2_of))]
fn b_word(opcode: u32, funct3: u32, rs1: Reg, rs2: Reg, offset: BranchOffset) -> u32
    requires opcode { opcode < 2 ^ 7 }
    requires funct3 { funct3 < 2 ^ 3 }
    ensures { Stands result (b_type [] opcode funct3) (pos rs1 ∷ pos rs2 ∷ offset ∷ []) }
{
    pack_b(
        opcode,
        funct3,
        rs1.number() as u32,
        rs2.number() as u32,
        digits_12(offset.halves()),
    )
}

#[tactic(auto, using(crate::proofs::Formats::u_made), unfolding(crate::specs::Decoding::rd_of, crate::specs::Decoding::u_immediate_of))]
fn u_word(opcode: u32, rd: Reg, imm: Imm20) -> u32
    requires { opcode < 2 ^ 7 }
    ensures { Stands result (u_type [] opcode) (pos rd ∷ pos imm ∷ []) }
{
    pack_u(opcode, rd.number() as u32, imm.value())
}

#[tactic(auto, using(crate::proofs::Formats::j_made), unfolding(crate::specs::Decoding::rd_of, crate::specs::Decoding::j_offset_of))]
fn j_word(opcode: u32, rd: Reg, offset: JumpOffset) -> u32
    requires { opcode < 2 ^ 7 }
    ensures { Stands result (j_type [] opcode) (pos rd ∷ offset ∷ []) }
{
    pack_j(opcode, rd.number() as u32, digits_20(offset.halves()))
}

// The bits `aq` and `rl` stand where the R format has the lowest two of funct7.
#[tactic(auto, using(crate::proofs::Formats::amo_packed))]
fn amo_word(rd: Reg, rs1: Reg, rs2: Reg, aq: bool, rl: bool) -> u32
    ensures { Stands result (amo_type [] 0b0101111 0b010 0b00000) (pos rd ∷ pos rs1 ∷ pos rs2 ∷ pos (bit_of aq)
        ∷ pos (bit_of rl) ∷ []) }
{
    let order = if aq { 2 } else { 0 } + if rl { 1 } else { 0 };
    pack_r(
        opcodes::AMO,
        rd.number() as u32,
        0b010,
        rs1.number() as u32,
        rs2.number() as u32,
        order,
    )
}

#[tactic(auto, using(crate::proofs::Formats::whole_made))]
fn fixed_word(word: u32) -> u32
    ensures { Stands result (whole_word [] word) [] }
{
    word
}

fn word_of(insn: &Insn) -> u32
    ensures { StandsFor result insn.now }
{
    match *insn {
        Insn::Lui { rd, imm } => u_word(opcodes::LUI, rd, imm),
        Insn::Auipc { rd, imm } => u_word(opcodes::AUIPC, rd, imm),
        Insn::Jal { rd, offset } => j_word(opcodes::JAL, rd, offset),
        Insn::Jalr { rd, rs1, imm } => i_word(opcodes::JALR, 0b000, rd, rs1, imm),
        Insn::Branch {
            op,
            rs1,
            rs2,
            offset,
        } => b_word(opcodes::BRANCH, branch_funct3(op), rs1, rs2, offset),
        Insn::Load { op, rd, rs1, imm } => i_word(opcodes::LOAD, load_funct3(op), rd, rs1, imm),
        Insn::Store { op, rs1, rs2, imm } => store_word(op, rs1, rs2, imm),
        Insn::AluImm { op, rd, rs1, imm } => {
            i_word(opcodes::OP_IMM, alu_imm_funct3(op), rd, rs1, imm)
        }
        Insn::Shift {
            op,
            rd,
            rs1,
            amount,
        } => shift_word(op, rd, rs1, amount),
        Insn::Alu { op, rd, rs1, rs2 } => alu_word(op, rd, rs1, rs2),
        Insn::AmoaddW {
            rd,
            rs1,
            rs2,
            aq,
            rl,
        } => amo_word(rd, rs1, rs2, aq, rl),
        Insn::Fence => fixed_word(opcodes::FENCE),
        Insn::Ecall => fixed_word(opcodes::ECALL),
        Insn::Ebreak => fixed_word(opcodes::EBREAK),
        Insn::Vector(insn) => vector_word(insn),
    }
}

/// The one word that means the instruction: its row's fixed bits, and each field at the places
/// that the format gives it (sections 2.2, 2.3 and 8.4).
#[tactic(auto, using(crate::proofs::Meanings::means_from_stands))]
pub fn encode(insn: &Insn) -> u32
    ensures means { Means result insn.now }
    ensures only { (word : ℕ) → word < 2 ^ 32 → Means word insn.now → word ≡ result }
{
    word_of(insn)
}
