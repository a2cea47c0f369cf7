//! Decoding: the instruction that a word means.

ghost use Rattle.std.specs.Prelude.{◌≡◌, ◌/◌, ◌%◌, ◌^◌, IfSome, IfNone};
ghost use Rattle.rv_insn.specs.Table.{Means};
ghost use Rattle.rv_insn.specs.declared.instructions.Insn.{Insn};
ghost use Rattle.rv_encoding.specs.Decoding.{part, branch_in, load_in, store_in, op_imm_in, shift_in, alu_in, amo_in};
ghost use Rattle.rv_encoding.specs.Decoding.{misc_mem_in, jalr_in, system_in, decoded};

use crate::fields::{
    b_offset, flag, funct3, funct5, funct7, i_immediate, j_offset, opcode, rd, rs1, rs2,
    s_immediate, shift_amount, u_immediate,
};
use crate::opcodes;
use crate::vector_decoding::vector;
use operation_keys::{alu_imm_op, alu_op, branch_op, load_op, shift_op, store_op};
use rv_insn::Insn;

fn branch(word: u32) -> Option<Insn>
    ensures { result ≡ branch_in (part word 12 3) word }
{
    let op = branch_op(funct3(word))?;
    Some(Insn::Branch {
        op,
        rs1: rs1(word),
        rs2: rs2(word),
        offset: b_offset(word),
    })
}

fn load(word: u32) -> Option<Insn>
    ensures { result ≡ load_in (part word 12 3) word }
{
    let op = load_op(funct3(word))?;
    Some(Insn::Load {
        op,
        rd: rd(word),
        rs1: rs1(word),
        imm: i_immediate(word),
    })
}

fn store(word: u32) -> Option<Insn>
    ensures { result ≡ store_in (part word 12 3) word }
{
    let op = store_op(funct3(word))?;
    Some(Insn::Store {
        op,
        rs1: rs1(word),
        rs2: rs2(word),
        imm: s_immediate(word),
    })
}

fn jalr(word: u32) -> Option<Insn>
    ensures { result ≡ jalr_in (part word 12 3) word }
{
    if funct3(word) == 0b000 {
        Some(Insn::Jalr {
            rd: rd(word),
            rs1: rs1(word),
            imm: i_immediate(word),
        })
    } else {
        None
    }
}

// An operation that has an immediate is told by funct3 alone, a shift by funct7 too.
fn op_imm(word: u32) -> Option<Insn>
    ensures { result ≡ op_imm_in (part word 12 3) (part word 25 7) word }
{
    match alu_imm_op(funct3(word)) {
        Some(op) => Some(Insn::AluImm {
            op,
            rd: rd(word),
            rs1: rs1(word),
            imm: i_immediate(word),
        }),
        None => shift(word),
    }
}

fn shift(word: u32) -> Option<Insn>
    ensures { result ≡ shift_in (part word 12 3) (part word 25 7) word }
{
    let op = shift_op(funct3(word), funct7(word))?;
    Some(Insn::Shift {
        op,
        rd: rd(word),
        rs1: rs1(word),
        amount: shift_amount(word),
    })
}

fn alu(word: u32) -> Option<Insn>
    ensures { result ≡ alu_in (part word 12 3) (part word 25 7) word }
{
    let op = alu_op(funct3(word), funct7(word))?;
    Some(Insn::Alu {
        op,
        rd: rd(word),
        rs1: rs1(word),
        rs2: rs2(word),
    })
}

// The only atomic operation is the addition of words: funct3 is 0b010 and funct5 is 0.
fn amo(word: u32) -> Option<Insn>
    ensures { result ≡ amo_in (part word 12 3) word }
{
    if funct3(word) == 0b010 && funct5(word) == 0b00000 {
        Some(Insn::AmoaddW {
            rd: rd(word),
            rs1: rs1(word),
            rs2: rs2(word),
            aq: flag(word, 26),
            rl: flag(word, 25),
        })
    } else {
        None
    }
}

fn misc_mem(word: u32) -> Option<Insn>
    ensures { result ≡ misc_mem_in word }
{
    match word {
        opcodes::FENCE => Some(Insn::Fence),
        _ => None,
    }
}

fn system(word: u32) -> Option<Insn>
    ensures { result ≡ system_in word }
{
    match word {
        opcodes::ECALL => Some(Insn::Ecall),
        opcodes::EBREAK => Some(Insn::Ebreak),
        _ => None,
    }
}

#[tactic(auto, unfolding(crate::specs::Decoding::decoded))]
fn decode_by_opcode(word: u32) -> Option<Insn>
    ensures { result ≡ decoded word }
{
    match opcode(word) {
        opcodes::LUI => Some(Insn::Lui {
            rd: rd(word),
            imm: u_immediate(word),
        }),
        opcodes::AUIPC => Some(Insn::Auipc {
            rd: rd(word),
            imm: u_immediate(word),
        }),
        opcodes::JAL => Some(Insn::Jal {
            rd: rd(word),
            offset: j_offset(word),
        }),
        opcodes::JALR => jalr(word),
        opcodes::BRANCH => branch(word),
        opcodes::LOAD => load(word),
        opcodes::STORE => store(word),
        opcodes::OP_IMM => op_imm(word),
        opcodes::OP => alu(word),
        opcodes::AMO => amo(word),
        opcodes::MISC_MEM => misc_mem(word),
        opcodes::SYSTEM => system(word),
        _ => vector(word),
    }
}

/// The instruction that a word means, and `None` exactly where no row of the table fits it.
///
/// Words are those of the manual's chapter 24. All 32 bits count: a word with a fixed bit changed
/// has no meaning, unless it fits another row. The bits `aq` and `rl` of an atomic operation are
/// fields (section 8.4).
#[tactic(auto, using(crate::proofs::Meanings::sound))]
pub fn decode(word: u32) -> Option<Insn>
    ensures some { IfSome result (Means word) }
    ensures none { IfNone result ((insn : Insn) → Means word insn → ⊥) }
    ensures exact { result ≡ decoded word }
{
    decode_by_opcode(word)
}
