//! Decoding of the vector instructions.

ghost use Rattle.std.specs.Prelude.{◌≡◌, ◌==◌};
ghost use Rattle.rv_encoding.specs.Decoding.{part, merge_in, opivv_in, opivx_in, opivi_in, opmvv_in, opmvx_in};
ghost use Rattle.rv_encoding.specs.Decoding.{config_in, vector_in, vector_by_opcode, to_scalar_in, from_scalar_in};
ghost use Rattle.rv_encoding.specs.Decoding.{numbers_in, extended_in, addressing_in, vector_load_in, vector_store_in};

use crate::fields::{
    bits, flag, funct3, funct6, length, opcode, rd, rs1, rs2, vd, vector_amount, vector_immediate,
    vs1, vs2, vtype10, vtype11,
};
use crate::opcodes;
use operation_keys::{
    arithmetic_vi_op, arithmetic_vv_op, arithmetic_vx_op, compare_vi_op, compare_vv_op,
    compare_vx_op, multiply_op, reduction_op, shift_vi_op, width_of,
};
use rv_insn::{Addressing, Insn, VectorInsn};

/// The field funct6 of merges and of moves to whole registers.
const MERGE: u32 = 0b01_0111;

/// That of the moves between a register and element 0.
const SCALAR_MOVE: u32 = 0b01_0000;

/// That of the elements' numbers.
const NUMBERS: u32 = 0b01_0100;

/// That of extended elements.
const EXTENSION: u32 = 0b01_0010;

// With the mask bit 0 a merge, else a move, which has no vs2.
fn merge_or_move(word: u32, merge: VectorInsn, moved: VectorInsn) -> Option<Insn>
    ensures { result ≡ merge_in (part word 25 1) (part word 20 5) merge moved }
{
    if bits(word, 25, 1) == 0 {
        Some(Insn::Vector(merge))
    } else if bits(word, 20, 5) == 0 {
        Some(Insn::Vector(moved))
    } else {
        None
    }
}

fn opivv(word: u32) -> Option<Insn>
    ensures { result ≡ opivv_in (part word 26 6) (part word 25 1) (part word 20 5) word }
{
    let funct6 = funct6(word);
    if funct6 == MERGE {
        return merge_or_move(
            word,
            VectorInsn::MergeVv {
                vd: vd(word),
                vs2: vs2(word),
                vs1: vs1(word),
            },
            VectorInsn::MoveVv {
                vd: vd(word),
                vs1: vs1(word),
            },
        );
    }
    if let Some(op) = arithmetic_vv_op(funct6) {
        return Some(Insn::Vector(VectorInsn::ArithmeticVv {
            op,
            vd: vd(word),
            vs2: vs2(word),
            vs1: vs1(word),
            vm: flag(word, 25),
        }));
    }
    let op = compare_vv_op(funct6)?;
    Some(Insn::Vector(VectorInsn::CompareVv {
        op,
        vd: vd(word),
        vs2: vs2(word),
        vs1: vs1(word),
        vm: flag(word, 25),
    }))
}

fn opivx(word: u32) -> Option<Insn>
    ensures { result ≡ opivx_in (part word 26 6) (part word 25 1) (part word 20 5) word }
{
    let funct6 = funct6(word);
    if funct6 == MERGE {
        return merge_or_move(
            word,
            VectorInsn::MergeVx {
                vd: vd(word),
                vs2: vs2(word),
                rs1: rs1(word),
            },
            VectorInsn::MoveVx {
                vd: vd(word),
                rs1: rs1(word),
            },
        );
    }
    if let Some(op) = arithmetic_vx_op(funct6) {
        return Some(Insn::Vector(VectorInsn::ArithmeticVx {
            op,
            vd: vd(word),
            vs2: vs2(word),
            rs1: rs1(word),
            vm: flag(word, 25),
        }));
    }
    let op = compare_vx_op(funct6)?;
    Some(Insn::Vector(VectorInsn::CompareVx {
        op,
        vd: vd(word),
        vs2: vs2(word),
        rs1: rs1(word),
        vm: flag(word, 25),
    }))
}

fn opivi(word: u32) -> Option<Insn>
    ensures { result ≡ opivi_in (part word 26 6) (part word 25 1) (part word 20 5) word }
{
    let funct6 = funct6(word);
    let imm = vector_immediate(word);
    if funct6 == MERGE {
        return merge_or_move(
            word,
            VectorInsn::MergeVi {
                vd: vd(word),
                vs2: vs2(word),
                imm,
            },
            VectorInsn::MoveVi { vd: vd(word), imm },
        );
    }
    if let Some(op) = arithmetic_vi_op(funct6) {
        return Some(Insn::Vector(VectorInsn::ArithmeticVi {
            op,
            vd: vd(word),
            vs2: vs2(word),
            imm,
            vm: flag(word, 25),
        }));
    }
    if let Some(op) = shift_vi_op(funct6) {
        return Some(Insn::Vector(VectorInsn::ShiftVi {
            op,
            vd: vd(word),
            vs2: vs2(word),
            amount: vector_amount(word),
            vm: flag(word, 25),
        }));
    }
    let op = compare_vi_op(funct6)?;
    Some(Insn::Vector(VectorInsn::CompareVi {
        op,
        vd: vd(word),
        vs2: vs2(word),
        imm,
        vm: flag(word, 25),
    }))
}

fn opmvv(word: u32) -> Option<Insn>
    ensures { result ≡ opmvv_in (part word 26 6) (part word 25 1) (part word 15 5) (part word 20 5) word }
{
    let funct6 = funct6(word);
    if funct6 == SCALAR_MOVE {
        return move_to_scalar(word);
    }
    if funct6 == NUMBERS {
        return element_numbers(word);
    }
    if funct6 == EXTENSION {
        return extended(word);
    }
    if let Some(op) = reduction_op(funct6) {
        return Some(Insn::Vector(VectorInsn::Reduce {
            op,
            vd: vd(word),
            vs2: vs2(word),
            vs1: vs1(word),
            vm: flag(word, 25),
        }));
    }
    let op = multiply_op(funct6)?;
    Some(Insn::Vector(VectorInsn::MultiplyVv {
        op,
        vd: vd(word),
        vs2: vs2(word),
        vs1: vs1(word),
        vm: flag(word, 25),
    }))
}

fn move_to_scalar(word: u32) -> Option<Insn>
    ensures { result ≡ to_scalar_in (part word 25 1) (part word 15 5) word }
{
    if bits(word, 25, 1) == 1 && bits(word, 15, 5) == 0 {
        Some(Insn::Vector(VectorInsn::MoveToScalar {
            rd: rd(word),
            vs2: vs2(word),
        }))
    } else {
        None
    }
}

fn element_numbers(word: u32) -> Option<Insn>
    ensures { result ≡ numbers_in (part word 15 5) (part word 20 5) word }
{
    if bits(word, 15, 5) == 0b1_0001 && bits(word, 20, 5) == 0 {
        Some(Insn::Vector(VectorInsn::ElementNumbers {
            vd: vd(word),
            vm: flag(word, 25),
        }))
    } else {
        None
    }
}

fn extended(word: u32) -> Option<Insn>
    ensures { result ≡ extended_in (part word 15 5) word }
{
    if bits(word, 15, 5) == 0b0_0100 {
        Some(Insn::Vector(VectorInsn::ExtendBytes {
            vd: vd(word),
            vs2: vs2(word),
            vm: flag(word, 25),
        }))
    } else {
        None
    }
}

fn opmvx(word: u32) -> Option<Insn>
    ensures { result ≡ opmvx_in (part word 26 6) (part word 25 1) (part word 20 5) word }
{
    let funct6 = funct6(word);
    if funct6 == SCALAR_MOVE {
        return move_from_scalar(word);
    }
    let op = multiply_op(funct6)?;
    Some(Insn::Vector(VectorInsn::MultiplyVx {
        op,
        vd: vd(word),
        vs2: vs2(word),
        rs1: rs1(word),
        vm: flag(word, 25),
    }))
}

fn move_from_scalar(word: u32) -> Option<Insn>
    ensures { result ≡ from_scalar_in (part word 25 1) (part word 20 5) word }
{
    if bits(word, 25, 1) == 1 && bits(word, 20, 5) == 0 {
        Some(Insn::Vector(VectorInsn::MoveFromScalar {
            vd: vd(word),
            rs1: rs1(word),
        }))
    } else {
        None
    }
}

fn configuration(word: u32) -> Option<Insn>
    ensures { result ≡ config_in (part word 31 1) (part word 30 2) (part word 25 7) word }
{
    if bits(word, 31, 1) == 0 {
        Some(Insn::Vector(VectorInsn::Vsetvli {
            rd: rd(word),
            rs1: rs1(word),
            vtype: vtype11(word),
        }))
    } else if bits(word, 30, 2) == 0b11 {
        Some(Insn::Vector(VectorInsn::Vsetivli {
            rd: rd(word),
            length: length(word),
            vtype: vtype10(word),
        }))
    } else if bits(word, 25, 7) == 0b100_0000 {
        Some(Insn::Vector(VectorInsn::Vsetvl {
            rd: rd(word),
            rs1: rs1(word),
            rs2: rs2(word),
        }))
    } else {
        None
    }
}

/// The vector instruction that a word of the opcode OP-V means.
fn op_v(word: u32) -> Option<Insn>
    ensures { result ≡ vector_in (part word 12 3) word }
{
    match funct3(word) {
        0b000 => opivv(word),
        0b010 => opmvv(word),
        0b011 => opivi(word),
        0b100 => opivx(word),
        0b110 => opmvx(word),
        0b111 => configuration(word),
        _ => None,
    }
}

/// How a vector load or store is addressed.
fn addressing(word: u32) -> Option<Addressing>
    ensures { result ≡ addressing_in (part word 26 2) (part word 20 5) word }
{
    match bits(word, 26, 2) {
        0b00 if bits(word, 20, 5) == 0 => Some(Addressing::UnitStride),
        0b10 => Some(Addressing::Strided { rs2: rs2(word) }),
        0b01 => Some(Addressing::Indexed { vs2: vs2(word) }),
        _ => None,
    }
}

/// The vector load that a word means.
fn vector_load(word: u32) -> Option<Insn>
    ensures { result ≡ vector_load_in (part word 12 3) (part word 28 4) (part word 26 2) (part word 20 5) word }
{
    if bits(word, 28, 4) != 0 {
        return None;
    }
    let width = width_of(funct3(word))?;
    let addressing = addressing(word)?;
    Some(Insn::Vector(VectorInsn::LoadElements {
        width,
        vd: vd(word),
        rs1: rs1(word),
        addressing,
        vm: flag(word, 25),
    }))
}

/// The vector store that a word means.
fn vector_store(word: u32) -> Option<Insn>
    ensures { result ≡ vector_store_in (part word 12 3) (part word 28 4) (part word 26 2) (part word 20 5) word }
{
    if bits(word, 28, 4) != 0 {
        return None;
    }
    let width = width_of(funct3(word))?;
    let addressing = addressing(word)?;
    Some(Insn::Vector(VectorInsn::StoreElements {
        width,
        vs3: vd(word),
        rs1: rs1(word),
        addressing,
        vm: flag(word, 25),
    }))
}

/// The vector instruction that a word means, by its opcode.
pub fn vector(word: u32) -> Option<Insn>
    ensures { result ≡ vector_by_opcode (part word 0 7) (part word 12 3) word }
{
    match opcode(word) {
        opcodes::OP_V => op_v(word),
        opcodes::LOAD_VECTOR => vector_load(word),
        opcodes::STORE_VECTOR => vector_store(word),
        _ => None,
    }
}
