//! The fields of a word: keys and operands, at the places that the formats give them.

ghost use Rattle.std.specs.Prelude.{◌≡◌, ◌+◌, ◌*◌, ◌/◌, ◌%◌, ◌^◌, ◌<◌, pos, negsuc, ◌≤ℤ◌};
ghost use Rattle.rv_insn.specs.Encoding.{signed};
ghost use Rattle.rv_encoding.specs.Decoding.{part, rd_of, rs1_of, rs2_of, i_immediate_of, s_immediate_of, b_offset_of};
ghost use Rattle.rv_encoding.specs.Decoding.{u_immediate_of, j_offset_of, vector_immediate_of, vtype10_of, vtype11_of};
ghost use Rattle.rv_encoding.specs.Decoding.{flag_of};

use rv_insn::{
    BranchOffset, Imm5, Imm12, Imm20, JumpOffset, Length5, Reg, ShiftAmount, VReg, Vtype10, Vtype11,
};

/// Bits 6 to 0.
pub fn opcode(word: u32) -> u32
    ensures { result ≡ part word 0 7 }
{
    word & 0x7f
}

/// Bits 14 to 12.
pub fn funct3(word: u32) -> u32
    ensures { result ≡ part word 12 3 }
{
    word >> 12 & 7
}

/// Bits 31 to 27.
pub fn funct5(word: u32) -> u32
    ensures { result ≡ part word 27 5 }
{
    word >> 27
}

/// Bits 31 to 25.
pub fn funct7(word: u32) -> u32
    ensures { result ≡ part word 25 7 }
{
    word >> 25
}

/// The one bit at a place.
pub fn flag(word: u32, place: u32) -> bool
    requires { place < 32 }
    ensures { result ≡ flag_of word place }
{
    word >> place & 1 == 1
}

// Five bits, from the bit `low` up, name a register.
fn register(word: u32, low: u32) -> Reg
    requires { low < 32 }
    ensures { result ≡ part word low 5 }
{
    Reg::new((word >> low & 31) as u8).unwrap()
}

/// The destination, in bits 11 to 7.
#[tactic(auto, unfolding(crate::specs::Decoding::rd_of))]
pub fn rd(word: u32) -> Reg
    ensures { result ≡ rd_of word }
{
    register(word, 7)
}

/// The first source, in bits 19 to 15.
#[tactic(auto, unfolding(crate::specs::Decoding::rs1_of))]
pub fn rs1(word: u32) -> Reg
    ensures { result ≡ rs1_of word }
{
    register(word, 15)
}

/// The second source, in bits 24 to 20.
#[tactic(auto, unfolding(crate::specs::Decoding::rs2_of))]
pub fn rs2(word: u32) -> Reg
    ensures { result ≡ rs2_of word }
{
    register(word, 20)
}

/// The amount of a shift, in bits 24 to 20.
#[tactic(auto, unfolding(crate::specs::Decoding::rs2_of))]
pub fn shift_amount(word: u32) -> ShiftAmount
    ensures { result ≡ rs2_of word }
{
    ShiftAmount::new((word >> 20 & 31) as u8).unwrap()
}

// Twelve digits, of which the highest counts negative.
fn signed_of_12(digits: u32) -> i32
    requires { digits < 2 ^ 12 }
    ensures value { result ≡ signed 12 digits }
    ensures low { negsuc 2047 ≤ℤ result }
    ensures high { result ≤ℤ pos 2047 }
{
    let value = digits as i32;
    if value < 2048 { value } else { value - 4096 }
}

// Twenty digits, of which the highest counts negative.
fn signed_of_20(digits: u32) -> i32
    requires { digits < 2 ^ 20 }
    ensures value { result ≡ signed 20 digits }
    ensures low { negsuc 524287 ≤ℤ result }
    ensures high { result ≤ℤ pos 524287 }
{
    let value = digits as i32;
    if value < 524_288 {
        value
    } else {
        value - 1_048_576
    }
}

fn immediate(digits: u32) -> Imm12
    requires { digits < 2 ^ 12 }
    ensures { result ≡ signed 12 digits }
{
    Imm12::new(signed_of_12(digits)).unwrap()
}

/// The immediate of the I format, in bits 31 to 20.
#[tactic(auto, unfolding(crate::specs::Decoding::i_immediate_of))]
pub fn i_immediate(word: u32) -> Imm12
    ensures { result ≡ i_immediate_of word }
{
    immediate(word >> 20)
}

fn s_digits(word: u32) -> u32
    ensures value { result ≡ part word 7 5 + 2 ^ 5 * part word 25 7 }
    ensures in_range { result < 2 ^ 12 }
{
    (word >> 7 & 31) | (word >> 25) << 5
}

/// The immediate of the S format, in bits 11 to 7 and then 31 to 25.
#[tactic(auto, unfolding(crate::specs::Decoding::s_immediate_of))]
pub fn s_immediate(word: u32) -> Imm12
    ensures { result ≡ s_immediate_of word }
{
    immediate(s_digits(word))
}

fn b_digits(word: u32) -> u32
    ensures value { result ≡ part word 8 4 + 2 ^ 4 * (part word 25 6 + 2 ^ 6 * (part word 7 1 + 2 * part word 31 1)) }
    ensures in_range { result < 2 ^ 12 }
{
    (word >> 8 & 15) | (word >> 25 & 63) << 4 | (word >> 7 & 1) << 10 | (word >> 31) << 11
}

/// The offset of the B format, in bits 11 to 8, 30 to 25, 7 and 31.
#[tactic(auto, unfolding(crate::specs::Decoding::b_offset_of))]
pub fn b_offset(word: u32) -> BranchOffset
    ensures { result ≡ b_offset_of word }
{
    BranchOffset::new(signed_of_12(b_digits(word))).unwrap()
}

/// The immediate of the U format, in bits 31 to 12.
#[tactic(auto, unfolding(crate::specs::Decoding::u_immediate_of))]
pub fn u_immediate(word: u32) -> Imm20
    ensures { result ≡ u_immediate_of word }
{
    Imm20::new(word >> 12).unwrap()
}

fn j_digits(word: u32) -> u32
    ensures value { result ≡ part word 21 10 + 2 ^ 10 *
        (part word 20 1 + 2 * (part word 12 8 + 2 ^ 8 * part word 31 1)) }
    ensures in_range { result < 2 ^ 20 }
{
    (word >> 21 & 1023) | (word >> 20 & 1) << 10 | (word >> 12 & 255) << 11 | (word >> 31) << 19
}

/// The offset of the J format, in bits 30 to 21, 20, 19 to 12 and 31.
#[tactic(auto, unfolding(crate::specs::Decoding::j_offset_of))]
pub fn j_offset(word: u32) -> JumpOffset
    ensures { result ≡ j_offset_of word }
{
    JumpOffset::new(signed_of_20(j_digits(word))).unwrap()
}

/// Bits 31 to 26.
pub fn funct6(word: u32) -> u32
    ensures { result ≡ part word 26 6 }
{
    word >> 26
}

/// This many bits, from the bit `low` up.
pub fn bits(word: u32, low: u32, count: u32) -> u32
    requires low { low < 32 }
    requires count { count < 32 }
    ensures { result ≡ part word low count }
{
    (word >> low) % (1 << count)
}

// Five bits, from the bit `low` up, name a vector register.
fn vector_register(word: u32, low: u32) -> VReg
    requires { low < 32 }
    ensures { result ≡ part word low 5 }
{
    VReg::new((word >> low & 31) as u8).unwrap()
}

/// The vector destination, in bits 11 to 7; of a store, what is stored.
#[tactic(auto, unfolding(crate::specs::Decoding::rd_of))]
pub fn vd(word: u32) -> VReg
    ensures { result ≡ rd_of word }
{
    vector_register(word, 7)
}

/// The vector source in bits 19 to 15.
#[tactic(auto, unfolding(crate::specs::Decoding::rs1_of))]
pub fn vs1(word: u32) -> VReg
    ensures { result ≡ rs1_of word }
{
    vector_register(word, 15)
}

/// The vector source in bits 24 to 20.
#[tactic(auto, unfolding(crate::specs::Decoding::rs2_of))]
pub fn vs2(word: u32) -> VReg
    ensures { result ≡ rs2_of word }
{
    vector_register(word, 20)
}

/// The signed immediate in bits 19 to 15.
#[tactic(auto, unfolding(crate::specs::Decoding::vector_immediate_of))]
pub fn vector_immediate(word: u32) -> Imm5
    ensures { result ≡ vector_immediate_of word }
{
    let value = (word >> 15 & 31) as i32;
    Imm5::new(if value < 16 { value } else { value - 32 }).unwrap()
}

/// The amount of a vector shift, in bits 19 to 15.
#[tactic(auto, unfolding(crate::specs::Decoding::rs1_of))]
pub fn vector_amount(word: u32) -> ShiftAmount
    ensures { result ≡ rs1_of word }
{
    ShiftAmount::new((word >> 15 & 31) as u8).unwrap()
}

/// The number of elements that vsetivli asks for, in bits 19 to 15.
#[tactic(auto, unfolding(crate::specs::Decoding::rs1_of))]
pub fn length(word: u32) -> Length5
    ensures { result ≡ rs1_of word }
{
    Length5::new(word >> 15 & 31).unwrap()
}

/// The vtype of vsetivli, in bits 29 to 20.
#[tactic(auto, unfolding(crate::specs::Decoding::vtype10_of))]
pub fn vtype10(word: u32) -> Vtype10
    ensures { result ≡ vtype10_of word }
{
    Vtype10::new(word >> 20 & 0x3ff).unwrap()
}

/// The vtype of vsetvli, in bits 30 to 20.
#[tactic(auto, unfolding(crate::specs::Decoding::vtype11_of))]
pub fn vtype11(word: u32) -> Vtype11
    ensures { result ≡ vtype11_of word }
{
    Vtype11::new(word >> 20 & 0x7ff).unwrap()
}
