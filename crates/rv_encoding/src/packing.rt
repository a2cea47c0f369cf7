//! The formats of words: each field at its places, as numbers.
//!
//! These functions know nothing of instructions, which keeps their goals to plain arithmetic.

ghost use Rattle.std.specs.Prelude.{◌≡◌, ◌+◌, ◌*◌, ◌/◌, ◌%◌, ◌^◌, ◌<◌, pos, negsuc, ◌≤ℤ◌};
ghost use Rattle.rv_insn.specs.Encoding.{signed, bit_of};
ghost use Rattle.rv_encoding.specs.Decoding.{part};

/// The twelve digits that spell a number from -2048 to 2047.
pub fn digits_12(value: i32) -> u32
    requires low { negsuc 2047 ≤ℤ value }
    requires high { value ≤ℤ pos 2047 }
    ensures in_range { result < 2 ^ 12 }
    ensures spelled { value ≡ signed 12 result }
{
    if value < 0 {
        (value + 4096) as u32
    } else {
        value as u32
    }
}

/// The twenty digits that spell a number from -524,288 to 524,287.
pub fn digits_20(value: i32) -> u32
    requires low { negsuc 524287 ≤ℤ value }
    requires high { value ≤ℤ pos 524287 }
    ensures in_range { result < 2 ^ 20 }
    ensures spelled { value ≡ signed 20 result }
{
    if value < 0 {
        (value + 1_048_576) as u32
    } else {
        value as u32
    }
}

/// The R format.
pub fn pack_r(opcode: u32, rd: u32, funct3: u32, rs1: u32, rs2: u32, funct7: u32) -> u32
    requires opcode { opcode < 2 ^ 7 }
    requires rd { rd < 2 ^ 5 }
    requires funct3 { funct3 < 2 ^ 3 }
    requires rs1 { rs1 < 2 ^ 5 }
    requires rs2 { rs2 < 2 ^ 5 }
    requires funct7 { funct7 < 2 ^ 7 }
    ensures opcode { part result 0 7 ≡ opcode }
    ensures rd { rd ≡ part result 7 5 }
    ensures funct3 { part result 12 3 ≡ funct3 }
    ensures rs1 { rs1 ≡ part result 15 5 }
    ensures rs2 { rs2 ≡ part result 20 5 }
    ensures funct7 { part result 25 7 ≡ funct7 }
{
    opcode | rd << 7 | funct3 << 12 | rs1 << 15 | rs2 << 20 | funct7 << 25
}

/// The I format.
pub fn pack_i(opcode: u32, rd: u32, funct3: u32, rs1: u32, imm: u32) -> u32
    requires opcode { opcode < 2 ^ 7 }
    requires rd { rd < 2 ^ 5 }
    requires funct3 { funct3 < 2 ^ 3 }
    requires rs1 { rs1 < 2 ^ 5 }
    requires imm { imm < 2 ^ 12 }
    ensures opcode { part result 0 7 ≡ opcode }
    ensures rd { rd ≡ part result 7 5 }
    ensures funct3 { part result 12 3 ≡ funct3 }
    ensures rs1 { rs1 ≡ part result 15 5 }
    ensures imm { imm ≡ part result 20 12 }
{
    opcode | rd << 7 | funct3 << 12 | rs1 << 15 | imm << 20
}

/// The S format.
pub fn pack_s(opcode: u32, funct3: u32, rs1: u32, rs2: u32, imm: u32) -> u32
    requires opcode { opcode < 2 ^ 7 }
    requires funct3 { funct3 < 2 ^ 3 }
    requires rs1 { rs1 < 2 ^ 5 }
    requires rs2 { rs2 < 2 ^ 5 }
    requires imm { imm < 2 ^ 12 }
    ensures opcode { part result 0 7 ≡ opcode }
    ensures funct3 { part result 12 3 ≡ funct3 }
    ensures rs1 { rs1 ≡ part result 15 5 }
    ensures rs2 { rs2 ≡ part result 20 5 }
    ensures imm { imm ≡ part result 7 5 + 2 ^ 5 * part result 25 7 }
{
    opcode | (imm & 31) << 7 | funct3 << 12 | rs1 << 15 | rs2 << 20 | (imm >> 5) << 25
}

/// The B format, whose digits are those of the offset in half-words.
pub fn pack_b(opcode: u32, funct3: u32, rs1: u32, rs2: u32, halves: u32) -> u32
    requires opcode { opcode < 2 ^ 7 }
    requires funct3 { funct3 < 2 ^ 3 }
    requires rs1 { rs1 < 2 ^ 5 }
    requires rs2 { rs2 < 2 ^ 5 }
    requires halves { halves < 2 ^ 12 }
    ensures opcode { part result 0 7 ≡ opcode }
    ensures funct3 { part result 12 3 ≡ funct3 }
    ensures rs1 { rs1 ≡ part result 15 5 }
    ensures rs2 { rs2 ≡ part result 20 5 }
    ensures halves { halves ≡ part result 8 4 + 2 ^ 4 *
        (part result 25 6 + 2 ^ 6 * (part result 7 1 + 2 * part result 31 1)) }
{
    opcode
        | (halves >> 10 & 1) << 7
        | (halves & 15) << 8
        | funct3 << 12
        | rs1 << 15
        | rs2 << 20
        | (halves >> 4 & 63) << 25
        | (halves >> 11) << 31
}

/// The U format.
pub fn pack_u(opcode: u32, rd: u32, imm: u32) -> u32
    requires opcode { opcode < 2 ^ 7 }
    requires rd { rd < 2 ^ 5 }
    requires imm { imm < 2 ^ 20 }
    ensures opcode { part result 0 7 ≡ opcode }
    ensures rd { rd ≡ part result 7 5 }
    ensures imm { imm ≡ part result 12 20 }
{
    opcode | rd << 7 | imm << 12
}

/// The J format, whose digits are those of the offset in half-words.
pub fn pack_j(opcode: u32, rd: u32, halves: u32) -> u32
    requires opcode { opcode < 2 ^ 7 }
    requires rd { rd < 2 ^ 5 }
    requires halves { halves < 2 ^ 20 }
    ensures opcode { part result 0 7 ≡ opcode }
    ensures rd { rd ≡ part result 7 5 }
    ensures halves { halves ≡ part result 21 10 + 2 ^ 10 *
        (part result 20 1 + 2 * (part result 12 8 + 2 ^ 8 * part result 31 1)) }
{
    opcode
        | rd << 7
        | (halves >> 11 & 255) << 12
        | (halves >> 10 & 1) << 20
        | (halves & 1023) << 21
        | (halves >> 19) << 31
}

/// The five digits that spell a number from -16 to 15.
pub fn digits_5(value: i32) -> u32
    requires low { negsuc 15 ≤ℤ value }
    requires high { value ≤ℤ pos 15 }
    ensures in_range { result < 2 ^ 5 }
    ensures spelled { value ≡ signed 5 result }
{
    if value < 0 {
        (value + 32) as u32
    } else {
        value as u32
    }
}

/// What is in a word of the vector formats beside its opcode.
#[derive(Clone, Copy)]
pub struct VectorFields {
    pub vd: u32,
    pub funct3: u32,
    pub vs1: u32,
    pub vs2: u32,
    pub vm: bool,
    pub funct6: u32,
}

/// The vector formats: the R format with the mask bit below funct6. In loads and stores funct6 has the
/// addressing mode.
pub fn pack_v(opcode: u32, fields: VectorFields) -> u32
    requires opcode { opcode < 2 ^ 7 }
    requires vd { fields.vd < 2 ^ 5 }
    requires funct3 { fields.funct3 < 2 ^ 3 }
    requires vs1 { fields.vs1 < 2 ^ 5 }
    requires vs2 { fields.vs2 < 2 ^ 5 }
    requires funct6 { fields.funct6 < 2 ^ 6 }
    ensures opcode { part result 0 7 ≡ opcode }
    ensures vd { fields.vd ≡ part result 7 5 }
    ensures funct3 { part result 12 3 ≡ fields.funct3 }
    ensures vs1 { fields.vs1 ≡ part result 15 5 }
    ensures vs2 { fields.vs2 ≡ part result 20 5 }
    ensures vm { bit_of fields.vm ≡ part result 25 1 }
    ensures funct6 { part result 26 6 ≡ fields.funct6 }
{
    let VectorFields {
        vd,
        funct3,
        vs1,
        vs2,
        vm,
        funct6,
    } = fields;
    let mask = if vm { 1 } else { 0 };
    pack_r(opcode, vd, funct3, vs1, vs2, funct6 << 1 | mask)
}
