//! The lowest seven bits of a word, which name its group: the manual's chapter 24, table 24.1
//! "RISC-V base opcode map".

pub const LOAD: u32 = 0b000_0011;

pub const OP_IMM: u32 = 0b001_0011;

pub const LOAD_VECTOR: u32 = 0b000_0111;

pub const MISC_MEM: u32 = 0b000_1111;

pub const AUIPC: u32 = 0b001_0111;

pub const STORE: u32 = 0b010_0011;

pub const STORE_VECTOR: u32 = 0b010_0111;

pub const AMO: u32 = 0b010_1111;

pub const OP: u32 = 0b011_0011;

pub const LUI: u32 = 0b011_0111;

pub const OP_V: u32 = 0b101_0111;

pub const BRANCH: u32 = 0b110_0011;

pub const JALR: u32 = 0b110_0111;

pub const JAL: u32 = 0b110_1111;

pub const SYSTEM: u32 = 0b111_0011;

/// The whole word of `fence`, which orders accesses of all kinds before those of all kinds after.
pub const FENCE: u32 = 0x0FF0_000F;

/// The whole word of `ecall`, which has no field.
pub const ECALL: u32 = 0x0000_0073;

/// The whole word of `ebreak`, which has no field.
pub const EBREAK: u32 = 0x0010_0073;
