//! The operations of each group of instructions. A group and an operation name one row of the
//! instruction table.

/// The conditional branches.
#[derive(Clone, Copy, Debug, PartialEq, Eq)]
pub enum BranchOp {
    /// Branches where both registers hold the same number.
    Beq,
    /// Branches where the registers hold different numbers.
    Bne,
    /// Branches where `rs1` is less than `rs2`, both signed.
    Blt,
    /// Branches where `rs1` is at least `rs2`, both signed.
    Bge,
    /// Branches where `rs1` is less than `rs2`, both unsigned.
    Bltu,
    /// Branches where `rs1` is at least `rs2`, both unsigned.
    Bgeu,
}

/// The loads.
#[derive(Clone, Copy, Debug, PartialEq, Eq)]
pub enum LoadOp {
    /// Loads a byte and extends its sign.
    Lb,
    /// Loads a half-word of 16 bits and extends its sign.
    Lh,
    /// Loads a word of 32 bits.
    Lw,
    /// Loads a byte, with zeros above it.
    Lbu,
    /// Loads a half-word of 16 bits, with zeros above it.
    Lhu,
}

/// The stores.
#[derive(Clone, Copy, Debug, PartialEq, Eq)]
pub enum StoreOp {
    /// Stores the lowest byte.
    Sb,
    /// Stores the lower half-word of 16 bits.
    Sh,
    /// Stores a word of 32 bits.
    Sw,
}

/// The operations on a register and an immediate.
#[derive(Clone, Copy, Debug, PartialEq, Eq)]
pub enum AluImmOp {
    /// Adds, modulo 2^32.
    Addi,
    /// Gives 1 where `rs1` is less than the immediate, both signed, else 0.
    Slti,
    /// Gives 1 where `rs1` is less than the sign-extended immediate, both unsigned, else 0.
    Sltiu,
    /// The exclusive or, bit by bit.
    Xori,
    /// The or, bit by bit.
    Ori,
    /// The and, bit by bit.
    Andi,
}

/// The shifts by an amount that is in the word.
#[derive(Clone, Copy, Debug, PartialEq, Eq)]
pub enum ShiftOp {
    /// Shifts to the left, with zeros from below.
    Slli,
    /// Shifts to the right, with zeros from above.
    Srli,
    /// Shifts to the right, with copies of the sign from above.
    Srai,
}

/// The operations on two registers, the multiplications and divisions of the extension M among them.
#[derive(Clone, Copy, Debug, PartialEq, Eq)]
pub enum AluOp {
    /// Adds, modulo 2^32.
    Add,
    /// Subtracts `rs2` from `rs1`, modulo 2^32.
    Sub,
    /// Shifts to the left by the low 5 bits of `rs2`, with zeros from below.
    Sll,
    /// Gives 1 where `rs1` is less than `rs2`, both signed, else 0.
    Slt,
    /// Gives 1 where `rs1` is less than `rs2`, both unsigned, else 0.
    Sltu,
    /// The exclusive or, bit by bit.
    Xor,
    /// Shifts to the right by the low 5 bits of `rs2`, with zeros from above.
    Srl,
    /// Shifts to the right by the low 5 bits of `rs2`, with copies of the sign from above.
    Sra,
    /// The or, bit by bit.
    Or,
    /// The and, bit by bit.
    And,
    /// The low 32 bits of the product.
    Mul,
    /// The high 32 bits of the product, both signed.
    Mulh,
    /// The high 32 bits of the product, `rs1` signed and `rs2` unsigned.
    Mulhsu,
    /// The high 32 bits of the product, both unsigned.
    Mulhu,
    /// The quotient toward zero, both signed; all ones where `rs2` is 0.
    Div,
    /// The quotient, both unsigned; all ones where `rs2` is 0.
    Divu,
    /// The remainder, which has the sign of `rs1`, both signed; `rs1` where `rs2` is 0.
    Rem,
    /// The remainder, both unsigned; `rs1` where `rs2` is 0.
    Remu,
}
