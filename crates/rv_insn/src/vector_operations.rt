//! The operations of each group of vector instructions. A group and an operation name one row of the
//! instruction table. RISC-V Vector Extension 1.0, chapters 11 and 14.

/// The operations on elements of two vector registers.
#[derive(Clone, Copy, Debug, PartialEq, Eq)]
pub enum ArithmeticVvOp {
    /// Adds.
    Vadd,
    /// Subtracts the other operand from `vs2`.
    Vsub,
    /// The lesser, both unsigned.
    Vminu,
    /// The lesser, both signed.
    Vmin,
    /// The greater, both unsigned.
    Vmaxu,
    /// The greater, both signed.
    Vmax,
    /// The and, bit by bit.
    Vand,
    /// The or, bit by bit.
    Vor,
    /// The exclusive or, bit by bit.
    Vxor,
    /// Shifts to the left, with zeros from below.
    Vsll,
    /// Shifts to the right, with zeros from above.
    Vsrl,
    /// Shifts to the right, with copies of the sign from above.
    Vsra,
}

/// The operations on elements of a vector register and an integer register.
#[derive(Clone, Copy, Debug, PartialEq, Eq)]
pub enum ArithmeticVxOp {
    /// Adds.
    Vadd,
    /// Subtracts the other operand from `vs2`.
    Vsub,
    /// Subtracts `vs2` from the other operand.
    Vrsub,
    /// The lesser, both unsigned.
    Vminu,
    /// The lesser, both signed.
    Vmin,
    /// The greater, both unsigned.
    Vmaxu,
    /// The greater, both signed.
    Vmax,
    /// The and, bit by bit.
    Vand,
    /// The or, bit by bit.
    Vor,
    /// The exclusive or, bit by bit.
    Vxor,
    /// Shifts to the left, with zeros from below.
    Vsll,
    /// Shifts to the right, with zeros from above.
    Vsrl,
    /// Shifts to the right, with copies of the sign from above.
    Vsra,
}

/// The operations on elements of a vector register and a signed immediate.
#[derive(Clone, Copy, Debug, PartialEq, Eq)]
pub enum ArithmeticViOp {
    /// Adds.
    Vadd,
    /// Subtracts `vs2` from the other operand.
    Vrsub,
    /// The and, bit by bit.
    Vand,
    /// The or, bit by bit.
    Vor,
    /// The exclusive or, bit by bit.
    Vxor,
}

/// The shifts of elements of a vector register by an amount in the word.
#[derive(Clone, Copy, Debug, PartialEq, Eq)]
pub enum ShiftViOp {
    /// Shifts to the left, with zeros from below.
    Vsll,
    /// Shifts to the right, with zeros from above.
    Vsrl,
    /// Shifts to the right, with copies of the sign from above.
    Vsra,
}

/// The comparisons of elements of two vector registers.
#[derive(Clone, Copy, Debug, PartialEq, Eq)]
pub enum CompareVvOp {
    /// Whether both are equal.
    Vmseq,
    /// Whether they differ.
    Vmsne,
    /// Whether `vs2` is less, both unsigned.
    Vmsltu,
    /// Whether `vs2` is less, both signed.
    Vmslt,
    /// Whether `vs2` is less or equal, both unsigned.
    Vmsleu,
    /// Whether `vs2` is less or equal, both signed.
    Vmsle,
}

/// The comparisons of elements of a vector register with an integer register.
#[derive(Clone, Copy, Debug, PartialEq, Eq)]
pub enum CompareVxOp {
    /// Whether both are equal.
    Vmseq,
    /// Whether they differ.
    Vmsne,
    /// Whether `vs2` is less, both unsigned.
    Vmsltu,
    /// Whether `vs2` is less, both signed.
    Vmslt,
    /// Whether `vs2` is less or equal, both unsigned.
    Vmsleu,
    /// Whether `vs2` is less or equal, both signed.
    Vmsle,
    /// Whether `vs2` is greater, both unsigned.
    Vmsgtu,
    /// Whether `vs2` is greater, both signed.
    Vmsgt,
}

/// The comparisons of elements of a vector register with a signed immediate.
#[derive(Clone, Copy, Debug, PartialEq, Eq)]
pub enum CompareViOp {
    /// Whether both are equal.
    Vmseq,
    /// Whether they differ.
    Vmsne,
    /// Whether `vs2` is less or equal, both unsigned.
    Vmsleu,
    /// Whether `vs2` is less or equal, both signed.
    Vmsle,
    /// Whether `vs2` is greater, both unsigned.
    Vmsgtu,
    /// Whether `vs2` is greater, both signed.
    Vmsgt,
}

/// The multiplications and divisions of elements, by a vector register or an integer register.
#[derive(Clone, Copy, Debug, PartialEq, Eq)]
pub enum MultiplyOp {
    /// The quotient, both unsigned.
    Vdivu,
    /// The quotient toward zero, both signed.
    Vdiv,
    /// The remainder, both unsigned.
    Vremu,
    /// The remainder, both signed.
    Vrem,
    /// The high half of the product, both unsigned.
    Vmulhu,
    /// The low half of the product.
    Vmul,
    /// The high half of the product, `vs2` signed and the other operand unsigned.
    Vmulhsu,
    /// The high half of the product, both signed.
    Vmulh,
}

/// The reductions of the elements of a vector register to one.
#[derive(Clone, Copy, Debug, PartialEq, Eq)]
pub enum ReductionOp {
    /// The sum.
    Vredsum,
    /// The least, unsigned.
    Vredminu,
    /// The least, signed.
    Vredmin,
    /// The greatest, unsigned.
    Vredmaxu,
    /// The greatest, signed.
    Vredmax,
}

/// How wide the elements of a vector load or store are, or the offsets of an indexed one.
#[derive(Clone, Copy, Debug, PartialEq, Eq)]
pub enum ElementWidth {
    /// One byte.
    Bits8,
    /// Two bytes.
    Bits16,
    /// Four bytes.
    Bits32,
}

/// How a vector load or store is addressed.
#[derive(Clone, Copy, Debug, PartialEq, Eq)]
pub enum AddressMode {
    /// The elements lie one after the other.
    UnitStride,
    /// They lie as many bytes apart as an integer register says.
    Strided,
    /// They lie at the offsets in a vector register.
    Indexed,
}
