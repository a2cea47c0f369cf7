//! How operands are written.

/// How one operand is written, and which of its row's fields it gives. A field is named by its place in
/// the row's list of fields, from 0 on.
#[derive(Clone, Copy)]
pub enum Slot {
    /// `x0` to `x31`.
    Integer(usize),
    /// `v0` to `v31`.
    Vector(usize),
    /// `v0`, written out where a row always reads the mask. It gives no field.
    MaskRegister,
    /// A number from the least to the greatest.
    Number {
        field: usize,
        least: i64,
        greatest: i64,
    },
    /// The upper 20 bits of a word, a number from 0 to 1048575. A listing writes five hexadecimal digits.
    Upper(usize),
    /// `offset(base)`: a number from -2048 to 2047, and an integer register.
    Based {
        offset: usize,
        base: usize,
    },
    /// `(base)`: an integer register.
    Address(usize),
    /// A label, or an even number of bytes from the instruction on. The field counts half-words, from
    /// -`reach` to `reach - 1`.
    Target {
        field: usize,
        reach: i64,
    },
    /// A vtype: four names, or a number from 0 to the greatest.
    Configuration {
        field: usize,
        greatest: i64,
    },
    /// `v0.t` gives 0: only elements whose bit in v0 is 1. Nothing gives 1. It is a form's last slot.
    Mask(usize),
}
