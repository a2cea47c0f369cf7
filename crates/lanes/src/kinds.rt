//! The kinds of elements, and the operations on two of them.

ghost use Rattle.std.specs.Prelude.{◌≡◌, ◌<◌, ◌/◌, ◌%◌, ◌^◌, ℕ};
ghost use Rattle.std.specs.Int.{w32, cast_unsigned};
ghost use Rattle.lanes.specs.Words as word;
ghost use Rattle.lanes.specs.Words.{IsWidth};
ghost use Rattle.lanes.specs.Words.{element, with_element};

mod bytes;
mod halves;
mod words;

/// A kind of element: `u8`, `u16` or `u32`.
///
/// Each operation is the one on words of `specs/Words.antt`, at the kind's width. At `u32` they are those
/// of the scalar instructions.
pub trait LaneKind: Copy {
    /// How many bits an element has.
    ghost width: { ℕ };

    /// The number that the bits are, read as unsigned.
    ghost number: { Self → ℕ };

    /// The element's number.
    fn to_u32(self) -> u32
        ensures value { result ≡ number self }
        ensures small { number self < 2 ^ width };

    /// The element's number, read as signed.
    fn to_i32(self) -> i32
        ensures { result ≡ word.signed width (number self) };

    /// The low bits of a number.
    fn from_u32(value: u32) -> Self
        ensures { number result ≡ value % 2 ^ width };

    /// The element at an index of a vector register.
    fn read(register: &[u8; 16], index: usize) -> Self
        requires { index < 128 / width }
        ensures { number result ≡ element width register.now index };

    /// Puts the element at an index of a vector register.
    fn write(self, register: &mut [u8; 16], index: usize)
        requires { index < 128 / width }
        ensures { register.new ≡ with_element width register.old index (number self) };

    /// The sum, modulo 2 to the width.
    fn add(self, other: Self) -> Self
        ensures { number result ≡ word.add width (number self) (number other) };

    /// This element minus the other one, modulo 2 to the width.
    fn sub(self, other: Self) -> Self
        ensures { number result ≡ word.sub width (number self) (number other) };

    /// The bits that are 1 in both.
    fn and(self, other: Self) -> Self
        ensures { number result ≡ word.and width (number self) (number other) };

    /// The bits that are 1 in either.
    fn or(self, other: Self) -> Self
        ensures { number result ≡ word.or width (number self) (number other) };

    /// The bits that differ.
    fn xor(self, other: Self) -> Self
        ensures { number result ≡ word.xor width (number self) (number other) };

    /// Shifted left by the other one, taken modulo the width.
    fn shift_left(self, other: Self) -> Self
        ensures { number result ≡ word.shift_left width (number self) (number other) };

    /// Shifted right by the other one, taken modulo the width; zeros come in.
    fn shift_right_logical(self, other: Self) -> Self
        ensures { number result ≡ word.shift_right_logical width (number self) (number other) };

    /// Shifted right by the other one, taken modulo the width; the sign bit comes in.
    fn shift_right_arithmetic(self, other: Self) -> Self
        ensures { number result ≡ word.shift_right_arithmetic width (number self) (number other) };

    /// The low half of the product.
    fn multiply(self, other: Self) -> Self
        ensures { number result ≡ word.multiply width (number self) (number other) };

    /// The high half of the product of two unsigned numbers.
    fn multiply_high_unsigned(self, other: Self) -> Self
        ensures { number result ≡ word.multiply_high_unsigned width (number self) (number other) };

    /// The high half of the product of two signed numbers.
    fn multiply_high_signed(self, other: Self) -> Self
        ensures { number result ≡ word.multiply_high_signed width (number self) (number other) };

    /// The high half of the product of this one, read as signed, and the other one, read as unsigned.
    fn multiply_high_signed_unsigned(self, other: Self) -> Self
        ensures { number result ≡ word.multiply_high_signed_unsigned width (number self) (number other) };

    /// The quotient of two unsigned numbers; by zero all bits are 1.
    fn divide_unsigned(self, other: Self) -> Self
        ensures { number result ≡ word.divide_unsigned width (number self) (number other) };

    /// The quotient of two signed numbers, toward zero; by zero all bits are 1, and the least number by -1
    /// is itself.
    fn divide_signed(self, other: Self) -> Self
        ensures { number result ≡ word.divide_signed width (number self) (number other) };

    /// The remainder of two unsigned numbers; by zero it is this one.
    fn remainder_unsigned(self, other: Self) -> Self
        ensures { number result ≡ word.remainder_unsigned width (number self) (number other) };

    /// The remainder of two signed numbers, with the sign of this one; by zero it is this one.
    fn remainder_signed(self, other: Self) -> Self
        ensures { number result ≡ word.remainder_signed width (number self) (number other) };

    /// Whether the two are equal.
    final fn equal(self, other: Self) -> bool
        ensures { result ≡ word.equal width (number self) (number other) }
    {
        self.to_u32() == other.to_u32()
    }

    /// Whether the two differ.
    final fn not_equal(self, other: Self) -> bool
        ensures { result ≡ word.not_equal width (number self) (number other) }
    {
        self.to_u32() != other.to_u32()
    }

    /// Whether this one is less, both read as unsigned.
    final fn less_unsigned(self, other: Self) -> bool
        ensures { result ≡ word.less_unsigned width (number self) (number other) }
    {
        self.to_u32() < other.to_u32()
    }

    /// Whether this one is less, both read as signed.
    final fn less_signed(self, other: Self) -> bool
        ensures { result ≡ word.less_signed width (number self) (number other) }
    {
        self.to_i32() < other.to_i32()
    }

    /// Whether this one is less or equal, both read as unsigned.
    final fn less_or_equal_unsigned(self, other: Self) -> bool
        ensures { result ≡ word.less_or_equal_unsigned width (number self) (number other) }
    {
        !other.less_unsigned(self)
    }

    /// Whether this one is less or equal, both read as signed.
    final fn less_or_equal_signed(self, other: Self) -> bool
        ensures { result ≡ word.less_or_equal_signed width (number self) (number other) }
    {
        !other.less_signed(self)
    }

    /// The lesser one, both read as unsigned.
    final fn min_unsigned(self, other: Self) -> Self
        ensures { number result ≡ word.min_unsigned width (number self) (number other) }
    {
        if other.less_unsigned(self) {
            other
        } else {
            self
        }
    }

    /// The lesser one, both read as signed.
    final fn min_signed(self, other: Self) -> Self
        ensures { number result ≡ word.min_signed width (number self) (number other) }
    {
        if other.less_signed(self) { other } else { self }
    }

    /// The greater one, both read as unsigned.
    final fn max_unsigned(self, other: Self) -> Self
        ensures { number result ≡ word.max_unsigned width (number self) (number other) }
    {
        if self.less_unsigned(other) {
            other
        } else {
            self
        }
    }

    /// The greater one, both read as signed.
    final fn max_signed(self, other: Self) -> Self
        ensures { number result ≡ word.max_signed width (number self) (number other) }
    {
        if self.less_signed(other) { other } else { self }
    }

    /// The width is one of the three.
    ghost is_width: { IsWidth width };
}
