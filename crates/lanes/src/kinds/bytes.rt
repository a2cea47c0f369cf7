//! Elements of 8 bits.

ghost use Rattle.std.specs.Prelude.{refl};
ghost use Rattle.std.proofs.Common.{inl, inr};

use crate::kinds::LaneKind;

impl LaneKind for u8 {
    ghost width = { 8 };

    ghost number = { λ x. x };

    fn to_u32(self) -> u32 {
        u32::from(self)
    }

    fn to_i32(self) -> i32 {
        i32::from(self.cast_signed())
    }

    fn from_u32(value: u32) -> u8 {
        (value % 0x100) as u8
    }

    fn read(register: &[u8; 16], index: usize) -> u8 {
        register[index]
    }

    fn write(self, register: &mut [u8; 16], index: usize) {
        register[index] = self;
    }

    fn add(self, other: u8) -> u8 {
        self.wrapping_add(other)
    }

    fn sub(self, other: u8) -> u8 {
        self.wrapping_sub(other)
    }

    fn and(self, other: u8) -> u8 {
        self & other
    }

    fn or(self, other: u8) -> u8 {
        self | other
    }

    fn xor(self, other: u8) -> u8 {
        self ^ other
    }

    fn shift_left(self, other: u8) -> u8 {
        self.wrapping_shl(u32::from(other))
    }

    fn shift_right_logical(self, other: u8) -> u8 {
        self.wrapping_shr(u32::from(other))
    }

    fn shift_right_arithmetic(self, other: u8) -> u8 {
        self.cast_signed()
            .wrapping_shr(u32::from(other))
            .cast_unsigned()
    }

    fn multiply(self, other: u8) -> u8 {
        self.wrapping_mul(other)
    }

    fn multiply_high_unsigned(self, other: u8) -> u8 {
        let product = u16::from(self) * u16::from(other);
        (product >> 8) as u8
    }

    fn multiply_high_signed(self, other: u8) -> u8 {
        let product = i16::from(self.cast_signed()) * i16::from(other.cast_signed());
        ((product >> 8) as i8).cast_unsigned()
    }

    fn multiply_high_signed_unsigned(self, other: u8) -> u8 {
        let product = i16::from(self.cast_signed()) * i16::from(other);
        ((product >> 8) as i8).cast_unsigned()
    }

    fn divide_unsigned(self, other: u8) -> u8 {
        if other == 0 { u8::MAX } else { self / other }
    }

    fn divide_signed(self, other: u8) -> u8 {
        if other == 0 {
            u8::MAX
        } else {
            self.cast_signed()
                .wrapping_div(other.cast_signed())
                .cast_unsigned()
        }
    }

    fn remainder_unsigned(self, other: u8) -> u8 {
        if other == 0 { self } else { self % other }
    }

    fn remainder_signed(self, other: u8) -> u8 {
        if other == 0 {
            self
        } else {
            self.cast_signed()
                .wrapping_rem(other.cast_signed())
                .cast_unsigned()
        }
    }

    ghost is_width = { inl refl };
}
