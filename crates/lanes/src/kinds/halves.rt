//! Elements of 16 bits.

ghost use Rattle.std.specs.Prelude.{refl};
ghost use Rattle.std.proofs.Common.{inl, inr};

use crate::kinds::LaneKind;

impl LaneKind for u16 {
    ghost width = { 16 };

    ghost number = { λ x. x };

    fn to_u32(self) -> u32 {
        u32::from(self)
    }

    fn to_i32(self) -> i32 {
        i32::from(self.cast_signed())
    }

    fn from_u32(value: u32) -> u16 {
        (value % 0x1_0000) as u16
    }

    fn read(register: &[u8; 16], index: usize) -> u16 {
        let at = 2 * index;
        u16::from_le_bytes([register[at], register[at + 1]])
    }

    fn write(self, register: &mut [u8; 16], index: usize) {
        let at = 2 * index;
        register[at..at + 2].copy_from_slice(&self.to_le_bytes());
    }

    fn add(self, other: u16) -> u16 {
        self.wrapping_add(other)
    }

    fn sub(self, other: u16) -> u16 {
        self.wrapping_sub(other)
    }

    fn and(self, other: u16) -> u16 {
        self & other
    }

    fn or(self, other: u16) -> u16 {
        self | other
    }

    fn xor(self, other: u16) -> u16 {
        self ^ other
    }

    fn shift_left(self, other: u16) -> u16 {
        self.wrapping_shl(u32::from(other))
    }

    fn shift_right_logical(self, other: u16) -> u16 {
        self.wrapping_shr(u32::from(other))
    }

    fn shift_right_arithmetic(self, other: u16) -> u16 {
        self.cast_signed()
            .wrapping_shr(u32::from(other))
            .cast_unsigned()
    }

    fn multiply(self, other: u16) -> u16 {
        self.wrapping_mul(other)
    }

    fn multiply_high_unsigned(self, other: u16) -> u16 {
        let product = u32::from(self) * u32::from(other);
        (product >> 16) as u16
    }

    fn multiply_high_signed(self, other: u16) -> u16 {
        let product = i32::from(self.cast_signed()) * i32::from(other.cast_signed());
        ((product >> 16) as i16).cast_unsigned()
    }

    fn multiply_high_signed_unsigned(self, other: u16) -> u16 {
        let product = i32::from(self.cast_signed()) * i32::from(other);
        ((product >> 16) as i16).cast_unsigned()
    }

    fn divide_unsigned(self, other: u16) -> u16 {
        if other == 0 { u16::MAX } else { self / other }
    }

    fn divide_signed(self, other: u16) -> u16 {
        if other == 0 {
            u16::MAX
        } else {
            self.cast_signed()
                .wrapping_div(other.cast_signed())
                .cast_unsigned()
        }
    }

    fn remainder_unsigned(self, other: u16) -> u16 {
        if other == 0 { self } else { self % other }
    }

    fn remainder_signed(self, other: u16) -> u16 {
        if other == 0 {
            self
        } else {
            self.cast_signed()
                .wrapping_rem(other.cast_signed())
                .cast_unsigned()
        }
    }

    ghost is_width = { inr (inl refl) };
}
