//! Elements of 32 bits.

ghost use Rattle.std.specs.Prelude.{refl};
ghost use Rattle.std.proofs.Common.{inl, inr};

use crate::kinds::LaneKind;

impl LaneKind for u32 {
    ghost width = { 32 };

    ghost number = { λ x. x };

    fn to_u32(self) -> u32 {
        self
    }

    fn to_i32(self) -> i32 {
        self.cast_signed()
    }

    fn from_u32(value: u32) -> u32 {
        value
    }

    fn read(register: &[u8; 16], index: usize) -> u32 {
        let at = 4 * index;
        u32::from_le_bytes([
            register[at],
            register[at + 1],
            register[at + 2],
            register[at + 3],
        ])
    }

    fn write(self, register: &mut [u8; 16], index: usize) {
        let at = 4 * index;
        register[at..at + 4].copy_from_slice(&self.to_le_bytes());
    }

    fn add(self, other: u32) -> u32 {
        self.wrapping_add(other)
    }

    fn sub(self, other: u32) -> u32 {
        self.wrapping_sub(other)
    }

    fn and(self, other: u32) -> u32 {
        self & other
    }

    fn or(self, other: u32) -> u32 {
        self | other
    }

    fn xor(self, other: u32) -> u32 {
        self ^ other
    }

    fn shift_left(self, other: u32) -> u32 {
        self.wrapping_shl(other)
    }

    fn shift_right_logical(self, other: u32) -> u32 {
        self.wrapping_shr(other)
    }

    fn shift_right_arithmetic(self, other: u32) -> u32 {
        self.cast_signed().wrapping_shr(other).cast_unsigned()
    }

    fn multiply(self, other: u32) -> u32 {
        self.wrapping_mul(other)
    }

    fn multiply_high_unsigned(self, other: u32) -> u32 {
        let product = u64::from(self) * u64::from(other);
        (product >> 32) as u32
    }

    fn multiply_high_signed(self, other: u32) -> u32 {
        let product = i64::from(self.cast_signed()) * i64::from(other.cast_signed());
        ((product >> 32) as i32).cast_unsigned()
    }

    fn multiply_high_signed_unsigned(self, other: u32) -> u32 {
        let product = i64::from(self.cast_signed()) * i64::from(other);
        ((product >> 32) as i32).cast_unsigned()
    }

    fn divide_unsigned(self, other: u32) -> u32 {
        if other == 0 { u32::MAX } else { self / other }
    }

    fn divide_signed(self, other: u32) -> u32 {
        if other == 0 {
            u32::MAX
        } else {
            self.cast_signed()
                .wrapping_div(other.cast_signed())
                .cast_unsigned()
        }
    }

    fn remainder_unsigned(self, other: u32) -> u32 {
        if other == 0 { self } else { self % other }
    }

    fn remainder_signed(self, other: u32) -> u32 {
        if other == 0 {
            self
        } else {
            self.cast_signed()
                .wrapping_rem(other.cast_signed())
                .cast_unsigned()
        }
    }

    ghost is_width = { inr (inr refl) };
}
