//! The numbers that stand in an instruction, each in the range that its bits can spell.

ghost use Rattle.std.specs.Prelude.{◌≡◌, ◌<◌, ◌^◌, pos, negsuc, ◌≤ℤ◌, ◌*ℤ◌, SomeIff};

use std::marker::Model;

/// A signed number of 12 bits, -2048 to 2047: the immediate of the I and S formats.
#[derive(Clone, Copy, Debug, PartialEq, Eq)]
pub struct Imm12 {
    value: i32,
}

impl Model for Imm12 {
    ghost use Rattle.std.specs.Prelude.{ℤ, pos, negsuc, ◌≤ℤ◌};

    ghost Value = { ℤ };

    ghost view = { λ imm. imm.value };

    ghost invariant = { λ imm. (negsuc 2047 ≤ℤ imm.value) × (imm.value ≤ℤ pos 2047) };

    ghost inverse = { λ z. record { value = z } };
}

impl Imm12 {
    /// The immediate of a number from -2048 to 2047, and `None` for any other number.
    pub fn new(value: i32) -> Option<Imm12>
        ensures { SomeIff result ((negsuc 2047 ≤ℤ value) × (value ≤ℤ pos 2047)) value }
    {
        if value >= -2048 && value <= 2047 {
            Some(Imm12 { value })
        } else {
            None
        }
    }

    /// The number itself.
    pub fn value(self) -> i32
        ensures value { result ≡ self }
        ensures low { negsuc 2047 ≤ℤ result }
        ensures high { result ≤ℤ pos 2047 }
    {
        self.value
    }
}

/// The upper 20 bits of a word, 0 to 1,048,575: the immediate of the U format.
#[derive(Clone, Copy, Debug, PartialEq, Eq)]
pub struct Imm20 {
    value: u32,
}

impl Model for Imm20 {
    ghost use Rattle.std.specs.Prelude.{ℕ, ◌<◌, ◌^◌};

    ghost Value = { ℕ };

    ghost view = { λ imm. imm.value };

    ghost invariant = { λ imm. imm.value < 2 ^ 20 };

    ghost inverse = { λ n. record { value = n } };
}

impl Imm20 {
    /// The immediate of a number below 2^20, and `None` for any other number.
    pub fn new(value: u32) -> Option<Imm20>
        ensures { SomeIff result (value < 2 ^ 20) value }
    {
        if value < 1 << 20 {
            Some(Imm20 { value })
        } else {
            None
        }
    }

    /// The 20 bits as a number, not yet shifted to their place.
    pub fn value(self) -> u32
        ensures value { result ≡ self }
        ensures in_range { result < 2 ^ 20 }
    {
        self.value
    }
}

/// How far a branch goes: -2048 to 2047 half-words, that is -4096 to 4094 bytes. A contract sees
/// the half-words, which are what the B format spells, so that no offset is ever odd.
#[derive(Clone, Copy, Debug, PartialEq, Eq)]
pub struct BranchOffset {
    halves: i32,
}

impl Model for BranchOffset {
    ghost use Rattle.std.specs.Prelude.{ℤ, pos, negsuc, ◌≤ℤ◌};

    ghost Value = { ℤ };

    ghost view = { λ offset. offset.halves };

    ghost invariant = { λ offset. (negsuc 2047 ≤ℤ offset.halves) × (offset.halves ≤ℤ pos 2047) };

    ghost inverse = { λ z. record { halves = z } };
}

impl BranchOffset {
    /// The offset of -2048 to 2047 half-words, and `None` for any other number.
    pub fn new(halves: i32) -> Option<BranchOffset>
        ensures { SomeIff result ((negsuc 2047 ≤ℤ halves) × (halves ≤ℤ pos 2047)) halves }
    {
        if halves >= -2048 && halves <= 2047 {
            Some(BranchOffset { halves })
        } else {
            None
        }
    }

    /// The offset in half-words.
    pub fn halves(self) -> i32
        ensures value { result ≡ self }
        ensures low { negsuc 2047 ≤ℤ result }
        ensures high { result ≤ℤ pos 2047 }
    {
        self.halves
    }

    /// The offset in bytes, always even.
    pub fn bytes(self) -> i32
        ensures { result ≡ pos 2 *ℤ self }
    {
        2 * self.halves
    }
}

/// How far a jump goes: -524,288 to 524,287 half-words, that is -1,048,576 to 1,048,574 bytes. A
/// contract sees the half-words, which are what the J format spells.
#[derive(Clone, Copy, Debug, PartialEq, Eq)]
pub struct JumpOffset {
    halves: i32,
}

impl Model for JumpOffset {
    ghost use Rattle.std.specs.Prelude.{ℤ, pos, negsuc, ◌≤ℤ◌};

    ghost Value = { ℤ };

    ghost view = { λ offset. offset.halves };

    ghost invariant = { λ offset. (negsuc 524287 ≤ℤ offset.halves) × (offset.halves ≤ℤ pos 524287) };

    ghost inverse = { λ z. record { halves = z } };
}

impl JumpOffset {
    /// The offset of -524,288 to 524,287 half-words, and `None` for any other number.
    pub fn new(halves: i32) -> Option<JumpOffset>
        ensures { SomeIff result ((negsuc 524287 ≤ℤ halves) × (halves ≤ℤ pos 524287)) halves }
    {
        if halves >= -524288 && halves <= 524287 {
            Some(JumpOffset { halves })
        } else {
            None
        }
    }

    /// The offset in half-words.
    pub fn halves(self) -> i32
        ensures value { result ≡ self }
        ensures low { negsuc 524287 ≤ℤ result }
        ensures high { result ≤ℤ pos 524287 }
    {
        self.halves
    }

    /// The offset in bytes, always even.
    pub fn bytes(self) -> i32
        ensures { result ≡ pos 2 *ℤ self }
    {
        2 * self.halves
    }
}

/// How far a shift goes, 0 to 31 bits.
#[derive(Clone, Copy, Debug, PartialEq, Eq)]
pub struct ShiftAmount {
    value: u8,
}

impl Model for ShiftAmount {
    ghost use Rattle.std.specs.Prelude.{ℕ, ◌<◌};

    ghost Value = { ℕ };

    ghost view = { λ amount. amount.value };

    ghost invariant = { λ amount. amount.value < 32 };

    ghost inverse = { λ n. record { value = n } };
}

impl ShiftAmount {
    /// The amount of a number from 0 to 31, and `None` for any other number.
    pub fn new(value: u8) -> Option<ShiftAmount>
        ensures { SomeIff result (value < 32) value }
    {
        if value < 32 {
            Some(ShiftAmount { value })
        } else {
            None
        }
    }

    /// The number of bits.
    pub fn value(self) -> u8
        ensures value { result ≡ self }
        ensures in_range { result < 32 }
    {
        self.value
    }
}

/// A signed number of 5 bits, -16 to 15: the immediate of vector instructions.
#[derive(Clone, Copy, Debug, PartialEq, Eq)]
pub struct Imm5 {
    value: i32,
}

impl Model for Imm5 {
    ghost use Rattle.std.specs.Prelude.{ℤ, pos, negsuc, ◌≤ℤ◌};

    ghost Value = { ℤ };

    ghost view = { λ imm. imm.value };

    ghost invariant = { λ imm. (negsuc 15 ≤ℤ imm.value) × (imm.value ≤ℤ pos 15) };

    ghost inverse = { λ z. record { value = z } };
}

impl Imm5 {
    /// The immediate of a number from -16 to 15, and `None` for any other number.
    pub fn new(value: i32) -> Option<Imm5>
        ensures { SomeIff result ((negsuc 15 ≤ℤ value) × (value ≤ℤ pos 15)) value }
    {
        if value >= -16 && value <= 15 {
            Some(Imm5 { value })
        } else {
            None
        }
    }

    /// The number itself.
    pub fn value(self) -> i32
        ensures value { result ≡ self }
        ensures low { negsuc 15 ≤ℤ result }
        ensures high { result ≤ℤ pos 15 }
    {
        self.value
    }
}

/// How many elements `vsetivli` asks for, 0 to 31.
#[derive(Clone, Copy, Debug, PartialEq, Eq)]
pub struct Length5 {
    value: u32,
}

impl Model for Length5 {
    ghost use Rattle.std.specs.Prelude.{ℕ, ◌<◌, ◌^◌};

    ghost Value = { ℕ };

    ghost view = { λ v. v.value };

    ghost invariant = { λ v. v.value < 2 ^ 5 };

    ghost inverse = { λ n. record { value = n } };
}

impl Length5 {
    /// The value of a number below 2^5, and `None` for any other number.
    pub fn new(value: u32) -> Option<Length5>
        ensures { SomeIff result (value < 2 ^ 5) value }
    {
        if value < 1 << 5 {
            Some(Length5 { value })
        } else {
            None
        }
    }

    /// The number of elements.
    pub fn value(self) -> u32
        ensures value { result ≡ self }
        ensures in_range { result < 2 ^ 5 }
    {
        self.value
    }
}

/// The low 10 bits of a vtype, 0 to 1,023, which `vsetivli` carries.
#[derive(Clone, Copy, Debug, PartialEq, Eq)]
pub struct Vtype10 {
    value: u32,
}

impl Model for Vtype10 {
    ghost use Rattle.std.specs.Prelude.{ℕ, ◌<◌, ◌^◌};

    ghost Value = { ℕ };

    ghost view = { λ v. v.value };

    ghost invariant = { λ v. v.value < 2 ^ 10 };

    ghost inverse = { λ n. record { value = n } };
}

impl Vtype10 {
    /// The value of a number below 2^10, and `None` for any other number.
    pub fn new(value: u32) -> Option<Vtype10>
        ensures { SomeIff result (value < 2 ^ 10) value }
    {
        if value < 1 << 10 {
            Some(Vtype10 { value })
        } else {
            None
        }
    }

    /// The bits as a number.
    pub fn value(self) -> u32
        ensures value { result ≡ self }
        ensures in_range { result < 2 ^ 10 }
    {
        self.value
    }
}

/// The low 11 bits of a vtype, 0 to 2,047, which `vsetvli` carries.
#[derive(Clone, Copy, Debug, PartialEq, Eq)]
pub struct Vtype11 {
    value: u32,
}

impl Model for Vtype11 {
    ghost use Rattle.std.specs.Prelude.{ℕ, ◌<◌, ◌^◌};

    ghost Value = { ℕ };

    ghost view = { λ v. v.value };

    ghost invariant = { λ v. v.value < 2 ^ 11 };

    ghost inverse = { λ n. record { value = n } };
}

impl Vtype11 {
    /// The value of a number below 2^11, and `None` for any other number.
    pub fn new(value: u32) -> Option<Vtype11>
        ensures { SomeIff result (value < 2 ^ 11) value }
    {
        if value < 1 << 11 {
            Some(Vtype11 { value })
        } else {
            None
        }
    }

    /// The bits as a number.
    pub fn value(self) -> u32
        ensures value { result ≡ self }
        ensures in_range { result < 2 ^ 11 }
    {
        self.value
    }
}
