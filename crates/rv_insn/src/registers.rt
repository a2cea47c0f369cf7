//! Register numbers.

ghost use Rattle.std.specs.Prelude.{◌≡◌, ◌<◌, SomeIff};

use std::marker::Model;

/// One of the 32 integer registers x0 to x31. A contract sees its number.
#[derive(Clone, Copy, Debug, PartialEq, Eq)]
pub struct Reg {
    number: u8,
}

impl Model for Reg {
    ghost use Rattle.std.specs.Prelude.{ℕ, ◌<◌};

    ghost Value = { ℕ };

    ghost view = { λ r. r.number };

    ghost invariant = { λ r. r.number < 32 };

    ghost inverse = { λ n. record { number = n } };
}

impl Reg {
    /// The register of a number from 0 to 31, and `None` for any other number.
    pub fn new(number: u8) -> Option<Reg>
        ensures { SomeIff result (number < 32) number }
    {
        if number < 32 {
            Some(Reg { number })
        } else {
            None
        }
    }

    /// The register's number, from 0 to 31.
    pub fn number(self) -> u8
        ensures value { result ≡ self }
        ensures in_range { result < 32 }
    {
        self.number
    }
}

/// One of the 32 vector registers v0 to v31. A contract sees its number.
#[derive(Clone, Copy, Debug, PartialEq, Eq)]
pub struct VReg {
    number: u8,
}

impl Model for VReg {
    ghost use Rattle.std.specs.Prelude.{ℕ, ◌<◌};

    ghost Value = { ℕ };

    ghost view = { λ r. r.number };

    ghost invariant = { λ r. r.number < 32 };

    ghost inverse = { λ n. record { number = n } };
}

impl VReg {
    /// The register of a number from 0 to 31, and `None` for any other number.
    pub fn new(number: u8) -> Option<VReg>
        ensures { SomeIff result (number < 32) number }
    {
        if number < 32 {
            Some(VReg { number })
        } else {
            None
        }
    }

    /// The register's number, from 0 to 31.
    pub fn number(self) -> u8
        ensures value { result ≡ self }
        ensures in_range { result < 32 }
    {
        self.number
    }
}
