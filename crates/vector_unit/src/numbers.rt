//! A list of at most 64 numbers, as many as a group has elements.

ghost use Rattle.std.specs.Prelude.{◌≡◌, ◌<◌, ◌++◌, length, [], ◌∷◌};

use std::marker::Model;

/// Numbers in order, at most 64. A contract sees the list.
#[derive(Drop)]
pub struct Numbers {
    numbers: [u32; 64],
    count: usize,
}

impl Model for Numbers {
    ghost use Rattle.std.specs.Prelude.{List, ℕ, ◌≤◌, take};

    ghost Value = { List ℕ };

    ghost view = { λ n. take n.count n.numbers };

    ghost invariant = { λ n. n.count ≤ 64 };
}

impl Numbers {
    /// No number.
    #[inline(always)]
    pub fn new() -> Numbers
        ensures { result ≡ [] }
    {
        Numbers {
            numbers: [0; 64],
            count: 0,
        }
    }

    /// Appends a number.
    #[inline(always)]
    pub fn push(&mut self, number: u32)
        requires { length self.old < 64 }
        ensures { self.new ≡ self.old ++ number ∷ [] }
    {
        self.numbers[self.count] = number;
        self.count += 1;
    }

    /// The numbers, the first one first.
    #[inline(always)]
    pub fn as_slice(&self) -> &[u32]
        ensures { result.now ≡ self.now }
    {
        &self.numbers[..self.count]
    }
}
