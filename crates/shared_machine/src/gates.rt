//! What a thread asks before a turn, and tells after it.

ghost use Rattle.std.specs.Prelude.{◌≡◌, Bool, true};

/// Asked before each turn of a seat that [`drive`](crate::drive) makes, and told of it afterwards, both outside the
/// lock. The number is which turn of the seat it is, from 1 on.
pub trait Gate {
    ghost OPEN: { Bool };

    /// Whether [`before`](Gate::before) always answers true.
    const OPEN: bool;

    /// Whether the turn may be made. The thread ends where it may not.
    fn before(&self, hart: usize, number: u64) -> bool
        ensures { OPEN ≡ true → result ≡ true };

    /// Told of a turn that was made.
    fn after(&self, hart: usize, number: u64);
}

/// A gate that is always open.
#[derive(Clone, Copy, Debug)]
pub struct AlwaysOpen;

impl Gate for AlwaysOpen {
    ghost OPEN = { true };

    const OPEN: bool = true;

    fn before(&self, _hart: usize, _number: u64) -> bool {
        true
    }

    fn after(&self, _hart: usize, _number: u64) {}
}
