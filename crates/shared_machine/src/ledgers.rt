//! The ledgers of a machine's harts.

ghost use Rattle.std.specs.Prelude.{◌≡◌, ℕ, ◌+◌};

use std::marker::{Brand, PhantomData};
use std::sync::ledger::{Blank, Book, Ledger, Share};

/// Stands, in a type, for two ledgers a hart, by their names: one of its number of turns, one of their tally.
pub trait Ledgers {
    ghost numbers: { ℕ → ℕ };

    ghost tallies: { ℕ → ℕ };
}

impl Ledgers for Brand {
    ghost numbers = { λ hart. 0 };

    ghost tallies = { λ hart. 0 };
}

/// The ledger of a hart's number of turns. It has one share.
pub struct Number<F: Ledgers, const HART: usize>(PhantomData<F>);

impl<F: Ledgers, const HART: usize> Ledger for Number<F, HART> {
    ghost name = { F.numbers HART };

    ghost parts = { 1 };
}

/// The ledger of a hart's tally. It has one share.
pub struct Tally<F: Ledgers, const HART: usize>(PhantomData<F>);

impl<F: Ledgers, const HART: usize> Ledger for Tally<F, HART> {
    ghost name = { F.tallies HART };

    ghost parts = { 1 };
}

/// Two ledgers that no hart has yet.
#[derive(Drop)]
pub struct HartBlanks {
    pub number: Blank,
    pub tally: Blank,
    ghost parts: { (number.parts ≡ 1) × (tally.parts ≡ 1) },
}

impl HartBlanks {
    /// Two new ones.
    pub fn new() -> HartBlanks {
        HartBlanks {
            number: Blank::new(1),
            tally: Blank::new(1),
        }
    }
}

/// What is known of a hart's turns under the lock: how many they are, and their tally.
#[derive(Drop)]
pub struct HartBooks<F: Ledgers, const HART: usize> {
    pub(crate) number: Book<Number<F, HART>>,
    pub(crate) tally: Book<Tally<F, HART>>,
}

/// The same in the hart's seat.
#[derive(Drop)]
pub struct HartShares<F: Ledgers, const HART: usize> {
    pub(crate) number: Share<Number<F, HART>>,
    pub(crate) tally: Share<Tally<F, HART>>,
    ghost whole: { (number.parts ≡ 1) × (tally.parts ≡ 1) },
}

/// A hart's ledgers, before any turn.
pub(crate) fn open<F: Ledgers, const HART: usize>(
    blanks: HartBlanks,
) -> (HartBooks<F, HART>, HartShares<F, HART>)
    requires number { blanks.number.name ≡ F.numbers HART }
    requires tally { blanks.tally.name ≡ F.tallies HART }
    ensures books { (result.0.number.total ≡ 0) × (result.0.tally.total ≡ 0) }
    ensures shares { (result.1.number.amount ≡ 0) × (result.1.tally.amount ≡ 0) }
{
    let HartBlanks { number, tally } = blanks;
    let (number_book, number) = number.open::<Number<F, HART>>();
    let (tally_book, tally) = tally.open::<Tally<F, HART>>();
    let books = HartBooks {
        number: number_book,
        tally: tally_book,
    };
    (books, HartShares { number, tally })
}

impl<F: Ledgers, const HART: usize> HartBooks<F, HART> {
    /// The seat and the books know the same.
    pub(crate) fn agree(&mut self, shares: &mut HartShares<F, HART>)
        ensures books { (self.new.number.total ≡ self.old.number.total)
            × (self.new.tally.total ≡ self.old.tally.total) }
        ensures shares { (shares.new.number.amount ≡ shares.old.number.amount)
            × (shares.new.tally.amount ≡ shares.old.tally.amount) }
        ensures same { (shares.old.number.amount ≡ self.old.number.total)
            × (shares.old.tally.amount ≡ self.old.tally.total) }
    {
        self.number.audit(&mut shares.number);
        self.tally.audit(&mut shares.tally);
    }

    /// This many turns more, with the sum of the codes of their outcomes.
    pub(crate) fn count(&mut self, shares: &mut HartShares<F, HART>, turns: u64, codes: u64)
        ensures books { (self.new.number.total ≡ self.old.number.total + turns)
            × (self.new.tally.total ≡ self.old.tally.total + codes) }
        ensures shares { (shares.new.number.amount ≡ shares.old.number.amount + turns)
            × (shares.new.tally.amount ≡ shares.old.tally.amount + codes) }
    {
        self.number.add(&mut shares.number, turns);
        self.tally.add(&mut shares.tally, codes);
    }
}
