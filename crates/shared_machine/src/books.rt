//! The ledgers of all harts together.

ghost use Rattle.std.specs.Prelude.{◌≡◌, ◌+◌, slice_index, slice_set};
ghost use Rattle.shared_machine.specs.Tallies.{AreNamed, AreSharesAt, hart_of, number_in, tally_in, numbers_of};
ghost use Rattle.shared_machine.specs.Tallies.{tallies_of, zeros};

use crate::ledgers::{HartBlanks, HartBooks, HartShares, Ledgers, open};

/// Two ledgers for each of eight harts, which no hart has yet.
#[derive(Drop)]
pub struct Blanks {
    hart0: HartBlanks,
    hart1: HartBlanks,
    hart2: HartBlanks,
    hart3: HartBlanks,
    hart4: HartBlanks,
    hart5: HartBlanks,
    hart6: HartBlanks,
    hart7: HartBlanks,
}

impl Blanks {
    /// New ones.
    pub fn new() -> Blanks {
        Blanks {
            hart0: HartBlanks::new(),
            hart1: HartBlanks::new(),
            hart2: HartBlanks::new(),
            hart3: HartBlanks::new(),
            hart4: HartBlanks::new(),
            hart5: HartBlanks::new(),
            hart6: HartBlanks::new(),
            hart7: HartBlanks::new(),
        }
    }
}

/// What is known of all harts' turns under the lock.
#[derive(Drop)]
pub struct Books<F: Ledgers> {
    hart0: HartBooks<F, 0>,
    hart1: HartBooks<F, 1>,
    hart2: HartBooks<F, 2>,
    hart3: HartBooks<F, 3>,
    hart4: HartBooks<F, 4>,
    hart5: HartBooks<F, 5>,
    hart6: HartBooks<F, 6>,
    hart7: HartBooks<F, 7>,
}

/// What is known of one hart's turns in its seat.
#[derive(Drop)]
pub enum Shares<F: Ledgers> {
    /// Those of hart 0.
    Hart0(HartShares<F, 0>),
    /// Those of hart 1.
    Hart1(HartShares<F, 1>),
    /// Those of hart 2.
    Hart2(HartShares<F, 2>),
    /// Those of hart 3.
    Hart3(HartShares<F, 3>),
    /// Those of hart 4.
    Hart4(HartShares<F, 4>),
    /// Those of hart 5.
    Hart5(HartShares<F, 5>),
    /// Those of hart 6.
    Hart6(HartShares<F, 6>),
    /// Those of hart 7.
    Hart7(HartShares<F, 7>),
}

/// The ledgers of all harts, before any turn, with the shares of the harts in order.
pub(crate) fn open_all<F: Ledgers>(blanks: Blanks) -> (Books<F>, [Shares<F>; 8])
    requires { AreNamed F.numbers F.tallies blanks }
    ensures numbers { numbers_of result.0 ≡ zeros }
    ensures tallies { tallies_of result.0 ≡ zeros }
    ensures shares { AreSharesAt (λ hart. 0) (λ hart. 0) 0 result.1 }
{
    let (hart0, shares0) = open::<F, 0>(blanks.hart0);
    let (hart1, shares1) = open::<F, 1>(blanks.hart1);
    let (hart2, shares2) = open::<F, 2>(blanks.hart2);
    let (hart3, shares3) = open::<F, 3>(blanks.hart3);
    let (hart4, shares4) = open::<F, 4>(blanks.hart4);
    let (hart5, shares5) = open::<F, 5>(blanks.hart5);
    let (hart6, shares6) = open::<F, 6>(blanks.hart6);
    let (hart7, shares7) = open::<F, 7>(blanks.hart7);
    let books = Books {
        hart0,
        hart1,
        hart2,
        hart3,
        hart4,
        hart5,
        hart6,
        hart7,
    };
    let shares = [
        Shares::Hart0(shares0),
        Shares::Hart1(shares1),
        Shares::Hart2(shares2),
        Shares::Hart3(shares3),
        Shares::Hart4(shares4),
        Shares::Hart5(shares5),
        Shares::Hart6(shares6),
        Shares::Hart7(shares7),
    ];
    (books, shares)
}

impl<F: Ledgers> Books<F> {
    /// A seat and the books know the same.
    pub(crate) fn agree(&mut self, shares: &mut Shares<F>)
        ensures books { (numbers_of self.new ≡ numbers_of self.old) × (tallies_of self.new ≡ tallies_of self.old) }
        ensures shares { (hart_of shares.new ≡ hart_of shares.old) × (number_in shares.new ≡ number_in shares.old)
            × (tally_in shares.new ≡ tally_in shares.old) }
        ensures number { number_in shares.old ≡ slice_index (numbers_of self.old) (hart_of shares.old) }
        ensures tally { tally_in shares.old ≡ slice_index (tallies_of self.old) (hart_of shares.old) }
    {
        match shares {
            Shares::Hart0(one) => self.hart0.agree(one),
            Shares::Hart1(one) => self.hart1.agree(one),
            Shares::Hart2(one) => self.hart2.agree(one),
            Shares::Hart3(one) => self.hart3.agree(one),
            Shares::Hart4(one) => self.hart4.agree(one),
            Shares::Hart5(one) => self.hart5.agree(one),
            Shares::Hart6(one) => self.hart6.agree(one),
            Shares::Hart7(one) => self.hart7.agree(one),
        }
    }

    /// This many turns more of a seat's hart, with the sum of the codes of their outcomes.
    pub(crate) fn count(&mut self, shares: &mut Shares<F>, turns: u64, codes: u64)
        ensures numbers { numbers_of self.new ≡ slice_set (numbers_of self.old) (hart_of shares.old)
            (slice_index (numbers_of self.old) (hart_of shares.old) + turns) }
        ensures tallies { tallies_of self.new ≡ slice_set (tallies_of self.old) (hart_of shares.old)
            (slice_index (tallies_of self.old) (hart_of shares.old) + codes) }
        ensures shares { (hart_of shares.new ≡ hart_of shares.old)
            × (number_in shares.new ≡ number_in shares.old + turns)
            × (tally_in shares.new ≡ tally_in shares.old + codes) }
    {
        match shares {
            Shares::Hart0(one) => self.hart0.count(one, turns, codes),
            Shares::Hart1(one) => self.hart1.count(one, turns, codes),
            Shares::Hart2(one) => self.hart2.count(one, turns, codes),
            Shares::Hart3(one) => self.hart3.count(one, turns, codes),
            Shares::Hart4(one) => self.hart4.count(one, turns, codes),
            Shares::Hart5(one) => self.hart5.count(one, turns, codes),
            Shares::Hart6(one) => self.hart6.count(one, turns, codes),
            Shares::Hart7(one) => self.hart7.count(one, turns, codes),
        }
    }
}

impl<F: Ledgers> Shares<F> {
    /// Whose they are.
    pub(crate) fn hart(&self) -> usize
        ensures { result ≡ hart_of self.now }
    {
        match self {
            Shares::Hart0(_) => 0,
            Shares::Hart1(_) => 1,
            Shares::Hart2(_) => 2,
            Shares::Hart3(_) => 3,
            Shares::Hart4(_) => 4,
            Shares::Hart5(_) => 5,
            Shares::Hart6(_) => 6,
            Shares::Hart7(_) => 7,
        }
    }
}
