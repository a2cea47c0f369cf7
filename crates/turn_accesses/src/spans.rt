//! Between which bytes accesses lie.

ghost use Rattle.std.specs.Prelude.{◌≡◌, ◌≤◌, ◌<◌, ◌∷◌, [], ℕ, Option, false, true};
ghost use Rattle.rv_insn.specs.declared.outcomes.Trap.{Trap};
ghost use Rattle.memory.specs.Access.{read_by, touched, written_by};
ghost use Rattle.hart_core.specs.VectorRows.{accesses_at};
ghost use Rattle.multi_hart.specs.Run.{is_in};
ghost use Rattle.turn_accesses.specs.Accesses.{Covers, kind_in, meet, reads_in, writes_in};
ghost use Rattle.turn_accesses.specs.inner.Fitting.{if_fits};

use crate::numbers::bytes_of;
use crate::values::{AccessKind, Accesses};
use rv_insn::ElementWidth;

/// Bytes from one on up to before another one, in which all lie that a turn touches.
#[derive(Clone, Copy, Debug, PartialEq, Eq)]
pub struct Span {
    pub first: u64,
    pub end: u64,
    /// The turn may write some.
    pub stores: bool,
}

impl Span {
    /// Whether a byte may lie in both spans, which one of the turns stores.
    #[inline(always)]
    pub fn meets(&self, other: &Span) -> bool
        ensures { result ≡ meet self.now other.now }
    {
        self.first < other.end && other.first < self.end && (self.stores || other.stores)
    }
}

/// Between which bytes accesses lie.
#[inline(always)]
pub fn span_of(accesses: &Accesses) -> Span
    ensures { Covers result (reads_in accesses.now) (writes_in accesses.now) }
{
    match accesses {
        Accesses::Nothing => Span {
            first: 0,
            end: 0,
            stores: false,
        },
        Accesses::Number {
            kind,
            address,
            width,
        } => {
            let first = u64::from(*address);
            Span {
                first,
                end: first + u64::from(bytes_of(*width)),
                stores: may_store(*kind),
            }
        }
        Accesses::Elements {
            kind,
            addresses,
            width,
        } => around(addresses.as_slice(), *width, may_store(*kind)),
    }
}

/// The span of no byte.
#[inline(always)]
pub(crate) fn nowhere() -> Span
    ensures { Covers result [] [] }
{
    Span {
        first: 0,
        end: 0,
        stores: false,
    }
}

/// Between which bytes a number lies that is touched, also where that makes a trap.
#[inline(always)]
pub(crate) fn number_span(kind: AccessKind, address: u32, width: ElementWidth) -> Span
    ensures { (f : Option Trap) → Covers result
        (if_fits f (touched (read_by (kind_in kind) (accesses_at width (address ∷ [])))))
        (if_fits f (touched (written_by (kind_in kind) (accesses_at width (address ∷ []))))) }
{
    let first = u64::from(address);
    Span {
        first,
        end: first + u64::from(bytes_of(width)),
        stores: may_store(kind),
    }
}

/// The span of this many bytes.
#[inline(always)]
pub(crate) fn span_from(first: u64, end: u64, kind: AccessKind) -> Span
    ensures first { result.first ≡ first }
    ensures end { result.end ≡ end }
    ensures stores { result.stores ≡ false → kind ≡ AccessKind.Loads }
{
    Span {
        first,
        end,
        stores: may_store(kind),
    }
}

/// Whether numbers are stored.
#[inline(always)]
fn may_store(kind: AccessKind) -> bool
    ensures { result ≡ false → kind ≡ AccessKind.Loads }
{
    !matches!(kind, AccessKind::Loads)
}

/// Between which bytes numbers of a width at addresses lie.
fn around(addresses: &[u32], width: ElementWidth, stores: bool) -> Span
    ensures lie { (place : ℕ) → is_in place (touched (accesses_at width addresses.now)) ≡ true
        → (result.first ≤ place) × (place < result.end) }
    ensures stores { result.stores ≡ stores }
{
    let mut first = u64::from(u32::MAX);
    let mut last = 0;
    let mut rest = addresses;
    'numbers: while let [address, others @ ..] = rest {
        let address = u64::from(*address);
        first = first.min(address);
        last = last.max(address);
        rest = others;
    }
    Span {
        first,
        end: last + u64::from(bytes_of(width)),
        stores,
    }
}
