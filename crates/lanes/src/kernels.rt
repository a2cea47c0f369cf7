//! The loops over N elements. Each is generic over the operation, and says which answers of the operation
//! stand in which place.

ghost use Rattle.std.specs.Prelude.{◌≡◌, ◌==◌, ◌+◌, ◌<◌, ◌≤◌, ℕ, if◌then◌else◌, length, map};
ghost use Rattle.lanes.specs.Words.{active};
ghost use Rattle.lanes.specs.Words.{EachPair, EachFrom, LeadsTo, chosen_of, merged};

use crate::kinds::LaneKind;
use crate::masks::active;
use crate::vectors::LaneKernels;

/// The answers to each pair, written over `results`.
pub(crate) fn each_pair<A: Copy, B: Copy, const N: usize, F: Fn(A, A) -> B>(
    first: &[A; N],
    second: &[A; N],
    mut results: [B; N],
    operation: F,
) -> [B; N]
    requires { F.IsAlwaysCallable operation }
    ensures { EachPair (λ a b r. F.post operation a b r) first.now second.now result }
{
    for i in 0..N {
        results[i] = operation(first[i], second[i]);
    }
    results
}

/// The answers to each index, written over `results`.
pub(crate) fn each_index<B: Copy, const N: usize, F: Fn(usize) -> B>(
    mut results: [B; N],
    operation: F,
) -> [B; N]
    requires { (i : ℕ) → i < N → F.pre operation i }
    ensures each { EachFrom (λ i r. (i < N) × F.post operation i r) 0 result }
    ensures count { length result ≡ N }
{
    for i in 0..N {
        results[i] = operation(i);
    }
    results
}

/// Which elements are 1.
pub(crate) fn are_ones<K: LaneKind, const N: usize>(elements: &[K; N]) -> [bool; N]
    ensures { result ≡ map (λ n. n == 1) (map K.number elements.now) }
{
    let mut results = [false; N];
    for i in 0..N {
        results[i] = elements[i].to_u32() == 1;
    }
    results
}

/// The first value, joined with each active element in turn.
pub(crate) fn reduce<A: Copy, const N: usize, F: Fn(A, A) -> A>(
    start: A,
    elements: &[A; N],
    active: &[bool; N],
    operation: F,
) -> A
    requires { F.IsAlwaysCallable operation }
    ensures { LeadsTo (λ a b r. F.post operation a b r) start (chosen_of active.now elements.now) result }
{
    let mut total = start;
    for i in 0..N {
        if active[i] {
            total = operation(total, elements[i]);
        }
    }
    total
}

/// One number where an element is chosen, another one where it isn't.
pub(crate) fn flags<A: Copy, const N: usize>(chosen: &[bool; N], here: A, elsewhere: A) -> [A; N]
    ensures { result ≡ map (λ b. if b then here else elsewhere) chosen.now }
{
    let mut results = [elsewhere; N];
    for i in 0..N {
        results[i] = if chosen[i] { here } else { elsewhere };
    }
    results
}

/// The new element where an instruction works on it, of those from `first` on, else the old one. Where it works on all
/// of them no mask is read.
#[tactic(auto, using(crate::proofs::Elements::merged_active))]
pub(crate) fn merge_active<K: LaneKernels<N>, const N: usize>(
    new: &[K; N],
    old: &[K; N],
    first: usize,
    vl: usize,
    unmasked: bool,
    mask: &[u8; 16],
) -> [K; N]
    requires { first + N ≤ 128 }
    ensures { result ≡ merged (active first N vl unmasked mask.now) new.now old.now }
{
    if unmasked && first + N <= vl {
        return *new;
    }
    K::merge_all(&active(first, vl, unmasked, mask), new, old)
}
