//! What a vector instruction leaves in a register: the new elements where they are active, and the old ones elsewhere,
//! as the tail and the masked-off elements stay undisturbed here.
//!
//! One function, over the lanes of any width; which elements are active, and what is merged, `lanes` defines.
#![tactic(auto)]

ghost use Rattle.std.specs.Prelude.{◌≡◌, ◌+◌, ◌*◌, ◌≤◌};
ghost use Rattle.lanes.specs.Words.{active, merged, register_of};

use lanes::{LaneKernels, Lanes};

/// The 16 bytes of a register of a group, with new elements where they are active and the old ones elsewhere. The
/// register is the group's `part`-th, from 0, so its first element has number `part * N`; `vl` is the vector length in
/// elements, `mask` the bytes of `v0`, and with `vm` set no mask is read.
///
/// Source: "The RISC-V Vector Extension", section 5.4, "Vector Tail Agnostic and Vector Mask Agnostic vta and vma", of
/// which this takes the undisturbed way for both.
#[inline(always)]
pub fn merged_register<K: LaneKernels<N>, const N: usize>(
    before: &Lanes<K, N>,
    new: &Lanes<K, N>,
    part: usize,
    vl: usize,
    vm: bool,
    mask: &[u8; 16],
) -> [u8; 16]
    requires few { part * N + N ≤ 128 }
    requires fills { N * K.width ≡ 128 }
    ensures { result ≡ register_of K.width (merged (active (part * N) N vl vm mask.now) new.now before.now) }
{
    let merged = before.merge_active(new, part * N, vl, vm, mask);
    merged.to_register()
}
