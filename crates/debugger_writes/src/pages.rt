//! Copies of pages of data.

ghost use Rattle.std.specs.Prelude.{◌≡◌, ◌+◌, ◌*◌, ◌/◌, ◌%◌, ◌<◌, ◌≤◌, ℕ, All, IfOk, length, slice_index};
ghost use Rattle.memory.specs.Access.{most_bytes};
ghost use Rattle.multi_hart.specs.Parts.{with_data};
ghost use Rattle.debugger_writes.specs.Pages.{Holds, HoldsUnwritten, IsPage, laid, over, pages_of};

use multi_hart::Machine;
use std::alloc::{AllocError, Global};

/// How many bytes of data a page has.
pub const PAGE: usize = 4096;

/// The bytes of a page, of the last one those that there are.
#[derive(Drop)]
pub struct PageCopy {
    /// Which page of the data it is, from 0 on.
    pub number: usize,
    pub bytes: Vec<u8>,
}

/// Copies of the pages of data that are marked.
#[tactic(auto, using(crate::proofs::Laying::copied_one, crate::proofs::Laying::passed_one, crate::proofs::Laying::all_copied))]
pub fn changed_pages(
    alloc: Global,
    memory: &[u8],
    written: &[bool],
) -> Result<Vec<PageCopy>, AllocError>
    requires { length written.now ≡ pages_of (length memory.now) }
    ensures pages { IfOk result (λ pages. All (IsPage (length memory.now)) pages.items) }
    ensures hold { IfOk result (λ pages. (f : ℕ → ℕ) → HoldsUnwritten written.now memory.now f
        → Holds memory.now (over pages.items f)) }
{
    let mut pages = Vec::new(alloc);
    for (number, flag) in written.iter().enumerate() {
        if *flag {
            let copy = copy_page(alloc, memory, number)?;
            pages.push(copy)?;
        }
    }
    Ok(pages)
}

/// A copy of one page.
fn copy_page(alloc: Global, memory: &[u8], number: usize) -> Result<PageCopy, AllocError>
    requires { number * 4096 < length memory.now }
    ensures number { IfOk result (λ copy. copy.number ≡ number) }
    ensures page { IfOk result (λ copy. IsPage (length memory.now) copy) }
    ensures bytes { IfOk result (λ copy. (i : ℕ) → i < length memory.now → i / 4096 ≡ number
        → slice_index copy.bytes.items (i % 4096) ≡ slice_index memory.now i) }
{
    let start = number * PAGE;
    let end = start + PAGE.min(memory.len() - start);
    let bytes = memory[start..end].to_vec(alloc)?;
    Ok(PageCopy { number, bytes })
}

/// Puts pages back, one after the other. Takes no memory.
pub fn put_pages(machine: &mut Machine, copies: &[PageCopy])
    requires few { length machine.old.memory ≤ most_bytes }
    requires pages { All (IsPage (length machine.old.memory)) copies.now }
    ensures state { machine.new ≡ with_data machine.old machine.new.memory }
    ensures as_many { length machine.new.memory ≡ length machine.old.memory }
    ensures holds { (f : ℕ → ℕ) → Holds machine.old.memory f → Holds machine.new.memory (over copies.now f) }
{
    if let [first, others @ ..] = copies {
        put_page(machine, first);
        put_pages(machine, others);
    }
}

/// Puts a page back. Takes no memory.
#[tactic(auto, using(crate::proofs::Laying::laid_put))]
pub(crate) fn put_page(machine: &mut Machine, copy: &PageCopy)
    requires few { length machine.old.memory ≤ most_bytes }
    requires page { IsPage (length machine.old.memory) copy.now }
    ensures state { machine.new ≡ with_data machine.old machine.new.memory }
    ensures as_many { length machine.new.memory ≡ length machine.old.memory }
    ensures holds { (f : ℕ → ℕ) → Holds machine.old.memory f → Holds machine.new.memory (laid copy.now f) }
{
    machine.put_data(copy.number * PAGE, &copy.bytes);
}
