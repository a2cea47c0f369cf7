//! Pages of copies that were let go: the last of each page.

ghost use Rattle.std.specs.Prelude.{◌≡◌, ◌+◌, ◌*◌, ◌/◌, ◌<◌, ◌≤◌, ℕ, Some, All, length};
ghost use Rattle.memory.specs.Access.{most_bytes};
ghost use Rattle.multi_hart.specs.Parts.{with_data};
ghost use Rattle.debugger_writes.specs.Pages.{AreBelow, Holds, IsPage, laid, laid_slot, lowest, over};

use crate::pages::{PageCopy, put_page};
use multi_hart::Machine;

/// Puts back all pages that are there. Takes no memory.
#[tactic(auto, using(crate::proofs::Laying::none_laid, crate::proofs::Laying::slot_more, crate::proofs::Laying::all_laid, crate::proofs::Laying::holds_same))]
pub fn put_below(machine: &mut Machine, below: &[Option<PageCopy>])
    requires few { length machine.old.memory ≤ most_bytes }
    requires pages { AreBelow (length machine.old.memory) below.now }
    ensures state { machine.new ≡ with_data machine.old machine.new.memory }
    ensures as_many { length machine.new.memory ≡ length machine.old.memory }
    ensures holds { (f : ℕ → ℕ) → Holds machine.old.memory f → Holds machine.new.memory (lowest below.now f) }
{
    for slot in below.iter() {
        put_slot(machine, slot);
    }
}

/// Puts a page back if it is there.
fn put_slot(machine: &mut Machine, slot: &Option<PageCopy>)
    requires few { length machine.old.memory ≤ most_bytes }
    requires page { (copy : PageCopy) → slot.now ≡ Some copy → IsPage (length machine.old.memory) copy }
    ensures state { machine.new ≡ with_data machine.old machine.new.memory }
    ensures as_many { length machine.new.memory ≡ length machine.old.memory }
    ensures holds { (f : ℕ → ℕ) → Holds machine.old.memory f → Holds machine.new.memory (laid_slot slot.now f) }
{
    if let Some(copy) = slot {
        put_page(machine, copy);
    }
}

/// Pages take the places of those that were there. Takes no memory.
pub fn settle(below: &mut [Option<PageCopy>], pages: Vec<PageCopy>)
    ensures as_many { length below.new ≡ length below.old }
    ensures pages { (size : ℕ) → AreBelow size below.old → All (IsPage size) pages.items → AreBelow size below.new }
    ensures lowest { All (λ page. page.number < length below.old) pages.items → (f : ℕ → ℕ) (i : ℕ)
        → lowest below.new f i ≡ over pages.items (lowest below.old f) i }
{
    for page in pages {
        settle_one(below, page);
    }
}

/// A page takes the place of the one that was there.
#[tactic(auto, using(crate::proofs::Laying::settled_one, crate::proofs::Laying::settled_below))]
fn settle_one(below: &mut [Option<PageCopy>], page: PageCopy)
    ensures as_many { length below.new ≡ length below.old }
    ensures pages { (size : ℕ) → AreBelow size below.old → IsPage size page → AreBelow size below.new }
    ensures lowest { page.number < length below.old → (f : ℕ → ℕ) (i : ℕ) → lowest below.new f i
        ≡ laid page (lowest below.old f) i }
{
    let number = page.number;
    if number < below.len() {
        below[number] = Some(page);
    }
}
