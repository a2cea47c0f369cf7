//! States on the way that are kept, to go back to.
//!
//! A kept place holds what the state there has over the one that was kept before it: all harts, and the pages of data
//! that turns wrote since. The first one has them over the image's data, and leaves them to the next one when it is let
//! go.

ghost use Rattle.std.specs.Prelude.{◌≡◌, ◌⊎◌, ◌+◌, ◌/◌, ◌^◌, ◌<◌, ◌≤◌, ℕ, List, [], ◌∷◌, ◌++◌, All, false, Some, IfNone};
ghost use Rattle.std.specs.Prelude.{IfOk, IfSome, drop, length, option_map, slice_get, take};
ghost use Rattle.memory.specs.Access.{most_bytes};
ghost use Rattle.multi_hart.specs.Parts.{with_data, with_harts};
ghost use Rattle.multi_hart.specs.Run.{run};
ghost use Rattle.loader.specs.Image.{ImageContents};
ghost use Rattle.loader.specs.Loading.{machine_of};
ghost use Rattle.turn_log.specs.TurnLog.{LogState};
ghost use Rattle.debugger_writes.specs.Pages.{Holds, Marked, is_written, pages_of};
ghost use Rattle.debugger.specs.inner.KeptPlaces.{AreFree, AreLastKept, ArePages, CanPutBack, IsCopy, IsKept};
ghost use Rattle.debugger.specs.inner.KeptPlaces.{KeptFits, last_kept, last_of, room_for_one};

use debugger_writes::{
    PAGE, PageCopy, changed_pages, mark_below, mark_pages, put_below, put_pages, settle,
};
use hart_core::Hart;
use loader::Image;
use multi_hart::Machine;
use std::alloc::{AllocError, Global};

/// How many turns lie between two places that are kept.
pub(crate) const KEPT_EVERY: u64 = 4096;

/// The most places that are kept.
pub(crate) const MOST_KEPT: usize = 16;

/// The state at a place, over the one that was kept before it.
#[derive(Drop)]
pub(crate) struct KeptPlace {
    pub place: u64,
    pub harts: Vec<Hart>,
    /// The pages of data that may be others than they were.
    pub pages: Vec<PageCopy>,
}

/// The last places that were kept.
pub(crate) struct KeptPlaces {
    /// For each page of data its last copy among those that were let go.
    pub below: Vec<Option<PageCopy>>,
    /// The places, in the order in which they were kept.
    pub places: Vec<KeptPlace>,
    /// The pages of data in which a machine may be another than it was at the last of them.
    pub written: Vec<bool>,
}

impl Drop for KeptPlaces {
    fn drop(self) {
        let KeptPlaces {
            below,
            places,
            written,
        } = self;
        drop(below);
        drop(places);
        drop(written);
    }
}

/// No place is kept, over this many bytes of data.
pub(crate) fn keep_none(alloc: Global, size: usize) -> Result<KeptPlaces, AllocError>
    requires { size < 2 ^ 63 }
    ensures none { IfOk result (λ kept. AreFree (pages_of size) kept) }
{
    let pages = (size + (PAGE - 1)) / PAGE;
    let mut below = Vec::new(alloc);
    let mut written = Vec::new(alloc);
    for _page in 0..pages {
        below.push(None)?;
        written.push(false)?;
    }
    Ok(KeptPlaces {
        below,
        places: Vec::new(alloc),
        written,
    })
}

/// The last kept place up to this one: which of those that are kept it is, and its number.
pub(crate) fn nearest(kept: &[KeptPlace], place: u64) -> Option<(usize, u64)>
    ensures before { IfSome result (λ found. found.1 ≤ place) }
    ensures kept { IfSome result (λ found. option_map (λ copy. copy.place) (slice_get kept.now found.0)
        ≡ Some found.1) }
    ensures there { IfSome result (λ found. found.0 < length kept.now) }
    ensures nearest { IfSome result (λ found. All (λ copy. copy.place ≤ place → copy.place ≤ found.1) kept.now) }
    ensures none { IfNone result (All (λ copy. place < copy.place) kept.now) }
{
    let [first, others @ ..] = kept else {
        return None;
    };
    let found = nearest(others, place);
    match found {
        Some((at, other)) if first.place > place || other > first.place => Some((at + 1, other)),
        _ if first.place > place => None,
        _ => Some((0, first.place)),
    }
}

/// Whether the place is kept.
pub(crate) fn is_kept(kept: &[KeptPlace], place: u64) -> bool {
    kept.iter().any(|copy| copy.place == place)
}

/// What there is to keep of a machine at a place, where these pages were written.
pub(crate) fn copy_of(
    alloc: Global,
    place: u64,
    machine: &Machine,
    written: &[bool],
) -> Result<KeptPlace, AllocError>
    requires { length written.now ≡ pages_of (length machine.now.memory) }
    ensures { IfOk result (λ copy. IsCopy place machine.now written.now copy) }
{
    let pages = changed_pages(alloc, machine.data(), written)?;
    let harts = machine.copy_harts(alloc)?;
    Ok(KeptPlace {
        place,
        harts,
        pages,
    })
}

/// Keeps one more place, and lets the one that was kept first go where there are too many.
pub(crate) fn keep_last(kept: &mut KeptPlaces, copy: KeptPlace)
    ensures fits { (image : ImageContents) (log : LogState) (memory : List ℕ) → KeptFits image log kept.old memory
        → IsKept image log (last_kept image kept.old) copy
        → memory ≡ (run (machine_of image log.harts) (take copy.place log.turns)).memory
        → KeptFits image log kept.new memory }
    ensures places { AreLastKept kept.old.places.items copy kept.new.places.items }
{
    make_room(kept);
    push_last(kept, copy);
}

/// Lets the place go that was kept first where there are as many as may be.
fn make_room(kept: &mut KeptPlaces)
    ensures fits { (image : ImageContents) (log : LogState) (memory : List ℕ) → KeptFits image log kept.old memory
        → KeptFits image log kept.new memory }
    ensures last { (image : ImageContents) (log : LogState) (memory : List ℕ) → KeptFits image log kept.old memory
        → (i : ℕ) → last_kept image kept.old i ≡ last_kept image kept.new i }
    ensures places { kept.new.places.items ≡ room_for_one kept.old.places.items }
{
    if kept.places.len() < MOST_KEPT {
        return;
    }
    let_go(kept);
}

/// Keeps one more place. One for which there is no memory isn't kept.
fn push_last(kept: &mut KeptPlaces, copy: KeptPlace)
    ensures fits { (image : ImageContents) (log : LogState) (memory : List ℕ) → KeptFits image log kept.old memory
        → IsKept image log (last_kept image kept.old) copy
        → memory ≡ (run (machine_of image log.harts) (take copy.place log.turns)).memory
        → KeptFits image log kept.new memory }
    ensures places { (kept.new.places.items ≡ kept.old.places.items ++ copy ∷ [])
        ⊎ (kept.new.places.items ≡ kept.old.places.items) }
{
    match kept.places.push(copy) {
        Ok(()) => kept.written.fill(false),
        Err(_) => {}
    }
}

/// Lets the place go that was kept first, which leaves its pages to the next one.
fn let_go(kept: &mut KeptPlaces)
    requires { 1 ≤ length kept.old.places.items }
    ensures fits { (image : ImageContents) (log : LogState) (memory : List ℕ) → KeptFits image log kept.old memory
        → KeptFits image log kept.new memory }
    ensures last { (image : ImageContents) (log : LogState) (memory : List ℕ) → KeptFits image log kept.old memory
        → (i : ℕ) → last_kept image kept.old i ≡ last_kept image kept.new i }
    ensures places { kept.new.places.items ≡ drop 1 kept.old.places.items }
{
    let first = kept.places.remove(0);
    settle(&mut kept.below, first.pages);
}

/// Puts a machine back to the state at the one of the kept places that is there. Takes no memory.
pub(crate) fn put_back(kept: &mut KeptPlaces, image: &Image, at: usize, machine: &mut Machine)
    requires there { at < length kept.old.places.items }
    requires can { CanPutBack (length machine.old.memory) (length machine.old.harts) kept.old }
    requires size { length image.now.bytes ≡ length machine.old.memory }
    ensures state { (log : LogState) (memory : List ℕ) (place : ℕ) → KeptFits image.now log kept.old memory
        → option_map (λ copy. copy.place) (slice_get kept.old.places.items at) ≡ Some place
        → machine.old.text ≡ image.now.words
        → machine.new ≡ run (machine_of image.now log.harts) (take place log.turns) }
    ensures fits { (log : LogState) (memory : List ℕ) → KeptFits image.now log kept.old memory
        → KeptFits image.now log kept.new machine.new.memory }
{
    machine.set_data(image.data());
    put_below(machine, &kept.below);
    put_places(machine, &kept.places, at + 1);
    put_harts(machine, &kept.places, at);
    kept.written.fill(false);
    mark_behind(&mut kept.written, &kept.places, at + 1);
}

/// Puts a machine back to the start of the log, where its harts were these. Takes no memory.
pub(crate) fn put_at_start(
    kept: &mut KeptPlaces,
    image: &Image,
    opening: &[Hart],
    machine: &mut Machine,
)
    requires size { length image.now.bytes ≡ length machine.old.memory }
    requires harts { length opening.now ≡ length machine.old.harts }
    ensures state { machine.new ≡ record { text = machine.old.text; memory = image.now.bytes; harts = opening.now } }
    ensures fits { (log : LogState) (memory : List ℕ) → KeptFits image.now log kept.old memory
        → KeptFits image.now log kept.new machine.new.memory }
{
    machine.set_data(image.data());
    machine.set_harts(opening);
    kept.written.fill(false);
    mark_below(&mut kept.written, &kept.below);
    mark_behind(&mut kept.written, &kept.places, 0);
}

/// Puts the pages of this many places back, one place after the other.
fn put_places(machine: &mut Machine, places: &[KeptPlace], count: usize)
    requires few { length machine.old.memory ≤ most_bytes }
    requires pages { All (ArePages (length machine.old.memory)) places.now }
    ensures state { machine.new ≡ with_data machine.old machine.new.memory }
    ensures as_many { length machine.new.memory ≡ length machine.old.memory }
    ensures holds { (f : ℕ → ℕ) → Holds machine.old.memory f
        → Holds machine.new.memory (last_of f (take count places.now)) }
{
    if count == 0 {
        return;
    }
    if let [first, others @ ..] = places {
        put_pages(machine, &first.pages);
        put_places(machine, others, count - 1);
    }
}

/// Puts the harts of one of the places back.
fn put_harts(machine: &mut Machine, places: &[KeptPlace], at: usize)
    requires there { at < length places.now }
    requires harts { All (λ copy. length copy.harts.items ≡ length machine.old.harts) places.now }
    ensures { (copy : KeptPlace) → slice_get places.now at ≡ Some copy
        → machine.new ≡ with_harts machine.old copy.harts.items }
{
    machine.set_harts(&places[at].harts);
}

/// Marks the pages of all places after this many.
fn mark_behind(written: &mut [bool], places: &[KeptPlace], count: usize)
    ensures marked { Marked written.old written.new }
    ensures others { (f : ℕ → ℕ) (i : ℕ) → is_written written.new (i / 4096) ≡ false → last_of f places.now i
        ≡ last_of f (take count places.now) i }
{
    if let [first, others @ ..] = places {
        if count == 0 {
            mark_pages(written, &first.pages);
            mark_behind(written, others, 0);
        } else {
            mark_behind(written, others, count - 1);
        }
    }
}
