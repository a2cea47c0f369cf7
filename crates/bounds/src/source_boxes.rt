//! Lists of boxes.

ghost use Rattle.std.specs.Prelude.{◌≡◌, [], ◌∷◌, IfOk, slice_get};
ghost use Rattle.std.specs.Option.{option_copied};
ghost use Rattle.bounds.specs.Boxes as spec;

use crate::boxes::{SourceBox, is_near};
use std::alloc::{AllocError, Global};
use std::marker::Model;

/// A box for each of several sources, None where it has none. Each stays from -2^24 to 2^24. Contracts see the list.
pub struct SourceBoxes {
    boxes: Vec<Option<SourceBox>>,
}

impl Model for SourceBoxes {
    ghost use Rattle.std.specs.Prelude.{List, Option};
    ghost use Rattle.bounds.specs.declared.boxes.SourceBox.{SourceBox};
    ghost use Rattle.bounds.specs.Boxes.{AreBoxes};

    ghost Value = { List (Option SourceBox) };

    ghost view = { λ s. s.boxes.items };

    ghost invariant = { λ s. AreBoxes s.boxes.items };
}

impl Drop for SourceBoxes {
    fn drop(self) {
        let SourceBoxes { boxes } = self;
        drop(boxes);
    }
}

impl SourceBoxes {
    /// No boxes.
    pub fn new(alloc: Global) -> SourceBoxes
        ensures { result ≡ [] }
    {
        SourceBoxes {
            boxes: Vec::new(alloc),
        }
    }

    /// The boxes in order.
    pub fn as_slice(&self) -> &[Option<SourceBox>]
        ensures value { result.now ≡ self.now }
        ensures boxes { spec.AreBoxes self.now }
    {
        self.boxes.as_slice()
    }

    /// The boxes with one in front.
    fn with_first(self, source_box: Option<SourceBox>) -> Result<SourceBoxes, AllocError>
        requires { spec.IsBoxOrNone source_box }
        ensures { IfOk result (λ boxes. boxes ≡ source_box ∷ self) }
    {
        let SourceBoxes { mut boxes } = self;
        boxes.insert(0, source_box)?;
        Ok(SourceBoxes { boxes })
    }
}

/// Whether there is no box, or one that stays from -2^24 to 2^24.
fn stays(source_box: &Option<SourceBox>) -> bool
    requires { spec.IsFitBox source_box.now }
    ensures { result ≡ spec.stays source_box.now }
{
    match source_box {
        None => true,
        Some(source_box) => is_near(source_box),
    }
}

/// The boxes with one in front, unless that leaves -2^24 to 2^24.
#[tactic(auto, using(crate::proofs::Near::is_box))]
pub fn in_front(
    source_box: Option<SourceBox>,
    source_boxes: SourceBoxes,
) -> Result<Option<SourceBoxes>, AllocError>
    requires { spec.IsFitBox source_box }
    ensures { IfOk result (λ boxes. boxes ≡ spec.in_front source_box source_boxes) }
{
    if !stays(&source_box) {
        return Ok(None);
    }
    let boxes = source_boxes.with_first(source_box)?;
    Ok(Some(boxes))
}
