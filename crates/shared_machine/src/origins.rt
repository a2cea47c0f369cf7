//! What a shared machine starts from.

ghost use Rattle.std.specs.Prelude.{ℕ, List, [], None};
ghost use Rattle.loader.specs.Image.{ImageContents};

use std::marker::Brand;

/// Stands, in a type, for the image and the number of harts that a machine starts from, and for the turns that its log
/// begins with: none, or those of the log from which it goes on. Whoever makes one picks them.
pub trait Origin {
    ghost image: { ImageContents };

    ghost harts: { ℕ };

    ghost resumed: { List ℕ };
}

impl Origin for Brand {
    ghost image = { record { entry = 0; words = []; bytes = []; output = None } };

    ghost harts = { 1 };

    ghost resumed = { [] };
}
