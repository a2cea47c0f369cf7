//! Pixels of Funcs that are known one by one.

ghost use Rattle.std.specs.Prelude.{◌≡◌, ◌+◌, ◌*◌, ◌^◌, OnOk};

use std::alloc::{AllocError, Global};
use std::collections::HashMap;

/// The pixels of Funcs at points at which they are read, where no table has them.
#[derive(Drop)]
pub(crate) struct Memo {
    values: HashMap<u128, u32>,
}

/// This many pixels are kept at most, half as many as a table has.
const MOST_PIXELS: usize = 1 << 20;

/// A number for each point of each Func.
fn pixel_number(func_index: usize, x: u32, y: u32) -> u128
    ensures { result ≡ func_index * 2 ^ 64 + x * 2 ^ 32 + y }
{
    func_index as u128 * (1 << 64) + u128::from(x) * (1 << 32) + u128::from(y)
}

impl Memo {
    ghost use Rattle.picture.specs.inner.Memos.{remembered, Remembers, KnowsNothing};

    /// No pixels.
    #[tactic(auto, unfolding(crate::specs::inner::Memos::remembered))]
    pub fn new(alloc: Global) -> Memo
        ensures { KnowsNothing result }
    {
        Memo {
            values: HashMap::new(alloc),
        }
    }

    /// The pixel of the Func at a place, if it is known.
    #[tactic(auto, unfolding(crate::specs::inner::Memos::remembered))]
    pub fn get(&self, func_index: usize, x: u32, y: u32) -> Option<u32>
        ensures { result ≡ remembered self.now func_index x y }
    {
        self.values.get(&pixel_number(func_index, x, y)).copied()
    }

    /// Whether no more pixels are to be kept.
    pub fn is_full(&self) -> bool {
        self.values.len() >= MOST_PIXELS
    }

    /// Keeps a pixel of the Func at a place.
    #[tactic(auto, unfolding(crate::specs::inner::Memos::remembered))]
    pub fn set(&mut self, func_index: usize, x: u32, y: u32, pixel: u32) -> Result<(), AllocError>
        ensures { OnOk result (Remembers self.old self.new func_index x y pixel) }
    {
        self.values.insert(pixel_number(func_index, x, y), pixel)?;
        Ok(())
    }
}
