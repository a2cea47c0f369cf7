//! Pixels that an update has written.

ghost use Rattle.std.specs.Prelude.{◌≡◌, ◌+◌, ◌*◌, ◌^◌, OnOk};

use std::alloc::{AllocError, Global};
use std::collections::HashMap;

/// What was written last at each point at which anything was.
#[derive(Drop)]
pub(crate) struct Writes {
    values: HashMap<u64, u32>,
}

/// A number for each point.
fn point_number(x: u32, y: u32) -> u64
    ensures { result ≡ x * 2 ^ 32 + y }
{
    u64::from(x) * (1 << 32) + u64::from(y)
}

impl Writes {
    ghost use Rattle.picture.specs.Writes.{written, Sets, IsNone};

    /// No writes.
    #[tactic(auto, unfolding(crate::specs::Writes::written))]
    pub fn new(alloc: Global) -> Writes
        ensures { IsNone result }
    {
        Writes {
            values: HashMap::new(alloc),
        }
    }

    /// What was written last at a point.
    #[tactic(auto, unfolding(crate::specs::Writes::written))]
    pub fn get(&self, x: u32, y: u32) -> Option<u32>
        ensures { result ≡ written self.now x y }
    {
        self.values.get(&point_number(x, y)).copied()
    }

    /// Writes at a point.
    #[tactic(auto, unfolding(crate::specs::Writes::written))]
    pub fn set(&mut self, x: u32, y: u32, value: u32) -> Result<(), AllocError>
        ensures { OnOk result (Sets self.old self.new x y value) }
    {
        self.values.insert(point_number(x, y), value)?;
        Ok(())
    }
}
