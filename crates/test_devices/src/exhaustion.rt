//! All memory that the system gives a process, taken in blocks that nobody reads or writes.

use std::alloc::{AllocError, Global};

/// How many blocks are taken at most. The system gives no more than the memory of the machine at once, so that an
/// address space of 2^47 bytes is at least as many blocks as this on a machine of 1 GB: there the test fails.
const MOST_BLOCKS: usize = 1 << 17;

/// Sizes of blocks, each halved until it is below the other: the first ones take nearly all there is, the last ones are
/// given back one by one.
const COARSE: (usize, usize) = (1 << 46, 1 << 20);

const FINE: (usize, usize) = (512, 16);

/// How many bytes want memory of their own.
const PROBE: usize = 64;

/// Memory that is taken.
#[derive(Drop)]
pub struct Exhaustion {
    alloc: Global,
    blocks: Vec<Vec<u8>>,
}

impl Exhaustion {
    /// Nothing taken yet but the room for the list of blocks.
    pub fn new(alloc: Global) -> Result<Exhaustion, AllocError> {
        Ok(Exhaustion {
            alloc,
            blocks: Vec::with_capacity(alloc, MOST_BLOCKS)?,
        })
    }

    /// Takes all memory that is left; whether there is none then.
    pub fn take_all(&mut self) -> bool {
        self.take_halving(COARSE) && self.take_halving(FINE) && self.is_refused()
    }

    /// Gives back this many blocks, those that were taken last.
    pub fn give_back(&mut self, count: usize) {
        self.blocks
            .truncate(self.blocks.len().saturating_sub(count));
    }

    /// Gives back all blocks.
    pub fn give_back_all(&mut self) {
        self.blocks.clear();
    }

    /// Takes blocks of one size and of its halves, down to the other; whether the list had room for all.
    fn take_halving(&mut self, (largest, least): (usize, usize)) -> bool {
        let mut size = largest;
        for _ in 0..usize::BITS {
            if size < least {
                return true;
            }
            if !self.take(size) {
                return false;
            }
            size /= 2;
        }
        true
    }

    /// Takes blocks of a size until one is refused; whether the list had room for all.
    fn take(&mut self, size: usize) -> bool {
        for _ in self.blocks.len()..MOST_BLOCKS {
            let Ok(block) = Vec::with_capacity(self.alloc, size) else {
                return true;
            };
            if self.blocks.push(block).is_err() {
                return false;
            }
        }
        false
    }

    /// Whether the system refuses even a few bytes.
    fn is_refused(&self) -> bool {
        Vec::<u8>::with_capacity(self.alloc, PROBE).is_err()
    }
}
