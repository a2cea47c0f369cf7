//! How many iterations the loops of a stage have, and how far these go.

ghost use Rattle.std.specs.Prelude.{◌≡◌, ◌≤◌, ◌<◌, ◌*◌, ◌^◌, ◌&&◌, ◌||◌, IfOk};
ghost use Rattle.std.specs.List.{list_all};
ghost use Rattle.schedule_loops.specs.Visits as counts;
ghost use Rattle.schedule_loops.specs.Visits.{iteration_count};
ghost use Rattle.schedule_loops.specs.Sizes as spec;
ghost use Rattle.schedule_loops.specs.inner.Table as table;

use crate::extents::Extents;
use halide_pipeline::Variable;
use schedule_lines::directives::is_shift;
use schedule_lines::{LoopId, Split, Stage};
use sqlite_items::Items;
use std::alloc::{AllocError, Global};
use std::marker::Model;

/// How many iterations a loop has, and how far each takes its variable.
#[derive(Clone, Copy, Debug, PartialEq, Eq)]
pub struct LoopSize {
    /// How many iterations it has.
    pub count: u32,
    /// How far an iteration takes the variable.
    pub stride: u32,
    /// Whether its last iteration may take the variable less far: the outer loop of a shifted split, and both loops of
    /// a split of such a one.
    pub is_uneven: bool,
}

/// A split with the sizes of its loops.
#[derive(Clone, Copy)]
struct SizedSplit {
    split: Split,
    /// How many iterations the loop has that is split.
    extent: u32,
    outer: LoopSize,
    inner: LoopSize,
}

/// The sizes of all loops that the splits of a stage leave. Contracts see the extents and the splits.
#[derive(Drop)]
pub struct LoopSizes {
    extents: Extents,
    rows: Items<SizedSplit>,
}

impl Model for LoopSizes {
    ghost use Rattle.schedule_loops.specs.Sizes.{SizedLoops};
    ghost use Rattle.schedule_loops.specs.inner.Table.{splits_of, IsKept};

    ghost Value = { SizedLoops };

    ghost view = { λ s. record { extents = s.extents; splits = splits_of s.rows } };

    ghost invariant = { λ s. IsKept s.extents s.rows };
}

/// How often a factor goes into an extent, rounded up.
#[tactic(auto, using(crate::proofs::Tables::ceiling))]
fn outer_extent(extent: u32, factor: u32) -> u32
    requires { 1 ≤ factor }
    ensures { result ≡ counts.outer_extent extent factor }
{
    extent.div_ceil(factor)
}

/// The size of the loop over a whole variable.
fn whole_size(extents: Extents, variable: Variable) -> LoopSize
    ensures { result ≡ table.whole_size extents variable }
{
    LoopSize {
        count: extents.of(variable),
        stride: 1,
        is_uneven: false,
    }
}

/// The size of a loop, from the rows of the splits so far.
fn size_in(extents: Extents, rows: &[SizedSplit], id: LoopId) -> LoopSize
    ensures { result ≡ table.looked_up extents rows.now id }
{
    let (place, is_outer) = match id {
        LoopId::Whole(variable) => return whole_size(extents, variable),
        LoopId::Outer(place) => (place, true),
        LoopId::Inner(place) => (place, false),
    };
    match rows.get(place) {
        Some(row) if is_outer => row.outer,
        Some(row) => row.inner,
        None => LoopSize {
            count: 0,
            stride: 0,
            is_uneven: false,
        },
    }
}

impl SizedSplit {
    /// The row of a split of a loop of this size.
    fn new(whole: LoopSize, split: Split) -> SizedSplit
        requires some { 1 ≤ split.factor }
        requires fits { whole.stride * split.factor < 2 ^ 32 }
        ensures { result ≡ table.row_of whole split }
    {
        SizedSplit {
            split,
            extent: whole.count,
            outer: LoopSize {
                count: outer_extent(whole.count, split.factor),
                stride: whole.stride * split.factor,
                is_uneven: whole.is_uneven || is_shift(split.tail),
            },
            inner: LoopSize {
                count: split.factor,
                stride: whole.stride,
                is_uneven: whole.is_uneven,
            },
        }
    }

    /// Whether the split is not shifted, or its loop has a whole iteration.
    fn fits(&self) -> bool
        ensures { result ≡ table.row_fits self.now }
    {
        !is_shift(self.split.tail) || self.split.factor <= self.extent
    }
}

/// Whether all rows fit.
fn all_fit(rows: &[SizedSplit]) -> bool
    ensures { result ≡ list_all table.row_fits rows.now }
{
    rows.iter().all(|row| row.fits())
}

impl LoopSizes {
    /// The sizes of the loops that splits leave of whole variables of these extents, the splits in the order of
    /// their lines.
    ///
    /// # Errors
    ///
    /// Memory ran out.
    pub fn new(alloc: Global, extents: Extents, splits: &[Split]) -> Result<LoopSizes, AllocError>
        requires { counts.AreSplits splits.now }
        ensures { IfOk result (λ sizes. sizes ≡ record { extents = extents; splits = splits.now }) }
    {
        let mut rows = Items::new(alloc);
        let mut rest = splits;
        'splits: while let [split, others @ ..] = rest {
            let whole = size_in(extents, rows.as_slice(), split.of);
            rows.push(SizedSplit::new(whole, *split))?;
            rest = others;
        }
        Ok(LoopSizes { extents, rows })
    }

    /// The size of a loop; no iteration, and no stride, where the splits leave none of this identity.
    pub fn size(&self, id: LoopId) -> LoopSize
        ensures is { result ≡ spec.size self.now id }
        ensures few { result.stride ≤ 64 ^ 4 }
    {
        size_in(self.extents, self.rows.as_slice(), id)
    }

    /// Whether each shifted split is of a loop whose extent is not below the factor.
    pub fn shifts_fit(&self) -> bool
        ensures { result ≡ counts.shifts_fit self.now.extents self.now.splits }
    {
        all_fit(self.rows.as_slice())
    }

    /// How many iterations the parallel loop of a stage has: one, where no loop is parallel.
    pub fn iterations(&self, stage: &Stage) -> u32
        requires { self.now.splits ≡ stage.now.splits }
        ensures { result ≡ iteration_count self.now.extents stage.now }
    {
        match stage.parallel() {
            Some(own) => self.size(own.id).count,
            None => 1,
        }
    }
}
