//! The loops of a stage.

ghost use Rattle.std.specs.Prelude.{◌≡◌};
ghost use Rattle.std.specs.Option.{option_copied};
ghost use Rattle.schedule_lines.specs.Directives as spec;

use halide_pipeline::Variable;
use sqlite_items::Items;

/// A stage: a Func's pure definition, or one of its updates.
#[derive(Clone, Copy, Debug, PartialEq, Eq)]
pub struct StageName {
    /// The Func's place in the pipeline, from 0.
    pub func: usize,
    /// The update's place among its Func's, from 0; None for the pure definition.
    pub update: Option<usize>,
}

/// How a loop is run.
#[derive(Clone, Copy, Debug, PartialEq, Eq)]
pub enum Mark {
    Unrolled,
    Vectorized,
    Parallel,
}

/// A mark, and the number of the line that set it, from 1.
#[derive(Clone, Copy, Debug, PartialEq, Eq)]
pub struct Marked {
    pub mark: Mark,
    pub line: u64,
}

/// Which loop of its stage a loop is. A name that was split away is free again, so names don't tell.
#[derive(Clone, Copy, Debug, PartialEq, Eq)]
pub enum LoopId {
    /// The loop over a whole variable.
    Whole(Variable),
    /// The outer loop of the stage's split at this place, from 0.
    Outer(usize),
    /// The inner loop of the stage's split at this place, from 0.
    Inner(usize),
}

/// A loop. A split gives two in place of one.
#[derive(Drop)]
pub struct Loop {
    pub id: LoopId,
    /// An ASCII text.
    pub name: Items<u8>,
    /// The variable over whose values it goes, or over parts of them.
    pub variable: Variable,
    /// The factor of the split whose inner loop it is, 1 to 64.
    pub inner_of: Option<u32>,
    /// Whether one of the splits that it comes from is shifted.
    pub is_from_shift: bool,
    pub marked: Option<Marked>,
}

/// What the last iteration of a split loop does, where the factor does not divide the extent.
#[derive(Clone, Copy, Debug, PartialEq, Eq)]
pub enum Tail {
    /// It leaves out what lies past the extent.
    Guard,
    /// It begins earlier, so that it ends with the extent.
    Shift,
}

/// A split of a loop of extent E: its value is `outer * factor + inner`, where the inner loop has `factor`
/// iterations and the outer one E / factor, rounded up. Under `Tail::Shift` the least of `outer * factor` and
/// E - factor takes the place of the product.
#[derive(Clone, Copy, Debug, PartialEq, Eq)]
pub struct Split {
    /// The loop that is split. Its own loops are `Outer` and `Inner` of the split's place.
    pub of: LoopId,
    /// 1 to 64.
    pub factor: u32,
    pub tail: Tail,
}

/// The loops of a stage, and how they came about.
pub struct Stage {
    /// At most 5, innermost first, each with a name of its own.
    pub loops: Items<Loop>,
    /// In the order of the text.
    pub splits: Items<Split>,
}

impl Drop for Stage {
    fn drop(self) {
        let Stage { loops, splits } = self;
        drop(loops);
        drop(splits);
    }
}

/// Whether two marks are the same.
pub fn same_mark(a: Mark, b: Mark) -> bool
    ensures { result ≡ spec.same_mark a b }
{
    a == b
}

/// Whether a loop has this mark.
pub fn is_marked(stage_loop: &Loop, mark: Mark) -> bool
    ensures { result ≡ spec.is_marked mark stage_loop.now }
{
    match stage_loop.marked {
        Some(marked) => same_mark(marked.mark, mark),
        None => false,
    }
}

/// Whether two identities are the same.
pub fn same_id(a: LoopId, b: LoopId) -> bool
    ensures { result ≡ spec.same_id a b }
{
    match (a, b) {
        (LoopId::Whole(a), LoopId::Whole(b)) => a == b,
        (LoopId::Outer(a), LoopId::Outer(b)) | (LoopId::Inner(a), LoopId::Inner(b)) => a == b,
        _ => false,
    }
}

/// Whether a variable is one of a reduction.
pub fn is_reduction(variable: Variable) -> bool
    ensures { result ≡ spec.is_reduction variable }
{
    matches!(
        variable,
        Variable::FirstReduction | Variable::SecondReduction
    )
}

/// The loop with a name.
pub fn find<'a>(loops: &'a [Loop], name: &[u8]) -> Option<&'a Loop>
    ensures { option_copied result ≡ spec.find name.now loops.now }
{
    let mut rest = loops;
    'loops: while let [first, others @ ..] = rest {
        if first.name.as_slice() == name {
            return Some(first);
        }
        rest = others;
    }
    None
}

/// The innermost loop with a mark.
pub fn find_marked(loops: &[Loop], mark: Mark) -> Option<&Loop>
    ensures { option_copied result ≡ spec.find_marked mark loops.now }
{
    let mut rest = loops;
    'loops: while let [first, others @ ..] = rest {
        if is_marked(first, mark) {
            return Some(first);
        }
        rest = others;
    }
    None
}

impl Stage {
    /// The loop that is run in parallel.
    pub fn parallel(&self) -> Option<&Loop>
        ensures { option_copied result ≡ spec.find_marked Mark.Parallel self.now.loops }
    {
        find_marked(self.loops.as_slice(), Mark::Parallel)
    }

    /// The loop that is vectorized.
    pub fn vectorized(&self) -> Option<&Loop>
        ensures { option_copied result ≡ spec.find_marked Mark.Vectorized self.now.loops }
    {
        find_marked(self.loops.as_slice(), Mark::Vectorized)
    }
}
