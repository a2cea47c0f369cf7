//! What a line does to the loops of its stage.

ghost use Rattle.std.specs.Prelude.{◌≡◌, ◌<◌, ◌++◌, ◌∷◌, [], OnOk, IfOk, length};
ghost use Rattle.std.specs.Option.{option_copied};
ghost use Rattle.line_text.specs.Lines.{Gives};
ghost use Rattle.schedule_lines.specs.Directives as spec;

use crate::faults::ScheduleFault;
use crate::lines::{LoopDirective, SplitLine};
use crate::stages::{
    Loop, LoopId, Mark, Marked, Split, Stage, Tail, find, is_reduction, same_id, same_mark,
};
use line_text::ReadError;
use sqlite_items::Items;
use std::alloc::{AllocError, Global};

fn copied_name(alloc: Global, name: &Items<u8>) -> Result<Items<u8>, AllocError>
    ensures { IfOk result (λ copy. copy ≡ name.now) }
{
    Items::from_slice(alloc, name.as_slice())
}

fn copied(alloc: Global, stage_loop: &Loop) -> Result<Loop, AllocError>
    ensures { IfOk result (λ copy. copy ≡ stage_loop.now) }
{
    Ok(Loop {
        id: stage_loop.id,
        name: copied_name(alloc, &stage_loop.name)?,
        variable: stage_loop.variable,
        inner_of: stage_loop.inner_of,
        is_from_shift: stage_loop.is_from_shift,
        marked: stage_loop.marked,
    })
}

/// Appends copies.
fn add_copies(
    alloc: Global,
    stage_loops: &mut Items<Loop>,
    loops: &[Loop],
) -> Result<(), AllocError>
    ensures { OnOk result (stage_loops.new ≡ stage_loops.old ++ loops.now) }
{
    match loops {
        [] => Ok(()),
        [first, others @ ..] => {
            stage_loops.push(copied(alloc, first)?)?;
            add_copies(alloc, stage_loops, others)?;
            Ok(())
        }
    }
}

/// Appends copies, and others in the place of the loop with a name.
fn add_replaced(
    alloc: Global,
    stage_loops: &mut Items<Loop>,
    name: &[u8],
    new: Items<Loop>,
    loops: &[Loop],
) -> Result<(), AllocError>
    ensures { OnOk result (stage_loops.new ≡ stage_loops.old ++ spec.replaced name.now new loops.now) }
{
    match loops {
        [] => {
            drop(new);
            Ok(())
        }
        [first, others @ ..] => {
            if first.name.as_slice() == name {
                stage_loops.append(new)?;
                add_copies(alloc, stage_loops, others)?;
                Ok(())
            } else {
                stage_loops.push(copied(alloc, first)?)?;
                add_replaced(alloc, stage_loops, name, new, others)?;
                Ok(())
            }
        }
    }
}

/// The loops, with others in the place of the one with a name.
fn replaced(
    alloc: Global,
    name: &[u8],
    new: Items<Loop>,
    loops: &[Loop],
) -> Result<Items<Loop>, AllocError>
    ensures { IfOk result (λ stage_loops. stage_loops ≡ spec.replaced name.now new loops.now) }
{
    let mut stage_loops = Items::new(alloc);
    add_replaced(alloc, &mut stage_loops, name, new, loops)?;
    Ok(stage_loops)
}

/// The loop with a name, where it has no mark.
pub fn find_open<'a>(loops: &'a [Loop], name: &[u8]) -> Option<&'a Loop>
    ensures { option_copied result ≡ spec.find_open name.now loops.now }
{
    match find(loops, name) {
        Some(own) if own.marked.is_none() => Some(own),
        _ => None,
    }
}

/// Whether a loop has a name.
fn is_known(loops: &[Loop], name: &[u8]) -> bool
    ensures { result ≡ spec.is_known name.now loops.now }
{
    find(loops, name).is_some()
}

/// Whether the last iteration of a split begins earlier.
pub fn is_shift(tail: Tail) -> bool
    ensures { result ≡ spec.is_shift tail }
{
    matches!(tail, Tail::Shift)
}

/// What is wrong with a split of a loop that is there and has no mark.
fn split_fault(is_update: bool, stage: &Stage, line: &SplitLine) -> Option<ScheduleFault>
    ensures { result ≡ spec.split_fault is_update stage.now line.now }
{
    let loops = stage.loops.as_slice();
    let (outer, inner) = (line.outer.as_slice(), line.inner.as_slice());
    if is_known(loops, outer) || is_known(loops, inner) || outer == inner {
        Some(ScheduleFault::NameInUse)
    } else if line.factor < 1 || line.factor > 64 || loops.len() >= 5 {
        Some(ScheduleFault::Limit)
    } else if is_update && is_shift(line.tail) {
        Some(ScheduleFault::ShiftOnUpdate)
    } else {
        None
    }
}

/// The two loops that a split gives, the inner one first. The split has this place in its stage.
fn parts(
    alloc: Global,
    stage_loop: &Loop,
    place: usize,
    line: &SplitLine,
) -> Result<Items<Loop>, AllocError>
    ensures { IfOk result (λ loops. loops ≡ spec.parts stage_loop.now place line.now) }
{
    let is_from_shift = stage_loop.is_from_shift || is_shift(line.tail);
    let mut loops = Items::new(alloc);
    loops.push(Loop {
        id: LoopId::Inner(place),
        name: copied_name(alloc, &line.inner)?,
        variable: stage_loop.variable,
        inner_of: Some(line.factor),
        is_from_shift,
        marked: None,
    })?;
    loops.push(Loop {
        id: LoopId::Outer(place),
        name: copied_name(alloc, &line.outer)?,
        variable: stage_loop.variable,
        inner_of: None,
        is_from_shift,
        marked: None,
    })?;
    Ok(loops)
}

/// The stage with a loop of it split.
fn split_loop(
    alloc: Global,
    stage: &Stage,
    stage_loop: &Loop,
    line: &SplitLine,
) -> Result<Stage, AllocError>
    ensures { IfOk result (λ new. new ≡ spec.split_loop stage.now stage_loop.now line.now) }
{
    let parts = parts(alloc, stage_loop, stage.splits.len(), line)?;
    let mut splits = Items::from_slice(alloc, stage.splits.as_slice())?;
    splits.push(Split {
        of: stage_loop.id,
        factor: line.factor,
        tail: line.tail,
    })?;
    Ok(Stage {
        loops: replaced(alloc, line.of.as_slice(), parts, stage.loops.as_slice())?,
        splits,
    })
}

/// The stage after a split line.
fn split(
    alloc: Global,
    is_update: bool,
    stage: &Stage,
    line: &SplitLine,
) -> Result<Stage, ReadError<ScheduleFault>>
    ensures { Gives (λ x. x) result (spec.split is_update stage.now line.now) }
{
    match find_open(stage.loops.as_slice(), line.of.as_slice()) {
        None => Err(ReadError::Fault(ScheduleFault::UnknownLoop)),
        Some(own) => match split_fault(is_update, stage, line) {
            Some(fault) => Err(ReadError::Fault(fault)),
            None => Ok(split_loop(alloc, stage, own, line)?),
        },
    }
}

/// Whether each name is that of a loop.
fn are_known(loops: &[Loop], names: &[Items<u8>]) -> bool
    ensures { result ≡ spec.are_known loops.now names.now }
{
    let mut rest = names;
    'names: while let [first, others @ ..] = rest {
        if !is_known(loops, first.as_slice()) {
            return false;
        }
        rest = others;
    }
    true
}

/// Whether a name is among names.
fn is_among(name: &[u8], names: &[Items<u8>]) -> bool
    ensures { result ≡ spec.is_among name.now names.now }
{
    let mut rest = names;
    'names: while let [first, others @ ..] = rest {
        if first.as_slice() == name {
            return true;
        }
        rest = others;
    }
    false
}

/// Whether a name is twice among names.
fn is_twice_among(name: &[u8], names: &[Items<u8>]) -> bool
    ensures { result ≡ spec.is_twice_among name.now names.now }
{
    let mut rest = names;
    'names: while let [first, others @ ..] = rest {
        if first.as_slice() == name {
            return is_among(name, others);
        }
        rest = others;
    }
    false
}

/// Whether one of the loops is named twice.
fn has_twice(loops: &[Loop], names: &[Items<u8>]) -> bool
    ensures { result ≡ spec.has_twice loops.now names.now }
{
    match loops {
        [] => false,
        [first, others @ ..] => {
            is_twice_among(first.name.as_slice(), names) || has_twice(others, names)
        }
    }
}

/// The loop with a name, or another where there is none.
fn find_or<'a>(loops: &'a [Loop], name: &[u8], other: &'a Loop) -> &'a Loop
    ensures { result.now ≡ spec.find_or name.now loops.now other.now }
{
    match find(loops, name) {
        Some(own) => own,
        None => other,
    }
}

/// Appends the loops from a place on, with those that are named in the places of the named ones, in the order
/// of the names that are left.
fn add_reordered(
    alloc: Global,
    stage_loops: &mut Items<Loop>,
    stage: &Stage,
    names: &[Items<u8>],
    left: &[Items<u8>],
    loops: &[Loop],
) -> Result<(), AllocError>
    ensures { OnOk result (stage_loops.new ≡ stage_loops.old ++ spec.reordered_from stage.now.loops names.now left.now
        loops.now) }
{
    match (loops, left) {
        ([], _) => Ok(()),
        ([first, others @ ..], [name, behind @ ..]) if is_among(first.name.as_slice(), names) => {
            let own = find_or(stage.loops.as_slice(), name.as_slice(), first);
            stage_loops.push(copied(alloc, own)?)?;
            add_reordered(alloc, stage_loops, stage, names, behind, others)?;
            Ok(())
        }
        ([first, others @ ..], _) => {
            stage_loops.push(copied(alloc, first)?)?;
            add_reordered(alloc, stage_loops, stage, names, left, others)?;
            Ok(())
        }
    }
}

/// The loops with those that are named in their own places anew.
fn reordered(alloc: Global, stage: &Stage, names: &[Items<u8>]) -> Result<Items<Loop>, AllocError>
    ensures { IfOk result (λ loops. loops ≡ spec.reordered stage.now.loops names.now) }
{
    let mut stage_loops = Items::new(alloc);
    add_reordered(
        alloc,
        &mut stage_loops,
        stage,
        names,
        names,
        stage.loops.as_slice(),
    )?;
    Ok(stage_loops)
}

/// Appends which loops are over reduction variables.
fn add_reductions(ids: &mut Items<LoopId>, loops: &[Loop]) -> Result<(), AllocError>
    ensures { OnOk result (ids.new ≡ ids.old ++ spec.reductions loops.now) }
{
    match loops {
        [] => Ok(()),
        [first, others @ ..] => {
            if is_reduction(first.variable) {
                ids.push(first.id)?;
            }
            add_reductions(ids, others)?;
            Ok(())
        }
    }
}

/// Which loops are over reduction variables, innermost first.
fn reductions(alloc: Global, loops: &[Loop]) -> Result<Items<LoopId>, AllocError>
    ensures { IfOk result (λ ids. ids ≡ spec.reductions loops.now) }
{
    let mut ids = Items::new(alloc);
    add_reductions(&mut ids, loops)?;
    Ok(ids)
}

/// Whether two lists of identities are the same.
fn same_ids(ids: &[LoopId], other: &[LoopId]) -> bool
    ensures { result ≡ spec.same_ids ids.now other.now }
{
    match ids {
        [] => other.is_empty(),
        [first, behind @ ..] => match other {
            [] => false,
            [second, rest @ ..] => same_id(*first, *second) && same_ids(behind, rest),
        },
    }
}

/// The stage after a reorder line.
fn reorder(
    alloc: Global,
    stage: &Stage,
    names: &[Items<u8>],
) -> Result<Stage, ReadError<ScheduleFault>>
    ensures { Gives (λ x. x) result (spec.reorder stage.now names.now) }
{
    let loops = stage.loops.as_slice();
    if !are_known(loops, names) {
        return Err(ReadError::Fault(ScheduleFault::UnknownLoop));
    }
    if has_twice(loops, names) {
        return Err(ReadError::Fault(ScheduleFault::ReductionOrder));
    }
    let new = reordered(alloc, stage, names)?;
    let before = reductions(alloc, loops)?;
    let after = reductions(alloc, new.as_slice())?;
    if !same_ids(before.as_slice(), after.as_slice()) {
        return Err(ReadError::Fault(ScheduleFault::ReductionOrder));
    }
    Ok(Stage {
        loops: new,
        splits: Items::from_slice(alloc, stage.splits.as_slice())?,
    })
}

/// The stage with a loop of it marked.
fn mark_loop(
    alloc: Global,
    stage: &Stage,
    stage_loop: &Loop,
    name: &[u8],
    marked: Marked,
) -> Result<Stage, AllocError>
    ensures { IfOk result (λ new. new ≡ spec.mark_loop stage.now stage_loop.now name.now marked) }
{
    let mut new = Items::new(alloc);
    new.push(Loop {
        marked: Some(marked),
        ..copied(alloc, stage_loop)?
    })?;
    Ok(Stage {
        loops: replaced(alloc, name, new, stage.loops.as_slice())?,
        splits: Items::from_slice(alloc, stage.splits.as_slice())?,
    })
}

/// Whether a mark unrolls what is no inner loop of a split.
fn is_bad_unroll(mark: Mark, stage_loop: &Loop) -> bool
    ensures { result ≡ spec.is_bad_unroll mark stage_loop.now }
{
    same_mark(mark, Mark::Unrolled) && stage_loop.inner_of.is_none()
}

/// The stage after a line that marks a loop.
fn mark(
    alloc: Global,
    stage: &Stage,
    name: &[u8],
    marked: Marked,
) -> Result<Stage, ReadError<ScheduleFault>>
    ensures { Gives (λ x. x) result (spec.mark stage.now name.now marked) }
{
    match find_open(stage.loops.as_slice(), name) {
        None => Err(ReadError::Fault(ScheduleFault::UnknownLoop)),
        Some(own) => {
            if is_bad_unroll(marked.mark, own) {
                Err(ReadError::Fault(ScheduleFault::UnrolledLoop))
            } else {
                Ok(mark_loop(alloc, stage, own, name, marked)?)
            }
        }
    }
}

/// The stage after a line about its loops, which has this number.
///
/// # Errors
///
/// The line's least fault; memory ran out.
#[tactic(auto, unfolding(crate::specs::Directives::directed))]
pub fn directed(
    alloc: Global,
    is_update: bool,
    stage: &Stage,
    line: u64,
    directive: &LoopDirective,
) -> Result<Stage, ReadError<ScheduleFault>>
    ensures { Gives (λ x. x) result (spec.directed is_update stage.now line directive.now) }
{
    match directive {
        LoopDirective::Split(parts) => Ok(split(alloc, is_update, stage, parts)?),
        LoopDirective::Reorder(names) => Ok(reorder(alloc, stage, names.as_slice())?),
        LoopDirective::Mark(kind, name) => {
            let marked = Marked { mark: *kind, line };
            Ok(mark(alloc, stage, name.as_slice(), marked)?)
        }
    }
}
