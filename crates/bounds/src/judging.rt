//! Whether boxes can be compiled.

ghost use Rattle.std.specs.Prelude.{◌≡◌, IfOk};
ghost use Rattle.std.specs.List.{AllByRecursion};
ghost use Rattle.schedule_loops.specs.Visits.{AreSplits, shifts_fit};
ghost use Rattle.bounds_ranges.specs.Ranges.{IsFit};
ghost use Rattle.bounds.specs.Boxes.{AreBoxes, IsBox};
ghost use Rattle.bounds.specs.Verdict as spec;
ghost use Rattle.bounds.specs.Views.{IsSmallPlan};
ghost use Rattle.bounds.specs.Extents.{extents_of};

use crate::boxes::{SourceBox, points};
use crate::views::sizes_of;
use bounds_ranges::ranges::{Lasts, ORIGIN, Range, widened};
use halide_pipeline::{Input, MOST_POINTS};
use schedule::FuncPlan;
use std::alloc::{AllocError, Global};

/// Whether a range stays within the numbers from 0 to an extent less 1.
fn is_within(lasts: &Lasts, range: &Range, extent: u32) -> bool
    requires { IsFit lasts.now range.now }
    ensures { result ≡ spec.is_within lasts.now range.now extent }
{
    let ends = widened(lasts, range);
    ORIGIN <= ends.low && ends.high < ORIGIN + u64::from(extent)
}

/// Whether an input is read within its extents alone.
fn input_holds(input: &Input, source_box: &SourceBox) -> bool
    requires { IsBox source_box.now }
    ensures { result ≡ spec.input_holds input.now source_box.now }
{
    is_within(&source_box.lasts, &source_box.x, input.width)
        && is_within(&source_box.lasts, &source_box.y, input.height)
}

/// Whether all inputs are.
pub fn inputs_hold(inputs: &[Input], boxes: &[Option<SourceBox>]) -> bool
    requires { AreBoxes boxes.now }
    ensures { result ≡ spec.inputs_hold inputs.now boxes.now }
{
    match inputs {
        [] => true,
        [input, others @ ..] => match boxes {
            [] => true,
            [None, behind @ ..] => inputs_hold(others, behind),
            [Some(own), behind @ ..] => input_holds(input, own) && inputs_hold(others, behind),
        },
    }
}

/// Whether each shifted split of a pure definition is of a loop whose extent is not below its factor.
fn shifts_hold_of(
    alloc: Global,
    plan: &FuncPlan,
    source_box: &SourceBox,
) -> Result<bool, AllocError>
    requires splits { AreSplits plan.now.pure.splits }
    requires near { IsBox source_box.now }
    ensures { IfOk result (λ holds. holds ≡ shifts_fit (extents_of source_box.now) plan.now.pure.splits) }
{
    let sizes = sizes_of(alloc, &plan.pure, source_box)?;
    Ok(sizes.shifts_fit())
}

/// The same of all Funcs that are computed.
pub fn shifts_hold(
    alloc: Global,
    plans: &[FuncPlan],
    boxes: &[Option<SourceBox>],
) -> Result<bool, AllocError>
    requires small { AllByRecursion IsSmallPlan plans.now }
    requires boxes { AreBoxes boxes.now }
    ensures { IfOk result (λ holds. holds ≡ spec.shifts_hold plans.now boxes.now) }
{
    match plans {
        [] => Ok(true),
        [plan, others @ ..] => match boxes {
            [] => Ok(true),
            [None, behind @ ..] => {
                let holds = shifts_hold(alloc, others, behind)?;
                Ok(holds)
            }
            [Some(own), behind @ ..] => {
                let own = shifts_hold_of(alloc, plan, own)?;
                let rest = shifts_hold(alloc, others, behind)?;
                Ok(own && rest)
            }
        },
    }
}

/// Whether no box has more than 1,048,576 points.
pub fn have_few_points(boxes: &[Option<SourceBox>]) -> bool
    requires { AreBoxes boxes.now }
    ensures { result ≡ spec.have_few_points boxes.now }
{
    match boxes {
        [] => true,
        [None, others @ ..] => have_few_points(others),
        [Some(own), others @ ..] => points(own) <= MOST_POINTS && have_few_points(others),
    }
}
