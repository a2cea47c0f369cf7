//! What a line gives, or its least fault.

ghost use Rattle.std.specs.Prelude.{◌≡◌, Result};
ghost use Rattle.assembler.specs.Judging.{Given};
ghost use Rattle.assembler.specs.declared.faults.AsmFault.{AsmFault};
ghost use Rattle.assembler.specs.Places.{after};
ghost use Rattle.assembler.specs.Lines as spec;
ghost use Rattle.assembler.specs.Products.{Performs};
ghost use Rattle.assembler.specs.Building.{GivesLine};

use crate::commands::perform;
use crate::faults::{AsmFault, both, unless};
use crate::locations::LineLocation;
use crate::operations::LineOperation;
use crate::products::LineProduct;
use crate::surveys::{Here, Survey, place_after};
use assembler_syntax::{Head, Statement, head_of, statement_of};
use line_text::ReadError;
use memory::{MOST_BYTES, MOST_WORDS};
use sqlite_items::Items;
use std::alloc::Global;

/// So many operands of a line are kept. None takes as many, so those that follow them change nothing.
const MOST_OPERANDS: usize = 8;

/// What a statement's mnemonic and operands give, if it has them.
fn command(survey: &Survey, here: Here, statement: &Statement) -> Result<LineProduct, AsmFault>
    ensures { Performs (spec.commanded (record { survey = survey.now; here = here }) statement.now.command) result }
{
    match &statement.command {
        None => Ok(LineProduct::Nothing),
        Some(command) => perform(
            survey,
            here,
            LineOperation::named(command.mnemonic.as_slice()),
            command.operands.as_slice(),
        ),
    }
}

/// Whether a line's label, if it has one, is defined by no line before it.
fn is_new(survey: &Survey, here: Here, label: &Option<Items<u8>>) -> bool
    ensures { result ≡ spec.is_new (record { survey = survey.now; here = here }) label.now }
{
    let Some(name) = label else {
        return true;
    };
    match survey.labels.get(name.as_slice()) {
        None => true,
        Some(label) => label.line == here.line,
    }
}

/// Whether text and data up to a place are within the machine's limits.
fn fits(place: LineLocation) -> bool
    ensures { result ≡ spec.fits place }
{
    place.words <= MOST_WORDS as u64 && place.bytes <= MOST_BYTES as u64
}

/// A command's product, unless it or another judgement of its line has a fault: the least.
fn with_others(
    product: Result<LineProduct, AsmFault>,
    others: Result<((), ()), AsmFault>,
) -> Result<LineProduct, AsmFault>
    ensures { (given : Result Given AsmFault) → Performs given product
        → Performs (spec.with_others given others) result }
{
    let (product, _) = both(product, others)?;
    Ok(product)
}

/// What a statement gives, where the next line lies after it, or the least of its faults.
#[tactic(auto, unfolding(crate::specs::Lines::stated))]
fn stated(
    survey: &Survey,
    here: Here,
    behind: LineLocation,
    statement: &Statement,
) -> Result<LineProduct, AsmFault>
    ensures { Performs (spec.stated (record { survey = survey.now; here = here }) behind statement.now) result }
{
    let label = unless(AsmFault::LabelTwice, is_new(survey, here, &statement.label));
    let size = unless(AsmFault::TooLarge, fits(behind));
    with_others(command(survey, here, statement), both(label, size))
}

/// The place after a line's front.
#[tactic(auto, unfolding(crate::specs::Places::after))]
fn behind(place: LineLocation, head: &Head) -> LineLocation
    ensures { result ≡ after place head.now }
{
    place_after(place, head.number, LineOperation::of(head))
}

/// What a line gives and where the next one lies, or its least fault.
///
/// # Errors
///
/// The fault; memory ran out.
pub fn line_product(
    alloc: Global,
    survey: &Survey,
    here: Here,
    line: &[u8],
) -> Result<(LineProduct, LineLocation), ReadError<AsmFault>>
    ensures { GivesLine survey.now here line.now result }
{
    let behind = behind(here.place, &head_of(alloc, line)?);
    let Some(statement) = statement_of(alloc, line, MOST_OPERANDS)? else {
        return Err(ReadError::Fault(AsmFault::Syntax));
    };
    match stated(survey, here, behind, &statement) {
        Ok(product) => Ok((product, behind)),
        Err(fault) => Err(ReadError::Fault(fault)),
    }
}
