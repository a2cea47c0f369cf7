//! Assembling a whole text.

ghost use Rattle.std.specs.Prelude.{◌≡◌, ◌<◌, ◌+◌, ◌^◌, ℕ, Ok, IfOk};
ghost use Rattle.loader.specs.Image.{judged};
ghost use Rattle.assembler.specs.Object.{Assembled};
ghost use Rattle.assembler.specs.Building.{IsBuilt, TakesLine, Assembles};

use crate::building::Building;
use crate::faults::AsmFault;
use crate::lines::line_product;
use crate::objects::Object;
use crate::surveys::Survey;
use line_text::lines::first_line;
use line_text::{LocatedError, ReadError};
use std::alloc::Global;

/// Judges a line and adds what it gives.
fn take_line(
    alloc: Global,
    survey: &Survey,
    building: &mut Building,
    line: &[u8],
) -> Result<(), ReadError<AsmFault>>
    requires { building.old.here.line + 1 < 2 ^ 64 }
    ensures { (so_far : Assembled) → IsBuilt building.old so_far
        → TakesLine survey.now so_far line.now result building.new }
{
    let (product, behind) = line_product(alloc, survey, building.here, line)?;
    building.add_line(product, behind)?;
    Ok(())
}

/// The object that a text means: its entry, words, bytes and output.
///
/// # Errors
///
/// The number of the first faulty line, from 1, and its least fault; memory ran out.
pub fn assemble(text: &str, alloc: Global) -> Result<Object, LocatedError<AsmFault>>
    ensures object { Assembles text.now result }
    ensures rules { IfOk result (λ object. judged object ≡ Ok object) }
{
    let bytes = text.as_bytes();
    let survey = Survey::of(alloc, bytes)?;
    let mut building = Building::new(alloc);
    let mut rest = bytes;
    'lines: while !rest.is_empty() {
        let number = building.here.line;
        let (line, after) = first_line(rest);
        match take_line(alloc, &survey, &mut building, line) {
            Ok(()) => {}
            Err(error) => return Err(error.at_line(number)),
        }
        rest = after;
    }
    match building.finish() {
        Some(object) => Ok(object),
        None => Err(LocatedError::Fault(1, AsmFault::Syntax)),
    }
}
