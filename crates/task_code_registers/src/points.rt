//! Addresses of points as forms.

ghost use Rattle.std.specs.Prelude.{◌≡◌, ◌++◌, IfOk, OnOk};
ghost use Rattle.task_code_scalar.specs.Code.{pixel_bytes};
ghost use Rattle.task_code_registers.specs.Points.{IsPoint, times};

use crate::scopes::AffineForm;
use crate::terms::with_room;
use halide_pipeline::words;
use loop_ir::expressions::{Linear, Term};
use sqlite_items::Items;
use std::alloc::{AllocError, Global};
use task_code_scalar::layouts::{BufferLayout, Pixels};

/// Appends terms times a number.
fn add_times(new_terms: &mut Items<Term>, terms: &[Term], factor: u32) -> Result<(), AllocError>
    ensures { OnOk result (new_terms.new ≡ new_terms.old ++ times factor terms.now) }
{
    match terms {
        [] => Ok(()),
        [first, others @ ..] => {
            let stride = words::multiply(first.stride, factor);
            new_terms.push(Term {
                counter: first.counter,
                stride,
            })?;
            add_times(new_terms, others, factor)?;
            Ok(())
        }
    }
}

fn bytes_of(pixels: Pixels) -> u32
    ensures { result ≡ pixel_bytes pixels }
{
    match pixels {
        Pixels::Words => 4,
        Pixels::Bytes => 1,
    }
}

/// The address of the point at a column and a row: of the hart's own copy, where each hart has one.
///
/// # Errors
///
/// Memory ran out.
pub fn point_form(
    alloc: Global,
    layout: &BufferLayout,
    x: &Linear,
    y: &Linear,
) -> Result<AffineForm, AllocError>
    ensures { IfOk result (IsPoint layout.now x.now y.now) }
{
    let bytes = bytes_of(layout.pixels);
    let row = words::multiply(bytes, layout.width);
    let mut terms = with_room(alloc, y.terms.len().saturating_add(x.terms.len()))?;
    add_times(&mut terms, y.terms.as_slice(), row)?;
    add_times(&mut terms, x.terms.as_slice(), bytes)?;
    let rows = words::multiply(y.number, row);
    let columns = words::multiply(x.number, bytes);
    let far = words::add(rows, columns);
    let number = words::add(layout.start, far);
    Ok(AffineForm {
        sum: Linear { number, terms },
        per_hart: layout.distance,
    })
}
