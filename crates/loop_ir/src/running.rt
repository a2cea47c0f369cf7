//! What statements do.

ghost use Rattle.std.specs.Prelude.{◌≡◌, ◌%◌, ◌^◌};
ghost use Rattle.halide_pipeline.specs.Pixel.{reads_of};
ghost use Rattle.loop_ir.specs.Buffers.{planes, points_of, put};
ghost use Rattle.loop_ir.specs.Counters.{values_of};
ghost use Rattle.loop_ir.specs.Expressions as expression;
ghost use Rattle.loop_ir.specs.Running as spec;

use crate::buffers::Buffer;
use crate::expressions::{Counter, Expr, Linear, Term, same_counter};
use crate::statements::{Phase, Stmt, Store, Whole};
use halide_pipeline::{Source, words};

/// Which values counters have, of which the latest is first. It is on the call stack, and takes no memory.
#[derive(Clone, Copy)]
pub enum Bindings<'a> {
    Empty,
    Bound(Counter, u32, &'a Bindings<'a>),
}

/// The value of a counter; 0 where none is bound to it.
#[tactic(auto, unfolding(crate::specs::Counters::values_of))]
fn bound_value(bindings: &Bindings, counter: Counter) -> u32
    ensures { result ≡ values_of bindings.now counter }
{
    match bindings {
        Bindings::Empty => 0,
        Bindings::Bound(latest, value, outer) => {
            if same_counter(counter, *latest) {
                *value
            } else {
                bound_value(outer, counter)
            }
        }
    }
}

/// What the buffer at a place holds at a point; 0 where there is none.
fn pixel_of(buffers: &[Buffer], buffer_index: usize, x: u32, y: u32) -> u32
    ensures { result ≡ planes buffers.now buffer_index x y }
{
    match buffers.get(buffer_index) {
        Some(buffer) => buffer.get(x, y),
        None => 0,
    }
}

/// The sum of terms, modulo 2^32.
fn sum_of(terms: &[Term], bindings: &Bindings) -> u32
    ensures { result ≡ expression.sum_of (values_of bindings.now) terms.now % 2 ^ 32 }
{
    match terms {
        [] => 0,
        [first, others @ ..] => {
            let product = words::multiply(bound_value(bindings, first.counter), first.stride);
            words::add(product, sum_of(others, bindings))
        }
    }
}

/// The value of a linear expression.
#[tactic(auto, unfolding(crate::specs::Expressions::linear_value))]
fn linear_value(sum: &Linear, bindings: &Bindings) -> u32
    ensures { result ≡ expression.linear_value (values_of bindings.now) sum.now }
{
    words::add(sum.number, sum_of(sum.terms.as_slice(), bindings))
}

/// The value of an expression.
#[tactic(auto, unfolding(crate::specs::Expressions::value))]
fn evaluate(expr: &Expr, inputs: &[Buffer], funcs: &[Buffer], bindings: &Bindings) -> u32
    ensures { result ≡ expression.value (reads_of (planes inputs.now) (planes funcs.now)) (values_of bindings.now)
        expr.now }
{
    match expr {
        Expr::Number(number) => *number,
        Expr::Linear(own) => linear_value(own, bindings),
        Expr::Binary(operation, a, b) => {
            let a = evaluate(a.get(), inputs, funcs, bindings);
            operation.apply(a, evaluate(b.get(), inputs, funcs, bindings))
        }
        Expr::Divide(a, divisor) => words::divide(
            evaluate(a.get(), inputs, funcs, bindings),
            *divisor,
        ),
        Expr::Remainder(a, divisor) => words::remainder(
            evaluate(a.get(), inputs, funcs, bindings),
            *divisor,
        ),
        Expr::Select(c, a, b) => {
            if evaluate(c.get(), inputs, funcs, bindings) == 0 {
                evaluate(b.get(), inputs, funcs, bindings)
            } else {
                evaluate(a.get(), inputs, funcs, bindings)
            }
        }
        Expr::Load(source, x, y) => {
            let x = evaluate(x.get(), inputs, funcs, bindings);
            let y = evaluate(y.get(), inputs, funcs, bindings);
            match source {
                Source::Input(place) => pixel_of(inputs, *place, x, y),
                Source::Func(place) => pixel_of(funcs, *place, x, y),
            }
        }
    }
}

/// Writes a pixel of the buffer at a place, where there is that point.
fn write(buffers: &mut [Buffer], buffer_index: usize, x: u32, y: u32, pixel: u32)
    ensures points { points_of buffers.new ≡ points_of buffers.old }
    ensures after { planes buffers.new ≡ put (points_of buffers.old) buffer_index x y pixel (planes buffers.old) }
{
    if buffer_index < buffers.len() {
        buffers[buffer_index].set(x, y, pixel);
    }
}

/// Makes a store.
fn execute_store(store: &Store, inputs: &[Buffer], bindings: &Bindings, funcs: &mut [Buffer])
    ensures points { points_of funcs.new ≡ points_of funcs.old }
    ensures after { planes funcs.new
        ≡ spec.stored (points_of funcs.old) (reads_of (planes inputs.now) (planes funcs.old)) store.now
        (values_of bindings.now) (planes funcs.old) }
{
    let x = evaluate(&store.x, inputs, funcs, bindings);
    let y = evaluate(&store.y, inputs, funcs, bindings);
    let pixel = evaluate(&store.value, inputs, funcs, bindings);
    write(funcs, store.func, x, y, pixel);
}

/// The value of a split loop.
fn whole_value(whole: &Whole, bindings: &Bindings) -> u32
    ensures { result ≡ spec.whole_value whole.now (values_of bindings.now) }
{
    let begin = words::multiply(bound_value(bindings, whole.outer), whole.factor);
    let begin = match whole.last {
        Some(last) => begin.min(last),
        None => begin,
    };
    words::add(begin, bound_value(bindings, whole.inner))
}

/// Runs a statement.
#[tactic(auto, unfolding(crate::specs::Running::run))]
fn execute(stmt: &Stmt, inputs: &[Buffer], bindings: &Bindings, funcs: &mut [Buffer])
    ensures points { points_of funcs.new ≡ points_of funcs.old }
    ensures after { planes funcs.new ≡ spec.run (points_of funcs.old) (planes inputs.now) stmt.now (values_of
        bindings.now) (planes funcs.old) }
{
    match stmt {
        Stmt::Store(store) => execute_store(store, inputs, bindings, funcs),
        Stmt::Sequence(first, second) => {
            execute(first.get(), inputs, bindings, funcs);
            execute(second.get(), inputs, bindings, funcs);
        }
        Stmt::For(counter, count, _, body) => {
            for iteration in 0..*count {
                let inside = Bindings::Bound(*counter, iteration, &*bindings);
                execute(body.get(), inputs, &inside, funcs);
            }
        }
        Stmt::Bind(counter, whole, extent, body) => {
            let value = whole_value(whole, bindings);
            if value < *extent {
                let inside = Bindings::Bound(*counter, value, &*bindings);
                execute(body.get(), inputs, &inside, funcs);
            }
        }
    }
}

/// Runs a task of a phase, which has a number below their count.
pub fn run_task(phase: &Phase, task: u32, inputs: &[Buffer], funcs: &mut [Buffer])
    ensures points { points_of funcs.new ≡ points_of funcs.old }
    ensures after { planes funcs.new ≡ spec.run_task (points_of funcs.old) (planes inputs.now) phase.now task (planes
        funcs.old) }
{
    let outside = Bindings::Empty;
    match phase.counter {
        Some(counter) => {
            let bindings = Bindings::Bound(counter, task, &outside);
            execute(&phase.body, inputs, &bindings, funcs);
        }
        None => execute(&phase.body, inputs, &outside, funcs),
    }
}

/// Runs all tasks of a phase, in rising order.
pub fn run_phase(phase: &Phase, inputs: &[Buffer], funcs: &mut [Buffer])
    ensures points { points_of funcs.new ≡ points_of funcs.old }
    ensures after { planes funcs.new ≡ spec.run_phase (points_of funcs.old) (planes inputs.now) phase.now (planes
        funcs.old) }
{
    for task in 0..phase.tasks {
        run_task(phase, task, inputs, funcs);
    }
}
