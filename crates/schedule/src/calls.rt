//! Which Funcs a definition calls.

ghost use Rattle.std.specs.Prelude.{◌≡◌};
ghost use Rattle.schedule.specs.Placements as spec;

use halide_pipeline::{Expr, Func, Pipeline, Source, Update};

fn is_func(source: Source, func: usize) -> bool
    ensures { result ≡ spec.is_func func source }
{
    match source {
        Source::Input(_) => false,
        Source::Func(place) => place == func,
    }
}

/// Whether an expression calls a Func.
#[tactic(auto, unfolding(crate::specs::Placements::calls))]
fn calls(expression: &Expr, func: usize) -> bool
    ensures { result ≡ spec.calls func expression.now }
{
    match expression {
        Expr::Number(_) | Expr::Variable(_) => false,
        Expr::Divide(a, _) | Expr::Remainder(a, _) => calls(a.get(), func),
        Expr::Binary(_, a, b) => calls(a.get(), func) || calls(b.get(), func),
        Expr::Select(c, a, b) => {
            calls(c.get(), func) || calls(a.get(), func) || calls(b.get(), func)
        }
        Expr::Call1(source, a) => is_func(*source, func) || calls(a.get(), func),
        Expr::Call2(source, a, b) => {
            is_func(*source, func) || calls(a.get(), func) || calls(b.get(), func)
        }
    }
}

fn second_calls(expression: &Option<Expr>, func: usize) -> bool
    ensures { result ≡ spec.second_calls func expression.now }
{
    match expression {
        None => false,
        Some(expression) => calls(expression, func),
    }
}

fn update_calls(update: &Update, func: usize) -> bool
    ensures { result ≡ spec.update_calls func update.now }
{
    calls(&update.left_x, func) || second_calls(&update.left_y, func) || calls(&update.right, func)
}

fn updates_call(updates: &[Update], func: usize) -> bool
    ensures { result ≡ spec.updates_call func updates.now }
{
    match updates {
        [] => false,
        [first, others @ ..] => update_calls(first, func) || updates_call(others, func),
    }
}

/// Whether a Func calls another, in its pure definition or in its updates.
#[tactic(auto, unfolding(crate::specs::Placements::func_calls))]
fn func_calls(own_func: &Func, func: usize) -> bool
    ensures { result ≡ spec.func_calls func own_func.now }
{
    calls(&own_func.pure, func) || updates_call(own_func.updates.as_slice(), func)
}

/// Whether the Func at a place calls the Func at another.
#[tactic(auto, unfolding(crate::specs::Placements::place_calls))]
pub fn place_calls(pipeline: &Pipeline, from: usize, func: usize) -> bool
    ensures { result ≡ spec.place_calls pipeline.now from func }
{
    match pipeline.func(from) {
        None => false,
        Some(own) => func_calls(own, func),
    }
}
