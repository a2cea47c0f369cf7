//! How many registers of the stack an expression needs.

ghost use Rattle.std.specs.Prelude.{◌≡◌, ◌+◌, ◌≤◌, ℕ, [], if◌then◌else◌, max, min, true};
ghost use Rattle.halide_pipeline.specs.Pixel.{Reads};
ghost use Rattle.loop_ir.specs.Counters.{Values};
ghost use Rattle.loop_ir.specs.Expressions.{loads};
ghost use Rattle.loop_ir.specs.Needs as spec;
ghost use Rattle.loop_ir.specs.Sizes as sizes;

use loop_ir::expressions::Expr;

/// Needs are counted up to this: a frame has fewer words.
const MOST: u32 = 2000;

pub(crate) fn larger(a: u32, b: u32) -> u32
    ensures { result ≡ max a b }
{
    if a < b { b } else { a }
}

fn beside(need: u32, taken: u32) -> u32
    requires { (need ≤ 2000) × (taken ≤ 2) }
    ensures { result ≡ min (taken + need) 2000 }
{
    if need + taken < MOST {
        need + taken
    } else {
        MOST
    }
}

fn pair_need(first: u32, second_is_leaf: bool, second: u32) -> u32
    requires { (first ≤ 2000) × (second ≤ 2000) }
    ensures { (m n : ℕ) → first ≡ min m 2000 → second ≡ min n 2000 →
        result ≡ min (max m (if second_is_leaf then 0 else 1 + n)) 2000 }
{
    if second_is_leaf {
        first
    } else {
        larger(first, beside(second, 1))
    }
}

fn divided_need(first: u32, divisor: u32) -> u32
    requires { first ≤ 2000 }
    ensures { (m : ℕ) → first ≡ min m 2000 → result ≡ min (max m (spec.divisor_need divisor)) 2000 }
{
    if divisor == 0 { MOST } else { larger(first, 2) }
}

fn triple_need(first: u32, second: u32, third: u32) -> u32
    requires { (first ≤ 2000) × (second ≤ 2000) × (third ≤ 2000) }
    ensures { (l m n : ℕ) → first ≡ min l 2000 → second ≡ min m 2000 → third ≡ min n 2000 →
        result ≡ min (max l (max (1 + m) (2 + n))) 2000 }
{
    larger(first, larger(beside(second, 1), beside(third, 2)))
}

/// Whether an expression is a number or a sum, so that it loads nothing.
#[tactic(auto, unfolding(loop_ir::specs::Needs::need_of, loop_ir::specs::Sizes::size_of))]
pub fn is_leaf(e: &Expr) -> bool
    ensures need { result ≡ (spec.need_of e.now).is_leaf }
    ensures size { result ≡ (sizes.size_of e.now).is_leaf }
    ensures blind { result ≡ true → (reads : Reads) (values : Values) → loads reads values e.now ≡ [] }
{
    match e {
        Expr::Number(_) => true,
        Expr::Linear(_) => true,
        Expr::Binary(_, _, _) => false,
        Expr::Divide(_, _) => false,
        Expr::Remainder(_, _) => false,
        Expr::Select(_, _, _) => false,
        Expr::Load(_, _, _) => false,
    }
}

/// How many registers it needs.
#[tactic(auto, unfolding(loop_ir::specs::Needs::need_of))]
pub fn need(e: &Expr) -> u32
    ensures { result ≡ min (spec.need e.now) 2000 }
{
    match e {
        Expr::Number(_) => 1,
        Expr::Linear(_) => 1,
        Expr::Binary(_, a, b) => pair_need(need(a.get()), is_leaf(b.get()), need(b.get())),
        Expr::Divide(a, divisor) => divided_need(need(a.get()), *divisor),
        Expr::Remainder(a, divisor) => divided_need(need(a.get()), *divisor),
        Expr::Select(c, a, b) => triple_need(need(c.get()), need(a.get()), need(b.get())),
        Expr::Load(_, x, y) => pair_need(need(x.get()), is_leaf(y.get()), need(y.get())),
    }
}
