//! For how much of an expression the stack has no room. Each part of it is asked a few times in all, whatever its
//! shape.

ghost use Rattle.std.specs.Prelude.{◌≡◌, ◌+◌, ◌<◌, ◌≤◌, ◌⊎◌, ℕ, if◌then◌else◌, max, min};
ghost use Rattle.loop_ir.specs.Needs as needs;
ghost use Rattle.task_code_values.specs.Depths as spec;

use crate::needs::{is_leaf, larger};
use loop_ir::expressions::Expr;

/// How many registers the stack has.
pub const STACK: u32 = 12;
/// More than it has.
const OVER: u32 = 13;
/// First operands are counted up to this.
const MOST: u32 = 1_000_000;

// ---- how high the stack grows, counted up to one more than it has registers

fn pair_height(taken: u32, first: u32, second_is_leaf: bool, second: u32) -> u32
    ensures { (m n : ℕ) → first ≡ min (taken + m) 13 → second ≡ min (taken + 1 + n) 13 →
        result ≡ min (taken + max m (if second_is_leaf then 0 else 1 + n)) 13 }
{
    if second_is_leaf {
        first
    } else {
        larger(first, second)
    }
}

fn divided_height(taken: u32, first: u32, divisor: u32) -> u32
    requires { taken < 12 }
    ensures { (m : ℕ) → first ≡ min (taken + m) 13 → result ≡ min (taken + max m (needs.divisor_need divisor)) 13 }
{
    if divisor == 0 {
        OVER
    } else {
        larger(first, taken + 2)
    }
}

fn triple_height(taken: u32, first: u32, second: u32, third: u32) -> u32
    ensures { (l m n : ℕ) → first ≡ min (taken + l) 13 → second ≡ min (taken + 1 + m) 13 →
        third ≡ min (taken + 2 + n) 13 → result ≡ min (taken + max l (max (1 + m) (2 + n))) 13 }
{
    larger(first, larger(second, third))
}

/// How high the stack grows where an expression is made above this many registers. No part is asked for which they are
/// all.
#[tactic(auto, unfolding(loop_ir::specs::Needs::need_of))]
fn height(e: &Expr, taken: u32) -> u32
    ensures { result ≡ min (taken + needs.need e.now) 13 }
{
    if taken >= STACK {
        return OVER;
    }
    match e {
        Expr::Number(_) => taken + 1,
        Expr::Linear(_) => taken + 1,
        Expr::Binary(_, a, b) => {
            let first = height(a.get(), taken);
            let second = height(b.get(), taken + 1);
            pair_height(taken, first, is_leaf(b.get()), second)
        }
        Expr::Divide(a, divisor) => divided_height(taken, height(a.get(), taken), *divisor),
        Expr::Remainder(a, divisor) => divided_height(taken, height(a.get(), taken), *divisor),
        Expr::Select(c, a, b) => {
            let first = height(c.get(), taken);
            let second = height(a.get(), taken + 1);
            let third = height(b.get(), taken + 2);
            triple_height(taken, first, second, third)
        }
        Expr::Load(_, x, y) => {
            let first = height(x.get(), taken);
            let second = height(y.get(), taken + 1);
            pair_height(taken, first, is_leaf(y.get()), second)
        }
    }
}

// ---- how many first operands are over it

/// How high a second operand grows beside a first one.
fn beside_height(e: &Expr) -> u32
    ensures { result ≡ min (needs.beside_first (needs.need_of e.now)) 13 }
{
    if is_leaf(e) { 0 } else { height(e, 1) }
}

fn divisor_height(divisor: u32) -> u32
    ensures { result ≡ min (needs.divisor_need divisor) 13 }
{
    if divisor == 0 { OVER } else { 2 }
}

/// One more than there are of the first operand; where there are none, one if the others are over the stack.
fn one_more(first: u32, others: u32) -> u32
    ensures most { result ≤ 1 + first }
    ensures none { result ≡ 0 → (first ≡ 0) × (others ≤ 12) }
    ensures some { 0 < result → (0 < first) ⊎ (12 < others) }
{
    if first > 0 {
        if first < MOST { first + 1 } else { first }
    } else {
        if others > STACK { 1 } else { 0 }
    }
}

/// For how many expressions the stack has no room: the expression itself, its first operand, the first operand of that
/// one and so on. Of very many not all are counted.
pub fn depth(e: &Expr) -> u32
    ensures { (result ≤ spec.depth e.now) × (result ≡ 0 → needs.need e.now ≤ 12) }
{
    match e {
        Expr::Number(_) => 0,
        Expr::Linear(_) => 0,
        Expr::Binary(_, a, b) => one_more(depth(a.get()), beside_height(b.get())),
        Expr::Divide(a, divisor) => one_more(depth(a.get()), divisor_height(*divisor)),
        Expr::Remainder(a, divisor) => one_more(depth(a.get()), divisor_height(*divisor)),
        Expr::Select(c, a, b) => {
            let others = larger(height(a.get(), 1), height(b.get(), 2));
            one_more(depth(c.get()), others)
        }
        Expr::Load(_, x, y) => one_more(depth(x.get()), beside_height(y.get())),
    }
}

/// The same where this many are known: it asks only where none is.
pub(crate) fn known_depth(e: &Expr, known: u32) -> u32
    requires { known ≤ spec.depth e.now }
    ensures { (result ≤ spec.depth e.now) × (result ≡ 0 → needs.need e.now ≤ 12) }
{
    if known > 0 { known } else { depth(e) }
}
