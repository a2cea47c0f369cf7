//! How many words of code a task may ask for, counted up to 2^18: no text has more.

ghost use Rattle.std.specs.Prelude.{◌≡◌, ℕ, ◌+◌, ◌*◌, ◌^◌, ◌≤◌, if◌then◌else◌, min};
ghost use Rattle.loop_ir.specs.Sizes as spec;
ghost use Rattle.task_code.specs.Tasks.{task_size};

use loop_ir::expressions::Expr;
use loop_ir::statements::{LoopKind, Phase, Stmt, Store};
use task_code_values::needs::is_leaf;

fn plus(a: u32, b: u32) -> u32
    requires { (a ≤ 2 ^ 18) × (b ≤ 2 ^ 18) }
    ensures { (result ≤ 2 ^ 18) × ((m n : ℕ) → a ≡ min m (2 ^ 18) → b ≡ min n (2 ^ 18)
        → result ≡ min (m + n) (2 ^ 18)) }
{
    if a + b < 1 << 18 { a + b } else { 1 << 18 }
}

/// Of a sum of this many terms.
fn sum_size(terms: usize) -> u32
    ensures { (result ≤ 2 ^ 18) × (result ≡ min (2 + 4 * terms) (2 ^ 18)) }
{
    if terms < 1 << 16 {
        2 + 4 * terms as u32
    } else {
        1 << 18
    }
}

/// What it takes to keep a first operand while a second one is made, and this many more.
fn kept(second_is_leaf: bool, more: u32) -> u32
    requires { more ≤ 100 }
    ensures { (result ≤ 200) × (result ≡ (if second_is_leaf then 0 else 15) + more) }
{
    if second_is_leaf { more } else { 15 + more }
}

fn size(e: &Expr) -> u32
    ensures { (result ≤ 2 ^ 18) × (result ≡ min (spec.size e.now) (2 ^ 18)) }
{
    match e {
        Expr::Number(_) => 2,
        Expr::Linear(own) => sum_size(own.terms.len()),
        Expr::Binary(_, a, b) => plus(
            plus(size(a.get()), size(b.get())),
            kept(is_leaf(b.get()), 4),
        ),
        Expr::Divide(a, _) => plus(size(a.get()), 11),
        Expr::Remainder(a, _) => plus(size(a.get()), 13),
        Expr::Select(c, a, b) => plus(plus(plus(size(c.get()), size(a.get())), size(b.get())), 33),
        Expr::Load(_, x, y) => plus(
            plus(size(x.get()), size(y.get())),
            kept(is_leaf(y.get()), 13),
        ),
    }
}

fn store_size(store: &Store) -> u32
    ensures { (result ≤ 2 ^ 18) × (result ≡ min (spec.store_size store.now) (2 ^ 18)) }
{
    plus(
        plus(plus(size(&store.x), size(&store.y)), size(&store.value)),
        18,
    )
}

/// Whether a loop of this kind is laid out, one copy of its body an iteration.
fn is_laid_out(kind: LoopKind) -> bool
    ensures { result ≡ spec.is_laid_out kind }
{
    match kind {
        LoopKind::Serial => false,
        LoopKind::Unrolled => true,
        LoopKind::Vectorized => false,
    }
}

/// Whether there is a copy of a loop's body for each iteration.
fn are_copies(is_laid: bool, count: u32) -> bool
    ensures { result ≡ spec.are_copies is_laid count }
{
    is_laid && count > 0
}

/// This many times a size.
fn times(count: u32, size: u32) -> u32
    ensures { (result ≤ 2 ^ 18) × (result ≡ min (count * size) (2 ^ 18)) }
{
    let product = (count as u64).saturating_mul(size as u64);
    if product < 1 << 18 {
        product as u32
    } else {
        1 << 18
    }
}

/// Of a loop of this many iterations around a body of this many words.
fn loop_size(is_laid: bool, count: u32, body: u32) -> u32
    requires { body ≤ 2 ^ 18 }
    ensures { (result ≤ 2 ^ 18) × ((n : ℕ) → body ≡ min n (2 ^ 18)
        → result ≡ min (spec.loop_size is_laid count n) (2 ^ 18)) }
{
    if are_copies(is_laid, count) {
        plus(times(count, plus(body, 1)), 1)
    } else {
        plus(body, 7)
    }
}

/// Of all of a statement, or 2^18 where it is more.
fn whole_size(stmt: &Stmt) -> u32
    ensures { (result ≤ 2 ^ 18) × (result ≡ min (spec.whole_size stmt.now) (2 ^ 18)) }
{
    match stmt {
        Stmt::Store(store) => store_size(store),
        Stmt::Sequence(first, second) => plus(whole_size(first.get()), whole_size(second.get())),
        Stmt::For(_, count, kind, body) => {
            let loop_words = loop_size(is_laid_out(*kind), *count, whole_size(body.get()));
            plus(loop_words, 31)
        }
        Stmt::Bind(_, _, _, body) => plus(whole_size(body.get()), 25),
    }
}

/// Of one task of a phase, or 2^18 where it is more.
pub(crate) fn task_size(phase: &Phase) -> u32
    ensures { result ≡ min (task_size phase.now) (2 ^ 18) }
{
    plus(whole_size(&phase.body), 8)
}
