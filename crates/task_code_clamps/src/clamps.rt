//! What expressions are without clamps that cut nothing off, part by part.

ghost use Rattle.std.specs.Prelude.{◌&&◌, ◌<◌, ◌^◌, ◌≡◌, ℕ, List, IfOk, false, true};
ghost use Rattle.halide_pipeline.specs.Words as word;
ghost use Rattle.loop_ir.specs.declared.expressions.Expr.TheVariants as expressions;
ghost use Rattle.task_code_clamps.specs.Clamps.{IsRanged, IsSame};
ghost use Rattle.task_code_loops.specs.declared.bounds.Bound.{Bound};
ghost use Rattle.task_code_scalar.specs.declared.layouts.Places.{Places};
ghost use Rattle.loop_ir.specs.declared.expressions.Expr.{Expr};
ghost use Rattle.task_code_clamps.specs.Ranges.{LiesIn};

use crate::ranges::{
    LevelRange, ZERO, any, has_bytes, of_greater, of_lesser, of_pixels, of_sum, only,
};
use crate::steps::by_test;
use halide_pipeline::{Operation, Source};
use loop_ir::expressions::{Expr, Linear};
use sqlite_items::Boxed;
use std::alloc::{AllocError, Global};
use task_code_loops::bounds::Bound;
use task_code_scalar::layouts::Places;
use task_code_values::needs::is_leaf;

/// An expression, between which numbers its value lies, and whether it is known that it is below 2^32.
#[derive(Debug, Drop)]
pub struct Ranged {
    pub e: Expr,
    pub range: LevelRange,
    pub is_word: bool,
}

/// Which of an operation's operands its value always is.
#[derive(Clone, Copy, Debug)]
enum TakenOperand {
    First,
    Second,
    Either,
}

/// Whether a range is that of 0 alone.
fn is_zero(range: LevelRange) -> bool
    ensures { result ≡ true → (v : ℕ) → v < 2 ^ 32 → LiesIn range v → v ≡ 0 }
{
    range.low == ZERO && range.high == ZERO
}

/// Which of two operands an operation takes wherever they lie in these ranges, and are words, if so.
fn taken_of(operation: Operation, a: LevelRange, b: LevelRange, are_words: bool) -> TakenOperand
    ensures first { (v w : ℕ) → LiesIn a v → LiesIn b w → (are_words ≡ true → (v < 2 ^ 32) × (w < 2 ^ 32))
        → result ≡ TakenOperand.First
        → word.applied operation v w ≡ v }
    ensures second { (v w : ℕ) → LiesIn a v → LiesIn b w → result ≡ TakenOperand.Second
        → word.applied operation v w ≡ w }
{
    match operation {
        Operation::Minimum => {
            if a.high <= b.low {
                TakenOperand::First
            } else if b.high < a.low {
                TakenOperand::Second
            } else {
                TakenOperand::Either
            }
        }
        Operation::Maximum => {
            if b.high <= a.low {
                TakenOperand::First
            } else if a.high < b.low {
                TakenOperand::Second
            } else {
                TakenOperand::Either
            }
        }
        Operation::Add => {
            if are_words && is_zero(b) {
                TakenOperand::First
            } else {
                TakenOperand::Either
            }
        }
        Operation::Subtract => {
            if are_words && is_zero(b) {
                TakenOperand::First
            } else {
                TakenOperand::Either
            }
        }
        _ => TakenOperand::Either,
    }
}

/// Between which numbers lies what an operation makes.
fn range_of_both(operation: Operation, a: LevelRange, b: LevelRange) -> LevelRange
    ensures { (v w : ℕ) → LiesIn a v → LiesIn b w → LiesIn result (word.applied operation v w) }
{
    match operation {
        Operation::Minimum => of_lesser(a, b),
        Operation::Maximum => of_greater(a, b),
        _ => any(),
    }
}

/// Whether an operation takes one of its operands.
fn is_choice(operation: Operation) -> bool
    ensures { result ≡ true → (v w : ℕ) → v < 2 ^ 32 → w < 2 ^ 32 → word.applied operation v w < 2 ^ 32 }
{
    match operation {
        Operation::Minimum => true,
        Operation::Maximum => true,
        _ => false,
    }
}

fn both(a: bool, b: bool) -> bool
    ensures { result ≡ (a && b) }
{
    a && b
}

/// What an operation makes of two expressions without clamps that cut nothing off; those that cut at one number alone
/// may be tests.
///
/// # Errors
///
/// Memory ran out.
pub fn of_both(
    alloc: Global,
    operation: Operation,
    a: Ranged,
    b: Ranged,
    may_be_tests: bool,
) -> Result<Ranged, AllocError>
    ensures { IfOk result (λ made. (places : Places) (bounds : List Bound) (x y : Expr) → IsRanged places bounds x a
        → IsRanged places bounds y b
        → IsRanged places bounds (expressions.Binary operation x y) made) }
{
    let are_words = both(a.is_word, b.is_word);
    let own = taken_of(operation, a.range, b.range, are_words);
    let first_is_leaf = is_leaf(&a.e);
    let second_is_leaf = is_leaf(&b.e);
    match own {
        TakenOperand::First => {
            if second_is_leaf {
                return Ok(a);
            }
        }
        TakenOperand::Second => {
            if first_is_leaf {
                return Ok(b);
            }
        }
        TakenOperand::Either => {}
    }
    let range = range_of_both(operation, a.range, b.range);
    let stays = is_choice(operation);
    let is_word = both(are_words, stays);
    if may_be_tests {
        if let Some(e) = by_test(alloc, operation, &a, &b)? {
            return Ok(Ranged { e, range, is_word });
        }
    }
    let first = Boxed::new(alloc, a.e)?;
    let second = Boxed::new(alloc, b.e)?;
    Ok(Ranged {
        e: Expr::Binary(operation, first, second),
        range,
        is_word,
    })
}

/// An expression whose value is a word in this range.
fn word_in(e: Expr, range: LevelRange) -> Ranged
    ensures { result ≡ record { e = e; range = range; is_word = true } }
{
    Ranged {
        e,
        range,
        is_word: true,
    }
}

/// A number.
pub fn of_number(n: u32) -> Ranged
    ensures { (places : Places) (bounds : List Bound) → IsRanged places bounds (expressions.Number n) result }
{
    word_in(Expr::Number(n), only(n))
}

/// A sum, where loop variables stay below these bounds.
pub fn of_linear(sum: Linear, bounds: &[Bound]) -> Ranged
    ensures { (places : Places) → IsRanged places bounds.now (expressions.Linear sum) result }
{
    let range = of_sum(&sum, bounds);
    word_in(Expr::Linear(sum), range)
}

/// A pixel that is read at indexes without clamps that cut nothing off.
pub fn of_load(places: &Places, source: Source, column: Boxed<Expr>, row: Boxed<Expr>) -> Ranged
    ensures { (bounds : List Bound) (x y : Expr) → IsSame places.now bounds x column → IsSame places.now bounds y row
        → IsRanged places.now bounds (expressions.Load source x y) result }
{
    Ranged {
        e: Expr::Load(source, column, row),
        range: of_pixels(places, source),
        is_word: has_bytes(places, source),
    }
}

/// An expression of whose value nothing is known.
pub fn anywhere(e: Expr) -> Ranged
    ensures same { result.e ≡ e }
    ensures lies { (v : ℕ) → LiesIn result.range v }
    ensures word { result.is_word ≡ false }
{
    Ranged {
        e,
        range: any(),
        is_word: false,
    }
}
