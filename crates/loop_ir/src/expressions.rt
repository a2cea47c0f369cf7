//! Expressions over the values of loops.

ghost use Rattle.std.specs.Prelude.{◌≡◌, ◌≤◌, ◌+◌, ◌%◌, ◌^◌, IfOk, length};
ghost use Rattle.halide_pipeline.specs.Words as word;
ghost use Rattle.loop_ir.specs.Counters as spec;
ghost use Rattle.loop_ir.specs.Counters.{Values};
ghost use Rattle.loop_ir.specs.Expressions.{linear_value};
ghost use Rattle.loop_ir.specs.Parts.{expression_of};

use crate::linear::take_away;
use crate::parts::ExprParts;
use halide_pipeline::{Operation, Source, words};
use schedule_lines::stages::{LoopId, same_id};
use sqlite_items::{Boxed, Items};
use std::alloc::{AllocError, Global};

/// What has a value while a statement runs: a loop of a stage of the Func at a place in the pipeline.
#[derive(Clone, Copy, Debug, PartialEq, Eq)]
pub struct Counter {
    /// The Func's place.
    pub func: usize,
    pub id: LoopId,
}

/// Whether two counters are the same.
pub fn same_counter(a: Counter, b: Counter) -> bool
    ensures { result ≡ spec.same_counter a b }
{
    a.func == b.func && same_id(a.id, b.id)
}

/// A counter times a stride.
#[derive(Clone, Copy, Debug, PartialEq, Eq)]
pub struct Term {
    pub counter: Counter,
    pub stride: u32,
}

/// A number and the terms that are added to it, modulo 2^32. Coordinates are made of it.
#[derive(Debug)]
pub struct Linear {
    pub number: u32,
    pub terms: Items<Term>,
}

impl Drop for Linear {
    fn drop(self) {
        let Linear { terms, number: _ } = self;
        drop(terms);
    }
}

impl Linear {
    /// A number alone.
    #[tactic(auto, unfolding(crate::specs::Expressions::linear_value))]
    pub fn of_number(alloc: Global, number: u32) -> Linear
        ensures value { (values : Values) → linear_value values result ≡ number }
        ensures few { length result.terms ≡ 0 }
    {
        Linear {
            number,
            terms: Items::new(alloc),
        }
    }

    /// A counter alone.
    #[tactic(auto, unfolding(crate::specs::Expressions::linear_value))]
    pub fn of_counter(alloc: Global, counter: Counter) -> Result<Linear, AllocError>
        ensures value { IfOk result (λ made. (values : Values) → linear_value values made ≡ values counter % 2 ^ 32) }
        ensures few { IfOk result (λ made. length made.terms ≡ 1) }
    {
        let mut terms = Items::new(alloc);
        terms.push(Term { counter, stride: 1 })?;
        Ok(Linear { number: 0, terms })
    }

    /// The same once more.
    pub fn copy(&self, alloc: Global) -> Result<Linear, AllocError>
        ensures { IfOk result (λ made. made ≡ self.now) }
    {
        let terms = Items::from_slice(alloc, self.terms.as_slice())?;
        Ok(Linear {
            number: self.number,
            terms,
        })
    }

    /// So much more.
    pub fn plus_number(self, number: u32) -> Linear
        ensures value { (values : Values) → linear_value values result ≡ word.add (linear_value values self) number }
        ensures few { length result.terms ≡ length self.terms }
    {
        let Linear { number: own, terms } = self;
        Linear {
            number: words::add(own, number),
            terms,
        }
    }

    /// What is left without another one.
    pub fn minus(self, other: &Linear) -> Result<Linear, AllocError>
        ensures value { IfOk result (λ made. (values : Values) → linear_value values made
            ≡ word.subtract (linear_value values self) (linear_value values other.now)) }
        ensures few { IfOk result (λ made. length made.terms ≤ length self.terms + length other.now.terms) }
    {
        let Linear {
            number: own,
            mut terms,
        } = self;
        take_away(&mut terms, other.terms.as_slice())?;
        Ok(Linear {
            number: words::subtract(own, other.number),
            terms,
        })
    }
}

/// An expression. Its words are those of the algorithm's expressions.
#[derive(Debug)]
pub enum Expr {
    Number(u32),
    Linear(Linear),
    Binary(Operation, Boxed<Expr>, Boxed<Expr>),
    /// The quotient by a literal, 1 to 2147483647, rounded to minus infinity.
    Divide(Boxed<Expr>, u32),
    /// The remainder by a literal, 1 to 2147483647, which is not negative.
    Remainder(Boxed<Expr>, u32),
    /// The second where the first is not 0, else the third.
    Select(Boxed<Expr>, Boxed<Expr>, Boxed<Expr>),
    /// What the buffer of a source holds at x and y, counted from its corner.
    Load(Source, Boxed<Expr>, Boxed<Expr>),
}

impl Drop for Expr {
    fn drop(self) {
        match self {
            Expr::Number(_) => {}
            Expr::Linear(own) => drop(own),
            Expr::Binary(_, a, b) => {
                drop(a);
                drop(b);
            }
            Expr::Divide(a, _) => drop(a),
            Expr::Remainder(a, _) => drop(a),
            Expr::Select(c, a, b) => {
                drop(c);
                drop(a);
                drop(b);
            }
            Expr::Load(_, x, y) => {
                drop(x);
                drop(y);
            }
        }
    }
}

impl Expr {
    /// Its parts.
    pub fn into_parts(self) -> ExprParts
        ensures { self ≡ expression_of result }
    {
        match self {
            Expr::Number(number) => ExprParts::Number(number),
            Expr::Linear(own) => ExprParts::Linear(own),
            Expr::Binary(operation, a, b) => ExprParts::Binary(operation, a, b),
            Expr::Divide(a, divisor) => ExprParts::Divide(a, divisor),
            Expr::Remainder(a, divisor) => ExprParts::Remainder(a, divisor),
            Expr::Select(c, a, b) => ExprParts::Select(c, a, b),
            Expr::Load(source, x, y) => ExprParts::Load(source, x, y),
        }
    }
}
