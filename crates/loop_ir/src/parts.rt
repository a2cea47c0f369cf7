//! Expressions and statements that are taken apart, so that what is made of them need not copy the parts that stay.

use crate::expressions::{Counter, Expr, Linear};
use crate::statements::{LoopKind, Stmt, Store, Whole};
use halide_pipeline::{Operation, Source};
use sqlite_items::Boxed;

/// What an expression is made of, as in [`Expr`].
#[derive(Debug, Drop)]
pub enum ExprParts {
    Number(u32),
    Linear(Linear),
    Binary(Operation, Boxed<Expr>, Boxed<Expr>),
    Divide(Boxed<Expr>, u32),
    Remainder(Boxed<Expr>, u32),
    Select(Boxed<Expr>, Boxed<Expr>, Boxed<Expr>),
    Load(Source, Boxed<Expr>, Boxed<Expr>),
}

/// What a store is made of, as in [`Store`].
#[derive(Debug, Drop)]
pub struct StoreParts {
    pub func: usize,
    pub x: Expr,
    pub y: Expr,
    pub value: Expr,
}

/// What a statement is made of, as in [`Stmt`].
#[derive(Debug, Drop)]
pub enum StmtParts {
    Store(Store),
    Sequence(Boxed<Stmt>, Boxed<Stmt>),
    For(Counter, u32, LoopKind, Boxed<Stmt>),
    Bind(Counter, Whole, u32, Boxed<Stmt>),
}
