//! Statements.

ghost use Rattle.std.specs.Prelude.{◌≡◌};
ghost use Rattle.loop_ir.specs.Parts.{statement_of, store_of};

use crate::expressions::{Counter, Expr};
use crate::parts::{StmtParts, StoreParts};
use sqlite_items::{Boxed, Items};

/// How the iterations of a loop are to be made. They do the same in each of these ways.
#[derive(Clone, Copy, Debug, PartialEq, Eq)]
pub enum LoopKind {
    Serial,
    Unrolled,
    Vectorized,
}

/// Writes a value at x and y of a Func's buffer, counted from its corner.
#[derive(Debug)]
pub struct Store {
    /// The Func's place in the pipeline.
    pub func: usize,
    pub x: Expr,
    pub y: Expr,
    pub value: Expr,
}

impl Drop for Store {
    fn drop(self) {
        let Store {
            x,
            y,
            value,
            func: _,
        } = self;
        drop(x);
        drop(y);
        drop(value);
    }
}

impl Store {
    /// Its parts.
    pub fn into_parts(self) -> StoreParts
        ensures { self ≡ store_of result }
    {
        let Store { func, x, y, value } = self;
        StoreParts { func, x, y, value }
    }
}

/// The value of a loop that is split, from those of its two loops: `outer * factor + inner`.
#[derive(Clone, Copy, Debug, PartialEq, Eq)]
pub struct Whole {
    pub outer: Counter,
    pub inner: Counter,
    pub factor: u32,
    /// Under a shift, where the last iteration of the outer loop begins: the product is at most this.
    pub last: Option<u32>,
}

/// A statement. No loop's count and no test depends on what buffers hold.
#[derive(Debug)]
pub enum Stmt {
    Store(Store),
    /// The first, and then the second.
    Sequence(Boxed<Stmt>, Boxed<Stmt>),
    /// The body with the counter at 0, then at 1, and so on below the count.
    For(Counter, u32, LoopKind, Boxed<Stmt>),
    /// The body with the counter at the value of a split loop, where that is below the extent.
    Bind(Counter, Whole, u32, Boxed<Stmt>),
}

impl Drop for Stmt {
    fn drop(self) {
        match self {
            Stmt::Store(own) => drop(own),
            Stmt::Sequence(first, second) => {
                drop(first);
                drop(second);
            }
            Stmt::For(_, _, _, body) => drop(body),
            Stmt::Bind(_, _, _, body) => drop(body),
        }
    }
}

impl Stmt {
    /// Its parts.
    pub fn into_parts(self) -> StmtParts
        ensures { self ≡ statement_of result }
    {
        match self {
            Stmt::Store(store) => StmtParts::Store(store),
            Stmt::Sequence(first, second) => StmtParts::Sequence(first, second),
            Stmt::For(counter, count, kind, body) => StmtParts::For(counter, count, kind, body),
            Stmt::Bind(counter, own, extent, body) => StmtParts::Bind(counter, own, extent, body),
        }
    }
}

/// A statement that is run once for each of this many tasks.
#[derive(Debug)]
pub struct Phase {
    pub tasks: u32,
    /// What is at the task's number, from 0, where anything does.
    pub counter: Option<Counter>,
    pub body: Stmt,
    /// Funcs whose buffers each hart has for itself: before a task they hold anything, and what they hold after it
    /// doesn't count.
    pub private: Items<usize>,
    /// Inputs whose pixels are bytes.
    pub bytes: Items<usize>,
}

impl Drop for Phase {
    fn drop(self) {
        let Phase {
            body,
            private,
            bytes,
            tasks: _,
            counter: _,
        } = self;
        drop(body);
        drop(private);
        drop(bytes);
    }
}
