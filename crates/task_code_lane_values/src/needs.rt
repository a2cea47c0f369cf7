//! How many groups of the stack values take, and which operand is made first. No clause speaks of it: code that finds
//! no group left says so.

use crate::operations::{takes_first, takes_second};
use crate::vectorized::VectorLanes;
use halide_pipeline::Operation;
use loop_ir::expressions::{Counter, Expr};
use task_code_lanes::groups::LaneGroup;
use task_code_registers::holding::stride_of;

/// Whether iterations differ in an expression's value, and how many groups its values take.
#[derive(Clone, Copy, Debug)]
struct Taking {
    moves: bool,
    groups: u8,
}

// ---- orders

/// How many groups three values take that are made in this order, each in the group after that of the one before it.
fn in_order(first: u8, second: u8, third: u8) -> u8 {
    let others = second.saturating_add(1).max(third.saturating_add(2));
    first.max(others)
}

/// How many groups two values take, where the one that takes more is made first.
fn both(one: u8, other: u8) -> u8 {
    if one < other {
        in_order(other, one, 0)
    } else {
        in_order(one, other, 0)
    }
}

/// Which part of a choice is made first; the others come as they stand.
#[derive(Clone, Copy, Debug)]
pub(crate) enum First {
    Condition,
    One,
    Other,
}

/// How many groups the parts of a choice take, if this many are left.
#[derive(Clone, Copy, Debug)]
struct ChoiceGroups {
    condition: u8,
    one: u8,
    other: u8,
}

impl ChoiceGroups {
    /// How many groups they take together, if this one is made first.
    fn with_first(self, first: First) -> u8 {
        match first {
            First::Condition => in_order(self.condition, self.one, self.other),
            First::One => in_order(self.one, self.condition, self.other),
            First::Other => in_order(self.other, self.condition, self.one),
        }
    }

    /// Which one is made first: the condition, where this many groups suffice for it.
    fn first(self, left: u8) -> First {
        let one = self.with_first(First::One);
        let other = self.with_first(First::Other);
        let condition = self.with_first(First::Condition);
        if condition <= left || (condition <= one && condition <= other) {
            First::Condition
        } else if one <= other {
            First::One
        } else {
            First::Other
        }
    }
}

// ---- expressions

/// Of an operation: an operand that all iterations have in common may take none.
fn need_of_two(op: Operation, a: Taking, b: Taking) -> Taking {
    let moves = a.moves || b.moves;
    let groups = if !b.moves && takes_second(op) {
        a.groups
    } else if !a.moves && takes_first(op) {
        b.groups
    } else {
        both(a.groups, b.groups)
    };
    Taking { moves, groups }
}

fn need_of_choice(condition: Taking, one: Taking, other: Taking) -> Taking {
    let parts = ChoiceGroups {
        condition: condition.groups,
        one: one.groups,
        other: other.groups,
    };
    Taking {
        moves: condition.moves || one.moves || other.moves,
        groups: parts.with_first(parts.first(0)),
    }
}

/// Of a pixel: the column stays while the row is made, where rows differ.
fn need_of_pixel(x: Taking, y: Taking) -> Taking {
    Taking {
        moves: x.moves || y.moves,
        groups: if y.moves {
            in_order(x.groups, y.groups, 0)
        } else {
            x.groups
        },
    }
}

fn need(e: &Expr, counter: Counter) -> Taking {
    let own = match e {
        Expr::Number(_) => Taking {
            moves: false,
            groups: 1,
        },
        Expr::Linear(sum) => Taking {
            moves: stride_of(sum.terms.as_slice(), counter) != 0,
            groups: 1,
        },
        Expr::Binary(op, a, b) => {
            need_of_two(*op, need(a.get(), counter), need(b.get(), counter))
        }
        Expr::Divide(a, _) => need(a.get(), counter),
        Expr::Remainder(a, _) => need(a.get(), counter),
        Expr::Select(c, a, b) => {
            let condition = need(c.get(), counter);
            need_of_choice(condition, need(a.get(), counter), need(b.get(), counter))
        }
        Expr::Load(_, x, y) => need_of_pixel(need(x.get(), counter), need(y.get(), counter)),
    };
    Taking {
        moves: own.moves,
        groups: if own.moves { own.groups } else { 1 },
    }
}

/// How many groups of the stack an expression's values take, a lane for each iteration of a loop.
pub fn groups_needed(e: &Expr, counter: Counter) -> u8 {
    need(e, counter).groups
}

// ---- code

fn groups_from(group: LaneGroup, k: u8) -> u8 {
    group.slots().saturating_sub(k)
}

/// Whether the second of two operands is made first: where it takes more groups than there are after that of the first
/// one, and more than that does.
pub(crate) fn is_swapped(first: &Expr, second: &Expr, lanes: VectorLanes, k: u8) -> bool {
    let last = need(second, lanes.counter).groups;
    groups_from(lanes.group, k) <= last && need(first, lanes.counter).groups < last
}

/// Which part of a choice is made first from a group on.
pub(crate) fn first_of_choice(
    condition: &Expr,
    one: &Expr,
    other: &Expr,
    lanes: VectorLanes,
    k: u8,
) -> First {
    let parts = ChoiceGroups {
        condition: need(condition, lanes.counter).groups,
        one: need(one, lanes.counter).groups,
        other: need(other, lanes.counter).groups,
    };
    parts.first(groups_from(lanes.group, k))
}
