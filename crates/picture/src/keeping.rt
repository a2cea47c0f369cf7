//! Which Funcs' pixels are kept one by one. Nothing is proved of it but that it ends: whatever it answers, pixels are
//! right.

use crate::boxes::{WantedPoints, bounds_of, box_of, box_points, slices_of};
use halide_pipeline::{Expr, Func, Source, Update};
use std::alloc::{AllocError, Global};

/// A Func that has no table and takes at most this many steps a pixel is computed wherever it is read.
const LIGHT: u64 = 256;

/// How many steps it takes to read a pixel of a Func, and whether its pixels are kept, or pixels that it reads.
#[derive(Clone, Copy)]
pub(crate) struct Cost {
    steps: u64,
    is_kept: bool,
    needs_kept: bool,
}

/// What is read at once.
const READ: Cost = Cost {
    steps: 1,
    is_kept: false,
    needs_kept: false,
};

impl Cost {
    /// Both.
    fn plus(self, other: Cost) -> Cost {
        Cost {
            steps: self.steps.saturating_add(other.steps),
            is_kept: false,
            needs_kept: self.needs_kept || other.needs_kept,
        }
    }

    /// So often.
    fn times(self, count: u64) -> Cost {
        Cost {
            steps: self.steps.saturating_mul(count),
            ..self
        }
    }
}

/// Whether the pixels of the Func at a place are kept.
pub(crate) fn is_kept(costs: &[Cost], func_index: usize) -> bool {
    match costs.get(func_index) {
        None => false,
        Some(cost) => cost.is_kept,
    }
}

/// Whether the definition of the Func at a place reads pixels that are kept.
pub(crate) fn needs_kept(costs: &[Cost], func_index: usize) -> bool {
    match costs.get(func_index) {
        None => false,
        Some(cost) => cost.needs_kept,
    }
}

/// What a read costs.
fn read_cost(costs: &[Cost], source: Source) -> Cost {
    match source {
        Source::Input(_) => READ,
        Source::Func(func_index) => match costs.get(func_index) {
            None => READ,
            Some(cost) => Cost {
                steps: cost.steps,
                is_kept: false,
                needs_kept: cost.is_kept,
            },
        },
    }
}

/// What it costs to compute an expression.
fn cost_of(costs: &[Cost], expr: &Expr) -> Cost {
    match expr {
        Expr::Number(_) => READ,
        Expr::Variable(_) => READ,
        Expr::Binary(_, a, b) => cost_of(costs, a.get()).plus(cost_of(costs, b.get())),
        Expr::Divide(a, _) => cost_of(costs, a.get()).plus(READ),
        Expr::Remainder(a, _) => cost_of(costs, a.get()).plus(READ),
        Expr::Select(condition, a, b) => cost_of(costs, condition.get())
            .plus(cost_of(costs, a.get()))
            .plus(cost_of(costs, b.get())),
        Expr::Call1(source, x) => cost_of(costs, x.get()).plus(read_cost(costs, *source)),
        Expr::Call2(source, x, y) => cost_of(costs, x.get())
            .plus(cost_of(costs, y.get()))
            .plus(read_cost(costs, *source)),
    }
}

/// What an update adds to the cost of a pixel; it is little where the update is run beforehand.
fn update_cost(
    costs: &[Cost],
    wanted: WantedPoints,
    func: &Func,
    updates: usize,
    update: &Update,
) -> Cost {
    let left_y = match &update.left_y {
        None => READ,
        Some(left_y) => cost_of(costs, left_y),
    };
    let point = cost_of(costs, &update.left_x)
        .plus(left_y)
        .plus(cost_of(costs, &update.right));
    if slices_of(wanted, func, updates, update).count > 0
        || box_of(wanted, func, updates, update).height > 0
    {
        Cost { steps: 1, ..point }
    } else {
        point.times(box_points(update))
    }
}

/// What it costs to read the next Func.
fn next_cost(costs: &[Cost], wanted: WantedPoints, func: &Func) -> Cost {
    let mut own = cost_of(costs, &func.pure);
    for (updates, update) in func.updates.as_slice().iter().enumerate() {
        own = own.plus(update_cost(costs, wanted, func, updates, update));
    }
    let has_table = bounds_of(wanted).height > 0;
    let is_light = own.steps <= LIGHT && !own.needs_kept;
    Cost {
        steps: if has_table || !is_light { 1 } else { own.steps },
        is_kept: !has_table && !is_light,
        needs_kept: own.needs_kept,
    }
}

/// What it costs to read each Func.
pub(crate) fn costs_of(
    alloc: Global,
    funcs: &[Func],
    wanted: &[WantedPoints],
) -> Result<Vec<Cost>, AllocError> {
    let mut costs = Vec::new(alloc);
    for (func_index, func) in funcs.iter().enumerate() {
        let cost = match wanted.get(func_index) {
            None => READ,
            Some(own) => next_cost(&costs, *own, func),
        };
        costs.push(cost)?;
    }
    Ok(costs)
}
