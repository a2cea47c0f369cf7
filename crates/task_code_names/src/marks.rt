//! Where names stand in an expression. Guesses, of which nothing is promised: whoever puts a name there asks once more.

use crate::copies::is_same;
use crate::names::Named;
use loop_ir::expressions::Expr;
use loop_ir::statements::Store;
use std::alloc::{AllocError, Global};

/// What of an expression has a name.
#[derive(Clone, Copy, Debug, PartialEq, Eq)]
pub(crate) enum NamedPart {
    /// Neither the expression nor a part of it.
    HasNone,
    /// Some part of it.
    HasSome,
    /// The expression itself.
    IsNamed,
}

/// What of a part of an expression has a name, and how many nodes the part has. Marks come in the order of an
/// expression's text: that of a part is in front of those of its own parts.
#[derive(Clone, Copy, Debug)]
pub(crate) struct NodeMark {
    pub nodes: u32,
    pub standing: NamedPart,
}

/// The marks of a store's parts.
#[derive(Debug, Drop)]
pub(crate) struct StoreMarks {
    pub x: Vec<NodeMark>,
    pub y: Vec<NodeMark>,
    pub value: Vec<NodeMark>,
}

/// How many marks there is room for at first: for those of most expressions.
const ROOM: usize = 96;

/// Of a number or a sum.
const LEAF: NodeMark = NodeMark {
    nodes: 1,
    standing: NamedPart::HasNone,
};

/// The marks after those of the first part.
pub(crate) fn behind(marks: &[NodeMark]) -> &[NodeMark] {
    match marks {
        [] => marks,
        [first, ..] => marks.get(first.nodes as usize..).unwrap_or(&[]),
    }
}

/// Whether the expression that has these marks or some part of it has a name.
pub(crate) fn has_name(marks: &[NodeMark]) -> bool {
    match marks {
        [] => false,
        [first, ..] => first.standing != NamedPart::HasNone,
    }
}

/// Of an expression whose parts have this many nodes, and names or none.
fn of_parts(nodes: u32, have_none: bool) -> NodeMark {
    NodeMark {
        nodes: nodes.saturating_add(1),
        standing: if have_none {
            NamedPart::HasNone
        } else {
            NamedPart::HasSome
        },
    }
}

/// Of one part.
fn of_one(a: NodeMark) -> NodeMark {
    of_parts(a.nodes, a.standing == NamedPart::HasNone)
}

/// Of two parts.
fn of_both(a: NodeMark, b: NodeMark) -> NodeMark {
    of_parts(
        a.nodes.saturating_add(b.nodes),
        a.standing == NamedPart::HasNone && b.standing == NamedPart::HasNone,
    )
}

/// Of a condition and two parts.
fn of_choice(c: NodeMark, a: NodeMark, b: NodeMark) -> NodeMark {
    let nodes = a.nodes.saturating_add(b.nodes).saturating_add(c.nodes);
    let others = of_both(a, b);
    of_parts(
        nodes,
        c.standing == NamedPart::HasNone && others.standing == NamedPart::HasNone,
    )
}

/// Whether an expression of this many nodes has a name.
fn is_named(names: &[Named], e: &Expr, nodes: u32) -> bool {
    names
        .iter()
        .any(|own| own.nodes == nodes as usize && is_same(&own.e, e))
}

/// Adds the marks of an expression's parts, and says what they come to.
#[cycle(marking)]
fn add_part_marks(
    names: &[Named],
    e: &Expr,
    marks: &mut Vec<NodeMark>,
) -> Result<NodeMark, AllocError> {
    match e {
        Expr::Number(_) => Ok(LEAF),
        Expr::Linear(_) => Ok(LEAF),
        Expr::Binary(_, a, b) => {
            let first = add_marks(names, a.get(), marks)?;
            let second = add_marks(names, b.get(), marks)?;
            Ok(of_both(first, second))
        }
        Expr::Divide(a, _) => Ok(of_one(add_marks(names, a.get(), marks)?)),
        Expr::Remainder(a, _) => Ok(of_one(add_marks(names, a.get(), marks)?)),
        Expr::Select(c, a, b) => {
            let condition = add_marks(names, c.get(), marks)?;
            let first = add_marks(names, a.get(), marks)?;
            let second = add_marks(names, b.get(), marks)?;
            Ok(of_choice(condition, first, second))
        }
        Expr::Load(_, x, y) => {
            let column = add_marks(names, x.get(), marks)?;
            let row = add_marks(names, y.get(), marks)?;
            Ok(of_both(column, row))
        }
    }
}

/// Adds the marks of an expression, and says which is its own.
#[cycle(marking)]
fn add_marks(names: &[Named], e: &Expr, marks: &mut Vec<NodeMark>) -> Result<NodeMark, AllocError> {
    let place = marks.len();
    // In the place of its own, which is known after its parts.
    marks.push(LEAF)?;
    let parts = add_part_marks(names, e, marks)?;
    let node_mark = if is_named(names, e, parts.nodes) {
        NodeMark {
            nodes: parts.nodes,
            standing: NamedPart::IsNamed,
        }
    } else {
        parts
    };
    if let Some(slot) = marks.get_mut(place) {
        *slot = node_mark;
    }
    Ok(node_mark)
}

/// The marks of an expression. A number or a sum alone needs none: only what is made of parts is given names.
fn marks_in(alloc: Global, names: &[Named], e: &Expr) -> Result<Vec<NodeMark>, AllocError> {
    match e {
        Expr::Number(_) => Ok(Vec::new(alloc)),
        Expr::Linear(_) => Ok(Vec::new(alloc)),
        _ => {
            let mut marks = Vec::with_capacity(alloc, ROOM)?;
            add_marks(names, e, &mut marks)?;
            Ok(marks)
        }
    }
}

/// The marks of a store's parts.
///
/// # Errors
///
/// Memory ran out.
pub(crate) fn marks_of(
    alloc: Global,
    names: &[Named],
    store: &Store,
) -> Result<StoreMarks, AllocError> {
    Ok(StoreMarks {
        x: marks_in(alloc, names, &store.x)?,
        y: marks_in(alloc, names, &store.y)?,
        value: marks_in(alloc, names, &store.value)?,
    })
}
