//! What is known of an expression, from what is known of its parts: the rules that it breaks, its size,
//! and its tree where it is not too large.

ghost use Rattle.std.specs.Prelude.{◌≡◌, IfOk, if◌then◌else◌, None};
ghost use Rattle.halide_pipeline.specs.WellFormed as limits;
ghost use Rattle.halide_parser.specs.inner.Judging as spec;

use crate::readers::{AlgorithmReader, source};
use crate::scopes::{NameScope, variable};
use halide_parser_syntax::{
    CompareOperator, ProductOperator, SumOperator, ThreeFunction, TwoFunction,
};
use halide_pipeline::{Expr, Operation, Variable};
use sqlite_items::Boxed;
use std::alloc::{AllocError, Global};

/// The rules that an expression breaks, and what it does with its Func's arguments.
#[derive(Clone, Copy, Debug, PartialEq, Eq)]
pub struct Marks {
    /// A name stands for nothing that can stand there.
    pub is_unknown: bool,
    /// A call has another number of arguments than its source has dimensions, or has none.
    pub is_wrong_count: bool,
    /// A divisor is no literal from 1 to 2147483647.
    pub is_bad_divisor: bool,
    pub uses_first: bool,
    pub uses_second: bool,
    /// The Func that the line updates is called.
    pub calls_own: bool,
    /// It is called with another first index than the first argument alone.
    pub moves_first: bool,
    /// It is called with another second index than the second argument alone.
    pub moves_second: bool,
}

/// What is known of an expression.
pub struct Judged {
    pub marks: Marks,
    /// Up to 513.
    pub nodes: u32,
    /// Brackets and signs around one place, up to 65.
    pub nesting: u32,
    /// The number, where the expression is a number without brackets.
    pub literal: Option<u32>,
    /// The variable, where the expression is a variable, perhaps in brackets.
    pub alone: Option<Variable>,
    /// None where the expression is too large or breaks a rule.
    pub tree: Option<Expr>,
}

impl Drop for Judged {
    fn drop(self) {
        let Judged {
            marks: _,
            nodes: _,
            nesting: _,
            literal: _,
            alone: _,
            tree: _,
        } = self;
    }
}

impl Judged {
    /// The tree alone.
    pub fn into_tree(self) -> Option<Expr>
        ensures { result ≡ self.tree }
    {
        let Judged {
            marks: _,
            nodes: _,
            nesting: _,
            literal: _,
            alone: _,
            tree,
        } = self;
        tree
    }
}

pub fn no_marks() -> Marks
    ensures { result ≡ spec.no_marks }
{
    Marks {
        is_unknown: false,
        is_wrong_count: false,
        is_bad_divisor: false,
        uses_first: false,
        uses_second: false,
        calls_own: false,
        moves_first: false,
        moves_second: false,
    }
}

/// The marks of both.
pub fn both_marks(a: Marks, b: Marks) -> Marks
    ensures { result ≡ spec.both_marks a b }
{
    Marks {
        is_unknown: a.is_unknown || b.is_unknown,
        is_wrong_count: a.is_wrong_count || b.is_wrong_count,
        is_bad_divisor: a.is_bad_divisor || b.is_bad_divisor,
        uses_first: a.uses_first || b.uses_first,
        uses_second: a.uses_second || b.uses_second,
        calls_own: a.calls_own || b.calls_own,
        moves_first: a.moves_first || b.moves_first,
        moves_second: a.moves_second || b.moves_second,
    }
}

/// A sum of nodes, up to 513.
#[tactic(auto, unfolding(crate::specs::inner::Judging::node_sum))]
pub(crate) fn node_sum(a: u32, b: u32) -> u32
    ensures { result ≡ spec.node_sum a b }
{
    a.saturating_add(b).min(513)
}

/// One more bracket or sign, up to 65.
#[tactic(auto, unfolding(crate::specs::inner::Judging::deeper))]
pub(crate) fn deeper(nesting: u32) -> u32
    ensures { result ≡ spec.deeper nesting }
{
    nesting.saturating_add(1).min(65)
}

/// Whether an expression of such a size is within its limits: 512 nodes, and 64 brackets and signs.
pub fn fits(nodes: u32, nesting: u32) -> bool
    ensures { result ≡ limits.fits nodes nesting }
{
    nodes <= 512 && nesting <= 64
}

/// The value, where it is wanted.
fn kept<T: Drop>(is_wanted: bool, value: Option<T>) -> Option<T>
    ensures { result ≡ (if is_wanted then value else None) }
{
    if is_wanted { value } else { None }
}

/// Both trees, where they are wanted and there are both.
#[tactic(auto, using(crate::proofs::Trees::pair_by))]
pub(crate) fn pair(is_wanted: bool, a: Option<Expr>, b: Option<Expr>) -> Option<(Expr, Expr)>
    ensures { result ≡ spec.pair is_wanted a b }
{
    kept(is_wanted, a.zip(b))
}

/// Both in boxes.
pub(crate) fn boxed_both<T: Drop>(
    alloc: Global,
    a: T,
    b: T,
) -> Result<(Boxed<T>, Boxed<T>), AllocError>
    ensures { IfOk result (λ boxes. boxes ≡ (a, b)) }
{
    let a = Boxed::new(alloc, a)?;
    Ok((a, Boxed::new(alloc, b)?))
}

/// The tree of an operation, where it is wanted and there are both operands.
#[tactic(auto, using(crate::proofs::Trees::binary_tree_by))]
fn binary_tree(
    alloc: Global,
    is_wanted: bool,
    operation: Operation,
    a: Option<Expr>,
    b: Option<Expr>,
) -> Result<Option<Expr>, AllocError>
    ensures { IfOk result (λ tree. tree ≡ spec.binary_tree is_wanted operation a b) }
{
    match pair(is_wanted, a, b) {
        None => Ok(None),
        Some((a, b)) => {
            let (a, b) = boxed_both(alloc, a, b)?;
            Ok(Some(Expr::Binary(operation, a, b)))
        }
    }
}

/// An operation on two operands.
#[tactic(auto, unfolding(crate::specs::inner::Judging::binary))]
fn binary(alloc: Global, operation: Operation, a: Judged, b: Judged) -> Result<Judged, AllocError>
    ensures { IfOk result (λ judged. judged ≡ spec.binary operation a b) }
{
    let nodes = node_sum(1, node_sum(a.nodes, b.nodes));
    let nesting = a.nesting.max(b.nesting);
    let is_wanted = fits(nodes, nesting);
    Ok(Judged {
        marks: both_marks(a.marks, b.marks),
        nodes,
        nesting,
        literal: None,
        alone: None,
        tree: binary_tree(alloc, is_wanted, operation, a.into_tree(), b.into_tree())?,
    })
}

/// An expression in one more bracket, or after one more sign.
#[tactic(auto, unfolding(crate::specs::inner::Judging::enclosed))]
fn enclosed(a: Judged) -> Judged
    ensures { result ≡ spec.enclosed a }
{
    let nesting = deeper(a.nesting);
    let is_wanted = fits(a.nodes, nesting);
    Judged {
        marks: a.marks,
        nodes: a.nodes,
        nesting,
        literal: None,
        alone: a.alone,
        tree: kept(is_wanted, a.into_tree()),
    }
}

/// A number.
pub fn literal(number: u32) -> Judged
    ensures { result ≡ spec.literal number }
{
    Judged {
        marks: no_marks(),
        nodes: 1,
        nesting: 0,
        literal: Some(number),
        alone: None,
        tree: Some(Expr::Number(number)),
    }
}

/// A name without a bracket: a variable, or a fault.
pub fn bare(reader: &AlgorithmReader, scope: &NameScope, name: &[u8]) -> Judged
    ensures { result ≡ spec.bare reader.now scope.now name.now }
{
    let found = variable(scope, name);
    let is_source = source(reader, name).is_some();
    Judged {
        marks: Marks {
            is_unknown: found.is_none() && !is_source,
            is_wrong_count: found.is_none() && is_source,
            uses_first: found == Some(Variable::FirstArgument),
            uses_second: found == Some(Variable::SecondArgument),
            ..no_marks()
        },
        nodes: 1,
        nesting: 0,
        literal: None,
        alone: found,
        tree: found.map(Expr::Variable),
    }
}

/// An expression in brackets.
pub fn group(a: Judged) -> Judged
    ensures { result ≡ spec.group a }
{
    enclosed(a)
}

/// An expression after a sign, which is 0 less the expression.
pub fn minus(alloc: Global, a: Judged) -> Result<Judged, AllocError>
    ensures { IfOk result (λ judged. judged ≡ spec.minus a) }
{
    let difference = binary(alloc, Operation::Subtract, literal(0), a)?;
    Ok(enclosed(difference))
}

/// `min` or `max` of two operands.
pub fn two(alloc: Global, function: TwoFunction, a: Judged, b: Judged) -> Result<Judged, AllocError>
    ensures { IfOk result (λ judged. judged ≡ spec.two function a b) }
{
    let operation = match function {
        TwoFunction::Minimum => Operation::Minimum,
        TwoFunction::Maximum => Operation::Maximum,
    };
    let joined = binary(alloc, operation, a, b)?;
    Ok(enclosed(joined))
}

/// All three in boxes.
fn boxed_three<T: Drop>(
    alloc: Global,
    a: T,
    b: T,
    c: T,
) -> Result<(Boxed<T>, Boxed<T>, Boxed<T>), AllocError>
    ensures { IfOk result (λ boxes. boxes ≡ (a, b, c)) }
{
    let a = Boxed::new(alloc, a)?;
    let (b, c) = boxed_both(alloc, b, c)?;
    Ok((a, b, c))
}

/// The tree of a select, where there are all operands.
#[tactic(auto, using(crate::proofs::Trees::select_tree_by))]
fn select_tree(
    alloc: Global,
    c: Option<Expr>,
    arms: Option<(Expr, Expr)>,
) -> Result<Option<Expr>, AllocError>
    ensures { IfOk result (λ tree. tree ≡ spec.select_tree c arms) }
{
    match c.zip(arms) {
        None => Ok(None),
        Some((c, (a, b))) => {
            let (c, a, b) = boxed_three(alloc, c, a, b)?;
            Ok(Some(Expr::Select(c, a, b)))
        }
    }
}

/// `select` of three operands.
#[tactic(auto, unfolding(crate::specs::inner::Judging::select))]
fn select(alloc: Global, c: Judged, a: Judged, b: Judged) -> Result<Judged, AllocError>
    ensures { IfOk result (λ judged. judged ≡ spec.select c a b) }
{
    let nodes = node_sum(1, node_sum(c.nodes, node_sum(a.nodes, b.nodes)));
    let nesting = deeper(c.nesting.max(a.nesting.max(b.nesting)));
    let is_wanted = fits(nodes, nesting);
    Ok(Judged {
        marks: both_marks(c.marks, both_marks(a.marks, b.marks)),
        nodes,
        nesting,
        literal: None,
        alone: None,
        tree: select_tree(
            alloc,
            c.into_tree(),
            pair(is_wanted, a.into_tree(), b.into_tree()),
        )?,
    })
}

/// `clamp` or `select` of three operands. `clamp(v,l,h)` is `min(max(v,l),h)`.
pub fn three(
    alloc: Global,
    function: ThreeFunction,
    a: Judged,
    b: Judged,
    c: Judged,
) -> Result<Judged, AllocError>
    ensures { IfOk result (λ judged. judged ≡ spec.three function a b c) }
{
    match function {
        ThreeFunction::Clamp => {
            let least = binary(alloc, Operation::Maximum, a, b)?;
            let clamped = binary(alloc, Operation::Minimum, least, c)?;
            Ok(enclosed(clamped))
        }
        ThreeFunction::Select => Ok(select(alloc, a, b, c)?),
    }
}

/// The divisor that a literal is, where it is one.
fn divisor(literal: Option<u32>) -> Option<u32>
    ensures { result ≡ spec.divisor literal }
{
    match literal {
        Some(number) if 1 <= number && number <= 0x7fff_ffff => Some(number),
        _ => None,
    }
}

/// The tree of a quotient or a remainder, where it is wanted and there are both operands.
fn division_tree(
    alloc: Global,
    is_wanted: bool,
    is_quotient: bool,
    a: Option<Expr>,
    divisor: Option<u32>,
) -> Result<Option<Expr>, AllocError>
    ensures { IfOk result (λ tree. tree ≡ spec.division_tree is_wanted is_quotient a divisor) }
{
    match (a, divisor) {
        (Some(a), Some(divisor)) if is_wanted && is_quotient => {
            Ok(Some(Expr::Divide(Boxed::new(alloc, a)?, divisor)))
        }
        (Some(a), Some(divisor)) if is_wanted => {
            Ok(Some(Expr::Remainder(Boxed::new(alloc, a)?, divisor)))
        }
        _ => Ok(None),
    }
}

/// A quotient or a remainder. The divisor counts as a node.
#[tactic(auto, unfolding(crate::specs::inner::Judging::divided))]
fn divided(alloc: Global, is_quotient: bool, a: Judged, b: Judged) -> Result<Judged, AllocError>
    ensures { IfOk result (λ judged. judged ≡ spec.divided is_quotient a b) }
{
    let by = divisor(b.literal);
    let nodes = node_sum(1, node_sum(a.nodes, b.nodes));
    let nesting = a.nesting.max(b.nesting);
    let marks = Marks {
        is_bad_divisor: by.is_none(),
        ..no_marks()
    };
    Ok(Judged {
        marks: both_marks(both_marks(a.marks, b.marks), marks),
        nodes,
        nesting,
        literal: None,
        alone: None,
        tree: division_tree(alloc, fits(nodes, nesting), is_quotient, a.into_tree(), by)?,
    })
}

/// A product, a quotient or a remainder.
pub fn product(
    alloc: Global,
    operator: ProductOperator,
    a: Judged,
    b: Judged,
) -> Result<Judged, AllocError>
    ensures { IfOk result (λ judged. judged ≡ spec.product operator a b) }
{
    match operator {
        ProductOperator::Multiply => Ok(binary(alloc, Operation::Multiply, a, b)?),
        ProductOperator::Divide => Ok(divided(alloc, true, a, b)?),
        ProductOperator::Remainder => Ok(divided(alloc, false, a, b)?),
    }
}

/// A sum or a difference.
pub fn sum(alloc: Global, operator: SumOperator, a: Judged, b: Judged) -> Result<Judged, AllocError>
    ensures { IfOk result (λ judged. judged ≡ spec.sum operator a b) }
{
    let operation = match operator {
        SumOperator::Add => Operation::Add,
        SumOperator::Subtract => Operation::Subtract,
    };
    Ok(binary(alloc, operation, a, b)?)
}

/// A comparison.
pub fn comparison(
    alloc: Global,
    operator: CompareOperator,
    a: Judged,
    b: Judged,
) -> Result<Judged, AllocError>
    ensures { IfOk result (λ judged. judged ≡ spec.comparison operator a b) }
{
    let operation = match operator {
        CompareOperator::Less => Operation::Less,
        CompareOperator::LessOrEqual => Operation::LessOrEqual,
        CompareOperator::Greater => Operation::Greater,
        CompareOperator::GreaterOrEqual => Operation::GreaterOrEqual,
        CompareOperator::Equal => Operation::Equal,
        CompareOperator::NotEqual => Operation::NotEqual,
    };
    Ok(binary(alloc, operation, a, b)?)
}
