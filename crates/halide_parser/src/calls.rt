//! What is known of a call, from what is known of its arguments.

ghost use Rattle.std.specs.Prelude.{◌≡◌, IfOk};
ghost use Rattle.halide_parser.specs.Expressions as expressions;
ghost use Rattle.halide_parser.specs.inner.Judging as spec;

use crate::judging::{
    Judged, Marks, both_marks, boxed_both, deeper, fits, no_marks, node_sum, pair,
};
use crate::readers::{AlgorithmReader, source};
use crate::scopes::NameScope;
use halide_pipeline::{Expr, Source, Variable};
use sqlite_items::Boxed;
use std::alloc::{AllocError, Global};

/// What a call breaks that has these variables alone as its indexes, where its Func is the one that the
/// line updates.
fn own_marks(is_own: bool, first: Option<Variable>, second: Option<Variable>) -> Marks
    ensures { result ≡ spec.own_marks is_own first second }
{
    Marks {
        calls_own: is_own,
        moves_first: is_own && first != Some(Variable::FirstArgument),
        moves_second: is_own && second != Some(Variable::SecondArgument),
        ..no_marks()
    }
}

/// What a call of a name with this many arguments breaks.
fn callee_marks(callee: Option<(Source, usize)>, count: usize, own: Marks) -> Marks
    ensures { result ≡ spec.callee_marks callee count own }
{
    match callee {
        None => Marks {
            is_unknown: true,
            ..no_marks()
        },
        Some((_, dimensions)) if dimensions != count => Marks {
            is_wrong_count: true,
            ..own
        },
        Some(_) => own,
    }
}

/// Whether a source is the Func that the line updates.
fn is_own(scope: &NameScope, callee: Option<(Source, usize)>) -> bool
    ensures { result ≡ expressions.is_own scope.now callee }
{
    match (scope.own, callee) {
        (Some(own), Some((Source::Func(place), _))) => own == place,
        _ => false,
    }
}

/// The tree of a call with one index, where it is wanted and the index has one.
fn call_tree(
    alloc: Global,
    is_wanted: bool,
    callee: Option<(Source, usize)>,
    a: Option<Expr>,
) -> Result<Option<Expr>, AllocError>
    ensures { IfOk result (λ tree. tree ≡ spec.call_tree is_wanted callee a) }
{
    match (callee, a) {
        (Some((source, _)), Some(a)) if is_wanted => {
            Ok(Some(Expr::Call1(source, Boxed::new(alloc, a)?)))
        }
        _ => Ok(None),
    }
}

/// The tree of a call with two indexes, where it is wanted and both indexes have one.
#[tactic(auto, using(crate::proofs::Trees::call_two_tree_by))]
fn call_two_tree(
    alloc: Global,
    is_wanted: bool,
    callee: Option<(Source, usize)>,
    a: Option<Expr>,
    b: Option<Expr>,
) -> Result<Option<Expr>, AllocError>
    ensures { IfOk result (λ tree. tree ≡ spec.call_two_tree is_wanted callee a b) }
{
    match callee.zip(pair(is_wanted, a, b)) {
        None => Ok(None),
        Some(((source, _), (a, b))) => {
            let (a, b) = boxed_both(alloc, a, b)?;
            Ok(Some(Expr::Call2(source, a, b)))
        }
    }
}

/// A call with one argument.
#[tactic(auto, unfolding(crate::specs::inner::Judging::call))]
pub fn call(
    reader: &AlgorithmReader,
    scope: &NameScope,
    name: &[u8],
    a: Judged,
) -> Result<Judged, AllocError>
    ensures { IfOk result (λ judged. judged ≡ spec.call reader.now scope.now name.now a) }
{
    let callee = source(reader, name);
    let own = own_marks(is_own(scope, callee), a.alone, None);
    let nodes = node_sum(1, a.nodes);
    let nesting = deeper(a.nesting);
    Ok(Judged {
        marks: both_marks(a.marks, callee_marks(callee, 1, own)),
        nodes,
        nesting,
        literal: None,
        alone: None,
        tree: call_tree(reader.alloc, fits(nodes, nesting), callee, a.into_tree())?,
    })
}

/// A call with two arguments.
#[tactic(auto, unfolding(crate::specs::inner::Judging::call_two))]
pub fn call_two(
    reader: &AlgorithmReader,
    scope: &NameScope,
    name: &[u8],
    a: Judged,
    b: Judged,
) -> Result<Judged, AllocError>
    ensures { IfOk result (λ judged. judged ≡ spec.call_two reader.now scope.now name.now a b) }
{
    let callee = source(reader, name);
    let own = own_marks(is_own(scope, callee), a.alone, b.alone);
    let nodes = node_sum(1, node_sum(a.nodes, b.nodes));
    let nesting = deeper(a.nesting.max(b.nesting));
    let is_wanted = fits(nodes, nesting);
    Ok(Judged {
        marks: both_marks(both_marks(a.marks, b.marks), callee_marks(callee, 2, own)),
        nodes,
        nesting,
        literal: None,
        alone: None,
        tree: call_two_tree(
            reader.alloc,
            is_wanted,
            callee,
            a.into_tree(),
            b.into_tree(),
        )?,
    })
}
