//! Laws of inlining, each the contract of a function that does nothing.

ghost use Rattle.std.specs.Prelude.{◌≡◌, Bool, true};
ghost use Rattle.bounds_inlining.specs.Passing.{ComputedPointsAreTested, SeenPointsPass, SeenPointsPassInUpdates};
ghost use Rattle.bounds_inlining.specs.Passing.{PassingIsClosed};
ghost use Rattle.bounds_inlining.specs.Trees.{CountsAreOfTrees, NeedsAreOfTrees, TreesCallNoInlined, TreesHaveValues};
ghost use Rattle.bounds_inlining.specs.Laws.{FoldsAreRelated, InliningKeepsValues, InliningKeepsUpdates};
ghost use Rattle.bounds_inlining.specs.Laws.{InlinedValuesDependOnReads, SeesInlinedValues};

/// Inlining changes no value of a pure definition.
pub fn inlining_keeps_values()
    ensures { InliningKeepsValues }
{}

/// Inlining changes no value of an update.
pub fn inlining_keeps_updates()
    ensures { InliningKeepsUpdates }
{}

/// Reads that agree at the points that an expression reads through inlined Funcs give it one value.
pub fn inlined_values_depend_on_reads()
    ensures { InlinedValuesDependOnReads }
{}

/// What two algebras make of an expression through its inlined Funcs is related, if it is at each level and each
/// call of an inlined Func.
pub fn folds_are_related<A, B>()
    ensures { (test : A → B → Bool) → FoldsAreRelated (λ a b. test a b ≡ true) }
{}

/// The value that is seen beside the points that an expression reads through inlined Funcs is the expression's.
pub fn inlined_values_are_seen()
    ensures { SeesInlinedValues }
{}

/// A point of an input or a computed Func passes exactly where the test holds of it.
pub fn computed_points_are_tested()
    ensures { ComputedPointsAreTested }
{}

/// What holds of all points of inputs and computed Funcs that an expression reads through inlined Funcs is passed by
/// each point that it reads in its text, a point of an inlined Func standing for those that it reads.
pub fn seen_points_pass()
    ensures { SeenPointsPass }
{}

/// So it is in an update.
pub fn seen_points_pass_in_updates()
    ensures { SeenPointsPassInUpdates }
{}

/// Where a point of an inlined Func passes, all that its pixel reads itself does.
pub fn passing_is_closed()
    ensures { PassingIsClosed }
{}

/// Nodes are counted, and registers needed, as in the tree with inlined Funcs put in place; an argument that isn't used
/// counts beside it, and needs nothing.
pub fn weights_are_of_trees()
    ensures counts { CountsAreOfTrees }
    ensures needs { NeedsAreOfTrees }
{}

/// The tree with inlined Funcs put in place has the value through them, and calls none of them.
pub fn trees_are_put_in()
    ensures values { TreesHaveValues }
    ensures calls { TreesCallNoInlined }
{}
