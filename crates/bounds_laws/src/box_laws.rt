//! Which Funcs have boxes, and that boxes hold no more than what is asked: laws, each the contract of a function that
//! does nothing.

ghost use Rattle.bounds_laws.specs.Least.{FuncBoxesAreLeast, InputBoxesAreLeast, InputsWithoutBoxes};
ghost use Rattle.bounds_laws.specs.Reached.{BoxesAreOfReachedFuncs, PhasesAreReachedStages};

/// There is a box for a Func exactly where the output reaches it and it isn't inlined.
pub fn boxes_are_of_reached_funcs()
    ensures { BoxesAreOfReachedFuncs }
{}

/// The layout counts a phase for each stage of the Funcs at root that the output reaches.
pub fn phases_are_reached_stages()
    ensures { PhasesAreReachedStages }
{}

/// The box of a Func is the least that holds all ranges that are asked of it.
pub fn func_boxes_are_least()
    ensures { FuncBoxesAreLeast }
{}

/// So is that of an input; one without a box isn't asked for.
pub fn input_boxes_are_least()
    ensures boxes { InputBoxesAreLeast }
    ensures none { InputsWithoutBoxes }
{}
