//! Laws of the machine, each the contract of a function that does nothing.
//!
//! They name no instruction: what a turn depends on is known from its own hart's state, so both hold
//! of every row of the instruction table.

ghost use Rattle.std.specs.Prelude.{ℕ, List};
ghost use Rattle.memory.specs.Access.{AreBytes};
ghost use Rattle.multi_hart.specs.Run.{Frame, FrameWithin, TurnIs, PlacesAre, OthersStay, Commute};
ghost use Rattle.multi_hart.specs.Run.{State, turn, run, KeepsShape};

/// A turn depends on its hart, the text, the size of the data, and on the bytes that it reads alone.
pub fn frame()
    ensures { Frame }
{}

/// The next turns of two harts that touch no byte in common which either writes lead to the same
/// state in either order.
pub fn commute()
    ensures { Commute }
{}

/// The frame told by a rule that all bytes keep which the turn reads.
pub fn frame_within()
    ensures { FrameWithin }
{}

/// A turn as an equation of the state: which bytes are put where, which hart is put back, and that
/// no other hart is touched. Neither a turn nor a run changes the text, or how much data or how many harts there are,
/// and data stay bytes.
pub fn turns_put_back()
    ensures state { TurnIs }
    ensures places { PlacesAre }
    ensures others { OthersStay }
    ensures shape { (state : State) (harts : List ℕ) → KeepsShape state (run state harts) }
    ensures bytes { (state : State) (harts : List ℕ) → AreBytes state.memory → AreBytes (run state harts).memory }
{}
