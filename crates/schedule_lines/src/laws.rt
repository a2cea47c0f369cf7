//! Laws of the definitions, each the contract of a function that does nothing.

ghost use Rattle.std.specs.Prelude.{◌≡◌, ℕ, Bool, List, Ok};
ghost use Rattle.schedule_lines.specs.declared.lines.LoopDirective.{LoopDirective};
ghost use Rattle.schedule_lines.specs.declared.stages.Loop.{Loop};
ghost use Rattle.schedule_lines.specs.declared.stages.Stage.{Stage};
ghost use Rattle.schedule_lines.specs.Directives.{directed};
ghost use Rattle.schedule_lines.specs.Making.{IsStage};

/// A stage that lines make of its first loops stays one: after each line that is accepted its loops are those
/// that its splits leave, in an order that keeps that of loops over reduction variables, at most 5, with names
/// that differ.
pub fn directives_keep_stages()
    ensures { (is_update : Bool) (start : List Loop) (stage : Stage) (line : ℕ) (directive : LoopDirective)
        (new : Stage)
        → directed is_update stage line directive ≡ Ok new → IsStage is_update start stage
        → IsStage is_update start new }
{}
