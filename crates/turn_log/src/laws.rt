//! Laws of logs, each the contract of a function that does nothing.

ghost use Rattle.std.specs.Prelude.{◌≡◌, ℕ, ◌<◌, ◌≤◌, ◌++◌, ◌↔◌, List, All, Some, None, length};
ghost use Rattle.turn_log.specs.LogSpelling.{spelled};
ghost use Rattle.turn_log.specs.RunAt.{run_at, Stand};
ghost use Rattle.turn_log.specs.TurnLog.{LogState, IsLog};

/// No spelling begins another, so that bytes after a log don't change how it is read, and each log
/// has one spelling.
pub fn one_spelling()
    ensures { (a b : LogState) (x y : List ℕ) → IsLog a → IsLog b → spelled a ++ x ≡ spelled b ++ y
        → (a ≡ b) × (x ≡ y) }
{}

/// The run at a place of a log is there, at least one turn long, and is of one of its harts. There
/// is none only after the last turn.
pub fn runs_stand()
    ensures stand { (turns : List ℕ) (place hart count : ℕ) → run_at turns place ≡ Some (hart, count)
        → Stand turns place hart count }
    ensures below { (turns : List ℕ) (harts place hart count : ℕ) → All (λ turn. turn < harts) turns
        → run_at turns place ≡ Some (hart, count) → hart < harts }
    ensures behind { (turns : List ℕ) (place : ℕ) → (run_at turns place ≡ None) ↔ (length turns ≤ place) }
{}
