//! The text of a log.

ghost use Rattle.std.specs.Prelude.{◌≡◌, ◌++◌, ◌∷◌, [], IfOk, OnOk};
ghost use Rattle.std.specs.String.{string_bytes};
ghost use Rattle.log_reports.specs.LogText as spec;

use std::alloc::{AllocError, Global};
use turn_log::TurnLog;

/// The text of a log, a line for each run.
pub fn text_of(alloc: Global, log: &TurnLog) -> Result<String, AllocError>
    ensures { IfOk result (λ text. string_bytes text ≡ spec.log_text log.now) }
{
    let mut text = String::new(alloc);
    let harts = log.harts();
    write!(text, "harts {harts}\n")?;
    let mut place = 0;
    while let Some((hart, count)) = log.run_at(place) {
        push_run(&mut text, hart, count)?;
        place += count;
    }
    Ok(text)
}

/// Appends the line of a run.
fn push_run(text: &mut String, hart: usize, count: u64) -> Result<(), AllocError>
    ensures { OnOk result (string_bytes text.new ≡ string_bytes text.old
        ++ (spec.run_line (record { hart = hart; length = count }) ++ 10 ∷ [])) }
{
    write!(text, "{hart} {count}\n")?;
    Ok(())
}
