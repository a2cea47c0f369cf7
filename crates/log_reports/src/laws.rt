//! Laws of the texts, each the contract of a function that does nothing.

ghost use Rattle.std.specs.Prelude.{◌≡◌, Ok};
ghost use Rattle.turn_log.specs.TurnLog.{IsLog, LogState};
ghost use Rattle.log_reports.specs.LogText.{log_in, log_text};

/// The text of a log is read as that log. So no two logs have one text.
pub fn text_is_read_back()
    ensures { (log : LogState) → IsLog log → log_in (log_text log) ≡ Ok log }
{}
