//! Laws of profiles, each the contract of a function that does nothing.

ghost use Rattle.run_reports.specs.Profile.{TurnsAreMadeOrIdle};

/// The turns that a hart makes while it runs and its idle ones are all turns that a log has of it.
pub fn turns_are_made_or_idle()
    ensures { TurnsAreMadeOrIdle }
{}
