//! What `trace` is asked for by its values and options.

ghost use Rattle.std.specs.Prelude.{◌≡◌, map, option_map};
ghost use Rattle.clap.specs.Walk.{texts};
ghost use Rattle.hrv_command_line.specs.CommandLine.{asked_by};
ghost use Rattle.hrv_command_line.specs.CommandLine as spec;
ghost use Rattle.hrv_command_line.specs.inner.Readings.{chosen_of};

use crate::asked::number_in;
use crate::command_lines::{Invocation, TraceArguments};
use crate::reading::{Chosen, text_of};

/// What `trace` is asked for.
pub(crate) fn trace_asked<'a>(values: &[&'a str], choices: &[Chosen<'a>]) -> Option<Invocation<'a>>
    ensures { option_map asked_by result ≡ spec.trace_of (map chosen_of choices.now) (texts values.now) }
{
    match values {
        [image, log] => {
            let from = turn_of("from", choices, 0)?;
            let to = turn_of("to", choices, u64::MAX)?;
            let hart = hart_of(text_of("hart", choices))?;
            let address = text_of("address", choices);
            let words = TraceArguments {
                from,
                to,
                hart,
                address,
            };
            Some(Invocation::Trace { image, log, words })
        }
        _ => None,
    }
}

// The turn that an option names, or the one that stands for none.
fn turn_of(name: &str, choices: &[Chosen<'_>], none: u64) -> Option<u64>
    ensures { result ≡ spec.turn_or none (spec.text_of name.now (map chosen_of choices.now)) }
{
    match text_of(name, choices) {
        None => Some(none),
        Some(text) => number_in(text),
    }
}

// The hart that an option names, if it is given.
fn hart_of(text: Option<&str>) -> Option<Option<u64>>
    ensures { result ≡ spec.hart_of (option_map (λ s. s.now) text.entry) }
{
    match text {
        None => Some(None),
        Some(text) => Some(Some(hart_in(text)?)),
    }
}

// The hart that a text means.
fn hart_in(text: &str) -> Option<u64>
    ensures { result ≡ spec.hart_in text.now }
{
    match text.parse::<u64>() {
        Ok(number) => { if number < 8 { Some(number) } else { None } }
        Err(_) => None,
    }
}
