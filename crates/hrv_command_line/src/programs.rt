//! The program's commands as `clap` takes them.
ghost use Rattle.std.specs.Prelude.{◌≡◌, false, fold, map, IfOk};
ghost use Rattle.clap.specs.Words.{app_of, rule_of};
ghost use Rattle.hrv_command_line.specs.Commands as spec;

use crate::table::{Choice, CommandRow, OptionKind, Value, ValueCount, rows};
use clap::{Arg, ArgAction, Command};
use std::alloc::{AllocError, Global};

/// The program's command, with a subcommand for each row of the table.
#[inline(never)]
pub(crate) fn program<'a>(alloc: Global) -> Result<Command<'a>, AllocError>
    ensures { IfOk result (spec.Makes spec.hrv_app) }
{
    let bare = bare_program(alloc)?;
    with_rows(alloc, bare, rows())
}

// The program's command without subcommands.
fn bare_program<'a>(alloc: Global) -> Result<Command<'a>, AllocError>
    ensures { IfOk result (spec.Makes spec.bare_app) }
{
    let command = Command::new(alloc, "hrv")
        .about(
            "Compiles stencil programs for harts that share one memory, runs them, and tells what their turns did",
        )
        .bin_name("hrv")?
        .no_binary_name(true)
        .subcommand_required(true);
    Ok(command)
}

// A command with a subcommand more for each row.
fn with_rows<'a>(
    alloc: Global,
    command: Command<'a>,
    rows: &'static [CommandRow<'static>],
) -> Result<Command<'a>, AllocError>
    ensures { IfOk result (λ made. spec.IsLocal command.entry
        → spec.Makes (fold spec.with_command (app_of command.entry) (map spec.shape_of rows.now)) made) }
{
    match rows {
        [] => Ok(command),
        [row, rows @ ..] => {
            let grown = with_row(alloc, command, row)?;
            with_rows(alloc, grown, rows)
        }
    }
}

// A command with the subcommand of a row more.
fn with_row<'a>(
    alloc: Global,
    command: Command<'a>,
    row: &CommandRow<'static>,
) -> Result<Command<'a>, AllocError>
    ensures { IfOk result (λ made. spec.IsLocal command.entry
        → spec.Makes (spec.with_command (app_of command.entry) (spec.shape_of row.now)) made) }
{
    let own = command_for(alloc, row)?;
    command.subcommand(own)
}

// The command of a row.
#[inline(never)]
fn command_for<'a>(alloc: Global, row: &CommandRow<'static>) -> Result<Command<'a>, AllocError>
    ensures { IfOk result (spec.Makes (spec.app_by (spec.shape_of row.now))) }
{
    let command = Command::new(alloc, row.name).about(row.about);
    let command = with_values(alloc, command, row.values)?;
    with_choices(alloc, command, row.choices)
}

// A command with an argument more for each value.
fn with_values<'a>(
    alloc: Global,
    command: Command<'a>,
    values: &'static [Value<'static>],
) -> Result<Command<'a>, AllocError>
    ensures { IfOk result (λ made. spec.IsLocal command.entry
        → spec.Makes (fold spec.with_value (app_of command.entry) (map spec.value_of values.now)) made) }
{
    match values {
        [] => Ok(command),
        [value, values @ ..] => {
            let grown = with_value(alloc, command, value)?;
            with_values(alloc, grown, values)
        }
    }
}

// A command with the argument of a value more.
fn with_value<'a>(
    alloc: Global,
    command: Command<'a>,
    value: &Value<'static>,
) -> Result<Command<'a>, AllocError>
    ensures { IfOk result (λ made. spec.IsLocal command.entry
        → spec.Makes (spec.with_value (app_of command.entry) (spec.value_of value.now)) made) }
{
    command.arg(value_arg(alloc, value))
}

// A command with an argument more for each option.
fn with_choices<'a>(
    alloc: Global,
    command: Command<'a>,
    choices: &'static [Choice<'static>],
) -> Result<Command<'a>, AllocError>
    ensures { IfOk result (λ made. spec.IsLocal command.entry
        → spec.Makes (fold spec.with_choice (app_of command.entry) (map spec.choice_of choices.now)) made) }
{
    match choices {
        [] => Ok(command),
        [choice, choices @ ..] => {
            let grown = with_choice(alloc, command, choice)?;
            with_choices(alloc, grown, choices)
        }
    }
}

// A command with the argument of an option more.
fn with_choice<'a>(
    alloc: Global,
    command: Command<'a>,
    choice: &Choice<'static>,
) -> Result<Command<'a>, AllocError>
    ensures { IfOk result (λ made. spec.IsLocal command.entry
        → spec.Makes (spec.with_choice (app_of command.entry) (spec.choice_of choice.now)) made) }
{
    command.arg(choice_arg(alloc, choice))
}

// The argument of a value.
fn value_arg<'a>(alloc: Global, value: &Value<'static>) -> Arg<'a>
    ensures rule { rule_of result ≡ spec.value_rule (spec.value_of value.now) }
    ensures local { result.global ≡ false }
{
    let arg = Arg::new(alloc, value.name).help(value.help);
    match value.need {
        ValueCount::Always => arg.required(true),
        ValueCount::Perhaps => arg,
        ValueCount::AnyNumber => arg.num_args(..),
    }
}

// The argument of an option.
fn choice_arg<'a>(alloc: Global, choice: &Choice<'static>) -> Arg<'a>
    ensures rule { rule_of result ≡ spec.choice_rule (spec.choice_of choice.now) }
    ensures local { result.global ≡ false }
{
    let arg = Arg::new(alloc, choice.name)
        .long(choice.name)
        .help(choice.help);
    match choice.kind {
        OptionKind::Flag => arg.action(ArgAction::SetTrue),
        OptionKind::Word => arg.value_name(choice.text),
        OptionKind::Harts => arg
            .value_name(choice.text)
            .value_parser(clap::value_parser!(u64).range(1..=8)),
        OptionKind::Turns => arg
            .value_name(choice.text)
            .value_parser(clap::value_parser!(u64).range(1..=1_099_511_627_776)),
        OptionKind::Seed => arg
            .value_name(choice.text)
            .value_parser(clap::value_parser!(u64)),
        OptionKind::Every => arg
            .value_name(choice.text)
            .value_parser(clap::value_parser!(u64).range(1..=4096)),
        OptionKind::Turn => arg
            .value_name(choice.text)
            .value_parser(clap::value_parser!(u64)),
        OptionKind::Hart => arg
            .value_name(choice.text)
            .value_parser(clap::value_parser!(u64).range(0..=7)),
    }
}
