//! The program's command line: what its words ask for.
//!
//! - [`command_lines`]: [`command`], over `specs/CommandLine.antt`.
//! - [`laws`]: which words name each command.
//! - `table`: the commands, a row each, over `specs/Commands.antt`.
//! - `asked`: what each command is asked for by its values and options.
//! - `tracing`: what `trace` is.
//! - `reading`: the values and the options that words give a command.
//! - `programs`: the table as `clap` takes it, which says what is wrong with words, and helps.
//! - [`faults`]: why words are refused ([`CommandLineFault`]), over `specs/Faults.antt`.
#![tactic(auto)]

mod asked;
mod command_lines;
mod faults;
pub mod laws;
mod programs;
mod reading;
mod table;
mod tracing;

pub use crate::command_lines::{
    BlameArguments, DrawArguments, Invocation, TraceArguments, command,
};
pub use crate::faults::CommandLineFault;
