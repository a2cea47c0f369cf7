//! Reading a whole text.

ghost use Rattle.std.specs.Prelude.{◌≡◌, ◌+◌, ◌<◌, ◌^◌, IfOk, List, Option};
ghost use Rattle.halide_pipeline.specs.WellFormed.{IsWellFormed};
ghost use Rattle.line_text.specs.Lines.{Gives, GivesLocated};
ghost use Rattle.halide_parser_syntax.specs.declared.tokens.Token.{Token};
ghost use Rattle.halide_parser_syntax.specs.declared.lines.AlgorithmLine.{AlgorithmLine};
ghost use Rattle.halide_parser_syntax.specs.Grammar.{Written};
ghost use Rattle.halide_parser_syntax.specs.LineGrammar.{FollowsGrammar};
ghost use Rattle.halide_parser.specs.Parsing as spec;
ghost use Rattle.halide_parser.specs.inner.JudgedLines as lines;

use crate::ahead::scope_ahead;
use crate::applying::apply;
use crate::judging::Judged;
use crate::line_reading::read_line;
use crate::readers::AlgorithmReader;
use crate::rules::fault_of;
use halide_parser_syntax::{AlgorithmLine, ParseFault, Token, tokens_of};
use halide_pipeline::{Names, Pipeline};
use line_text::{LineReader, LocatedError, ReadError, read_lines};
use sqlite_items::Items;
use std::alloc::Global;

/// What the tokens of a line say, judged.
fn judged(
    reader: &AlgorithmReader,
    tokens: &[Token],
) -> Result<AlgorithmLine<Judged>, ReadError<ParseFault>>
    ensures { Gives (λ x. x) result (lines.judged reader.now tokens.now) }
{
    let scope = scope_ahead(reader, tokens)?;
    Ok(read_line(reader, &scope, tokens)?)
}

impl LineReader for AlgorithmReader {
    type Fault = ParseFault;

    ghost takes = { lines.taken };

    #[tactic(auto, unfolding(crate::specs::inner::JudgedLines::taken), using(crate::proofs::Faultless::free))]
    fn take_line(&mut self, line: &[u8]) -> Result<(), ReadError<ParseFault>> {
        let tokens = tokens_of(self.alloc, line)?;
        let line = judged(self, tokens.as_slice())?;
        match fault_of(self, tokens.as_slice(), &line) {
            Some(fault) => Err(ReadError::Fault(fault)),
            None => {
                apply(self, line)?;
                Ok(())
            }
        }
    }
}

/// An algorithm text has at most this many bytes.
const MOST_TEXT: usize = 65_536;

/// A reader before the first line.
fn start(alloc: Global, text: &[u8]) -> AlgorithmReader
    ensures { result ≡ spec.start alloc text.now }
{
    AlgorithmReader {
        alloc,
        is_oversized: text.len() > MOST_TEXT,
        names: Names::new(alloc),
        inputs: Items::new(alloc),
        funcs: Items::new(alloc),
        output: None,
        last_func: None,
    }
}

/// What this many lines named.
fn finished(reader: AlgorithmReader, count: u64) -> Result<Pipeline, LocatedError<ParseFault>>
    requires few { count + 1 < 2 ^ 64 }
    requires kept { lines.IsFinishable reader }
    ensures { GivesLocated (λ x. x) result (spec.finished count reader) }
{
    let AlgorithmReader {
        names,
        inputs,
        funcs,
        output,
        ..
    } = reader;
    match output {
        None => Err(LocatedError::Fault(count + 1, ParseFault::NoOutput)),
        Some(output) => Ok(Pipeline::new(names, inputs, funcs, output)),
    }
}

/// The pipeline that an algorithm text names, whatever reads its lines by the grammar. It keeps what evaluating and
/// compiling it need: its output fits a picture, calls go to inputs and earlier Funcs with an index for each dimension,
/// an update uses only arguments that stand in place and keeps them so in calls of its own Func, its variables' names
/// differ, divisors are not 0, and the limits on counts, names, sizes, boxes and least values hold
/// (`specs/WellFormed.antt` of `halide_pipeline`).
///
/// # Errors
///
/// The number of the first faulty line, from 1, and its least fault; memory ran out.
pub fn parse(text: &str, alloc: Global) -> Result<Pipeline, LocatedError<ParseFault>>
    ensures given { GivesLocated (λ x. x) result (spec.parsed alloc text.now) }
    ensures by_grammar { (read : List Token → Option (AlgorithmLine Written)) → FollowsGrammar read
        → GivesLocated (λ x. x) result (spec.parsed_by read alloc text.now) }
    ensures well_formed { IfOk result (λ pipeline. IsWellFormed pipeline) }
{
    let bytes = text.as_bytes();
    let mut reader = start(alloc, bytes);
    let count = read_lines(&mut reader, bytes)?;
    Ok(finished(reader, count)?)
}
