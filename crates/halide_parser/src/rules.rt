//! The rules that a line may break, each a test, and the least fault.

ghost use Rattle.std.specs.Prelude.{◌≡◌};
ghost use Rattle.halide_parser.specs.Rules as spec;
ghost use Rattle.halide_parser.specs.inner.JudgedLines as lines;

use crate::judging::{Judged, Marks, both_marks, fits, no_marks};
use crate::readers::{AlgorithmReader, func, func_place};
use crate::scopes::is_named;
use halide_parser_syntax::{
    AlgorithmLine, Change, Definition, NamedExtents, ParseFault, ReductionBounds, Token,
};
use halide_pipeline::{MOST_EXTENT, MOST_POINTS, Output, Variable};
use sqlite_items::Items;

fn is_blank(line: &AlgorithmLine<Judged>) -> bool
    ensures { result ≡ spec.is_blank line.now }
{
    match line {
        AlgorithmLine::Blank => true,
        _ => false,
    }
}

/// Whether something is after the output line.
fn is_behind_output(output: Option<Output>, line: &AlgorithmLine<Judged>) -> bool
    ensures { result ≡ spec.is_behind_output output line.now }
{
    output.is_some() && !is_blank(line)
}

fn is_func(reader: &AlgorithmReader, name: &[u8]) -> bool
    ensures { result ≡ spec.is_func reader.now name.now }
{
    func_place(reader, name).is_some()
}

/// The marks of a second index, if there is one.
fn marks_of(index: &Option<Judged>) -> Marks
    ensures { result ≡ lines.marks_of index.now }
{
    match index {
        None => no_marks(),
        Some(judged) => judged.marks,
    }
}

/// The marks of the indexes on the left.
fn left_marks(change: &Change<Judged>) -> Marks
    ensures { result ≡ lines.left_marks change.now }
{
    both_marks(change.left_x.marks, marks_of(&change.left_y))
}

/// The marks of all expressions of an update.
fn change_marks(change: &Change<Judged>) -> Marks
    ensures { result ≡ lines.change_marks change.now }
{
    both_marks(left_marks(change), change.right.marks)
}

/// The marks of all expressions of a line.
fn line_marks(line: &AlgorithmLine<Judged>) -> Marks
    ensures { result ≡ lines.line_marks line.now }
{
    match line {
        AlgorithmLine::Func(definition) => definition.right.marks,
        AlgorithmLine::Update(change) => change_marks(change),
        _ => no_marks(),
    }
}

/// Whether a name stands for nothing that can stand there.
fn is_unknown(reader: &AlgorithmReader, line: &AlgorithmLine<Judged>) -> bool
    ensures { result ≡ lines.is_unknown reader.now line.now }
{
    let is_other = match line {
        AlgorithmLine::Update(change) => !is_func(reader, change.name.as_slice()),
        AlgorithmLine::Output(extents) => !is_func(reader, extents.name.as_slice()),
        _ => false,
    };
    is_other || line_marks(line).is_unknown
}

/// Whether a name is one of a Func's arguments.
fn is_argument(reader: &AlgorithmReader, owner: &[u8], name: &[u8]) -> bool
    ensures { result ≡ spec.is_argument reader.now owner.now name.now }
{
    match func(reader, owner) {
        None => false,
        Some(func) => {
            func.first_argument.as_slice() == name || is_named(&func.second_argument, name)
        }
    }
}

/// Whether the second reduction variable has the name of the first or of an argument.
fn is_second_taken(
    reader: &AlgorithmReader,
    owner: &[u8],
    first: &[u8],
    second: &Option<ReductionBounds>,
) -> bool
    ensures { result ≡ spec.is_second_taken reader.now owner.now first.now second.now }
{
    match second {
        None => false,
        Some(bounds) => {
            bounds.name.as_slice() == first || is_argument(reader, owner, bounds.name.as_slice())
        }
    }
}

/// Whether a reduction variable has a name that is taken.
fn is_reduction_taken(reader: &AlgorithmReader, change: &Change<Judged>) -> bool
    ensures { result ≡ spec.is_reduction_taken reader.now change.now }
{
    let owner = change.name.as_slice();
    let first = change.first.name.as_slice();
    is_argument(reader, owner, first) || is_second_taken(reader, owner, first, &change.second)
}

/// Whether an input, a Func, an argument or a reduction variable has a name that is taken.
fn is_taken(reader: &AlgorithmReader, line: &AlgorithmLine<Judged>) -> bool
    ensures { result ≡ spec.is_taken reader.now line.now }
{
    match line {
        AlgorithmLine::Input { extents, .. } => reader.names.get(extents.name.as_slice()).is_some(),
        AlgorithmLine::Func(definition) => {
            reader.names.get(definition.name.as_slice()).is_some()
                || is_named(
                    &definition.second_argument,
                    definition.first_argument.as_slice(),
                )
        }
        AlgorithmLine::Update(change) => is_reduction_taken(reader, change),
        _ => false,
    }
}

/// Whether there is a Func with a name that has another number of arguments.
fn is_other_count(reader: &AlgorithmReader, name: &[u8], count: usize) -> bool
    ensures { result ≡ spec.is_other_count reader.now name.now count }
{
    match func(reader, name) {
        None => false,
        Some(func) => func.dimensions() != count,
    }
}

/// 2 where there is a second, else 1.
fn count_with<T>(second: &Option<T>) -> usize
    ensures { result ≡ spec.count_with second.now }
{
    if second.is_some() { 2 } else { 1 }
}

/// Whether the number of arguments or dimensions is another.
fn is_wrong_count(reader: &AlgorithmReader, line: &AlgorithmLine<Judged>) -> bool
    ensures { result ≡ lines.is_wrong_count reader.now line.now }
{
    let is_other = match line {
        AlgorithmLine::Update(change) => {
            is_other_count(reader, change.name.as_slice(), count_with(&change.left_y))
        }
        AlgorithmLine::Output(extents) => {
            is_other_count(reader, extents.name.as_slice(), count_with(&extents.height))
        }
        _ => false,
    };
    is_other || line_marks(line).is_wrong_count
}

fn is_large(token: &Token) -> bool
    ensures { result ≡ spec.is_large token.now }
{
    match token {
        Token::Number(number) => *number > 0x7fff_ffff,
        _ => false,
    }
}

fn is_long(token: &Token) -> bool
    ensures { result ≡ spec.is_long token.now }
{
    match token {
        Token::Name(name) => name.len() > 32,
        _ => false,
    }
}

/// Whether a number is above 2147483647.
#[tactic(auto, unfolding(crate::specs::Rules::has_large))]
fn has_large(tokens: &[Token]) -> bool
    ensures { result ≡ spec.has_large tokens.now }
{
    tokens.iter().any(|token| is_large(token))
}

/// Whether a name is above 32 bytes.
#[tactic(auto, unfolding(crate::specs::Rules::has_long))]
fn has_long(tokens: &[Token]) -> bool
    ensures { result ≡ spec.has_long tokens.now }
{
    tokens.iter().any(|token| is_long(token))
}

/// Whether an index is this variable alone.
fn is_in_place(index: &Option<Judged>, variable: Variable) -> bool
    ensures { result ≡ lines.is_in_place index.now variable }
{
    match index {
        None => false,
        Some(judged) => judged.alone == Some(variable),
    }
}

/// Whether an argument is used without standing in place, or a call of the Func moves one that does, or
/// the Func is called on the left.
fn is_moved(change: &Change<Judged>) -> bool
    ensures { result ≡ lines.is_moved change.now }
{
    let marks = change_marks(change);
    let is_first = change.left_x.alone == Some(Variable::FirstArgument);
    let is_second = is_in_place(&change.left_y, Variable::SecondArgument);
    let moves_first = if is_first {
        marks.moves_first
    } else {
        marks.uses_first
    };
    let moves_second = if is_second {
        marks.moves_second
    } else {
        marks.uses_second
    };
    left_marks(change).calls_own || moves_first || moves_second
}

/// Whether an update does not stand below its Func, or moves what is in place.
fn is_misshapen(reader: &AlgorithmReader, line: &AlgorithmLine<Judged>) -> bool
    ensures { result ≡ lines.is_misshapen reader.now line.now }
{
    match line {
        AlgorithmLine::Update(change) => {
            reader.last_func != func_place(reader, change.name.as_slice()) || is_moved(change)
        }
        _ => false,
    }
}

/// Whether an extent is not from 1 to the most.
fn is_bad_extent(extent: u32) -> bool
    ensures { result ≡ spec.is_bad_extent extent }
{
    extent < 1 || extent > MOST_EXTENT
}

/// Whether a box has bad extents or too many points.
fn is_bad_box(width: u32, height: u32) -> bool
    ensures { result ≡ spec.is_bad_box width height }
{
    let points = u64::from(width).saturating_mul(u64::from(height));
    is_bad_extent(width) || is_bad_extent(height) || points > MOST_POINTS
}

/// The height, 1 where there is none.
pub fn height_of(extents: &NamedExtents) -> u32
    ensures { result ≡ spec.height_of extents.now.height }
{
    match extents.height {
        None => 1,
        Some(height) => height,
    }
}

/// The extent of a second reduction variable, 1 where there is none.
fn second_extent(second: &Option<ReductionBounds>) -> u32
    ensures { result ≡ spec.second_extent second.now }
{
    match second {
        None => 1,
        Some(bounds) => bounds.extent,
    }
}

/// Whether a second reduction variable has a minimum above 2^24.
fn is_second_far(second: &Option<ReductionBounds>) -> bool
    ensures { result ≡ spec.is_second_far second.now }
{
    match second {
        None => false,
        Some(bounds) => bounds.minimum > 0x0100_0000,
    }
}

/// Whether an expression has more than 512 nodes or is nested more than 64 deep.
fn exceeds(judged: &Judged) -> bool
    ensures { result ≡ lines.exceeds judged.now }
{
    !fits(judged.nodes, judged.nesting)
}

fn second_exceeds(index: &Option<Judged>) -> bool
    ensures { result ≡ spec.second_exceeds lines.exceeds index.now }
{
    match index {
        None => false,
        Some(judged) => exceeds(judged),
    }
}

/// Whether the Func with a name has its 4 updates.
fn is_full(reader: &AlgorithmReader, name: &[u8]) -> bool
    ensures { result ≡ spec.is_full reader.now name.now }
{
    match func(reader, name) {
        None => false,
        Some(func) => func.updates.len() >= 4,
    }
}

fn is_change_over_limit(reader: &AlgorithmReader, change: &Change<Judged>) -> bool
    ensures { result ≡ spec.is_change_over_limit lines.exceeds reader.now change.now }
{
    let is_large = exceeds(&change.left_x)
        || second_exceeds(&change.left_y)
        || exceeds(&change.right);
    let is_far = change.first.minimum > 0x0100_0000 || is_second_far(&change.second);
    let is_bad = is_bad_box(change.first.extent, second_extent(&change.second));
    is_full(reader, change.name.as_slice()) || is_large || is_far || is_bad
}

/// Whether a limit is passed.
fn is_over_limit(reader: &AlgorithmReader, tokens: &[Token], line: &AlgorithmLine<Judged>) -> bool
    ensures { result ≡ spec.is_over_limit lines.exceeds reader.now tokens.now line.now }
{
    let is_over = match line {
        AlgorithmLine::Blank => false,
        AlgorithmLine::Input { extents, .. } => {
            reader.inputs.len() >= 4 || is_bad_box(extents.width, height_of(extents))
        }
        AlgorithmLine::Func(definition) => reader.funcs.len() >= 12 || exceeds(&definition.right),
        AlgorithmLine::Update(change) => is_change_over_limit(reader, change),
        AlgorithmLine::Output(extents) => is_bad_box(extents.width, height_of(extents)),
    };
    reader.is_oversized || has_long(tokens) || is_over
}

/// The least fault of a line of the grammar, if it has one.
#[tactic(auto, unfolding(crate::specs::inner::JudgedLines::fault_of))]
pub fn fault_of(
    reader: &AlgorithmReader,
    tokens: &[Token],
    line: &AlgorithmLine<Judged>,
) -> Option<ParseFault>
    ensures { result ≡ lines.fault_of reader.now tokens.now line.now }
{
    if is_behind_output(reader.output, line) {
        Some(ParseFault::Syntax)
    } else if is_unknown(reader, line) {
        Some(ParseFault::UnknownName)
    } else if is_taken(reader, line) {
        Some(ParseFault::NameTaken)
    } else if is_wrong_count(reader, line) {
        Some(ParseFault::WrongCount)
    } else if line_marks(line).is_bad_divisor {
        Some(ParseFault::Divisor)
    } else if has_large(tokens) {
        Some(ParseFault::NumberTooLarge)
    } else if is_misshapen(reader, line) {
        Some(ParseFault::UpdateShape)
    } else if is_over_limit(reader, tokens, line) {
        Some(ParseFault::Limit)
    } else {
        None
    }
}
