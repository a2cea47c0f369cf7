//! One pass over the tokens of an expression, which judges it on the way. Nothing is called in itself, so
//! a line may have any number of brackets. Where the pass is is changed in place, since moving it costs more than
//! a token does.

ghost use Rattle.std.specs.Prelude.{◌≡◌, ◌<◌, ◌≤◌, ◌+◌, ◌^◌, length, IfOk, IfSome, OnOk, None, Some, if◌then◌else◌};
ghost use Rattle.std.specs.Prelude.{option_map};
ghost use Rattle.line_text.specs.Lines.{Gives};
ghost use Rattle.halide_parser_syntax.specs.declared.states.Bracket.TheVariants as brackets;
ghost use Rattle.halide_parser_syntax.specs.inner.Machine as machine;
ghost use Rattle.halide_parser_syntax.specs.inner.LineReading as reading;
ghost use Rattle.halide_parser.specs.inner.Judging.{judging};

use crate::calls;
use crate::judging::{self, Judged};
use crate::readers::AlgorithmReader;
use crate::scopes::NameScope;
use halide_parser_syntax::{
    Bracket, CompareOperator, Frame, ParseFault, Pending, ProductOperator, Stack, SumOperator,
    TermState, Token,
};
use line_text::ReadError;
use sqlite_items::Items;
use std::alloc::AllocError;
use std::mem;

fn nothing() -> Pending<Judged>
    ensures { result ≡ machine.nothing }
{
    Pending {
        signs: 0,
        product: None,
        sum: None,
        comparison: None,
    }
}

/// This many signs before an operand.
fn negated(
    reader: &AlgorithmReader,
    scope: &NameScope,
    signs: usize,
    value: Judged,
) -> Result<Judged, AllocError>
    ensures { IfOk result (λ judged. judged ≡ machine.negated (judging reader.now scope.now) signs value) }
{
    let mut found = value;
    'signs: for _ in 0..signs {
        found = judging::minus(reader.alloc, found)?;
    }
    Ok(found)
}

fn product_of(
    reader: &AlgorithmReader,
    scope: &NameScope,
    left: Option<(ProductOperator, Judged)>,
    value: Judged,
) -> Result<Judged, AllocError>
    ensures { IfOk result (λ judged. judged ≡ machine.product_of (judging reader.now scope.now) left value) }
{
    match left {
        None => Ok(value),
        Some((operator, left)) => Ok(judging::product(reader.alloc, operator, left, value)?),
    }
}

fn sum_of(
    reader: &AlgorithmReader,
    scope: &NameScope,
    left: Option<(SumOperator, Judged)>,
    value: Judged,
) -> Result<Judged, AllocError>
    ensures { IfOk result (λ judged. judged ≡ machine.sum_of (judging reader.now scope.now) left value) }
{
    match left {
        None => Ok(value),
        Some((operator, left)) => Ok(judging::sum(reader.alloc, operator, left, value)?),
    }
}

fn comparison_of(
    reader: &AlgorithmReader,
    scope: &NameScope,
    left: Option<(CompareOperator, Judged)>,
    value: Judged,
) -> Result<Judged, AllocError>
    ensures { IfOk result (λ judged. judged ≡ machine.comparison_of (judging reader.now scope.now) left value) }
{
    match left {
        None => Ok(value),
        Some((operator, left)) => Ok(judging::comparison(reader.alloc, operator, left, value)?),
    }
}

/// The whole of a bracket after its last product; nothing stays pending.
fn whole(
    reader: &AlgorithmReader,
    scope: &NameScope,
    pending: &mut Pending<Judged>,
    term: Judged,
) -> Result<Judged, AllocError>
    ensures { IfOk result (λ judged. judged ≡ machine.whole (judging reader.now scope.now) pending.old term) }
{
    let value = sum_of(reader, scope, pending.sum.take(), term)?;
    Ok(comparison_of(reader, scope, pending.comparison.take(), value)?)
}

/// An operand joins the signs and the product before it.
fn operand(
    reader: &AlgorithmReader,
    scope: &NameScope,
    state: &mut TermState<Judged>,
    value: Judged,
) -> Result<(), AllocError>
    ensures { OnOk result (state.new ≡ machine.operand (judging reader.now scope.now) state.old.stack state.old.pending
        value) }
{
    let value = negated(reader, scope, state.pending.signs, value)?;
    let term = product_of(reader, scope, state.pending.product.take(), value)?;
    state.pending.signs = 0;
    state.term = Some(term);
    Ok(())
}

/// One more bracket.
fn opened(state: &mut TermState<Judged>, bracket: Bracket<Judged>) -> Result<(), AllocError>
    ensures { OnOk result (state.new ≡ machine.opened state.old.stack state.old.pending bracket) }
{
    let outer = mem::replace(&mut state.pending, nothing());
    state.stack.push(Frame { bracket, outer })?;
    state.term = None;
    Ok(())
}

/// A product goes on.
fn multiplied(state: &mut TermState<Judged>, term: Judged, operator: ProductOperator)
    ensures { state.new ≡ machine.multiplied state.old.stack state.old.pending term operator }
{
    state.pending.signs = 0;
    state.pending.product = Some((operator, term));
    state.term = None;
}

/// A sum goes on.
fn added(
    reader: &AlgorithmReader,
    scope: &NameScope,
    state: &mut TermState<Judged>,
    term: Judged,
    operator: SumOperator,
) -> Result<(), AllocError>
    ensures { OnOk result (state.new ≡ machine.added (judging reader.now scope.now) state.old.stack state.old.pending
        term operator) }
{
    let value = sum_of(reader, scope, state.pending.sum.take(), term)?;
    state.pending.signs = 0;
    state.pending.product = None;
    state.pending.sum = Some((operator, value));
    state.term = None;
    Ok(())
}

/// A comparison, of which a bracket holds one at most; whether it can stand there.
fn compared(
    reader: &AlgorithmReader,
    scope: &NameScope,
    state: &mut TermState<Judged>,
    term: Judged,
    operator: CompareOperator,
) -> Result<bool, AllocError>
    ensures { IfOk result (λ stands. (if stands then Some state.new else None)
        ≡ machine.compared (judging reader.now scope.now) state.old.stack state.old.pending term operator) }
{
    if state.pending.comparison.is_some() {
        drop(term);
        return Ok(false);
    }
    let value = sum_of(reader, scope, state.pending.sum.take(), term)?;
    state.pending.signs = 0;
    state.pending.product = None;
    state.pending.comparison = Some((operator, value));
    state.term = None;
    Ok(true)
}

/// The bracket of the next operand.
fn next_in(bracket: Bracket<Judged>, value: Judged) -> Option<Bracket<Judged>>
    ensures { result ≡ machine.next_in bracket value }
{
    match bracket {
        Bracket::CallFirst(name) => Some(Bracket::CallSecond(name, value)),
        Bracket::TwoFirst(function) => Some(Bracket::TwoSecond(function, value)),
        Bracket::ThreeFirst(function) => Some(Bracket::ThreeSecond(function, value)),
        Bracket::ThreeSecond(function, first) => Some(Bracket::ThreeThird(function, first, value)),
        _ => None,
    }
}

/// A comma; whether it can stand there.
fn separated(
    reader: &AlgorithmReader,
    scope: &NameScope,
    state: &mut TermState<Judged>,
    term: Judged,
) -> Result<bool, AllocError>
    ensures { IfOk result (λ stands. (if stands then Some state.new else None)
        ≡ machine.separated (judging reader.now scope.now) state.old.stack state.old.pending term) }
{
    let value = whole(reader, scope, &mut state.pending, term)?;
    match state.stack.pop() {
        None => Ok(false),
        Some(frame) => {
            let Frame { bracket, outer } = frame;
            state.pending = outer;
            match next_in(bracket, value) {
                None => Ok(false),
                Some(bracket) => {
                    opened(state, bracket)?;
                    Ok(true)
                }
            }
        }
    }
}

/// What a bracket with all its operands comes to.
fn closed_by(
    reader: &AlgorithmReader,
    scope: &NameScope,
    bracket: Bracket<Judged>,
    value: Judged,
) -> Result<Option<Judged>, AllocError>
    ensures { IfOk result (λ judged. judged ≡ machine.closed_by (judging reader.now scope.now) bracket value) }
{
    let alloc = reader.alloc;
    match bracket {
        Bracket::Group => Ok(Some(judging::group(value))),
        Bracket::CallFirst(name) => {
            Ok(Some(calls::call(reader, scope, name.as_slice(), value)?))
        }
        Bracket::CallSecond(name, first) => Ok(Some(calls::call_two(
            reader,
            scope,
            name.as_slice(),
            first,
            value,
        )?)),
        Bracket::TwoSecond(function, first) => {
            Ok(Some(judging::two(alloc, function, first, value)?))
        }
        Bracket::ThreeThird(function, first, second) => {
            Ok(Some(judging::three(alloc, function, first, second, value)?))
        }
        _ => Ok(None),
    }
}

/// A closing bracket; whether it can stand there.
fn closed(
    reader: &AlgorithmReader,
    scope: &NameScope,
    state: &mut TermState<Judged>,
    term: Judged,
) -> Result<bool, AllocError>
    ensures { IfOk result (λ stands. (if stands then Some state.new else None)
        ≡ machine.closed (judging reader.now scope.now) state.old.stack state.old.pending term) }
{
    let value = whole(reader, scope, &mut state.pending, term)?;
    match state.stack.pop() {
        None => Ok(false),
        Some(frame) => {
            let Frame { bracket, outer } = frame;
            state.pending = outer;
            match closed_by(reader, scope, bracket, value)? {
                None => Ok(false),
                Some(value) => {
                    operand(reader, scope, state, value)?;
                    Ok(true)
                }
            }
        }
    }
}

fn copied(reader: &AlgorithmReader, name: &Items<u8>) -> Result<Items<u8>, AllocError>
    ensures { IfOk result (λ copy. copy ≡ name.now) }
{
    Items::from_slice(reader.alloc, name.as_slice())
}

/// The bracket of a call.
fn called(
    reader: &AlgorithmReader,
    state: &mut TermState<Judged>,
    name: &Items<u8>,
) -> Result<(), AllocError>
    ensures { OnOk result (state.new ≡ machine.opened state.old.stack state.old.pending (brackets.CallFirst name.now)) }
{
    let bracket = Bracket::CallFirst(copied(reader, name)?);
    opened(state, bracket)?;
    Ok(())
}

/// One more sign.
fn signed(state: &mut TermState<Judged>)
    requires { state.old.pending.signs + 1 < 2 ^ 64 }
    ensures { state.new ≡ machine.signed state.old.stack state.old.pending }
{
    state.pending.signs += 1;
    state.term = None;
}

/// Takes the next tokens where an operand is wanted, and gives those after them; None where there is none.
fn begun<'a>(
    reader: &AlgorithmReader,
    scope: &NameScope,
    state: &mut TermState<Judged>,
    tokens: &'a [Token],
) -> Result<Option<&'a [Token]>, AllocError>
    requires { state.old.pending.signs + length tokens.now < 2 ^ 64 }
    ensures moved { IfOk result (λ rest. option_map (λ r. (state.new, r.now)) rest
        ≡ machine.begun (judging reader.now scope.now) state.old.stack state.old.pending tokens.now) }
    ensures shorter { IfOk result (λ rest. IfSome rest (λ r. length r.now < length tokens.now)) }
    ensures few { IfOk result (λ rest. IfSome rest (λ r. state.new.pending.signs + length r.now ≤
        state.old.pending.signs + length tokens.now)) }
{
    match tokens {
        [Token::Number(number), rest @ ..] => {
            operand(reader, scope, state, judging::literal(*number))?;
            Ok(Some(rest))
        }
        [Token::Name(name), Token::Open, rest @ ..] => {
            called(reader, state, name)?;
            Ok(Some(rest))
        }
        [Token::Name(name), rest @ ..] => {
            let value = judging::bare(reader, scope, name.as_slice());
            operand(reader, scope, state, value)?;
            Ok(Some(rest))
        }
        [Token::Two(function), Token::Open, rest @ ..] => {
            opened(state, Bracket::TwoFirst(*function))?;
            Ok(Some(rest))
        }
        [Token::Three(function), Token::Open, rest @ ..] => {
            opened(state, Bracket::ThreeFirst(*function))?;
            Ok(Some(rest))
        }
        [Token::Open, rest @ ..] => {
            opened(state, Bracket::Group)?;
            Ok(Some(rest))
        }
        [Token::Sum(SumOperator::Subtract), rest @ ..] => {
            signed(state);
            Ok(Some(rest))
        }
        _ => Ok(None),
    }
}

/// Takes the next token after an operand, and gives those after it; None where it can't stand there.
fn followed<'a>(
    reader: &AlgorithmReader,
    scope: &NameScope,
    state: &mut TermState<Judged>,
    term: Judged,
    tokens: &'a [Token],
) -> Result<Option<&'a [Token]>, AllocError>
    ensures moved { IfOk result (λ rest. option_map (λ r. (state.new, r.now)) rest
        ≡ machine.followed (judging reader.now scope.now) state.old.stack state.old.pending term tokens.now) }
    ensures shorter { IfOk result (λ rest. IfSome rest (λ r. length r.now < length tokens.now)) }
    ensures few { IfOk result (λ rest. IfSome rest (λ r. state.new.pending.signs ≡ 0)) }
{
    let [token, rest @ ..] = tokens else {
        drop(term);
        return Ok(None);
    };
    let stands = match token {
        Token::Product(operator) => {
            multiplied(state, term, *operator);
            true
        }
        Token::Sum(operator) => {
            added(reader, scope, state, term, *operator)?;
            true
        }
        Token::Compare(operator) => compared(reader, scope, state, term, *operator)?,
        Token::Comma => separated(reader, scope, state, term)?,
        Token::Close => closed(reader, scope, state, term)?,
        _ => {
            drop(term);
            false
        }
    };
    Ok(if stands { Some(rest) } else { None })
}

/// One step of the pass, and the tokens after it; None where the tokens are not of the grammar.
#[tactic(auto, unfolding(halide_parser_syntax::specs::inner::Machine::step))]
fn step<'a>(
    reader: &AlgorithmReader,
    scope: &NameScope,
    state: &mut TermState<Judged>,
    tokens: &'a [Token],
) -> Result<Option<&'a [Token]>, AllocError>
    requires { state.old.pending.signs + length tokens.now < 2 ^ 64 }
    ensures moved { IfOk result (λ rest. option_map (λ r. (state.new, r.now)) rest
        ≡ machine.step (judging reader.now scope.now) state.old tokens.now) }
    ensures shorter { IfOk result (λ rest. IfSome rest (λ r. length r.now < length tokens.now)) }
    ensures few { IfOk result (λ rest. IfSome rest (λ r. state.new.pending.signs + length r.now ≤
        state.old.pending.signs + length tokens.now)) }
{
    match state.term.take() {
        None => Ok(begun(reader, scope, state, tokens)?),
        Some(term) => Ok(followed(reader, scope, state, term, tokens)?),
    }
}

/// Whether an operator is at the front.
fn is_operator(tokens: &[Token]) -> bool
    ensures { result ≡ machine.is_operator tokens.now }
{
    matches!(
        tokens,
        [Token::Product(_) | Token::Sum(_) | Token::Compare(_), ..]
    )
}

/// Whether the whole expression was read before these tokens.
#[tactic(auto, unfolding(halide_parser_syntax::specs::inner::Machine::is_over))]
fn is_over(state: &TermState<Judged>, tokens: &[Token]) -> bool
    ensures { result ≡ machine.is_over state.now tokens.now }
{
    state.term.is_some() && !is_operator(tokens) && state.stack.is_empty()
}

/// The whole expression, where one was read.
fn finished<'a>(
    reader: &AlgorithmReader,
    scope: &NameScope,
    state: TermState<Judged>,
    tokens: &'a [Token],
) -> Result<(Judged, &'a [Token]), ReadError<ParseFault>>
    ensures { Gives (λ x. (x.0, x.1.now)) result
        (reading.or_syntax (machine.finished (judging reader.now scope.now) state tokens.now)) }
{
    let TermState {
        mut pending,
        term,
        ..
    } = state;
    match term {
        None => Err(ReadError::Fault(ParseFault::Syntax)),
        Some(term) => Ok((whole(reader, scope, &mut pending, term)?, tokens)),
    }
}

/// The expression at the front, and the tokens that follow it.
///
/// # Errors
///
/// `Syntax` where the tokens are not of the grammar; memory ran out.
pub fn expression<'a>(
    reader: &AlgorithmReader,
    scope: &NameScope,
    tokens: &'a [Token],
) -> Result<(Judged, &'a [Token]), ReadError<ParseFault>>
    ensures { Gives (λ x. (x.0, x.1.now)) result (reading.read (judging reader.now scope.now) tokens.now) }
{
    let mut state = TermState {
        stack: Stack::new(reader.alloc),
        pending: nothing(),
        term: None,
    };
    let mut rest = tokens;
    'steps: loop {
        if is_over(&state, rest) {
            return Ok(finished(reader, scope, state, rest)?);
        }
        let Some(after) = step(reader, scope, &mut state, rest)? else {
            return Err(ReadError::Fault(ParseFault::Syntax));
        };
        rest = after;
    }
}
