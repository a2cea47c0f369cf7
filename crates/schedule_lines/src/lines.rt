//! What a line says.

ghost use Rattle.std.specs.Prelude.{◌≡◌, IfOk};
ghost use Rattle.line_text.specs.Lines.{Gives};
ghost use Rattle.schedule_lines.specs.Lines as spec;

use crate::faults::ScheduleFault;
use crate::stages::{Mark, Tail};
use line_text::ReadError;
use line_text::numbers::saturating_number;
use line_text::spans::{begins_name, digits_len, name_len};
use sqlite_items::Items;
use std::alloc::{AllocError, Global};

/// The first word of a line: a name, and what is after a dot.
#[derive(Drop)]
pub struct Subject {
    pub name: Items<u8>,
    /// Letters, digits and `_`, at least one.
    pub update: Option<Items<u8>>,
}

/// A loop becomes two.
#[derive(Drop)]
pub struct SplitLine {
    pub of: Items<u8>,
    pub outer: Items<u8>,
    pub inner: Items<u8>,
    /// Cut off at 65.
    pub factor: u32,
    pub tail: Tail,
}

/// The names of a Func and of a loop of it.
#[derive(Drop)]
pub struct LoopNames {
    pub func: Items<u8>,
    pub inside: Items<u8>,
}

/// What is done to a stage's loops.
#[derive(Drop)]
pub enum LoopDirective {
    Split(SplitLine),
    /// The loops with these names take their own places anew, the innermost first.
    Reorder(Items<Items<u8>>),
    Mark(Mark, Items<u8>),
}

/// Where a Func is to be computed.
#[derive(Drop)]
pub enum Computed {
    Root,
    At(LoopNames),
}

#[derive(Drop)]
pub enum Directive {
    OfLoops(LoopDirective),
    OfPlace(Computed),
}

/// A line.
#[derive(Drop)]
pub enum ScheduleLine {
    /// It has no words.
    Blank,
    Directive(Subject, Directive),
}

/// Whether a word is a name.
pub fn is_name(word: &[u8]) -> bool
    ensures { result ≡ spec.is_name word.now }
{
    match word {
        [] => false,
        [first, rest @ ..] => begins_name(*first) && name_len(rest) == rest.len(),
    }
}

/// Whether a word is a number: digits alone.
fn is_number(word: &[u8]) -> bool
    ensures { result ≡ spec.is_number word.now }
{
    match word {
        [] => false,
        [..] => digits_len(word) == word.len(),
    }
}

/// Whether bytes may stand after the dot of a stage: letters, digits and `_`, at least one.
fn is_suffix(bytes: &[u8]) -> bool
    ensures { result ≡ spec.is_suffix bytes.now }
{
    match bytes {
        [] => false,
        [..] => name_len(bytes) == bytes.len(),
    }
}

/// A word that is a name.
fn name_of(alloc: Global, word: &[u8]) -> Result<Items<u8>, ReadError<ScheduleFault>>
    ensures { Gives (λ x. x) result (spec.name word.now) }
{
    if is_name(word) {
        Ok(Items::from_slice(alloc, word)?)
    } else {
        Err(ReadError::Fault(ScheduleFault::Syntax))
    }
}

/// What is after a dot, after a name.
fn update_of(alloc: Global, rest: &[u8]) -> Result<Option<Items<u8>>, ReadError<ScheduleFault>>
    ensures { Gives (λ x. x) result (spec.update_of rest.now) }
{
    match rest {
        [] => Ok(None),
        [b'.', suffix @ ..] if is_suffix(suffix) => Ok(Some(Items::from_slice(alloc, suffix)?)),
        _ => Err(ReadError::Fault(ScheduleFault::Syntax)),
    }
}

/// The first word: a name, perhaps with a dot and what names an update after it.
#[tactic(auto, unfolding(crate::specs::Lines::subject))]
fn subject_of(alloc: Global, word: &[u8]) -> Result<Subject, ReadError<ScheduleFault>>
    ensures { Gives (λ x. x) result (spec.subject word.now) }
{
    let (front, rest) = word.split_at(name_len(word));
    let name = name_of(alloc, front)?;
    Ok(Subject {
        name,
        update: update_of(alloc, rest)?,
    })
}

/// A factor, cut off at 65.
fn factor_of(word: &[u8]) -> Result<u32, ReadError<ScheduleFault>>
    ensures { Gives (λ x. x) result (spec.factor word.now) }
{
    if is_number(word) {
        Ok(saturating_number(word, 64) as u32)
    } else {
        Err(ReadError::Fault(ScheduleFault::Syntax))
    }
}

/// How a split ends.
fn tail_of(word: &[u8]) -> Result<Tail, ReadError<ScheduleFault>>
    ensures { Gives (λ x. x) result (spec.tail word.now) }
{
    if word == b"guard".as_slice() {
        Ok(Tail::Guard)
    } else if word == b"shift".as_slice() {
        Ok(Tail::Shift)
    } else {
        Err(ReadError::Fault(ScheduleFault::Syntax))
    }
}

/// What is after `split`.
#[tactic(auto, unfolding(crate::specs::Lines::split))]
fn split_of(alloc: Global, words: &[Items<u8>]) -> Result<LoopDirective, ReadError<ScheduleFault>>
    ensures { Gives (λ x. x) result (spec.split words.now) }
{
    match words {
        [of, outer, inner, number, end] => {
            let factor = factor_of(number.as_slice())?;
            let tail = tail_of(end.as_slice())?;
            let of = name_of(alloc, of.as_slice())?;
            let outer = name_of(alloc, outer.as_slice())?;
            let inner = name_of(alloc, inner.as_slice())?;
            Ok(LoopDirective::Split(SplitLine {
                of,
                outer,
                inner,
                factor,
                tail,
            }))
        }
        _ => Err(ReadError::Fault(ScheduleFault::Syntax)),
    }
}

/// Whether all words are names.
fn are_names(words: &[Items<u8>]) -> bool
    ensures { result ≡ spec.are_names words.now }
{
    let mut rest = words;
    'words: while let [first, others @ ..] = rest {
        if !is_name(first.as_slice()) {
            return false;
        }
        rest = others;
    }
    true
}

fn copied(alloc: Global, words: &[Items<u8>]) -> Result<Items<Items<u8>>, AllocError>
    ensures { IfOk result (λ copies. copies ≡ words.now) }
{
    let mut copies = Items::new(alloc);
    for word in words {
        copies.push(Items::from_slice(alloc, word.as_slice())?)?;
    }
    Ok(copies)
}

/// What is after `reorder`.
#[tactic(auto, unfolding(crate::specs::Lines::reorder))]
fn reorder_of(alloc: Global, words: &[Items<u8>]) -> Result<LoopDirective, ReadError<ScheduleFault>>
    ensures { Gives (λ x. x) result (spec.reorder words.now) }
{
    match words {
        [] => Err(ReadError::Fault(ScheduleFault::Syntax)),
        [..] => {
            if are_names(words) {
                Ok(LoopDirective::Reorder(copied(alloc, words)?))
            } else {
                Err(ReadError::Fault(ScheduleFault::Syntax))
            }
        }
    }
}

/// What is after the word of a mark.
#[tactic(auto, unfolding(crate::specs::Lines::mark))]
fn mark_of(
    alloc: Global,
    mark: Mark,
    words: &[Items<u8>],
) -> Result<LoopDirective, ReadError<ScheduleFault>>
    ensures { Gives (λ x. x) result (spec.mark mark words.now) }
{
    match words {
        [of] => Ok(LoopDirective::Mark(mark, name_of(alloc, of.as_slice())?)),
        _ => Err(ReadError::Fault(ScheduleFault::Syntax)),
    }
}

/// What is after `compute_root`.
fn compute_root(words: &[Items<u8>]) -> Result<Computed, ReadError<ScheduleFault>>
    ensures { Gives (λ x. x) result (spec.compute_root words.now) }
{
    match words {
        [] => Ok(Computed::Root),
        [..] => Err(ReadError::Fault(ScheduleFault::Syntax)),
    }
}

/// What is after `compute_at`.
#[tactic(auto, unfolding(crate::specs::Lines::compute_at))]
fn compute_at(alloc: Global, words: &[Items<u8>]) -> Result<Computed, ReadError<ScheduleFault>>
    ensures { Gives (λ x. x) result (spec.compute_at words.now) }
{
    match words {
        [func, inside] => {
            let func = name_of(alloc, func.as_slice())?;
            let inside = name_of(alloc, inside.as_slice())?;
            Ok(Computed::At(LoopNames { func, inside }))
        }
        _ => Err(ReadError::Fault(ScheduleFault::Syntax)),
    }
}

/// What the second word and those after it say.
#[tactic(auto, unfolding(crate::specs::Lines::directive))]
fn directive_of(
    alloc: Global,
    verb: &[u8],
    words: &[Items<u8>],
) -> Result<Directive, ReadError<ScheduleFault>>
    ensures { Gives (λ x. x) result (spec.directive verb.now words.now) }
{
    if verb == b"split".as_slice() {
        Ok(Directive::OfLoops(split_of(alloc, words)?))
    } else if verb == b"reorder".as_slice() {
        Ok(Directive::OfLoops(reorder_of(alloc, words)?))
    } else if verb == b"unroll".as_slice() {
        Ok(Directive::OfLoops(mark_of(alloc, Mark::Unrolled, words)?))
    } else if verb == b"vectorize".as_slice() {
        Ok(Directive::OfLoops(mark_of(alloc, Mark::Vectorized, words)?))
    } else if verb == b"parallel".as_slice() {
        Ok(Directive::OfLoops(mark_of(alloc, Mark::Parallel, words)?))
    } else if verb == b"compute_root".as_slice() {
        Ok(Directive::OfPlace(compute_root(words)?))
    } else if verb == b"compute_at".as_slice() {
        Ok(Directive::OfPlace(compute_at(alloc, words)?))
    } else {
        Err(ReadError::Fault(ScheduleFault::Syntax))
    }
}

/// A line of a subject and a directive; a Func is computed as a whole, so that a dot is then a fault.
fn joined(subject: Subject, directive: Directive) -> Result<ScheduleLine, ReadError<ScheduleFault>>
    ensures { Gives (λ x. x) result (spec.joined subject directive) }
{
    match (&directive, &subject.update) {
        (Directive::OfPlace(_), Some(_)) => Err(ReadError::Fault(ScheduleFault::Syntax)),
        _ => Ok(ScheduleLine::Directive(subject, directive)),
    }
}

/// What the words of a line say.
///
/// # Errors
///
/// `Syntax` where they are not of the grammar; memory ran out.
#[tactic(auto, unfolding(crate::specs::Lines::line_of))]
pub fn line_of(alloc: Global, words: &[Items<u8>]) -> Result<ScheduleLine, ReadError<ScheduleFault>>
    ensures { Gives (λ x. x) result (spec.line_of words.now) }
{
    match words {
        [] => Ok(ScheduleLine::Blank),
        [front, verb, others @ ..] => {
            let subject = subject_of(alloc, front.as_slice())?;
            let directive = directive_of(alloc, verb.as_slice(), others)?;
            Ok(joined(subject, directive)?)
        }
        _ => Err(ReadError::Fault(ScheduleFault::Syntax)),
    }
}
