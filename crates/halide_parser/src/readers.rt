//! What the lines so far have named.

ghost use Rattle.std.specs.Prelude.{◌≡◌};
ghost use Rattle.std.specs.Option.{option_copied};
ghost use Rattle.halide_parser.specs.Expressions as spec;

use halide_pipeline::{Func, Input, Names, Output, Source};
use sqlite_items::Items;
use std::alloc::Global;

/// What the lines so far have named.
#[derive(Drop)]
pub struct AlgorithmReader {
    pub alloc: Global,
    /// Whether the text is above its limit, which is a fault of its first line.
    pub is_oversized: bool,
    pub names: Names,
    pub inputs: Items<Input>,
    pub funcs: Items<Func>,
    pub output: Option<Output>,
    /// The Func whose lines stand last: only blank lines came after them.
    pub last_func: Option<usize>,
}

/// The number of dimensions of a source.
fn dimensions(reader: &AlgorithmReader, source: Source) -> usize
    ensures { result ≡ spec.dimensions reader.now source }
{
    match source {
        Source::Input(place) => match reader.inputs.get(place) {
            Some(input) => input.dimensions,
            None => 1,
        },
        Source::Func(place) => match reader.funcs.get(place) {
            Some(func) => func.dimensions(),
            None => 1,
        },
    }
}

/// The source with a name, and its number of dimensions.
#[tactic(auto, unfolding(crate::specs::Expressions::source))]
pub fn source(reader: &AlgorithmReader, name: &[u8]) -> Option<(Source, usize)>
    ensures { result ≡ spec.source reader.now name.now }
{
    match reader.names.get(name) {
        None => None,
        Some(source) => Some((source, dimensions(reader, source))),
    }
}

/// The place of the Func with a name.
#[tactic(auto, unfolding(crate::specs::Expressions::func_place))]
pub fn func_place(reader: &AlgorithmReader, name: &[u8]) -> Option<usize>
    ensures { result ≡ spec.func_place reader.now name.now }
{
    match reader.names.get(name) {
        Some(Source::Func(place)) => Some(place),
        _ => None,
    }
}

/// The Func with a name.
#[tactic(auto, unfolding(crate::specs::Expressions::func))]
pub fn func<'a>(reader: &'a AlgorithmReader, name: &[u8]) -> Option<&'a Func>
    ensures { option_copied result ≡ spec.func reader.now name.now }
{
    match func_place(reader, name) {
        None => None,
        Some(place) => reader.funcs.get(place),
    }
}
