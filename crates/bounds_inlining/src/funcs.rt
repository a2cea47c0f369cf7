//! Which Funcs are inlined.

ghost use Rattle.std.specs.Prelude.{◌≡◌};
ghost use Rattle.std.specs.Option.{option_copied};
ghost use Rattle.bounds_inlining.specs.Inlining.{flagged, func_in};

use halide_pipeline::Func;

/// Whether the flag at a place is set.
fn is_flagged(flags: &[bool], func_index: usize) -> bool
    ensures { result ≡ flagged flags.now func_index }
{
    match flags.get(func_index) {
        None => false,
        Some(own) => *own,
    }
}

/// The Func at a place, if it is one of the first this many and is inlined, as its flag says.
pub fn inlined_func<'a>(
    funcs: &'a [Func],
    flags: &[bool],
    count: usize,
    func_index: usize,
) -> Option<&'a Func>
    ensures { option_copied result ≡ func_in funcs.now (flagged flags.now) count func_index }
{
    if func_index < count && is_flagged(flags, func_index) {
        funcs.get(func_index)
    } else {
        None
    }
}
