//! Sources told apart.

ghost use Rattle.std.specs.Prelude.{◌≡◌};
ghost use Rattle.bounds.specs.Boxes as spec;

use halide_pipeline::Source;

/// Whether two sources are the same.
pub fn same_source(a: Source, b: Source) -> bool
    ensures { result ≡ spec.same_source a b }
{
    match (a, b) {
        (Source::Input(a), Source::Input(b)) | (Source::Func(a), Source::Func(b)) => a == b,
        _ => false,
    }
}
