//! How the iterations of loops are done.

ghost use Rattle.std.specs.Prelude.{◌≡◌, false, true};
ghost use Rattle.loop_ir.specs.declared.statements.LoopKind.TheVariants.{Vectorized as vectorized};
ghost use Rattle.loop_ir.specs.LoopLanes.{is_vectorized};

use loop_ir::statements::LoopKind;

/// Whether each iteration has code of its own.
pub(crate) fn is_laid_out(kind: LoopKind, count: u32) -> bool
    ensures { result ≡ true → is_vectorized kind ≡ false }
{
    match kind {
        LoopKind::Serial => count == 1,
        LoopKind::Unrolled => true,
        LoopKind::Vectorized => false,
    }
}

/// How the iterations of a loop are done.
#[derive(Clone, Copy, Debug)]
pub(crate) enum LoopMethod {
    AtOnce,
    /// One alone.
    Once,
    /// Each with code of its own.
    LaidOut,
    /// One after the other.
    InOrder,
}

/// How the iterations of this many of a loop of this kind are done.
pub(crate) fn method_of(kind: LoopKind, count: u32) -> LoopMethod
    ensures at_once { result ≡ LoopMethod.AtOnce → kind ≡ vectorized }
    ensures once { result ≡ LoopMethod.Once → is_vectorized kind ≡ false }
    ensures laid_out { result ≡ LoopMethod.LaidOut → is_vectorized kind ≡ false }
    ensures in_order { result ≡ LoopMethod.InOrder → is_vectorized kind ≡ false }
{
    match kind {
        LoopKind::Vectorized => LoopMethod::AtOnce,
        LoopKind::Unrolled => LoopMethod::LaidOut,
        LoopKind::Serial => {
            if count == 1 {
                LoopMethod::Once
            } else {
                LoopMethod::InOrder
            }
        }
    }
}
