//! A Func that is lowered, with what is known of it.

use bounds::SourceBox;
use halide_pipeline::Func;
use schedule::FuncPlan;

/// A Func that is computed.
#[derive(Clone, Copy)]
pub struct ComputedFunc<'a> {
    /// Its place in the pipeline, from 0.
    pub place: usize,
    pub func: &'a Func,
    pub plan: &'a FuncPlan,
    /// Its box.
    pub own: &'a SourceBox,
}
