//! Which loop has lanes, and what is around its code.

use loop_ir::expressions::Counter;
use task_code_lanes::groups::LaneGroup;
use task_code_registers::scopes::Held;
use task_code_scalar::layouts::Places;

/// A vectorized loop's variable, and the groups of vector registers that have a lane for each of its iterations.
#[derive(Clone, Copy, Debug)]
pub struct VectorLanes {
    pub counter: Counter,
    pub group: LaneGroup,
}

/// What is around code over lanes: where all buffers lie, which registers hold which forms in the first iteration,
/// and which loop has the lanes.
#[derive(Clone, Copy)]
pub struct LaneSite<'a> {
    pub places: &'a Places,
    pub scope: &'a [Held],
    pub lanes: VectorLanes,
}
