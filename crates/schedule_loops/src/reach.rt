//! How far loops take a variable.

ghost use Rattle.std.specs.Prelude.{◌≡◌, ◌≤◌, ◌*◌, ◌^◌, length};
ghost use Rattle.schedule_loops.specs.Reach as spec;

use crate::sizes::LoopSizes;
use halide_pipeline::Variable;
use schedule_lines::Loop;

impl LoopSizes {
    /// The most that a loop of the stage can add to a variable.
    pub fn most_added(&self, stage_loop: &Loop, variable: Variable) -> u64
        ensures is { result ≡ spec.most_added self.now.extents self.now.splits variable stage_loop.now }
        ensures few { result ≤ 2 ^ 56 }
    {
        if stage_loop.variable != variable {
            return 0;
        }
        let size = self.size(stage_loop.id);
        u64::from(size.stride) * u64::from(size.count.saturating_sub(1))
    }

    /// The most that loops of the stage can add to a variable.
    pub fn reach(&self, loops: &[Loop], variable: Variable) -> u64
        requires { length loops.now ≤ 5 }
        ensures { result ≡ spec.reach self.now.extents self.now.splits variable loops.now }
    {
        let mut reach = 0;
        let mut rest = loops;
        'loops: while let [own, others @ ..] = rest {
            reach += self.most_added(own, variable);
            rest = others;
        }
        reach
    }

    /// Whether one of the loops is over the variable and uneven.
    pub fn has_uneven(&self, loops: &[Loop], variable: Variable) -> bool
        ensures { result ≡ spec.has_uneven self.now.splits variable loops.now }
    {
        loops.iter().any(|own| own.variable == variable && self.size(own.id).is_uneven)
    }
}
