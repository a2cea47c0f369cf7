//! What holds on every list of turns of harts that share the tasks of phases.
//!
//! A program has phases, one after the other (`specs/Programs.antt`). In each the harts draw the numbers
//! of tasks from a ticket word by `amoadd.w`, do them, and before the next phase wait for one another at a gate word
//! (`specs/Phases.antt` has this code and the registers that it uses). A task's code is known by its run
//! alone (`specs/Solo.antt`) over bytes of which each is for one purpose (`multi_hart_laws`'s `specs/Uses.antt`);
//! nothing of other harts enters there. What then holds on every list of turns is stated in `specs/Promises.antt`, and
//! that every fair list ends in `specs/Fairness.antt`.
//!
//! - [`laws`]: no hart traps, no race, one result, the end stays within reach and comes on every fair list, waiting at
//!   gates alone, every assignment of tasks to harts, each turn by its phase's rule.
//! - [`example`]: a program of two phases that meets every premise, and one that waits at a gate for ever.
//! - [`refutations`]: programs that break the promises: a race, an end that isn't within reach, a hart that waits
//!   elsewhere, a task that can't be given to another hart, two tasks that can't be given to two.
#![tactic(auto)]

mod example;
mod laws;
mod refutations;

pub use crate::example::{example_machine, example_words, two_phases, waits_for_ever};
pub use crate::laws::{
    alone_stops, can_finish, done_among_others, every_assignment, fair_ends, gate_once,
    never_races, never_traps, one_result, paths_do_jobs, rules_kept, what_is_done_stays,
};
pub use crate::refutations::{
    first_does_all, hasty_harts_race, jumps_never_end, locked_harts_stay, others_do_nothing,
};
