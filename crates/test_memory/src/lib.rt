//! The calls that take no memory, and calls that want it, each with its answer.
//!
//! `bench/checks/fail_each_allocation` runs both tests with each allocation refused, alone and together with all later
//! ones, until a run meets none (`rt try --test --fail-alloc N` does one of these).
//! No run may stop at an assertion.
//!
//! The types of the calls that take no memory can't tell of want of it. That they don't meet it either is seen where a
//! run ends as values are made, by the error of the test, and no call answers otherwise.
//!
//! - [`words`]: instructions and words, memories.
//! - [`registers`]: lanes, and the vector unit.
//! - [`machines`]: harts, machines, images, logs, sessions.
//! - [`shared_machines`]: boards and shared machines, and the test.
//!
//! The calls that want memory are those of the machine's crates and of lines of words. Where one is refused it, what
//! it was lent has to be what its contract says, and the same call is made again: it answers rightly then, unless
//! memory is refused again, with which the test ends.
//!
//! - [`wanting_machines`]: machines, copies of what turns change, images, where turns store.
//! - [`wanting_logs`]: logs and sessions.
//! - [`wanting_texts`]: lines of words.
//! - [`wanting_shared_machines`]: boards and shared machines; [`wanting_threads`]: their turns in threads.
//! - [`wanting`]: the test.
//!
//! [`comparing`] has what compares values.
#![tactic(auto)]

#[cfg(test)]
mod comparing;
#[cfg(test)]
mod machines;
#[cfg(test)]
mod registers;
#[cfg(test)]
mod shared_machines;
#[cfg(test)]
mod wanting;
#[cfg(test)]
mod wanting_logs;
#[cfg(test)]
mod wanting_machines;
#[cfg(test)]
mod wanting_shared_machines;
#[cfg(test)]
mod wanting_texts;
#[cfg(test)]
mod wanting_threads;
#[cfg(test)]
mod words;
