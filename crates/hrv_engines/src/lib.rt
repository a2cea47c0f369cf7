//! The commands, each as an engine that works over devices and knows no command line.
//!
//! - [`asm`]: an assembly text becomes an image; [`asm_bytes`], over `specs/Asm.antt`.
//! - [`dis`]: the words of an image become lines; [`dis_bytes`], and [`dis_addresses_bytes`] with their addresses, over
//!   `specs/Dis.antt`.
//! - [`renew`]: an image is stored in the second format; [`renew_bytes`], over `specs/Renew.antt`.
//! - [`replay`]: an image and a log of turns become a dump; [`replay_bytes`], over `specs/Replay.antt` and `Dump.antt`.
//! - [`profile`]: an image and a log of turns become a text of where the turns go; [`profile_bytes`], over
//!   `specs/Profile.antt`.
//! - [`races`]: an image, a log of turns and words of data become the text of where two harts race first outside the
//!   words; [`races_bytes`], over `specs/Races.antt`.
//! - [`trace`]: an image and a log of turns become lines of what each turn did; [`trace_bytes`], over `specs/Trace.antt`.
//! - [`run`]: an image becomes a log of turns that threads made, and a dump; [`run_bytes`], and [`resume_bytes`] where
//!   a log goes on, over `specs/Run.antt`; both by [`Resources`].
//! - [`drawn`]: the same by one thread and a seed; [`run_drawn_bytes`], over `specs/Drawn.antt`, by [`DrawRules`].
//! - [`debug`]: an image, a log of turns and lines of commands become a talk; [`debug_bytes`], over `specs/Debug.antt`
//!   and `Talk.antt`.
//! - [`blame`]: an image, a log of turns and a question become the answer who wrote data; [`blame_bytes`], over
//!   `specs/Blame.antt`, by what [`questions`] ask, over `specs/BlameQuestions.antt`.
//! - [`logs`]: a log of turns becomes a text, and such a text a log; [`print_log_bytes`] and [`make_log_bytes`], over
//!   `specs/Logs.antt`.
//! - [`digests`]: files become lines of their digests; [`digest_bytes`], over `specs/Digests.antt`.
//! - [`recorded`]: the same as [`run`] and [`drawn`], with a record of the run, over `specs/Recorded.antt`, by
//!   [`records`] and [`endings`], over `specs/Records.antt`.
//! - [`verify`]: a record, an image and a log of turns become a verdict; [`verify_bytes`], over `specs/Verify.antt`.
//! - [`drawing`]: an algorithm and input pictures become the reference picture; [`picture_bytes`], over
//!   `specs/Drawing.antt`.
//! - [`compiling`]: an algorithm, a schedule and input pictures become an image; [`compile_bytes`], over
//!   `specs/Compile.antt`.
//! - [`mapping`]: an algorithm and a schedule become the text of where their images' data and code lie; [`map_bytes`],
//!   over `specs/Map.antt`.
//! - [`explain`]: a refusal is explained; [`explain_bytes`], and the version is told; [`version_bytes`].
//! - [`devices`]: what is read from and written to ([`Source`], [`Sink`]).
//! - [`faults`]: why an engine gives no answer ([`Fault`]).
//! - [`laws`]: that what is printed of a compiled image that has finished is what is drawn of its texts; that a front
//!   of more bytes than an image, an algorithm or a picture has decides that it is refused.
//!
//! The other modules are theirs alone: how texts are read and their lines counted, what a line of a talk commands, what
//! is kept of one that has not ended and what is answered to it, and the text of a dump and of its picture.
#![tactic(auto)]

mod asm;
mod blame;
mod blame_texts;
mod commands;
mod compiling;
mod cuts;
mod debug;
pub mod devices;
mod digests;
mod dis;
mod drawing;
mod drawn;
mod dumps;
mod endings;
pub mod explain;
pub mod faults;
mod keeping;
pub mod laws;
mod line_counts;
mod logs;
mod mapping;
mod pictures;
mod profile;
mod questions;
mod races;
mod recorded;
mod records;
mod renew;
mod replay;
mod run;
mod talks;
mod texts;
mod trace;
mod verify;

pub use crate::asm::asm_bytes;
pub use crate::blame::blame_bytes;
pub use crate::compiling::compile_bytes;
pub use crate::debug::debug_bytes;
pub use crate::devices::{Sink, Source};
pub use crate::digests::digest_bytes;
pub use crate::dis::{dis_addresses_bytes, dis_bytes};
pub use crate::drawing::picture_bytes;
pub use crate::drawn::run_drawn_bytes;
pub use crate::explain::{explain_bytes, version_bytes};
pub use crate::faults::{Fault, Refusal};
pub use crate::logs::{make_log_bytes, print_log_bytes};
pub use crate::mapping::map_bytes;
pub use crate::profile::profile_bytes;
pub use crate::questions::{BlameFault, Question};
pub use crate::races::races_bytes;
pub use crate::recorded::{resume_recorded_bytes, run_drawn_recorded_bytes, run_recorded_bytes};
pub use crate::renew::renew_bytes;
pub use crate::replay::replay_bytes;
pub use crate::run::{Resources, resume_bytes, run_bytes};
pub use crate::trace::{TraceQuestion, trace_bytes};
pub use crate::verify::{Verdict, verify_bytes};
pub use drawn_runs::DrawRules;
