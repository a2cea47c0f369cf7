//! Packets of gdb's remote serial protocol, as a server reads and writes them.
//!
//! - [`packet_reading`]: what bytes say, in whatever pieces they come ([`PacketReader`]), as [`readings`].
//! - [`packet_writing`]: the frame of an answer ([`push_frame`]).
//! - [`request_reading`]: what a packet's payload asks for ([`read_request`]), as [`requests`].
//! - [`laws`]: that frames are read as what they say, and written ones as their payload, by the server and by gdb.
//!
//! `specs/Packets.antt` defines frames and readings, `specs/Requests.antt` what payloads ask for.
#![tactic(auto)]

pub mod laws;
pub mod packet_reading;
pub mod packet_writing;
pub mod readings;
mod request_actions;
mod request_parts;
pub mod request_reading;
pub mod requests;

pub use crate::packet_reading::PacketReader;
pub use crate::packet_writing::push_frame;
pub use crate::readings::Reading;
pub use crate::request_reading::{monitor_digits, read_request};
pub use crate::requests::{Action, MarkKind, Request, Thread};
