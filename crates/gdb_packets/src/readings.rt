//! What bytes from gdb say.

/// One thing that bytes say.
#[derive(Debug, Drop)]
pub enum Reading {
    /// A packet has come, with this payload.
    Packet(Vec<u8>),
    /// The check sum of a frame isn't its body's, or its body ends within an escape.
    Bad,
    /// The body of a frame is longer than was announced.
    TooLong,
    /// Byte 3: gdb wants the run to stop.
    Interrupt,
    /// `-`: gdb wants the last answer again.
    Again,
}
