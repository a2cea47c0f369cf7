//! Standard streams that were closed when the program was started.

use hrv_engines::Fault;
use std::alloc::Global;
use std::fs::{File, OpenOptions};
use std::io;
use std::os::fd::AsRawFd;

/// The null device.
const NULL: &str = "/dev/null";

/// A folder that there always is.
const ROOT: &str = "/";

/// The number of standard input, the first of three.
const INPUT: i32 = 0;

/// The number of standard error, the last of three.
const ERROR: i32 = 2;

/// Opens the null device in the place of each standard stream that is closed, since the next file that is opened would
/// take its number, and its bytes. Standard input is open to be written there and the others to be read, so that what
/// the program does with them fails, as it would where they are closed. They stay as long as what this gives. Where
/// none is closed the null device isn't opened.
///
/// # Errors
///
/// The null device is wanted and can't be opened; memory ran out.
pub fn open_closed_streams(rt: &HostRuntime, alloc: Global) -> Result<Vec<File>, Fault> {
    let path = String::from_str(alloc, NULL)?;
    match null_streams(rt, alloc) {
        Ok(streams) => Ok(streams),
        Err(error) if error.kind() == io::ErrorKind::OutOfMemory => Err(Fault::Memory),
        Err(_) => Err(Fault::File(path)),
    }
}

/// The null device in the place of each stream that is closed. The system gives a file the least number that is free.
fn null_streams(rt: &HostRuntime, alloc: Global) -> io::Result<Vec<File>> {
    if File::open(rt, ROOT)?.as_raw_fd() > ERROR {
        return Ok(Vec::new(alloc));
    }
    let mut streams = Vec::with_capacity(alloc, 3)?;
    for _ in INPUT..=ERROR {
        let mut stream = File::open(rt, NULL)?;
        if stream.as_raw_fd() > ERROR {
            break;
        }
        if stream.as_raw_fd() == INPUT {
            drop(stream);
            stream = OpenOptions::new().write(true).open(rt, NULL)?;
        }
        streams.push(stream)?;
    }
    Ok(streams)
}
