//! What stands in for standard streams that are closed.

use std::fs::{File, OpenOptions};
use std::os::fd::{AsRawFd, RawFd};

/// Opens /dev/null under the number of each standard stream that is closed, so that no socket takes that number and
/// gets what is written to the stream. Reads from such an input and writes to such an output still fail.
pub(crate) fn stand_ins(rt: &HostRuntime) -> [Option<File>; 3] {
    [stand_in(rt, 0), stand_in(rt, 1), stand_in(rt, 2)]
}

/// Opens /dev/null under this number, if that is the lowest that is free.
fn stand_in(rt: &HostRuntime, number: RawFd) -> Option<File> {
    let is_input = number == 0;
    let file = OpenOptions::new()
        .read(!is_input)
        .write(is_input)
        .open(rt, "/dev/null")
        .ok()?;
    Some(file).filter(|file| file.as_raw_fd() == number)
}
