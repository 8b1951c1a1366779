//! The descriptors of the standard streams.
#![tactic(auto)]

use std::fs::File;
use std::io;
use std::os::fd::{AsRawFd, IntoRawFd, RawFd};
use std::rt::Files;

/// The descriptors of the standard streams are those below this one.
const FIRST_OTHER: RawFd = 3;

/// Opens `/dev/null` in the place of each standard stream that is closed, so that no file and no
/// socket of the program ever has its descriptor. It is open for reading alone, until the program
/// ends: a read there finds the end, and a write fails, as one to a closed stream does.
pub fn fill_closed<R: Files<File = File>>(files: &R) -> io::Result<()> {
    for _ in 0..FIRST_OTHER {
        let null = File::open(files, "/dev/null")?;
        if null.as_raw_fd() >= FIRST_OTHER {
            return Ok(());
        }
        let _held = null.into_raw_fd();
    }
    Ok(())
}
