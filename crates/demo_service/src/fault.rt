ghost use Rattle.std.specs.Prelude.{◌≡◌};
ghost use Rattle.demo_service.specs.Doing.{exit_status};

/// Why the program didn't do all of its words.
#[derive(Clone, Copy, Debug, PartialEq, Eq)]
pub enum DemoFault {
    /// The input can't be read.
    Read,
    /// The output can't be written to.
    Write,
    /// One of the words is none that the program knows.
    Words,
    OutOfMemory,
    /// As much was read as may be for one word.
    Worn,
}

/// The status of the program.
pub fn status_of(done: Result<(), DemoFault>) -> u8
    ensures { result ≡ exit_status done }
{
    match done {
        Ok(()) => 0,
        Err(DemoFault::Read) => 1,
        Err(DemoFault::Write) => 2,
        Err(DemoFault::Words) => 5,
        Err(DemoFault::OutOfMemory) => 8,
        Err(DemoFault::Worn) => 12,
    }
}
