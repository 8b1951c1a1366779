/// Why a step that may come isn't made, and isn't owed.
#[derive(Clone, Copy, Drop, PartialEq, Eq)]
pub enum MakeFault {
    /// The limits have no room for it.
    Full,
    /// There is no memory for it.
    OutOfMemory,
}

/// Why a step isn't made that isn't owed.
#[derive(Clone, Copy, Drop)]
pub enum StepFault {
    /// It may not come in the state of that look.
    NotNow,
    /// It may come, and isn't made.
    Unmade(MakeFault),
}
