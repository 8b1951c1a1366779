use scm_model::Step;

/// What a line says.
#[derive(Drop)]
pub struct Line {
    /// In milliseconds.
    pub moment: u64,
    /// Of a call it isn't told what becomes of its change.
    pub step: Step,
    /// Whether a change that the step makes can't be appended.
    pub fails: bool,
}
