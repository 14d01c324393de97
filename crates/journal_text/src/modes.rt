//! What a report shows.

/// What of a journal is shown.
#[derive(Clone, Copy)]
pub enum Mode {
    /// Answers and the lines that a scenario asks for.
    Answers,
    /// Every entry.
    Trace,
    /// The counts at the end alone.
    Summary,
}
