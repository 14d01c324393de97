//! What a ledger keeps beside the journal.

/// A line of the scenario, or a tick of the clocks inside a `settle` line, with the number of entries between it
/// and the mark before it.
#[derive(Clone, Copy)]
pub(crate) enum Mark {
    Line { number: u32, before: usize },
    Tick { ms: u64, before: usize },
}
