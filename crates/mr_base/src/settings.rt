//! The settings of a cluster, and when a transaction reads.

/// The settings of a cluster, each in milliseconds. Source: this project's profile; the names are those
/// of CockroachDB's settings for the same things where it has them.
#[derive(Clone, Copy)]
pub struct Settings {
    /// How far two clocks may differ.
    pub max_offset: u64,
    /// How long a lease lasts from the reading at which it is taken.
    pub lease: u64,
    /// How far behind its holder's clock an ordinary range closes timestamps.
    pub lag: u64,
    /// How far ahead of its holder's clock a global range closes timestamps and lays writes.
    pub lead: u64,
    /// After how long a transaction that another meets counts as expired.
    pub expire: u64,
}

/// The time at which a transaction reads.
#[derive(Clone, Copy)]
pub enum Kind {
    /// At its start.
    Now,
    /// This many milliseconds before its start.
    Ago(u64),
    /// As late as the gateway's own replicas allow at once, at most `ms` milliseconds before its start;
    /// with `any`, where they allow none, `ms` milliseconds before its start.
    Within { ms: u64, any: bool },
}
