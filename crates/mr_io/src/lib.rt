//! Where bytes come from and where they go: sources and sinks that count their faults, in memory and over
//! the standard input and output.
#![tactic(auto)]

mod calls;
mod faults;
mod mem_sink;
mod mem_source;
mod sink;
mod source;
mod std_streams;

pub use faults::Failed;
pub use mem_sink::{CountSink, MemSink};
pub use mem_source::{MemSource, WholeSource};
pub use sink::{Sink, write_all};
pub use source::Source;
pub use std_streams::{StdSink, StdSource};
