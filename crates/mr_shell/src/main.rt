//! Simulates a multi-region cluster from a scenario text and writes a report.
#![tactic(auto)]

mod outcome;
mod pieces;
mod report;
mod runner;
mod session;
mod tasks;
mod top;
mod zones_session;

use mr_io::{StdSink, StdSource};
use outcome::MEMORY;
use std::env;
use std::process::ExitCode;
use top::top;

/// The program's words, without its name; none where they can't be had for want of memory.
fn words_of(rt: &HostRuntime) -> Option<Vec<String>> {
    let mut words = Vec::new(rt.alloc());
    for word in env::args(rt).ok()?.skip(1) {
        words.push(word).ok()?;
    }
    Some(words)
}

fn main(rt: HostRuntime) -> ExitCode {
    let mut source = StdSource::new(rt.stdin());
    let mut sink = StdSink::new(rt.stdout());
    let Some(words) = words_of(&rt) else {
        return ExitCode::from(MEMORY);
    };
    let outcome = top(rt.alloc(), words.as_slice(), &mut source, &mut sink);
    ExitCode::from(outcome.status)
}

#[cfg(test)]
mod gen_tests;
#[cfg(test)]
mod tests;
#[cfg(test)]
mod zone_tests;
