//! The command that words are.

ghost use Rattle.std.specs.Prelude.{◌≡◌, IfOk};
ghost use Rattle.command_words.specs.Words.{command_of};

use crate::reading::{command_in, reader};
use clap::error::ErrorKind;
use mr_base::Memory;
use std::alloc::Global;

/// What the program is asked to do.
#[derive(Clone, Copy, PartialEq, Eq)]
pub enum Command {
    /// Run a scenario; with `trace` the report shows every entry.
    Run { trace: bool },
    /// Read a scenario's nodes and statements and write its ranges; with `json` as JSON.
    Zones { json: bool },
    /// Write the scenario that is generated from a seed, with so many transactions, at most 20,000.
    Gen { seed: u64, size: u32 },
}

/// The command that the words are, if they are one. Errors: want of memory.
pub fn command_of(alloc: Global, words: &[String]) -> Result<Option<Command>, Memory>
    ensures { IfOk result (λ command. command ≡ command_of words.now) }
{
    match reader(alloc)?.try_get_matches_from(words) {
        Ok(matches) => Ok(command_in(&matches)),
        Err(error) if error.kind() == ErrorKind::OutOfMemory => Err(Memory),
        Err(_) => Ok(None),
    }
}
