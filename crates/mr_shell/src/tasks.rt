//! What the program is asked to do.

ghost use Rattle.std.specs.Prelude.{◌≡◌, IfOk};
ghost use Rattle.mr_shell.specs.Tasks.{task_for, task_of};

use command_words::{Command, command_of};
use mr_base::Memory;
use scenario::Mode;
use std::alloc::Global;
use zone_report::Format;

/// What the program is asked to do.
#[derive(Clone, Copy)]
pub enum Task {
    /// Read a scenario, run it and write a report of this mode.
    Run(Mode),
    /// Read the nodes and statements of a scenario and write its ranges so.
    Zones(Format),
    /// Write the scenario that is generated from a seed, with so many transactions.
    Gen { seed: u64, size: u32 },
}

fn task_for(command: Command) -> Task
    ensures { result ≡ task_for command }
{
    match command {
        Command::Run { trace: true } => Task::Run(Mode::Trace),
        Command::Run { trace: false } => Task::Run(Mode::Answers),
        Command::Zones { json: true } => Task::Zones(Format::Json),
        Command::Zones { json: false } => Task::Zones(Format::Text),
        Command::Gen { seed, size } => Task::Gen { seed, size },
    }
}

/// What the words ask for, if they are a command.
pub fn task_of(alloc: Global, words: &[String]) -> Result<Option<Task>, Memory>
    ensures { IfOk result (λ task. task ≡ task_of words.now) }
{
    match command_of(alloc, words)? {
        None => Ok(None),
        Some(command) => Ok(Some(task_for(command))),
    }
}
