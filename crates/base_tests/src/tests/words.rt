//! What words are a command.

use command_words::{Command, command_of};
use std::alloc::Global;
use std::test::Fail;

const RUN: Option<Command> = Some(Command::Run { trace: false });

const TRACED: Option<Command> = Some(Command::Run { trace: true });

const ZONES: Option<Command> = Some(Command::Zones { json: false });

const AS_JSON: Option<Command> = Some(Command::Zones { json: true });

/// Words, and the command that they are.
static TABLE: [(&[&str], Option<Command>); 33] = [
    (&["run"], RUN),
    (&["zones"], ZONES),
    (&["run", "--trace"], TRACED),
    (&["--trace", "run"], TRACED),
    (&["zones", "--json"], AS_JSON),
    (&["--json", "zones"], AS_JSON),
    (&["run", "--json"], None),
    (&["zones", "--trace"], None),
    (&["run", "--trace", "--json"], None),
    (&["run", "--trace", "--trace"], None),
    (&["--json", "zones", "--json"], None),
    (&["run", "--", "--trace"], None),
    (&["--", "run"], RUN),
    (&["--trace", "--", "run"], TRACED),
    (&["run", "--"], RUN),
    (&["run", "--", "--"], None),
    (&[], None),
    (&["--"], None),
    (&["-"], None),
    (&["run", "-"], None),
    (&["run", "zones"], None),
    (&["run", "run", "run", "run"], None),
    (&["--tra", "run"], None),
    (&["--trace=1", "run"], None),
    (&["-t", "run"], None),
    (&["-1", "run"], None),
    (&["--help"], None),
    (&["--version"], None),
    (&["help"], None),
    (&[""], None),
    (&["Run"], None),
    (&["run", "-h"], None),
    (&["run", "--="], None),
];

const FIRST: Option<Command> = Some(Command::Gen { seed: 1, size: 0 });

const GREATEST: Option<Command> = Some(Command::Gen {
    seed: u64::MAX,
    size: 20_000,
});

/// Words of which the first is `gen` or no command, and the command that they are.
static DRAWN: [(&[&str], Option<Command>); 24] = [
    (&["gen", "1", "0"], FIRST),
    (&["gen", "01", "00"], FIRST),
    (
        &["gen", "00000000000000000001", "00000000000000000000"],
        FIRST,
    ),
    (&["gen", "--", "1", "0"], FIRST),
    (&["--", "gen", "1", "0"], FIRST),
    (&["gen", "18446744073709551615", "20000"], GREATEST),
    (&["gen", "18446744073709551615", "020000"], GREATEST),
    (&["gen", "18446744073709551616", "0"], None),
    (&["gen", "99999999999999999999", "0"], None),
    (&["gen", "000000000000000000001", "0"], None),
    (&["gen", "1", "000000000000000000000"], None),
    (&["gen", "1", "20001"], None),
    (&["gen", "1", "18446744073709551616"], None),
    (&["gen", "1"], None),
    (&["gen"], None),
    (&["gen", "1", "0", "0"], None),
    (&["gen", "", "0"], None),
    (&["gen", "1", ""], None),
    (&["gen", "+1", "0"], None),
    (&["gen", "1", "-1"], None),
    (&["gen", "1", "0x1"], None),
    (&["gen", "1", "0", "--json"], None),
    (&["--trace", "gen", "1", "0"], None),
    (&["run", "1", "0"], None),
];

/// The command that these words are.
fn command_of_texts(alloc: Global, words: &[&str]) -> Result<Option<Command>, Fail> {
    let mut owned = Vec::new(alloc);
    for word in words {
        owned.push(String::from_str(alloc, word)?)?;
    }
    Ok(command_of(alloc, owned.as_slice())?)
}

#[test]
fn words_are_scenarios_to_generate(rt: HostRuntime) -> Result<(), Fail> {
    for (words, command) in DRAWN.as_slice() {
        let found = command_of_texts(rt.alloc(), words)?;
        assert!(rt; found == *command, "{words:?}");
    }
    Ok(())
}

#[test]
fn words_are_commands(rt: HostRuntime) -> Result<(), Fail> {
    for (words, command) in TABLE.as_slice() {
        let found = command_of_texts(rt.alloc(), words)?;
        assert!(rt; found == *command, "{words:?}");
    }
    Ok(())
}
