//! What reads the words: `clap`, with two flags and names in any number.

ghost use Rattle.std.specs.Prelude.{◌≡◌, false, map, IfOk};
ghost use Rattle.std.specs.Char.{is_ascii_digit};
ghost use Rattle.std.specs.List.{list_all};
ghost use Rattle.clap.specs.Words.{app_of, found_of, rows_of, rule_of};
ghost use Rattle.command_words.specs.Reader.{HoldSorted, flag_rule, reader_app};
ghost use Rattle.command_words.specs.Words.{Sorted, command_drawn, command_from, command_named, command_with, gen_of, is_number, number_up_to};

use crate::words::Command;
use clap::{Arg, ArgAction, ArgMatches};
use std::alloc::{AllocError, Global};

/// The most digits of a number.
const MOST_DIGITS: usize = 20;

/// The most transactions of a generated scenario.
const MOST_TRANSACTIONS: u32 = 20_000;

/// A flag of this name, which may be given once.
fn flag<'a>(alloc: Global, name: &'a str) -> Arg<'a>
    ensures rule { rule_of result ≡ flag_rule name.entry.now }
    ensures local { result.global ≡ false }
{
    Arg::new(alloc, name).long(name).action(ArgAction::SetTrue)
}

/// The reader of the words, which begin behind the program's name. Errors: want of memory.
pub fn reader<'a>(alloc: Global) -> Result<clap::Command<'a>, AllocError>
    ensures { IfOk result (λ reader. app_of reader ≡ reader_app) }
{
    // each name is a use of its own, so that the reader sets no bound on how many there are
    let names = Arg::new(alloc, "names").action(ArgAction::Append);
    // with no help and no version, their flags are refused as any other
    clap::Command::new(alloc, "mr")
        .no_binary_name(true)
        .disable_help_flag(true)
        .disable_version_flag(true)
        .arg(flag(alloc, "trace"))?
        .arg(flag(alloc, "json"))?
        .arg(names)
}

/// The command of this name with these flags, if it is one.
fn command_named(name: &str, trace: bool, json: bool) -> Option<Command>
    ensures { result ≡ command_named name.now trace json }
{
    match name {
        "run" if !json => Some(Command::Run { trace }),
        "zones" if !trace => Some(Command::Zones { json }),
        _ => None,
    }
}

/// Whether all bytes are digits.
fn are_digits(word: &[u8]) -> bool
    ensures { result ≡ list_all is_ascii_digit word.now }
{
    word.iter().all(|b| b.is_ascii_digit())
}

/// Whether a word is 1 to 20 decimal digits.
fn is_number(word: &str) -> bool
    ensures { result ≡ is_number word.now }
{
    if word.is_empty() || word.len() > MOST_DIGITS {
        return false;
    }
    are_digits(word.as_bytes())
}

/// The number that a word is, if it is one of at most `most`. Leading zeros change nothing.
fn number_up_to(word: &str, most: u64) -> Option<u64>
    ensures { result ≡ number_up_to most word.now }
{
    if !is_number(word) {
        return None;
    }
    let number = word.parse::<u64>().ok()?;
    if number <= most { Some(number) } else { None }
}

/// The command `gen` with this seed and this size, if they are numbers within their bounds.
fn gen_of(seed: &str, size: &str) -> Option<Command>
    ensures { result ≡ gen_of seed.now size.now }
{
    let seed = number_up_to(seed, u64::MAX)?;
    let size = number_up_to(size, u64::from(MOST_TRANSACTIONS))?;
    Some(Command::Gen {
        seed,
        size: size as u32,
    })
}

/// The command of this name with two numbers and these flags, if it is one.
fn command_drawn(name: &str, seed: &str, size: &str, trace: bool, json: bool) -> Option<Command>
    ensures { result ≡ command_drawn name.now seed.now size.now trace json }
{
    match name {
        "gen" if !trace && !json => gen_of(seed, size),
        _ => None,
    }
}

/// The command of these names with these flags, if they are one.
fn command_with(names: &[&str], trace: bool, json: bool) -> Option<Command>
    ensures { result ≡ command_with (map (λ name. name.now) names.now) trace json }
{
    match names {
        [name] => command_named(name, trace, json),
        [name, seed, size] => command_drawn(name, seed, size, trace, json),
        _ => None,
    }
}

/// The command of the flags and names that were read, if they are one.
pub fn command_in(matches: &ArgMatches<'_>) -> Option<Command>
    ensures { (s : Sorted) → HoldSorted (rows_of (found_of matches.now)) s → result ≡ command_from s }
{
    let trace = matches.get_flag("trace");
    let json = matches.get_flag("json");
    let names = matches.get_strs("names")?;
    command_with(names, trace, json)
}
