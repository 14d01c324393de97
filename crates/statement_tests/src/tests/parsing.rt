//! Where texts are refused.

mod lists;
mod sizes;
mod statements;

use region_sql::{ParseFault, parse_list, parse_statement};
use std::alloc::Global;

/// Where a text was refused, or one of these.
const OK: usize = 1_000;

const MANY: usize = 1_001;

const MEMORY: usize = 1_002;

fn place_of_fault(fault: ParseFault) -> usize {
    match fault {
        ParseFault::Syntax { at } => at,
        ParseFault::TooMany => MANY,
        ParseFault::Memory => MEMORY,
    }
}

fn place_in_list(alloc: Global, text: &[u8]) -> usize {
    match parse_list(alloc, text) {
        Ok(_) => OK,
        Err(fault) => place_of_fault(fault),
    }
}

fn place_in_statement(alloc: Global, text: &[u8]) -> usize {
    match parse_statement(alloc, text) {
        Ok(_) => OK,
        Err(fault) => place_of_fault(fault),
    }
}
