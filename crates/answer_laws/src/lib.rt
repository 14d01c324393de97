//! The laws of lists of statements: what a list comes to over any part of what is known is what executing it
//! gives, and stays when more is known; which spans it needs, that each answer brings its end nearer, and that
//! executing keeps databases valid.
#![tactic(auto)]

mod laws;

pub use laws::{
    answers_bring_nearer, evaluation_is_executed, exec_keeps_valid, fed_is_known,
    known_is_not_needed, near_comes_first, needs_are_counted, needs_are_of_the_tables,
    stays_faulty, stays_given, writes_are_of_the_tables,
};
