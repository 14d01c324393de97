//! What a lawful run of a cluster of several nodes is, as definitions on its history, and what follows from them.
#![tactic(auto)]

mod laws;

pub use laws::{
    applied_is_within, attempt_stays, beginning_stays, commit_is_above_puts, commit_is_record,
    commit_stays, each_is_permitted, older_is_lawful, put_was_permitted, served_was_permitted,
    what_stood_holds,
};
