//! What follows from the laws of lawful runs for reads: what a read was served is held.
#![tactic(auto)]

mod laws;

pub use laws::{
    fed_reads_agree, held_reads_agree, kept_reads_are_held, kept_rows_stay, lawful_keeps_reads,
    refreshed_rows_stay, served_is_held,
};
