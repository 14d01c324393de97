//! What follows from the laws of lawful runs for clocks: a transaction of the present misses nothing of what was
//! acknowledged before it began.
#![tactic(auto)]

mod laws;

pub use laws::{
    acknowledged_stays_below_peak, answered_ask_nothing, clocks_stay_below_peak, lawful_is_visible,
};
