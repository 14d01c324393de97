//! The zone configuration of each range: how many replicas and voters it has, where they stand, and
//! where its lease prefers to be.
#![tactic(auto)]

mod compiled;
mod config;
mod forming;
mod json_form;
mod laws;
mod text_form;

pub use compiled::compile;
pub use config::ZoneConfig;
pub use forming::is_form;
pub use json_form::json;
pub use laws::forms_are_of_tables;
pub use text_form::text;
