//! What a reader is shown while writers are at work.
#![tactic(auto)]

pub mod examples;
pub mod laws;
