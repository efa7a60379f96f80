//! What readers see of the logs that writers make.
#![tactic(auto)]

pub mod examples;
pub mod laws;
