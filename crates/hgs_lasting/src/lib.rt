//! What is acknowledged lasts, whatever processes come to a repository one after another.
#![tactic(auto)]

pub mod laws;
