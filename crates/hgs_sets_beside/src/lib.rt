//! Which changesets a set holds of what a reader sees beside writers.
#![tactic(auto)]

pub mod laws;
