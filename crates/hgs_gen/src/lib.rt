//! The changesets of the store that a number gives.
#![tactic(auto)]

pub mod generator;
pub mod laws;
