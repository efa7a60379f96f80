//! A repository that grows by the changesets of a generator.
#![tactic(auto)]

pub mod commits;
pub mod laws;
