//! A tree of files for each repository that can be stored, so that no law of stored repositories speaks of nothing.
#![tactic(auto)]

pub mod examples;
pub mod laws;
