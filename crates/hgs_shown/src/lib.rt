//! What a reader is shown of files that stand for a repository.
#![tactic(auto)]

pub mod answers;
pub mod examples;
pub mod laws;
