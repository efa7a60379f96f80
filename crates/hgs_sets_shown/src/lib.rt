//! Which changesets a set holds of a repository that a reader is shown.
#![tactic(auto)]

pub mod laws;
