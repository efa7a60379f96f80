//! What a writer reads of a repository while it holds the locks, so that nobody else writes.
#![tactic(auto)]

pub mod grown;
pub mod laws;
pub mod logs;
pub mod parent;
pub mod small;
pub mod store;
pub mod texts;
pub mod whole;
