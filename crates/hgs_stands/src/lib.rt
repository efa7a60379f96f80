//! Which plain repository a tree of files stands for, and that it is one at most.
#![tactic(auto)]

pub mod bookmarks;
pub mod examples;
pub mod laws;
