//! Bookmarks and the working parents: the files `bookmarks` and `dirstate` of a repository.
#![tactic(auto)]

pub mod bookmarks;
pub mod dirstate;
pub mod fault;
pub mod grammar;
pub mod laws;
pub mod lines;
pub mod name;
pub mod print;
