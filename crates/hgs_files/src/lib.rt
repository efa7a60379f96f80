//! Paths, operations on files, and the traits of what lies outside: files, the place of a repository, and streams.
#![tactic(auto)]

pub mod ends;
pub mod files;
pub mod laws;
pub mod op;
pub mod path;
pub mod protocol;
pub mod streams;
pub mod yard;
