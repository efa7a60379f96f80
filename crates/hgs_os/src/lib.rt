//! What lies outside, over the operating system: the files of one folder, standard input and output, and the place of a repository.
//!
//! This crate is the edge to the system, and is trusted: std's clauses do not say what files and streams hold. What the
//! program does with them is proved in the crates between.
#![tactic(auto)]

pub mod files;
pub mod folder;
pub mod streams;
pub mod watch;
pub mod yard;
