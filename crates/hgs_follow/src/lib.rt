//! The history of a file through copies and merges.
#![tactic(auto)]

pub mod examples;
pub mod filelogs;
pub mod laws;
pub mod line;
pub mod search;
pub mod source;
pub mod text;
pub mod walk;
