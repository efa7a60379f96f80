//! The logs that writers make, and what holds of the files after each of them: what they stand for, and that their list of filelogs has
//! only names of paths.
#![tactic(auto)]

pub mod examples;
pub mod laws;
pub mod list_laws;
pub mod protocol;
