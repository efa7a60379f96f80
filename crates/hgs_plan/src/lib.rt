//! What readers and writers of a repository say of damaged files.
#![tactic(auto)]

pub mod damage;
pub mod print;
